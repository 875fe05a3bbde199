//! What is given back when a call returns.

ghost use Rattle.std.specs.Prelude.{◌≡◌, ◌≤◌, ◌++◌, [], length, IfOk, MatchOption};
ghost use Rattle.std.specs.Vec.{vec_capacity};
ghost use Rattle.osc_slot.specs.Slots.{is_block, is_room};
ghost use Rattle.osc_space.specs.Header.{block_of};
ghost use Rattle.osc_space.specs.Objects.{fact};
ghost use Rattle.osc_space.specs.Space.{GivesBack, Keeps};
ghost use Rattle.osc_process.specs.Given.{blocks_of, gives_one, left_of, maybe_one};

use osc_class::{Room, room_of};
use osc_heap::Block;
use osc_mark::Marks;
use osc_shadow::HEADER;
use osc_space::ObjectFact;
use osc_word::{ObjectNo, Waiting};
use std::alloc::{AllocError, Global};
use std::marker::Model;

/// The most blocks that one call gives back: those of all objects that wait, and that of a realloc's
/// old object.
const MOST_BLOCKS: usize = 65;

/// What is given back when a call returns: nothing, or blocks in their order and the leaf tables that
/// stand aside. All room is taken by `new`.
#[derive(Drop)]
pub struct Closing {
    gives: bool,
    blocks: Vec<Block>,
}

impl Model for Closing {
    ghost use Rattle.std.specs.Prelude.{◌≤◌};
    ghost use Rattle.std.specs.Vec.{vec_capacity};
    ghost use Rattle.osc_space.specs.Space.{Closing as Closed};
    ghost use Rattle.osc_process.specs.Given.{closing_with};

    ghost Value = { Closed };

    ghost view = { λ c. closing_with c.gives c.blocks.items };

    ghost invariant = { λ c. 65 ≤ vec_capacity c.blocks };
}

/// The block of an object.
pub(crate) fn block_of(fact: ObjectFact) -> Block
    ensures { result ≡ block_of fact }
{
    Block {
        start: fact.canon.saturating_sub(HEADER),
        room: room_of(fact.size),
    }
}

/// Whether two rooms are the same.
fn is_room(a: Room, b: Room) -> bool
    ensures { result ≡ is_room a b }
{
    match (a, b) {
        (Room::Small(a), Room::Small(b)) => a == b,
        (Room::Pages(a), Room::Pages(b)) => a == b,
        _ => false,
    }
}

/// Whether two blocks are the same.
pub(crate) fn is_block(a: Block, b: Block) -> bool
    ensures { result ≡ is_block a b }
{
    a.start == b.start && is_room(a.room, b.room)
}

/// The block that a realloc to `n` bytes leaves: the old one, where it does not stay.
pub(crate) fn block_left(block: Block, n: u64) -> Option<Block>
    ensures { result ≡ left_of block n }
{
    if is_room(room_of(n), block.room) {
        None
    } else {
        Some(block)
    }
}

/// What is kept of an object; None exactly where there is none of this number.
fn fact_of(marks: &Marks, object: ObjectNo) -> Option<ObjectFact>
    ensures { result ≡ fact marks.now.objects object }
{
    if object < marks.next_object() {
        Some(marks.fact(object))
    } else {
        None
    }
}

/// Pushes the blocks of objects.
fn push_blocks(blocks: &mut Vec<Block>, marks: &Marks, objects: &[ObjectNo])
    requires empty { blocks.old.items ≡ [] }
    requires room { length objects.now ≤ vec_capacity blocks.old }
    ensures blocks { blocks.new.items ≡ blocks_of marks.now.objects objects.now }
    ensures few { length blocks.new.items ≤ length objects.now }
    ensures capacity { vec_capacity blocks.old ≤ vec_capacity blocks.new }
{
    for object in objects {
        if let Some(fact) = fact_of(marks, *object) {
            blocks.push(block_of(fact)).unwrap();
        }
    }
}

impl Closing {
    /// Nothing is given back.
    pub fn new(alloc: Global) -> Result<Closing, AllocError>
        ensures { IfOk result (λ c. c ≡ Keeps) }
    {
        Ok(Closing {
            gives: false,
            blocks: Vec::with_capacity(alloc, MOST_BLOCKS)?,
        })
    }

    /// Nothing is given back any more.
    pub fn keep(&mut self)
        ensures { self.new ≡ Keeps }
    {
        self.gives = false;
        self.blocks.clear();
    }

    /// The blocks that are given back; None exactly where nothing is.
    pub fn blocks(&self) -> Option<&[Block]>
        ensures { MatchOption result (self.now ≡ Keeps) (λ blocks. self.now ≡ GivesBack blocks.now) }
    {
        if self.gives { Some(&self.blocks) } else { None }
    }

    /// A block is given back, where there is one.
    pub(crate) fn give(&mut self, block: Option<Block>)
        ensures { self.new ≡ gives_one block }
    {
        self.gives = block.is_some();
        self.blocks.clear();
        if let Some(block) = block {
            self.blocks.push(block).unwrap();
        }
    }

    /// The blocks of all that wait are given back, in the order of their calls, and then another.
    pub(crate) fn give_waiting(&mut self, marks: &Marks, waiting: &Waiting, last: Option<Block>)
        requires { length waiting.now ≤ 64 }
        ensures { self.new ≡ GivesBack (blocks_of marks.now.objects waiting.now ++ maybe_one last) }
    {
        self.gives = true;
        self.blocks.clear();
        push_blocks(&mut self.blocks, marks, waiting.objects());
        if let Some(block) = last {
            self.blocks.push(block).unwrap();
        }
    }
}
