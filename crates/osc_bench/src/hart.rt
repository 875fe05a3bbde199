//! A hart in a loop of register instructions, loads and stores, over a vector of words and without a
//! kernel.

ghost use Rattle.std.specs.Prelude.{◌≡◌, IfOk, IfSome};
ghost use Rattle.osc_guest.specs.Ranges.{BoxIn, StartIn};
ghost use Rattle.osc_hart.specs.Within.{Driven};

use osc_cache::has_32_slots;
use osc_guest::{Ask, places_ask};
use osc_hart::{HartBox, Told, UserHart, boxes_fit, stays_driven};
use osc_sv39::{PteBits, leaf, table};
use osc_word::{Regs, Start, WordAt};
use std::alloc::{AllocError, Global};

/// The words of a frame.
const FRAME_WORDS: usize = 512;

/// The frames: the tables of levels 2, 1 and 0, the instructions, and the data.
const FRAMES: u32 = 5;

/// A gate of this version is not taken any more.
const LAST_VERSION: u64 = (1 << 63) - 1;

/// The first address of the instructions, and that of the data.
const CODE: u64 = 0x1_0000;

const DATA: u64 = 0x1_1000;

/// The loop: ld t0, 0(a0); addi t0, t0, 1; sd t0, 0(a0); add t1, t1, t0; xor t2, t2, t1;
/// slli t3, t1, 3; sltu t4, t3, t2; jal x0, -28. Two instructions stand in a word.
const LOOP: [u64; 4] = [
    0x0012_8293_0005_3283,
    0x0053_0333_0055_3023,
    0x0033_1e13_0063_c3b3,
    0xfe5f_f06f_007e_3eb3,
];

/// What the hart shares with nobody here: the words of all frames, one gate for the only frame that is
/// written, and the hart's box while it is at home.
#[derive(Drop)]
struct Memory {
    words: Vec<u64>,
    version: u64,
    home: Option<HartBox>,
}

/// A new box, which names no frame.
fn at_home(alloc: Global) -> Result<HartBox, AllocError>
    ensures { IfOk result (BoxIn 5) }
{
    boxes_fit();
    let hart_box = HartBox::new(alloc)?;
    Ok(hart_box)
}

impl Memory {
    /// Tables for one page of instructions and one of data.
    fn new(alloc: Global) -> Result<Memory, AllocError>
        ensures { IfOk result (λ memory. IfSome memory.home (BoxIn 5)) }
    {
        let mut words = vec![in alloc; 0; FRAMES as usize * FRAME_WORDS]?;
        words[0] = table(1);
        words[FRAME_WORDS] = table(2);
        words[2 * FRAME_WORDS + 0x10] = leaf(3, PteBits(0xdb));
        words[2 * FRAME_WORDS + 0x11] = leaf(4, PteBits(0xd7));
        for (word, value) in words[3 * FRAME_WORDS..].iter_mut().zip(LOOP.iter()) {
            *word = *value;
        }
        Ok(Memory {
            words,
            version: 0,
            home: Some(at_home(alloc)?),
        })
    }
}

impl Memory {
    /// A word of a frame, or 0 where there is no such frame.
    fn word(&self, at: WordAt) -> u64 {
        let place = place_of(at);
        if place < self.words.len() {
            self.words[place]
        } else {
            0
        }
    }

    /// Stores a word of a frame, where there is such a frame.
    fn store(&mut self, at: WordAt, value: u64)
        ensures { self.new.home ≡ self.old.home }
    {
        let place = place_of(at);
        if place < self.words.len() {
            self.words[place] = value;
        }
    }
}

/// The place of a word among those of all frames.
fn place_of(at: WordAt) -> usize {
    at.frame as usize * FRAME_WORDS + at.index as usize
}

/// The sum of the instructions that a hart runs in `count` steps and of what its loop adds up.
pub fn stepped(alloc: Global, count: u64) -> Result<u64, AllocError> {
    let mut memory = Memory::new(alloc)?;
    stays_driven();
    let mut hart = UserHart::begin(&start());
    for _ in 0..count {
        step(&mut hart, &mut memory);
    }
    Ok(hart.retired().wrapping_add(hart.regs().get(6)))
}

/// A thread at the first instruction of the loop.
fn start() -> Start
    ensures { StartIn 5 result }
{
    let mut regs = Regs::new();
    regs.set(10, DATA);
    Start {
        pid: 0,
        root: 0,
        regs,
        pc: CODE,
        levels: 3,
        frames: FRAMES,
    }
}

/// Does what the hart asks for next, and tells it so. What the loop never asks for is not done.
fn step(hart: &mut UserHart, memory: &mut Memory)
    requires { Driven 5 hart.old.hart memory.old.home }
    ensures { Driven 5 hart.new.hart memory.new.home }
{
    places_ask();
    boxes_fit();
    stays_driven();
    match hart.ask() {
        Ask::TakeBox => {
            if let Some(hart_box) = memory.home.take() {
                has_32_slots(&hart_box);
                hart.told(Told::Box(hart_box));
            }
        }
        Ask::Load(at) => {
            hart.told(Told::Word(memory.word(at)));
        }
        Ask::TakeGate { only: None, .. } if memory.version < LAST_VERSION => {
            hart.told(Told::Gate(memory.version));
        }
        Ask::Store { at, value } => {
            memory.store(at, value);
            hart.told(Told::Done);
        }
        Ask::OpenGate { version, .. } => {
            memory.version = version;
            hart.told(Told::Done);
        }
        Ask::GiveBox => {
            memory.home = Some(hart.hand_back());
            hart.told(Told::Done);
        }
        Ask::TakeGate { .. } | Ask::Kernel(_) | Ask::Rest => {}
    }
}
