//! The boxes that are at home.

ghost use Rattle.std.specs.Prelude.{◌≡◌, ◌≤◌, Some, None, [], IfOk, length, map, option_map, replicate, slice_index_or, slice_set};
ghost use Rattle.std.specs.Vec.{vec_capacity};
ghost use Rattle.osc_core.specs.Acting.{HasSlots, boxes_changed};
ghost use Rattle.osc_core.specs.Parts.{held_in};
ghost use Rattle.osc_paging.specs.Boxes.{new_box};
ghost use Rattle.osc_turns.specs.Answers.{said};
ghost use Rattle.osc_machine.specs.Turns as told;
ghost use Rattle.osc_machine.specs.Turns.{hart_ask};
ghost use Rattle.osc_machine.specs.declared.HartAsk.TheVariants as does;

use osc_cache::has_32_slots;
use osc_turns::{Hart, HartBox, HartTold};
use std::alloc::{AllocError, Global};
use std::marker::Model;

/// Takes a box; None where it is not at home.
#[inline(always)]
fn take(boxes: &mut [Option<HartBox>], number: u32) -> Option<HartTold>
    ensures told { option_map said result ≡ option_map (λ held. told.Box held) (slice_index_or boxes.old number None) }
    ensures rest { boxes.new ≡ slice_set boxes.old number None }
    ensures slots { HasSlots (slice_index_or boxes.old number None) }
{
    let index = number as usize;
    if index >= boxes.len() {
        return None;
    }
    let hart_box = boxes[index].take()?;
    has_32_slots(&hart_box);
    Some(HartTold::Box(hart_box))
}

/// A box comes home.
#[inline(always)]
fn give(boxes: &mut [Option<HartBox>], number: u32, hart_box: HartBox)
    ensures { boxes.new ≡ slice_set boxes.old number (Some hart_box) }
{
    let index = number as usize;
    if index < boxes.len() {
        boxes[index] = Some(hart_box);
    }
}

/// A hart changes a box, where it is at home. None where it isn't.
fn change(boxes: &mut [Option<HartBox>], number: u32, hart: &Hart) -> Option<HartTold>
    requires { hart_ask hart.now ≡ does.ChangeBox number }
    ensures told { option_map said result ≡ option_map (λ held. told.Done) (slice_index_or boxes.old number None) }
    ensures changed { boxes.new ≡ boxes_changed number hart.now.kernel boxes.old (slice_index_or boxes.old number None) }
{
    let index = number as usize;
    if index >= boxes.len() {
        return None;
    }
    let held = boxes[index].as_mut()?;
    hart.change(held);
    Some(HartTold::Done)
}

/// The boxes of so many harts, at home.
fn new_boxes(alloc: Global, count: u32) -> Result<Vec<Option<HartBox>>, AllocError>
    ensures { IfOk result (λ boxes. boxes.items ≡ replicate count (Some new_box)) }
{
    let mut boxes = Vec::with_capacity(alloc, count as usize)?;
    for _made in 0..count {
        boxes.push(Some(HartBox::new(alloc)?))?;
    }
    Ok(boxes)
}

/// Moves the boxes out to a list with room for all.
#[tactic(auto, using(crate::proofs::Moving::takes_some, crate::proofs::Moving::takes_none, crate::proofs::Moving::ends))]
fn move_out(homes: &mut Vec<Option<HartBox>>, boxes: &mut Vec<HartBox>)
    requires empty { boxes.old.items ≡ [] }
    requires room { length homes.old.items ≤ vec_capacity boxes.old }
    ensures boxes { boxes.new.items ≡ held_in homes.old.items }
    ensures homes { homes.new.items ≡ [] }
    ensures capacity { vec_capacity homes.new ≡ vec_capacity homes.old }
{
    for held in homes.drain(..) {
        if let Some(hart_box) = held {
            boxes.push(hart_box).unwrap();
        }
    }
}

/// Moves the boxes home, where there is room for them.
fn move_in(homes: &mut Vec<Option<HartBox>>, boxes: &mut Vec<HartBox>)
    requires empty { homes.old.items ≡ [] }
    requires room { length boxes.old.items ≤ vec_capacity homes.old }
    ensures homes { homes.new.items ≡ map Some boxes.old.items }
    ensures boxes { boxes.new.items ≡ [] }
    ensures capacity { vec_capacity boxes.new ≡ vec_capacity boxes.old }
{
    for hart_box in boxes.drain(..) {
        homes.push(Some(hart_box)).unwrap();
    }
}

/// The boxes that are at home, by the numbers of their harts, with room for all of them to move out.
#[derive(Drop)]
pub struct Homes {
    held: Vec<Option<HartBox>>,
    room: Vec<HartBox>,
}

impl Model for Homes {
    ghost use Rattle.std.specs.Prelude.{◌≡◌, ◌≤◌, [], List, Option, length};
    ghost use Rattle.std.specs.Vec.{vec_capacity};
    ghost use Rattle.osc_paging.specs.Boxes.{BoxState};

    ghost Value = { List (Option BoxState) };

    ghost view = { λ homes. homes.held.items };

    ghost invariant = { λ homes. (homes.room.items ≡ []) × (length homes.held.items ≤ vec_capacity homes.room) };
}

/// Room for boxes to be at home.
#[derive(Drop)]
pub struct BoxRoom {
    homes: Vec<Option<HartBox>>,
}

impl Model for BoxRoom {
    ghost use Rattle.std.specs.Prelude.{ℕ, ◌≡◌, []};
    ghost use Rattle.std.specs.Vec.{vec_capacity};

    ghost Value = { ℕ };

    ghost view = { λ room. vec_capacity room.homes };

    ghost invariant = { λ room. room.homes.items ≡ [] };
}

impl BoxRoom {
    ghost use Rattle.std.specs.Prelude.{◌≡◌, ◌≤◌, Some, length, map};

    /// The boxes come home.
    pub fn settle(self, boxes: Vec<HartBox>) -> Homes
        requires { length boxes.items ≤ self }
        ensures { result ≡ map Some boxes.items }
    {
        let mut held = self.homes;
        let mut room = boxes;
        move_in(&mut held, &mut room);
        Homes { held, room }
    }
}

impl Homes {
    ghost use Rattle.std.specs.Prelude.{◌≡◌, ◌≤◌, Some, None, IfOk, length, option_map, replicate, slice_index_or, slice_set};
    ghost use Rattle.osc_core.specs.Acting.{HasSlots, boxes_changed};
    ghost use Rattle.osc_core.specs.Parts.{held_in};
    ghost use Rattle.osc_paging.specs.Boxes.{new_box};
    ghost use Rattle.osc_turns.specs.Answers.{said};
    ghost use Rattle.osc_machine.specs.Turns as told;
    ghost use Rattle.osc_machine.specs.Turns.{hart_ask};
    ghost use Rattle.osc_machine.specs.declared.HartAsk.TheVariants as does;

    /// The boxes of so many harts, at home. It takes memory.
    pub fn new(alloc: Global, count: u32) -> Result<Homes, AllocError>
        ensures { IfOk result (λ homes. homes ≡ replicate count (Some new_box)) }
    {
        let held = new_boxes(alloc, count)?;
        let room = Vec::with_capacity(alloc, count as usize)?;
        Ok(Homes { held, room })
    }

    /// Takes a box; None where it is not at home.
    #[inline(always)]
    pub fn take(&mut self, number: u32) -> Option<HartTold>
        ensures told { option_map said result ≡ option_map (λ held. told.Box held) (slice_index_or self.old number None) }
        ensures rest { self.new ≡ slice_set self.old number None }
        ensures slots { HasSlots (slice_index_or self.old number None) }
    {
        take(&mut self.held, number)
    }

    /// A box comes home.
    #[inline(always)]
    pub fn give(&mut self, number: u32, hart_box: HartBox)
        ensures { self.new ≡ slice_set self.old number (Some hart_box) }
    {
        give(&mut self.held, number, hart_box);
    }

    /// A hart changes a box, where it is at home. None where it isn't.
    pub fn change(&mut self, number: u32, hart: &Hart) -> Option<HartTold>
        requires { hart_ask hart.now ≡ does.ChangeBox number }
        ensures told { option_map said result ≡ option_map (λ held. told.Done) (slice_index_or self.old number None) }
        ensures changed { self.new ≡ boxes_changed number hart.now.kernel self.old (slice_index_or self.old number None) }
    {
        change(&mut self.held, number, hart)
    }

    /// The boxes that are at home, in their order, and the room that they leave.
    pub fn move_out(self) -> (Vec<HartBox>, BoxRoom)
        ensures boxes { result.0.items ≡ held_in self }
        ensures room { length self ≤ result.1 }
    {
        let mut homes = self.held;
        let mut boxes = self.room;
        move_out(&mut homes, &mut boxes);
        (boxes, BoxRoom { homes })
    }
}
