//! Definitions of one process's memory: its objects with the shadow pages granted to them, its page
//! tables and its heap, and what each call plans on them. A plan is one change of sets, maps and
//! lists together with the jobs that it leaves. The code of the plans stands in the crates above.
#![tactic(auto)]

pub mod examples;
pub mod laws;

use osc_word::WordAt;

/// Whether an object lives.
#[derive(Clone, Copy, Debug, PartialEq, Eq)]
pub enum ObjectState {
    Live,
    /// Dead by the call with this place in the journal.
    Dead(u32),
}

/// What is kept of an object.
#[derive(Clone, Copy, Debug, PartialEq, Eq)]
pub struct ObjectFact {
    /// The first of its shadow pages.
    pub first: u64,
    /// The number of its shadow pages.
    pub pages: u32,
    /// The bytes that were asked for.
    pub size: u64,
    /// Its address in its shadow pages, which the guest has.
    pub user: u64,
    /// The address of its first byte in its block, 16 past the block's start.
    pub canon: u64,
    pub state: ObjectState,
}

/// What stands at a pointer that a guest gives back.
#[derive(Clone, Copy, Debug, PartialEq, Eq)]
pub enum HeaderLook {
    /// A live object, whose header is in these two words.
    Words(WordAt, WordAt),
    /// The pointer is 0.
    Zero,
    /// An object that is dead since a call.
    DoubleFree { object: u32, call: u32 },
    /// No object starts there.
    NotAnObject,
}
