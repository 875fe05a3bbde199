//! The answers to what a hart asks for.

use osc_cache::HartBox;
use osc_word::Resume;

/// The answer to an action.
#[derive(Drop)]
pub enum Told {
    /// Its box was taken.
    Box(HartBox),
    /// The thing was taken by another, or the gate's version is the last one: the hart asks again.
    Busy,
    /// This word was loaded.
    Word(u64),
    /// The gate was taken, and has this version.
    Gate(u64),
    /// The gate's version is not the one that was asked for. The gate was not taken.
    OldVersion,
    /// The kernel was given back.
    Resumed(Resume),
    /// The store, the opening of a gate or the giving of the box was done.
    Done,
}
