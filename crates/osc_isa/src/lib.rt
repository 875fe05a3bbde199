//! What each instruction does, on numbers. The definitions stand in `specs/`; the type that they give
//! is declared here.
#![tactic(auto)]

use osc_rv::LoadKind;

/// What an integer instruction does to its hart.
#[derive(Clone, Copy, Debug, PartialEq, Eq)]
pub enum IntDone {
    /// Register `rd` gets `value`, and the hart goes on at `pc`.
    Set {
        rd: u8,
        value: u64,
        pc: u64,
    },
    /// The hart goes on at `pc`.
    Go {
        pc: u64,
    },
    /// Register `rd` gets what stands at `address`.
    Load {
        rd: u8,
        kind: LoadKind,
        address: u64,
    },
    /// The `width` bytes from `address` on get `value`, which they can hold; `width` is 1, 2, 4 or 8.
    Store {
        width: u8,
        address: u64,
        value: u64,
    },
    /// An atomic access at `address`; `operand` is 0 where the instruction has none.
    Atomic {
        address: u64,
        operand: u64,
    },
    /// An environment call.
    Call,
    /// A breakpoint.
    Break,
    /// A jump or a taken branch to an address that is not divisible by 4. No register changes.
    BadTarget {
        target: u64,
    },
}
