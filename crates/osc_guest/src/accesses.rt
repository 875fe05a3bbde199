//! Accesses of an instruction to memory.

use osc_rv::{AmoOp, LoadKind, Width};
use osc_word::Access;

/// What an access does with the bytes at its address.
#[derive(Clone, Copy, Debug, PartialEq, Eq)]
pub enum What {
    /// They are the instruction at the pc.
    Fetch,
    Load(LoadKind),
    /// They get this value, which they can hold.
    Store(u64),
    /// An atomic memory operation.
    Amo {
        op: AmoOp,
        width: Width,
        operand: u64,
    },
    /// A load-reserved.
    Lr(Width),
    /// A store-conditional of this value, which they can hold.
    Sc(u64),
}

/// An access to the `width` bytes from an address on. Register `rd` gets the result; it is 0 where
/// there is none.
#[derive(Clone, Copy, Debug, PartialEq, Eq)]
pub struct MemoryAccess {
    pub address: u64,
    pub width: u8,
    pub rd: u8,
    pub what: What,
}

/// What a load-reserved leaves for a store-conditional. The frame's gate had this version when the
/// word was read; `width` is in bytes.
#[derive(Clone, Copy, Debug, PartialEq, Eq)]
pub struct Reservation {
    pub address: u64,
    pub width: u8,
    pub frame: u32,
    pub version: u64,
}

/// An access of process `pid` to `width` bytes, and whether it was done.
#[derive(Clone, Copy, Debug, PartialEq, Eq)]
pub struct Touch {
    pub pid: u32,
    pub address: u64,
    pub width: u8,
    pub kind: Access,
    pub done: bool,
}
