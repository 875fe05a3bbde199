//! Instruction words of RV64IMA with `fence.i`, both ways: `decode` reads a word, `encode` writes it.
//!
//! `Instr` has one variant for each format and kind of the RISC-V Unprivileged manual, with its
//! registers and immediates as `Field`s, numbers that fit their place in the word. The listings
//! of the manual stand once, in `specs/Codes.antt`, for both directions. Neither call takes memory
//! or has a loop.
#![tactic(auto)]

mod codes;
mod decoding;
mod encoding;
mod field;
mod instr;

pub use decoding::decode;
pub use encoding::encode;
pub use field::Field;
pub use instr::{
    AmoOp, BranchKind, ImmOp, Instr, LoadKind, MulOp, RegOp, ShiftOp, StoreKind, UpperOp, Width,
};

#[cfg(test)]
mod tests;
