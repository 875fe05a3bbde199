//! An assembler for tests, examples and made guests: instructions, labels and bytes are put into a
//! `Builder`, and `Builder::finish` gives the ELF file that loads them.
//!
//! Code stands from address 0x10000 on, in pages that can be read and executed, and the entry is its
//! first instruction. Bytes stand from the next page on, in pages that can be read and written. What
//! each call adds, where everything stands and the bytes of the file are defined in `specs/`.
#![tactic(auto)]

mod builder;
mod header;
mod item;
mod numbers;

pub use builder::Builder;
pub use item::{Item, LabelUse};
use std::alloc::AllocError;
use thiserror::Error;

/// The number of a label of a builder, counted from 0.
pub type LabelNo = u32;

/// Why a builder gives no file, in the order in which it is looked at.
#[derive(Clone, Copy, Debug, PartialEq, Eq, Error)]
pub enum AsmFault {
    /// The label of the first use whose label is not bound.
    #[error("label {0} is not bound")]
    Label(LabelNo),
    /// The label of the first branch or jal whose offset its format cannot hold.
    #[error("label {0} is too far")]
    Far(LabelNo),
    /// The file would have more than 16777216 bytes.
    #[error("too long")]
    TooLong,
    /// Memory ran out. It says nothing of what was put in.
    #[error("no memory")]
    Memory,
}

impl From<AllocError> for AsmFault {
    ghost use Rattle.std.specs.Prelude.{◌≡◌};
    ghost use Rattle.osc_asm.specs.declared.AsmFault.TheVariants.{Memory};

    ghost from_gives = { λ _ fault. fault ≡ Memory };

    fn from(_error: AllocError) -> AsmFault {
        AsmFault::Memory
    }
}

#[cfg(test)]
mod tests;
