//! Assembles a guest's text: each line makes a call of the builder of `osc_asm`, and the text's file is
//! that of all its calls. What a line says is defined in `osc_line`; lines, labels and the order of the
//! faults in `specs/`.
#![tactic(auto)]

mod assembler;
mod digits;
mod lines;
mod names;

pub use lines::assemble;
use std::alloc::AllocError;
use thiserror::Error;

/// Why a text has no file, in the order in which it is looked at. Lines count from 1.
#[derive(Clone, Copy, Debug, PartialEq, Eq, Error)]
pub enum TextFault {
    /// The text has more than 16777216 bytes.
    #[error("too long")]
    TooLong,
    /// The first line that says nothing.
    #[error("line {line} form")]
    Form { line: u32 },
    /// The first line that binds a name which a line before it binds.
    #[error("line {line} bound")]
    Bound { line: u32 },
    /// The first line that uses a name which no line binds.
    #[error("line {line} label")]
    Label { line: u32 },
    /// The first line whose offset to a name its format cannot hold.
    #[error("line {line} far")]
    Far { line: u32 },
    /// The file would have more than 16777216 bytes.
    #[error("file too long")]
    FileTooLong,
    /// Memory ran out. It says nothing of the text.
    #[error("no memory")]
    Memory,
}

impl From<AllocError> for TextFault {
    ghost use Rattle.std.specs.Prelude.{◌≡◌};
    ghost use Rattle.osc_assemble.specs.declared.TextFault.TheVariants.{Memory};

    ghost from_gives = { λ _ fault. fault ≡ Memory };

    fn from(_error: AllocError) -> TextFault {
        TextFault::Memory
    }
}

#[cfg(test)]
mod tests;
