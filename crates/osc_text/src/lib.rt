//! The text of instructions: each instruction word of RV64IMA with `fence.i` has one spelling.
//!
//! Names are those of the RISC-V Unprivileged manual's listings. Registers are `x0` to `x31`,
//! numbers decimal with `-` before negative ones, and operands are parted by a comma and a space. An
//! instruction is a `Spelling`, its mnemonic and its operands, and a spelling is a text: both are
//! defined in `specs/`. No call takes memory.
#![tactic(auto)]

mod buffer;
mod front;
mod meaning;
mod names;
mod print;
mod spelling;

pub use buffer::TextBuf;
pub use front::{address, number, register};
pub use print::print_instr;
pub use spelling::{Mnemonic, Number, Operand, Operands, Spelling};

#[cfg(test)]
mod tests;
