//! Lines of a guest's text: instructions in their one spelling, labels, and what stands for several
//! instructions or for bytes.
#![tactic(auto)]

mod line;
mod mnemonic;
mod operands;
mod reader;
mod split;
mod words;

pub use line::{Line, Name, read_line};
pub use reader::read_instr;

#[cfg(test)]
mod tests;
