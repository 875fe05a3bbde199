//! A guest that a number gives: it grants, uses, frees and moves objects at random, beside a second
//! thread that counts, and writes a sum. The file is the same for the same number.
#![tactic(auto)]

mod code;
mod draw;
mod guest;
mod rounds;

pub use guest::guest_of;

#[cfg(test)]
mod tests;
