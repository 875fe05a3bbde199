//! The plan of a realloc: always a fresh object with fresh shadow pages, and the old one is dead. The
//! block stays exactly where the room of the new size is the old one; else the bytes are copied into
//! a new block.
#![tactic(auto)]

mod answer;
mod blocks;
mod bytes;
mod letting;
mod realloc;

pub use answer::Realloced;
pub use realloc::plan_realloc;

#[cfg(test)]
mod test_words;
#[cfg(test)]
mod tests;
