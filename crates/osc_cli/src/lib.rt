//! The words of the command, read as the task that they ask for.
#![tactic(auto)]

mod command;
mod table;
mod task;

pub use table::option_name;
pub use task::{Mode, Task, WordsFault, read_words};

#[cfg(test)]
mod tests;
