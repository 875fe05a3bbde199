//! The lines of reports: what a person reads of a process that ended by a fault. No memory is taken.
#![tactic(auto)]

mod buffer;
mod digits;
mod text;

pub use buffer::LineBuf;
pub use osc_calls::{Place, Report};
pub use text::line;

#[cfg(test)]
mod tests;
