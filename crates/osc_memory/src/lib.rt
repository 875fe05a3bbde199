//! The memory of the object run: pages of image and stack, objects, and the processes that have them. The
//! definitions stand in `osc_world`.
#![tactic(auto)]

mod memory;
mod pages;
mod process;

pub use memory::{HeapDeed, Memory, Numbered};
pub use pages::{Page, Pages, lets};
pub use process::Process;
