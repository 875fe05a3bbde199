//! A hart of the machine: it says what it does next to the things that all harts share, in its guest
//! instructions and in its calls, and is told what came of it.
#![tactic(auto)]

mod asks;
mod boxes;
mod calls;
mod hands;
mod hart;
mod place;
mod turns;

pub use hart::Hart;
pub use osc_cache::HartBox;
pub use osc_kernel::Kernel;
pub use osc_machine::HartAsk;
pub use place::{HartTold, NOTHING, Stepped};
