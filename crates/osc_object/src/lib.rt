//! The interpreter of the object run: a world of harts, processes, objects and pages, and what an event
//! comes to in it. The definitions stand in `osc_world`.
#![tactic(auto)]

mod accesses;
mod apply;
mod beginnings;
mod calls;
mod changes;
mod conditional;
mod decisions;
mod deeds;
mod events;
mod hart;
mod instructions;
mod state;
mod steps;
mod turn;
mod writing;

pub use decisions::{Decided, Deed};
pub use events::decide_event;
pub use hart::Hart;
pub use state::{State, Thread};
pub use steps::Step;
pub use turn::{Put, Turn};
