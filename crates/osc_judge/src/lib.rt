//! The judge of a run: a world that is booted from an image, is given one event after another, and keeps
//! the first error. The definitions stand in `osc_world`.
#![tactic(auto)]

mod boot;
mod events;
mod judging;

pub use judging::{Judged, JudgedError, World};
pub use osc_world::ObjectWhy;

#[cfg(test)]
mod tests;
