//! The integer instructions: what one does, by what the registers hold. No memory is touched here; a
//! load or a store is answered as its address.
#![tactic(auto)]

mod numbers;
mod operation;
mod step;

pub use numbers::extended;
pub use operation::{is_taken, op_of_imm, op_of_shift, op_of_shift_w, operate, store_width};
pub use osc_isa::IntDone;
pub use step::int_step;

#[cfg(test)]
mod tests;
