//! Values of the object run, the bytes in which they stand, and what the operations of an instruction give
//! for them. The definitions stand in `osc_world`.
#![tactic(auto)]

mod gather;
mod objects;
mod operations;
mod overlay;
mod row;

pub use gather::value_in;
pub use objects::Object;
pub use operations::{amo_value, is_amo_operand, is_taken_for, multiplied, operated, operated_imm};
pub use row::Row;

#[cfg(test)]
mod tests;
