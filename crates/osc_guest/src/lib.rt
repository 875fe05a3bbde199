//! What a hart does with the instructions of its thread, one atomic action at a time: what it asks
//! for next, and what it makes of the answer. The definitions stand in `specs/`; the plain types
//! that they speak of are declared here.
#![tactic(auto)]

mod accesses;
mod laws;
mod places;
mod worked;

pub use accesses::{MemoryAccess, Reservation, Touch, What};
pub use laws::{
    accesses_fit, answers_carry, answers_keep, answers_move, asks_within, hands_move, places_ask,
    stays_exactly,
};
pub use places::{After, Ask, Place, Stage};
pub use worked::{
    addi_takes_three_or_six, ecall_asks, first_pc_faults, ld_takes_four, orders_obeyed, parts_kept,
    reservations_by_version, sd_takes_ten,
};
