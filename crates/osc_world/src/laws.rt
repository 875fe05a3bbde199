//! The laws of the object run and of the plain run. Each is the contract of a function that does
//! nothing.

mod events;
mod examples;
mod objects;
mod operations;
mod values;

pub use events::{
    errors_do_not_depend_on_choices, first_error_stays, fitting_goes_on, fork_copies,
    idle_harts_do_not_fit, other_instructions_are_plain, output_fits_its_room,
    pointers_name_objects, runs_go_on, stuck_stays, unfit_is_trap, worlds_only_grow,
};
pub use examples::{
    fork_copies_and_shares, join_gives_the_value, loads_from_nothing_err, misuses_err,
    moves_keep_bytes, parts_err, plain_heap_reads_freed_bytes, plain_pointers_are_canonical,
    plain_runs_fork_and_share, plain_runs_join, plain_runs_write, products_are_of_numbers,
    programs_have_one_page, refused_calls_answer, runs_start_from_the_boot,
    second_conditional_traps, stores_and_frees_is_clean, stores_between_end_reservations,
    writes_append,
};
pub use objects::{
    dead_objects_refuse, freed_objects_are_dead, inner_pointers_are_not_freed, live_objects_differ,
    new_objects_are_zero, new_objects_come_last, resized_keeps_common_bytes,
    stores_end_reservations, stores_read_back, stores_revive_nothing, success_needs_a_reservation,
};
pub use operations::{
    first_errors_are_chosen, pointers_are_exchanged_whole, pointers_are_not_multiplied,
    pointers_are_not_null, pointers_move,
};
pub use values::{
    numbers_read_back, parts_are_no_numbers, parts_stand_in_order, pointers_read_back,
};
