//! Small programs, whose runs are computed. Each object run starts from the pages of the program's image.
#![tactic(auto, unfolding(osc_rv::specs::Instr::instr_of, osc_rv::specs::Instr::word_of, osc_image::specs::Image::laid_byte, osc_image::specs::Image::page_permits, crate::specs::Values::numbers_in, crate::specs::Values::are_parts, crate::specs::States::changed_at, crate::specs::Deeds::state_after, crate::specs::Offers::chosen, crate::specs::Accesses::reached_place, crate::specs::Accesses::overlaid, crate::specs::Accesses::put_in_world, crate::specs::Accesses::row_at, crate::specs::Calls::serves, crate::specs::Events::offered, crate::specs::Events::instr_at, crate::specs::Events::meaning, crate::specs::Run::object_run, osc_word::specs::Environment::call_of, crate::specs::PlainWorld::plain_row, crate::specs::PlainWorld::plain_put, crate::specs::PlainWorld::plain_serves, crate::specs::PlainWorld::plain_offered, crate::specs::PlainRun::plain_meaning, crate::specs::PlainRun::plain_run,))]

ghost use Rattle.std.specs.Prelude.{ℕ, ◌≡◌, ◌<◌, ◌≤◌, ◌++◌, [], ◌∷◌, List, length, Some, None};
ghost use Rattle.osc_word.specs.declared.steps.Choice.TheVariants.{Success, Fail};
ghost use Rattle.osc_word.specs.declared.steps.Event.{Event};
ghost use Rattle.osc_rv.specs.declared.instr.Instr.{Instr};
ghost use Rattle.osc_image.specs.Image.{pages};
ghost use Rattle.osc_world.specs.Run.{object_run_of};
ghost use Rattle.osc_world.specs.PlainRun.{plain_run_of};
ghost use Rattle.osc_world.specs.declared.ObjectWhy.TheVariants.{Trap, PointerUse, DeadObject, Outside, PointerBytes, BadFree};
ghost use Rattle.osc_world.specs.States.{status_of};
ghost use Rattle.osc_world.specs.Examples.{code_of, image_of_program, config_of, run_of, plain_run_over, plain_register, plain_status, image_with, steps, event, malloc_events, free_events, realloc_events, stores_and_frees, stores_and_frees_events, loads_from_nothing, loads_after_free, frees_twice, frees_inside, stores_before, moves, moves_events, loads_after_move, loads_a_part, multiplies, multiplies_pointer, reserves_once, reserves_beside, until_reserved, shares_and_forks, before_the_exit, shares_and_forks_events, uses_after_free, events_before_exit, spawns_and_joins, before_thread_is_done, until_thread_is_done, writes_two_bytes, writes_events, asks_in_vain, asks_in_vain_events, register_after, plain_output};
ghost use Rattle.osc_world.specs.declared.Value.TheVariants.{Num};

/// An image of at most 4096 bytes of code has the one page from which these runs start.
pub fn programs_have_one_page()
    ensures { (bytes : List ℕ) → 0 < length bytes → length bytes ≤ 4096 → pages (image_with bytes) ≡ 16 ∷ [] }
{}

/// These runs are those from the boot of the program's image.
pub fn runs_start_from_the_boot()
    ensures object { (harts : ℕ) (program : List Instr) (events : List Event) → 0 < length (code_of program) → length (code_of program) ≤ 4096
        → object_run_of (image_of_program program) (config_of harts) events ≡ run_of harts program events }
    ensures plain { (harts : ℕ) (program : List Instr) (events : List Event)
        → plain_run_of (image_of_program program) (config_of harts) events ≡ plain_run_over harts program events }
{}

/// malloc(24), a store and a load, free and exit meet no error and end with 0.
pub fn stores_and_frees_is_clean()
    ensures clean { (run_of 1 stores_and_frees stores_and_frees_events).error ≡ None }
    ensures status { status_of (run_of 1 stores_and_frees stores_and_frees_events).world ≡ Some 0 }
{}

/// A load from an object of no bytes is outside it: the error of event 3, the fourth.
pub fn loads_from_nothing_err()
    ensures error { (run_of 1 loads_from_nothing (malloc_events ++ steps 0 3)).error ≡ Some Outside }
    ensures event { (run_of 1 loads_from_nothing (malloc_events ++ steps 0 3)).events ≡ 3 }
{}

/// A load from a dead object, a second free, a free past the start and a store before the start err.
pub fn misuses_err()
    ensures dead { (run_of 1 loads_after_free (malloc_events ++ free_events ++ steps 0 1)).error ≡ Some DeadObject }
    ensures twice { (run_of 1 frees_twice (malloc_events ++ free_events ++ free_events)).error ≡ Some BadFree }
    ensures inside { (run_of 1 frees_inside (malloc_events ++ free_events)).error ≡ Some BadFree }
    ensures before { (run_of 1 stores_before (malloc_events ++ steps 0 2)).error ≡ Some Outside }
{}

/// A realloc keeps the bytes, and the old object is dead, also where the new one is smaller.
pub fn moves_keep_bytes()
    ensures clean { (run_of 1 moves moves_events).error ≡ None }
    ensures status { status_of (run_of 1 moves moves_events).world ≡ Some 9 }
    ensures old { (run_of 1 loads_after_move (malloc_events ++ steps 0 3 ++ realloc_events ++ steps 0 1)).error ≡ Some DeadObject }
{}

/// A stored pointer is loaded whole, and a load of one of its bytes errs.
pub fn parts_err()
    ensures error { (run_of 1 loads_a_part (malloc_events ++ steps 0 3)).error ≡ Some PointerBytes }
    ensures event { (run_of 1 loads_a_part (malloc_events ++ steps 0 3)).events ≡ 6 }
{}

/// Numbers are multiplied, and a pointer is not: the error of event 5, the sixth.
pub fn products_are_of_numbers()
    ensures clean { (run_of 1 multiplies (steps 0 5)).error ≡ None }
    ensures status { status_of (run_of 1 multiplies (steps 0 5)).world ≡ Some 42 }
    ensures plain { plain_status (plain_run_over 1 multiplies (steps 0 5)) ≡ Some 42 }
    ensures error { (run_of 1 multiplies_pointer (malloc_events ++ steps 0 2)).error ≡ Some PointerUse }
    ensures event { (run_of 1 multiplies_pointer (malloc_events ++ steps 0 2)).events ≡ 5 }
{}

/// On one hart a store-conditional after a load-reserved may succeed, and a second one may not.
pub fn second_conditional_traps()
    ensures first { (run_of 1 reserves_once (malloc_events ++ steps 0 1 ++ event 0 Success ∷ event 0 Fail ∷ [])).error ≡ None }
    ensures second { (run_of 1 reserves_once (malloc_events ++ steps 0 1 ++ event 0 Success ∷ event 0 Success ∷ [])).error ≡ Some Trap }
{}

/// A store of another hart into the reserved word comes between: the store-conditional may fail, and may
/// not succeed.
pub fn stores_between_end_reservations()
    ensures alone { (run_of 2 reserves_beside (until_reserved ++ event 0 Success ∷ [])).error ≡ None }
    ensures success { (run_of 2 reserves_beside (until_reserved ++ steps 1 1 ++ event 0 Success ∷ [])).error ≡ Some Trap }
    ensures failure { (run_of 2 reserves_beside (until_reserved ++ steps 1 1 ++ event 0 Fail ∷ [])).error ≡ None }
{}

/// A child of fork has objects of its own and the same shared region: the parent reads its own 5 and the
/// child's 7, and adds the child's status, 6. A wait before the child has ended does not fit.
pub fn fork_copies_and_shares()
    ensures clean { (run_of 2 shares_and_forks shares_and_forks_events).error ≡ None }
    ensures status { status_of (run_of 2 shares_and_forks shares_and_forks_events).world ≡ Some 18 }
    ensures early { (run_of 2 shares_and_forks (before_the_exit ++ steps 0 2)).error ≡ Some Trap }
{}

/// The plain run of the same events ends with the same status.
pub fn plain_runs_fork_and_share()
    ensures { plain_status (plain_run_over 2 shares_and_forks shares_and_forks_events) ≡ Some 18 }
{}

/// The plain heap gives canonical addresses: the first two blocks of the second class, in a machine of
/// 1024 frames.
pub fn plain_pointers_are_canonical()
    ensures first { plain_register (plain_run_over 1 uses_after_free events_before_exit) 8 ≡ Some 0x2000400010 }
    ensures second { plain_register (plain_run_over 1 uses_after_free events_before_exit) 9 ≡ Some 0x2000400040 }
{}

/// The plain run reads what stood in a freed object.
pub fn plain_heap_reads_freed_bytes()
    ensures { plain_status (plain_run_over 1 uses_after_free (events_before_exit ++ steps 0 1)) ≡ Some 9 }
{}

/// A join gives the value that the thread left, and does not fit before.
pub fn join_gives_the_value()
    ensures clean { (run_of 2 spawns_and_joins (until_thread_is_done ++ steps 0 3)).error ≡ None }
    ensures status { status_of (run_of 2 spawns_and_joins (until_thread_is_done ++ steps 0 3)).world ≡ Some 7 }
    ensures early { (run_of 2 spawns_and_joins (before_thread_is_done ++ steps 0 1)).error ≡ Some Trap }
{}

/// A write appends the bytes of its buffer, and one of no bytes looks at none.
pub fn writes_append()
    ensures clean { (run_of 1 writes_two_bytes writes_events).error ≡ None }
    ensures output { (run_of 1 writes_two_bytes writes_events).world.output ≡ 104 ∷ 105 ∷ [] }
    ensures answer { register_after (run_of 1 writes_two_bytes writes_events) 10 ≡ Some (Num 0) }
{}

/// What is refused or unknown answers -1, and a refused share 0.
pub fn refused_calls_answer()
    ensures fork { register_after (run_of 1 asks_in_vain asks_in_vain_events) 18 ≡ Some (Num 18446744073709551615) }
    ensures spawn { register_after (run_of 1 asks_in_vain asks_in_vain_events) 19 ≡ Some (Num 18446744073709551615) }
    ensures join { register_after (run_of 1 asks_in_vain asks_in_vain_events) 20 ≡ Some (Num 18446744073709551615) }
    ensures wait { register_after (run_of 1 asks_in_vain asks_in_vain_events) 21 ≡ Some (Num 18446744073709551615) }
    ensures share { register_after (run_of 1 asks_in_vain asks_in_vain_events) 10 ≡ Some (Num 0) }
{}

/// The plain run of the join ends with the same status.
pub fn plain_runs_join()
    ensures { plain_status (plain_run_over 2 spawns_and_joins (until_thread_is_done ++ steps 0 3)) ≡ Some 7 }
{}

/// The plain run of the writes has the same output.
pub fn plain_runs_write()
    ensures { plain_output (plain_run_over 1 writes_two_bytes writes_events) ≡ Some (104 ∷ 105 ∷ []) }
{}
