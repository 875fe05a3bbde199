//! Worked examples of calls. Each function does nothing: what it says is computed from the
//! definitions.
#![tactic(auto, unfolding(osc_class::specs::Rooms::room_of, osc_slot::specs::Least::least, osc_slot::specs::Least::any, osc_slot::specs::Slots::beside, osc_slot::specs::Slots::empty_page, osc_slot::specs::Ordered::insert_by, osc_slot::specs::Heap::back, osc_slot::specs::Heap::place, osc_slot::specs::Heap::release, osc_slot::specs::Heap::give_back, osc_paging::specs::KeptTables::missing, osc_paging::specs::KeptTables::need_below, osc_paging::specs::TableChanges::link_all, osc_space::specs::BlockWords::cut, osc_space::specs::Header::header_in, osc_space::specs::Malloc::malloc_plan, osc_space::specs::Free::free_plan, osc_space::specs::Realloc::realloc_plan, osc_space::specs::PlainHeap::plain_malloc_plan, osc_space::specs::PlainHeap::plain_free_plan, osc_space::specs::PlainHeap::plain_realloc_plan, osc_space::specs::Fork::fork_reasons, osc_space::specs::Fork::fork_plan, osc_space::specs::Share::share_reasons, osc_space::specs::Share::share_plan, osc_space::specs::Share::join, osc_space::specs::Share::leave, osc_space::specs::Finish::finished, osc_space::specs::Finish::ended, crate::specs::Begin::begin, crate::specs::Plan::plan, crate::specs::JobDone::job_done, crate::specs::Boxes::box_change, crate::specs::Choices::choice, crate::specs::Finish::finish))]

ghost use Rattle.std.specs.Prelude.{ℕ, ◌≡◌, ◌-◌, ◌^◌, List, [], ◌∷◌, Some, None, pos, true, false};
ghost use Rattle.osc_word.specs.declared.calls.Call.TheVariants.{Malloc, Free, Realloc, Write, Fork, Spawn, Join, Done, Share, Wait, Exit, End};
ghost use Rattle.osc_word.specs.declared.calls.Fault.TheVariants as faults;
ghost use Rattle.osc_word.specs.declared.calls.Answer.TheVariants as answers;
ghost use Rattle.osc_word.specs.declared.calls.Resume.TheVariants as resume;
ghost use Rattle.osc_calls.specs.declared.Place.TheVariants as places;
ghost use Rattle.osc_word.specs.declared.job_list.Job.TheVariants.{PutWord, ClearBox, ToOut};
ghost use Rattle.osc_word.specs.declared.orders.Order.TheVariants as orders;
ghost use Rattle.osc_word.specs.declared.steps.Access.TheVariants.{Load};
ghost use Rattle.osc_word.specs.declared.steps.Label.TheVariants as labels;
ghost use Rattle.osc_calls.specs.declared.Begun.TheVariants as begun;
ghost use Rattle.osc_calls.specs.declared.BoxChange.TheVariants.{Keep, Clear, Put};
ghost use Rattle.osc_calls.specs.declared.HartRecord.TheVariants as records;
ghost use Rattle.osc_word.specs.declared.steps.Choice.TheVariants as choices;
ghost use Rattle.osc_calls.specs.Choices.{choice};
ghost use Rattle.osc_calls.specs.Kernel.{ended, granted, is_over, in_use};
ghost use Rattle.osc_calls.specs.JobDone.{job_done};
ghost use Rattle.osc_calls.specs.Finish.{finish};
ghost use Rattle.osc_calls.specs.ProcessPlans.{no_registers};
ghost use Rattle.osc_word.specs.Registers.{with_register};
ghost use Rattle.osc_calls.specs.Open.{open_start};
ghost use Rattle.osc_calls.specs.Examples.{first, plain_first, brief_first, paired_first, asks, finds, beginning, planned, plan_shows, jobs_of, works, answer_to, after, resumes, returns_show, reports, answers_of, changes, one_page, one_page_opened, word_opened};

/// A load from a freed object is reported with the object and the call that freed it.
pub fn freed_object_is_reported()
    ensures { reports (after (asks 0 (Malloc 24) ∷ finds 0 (Free 0x1000000010) 0x2000010010 24
        ∷ asks 0 (End (faults.Access 13 0x1000000018)) ∷ []) (first 1))
        ≡ record { pid = 0; hart = 0; fault = faults.Access 13 0x1000000018; place = places.Dead 0 (pos 8) 1 } ∷ [] }
{}

/// A second free is a fault that names the first; so is a free where no object starts. A free of 0
/// does nothing.
pub fn double_and_bad_free()
    ensures { resumes (asks 0 (Malloc 24) ∷ finds 0 (Free 0x1000000010) 0x2000010010 24 ∷ asks 0 (Free 0x1000000010)
        ∷ asks 0 (Free 0x1000000020) ∷ asks 0 (Free 0) ∷ []) (first 1)
        ≡ resume.Return 0x1000000010 ∷ resume.Return 0 ∷ resume.Fault (faults.DoubleFree 0x1000000010 0 1)
        ∷ resume.Fault (faults.BadFree 0x1000000020) ∷ resume.Return 0 ∷ [] }
{}

/// A thread on another hart loads from the object that its process freed.
pub fn freed_by_another_hart()
    ensures { reports (after (asks 0 (Malloc 24) ∷ asks 0 (Spawn 0x10000 0 0) ∷ finds 0 (Free 0x1000000010) 0x2000010010 24
        ∷ asks 1 (End (faults.Access 13 0x1000000010)) ∷ []) (first 4))
        ≡ record { pid = 0; hart = 1; fault = faults.Access 13 0x1000000010; place = places.Dead 0 (pos 0) 2 } ∷ [] }
{}

/// A child keeps its parent's records of dead objects, and its parent gets 70 for its end by a fault.
pub fn freed_before_a_fork()
    ensures report { reports (after (asks 0 (Malloc 24) ∷ finds 0 (Free 0x1000000010) 0x2000010010 24 ∷ asks 0 Fork
        ∷ asks 1 (End (faults.Access 13 0x1000000010)) ∷ []) (first 2))
        ≡ record { pid = 1; hart = 1; fault = faults.Access 13 0x1000000010; place = places.Dead 0 (pos 0) 1 } ∷ [] }
    ensures waits { resumes (asks 0 Fork ∷ asks 1 (End (faults.Access 13 0x1000000010)) ∷ asks 0 (Wait 1) ∷ []) (first 2)
        ≡ resume.Return 1 ∷ resume.Idle ∷ resume.Return 70 ∷ [] }
{}

/// A header that does not stand as it was written.
pub fn damaged_header()
    ensures { resumes (asks 0 (Malloc 24) ∷ finds 0 (Free 0x1000000010) 0x2000010010 9 ∷ []) (first 1)
        ≡ resume.Return 0x1000000010 ∷ resume.Fault (faults.Header 0 0x18 9) ∷ [] }
{}

/// A canonical address is no object's.
pub fn canonical_address_is_nobodys()
    ensures { reports (after (asks 0 (Malloc 24) ∷ asks 0 (End (faults.Access 13 0x2000010010)) ∷ []) (first 1))
        ≡ record { pid = 0; hart = 0; fault = faults.Access 13 0x2000010010; place = places.Nowhere } ∷ [] }
{}

/// What is refused on one hart, and what is unknown.
pub fn refusals_on_one_hart()
    ensures numbers { resumes (asks 0 Fork ∷ asks 0 (Spawn 0x10000 0 0) ∷ asks 0 (Share 0) ∷ asks 0 (Share 100000) ∷ asks 0 (Join 9)
        ∷ asks 0 (Wait 9) ∷ []) (first 1)
        ≡ resume.Return (2 ^ 64 - 1) ∷ resume.Return (2 ^ 64 - 1) ∷ resume.Return 0 ∷ resume.Return 0
        ∷ resume.Return (2 ^ 64 - 1) ∷ resume.Return (2 ^ 64 - 1) ∷ [] }
    ensures entries { answers_of (after (asks 0 Fork ∷ asks 0 (Spawn 0x10000 0 0) ∷ asks 0 (Share 0) ∷ asks 0 (Share 100000)
        ∷ asks 0 (Join 9) ∷ asks 0 (Wait 9) ∷ []) (first 1))
        ≡ answers.NoHart ∷ answers.NoHart ∷ answers.Empty ∷ answers.NoFrames ∷ answers.Unknown ∷ answers.Unknown ∷ [] }
{}

/// The second process is the last, and then the reasons come in their order.
pub fn third_process_is_refused()
    ensures full { answers_of (after (asks 0 Fork ∷ asks 0 Fork ∷ []) (first 3)) ≡ answers.Number 1 ∷ answers.NoProcess ∷ [] }
    ensures hart { answers_of (after (asks 0 Fork ∷ asks 0 Fork ∷ []) (first 2)) ≡ answers.Number 1 ∷ answers.NoHart ∷ [] }
    ensures begins { (beginning (asks 0 Fork) (first 1)).begun ≡ begun.Planned }
    ensures shares { (beginning (asks 0 (Share 100000)) (first 1)).begun ≡ begun.Planned }
    ensures takes { (beginning (asks 0 (Share 1)) (first 1)).begun ≡ begun.Boxes }
{}

/// What a call leaves open: a hart that starts a thread, memory that was given or refused, or nothing.
pub fn what_is_left_open()
    ensures started { choice (planned (asks 0 (Spawn 0x10000 0 0)) (first 2)) ≡ choices.Started 1 }
    ensures alone { choice (planned (asks 0 Fork) (first 1)) ≡ choices.Refused }
    ensures malloc { choice (planned (asks 0 (Malloc 24)) (first 1)) ≡ choices.Given }
    ensures share { choice (planned (asks 0 (Share 1)) (first 1)) ≡ choices.Given }
    ensures empty { choice (planned (asks 0 (Share 0)) (first 1)) ≡ choices.Refused }
    ensures damaged { choice (planned (finds 0 (Realloc 0x1000000010 30) 0x2000010010 9) (after (asks 0 (Malloc 24) ∷ []) (first 1)))
        ≡ choices.Plain }
{}

/// With three shadow pages the fourth malloc is refused.
pub fn shadows_run_out()
    ensures { answers_of (after (asks 0 (Malloc 24) ∷ asks 0 (Malloc 24) ∷ asks 0 (Malloc 24) ∷ asks 0 (Malloc 24) ∷ []) (first 1))
        ≡ answers.Given 0 0x1000000010 ∷ answers.Given 1 0x1000001040 ∷ answers.Given 2 0x1000002070 ∷ answers.NoShadow ∷ [] }
{}

/// A shared page, a child that exits with 6 above a multiple of 64, and its parent that waits for it.
pub fn child_exits()
    ensures numbers { resumes (asks 0 (Share 1) ∷ asks 0 (Malloc 8) ∷ asks 0 Fork ∷ asks 1 (Exit 70) ∷ asks 0 (Wait 1) ∷ asks 0 (Exit 18) ∷ []) (first 2)
        ≡ resume.Return 0x200000000 ∷ resume.Return 0x1000000010 ∷ resume.Return 1 ∷ resume.Idle ∷ resume.Return 6 ∷ resume.Idle ∷ [] }
    ensures status { ended 0 (after (asks 0 (Malloc 8) ∷ asks 0 Fork ∷ asks 1 (Exit 70) ∷ asks 0 (Exit 18) ∷ []) (first 2)) ≡ Some 18 }
    ensures marks { granted (after (asks 0 (Malloc 8) ∷ asks 0 Fork ∷ asks 1 (Malloc 8) ∷ asks 1 (Exit 70) ∷ []) (first 2)) ≡ 2 }
{}

/// A joined thread gives its value, also a second time.
pub fn joined_twice()
    ensures { resumes (asks 0 (Spawn 0x10000 0 0) ∷ asks 1 (Done 7) ∷ asks 0 (Join 1) ∷ asks 0 (Join 1) ∷ []) (first 2)
        ≡ resume.Return 1 ∷ resume.Idle ∷ resume.Return 7 ∷ resume.Return 7 ∷ [] }
{}

/// A buffer's bytes go out one word after another, each with a label of its own.
pub fn buffer_is_written()
    ensures jobs { jobs_of (asks 0 (Write 0x1000000015 10)) (after (asks 0 (Malloc 24) ∷ []) (first 1))
        ≡ ToOut (record { frame = 1; index = 2 }) 5 3 ∷ ToOut (record { frame = 1; index = 3 }) 0 7 ∷ [] }
    ensures output { (works (0x0807060504030201 ∷ 0x0807060504030201 ∷ [])
        (planned (asks 0 (Write 0x1000000015 10)) (after (asks 0 (Malloc 24) ∷ []) (first 1)))).output
        ≡ 6 ∷ 7 ∷ 8 ∷ 1 ∷ 2 ∷ 3 ∷ 4 ∷ 5 ∷ 6 ∷ 7 ∷ [] }
    ensures shows { (job_done 0 (works (0 ∷ []) (planned (asks 0 (Write 0x1000000015 10)) (after (asks 0 (Malloc 24) ∷ []) (first 1))))).shows
        ≡ labels.Touched 0 0 0x1000000018 7 Load true ∷ [] }
{}

/// A buffer that runs past its object's page is a fault at the first byte there.
pub fn unreadable_buffer()
    ensures numbers { resumes (asks 0 (Malloc 24) ∷ asks 0 (Write 0x1000000ff8 16) ∷ []) (first 1)
        ≡ resume.Return 0x1000000010 ∷ resume.Fault (faults.Access 13 0x1000001000) ∷ [] }
    ensures jobs { jobs_of (asks 0 (Write 0x1000000ff8 16)) (after (asks 0 (Malloc 24) ∷ []) (first 1)) ≡ [] }
    ensures shows { plan_shows (asks 0 (Write 0x1000000ff8 16)) (after (asks 0 (Malloc 24) ∷ []) (first 1))
        ≡ labels.Touched 0 0 0x1000001000 1 Load false ∷ [] }
{}

/// The harts of a process that ends are stopped, and every other box is cleared; with the last
/// process every hart rests. The end of a thread alone changes no box.
pub fn harts_are_stopped()
    ensures stop { changes (planned (asks 0 (Exit 0)) (after (asks 0 (Spawn 0x10000 0 0) ∷ asks 0 Fork ∷ []) (first 4)))
        ≡ Clear ∷ Put orders.Stop ∷ Clear ∷ Clear ∷ [] }
    ensures gone { (beginning (asks 1 (Malloc 24)) (after (asks 0 (Spawn 0x10000 0 0) ∷ asks 0 Fork ∷ asks 0 (Exit 0) ∷ []) (first 4))).begun
        ≡ begun.Gone }
    ensures idle { (after (asks 0 (Spawn 0x10000 0 0) ∷ asks 0 Fork ∷ asks 0 (Exit 0) ∷ asks 1 (Malloc 24) ∷ []) (first 4)).records
        ≡ records.Idle ∷ records.Idle ∷ records.Runs 1 None ∷ records.Idle ∷ [] }
    ensures stays { changes (planned (asks 1 (Done 7)) (after (asks 0 (Spawn 0x10000 0 0) ∷ []) (first 2))) ≡ Keep ∷ Keep ∷ [] }
    ensures over { changes (planned (asks 1 (Done 5)) (after (asks 0 Fork ∷ asks 0 (Exit 0) ∷ []) (first 2)))
        ≡ Put orders.Over ∷ Put orders.Over ∷ [] }
    ensures end { is_over (after (asks 0 Fork ∷ asks 0 (Exit 0) ∷ asks 1 (Done 5) ∷ []) (first 2)) ≡ true }
{}

/// A child's thread begins after its parent's ecall, in a copy of the topmost table.
pub fn child_starts()
    ensures { changes (planned (asks 0 Fork) (first 3))
        ≡ Keep ∷ Put (orders.Start (record { pid = 1; root = 1; regs = no_registers; pc = 0x10004; levels = 3; frames = 16 })) ∷ Keep ∷ [] }
{}

/// What malloc, free and realloc show when they commit and when they return.
pub fn heap_labels()
    ensures freeing { plan_shows (finds 0 (Free 0x1000000010) 0x2000010010 24) (after (asks 0 (Malloc 24) ∷ []) (first 1))
        ≡ labels.Freeing 0 0 1 ∷ [] }
    ensures freed { returns_show (asks 0 (Malloc 24) ∷ finds 0 (Free 0x1000000010) 0x2000010010 24 ∷ []) (first 1)
        ≡ (labels.Gave 0 0 0x1000000 1 24 ∷ []) ∷ (labels.Freed 0 0 1 ∷ []) ∷ [] }
    ensures moving { plan_shows (finds 0 (Realloc 0x1000000010 30) 0x2000010010 24) (after (asks 0 (Malloc 24) ∷ []) (first 1))
        ≡ labels.Moving 0 0 1 ∷ [] }
    ensures moved { returns_show (asks 0 (Malloc 24) ∷ finds 0 (Realloc 0x1000000010 30) 0x2000010010 24 ∷ []) (first 1)
        ≡ (labels.Gave 0 0 0x1000000 1 24 ∷ []) ∷ (labels.Moved 0 0 1 1 0x1000001 1 30 ∷ []) ∷ [] }
{}

/// Where two objects wait for each other, the first free only unmaps, and the second clears every box and
/// frees both. A realloc frees what waits, and then moves.
pub fn frees_in_pairs()
    ensures first { jobs_of (finds 0 (Free 0x1000000010) 0x2000010010 24) (after (asks 0 (Malloc 24) ∷ asks 0 (Malloc 24) ∷ []) paired_first)
        ≡ PutWord (record { frame = 3; index = 0 }) 0 ∷ [] }
    ensures keeps { changes (planned (finds 0 (Free 0x1000000010) 0x2000010010 24) (after (asks 0 (Malloc 24) ∷ asks 0 (Malloc 24) ∷ []) paired_first))
        ≡ Keep ∷ Keep ∷ [] }
    ensures second { jobs_of (finds 0 (Free 0x1000001040) 0x2000010040 24)
        (after (asks 0 (Malloc 24) ∷ asks 0 (Malloc 24) ∷ finds 0 (Free 0x1000000010) 0x2000010010 24 ∷ []) paired_first)
        ≡ PutWord (record { frame = 3; index = 1 }) 0 ∷ ClearBox 0 ∷ ClearBox 1 ∷ [] }
    ensures freed { (answer_to (finds 0 (Free 0x1000001040) 0x2000010040 24)
        (after (asks 0 (Malloc 24) ∷ asks 0 (Malloc 24) ∷ finds 0 (Free 0x1000000010) 0x2000010010 24 ∷ []) paired_first)).freed
        ≡ 0 ∷ 1 ∷ [] }
    ensures shows { returns_show (asks 0 (Malloc 24) ∷ asks 0 (Malloc 24) ∷ finds 0 (Free 0x1000000010) 0x2000010010 24
        ∷ finds 0 (Free 0x1000001040) 0x2000010040 24 ∷ []) paired_first
        ≡ (labels.Gave 0 0 0x1000000 1 24 ∷ []) ∷ (labels.Gave 0 1 0x1000001 1 24 ∷ []) ∷ []
        ∷ (labels.Freed 0 0 2 ∷ labels.Freed 0 1 3 ∷ []) ∷ [] }
    ensures moved { (answer_to (finds 0 (Realloc 0x1000001040 30) 0x2000010040 24)
        (after (asks 0 (Malloc 24) ∷ asks 0 (Malloc 24) ∷ finds 0 (Free 0x1000000010) 0x2000010010 24 ∷ []) paired_first)).shows
        ≡ labels.Freed 0 0 2 ∷ labels.Moved 0 1 3 2 0x1000002 1 30 ∷ [] }
    ensures double { resumes (asks 0 (Malloc 24) ∷ finds 0 (Free 0x1000000010) 0x2000010010 24 ∷ asks 0 (Free 0x1000000010) ∷ []) paired_first
        ≡ resume.Return 0x1000000010 ∷ resume.Return 0 ∷ resume.Fault (faults.DoubleFree 0x1000000010 0 1) ∷ [] }
    ensures report { reports (after (asks 0 (Malloc 24) ∷ finds 0 (Free 0x1000000010) 0x2000010010 24
        ∷ asks 0 (End (faults.Access 13 0x1000000018)) ∷ []) paired_first)
        ≡ record { pid = 0; hart = 0; fault = faults.Access 13 0x1000000018; place = places.Dead 0 (pos 8) 1 } ∷ [] }
{}

/// A child waits with its parent's object, and frees its own copy.
pub fn child_frees_in_pairs()
    ensures { (answer_to (finds 1 (Free 0x1000001040) 0x2000010040 24) (after (asks 0 (Malloc 24) ∷ asks 0 (Malloc 24)
        ∷ finds 0 (Free 0x1000000010) 0x2000010010 24 ∷ asks 0 Fork ∷ []) paired_first)).shows
        ≡ labels.Freed 1 0 2 ∷ labels.Freed 1 1 4 ∷ [] }
{}

/// On both heaps a free of 0 does nothing, and a realloc of 0 is a malloc.
pub fn nothing_given_back()
    ensures oscar { answers_of (after (asks 0 (Free 0) ∷ asks 0 (Realloc 0 24) ∷ []) (first 1))
        ≡ answers.Nothing ∷ answers.Given 0 0x1000000010 ∷ [] }
    ensures plain { answers_of (after (asks 0 (Free 0) ∷ asks 0 (Realloc 0 24) ∷ []) plain_first)
        ≡ answers.Nothing ∷ answers.Placed 0x2000010010 ∷ [] }
    ensures header { (beginning (asks 0 (Realloc 0 24)) (first 1)).begun ≡ begun.Planned }
{}

/// An image of one page takes 22 frames: its page, the stack's 16, and 5 tables, or 6 with four levels.
/// The root is in frame 0, and the page follows its two tables; its words are its bytes, the lowest first.
#[tactic(auto, unfolding(osc_paging::specs::TableChanges::link_all, osc_image::specs::Image::page_permits, osc_image::specs::Image::laid_byte))]
pub fn image_of_one_page()
    ensures frames { in_use (one_page_opened 3).free ≡ 22 }
    ensures levels { in_use (one_page_opened 4).free ≡ 23 }
    ensures tables { word_opened 0 0 ∷ word_opened 1 0 ∷ word_opened 2 16 ∷ word_opened 2 17 ∷ word_opened 0 4 ∷ word_opened 4 0 ∷ word_opened 5 0xf0 ∷ []
        ≡ 0x401 ∷ 0x801 ∷ 0xcdb ∷ 0 ∷ 0x1001 ∷ 0x1401 ∷ 0x18d7 ∷ [] }
    ensures words { word_opened 3 0 ∷ word_opened 3 1 ∷ word_opened 3 2 ∷ word_opened 6 0 ∷ []
        ≡ 0x0010089300700513 ∷ 0x73 ∷ 0 ∷ 0 ∷ [] }
    ensures start { open_start one_page (one_page_opened 4)
        ≡ record { pid = 0; root = 0; regs = with_register no_registers 2 0x100100000; pc = 0x10000; levels = 4; frames = 24 } }
{}

/// On the plain heap objects lie at their canonical addresses, and what is freed is given again.
pub fn plain_heap()
    ensures numbers { resumes (asks 0 (Malloc 24) ∷ asks 0 (Malloc 24) ∷ asks 0 (Free 0x2000010010) ∷ asks 0 (Free 0x2000010010)
        ∷ asks 0 (Malloc 20) ∷ finds 0 (Realloc 0x2000010040 100) 0x2000010040 24 ∷ []) plain_first
        ≡ resume.Return 0x2000010010 ∷ resume.Return 0x2000010040 ∷ resume.Return 0 ∷ resume.Fault (faults.BadFree 0x2000010010)
        ∷ resume.Return 0x2000010010 ∷ resume.Return 0x2000040010 ∷ [] }
    ensures header { (beginning (asks 0 (Realloc 0x2000010040 100)) (after (asks 0 (Malloc 24) ∷ asks 0 (Malloc 24) ∷ []) plain_first)).begun
        ≡ begun.Header (record { frame = 1; index = 6 }) (record { frame = 1; index = 7 }) }
    ensures free { (beginning (asks 0 (Free 0x2000010010)) (after (asks 0 (Malloc 24) ∷ []) plain_first)).begun ≡ begun.Planned }
{}

/// With a full journal a call that would be entered waits. A join of a thread that runs asks again.
pub fn full_journal()
    ensures full { (beginning (asks 0 (Exit 0)) (after (asks 0 (Spawn 0x10000 0 0) ∷ []) brief_first)).begun ≡ begun.JournalFull }
    ensures again { (beginning (asks 0 (Join 1)) (after (asks 0 (Spawn 0x10000 0 0) ∷ []) brief_first)).begun ≡ begun.Again }
{}
