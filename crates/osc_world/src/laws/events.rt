//! Laws of the folds over events.

ghost use Rattle.std.specs.Prelude.{ℕ, ◌≡◌, ◌≤◌, ◌++◌, ◌&&◌, length, slice_get, Bool, false, List, Option, Some, None};
ghost use Rattle.osc_word.specs.declared.steps.Event.{Event};
ghost use Rattle.osc_world.specs.declared.ObjectWhy.{ObjectWhy};
ghost use Rattle.osc_world.specs.declared.ObjectWhy.TheVariants.{Trap};
ghost use Rattle.osc_world.specs.World.{World};
ghost use Rattle.osc_word.specs.declared.steps.Choice.{Choice};
ghost use Rattle.osc_word.specs.declared.steps.Choice.TheVariants.{Plain};
ghost use Rattle.osc_rv.specs.declared.instr.Instr.{Instr};
ghost use Rattle.osc_word.specs.Environment.{output_limit};
ghost use Rattle.osc_world.specs.States.{turn_of, Process};
ghost use Rattle.osc_world.specs.World.{WorldTurn, WorldDeed, Memory};
ghost use Rattle.osc_world.specs.Deeds.{Forks, state_after};
ghost use Rattle.osc_world.specs.Offers.{Goes, Errs};
ghost use Rattle.osc_world.specs.Calls.{world_kind};
ghost use Rattle.osc_world.specs.Events.{does, meaning, IsNoConditional, LeavesNothingOpen, fits};
ghost use Rattle.osc_world.specs.Run.{ObjectRun, all_fit, boot, judged, object_run};
ghost use Rattle.osc_world.specs.Knows.{Knows};
ghost use Rattle.osc_image.specs.Image.{Image};
ghost use Rattle.osc_word.specs.declared.settings.Config.{Config};
ghost use Rattle.osc_world.specs.PlainWorld as plain_world;
ghost use Rattle.osc_world.specs.PlainRun.{plain_run};

/// An event that does not fit is a trap, and the world stays.
pub fn unfit_is_trap()
    ensures { (world : World) (events : ℕ) (event : Event) → fits world event ≡ false
        → judged (record { world = world; events = events; error = None }) event
        ≡ record { world = world; events = events; error = Some Trap } }
{}

/// After an error no event changes the run.
pub fn first_error_stays()
    ensures stays { (run : ObjectRun) (why : ObjectWhy) (events : List Event) → run.error ≡ Some why → object_run run events ≡ run }
    ensures prefix { (run : ObjectRun) (why : ObjectWhy) (events more : List Event) → (object_run run events).error ≡ Some why
        → object_run run (events ++ more) ≡ object_run run events }
{}

/// The run over a list of events and more is the run over the rest from where the first ones led.
pub fn runs_go_on()
    ensures object { (run : ObjectRun) (events more : List Event) → object_run run (events ++ more) ≡ object_run (object_run run events) more }
    ensures plain { (plain : Option plain_world.Plain) (events more : List Event) → plain_run plain (events ++ more) ≡ plain_run (plain_run plain events) more }
{}

/// The events of a list and more fit where the first ones do, and the rest from where those led.
pub fn fitting_goes_on()
    ensures { (run : ObjectRun) (events more : List Event) → all_fit run (events ++ more) ≡ (all_fit run events && all_fit (object_run run events) more) }
{}

/// A plain run that is stuck stays so.
pub fn stuck_stays()
    ensures { (events : List Event) → plain_run None events ≡ None }
{}

/// An event of a hart that runs no thread does not fit.
#[tactic(auto, unfolding(crate::specs::Events::meaning))]
pub fn idle_harts_do_not_fit()
    ensures { (world : World) (event : Event) → turn_of world event.hart ≡ None → fits world event ≡ false }
{}

/// Where an instruction errs, it fits with every choice, and errs the same way; but whether a pointer comes
/// into a shared region by a store-conditional depends on the choice.
pub fn errors_do_not_depend_on_choices()
    ensures { (turn : WorldTurn) (instr : Instr) (c d : Choice) (why : ObjectWhy) → IsNoConditional instr
        → does turn c instr ≡ Errs why → does turn d instr ≡ Errs why }
{}

/// An instruction that is neither a call nor a store-conditional, and that does not err, fits with the plain
/// choice alone.
pub fn other_instructions_are_plain()
    ensures { (turn : WorldTurn) (instr : Instr) (c : Choice) (next : World) → LeavesNothingOpen instr
        → does turn c instr ≡ Goes next → c ≡ Plain }
{}

/// No output is longer than its room of 4 MiB.
pub fn output_fits_its_room()
    ensures event { (world : World) (event : Event) (next : World) → length world.output ≤ output_limit
        → meaning world event ≡ Goes next → length next.output ≤ output_limit }
    ensures run { (run : ObjectRun) (events : List Event) → length run.world.output ≤ output_limit
        → length (object_run run events).world.output ≤ output_limit }
{}

/// A forked child has its parent's own memory and shared pages.
#[tactic(auto, unfolding(crate::specs::Deeds::state_after))]
pub fn fork_copies()
    ensures { (turn : WorldTurn) (hart : ℕ)
        → slice_get (state_after world_kind turn (Forks hart)).processes (length turn.state.processes)
        ≡ Some (record { memory = turn.process.memory; shared = turn.process.shared; parent = Some turn.pid; status = None }) }
{}

/// No deed takes a hart, a process, a thread, a shared page or an object away: an object keeps its number.
pub fn worlds_only_grow()
    ensures harts { (turn : WorldTurn) (deed : WorldDeed) → length (state_after world_kind turn deed).harts ≡ length turn.state.harts }
    ensures processes { (turn : WorldTurn) (deed : WorldDeed) → length turn.state.processes ≤ length (state_after world_kind turn deed).processes }
    ensures threads { (turn : WorldTurn) (deed : WorldDeed) → length turn.state.threads ≤ length (state_after world_kind turn deed).threads }
    ensures shared { (turn : WorldTurn) (deed : WorldDeed) → length turn.state.shared ≤ length (state_after world_kind turn deed).shared }
    ensures objects { (turn : WorldTurn) (deed : WorldDeed) (pid : ℕ) (was now : Process Memory)
        → slice_get turn.state.processes turn.pid ≡ Some turn.process → slice_get turn.state.processes pid ≡ Some was
        → slice_get (state_after world_kind turn deed).processes pid ≡ Some now → length was.memory.objects ≤ length now.memory.objects }
{}

/// Each pointer of a world that a run reaches names a granted object of its process, with an offset below
/// 2^64, and there is none in a shared region.
pub fn pointers_name_objects()
    ensures boot { (image : Image) (config : Config) → Knows (boot image config) }
    ensures event { (world : World) (event : Event) (next : World) → Knows world → meaning world event ≡ Goes next → Knows next }
    ensures run { (run : ObjectRun) (events : List Event) → Knows run.world → Knows (object_run run events).world }
{}
