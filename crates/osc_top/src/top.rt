//! The top call.

ghost use Rattle.std.specs.Prelude.{ℕ, ◌≡◌, ◌≢◌, ◌≤◌, ◌<◌, true, false, List, length, map, IfOk, None, Ok};
ghost use Rattle.osc_outside.specs.Faults.{Rose};
ghost use Rattle.osc_word.specs.Limits.{first_fault};
ghost use Rattle.osc_core.specs.Boot.{IsOfFile};
ghost use Rattle.osc_core.specs.Ends.{EndFits};
ghost use Rattle.osc_core.specs.Shared.{state_of};
ghost use Rattle.osc_core.specs.Sound.{Sound};
ghost use Rattle.osc_machine.specs.Run.{run};
ghost use Rattle.osc_cli.specs.Words.{asked, IsReady};
ghost use Rattle.osc_image.specs.Image as image;
ghost use Rattle.osc_top.specs.Due as due;
ghost use Rattle.osc_top.specs.Due.{due_of, image_due, seeded_due, HasGuestStatus};
ghost use Rattle.osc_top.specs.Answer.{Answers, Quiet, TaskAnswers, TaskDecided};
ghost use Rattle.osc_top.specs.Deciding.{due_in, words_outcome, ComesTo, Decides, DecidesFor, IsSound, Obtains};
ghost use Rattle.osc_top.specs.Making.{IsDue};
ghost use Rattle.osc_top.specs.Loading.{IsQuietRead};
ghost use Rattle.osc_top.specs.Safety.{RunsSafely};
ghost use Rattle.osc_top.specs.Told.{RunsTold, RunsRefused};
ghost use Rattle.osc_cli.specs.declared.task.Task.{Task};
ghost use Rattle.osc_top.specs.declared.outcome.Outcome.TheVariants.{SourceFault};

use crate::decision::{Decision, Over};
use crate::delivery::deliver;
use crate::loading::load;
use crate::making::{assembled, listed};
use crate::outcome::{Outcome, Refusal, Status, Verdict};
use osc_cli::{Mode, Task, WordsFault, read_words};
use osc_core::laws::{ends_fit, starts_sound};
use osc_core::{BootFault, Booted, Machine};
use osc_elf::{Image, ImageFault, read_image};
use osc_gen::guest_of;
use osc_judge::{JudgedError, World};
use osc_judged::run_judged;
use osc_outside::{Sink, Source};
use osc_seed::{SeededEnd, run_seeded};
use std::alloc::{AllocError, Global};

/// Whether the events of a run are judged in this mode.
fn is_judged(mode: Mode) -> bool
    ensures { result ≡ due.is_judged mode }
{
    matches!(mode, Mode::Object)
}

/// What is said of a run with this first error.
fn verdict_of(error: Option<JudgedError>) -> Verdict
    ensures { result ≡ due.verdict_of error }
{
    match error {
        None => Verdict::Clean,
        Some(error) => Verdict::Error(error),
    }
}

/// Runs a machine from its start by the seed of a task.
fn run_booted(task: &Task, booted: Booted) -> Decision
    requires harts { 0 < length booted.harts.items }
    requires sound { Sound (state_of booted.machine booted.harts.items) }
    requires ends { (picks : List ℕ) → EndFits (run (state_of booted.machine booted.harts.items) picks).state }
    ensures { (image : image.Image) → Decides result (seeded_due false task.now image (state_of booted.machine booted.harts.items)) }
{
    let Booted {
        mut machine,
        mut harts,
    } = booted;
    match run_seeded(&mut machine, &mut harts, task.seed, task.picks) {
        SeededEnd::Over { picks } => Decision::Ran(Over {
            machine,
            harts,
            picks,
            verdict: None,
        }),
        SeededEnd::Spent => Decision::Refused(Outcome::Spent { picks: task.picks }),
    }
}

/// Runs the machine of an image from its start by the seed of a task, and judges its events. An `Err` is want
/// of memory, which may come at each event.
fn judge_booted(
    alloc: Global,
    task: &Task,
    image: &Image,
    booted: Booted,
) -> Result<Decision, AllocError>
    requires harts { 0 < length booted.harts.items }
    requires sound { Sound (state_of booted.machine booted.harts.items) }
    requires ends { (picks : List ℕ) → EndFits (run (state_of booted.machine booted.harts.items) picks).state }
    ensures { IfOk result (λ d. Decides d (seeded_due true task.now image.now (state_of booted.machine booted.harts.items))) }
{
    let Booted {
        mut machine,
        mut harts,
    } = booted;
    let mut world = World::boot(alloc, image, &task.config)?;
    let ended = run_judged(
        alloc,
        &mut machine,
        &mut harts,
        &mut world,
        task.seed,
        task.picks,
    )?;
    match ended.end {
        SeededEnd::Over { picks } => Ok(Decision::Ran(Over {
            machine,
            harts,
            picks,
            verdict: Some(verdict_of(ended.error)),
        })),
        SeededEnd::Spent => Ok(Decision::Refused(Outcome::Spent { picks: task.picks })),
    }
}

/// Runs an image, if it fits the frames.
fn run_image(alloc: Global, task: &Task, image: &Image) -> Result<Decision, AllocError>
    requires image { IsOfFile image.now }
    requires config { first_fault task.now.config ≡ None }
    ensures { IfOk result (λ d. Decides d (image_due task.now (Ok image.now))) }
{
    starts_sound();
    ends_fit();
    match Machine::boot(alloc, image, &task.config) {
        Ok(booted) => {
            if is_judged(task.mode) {
                judge_booted(alloc, task, image, booted)
            } else {
                Ok(run_booted(task, booted))
            }
        }
        Err(BootFault::NoRoom { needed, frames }) => {
            Ok(Decision::Refused(Outcome::NoRoom { needed, frames }))
        }
        Err(BootFault::Config(_) | BootFault::Memory) => Err(AllocError),
    }
}

/// Runs a file, if it is an image.
#[tactic(auto, unfolding(crate::specs::Due::due_of))]
fn run_file(alloc: Global, task: &Task, file: &[u8]) -> Result<Decision, AllocError>
    requires config { first_fault task.now.config ≡ None }
    ensures { IfOk result (λ d. Decides d (due_of task.now file.now)) }
{
    match read_image(alloc, file) {
        Ok(image) => run_image(alloc, task, &image),
        Err(ImageFault::Memory) => Err(AllocError),
        Err(fault) => Ok(Decision::Refused(Outcome::BadImage(fault))),
    }
}

/// The file of a task: what the source has, or the guest of a number.
fn obtain<S: Source>(alloc: Global, task: &Task, source: &mut S) -> Result<Vec<u8>, Refusal>
    ensures later { S.faults source.old ≤ S.faults source.new }
    ensures kept { IsQuietRead (S.faults source.old) (S.faults source.new) result }
    ensures obtains { Obtains task.now (S.left source.old) (S.left source.new) (Rose (S.faults source.old) (S.faults source.new)) result }
{
    match task.mode {
        Mode::Gen => Ok(guest_of(alloc, task.number)?),
        Mode::Run | Mode::Seed | Mode::Object | Mode::Asm | Mode::Disasm => load(alloc, source),
    }
}

/// Does with a file what the mode says.
fn use_file(alloc: Global, task: &Task, file: &[u8]) -> Result<Decision, AllocError>
    requires config { first_fault task.now.config ≡ None }
    ensures { IfOk result (λ d. DecidesFor d (IsDue task.now file.now)) }
{
    match task.mode {
        Mode::Asm => assembled(alloc, file),
        Mode::Disasm => listed(alloc, task, file),
        Mode::Run | Mode::Seed | Mode::Object | Mode::Gen => run_file(alloc, task, file),
    }
}

/// Does a task with its file.
fn run_task<S: Source>(alloc: Global, task: &Task, source: &mut S) -> Result<Decision, Refusal>
    requires config { first_fault task.now.config ≡ None }
    ensures later { S.faults source.old ≤ S.faults source.new }
    ensures kept { IsQuietRead (S.faults source.old) (S.faults source.new) result }
    ensures comes { ComesTo task.now (S.left source.old) (S.left source.new) (Rose (S.faults source.old) (S.faults source.new)) result }
{
    let file = obtain(alloc, task, source)?;
    let decision = use_file(alloc, task, &file)?;
    Ok(decision)
}

/// What is due for a task and a source.
fn decide<S: Source>(alloc: Global, task: &Task, source: &mut S) -> Decision
    requires ready { IsReady task.now }
    ensures later { S.faults source.old ≤ S.faults source.new }
    ensures kept { (due_in result).outcome ≢ SourceFault → S.faults source.new ≡ S.faults source.old }
    ensures guest { HasGuestStatus (due_in result).outcome }
    ensures sound { IsSound result }
    ensures decided { TaskDecided task.now (S.left source.old) (S.left source.new)
        (Rose (S.faults source.old) (S.faults source.new)) (due_in result) }
{
    match run_task(alloc, task, source) {
        Ok(decision) => decision,
        Err(Refusal::Source) => Decision::Refused(Outcome::SourceFault),
        Err(Refusal::Memory) => Decision::Refused(Outcome::NoMemory),
    }
}

/// Does a task: takes its image from the source, or makes it in mode gen, runs the machine by the picks of
/// the task's seed, writes the guest's output to `out`, and then to `err` a line for each report, in the
/// order of the ends that they tell, and the summary. In mode object it judges the run's events in terms of
/// objects beside, and writes one line more: that all have a meaning, or the first that has none. Where nothing
/// is run, where memory runs out, and where the machine is not over after the picks, it writes nothing to `out`
/// and one line to `err` that says why. It waits for nobody and always returns.
///
/// The modes asm and disasm run nothing: they write to `out` the file of the source's text, or the listing
/// of the source's image, and nothing to `err`. Of an image's frames they count its pages alone.
///
/// | Status | Comes |
/// |---|---|
/// | 0 to 63 | exactly where the machine is over and process 0 ended with it |
/// | 0 | in modes asm and disasm where the text was assembled, or the image listed |
/// | 65 | exactly where the file is no image, with its first fault, or needs more frames than there are, with both numbers |
/// | 66 | only where the source failed, and never in mode gen; nothing is run |
/// | 67 | only where `out` or `err` failed; where `out` did not, it has all of the output; it comes before every other status |
/// | 68 | where memory ran out before the first step, in mode object at an event, and in modes asm and disasm at any moment |
/// | 69 | exactly where the machine is not over after the picks |
/// | 70 | exactly where the machine is over and process 0 ended by a fault |
/// | 72 | in mode asm, exactly where the text has no file, with its first fault |
///
/// The source is read to its end, or to 16 MiB and one byte; in mode gen it is not read. With another status
/// than 66 and 67 no call of source or sinks failed: none is tried again. On the heap with shadows the run is
/// safe (clause `safe`): no access to a freed object's pages after its free returned is done. Under both heaps
/// the journal tells, at the end of the run, what the kernel keeps of each process (clause `journal`), and memory
/// is refused exactly for want of it, by the journal before each call (clause `refusals`).
pub fn oscar_seeded<S: Source, O: Sink, E: Sink>(
    alloc: Global,
    task: &Task,
    source: &mut S,
    out: &mut O,
    err: &mut E,
) -> Status
    requires ready { IsReady task.now }
    ensures later { S.faults source.old ≤ S.faults source.new }
    ensures answers { TaskAnswers task.now (S.left source.old) (S.left source.new)
        (O.holds out.old) (O.holds out.new) (E.holds err.old) (E.holds err.new)
        (Rose (S.faults source.old) (S.faults source.new))
        (Rose (O.faults out.old) (O.faults out.new)) (Rose (E.faults err.old) (E.faults err.new)) result.0 }
    ensures quiet { Quiet (S.faults source.old) (S.faults source.new) (O.faults out.old) (O.faults out.new)
        (E.faults err.old) (E.faults err.new) result.0 }
    ensures safe { RunsSafely task.now (S.left source.old) (S.left source.new) }
    ensures journal { RunsTold task.now (S.left source.old) (S.left source.new) }
    ensures refusals { RunsRefused task.now (S.left source.old) (S.left source.new) }
{
    let decision = decide(alloc, task, source);
    deliver(&decision, out, err)
}

/// Why words are no task, as the outcome of the call.
fn outcome_of(fault: WordsFault) -> Outcome
    ensures { result ≡ words_outcome fault }
{
    match fault {
        WordsFault::Words => Outcome::UnknownWords,
        WordsFault::Value(place) => Outcome::BadOption(place),
        WordsFault::Memory => Outcome::NoMemory,
    }
}

/// Reads the words of the command, of which the first is the program's name, and does the task that they
/// ask for, as `oscar_seeded` says. Where they ask for none the status is 64, nothing is read and run, and
/// the line on `err` names the first option whose text is not allowed, or says `words` where the words are
/// not options, each with one value and at most once. Memory may run out while words are read: 68.
pub fn oscar<S: Source, O: Sink, E: Sink>(
    alloc: Global,
    words: &[&str],
    source: &mut S,
    out: &mut O,
    err: &mut E,
) -> Status
    ensures later { S.faults source.old ≤ S.faults source.new }
    ensures answers { Answers (map (λ word. word.now) words.now) (S.left source.old) (S.left source.new)
        (O.holds out.old) (O.holds out.new) (E.holds err.old) (E.holds err.new)
        (Rose (S.faults source.old) (S.faults source.new))
        (Rose (O.faults out.old) (O.faults out.new)) (Rose (E.faults err.old) (E.faults err.new)) result.0 }
    ensures quiet { Quiet (S.faults source.old) (S.faults source.new) (O.faults out.old) (O.faults out.new)
        (E.faults err.old) (E.faults err.new) result.0 }
    ensures safe { (task : Task) → asked (map (λ word. word.now) words.now) ≡ Ok task
        → RunsSafely task (S.left source.old) (S.left source.new) }
    ensures journal { (task : Task) → asked (map (λ word. word.now) words.now) ≡ Ok task
        → RunsTold task (S.left source.old) (S.left source.new) }
    ensures refusals { (task : Task) → asked (map (λ word. word.now) words.now) ≡ Ok task
        → RunsRefused task (S.left source.old) (S.left source.new) }
{
    match read_words(alloc, words) {
        Ok(task) => oscar_seeded(alloc, &task, source, out, err),
        Err(fault) => deliver(&Decision::Refused(outcome_of(fault)), out, err),
    }
}
