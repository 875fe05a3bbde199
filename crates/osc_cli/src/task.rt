//! The task that the words of the command ask for.

ghost use Rattle.std.specs.Prelude.{◌≡◌, ◌≢◌, false, IfSome, Err, Ok, Some, None, IfOk, MatchResult, map, option_map};
ghost use Rattle.clap.specs.Words.{found_of, kind_of, rows_of, first_of};
ghost use Rattle.osc_cli.specs.Command.{told};
ghost use Rattle.osc_cli.specs.Words as spec;
ghost use Rattle.osc_cli.specs.Choices as choices;
ghost use Rattle.osc_cli.specs.declared.task.WordsFault.TheVariants as fault;
ghost use Rattle.osc_cli.specs.declared.task.Mode.TheVariants.{Run};
ghost use Rattle.osc_word.specs.declared.settings.HeapKind.TheVariants.{Oscar};

use crate::command::{command_of, text_of};
use crate::table::{
    BATCH, FRAMES, HARTS, HEAP, JOURNAL, LEVELS, LIMIT, MODE, NUMBER, PICKS, PROCESSES, SEED,
    SHADOWS,
};
use clap::error::ErrorKind;
use clap::{ArgMatches, Error};
use osc_word::{Config, HeapKind, OptionNo};
use std::alloc::{AllocError, Global};

/// How a machine is run, or what is made without one.
#[derive(Clone, Copy, Debug, PartialEq, Eq)]
pub enum Mode {
    /// Each hart in a thread of its own.
    Run,
    /// One step after another, by picks that a seed gives.
    Seed,
    /// As `Seed`, and beside it the same program over objects in place of memory.
    Object,
    /// As `Seed`, with the guest that a number gives.
    Gen,
    /// A text is assembled to an image.
    Asm,
    /// The code of an image is listed as text.
    Disasm,
}

/// What the words ask for. A field that the mode does not use is read all the same.
#[derive(Clone, Copy, Debug, PartialEq, Eq)]
pub struct Task {
    pub mode: Mode,
    pub config: Config,
    /// From which the picks of a run are drawn.
    pub seed: u64,
    /// Steps that a run has at most, 0 to 2^40.
    pub picks: u64,
    /// Events that a hart retires at most, 1 to 2^40.
    pub limit: u64,
    /// From which the guest of mode `Gen` is made.
    pub number: u64,
}

/// Why words are no task.
#[derive(Clone, Copy, Debug, PartialEq, Eq, thiserror::Error)]
pub enum WordsFault {
    /// The words are not options of the table, each with one value and at most once.
    #[error("words")]
    Words,
    /// The first option, by its place in the table, whose text is not allowed.
    #[error("option {0}")]
    Value(OptionNo),
    #[error("no memory")]
    Memory,
}

impl From<AllocError> for WordsFault {
    ghost use Rattle.std.specs.Prelude.{◌≡◌};
    ghost use Rattle.osc_cli.specs.declared.task.WordsFault.TheVariants.{Memory};

    ghost from_gives = { λ _ fault. fault ≡ Memory };

    fn from(_error: AllocError) -> WordsFault {
        WordsFault::Memory
    }
}

/// The mode that a text names.
#[tactic(auto, unfolding(crate::specs::Choices::mode_of))]
fn mode_of(text: Option<&str>) -> Option<Mode>
    ensures names { result ≡ choices.mode_of (option_map (λ t. t.now) text.entry) }
    ensures stepped { IfSome result (λ mode. mode ≢ Run) }
{
    match text {
        None | Some("seed") => Some(Mode::Seed),
        Some("object") => Some(Mode::Object),
        Some("gen") => Some(Mode::Gen),
        Some("asm") => Some(Mode::Asm),
        Some("disasm") => Some(Mode::Disasm),
        Some(_) => None,
    }
}

/// Whether the plain heap may be given to a mode.
fn has_plain(mode: Mode) -> bool
    ensures { result ≡ choices.has_plain mode }
{
    !matches!(mode, Mode::Object)
}

/// The heap that a text names, where the mode allows it.
#[tactic(auto, unfolding(crate::specs::Choices::heap_of))]
fn heap_of(mode: Mode, text: Option<&str>) -> Option<HeapKind>
    ensures names { result ≡ choices.heap_of mode (option_map (λ t. t.now) text.entry) }
    ensures fits { IfSome result (λ heap. choices.has_plain mode ≡ false → heap ≡ Oscar) }
{
    match text {
        None | Some("oscar") => Some(HeapKind::Oscar),
        Some("plain") if has_plain(mode) => Some(HeapKind::Plain),
        Some(_) => None,
    }
}

/// A choice, or the option's place where there is none.
fn chosen<T: Copy>(place: OptionNo, choice: Option<T>) -> Result<T, WordsFault>
    ensures { MatchResult result
        (λ taken. choice ≡ Some taken)
        (λ refused. (choice ≡ None) × (refused ≡ fault.Value place)) }
{
    match choice {
        Some(taken) => Ok(taken),
        None => Err(WordsFault::Value(place)),
    }
}

/// What the options ask for, or the first whose text is not allowed.
#[tactic(auto, unfolding(crate::specs::Words::chosen))]
fn task_of(matches: &ArgMatches<'_>) -> Result<Task, WordsFault>
    ensures says { result ≡ spec.chosen (rows_of (found_of matches.now)) }
    ensures ready { IfOk result spec.IsReady }
{
    let mode = chosen(0, mode_of(text_of(matches, MODE)))?;
    let heap = chosen(1, heap_of(mode, text_of(matches, HEAP)))?;
    let harts = HARTS.read(matches)? as u32;
    let processes = PROCESSES.read(matches)? as u32;
    let frames = FRAMES.read(matches)? as u32;
    let shadows = SHADOWS.read(matches)? as u32;
    let journal = JOURNAL.read(matches)? as u32;
    let seed = SEED.read(matches)?;
    let picks = PICKS.read(matches)?;
    let limit = LIMIT.read(matches)?;
    let number = NUMBER.read(matches)?;
    let levels = LEVELS.read(matches)? as u8;
    let batch = BATCH.read(matches)? as u32;
    let config = Config {
        heap,
        harts,
        processes,
        frames,
        shadows,
        journal,
        levels,
        batch,
    };
    Ok(Task {
        mode,
        config,
        seed,
        picks,
        limit,
        number,
    })
}

/// What a refusal of the command is.
fn refusal_of(error: &Error) -> WordsFault
    ensures { result ≡ told (kind_of error.now) }
{
    match error.kind() {
        ErrorKind::OutOfMemory => WordsFault::Memory,
        _ => WordsFault::Words,
    }
}

/// The task that the words of the command ask for, of which the first is the program's name.
///
/// `Words` comes exactly where the command refuses the words for another cause than memory: a word
/// that is no option of the table, an option twice or without a value, a word that is no option's
/// value, or a request for help. Else `Value` comes with the first option of the table whose text
/// is not allowed. `Memory` may come at any words.
pub fn read_words(alloc: Global, words: &[&str]) -> Result<Task, WordsFault>
    ensures says { spec.Says (map (λ word. word.now) words.now) result }
    ensures ready { IfOk result spec.IsReady }
{
    let command = command_of(alloc)?;
    match command.try_get_matches_from(words) {
        Ok(matches) => task_of(&matches),
        Err(error) => Err(refusal_of(&error)),
    }
}
