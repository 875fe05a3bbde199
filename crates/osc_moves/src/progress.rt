//! How far a hart is in a job.

ghost use Rattle.std.specs.Prelude.{ℕ, ◌≡◌, ◌+◌, ◌<◌, ◌≤◌, IfSome, length, option_map};
ghost use Rattle.osc_calls.specs.Moves.{after, low_bytes, moves_of};
ghost use Rattle.osc_machine.specs.Turns.{copy_ask, move_ask, moves_left};
ghost use Rattle.osc_space.specs.WordLaws.{StaysInFrame};
ghost use Rattle.osc_moves.specs.Standing.{IsEntry, first_of, moves_at, left_of, place_of, loads_first, box_of, box_changed};

use osc_machine::HartAsk;
use osc_word::{Job, WordAt};
use std::marker::Model;

/// The words of a frame.
const FRAME_WORDS: u16 = 512;

/// The bytes of a word.
const WORD: u8 = 8;

/// A job on which a hart works, and how far it is. No run of words of the job crosses its frame.
#[derive(Clone, Copy, Debug, PartialEq, Eq)]
pub struct Progress {
    job: Job,
    /// How many of its moves are done.
    done: u16,
    /// The word that the next move, a copy, has loaded.
    read: Option<u64>,
}

impl Model for Progress {
    ghost use Rattle.osc_space.specs.WordLaws.{StaysInFrame};
    ghost use Rattle.osc_moves.specs.Standing.{Standing};

    ghost Value = { Standing };

    ghost view = { λ p. record { job = p.job; done = p.done; read = p.read } };

    ghost inverse = { λ s. record { job = s.job; done = s.done; read = s.read } };

    ghost invariant = { λ p. StaysInFrame p.job };
}

/// How many moves a job has.
fn count_of(job: Job) -> u16
    ensures { (entries : ℕ → ℕ → ℕ) → result ≡ length (moves_of entries job) }
{
    match job {
        Job::ZeroWords { count, .. } => count,
        Job::CopyWords { count, .. } => count,
        Job::CopyTable { .. } => FRAME_WORDS,
        Job::PutWord { .. }
        | Job::CopyPart { .. }
        | Job::ClearBox { .. }
        | Job::Tell { .. }
        | Job::ToOut { .. } => 1,
    }
}

/// The word so many words after another of its frame.
fn after(at: WordAt, count: u16) -> WordAt
    requires { at.index + count < 65536 }
    ensures { result ≡ after at count }
{
    WordAt {
        frame: at.frame,
        index: at.index + count,
    }
}

/// So many of the lowest bytes of a word.
fn low_bytes(bytes: u8, word: u64) -> u64
    ensures { result ≡ low_bytes bytes word }
{
    if bytes < WORD {
        word % (1 << (8 * u32::from(bytes)))
    } else {
        word
    }
}

/// What a copy asks for: the load, and then the store of what it loaded.
fn copy_ask(from: WordAt, to: WordAt, read: Option<u64>) -> HartAsk
    ensures { result ≡ copy_ask from to read }
{
    match read {
        None => HartAsk::Load(from),
        Some(value) => HartAsk::Store { at: to, value },
    }
}

/// The hart whose box a job changes.
fn box_of(job: Job) -> Option<u32>
    ensures { result ≡ box_of job }
{
    match job {
        Job::ClearBox { hart } | Job::Tell { hart } => Some(hart),
        _ => None,
    }
}

impl Progress {
    /// At the first move of a job.
    pub fn begin(job: Job) -> Progress
        requires { StaysInFrame job }
        ensures { result ≡ first_of job }
    {
        Progress {
            job,
            done: 0,
            read: None,
        }
    }

    /// The job.
    pub fn job(&self) -> Job
        ensures { result ≡ self.now.job }
    {
        self.job
    }

    /// The place, below 512, of the entry that the next move stores; None exactly where it stores no
    /// entry of a table that is copied.
    pub fn place(&self) -> Option<u16>
        ensures { result ≡ place_of self.now }
    {
        match self.job {
            Job::CopyTable { .. } if self.done < FRAME_WORDS => Some(self.done),
            _ => None,
        }
    }

    /// The next action. `entry` is the entry that it stores, where it stores one; else it is not
    /// looked at. `Rest` comes exactly for a job of no words.
    pub fn ask(&self, entry: u64) -> HartAsk
        ensures { (entries : ℕ → ℕ → ℕ) → IsEntry entries self.now entry
            → result ≡ move_ask (moves_at entries self.now) self.now.read }
    {
        let done = self.done;
        if done >= count_of(self.job) {
            return HartAsk::Rest;
        }
        match self.job {
            Job::PutWord { at, value } => HartAsk::Store { at, value },
            Job::ZeroWords { at, .. } => HartAsk::Store {
                at: after(at, done),
                value: 0,
            },
            Job::CopyWords { from, to, .. } => {
                copy_ask(after(from, done), after(to, done), self.read)
            }
            Job::CopyPart { from, to, bytes } => {
                copy_ask(from, to, self.read.map(|word| low_bytes(bytes, word)))
            }
            Job::CopyTable { to, .. } => HartAsk::Store {
                at: WordAt {
                    frame: to,
                    index: done,
                },
                value: entry,
            },
            Job::ClearBox { hart } | Job::Tell { hart } => HartAsk::ChangeBox(hart),
            Job::ToOut { at, .. } => HartAsk::Load(at),
        }
    }

    /// Whether the next action is the load of a copy.
    fn loads_first(&self) -> bool
        ensures { result ≡ loads_first self.now }
    {
        self.read.is_none() && matches!(self.job, Job::CopyWords { .. } | Job::CopyPart { .. })
    }

    /// Where the hart stands once the next action is done; `word` is what a load gave. None exactly
    /// where the job is done.
    pub fn told(&self, word: u64) -> Option<Progress>
        ensures left { (entries : ℕ → ℕ → ℕ)
            → left_of entries result ≡ moves_left (moves_at entries self.now) self.now.read word }
        ensures job { IfSome result (λ next. next.job ≡ self.now.job) }
    {
        let left = count_of(self.job).saturating_sub(self.done);
        if left == 0 {
            None
        } else if self.loads_first() {
            Some(Progress {
                job: self.job,
                done: self.done,
                read: Some(word),
            })
        } else if left == 1 {
            None
        } else {
            Some(Progress {
                job: self.job,
                done: self.done + 1,
                read: None,
            })
        }
    }

    /// The hart whose box the next move changes; None exactly where it changes no box.
    pub fn box_changed(&self) -> Option<u32>
        ensures { (entries : ℕ → ℕ → ℕ) → result ≡ box_changed (moves_at entries self.now) }
    {
        if self.done > 0 {
            return None;
        }
        box_of(self.job)
    }
}
