//! What the holder of the kernel still has to do on memory and boxes.

ghost use Rattle.std.specs.Prelude.{◌≡◌, ◌<◌, ◌-◌, ◌++◌, ◌∷◌, [], length, IfOk, slice_get};

use std::alloc::{AllocError, Global};
use std::marker::Model;

/// A word of a frame, which has 512 words of 8 bytes.
#[derive(Clone, Copy, Debug, PartialEq, Eq)]
pub struct WordAt {
    pub frame: u32,
    /// Below 512.
    pub index: u16,
}

/// One thing to do. No piece crosses a frame.
#[derive(Clone, Copy, Debug, PartialEq, Eq)]
pub enum Job {
    /// Stores one word.
    PutWord {
        at: WordAt,
        value: u64,
    },
    /// Stores 0 in so many words.
    ZeroWords {
        at: WordAt,
        count: u16,
    },
    /// Copies so many words.
    CopyWords {
        from: WordAt,
        to: WordAt,
        count: u16,
    },
    /// Copies one word, of which the bytes from `bytes` on become 0.
    CopyPart {
        from: WordAt,
        to: WordAt,
        bytes: u8,
    },
    /// Fills a table of a child with its parent's entries, with the child's frames.
    CopyTable {
        from: u32,
        to: u32,
    },
    /// Empties the cache of a hart's box.
    ClearBox {
        hart: u32,
    },
    /// Starts a thread on an idle hart.
    Tell {
        hart: u32,
    },
    /// Appends `count` bytes of a word, from byte `first` on, to the output.
    ToOut {
        at: WordAt,
        first: u8,
        count: u8,
    },
}

/// Jobs in the order in which they were pushed, and room for more.
#[derive(Drop)]
pub struct Jobs {
    jobs: Vec<Job>,
    room: u32,
}

impl Model for Jobs {
    ghost use Rattle.std.specs.Prelude.{◌≤◌};
    ghost use Rattle.std.specs.Vec.{vec_len, vec_capacity};
    ghost use Rattle.osc_word.specs.JobList.{JobList};

    ghost Value = { JobList };

    ghost view = { λ list. record { pushed = list.jobs.items; room = list.room } };

    ghost invariant = { λ list. (vec_len list.jobs ≤ list.room) × (list.room ≤ vec_capacity list.jobs) };
}

impl Jobs {
    ghost use Rattle.osc_word.specs.JobList.{JobList, no_jobs, spare, with_job, without_jobs};

    /// No jobs, and room for `room`.
    pub fn new(alloc: Global, room: u32) -> Result<Jobs, AllocError>
        ensures { IfOk result (λ list. list ≡ no_jobs room) }
    {
        let jobs = Vec::with_capacity(alloc, room as usize)?;
        Ok(Jobs { jobs, room })
    }

    /// How many more jobs can be pushed.
    pub fn spare(&self) -> u32
        ensures { result ≡ spare self.now }
    {
        self.room - self.jobs.len() as u32
    }

    /// Appends a job.
    pub fn push(&mut self, job: Job)
        requires { 0 < spare self.old }
        ensures { self.new ≡ with_job self.old job }
    {
        self.jobs.push(job).unwrap();
    }

    /// The job at a place, from 0; None exactly past the end.
    pub fn get(&self, i: u32) -> Option<Job>
        ensures { result ≡ slice_get self.now.pushed i }
    {
        self.jobs.get(i as usize).copied()
    }

    /// Drops all jobs. The room stays.
    pub fn clear(&mut self)
        ensures { self.new ≡ without_jobs self.old }
    {
        self.jobs.clear();
    }
}
