//! A world that is given one event after another, and keeps the first error.

use crate::events::judge;
use osc_object::State;
use osc_word::Event;
use osc_world::ObjectWhy;
use std::alloc::{AllocError, Global};
use std::marker::Model;

/// What the events so far were.
#[derive(Clone, Copy, Debug, PartialEq, Eq)]
pub enum Judged {
    Clean,
    /// The first error.
    Error(ObjectWhy),
}

/// The first error, and the number of its event, from 0.
#[derive(Clone, Copy, Debug, PartialEq, Eq)]
pub struct JudgedError {
    pub event: u64,
    pub why: ObjectWhy,
}

/// A world: its state before the first error, the events that led to it, and that error. Once memory was
/// wanting, nothing is known of it any more.
#[derive(Drop)]
pub struct World {
    state: State,
    events: u64,
    error: Option<ObjectWhy>,
    lost: bool,
}

impl Model for World {
    ghost use Rattle.std.specs.Prelude.{Option};
    ghost use Rattle.osc_world.specs.Run.{ObjectRun};
    ghost use Rattle.osc_judge.specs.Judging.{run_of};

    ghost Value = { Option ObjectRun };

    ghost view = { λ w. run_of w.lost w.state w.events w.error };
}

impl World {
    ghost use Rattle.std.specs.Prelude.{◌≡◌, IfOk, OnOk, OnErr, Some, None};
    ghost use Rattle.osc_world.specs.Run.{begins};
    ghost use Rattle.osc_judge.specs.Judging.{judged_by, judgement, first_error, ending, output_in};

    /// A world in this state, before any event.
    pub fn begun(state: State) -> World
        ensures { result ≡ Some (begins state) }
    {
        World {
            state,
            events: 0,
            error: None,
            lost: false,
        }
    }

    /// One event more; after the first error it is that error again, and nothing is done. An `Err` is want of
    /// memory, which is answered from then on.
    #[tactic(auto, using(crate::proofs::Judgings::judged_goes, crate::proofs::Judgings::judged_errs))]
    pub fn step(&mut self, alloc: Global, event: Event) -> Result<Judged, AllocError>
        ensures run { OnOk result (self.new ≡ judged_by event self.old) }
        ensures answer { IfOk result (λ judged. Some judged ≡ judgement self.new) }
        ensures err { OnErr result (self.new ≡ None) }
    {
        if self.lost {
            return Err(AllocError);
        }
        if let Some(why) = self.error {
            return Ok(Judged::Error(why));
        }
        match judge(alloc, &mut self.state, event) {
            Ok(Some(why)) => {
                self.error = Some(why);
                Ok(Judged::Error(why))
            }
            // an event that no number is left for counts as want of memory
            Ok(None) if self.events < u64::MAX => {
                self.events += 1;
                Ok(Judged::Clean)
            }
            _ => {
                self.lost = true;
                Err(AllocError)
            }
        }
    }

    /// The first error; None as long as there is none, and once memory was wanting.
    pub fn error(&self) -> Option<JudgedError>
        ensures { result ≡ first_error self.now }
    {
        if self.lost {
            return None;
        }
        let why = self.error?;
        Some(JudgedError {
            event: self.events,
            why,
        })
    }

    /// How process 0 ended before the first error; None where it has not, and once memory was wanting.
    pub fn status(&self) -> Option<u8>
        ensures { result ≡ ending self.now }
    {
        let state = &self.state;
        if self.lost || state.processes.is_empty() {
            return None;
        }
        state.processes[0].status()
    }

    /// The output before the first error; nothing once memory was wanting.
    pub fn output(&self) -> &[u8]
        ensures { result.now ≡ output_in self.now }
    {
        if self.lost {
            return &[];
        }
        let state = &self.state;
        &state.output
    }
}
