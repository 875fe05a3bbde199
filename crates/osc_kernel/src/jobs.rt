//! The jobs of a committed call.

ghost use Rattle.std.specs.Prelude.{◌≡◌, ◌+◌, ◌-◌, ◌∷◌, ◌++◌, ◌<◌, ◌≤◌, List, Some, IfSome, IsSome, drop, length, sum_by};
ghost use Rattle.std.specs.Option.{option_to_list};
ghost use Rattle.std.specs.Vec.{vec_capacity};
ghost use Rattle.osc_word.specs.declared.job_list.Job.{Job};
ghost use Rattle.osc_calls.specs.JobDone.{bytes_of, job_done, output_after};
ghost use Rattle.osc_calls.specs.Kernel.{next_job};
ghost use Rattle.osc_calls.specs.Labels.{out_count, out_shows};
ghost use Rattle.osc_space.specs.WordLaws.{StaysInFrame};
ghost use Rattle.osc_kernel.specs.Inside.{kernel_of};
ghost use Rattle.osc_kernel.specs.Sound.{Sound};

use crate::state::{State, UnderWay};
use osc_under_way::out_label;
use osc_word::{Job, Jobs, Label};

/// The bytes of a word.
const WORD: usize = 8;

/// Appends so many bytes of a word, from one on.
fn push_bytes(output: &mut Vec<u8>, word: u64, first: u8, count: u8)
    requires { length output.old.items + count ≤ vec_capacity output.old }
    ensures items { output.new.items ≡ output.old.items ++ bytes_of word first count }
    ensures capacity { vec_capacity output.old ≤ vec_capacity output.new }
{
    let bytes = word.to_le_bytes();
    let from = (first as usize).min(WORD);
    let to = (from + count as usize).min(WORD);
    output.extend_from_slice(&bytes[from..to]).unwrap();
}

/// The bytes of a job that writes out go to the output.
fn write_out(output: &mut Vec<u8>, pending: &mut u32, job: Job, word: u64)
    requires room { length output.old.items + out_count job ≤ vec_capacity output.old }
    requires pending { out_count job ≤ pending.old }
    ensures items { output.new.items ≡ output_after word (Some job) output.old.items }
    ensures capacity { vec_capacity output.old ≤ vec_capacity output.new }
    ensures pending { pending.new ≡ pending.old - out_count job }
{
    if let Job::ToOut { first, count, .. } = job {
        push_bytes(output, word, first, count);
        *pending -= u32::from(count);
    }
}

/// The next job is done. Where it was the last one, none is kept.
fn step(jobs: &mut Jobs, done: &mut u32)
    requires some { done.old < length jobs.old.pushed }
    requires few { length jobs.old.pushed < 4294967295 }
    ensures rest { drop done.new jobs.new.pushed ≡ drop 1 (drop done.old jobs.old.pushed) }
    ensures clean { done.new ≤ length jobs.new.pushed - 1 }
    ensures room { jobs.new.room ≡ jobs.old.room }
    ensures few { length jobs.new.pushed ≤ length jobs.old.pushed }
{
    *done += 1;
    match jobs.get(*done) {
        Some(_) => {}
        None => {
            jobs.clear();
            *done = 0;
        }
    }
}

/// What the step shows in which a job is done.
fn label_of(state: &State, job: Job) -> Option<Label>
    ensures { (jobs : List Job) → state.now.pending ≡ out_count job + sum_by out_count jobs
        → option_to_list result ≡ out_shows (kernel_of state.now).under_way (job ∷ jobs) }
{
    match state.under_way {
        UnderWay::Returning {
            calling,
            answer,
            ..
        } => out_label(&calling, answer, job, state.pending),
        _ => None,
    }
}

/// The next job is done; `word` is the one that it read last.
pub fn job_done(state: &mut State, word: u64)
    requires sound { Sound state.old }
    requires some { IsSome (next_job (kernel_of state.old)) }
    ensures sound { Sound state.new }
    ensures kernel { kernel_of state.new ≡ (job_done word (kernel_of state.old)).kernel }
    ensures shown { option_to_list state.new.shown ≡ (job_done word (kernel_of state.old)).shows }
    ensures freed { state.new.freed ≡ state.old.freed }
{
    let job = state.jobs.get(state.done).unwrap();
    state.shown = label_of(state, job);
    write_out(&mut state.output, &mut state.pending, job, word);
    step(&mut state.jobs, &mut state.done);
}

/// The next job; None where all are done. No run of words that it writes or copies crosses its frame.
pub fn next(state: &State) -> Option<Job>
    requires sound { Sound state.now }
    ensures next { result ≡ next_job (kernel_of state.now) }
    ensures within { IfSome result StaysInFrame }
{
    state.jobs.get(state.done)
}
