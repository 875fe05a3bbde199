//! The plans of the calls on the heap, by the kind of heap.

ghost use Rattle.std.specs.Prelude.{◌≡◌, ◌≤◌, Bool, List, length};
ghost use Rattle.osc_word.specs.declared.settings.HeapKind.TheVariants.{Oscar, Plain};
ghost use Rattle.osc_calls.specs.HeapPlans.{free_of, malloc_by, realloc_by};
ghost use Rattle.osc_plain.specs.Plan as plain;
ghost use Rattle.osc_realloc.specs.Outcomes as realloc;
ghost use Rattle.osc_release.specs.Outcomes.{found_of, terms};
ghost use Rattle.osc_shadow.specs.Outcomes as malloc;
ghost use Rattle.osc_space.specs.Agree.{HasSpare};
ghost use Rattle.osc_space.specs.Free.{closing_where, free_plan};
ghost use Rattle.osc_space.specs.Malloc.{malloc_plan};
ghost use Rattle.osc_space.specs.PlainHeap.{plain_free_plan, plain_malloc_plan, plain_realloc_plan};
ghost use Rattle.osc_space.specs.Realloc.{realloc_plan};
ghost use Rattle.osc_space.specs.Space.{Keeps};
ghost use Rattle.osc_process.specs.Fits.{HasBatch, HasParts};
ghost use Rattle.osc_process.specs.Given.{closing_if_moved, gives_one};
ghost use Rattle.osc_process.specs.Parts.{SameSizes, draft_at, made, with_space};

use crate::given::{block_left, block_of};
use crate::live::live_object;
use crate::{Closing, Process};
use osc_frames::Frames;
use osc_heap::Block;
use osc_plain::{
    PlainFreed, PlainMalloced, PlainRealloced, plain_free, plain_malloc, plain_realloc,
};
use osc_realloc::{Realloced, plan_realloc};
use osc_release::{FreePlan, plan_free};
use osc_shadow::{Malloced, plan_malloc};
use osc_word::{Answer, CallNo, Config, HeapKind, Jobs};

/// What a malloc answers.
fn malloc_answer(planned: Malloced) -> Answer
    ensures { result ≡ malloc.malloc_answer planned }
{
    match planned {
        Malloced::Given { object, pointer } => Answer::Given { object, pointer },
        Malloced::NoShadow => Answer::NoShadow,
        Malloced::NoFrames => Answer::NoFrames,
    }
}

/// What a malloc on the plain heap answers.
fn plain_malloc_answer(planned: PlainMalloced) -> Answer
    ensures { result ≡ plain.malloc_answer planned }
{
    match planned {
        PlainMalloced::Given { pointer } => Answer::Placed { pointer },
        PlainMalloced::NoFrames => Answer::NoFrames,
    }
}

/// What a free on the plain heap answers.
fn plain_free_answer(planned: PlainFreed) -> Answer
    ensures { result ≡ plain.free_answer planned }
{
    match planned {
        PlainFreed::Freed => Answer::Nothing,
        PlainFreed::NotAnObject => Answer::NotAnObject,
    }
}

/// What a realloc answers.
fn realloc_answer(planned: Realloced) -> Answer
    ensures { result ≡ realloc.answer_of planned }
{
    match planned {
        Realloced::Moved {
            old,
            object,
            pointer,
        } => Answer::Moved {
            old,
            object,
            pointer,
        },
        Realloced::HeaderDamaged { kept, found, .. } => Answer::HeaderDamaged { kept, found },
        Realloced::NoShadow => Answer::NoShadow,
        Realloced::NoFrames => Answer::NoFrames,
    }
}

/// What a realloc on the plain heap answers.
fn plain_realloc_answer(planned: PlainRealloced) -> Answer
    ensures { result ≡ plain.realloc_answer planned }
{
    match planned {
        PlainRealloced::Placed { pointer } => Answer::Placed { pointer },
        PlainRealloced::NoFrames => Answer::NoFrames,
        PlainRealloced::NotAnObject => Answer::NotAnObject,
    }
}

/// A realloc that is refused gives nothing back.
fn keep_refused(planned: Realloced, closing: &mut Closing)
    ensures { closing.new ≡ closing_if_moved planned closing.old }
{
    match planned {
        Realloced::Moved { .. } => {}
        _ => closing.keep(),
    }
}

/// The block that a realloc on the plain heap to `n` bytes gives back: the old one, where it is not
/// refused and does not stay.
fn moved_back(planned: PlainRealloced, n: u64, block: Option<Block>) -> Option<Block>
    ensures { gives_one result ≡ plain.moved_back planned n block }
{
    match (planned, block) {
        (PlainRealloced::Placed { .. }, Some(block)) => block_left(block, n),
        _ => None,
    }
}

impl Process {
    /// Plans a malloc of `n` bytes: Given or Placed with its pointer, or NoShadow or NoFrames where
    /// there is too little. A refusal changes nothing, and nothing is given back when it returns.
    pub fn malloc(
        &mut self,
        config: &Config,
        n: u64,
        frames: &mut Frames,
        jobs: &mut Jobs,
    ) -> Answer
        requires parts { HasParts config.now.heap self.old.space frames.old }
        requires spare { HasSpare jobs.old (length frames.old) }
        ensures plan { made result Keeps self.new frames.new jobs.new
            ≡ malloc_by config.now.heap n (draft_at self.old frames.old jobs.old.pushed) }
        ensures rest { self.new ≡ with_space self.new.space self.old }
        ensures sizes { SameSizes self.old.space self.new.space }
        ensures room { jobs.new.room ≡ jobs.old.room }
    {
        match config.heap {
            HeapKind::Oscar => self.malloc_object(n, frames, jobs),
            HeapKind::Plain => self.malloc_block(n, frames, jobs),
        }
    }

    /// A malloc under the heap oscar.
    fn malloc_object(&mut self, n: u64, frames: &mut Frames, jobs: &mut Jobs) -> Answer
        requires parts { HasParts Oscar self.old.space frames.old }
        requires spare { HasSpare jobs.old (length frames.old) }
        ensures plan { made result Keeps self.new frames.new jobs.new
            ≡ malloc_plan n (draft_at self.old frames.old jobs.old.pushed) }
        ensures rest { self.new ≡ with_space self.new.space self.old }
        ensures room { jobs.new.room ≡ jobs.old.room }
    {
        let planned = plan_malloc(&mut self.space, frames, jobs, n);
        malloc_answer(planned)
    }

    /// A malloc on the plain heap.
    fn malloc_block(&mut self, n: u64, frames: &mut Frames, jobs: &mut Jobs) -> Answer
        requires parts { HasParts Plain self.old.space frames.old }
        requires spare { HasSpare jobs.old (length frames.old) }
        ensures plan { made result Keeps self.new frames.new jobs.new
            ≡ plain_malloc_plan n (draft_at self.old frames.old jobs.old.pushed) }
        ensures rest { self.new ≡ with_space self.new.space self.old }
        ensures room { jobs.new.room ≡ jobs.old.room }
    {
        let planned = plain_malloc(
            &mut self.space.tables,
            &mut self.space.heap,
            frames,
            jobs,
            n,
        );
        plain_malloc_answer(planned)
    }

    /// Plans a free, the words of whose header were found as given; under the heap plain, and where no
    /// live object has the pointer, they are not looked at. A free of 0 does nothing. `closing` becomes
    /// what the call gives back when it returns. DoubleFree, NotAnObject and HeaderDamaged change
    /// nothing.
    pub fn free(
        &mut self,
        config: &Config,
        pointer: u64,
        found: [u64; 2],
        call: CallNo,
        jobs: &mut Jobs,
        closing: &mut Closing,
    ) -> Answer
        requires parts { HasBatch config.now.heap config.now.batch self.old.space }
        requires harts { config.now.harts ≤ 8 }
        requires spare { HasSpare jobs.old self.old.space.tables.count }
        ensures plan { (free : List Bool) → made result closing.new self.new free jobs.new
            ≡ free_of config.now.heap (terms config.now.harts call config.now.batch) pointer (found_of found)
            (draft_at self.old free jobs.old.pushed) }
        ensures rest { self.new ≡ with_space self.new.space self.old }
        ensures sizes { SameSizes self.old.space self.new.space }
        ensures room { jobs.new.room ≡ jobs.old.room }
    {
        if pointer == 0 {
            closing.keep();
            return Answer::Nothing;
        }
        match config.heap {
            HeapKind::Oscar => self.free_object(config, pointer, found, call, jobs, closing),
            HeapKind::Plain => self.free_block(config, pointer, jobs, closing),
        }
    }

    /// A free under the heap oscar.
    fn free_object(
        &mut self,
        config: &Config,
        pointer: u64,
        found: [u64; 2],
        call: CallNo,
        jobs: &mut Jobs,
        closing: &mut Closing,
    ) -> Answer
        requires parts { HasBatch Oscar config.now.batch self.old.space }
        requires harts { config.now.harts ≤ 8 }
        requires spare { HasSpare jobs.old self.old.space.tables.count }
        ensures plan { (free : List Bool) → made result closing.new self.new free jobs.new
            ≡ free_plan (terms config.now.harts call config.now.batch) pointer (found_of found)
            (draft_at self.old free jobs.old.pushed) }
        ensures rest { self.new ≡ with_space self.new.space self.old }
        ensures room { jobs.new.room ≡ jobs.old.room }
    {
        if let Err(answer) = live_object(&self.space.marks, pointer) {
            closing.keep();
            return answer;
        }
        let planned = plan_free(
            &mut self.space.tables,
            &mut self.space.marks,
            &mut self.waiting,
            jobs,
            pointer,
            found,
            call,
            config.harts,
            config.batch,
        );
        match planned {
            FreePlan::Freed { object, flush } => {
                self.give_where(flush, closing);
                Answer::Freed { object }
            }
            FreePlan::HeaderDamaged { kept, found, .. } => {
                closing.keep();
                Answer::HeaderDamaged { kept, found }
            }
        }
    }

    /// The blocks of all that wait are given back, where they are let go.
    fn give_where(&self, flush: bool, closing: &mut Closing)
        requires few { length self.now.space.waiting ≤ 64 }
        ensures { closing.new ≡ closing_where flush self.now.space }
    {
        if flush {
            closing.give_waiting(&self.space.marks, &self.waiting, None);
        } else {
            closing.keep();
        }
    }

    /// A free on the plain heap.
    fn free_block(
        &mut self,
        config: &Config,
        pointer: u64,
        jobs: &mut Jobs,
        closing: &mut Closing,
    ) -> Answer
        requires parts { HasBatch Plain config.now.batch self.old.space }
        requires harts { config.now.harts ≤ 8 }
        requires spare { HasSpare jobs.old self.old.space.tables.count }
        ensures plan { (free : List Bool) → made result closing.new self.new free jobs.new
            ≡ plain_free_plan config.now.harts pointer (draft_at self.old free jobs.old.pushed) }
        ensures rest { self.new ≡ with_space self.new.space self.old }
        ensures room { jobs.new.room ≡ jobs.old.room }
    {
        let block = self.space.heap.block_at(pointer);
        closing.give(block);
        let planned = plain_free(
            &mut self.space.tables,
            &mut self.space.heap,
            jobs,
            pointer,
            config.harts,
        );
        plain_free_answer(planned)
    }

    /// Plans a realloc to `n` bytes, the words of whose header were found as given; where there is no
    /// live object, or no held block, they are not looked at. `closing` becomes what the call gives back
    /// when it returns. All answers but Moved and Placed change nothing.
    pub fn realloc(
        &mut self,
        config: &Config,
        pointer: u64,
        n: u64,
        found: [u64; 2],
        call: CallNo,
        frames: &mut Frames,
        jobs: &mut Jobs,
        closing: &mut Closing,
    ) -> Answer
        requires parts { HasParts config.now.heap self.old.space frames.old }
        requires harts { config.now.harts ≤ 8 }
        requires spare { HasSpare jobs.old (length frames.old) }
        ensures plan { made result closing.new self.new frames.new jobs.new
            ≡ realloc_by config.now.heap (terms config.now.harts call config.now.batch) pointer n (found_of found)
            (draft_at self.old frames.old jobs.old.pushed) }
        ensures rest { self.new ≡ with_space self.new.space self.old }
        ensures sizes { SameSizes self.old.space self.new.space }
        ensures room { jobs.new.room ≡ jobs.old.room }
    {
        match config.heap {
            HeapKind::Oscar => {
                self.realloc_object(config, pointer, n, found, call, frames, jobs, closing)
            }
            HeapKind::Plain => {
                let [_, size] = found;
                self.realloc_block(config.harts, pointer, n, size, frames, jobs, closing)
            }
        }
    }

    /// A realloc under the heap oscar.
    fn realloc_object(
        &mut self,
        config: &Config,
        pointer: u64,
        n: u64,
        found: [u64; 2],
        call: CallNo,
        frames: &mut Frames,
        jobs: &mut Jobs,
        closing: &mut Closing,
    ) -> Answer
        requires parts { HasParts Oscar self.old.space frames.old }
        requires harts { config.now.harts ≤ 8 }
        requires spare { HasSpare jobs.old (length frames.old) }
        ensures plan { made result closing.new self.new frames.new jobs.new
            ≡ realloc_plan (terms config.now.harts call config.now.batch) pointer n (found_of found)
            (draft_at self.old frames.old jobs.old.pushed) }
        ensures rest { self.new ≡ with_space self.new.space self.old }
        ensures room { jobs.new.room ≡ jobs.old.room }
    {
        let seen = match live_object(&self.space.marks, pointer) {
            Ok(seen) => seen,
            Err(answer) => {
                closing.keep();
                return answer;
            }
        };
        let left = block_left(block_of(seen.fact), n);
        closing.give_waiting(&self.space.marks, &self.waiting, left);
        let planned = plan_realloc(
            &mut self.space.tables,
            &mut self.space.marks,
            &self.waiting,
            &mut self.space.heap,
            frames,
            jobs,
            pointer,
            n,
            found,
            call,
            config.harts,
        );
        keep_refused(planned, closing);
        realloc_answer(planned)
    }

    /// A realloc on the plain heap; `size` is the second word of the block's header, as it was found.
    fn realloc_block(
        &mut self,
        harts: u32,
        pointer: u64,
        n: u64,
        size: u64,
        frames: &mut Frames,
        jobs: &mut Jobs,
        closing: &mut Closing,
    ) -> Answer
        requires parts { HasParts Plain self.old.space frames.old }
        requires harts { harts ≤ 8 }
        requires spare { HasSpare jobs.old (length frames.old) }
        ensures plan { made result closing.new self.new frames.new jobs.new
            ≡ plain_realloc_plan harts pointer n size (draft_at self.old frames.old jobs.old.pushed) }
        ensures rest { self.new ≡ with_space self.new.space self.old }
        ensures room { jobs.new.room ≡ jobs.old.room }
    {
        let block = self.space.heap.block_at(pointer);
        let planned = plain_realloc(
            &mut self.space.tables,
            &mut self.space.heap,
            frames,
            jobs,
            pointer,
            n,
            size,
            harts,
        );
        closing.give(moved_back(planned, n, block));
        plain_realloc_answer(planned)
    }
}
