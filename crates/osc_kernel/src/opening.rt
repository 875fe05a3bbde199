//! How a machine's kernel opens.

ghost use Rattle.std.specs.Prelude.{ℕ, ◌≡◌, ◌+◌, ◌-◌, ◌*◌, ◌<◌, ◌≤◌, IfErr, IfOk, None, [], ◌∷◌, replicate};
ghost use Rattle.std.specs.Vec.{vec_capacity};
ghost use Rattle.osc_word.specs.Limits.{first_fault};
ghost use Rattle.osc_frames.specs.Free.{all_free};
ghost use Rattle.osc_calls.specs.Open.{opening};
ghost use Rattle.osc_open.specs.Laying.{AreImagePages, frames_for, pages_of};
ghost use Rattle.osc_process.specs.Parts.{unused};
ghost use Rattle.osc_kernel.specs.Inside.{kernel_of};
ghost use Rattle.osc_kernel.specs.Opens.{IsFresh, Opened, Refuses, started};
ghost use Rattle.osc_kernel.specs.Sound.{HasRooms, IsSized};

use crate::state::{Kernel, State, UnderWay};
use osc_frames::Frames;
use osc_process::{Closing, Process};
use osc_share::Regions;
use osc_sv39::PteBits;
use osc_thread::Threads;
use osc_under_way::Records;
use osc_word::{Config, Jobs, OUTPUT_LIMIT, Page, Waiting};
use std::alloc::{AllocError, Global};

/// The most words of one write.
const WRITE_WORDS: u32 = 524_289;

/// Why a kernel is not opened.
#[derive(Clone, Copy, Debug, PartialEq, Eq)]
pub enum KernelFault {
    /// The pages, those of the stack and all their tables need so many frames, which are more than those
    /// of the machine.
    NoRoom { needed: u64, frames: u32 },
    /// Memory was short.
    Memory,
}

impl From<AllocError> for KernelFault {
    ghost use Rattle.std.specs.Prelude.{◌≡◌};
    ghost use Rattle.osc_kernel.specs.declared.opening.KernelFault.TheVariants.{Memory};

    ghost from_gives = { λ _ fault. fault ≡ Memory };

    fn from(_error: AllocError) -> KernelFault {
        KernelFault::Memory
    }
}

/// The rooms of so many processes.
fn new_rooms(alloc: Global, config: &Config, count: u32) -> Result<Vec<Process>, AllocError>
    requires { first_fault config.now ≡ None }
    ensures { IfOk result (λ rooms. rooms.items
        ≡ replicate count (unused config.now.levels config.now.frames config.now.shadows)) }
{
    let mut rooms = Vec::with_capacity(alloc, count as usize)?;
    for _made in 0..count {
        rooms.push(Process::new(alloc, config)?)?;
    }
    Ok(rooms)
}

/// The first process, in a list with room for so many.
fn first_of(alloc: Global, count: u32, first: Process) -> Result<Vec<Process>, AllocError>
    requires { 0 < count }
    ensures { IfOk result (λ processes. (processes.items ≡ first ∷ []) × (count ≤ vec_capacity processes)) }
{
    let mut processes = Vec::with_capacity(alloc, count as usize)?;
    processes.push(first).unwrap();
    Ok(processes)
}

/// All rooms of a machine whose first process is this one.
fn new_state(
    alloc: Global,
    config: &Config,
    first: Process,
    frames: Frames,
    jobs: Jobs,
) -> Result<State, AllocError>
    requires valid { first_fault config.now ≡ None }
    requires room { jobs.room ≡ 8 * config.now.frames + 64 + 524289 }
    requires sized { IsSized config.now first }
    requires status { first.status ≡ None }
    ensures kernel { IfOk result (λ s. kernel_of s ≡ started config.now first frames jobs.pushed) }
    ensures rooms { IfOk result (λ s. HasRooms 0 s) }
    ensures fresh { IfOk result (λ s. IsFresh jobs s) }
{
    let Config {
        harts,
        processes,
        frames: count,
        journal,
        ..
    } = *config;
    Ok(State {
        config: *config,
        frames,
        processes: first_of(alloc, processes, first)?,
        rooms: new_rooms(alloc, config, processes - 1)?,
        unended: 1,
        regions: Regions::new(alloc, count)?,
        threads: Threads::new(alloc)?,
        records: Records::new(harts),
        journal: Vec::with_capacity(alloc, journal as usize)?,
        output: Vec::with_capacity(alloc, OUTPUT_LIMIT as usize)?,
        reports: Vec::with_capacity(alloc, processes as usize)?,
        jobs,
        done: 0,
        pending: 0,
        names: vec![in alloc; 0; count as usize]?,
        under_way: UnderWay::Quiet,
        closing: Closing::new(alloc)?,
        shown: None,
        freed: Waiting::new(),
        peak: 0,
    })
}

/// The first process, with the pages of its image and its stack.
fn open_first(
    alloc: Global,
    pages: &[(Page, PteBits)],
    config: &Config,
    frames: &mut Frames,
    jobs: &mut Jobs,
) -> Result<Process, KernelFault>
    requires valid { first_fault config.now ≡ None }
    requires pages { AreImagePages 16 (pages_of pages.now) }
    requires free { frames.old ≡ all_free config.now.frames }
    requires jobs { jobs.old.pushed ≡ [] }
    requires room { jobs.old.room ≡ 8 * config.now.frames + 64 + 524289 }
    ensures opened { IfOk result (λ first. Opened (pages_of pages.now) config.now first frames.new jobs.new.pushed) }
    ensures refused { IfErr result (λ fault. Refuses config.now (pages_of pages.now) fault) }
    ensures room { jobs.new.room ≡ jobs.old.room }
{
    let mut first = Process::new(alloc, config)?;
    match first.open(pages, config, frames, jobs) {
        Ok(()) => Ok(first),
        Err(no) => Err(KernelFault::NoRoom {
            needed: no.needed,
            frames: no.frames,
        }),
    }
}

/// The rooms behind one allocation.
fn boxed(alloc: Global, state: State) -> Result<Box<State>, AllocError>
    ensures { IfOk result (λ kept. kept.value ≡ state) }
{
    let kept = Box::new(alloc, state)?;
    Ok(kept)
}

impl Kernel {
    /// The kernel of a machine whose configuration has no fault. The first process has the pages of an
    /// image, by number with R, W and X, and its stack: the pages ascend, and each permits something, and a
    /// read where it permits a write. The first jobs make the words of its page tables. All memory of a run
    /// is taken here. NoRoom comes exactly where the frames are too few, unless memory is short.
    pub fn open(
        alloc: Global,
        pages: &[(Page, PteBits)],
        config: &Config,
    ) -> Result<Kernel, KernelFault>
        requires valid { first_fault config.now ≡ None }
        requires pages { AreImagePages 16 (pages_of pages.now) }
        ensures opened { IfOk result (λ kernel. (frames_for config.now.levels (pages_of pages.now) ≤ config.now.frames)
            × (kernel ≡ record { kernel = opening (pages_of pages.now) config.now; shown = None; freed = [] })) }
        ensures refused { IfErr result (λ fault. Refuses config.now (pages_of pages.now) fault) }
    {
        let mut frames = Frames::new(alloc, config.frames)?;
        let mut jobs = Jobs::new(alloc, 8 * config.frames + 64 + WRITE_WORDS)?;
        let first = open_first(alloc, pages, config, &mut frames, &mut jobs)?;
        let state = new_state(alloc, config, first, frames, jobs)?;
        let state = boxed(alloc, state)?;
        Ok(Kernel { state })
    }
}
