//! A kernel with the words of its memory in a vector, frame after frame. Tests make calls on it one after
//! another, each with all its jobs done.

use crate::Kernel;
use crate::state::UnderWay;
use osc_calls::{Begun, BoxChange};
use osc_sv39::{Access, PteBits, PteEntry, allows, read_pte, split};
use osc_word::{
    Answer, Call, Config, Fault, Frame, HeapKind, Job, Pid, Regs, Request, Resume, WordAt,
};
use std::alloc::Global;
use std::process::Abort;
use std::test::Fail;

/// The pc of each hart that asks.
pub const PC: u64 = 0x10008;

/// The addresses of the first two objects of 24 bytes.
pub const FIRST: u64 = 0x10_0000_0010;

pub const SECOND: u64 = 0x10_0000_1040;

/// The address of the first shared region.
pub const SHARED: u64 = 0x2_0000_0000;

/// A hart's call, and how the hart goes on.
pub type Step = (u32, Call, Resume);

/// A kernel and the words of its memory.
#[derive(Drop)]
pub struct World {
    pub kernel: Kernel,
    pub words: Vec<u64>,
    /// How many jobs of the last call were done, and in how many steps.
    pub jobs: u32,
    pub steps: u32,
    /// How many boxes were cleared since the machine was opened.
    pub clears: u32,
    /// Whether the call under way holds all boxes.
    pub boxes: bool,
}

/// The registers of each hart that asks.
pub fn registers() -> Regs {
    let mut regs = Regs::new();
    regs.set(8, 5);
    regs.set(10, 77);
    regs
}

/// The place in the words of one that stands so many words past another.
fn place(rt: &impl Abort, words: &[u64], at: WordAt, past: u16) -> usize {
    let index = at.index as usize + past as usize;
    assert!(rt; index < 512);
    let place = at.frame as usize * 512 + index;
    assert!(rt; place < words.len());
    place
}

/// The word that stands so many words past a place.
fn get(rt: &impl Abort, words: &[u64], at: WordAt, past: u16) -> u64 {
    match words.get(place(rt, words, at, past)) {
        Some(word) => *word,
        None => panic!(rt; "no such word"),
    }
}

/// Stores the word that stands so many words past a place.
fn put(rt: &impl Abort, words: &mut [u64], at: WordAt, past: u16, value: u64) {
    let place = place(rt, words, at, past);
    assert!(rt; place < words.len());
    words[place] = value;
}

fn zero(rt: &impl Abort, words: &mut [u64], at: WordAt, count: u16) {
    for k in 0..count {
        put(rt, words, at, k, 0);
    }
}

fn copy(rt: &impl Abort, words: &mut [u64], from: WordAt, to: WordAt, count: u16) {
    for k in 0..count {
        let word = get(rt, words, from, k);
        put(rt, words, to, k, word);
    }
}

/// Copies a word, of which the bytes from one on become 0.
fn copy_part(rt: &impl Abort, words: &mut [u64], from: WordAt, to: WordAt, bytes: u8) {
    let mut kept = get(rt, words, from, 0).to_le_bytes();
    for k in 0..8_u8 {
        if k >= bytes {
            kept[k as usize] = 0;
        }
    }
    put(rt, words, to, 0, u64::from_le_bytes(kept));
}

/// Fills a child's table.
fn copy_table(rt: &impl Abort, kernel: &Kernel, words: &mut [u64], to: Frame) {
    for index in 0..512_u16 {
        let word = kernel.entry(index);
        put(rt, words, WordAt { frame: to, index }, 0, word);
    }
}

/// Does the next job on memory. Gives the word that it read last.
fn act(rt: &impl Abort, kernel: &Kernel, words: &mut [u64], job: Job) -> u64 {
    match job {
        Job::PutWord { at, value } => put(rt, words, at, 0, value),
        Job::ZeroWords { at, count } => zero(rt, words, at, count),
        Job::CopyWords { from, to, count } => copy(rt, words, from, to, count),
        Job::CopyPart { from, to, bytes } => copy_part(rt, words, from, to, bytes),
        Job::CopyTable { from: _, to } => copy_table(rt, kernel, words, to),
        Job::ClearBox { .. } | Job::Tell { .. } => {}
        Job::ToOut { at, .. } => return get(rt, words, at, 0),
    }
    0
}

/// In how many steps a job is done: one for each word that it loads or stores, and for a box.
fn steps_of(job: Job) -> u32 {
    match job {
        Job::PutWord { .. } | Job::ClearBox { .. } | Job::Tell { .. } | Job::ToOut { .. } => 1,
        Job::ZeroWords { count, .. } => u32::from(count),
        Job::CopyWords { count, .. } => u32::from(count) * 2,
        Job::CopyPart { .. } => 2,
        Job::CopyTable { .. } => 512,
    }
}

/// Does the next job; false where none is left.
pub fn do_job(rt: &impl Abort, w: &mut World) -> bool {
    match w.kernel.next_job() {
        None => false,
        Some(job) => {
            let word = act(rt, &w.kernel, &mut w.words, job);
            w.kernel.job_done(word);
            w.jobs = w.jobs.wrapping_add(1);
            w.steps = w.steps.wrapping_add(steps_of(job));
            if let Job::ClearBox { .. } | Job::Tell { .. } = job {
                w.clears = w.clears.wrapping_add(1);
            }
            true
        }
    }
}

/// Does all jobs that are left.
fn do_jobs(rt: &impl Abort, w: &mut World) {
    for _done in 0..600_000_u32 {
        if !do_job(rt, w) {
            return;
        }
    }
    panic!(rt; "too many jobs");
}

/// A machine of this configuration over one page of code.
pub fn open(rt: &impl Abort, alloc: Global, config: Config) -> Result<World, Fail> {
    if config.check().is_err() {
        panic!(rt; "no machine");
    }
    let kernel = match Kernel::open(alloc, &[(16, PteBits(10))], &config) {
        Ok(kernel) => kernel,
        Err(fault) => panic!(rt; "{fault:?}"),
    };
    let words = vec![in alloc; 0; config.frames as usize * 512]?;
    let mut w = World {
        kernel,
        words,
        jobs: 0,
        steps: 0,
        clears: 0,
        boxes: false,
    };
    do_jobs(rt, &mut w);
    Ok(w)
}

/// A hart takes the kernel.
pub fn begin(rt: &impl Abort, w: &mut World, hart: u32, request: Request) -> Begun {
    let quiet = matches!(w.kernel.state.under_way, UnderWay::Quiet);
    assert!(rt; quiet);
    w.jobs = 0;
    w.steps = 0;
    w.boxes = false;
    match w.kernel.next_job() {
        None => w.kernel.begin(hart, &registers(), PC, request),
        Some(_) => panic!(rt; "a job is left"),
    }
}

/// A hart takes the kernel for a call, which commits where it may.
pub fn commit(rt: &impl Abort, w: &mut World, hart: u32, call: Call) -> Begun {
    let begun = begin(rt, w, hart, Request::Call(call));
    match begun {
        Begun::Boxes => {
            w.boxes = true;
            w.kernel.plan([0, 0]);
        }
        Begun::Header(first, second) => {
            let found = [get(rt, &w.words, first, 0), get(rt, &w.words, second, 0)];
            w.kernel.plan(found);
        }
        Begun::Again | Begun::JournalFull | Begun::Gone | Begun::Planned => {}
    }
    begun
}

/// Counts the boxes that are cleared when they are given back.
fn give_boxes(w: &mut World) {
    for hart in 0..w.kernel.state.config.harts {
        let is_kept = matches!(w.kernel.box_change(hart), BoxChange::Keep);
        if w.boxes && !is_kept {
            w.clears = w.clears.wrapping_add(1);
        }
    }
}

/// The jobs that are left are done, and the kernel is given back.
pub fn finish(rt: &impl Abort, w: &mut World) -> Resume {
    do_jobs(rt, w);
    give_boxes(w);
    match w.kernel.next_job() {
        None => w.kernel.finish(),
        Some(_) => panic!(rt; "a job is left"),
    }
}

/// A whole call of a hart.
pub fn call(rt: &impl Abort, w: &mut World, hart: u32, call: Call) -> Resume {
    commit(rt, w, hart, call);
    finish(rt, w)
}

/// The table that an entry links.
fn next_table(words: &[u64], table: Frame, index: u16) -> Option<Frame> {
    let word = words.get(table as usize * 512 + index as usize)?;
    match read_pte(*word) {
        PteEntry::Table(frame) => Some(frame),
        _ => None,
    }
}

/// The frame in which a process may make such an access to an address, by the tables in memory.
fn frame_of(rt: &impl Abort, w: &World, pid: Pid, address: u64, access: Access) -> Option<Frame> {
    let levels = w.kernel.state.config.levels;
    assert!(rt; levels == 3 || levels == 4);
    let [first, second, third, fourth] = split(address, levels)?;
    let mut table = w.kernel.root(pid)?;
    if levels == 4 {
        table = next_table(&w.words, table, first)?;
    }
    table = next_table(&w.words, table, second)?;
    table = next_table(&w.words, table, third)?;
    let word = w.words.get(table as usize * 512 + fourth as usize)?;
    match read_pte(*word) {
        PteEntry::Leaf(frame, bits) if allows(bits, access) => Some(frame),
        _ => None,
    }
}

/// The word that a process reads at an address that is a multiple of 8; None where it faults.
pub fn load(rt: &impl Abort, w: &World, pid: Pid, address: u64) -> Option<u64> {
    let frame = frame_of(rt, w, pid, address, Access::Load)?;
    let index = (address % 4096 / 8) as u16;
    Some(get(rt, &w.words, WordAt { frame, index }, 0))
}

/// A process stores a word at an address that is a multiple of 8.
pub fn store(rt: &impl Abort, w: &mut World, pid: Pid, address: u64, value: u64) {
    match frame_of(rt, w, pid, address, Access::Store) {
        Some(frame) => {
            let index = (address % 4096 / 8) as u16;
            put(rt, &mut w.words, WordAt { frame, index }, 0, value);
        }
        None => panic!(rt; "a store to {address:x} faults"),
    }
}

/// A machine of so many harts.
pub fn config(harts: u32) -> Config {
    Config {
        heap: HeapKind::Oscar,
        harts,
        processes: 16,
        frames: 1024,
        shadows: 4096,
        journal: 16384,
        levels: 3,
        batch: 1,
    }
}

/// A malloc of 24 bytes, the first of its process.
pub fn gives() -> Step {
    (0, Call::Malloc(24), Resume::Return(FIRST))
}

/// Its free.
pub fn frees() -> Step {
    (0, Call::Free(FIRST), Resume::Return(0))
}

/// The first spawn.
pub fn spawns(pc: u64) -> Step {
    let spawn = Call::Spawn { pc, sp: 0, arg: 0 };
    (0, spawn, Resume::Return(1))
}

/// An exception at an address.
pub fn access(cause: u8, address: u64) -> Fault {
    Fault::Access { cause, address }
}

/// The frames in use.
pub fn in_use(w: &World) -> u32 {
    let frames = &w.kernel.state.frames;
    w.kernel
        .state
        .config
        .frames
        .wrapping_sub(frames.free_count())
}

/// Makes the calls, one after another.
pub fn run(rt: &impl Abort, w: &mut World, steps: &[Step]) {
    for (i, (hart, asked, wanted)) in steps.iter().enumerate() {
        let resume = call(rt, w, *hart, *asked);
        assert_eq!(rt; resume, *wanted, "step {i}");
    }
}

/// The committed calls were answered so.
pub fn check_answers(rt: &impl Abort, w: &World, answers: &[Answer]) {
    let journal = w.kernel.journal();
    assert_eq!(rt; journal.len(), answers.len());
    for (i, (entry, answer)) in journal.iter().zip(answers.iter()).enumerate() {
        assert_eq!(rt; entry.answer, *answer, "call {i}");
    }
}
