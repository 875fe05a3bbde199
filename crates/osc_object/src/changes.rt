//! What a deed changes in each part of the state.

ghost use Rattle.std.specs.Prelude.{◌≡◌, ◌≤◌, ◌+◌, ◌^◌, OnOk, map, slice_get, slice_set};
ghost use Rattle.std.specs.Option.{option_and_then};
ghost use Rattle.std.specs.List.{list_any};
ghost use Rattle.osc_world.specs.States as states;
ghost use Rattle.osc_world.specs.States.{changed_at};
ghost use Rattle.osc_world.specs.Values as values;
ghost use Rattle.osc_world.specs.World as world;
ghost use Rattle.osc_world.specs.declared.Value as held;
ghost use Rattle.osc_world.specs.Accesses as accesses;
ghost use Rattle.osc_world.specs.Deeds as deeds;
ghost use Rattle.osc_memory.specs.Places.{heap_shown, with_heap, with_status, holding};
ghost use Rattle.osc_object.specs.Changes as changes;

use crate::hart::Hart;
use crate::state::Thread;
use osc_memory::{HeapDeed, Process};
use osc_values::Row;
use osc_word::{Pid, ThreadNo};
use osc_world::{Area, Place, Reservation, Value};
use std::alloc::{AllocError, Global};

/// A hart goes on, as `Hart::go_on`.
pub fn go_on(
    harts: &mut [Hart],
    number: u32,
    rd: u8,
    value: Value,
    pc: u64,
    reservation: Option<Reservation>,
)
    ensures { harts.new ≡ changed_at (changes.on rd value pc reservation) harts.old number }
{
    let at = number as usize;
    if at < harts.len() {
        harts[at].go_on(rd, value, pc, reservation);
    }
}

/// A hart's call is answered, as `Hart::answer`.
pub fn answer(harts: &mut [Hart], number: u32, value: Value)
    ensures { harts.new ≡ changed_at (changes.answered value) harts.old number }
{
    let at = number as usize;
    if at < harts.len() {
        harts[at].answer(value);
    }
}

/// Each hart after a store of a hart at a place of process `pid`.
pub fn disturb(harts: &mut [Hart], pid: Pid, at: Place)
    ensures { harts.new ≡ map (accesses.disturbed pid at) harts.old }
{
    for hart in harts.iter_mut() {
        hart.disturb(pid, at);
    }
}

/// A store in a process's own memory.
pub fn put_own(processes: &mut [Process], pid: Pid, at: Place, width: u8, value: Value)
    ensures { processes.new ≡ changed_at (changes.with_put at (values.spread width value)) processes.old pid }
{
    let place = pid as usize;
    if place < processes.len() {
        processes[place].put(at, width, value);
    }
}

/// A store in a shared page.
fn put_in_page(shared: &mut [Row], page: u32, offset: u64, width: u8, value: Value)
    ensures { shared.new ≡ changed_at (changes.with_overlaid offset (values.spread width value)) shared.old page }
{
    let at = page as usize;
    if at < shared.len() {
        shared[at].put(offset, width, value);
    }
}

/// A store in the world's shared pages, where the place is of them.
pub fn put_shared(shared: &mut [Row], at: Place, width: u8, value: Value)
    ensures { shared.new ≡ accesses.shared_overlaid shared.old at.area at.offset (values.spread width value) }
{
    match at.area {
        Area::Shared(page) => put_in_page(shared, page, at.offset, width, value),
        Area::Object(_) | Area::Page(_) => {}
    }
}

/// A call of the heap in a process. An `Err` is want of memory.
pub fn serve(
    alloc: Global,
    processes: &mut [Process],
    pid: Pid,
    deed: HeapDeed,
) -> Result<(), AllocError>
    ensures { OnOk result (processes.new ≡ changed_at (with_heap (heap_shown deed)) processes.old pid) }
{
    let place = pid as usize;
    if place < processes.len() {
        processes[place].serve(alloc, deed)?;
    }
    Ok(())
}

/// How a process ended is kept.
pub fn set_status(processes: &mut [Process], pid: Pid, status: Option<u8>)
    ensures { processes.new ≡ changed_at (with_status status) processes.old pid }
{
    let place = pid as usize;
    if place < processes.len() {
        processes[place].set_status(status);
    }
}

/// Each hart that ran process `pid` is idle.
pub fn stop(harts: &mut [Hart], pid: Pid)
    ensures { harts.new ≡ map (deeds.stopped pid) harts.old }
{
    for hart in harts.iter_mut() {
        hart.stop(pid);
    }
}

/// A process holds so many shared pages more, as `Process::hold`. An `Err` is want of memory.
pub fn hold(processes: &mut [Process], pid: Pid, first: u32, count: u32) -> Result<(), AllocError>
    requires { first + count ≤ 2 ^ 32 }
    ensures { OnOk result (processes.new ≡ changed_at (holding first count) processes.old pid) }
{
    let place = pid as usize;
    if place < processes.len() {
        processes[place].hold(first, count)?;
    }
    Ok(())
}

/// The address of the next shared page of a process, if there is one; else 0.
pub fn next_address(processes: &[Process], pid: Pid) -> u64
    ensures { result ≡ changes.next_address (slice_get processes.now pid) }
{
    let place = pid as usize;
    if place < processes.len() {
        processes[place].shared_next()
    } else {
        0
    }
}

/// How a process ended, if there is one and it has.
pub fn status_in(processes: &[Process], pid: Pid) -> Option<u8>
    ensures { result ≡ option_and_then (λ (process : states.Process world.Memory). process.status) (slice_get processes.now pid) }
{
    let place = pid as usize;
    if place < processes.len() {
        processes[place].status()
    } else {
        None
    }
}

/// The number of a hart's thread, if it has one.
pub fn thread_of(harts: &[Hart], number: u32) -> Option<ThreadNo>
    ensures { result ≡ option_and_then (λ (hart : states.Hart held.Value). hart.thread) (slice_get harts.now number) }
{
    let at = number as usize;
    if at < harts.len() {
        harts[at].thread()
    } else {
        None
    }
}

/// A hart runs on as this one.
#[tactic(auto, using(std::proofs::lemmas::List::set_past))]
pub fn begin(harts: &mut [Hart], number: u32, hart: Hart)
    ensures { harts.new ≡ slice_set harts.old number hart }
{
    let at = number as usize;
    if at < harts.len() {
        harts[at] = hart;
    }
}

/// A hart is idle from now on.
#[tactic(auto, using(std::proofs::lemmas::List::set_past))]
pub fn rest(harts: &mut [Hart], number: u32)
    ensures { harts.new ≡ slice_set harts.old number states.idle }
{
    let at = number as usize;
    if at < harts.len() {
        harts[at].rest();
    }
}

/// Whether a hart runs a thread of process `pid`.
fn is_running(harts: &[Hart], pid: Pid) -> bool
    ensures { result ≡ list_any (deeds.runs pid) harts.now }
{
    harts.iter().any(|hart| hart.runs(pid))
}

/// The status of a process, one thread of which is done: 0 where no other one is left.
pub fn status_after(harts: &[Hart], pid: Pid, status: Option<u8>) -> Option<u8>
    ensures { result ≡ deeds.status_after pid status harts.now }
{
    if is_running(harts, pid) {
        status
    } else {
        Some(0)
    }
}

/// The value that a thread leaves is kept; the first thread of a process has no number, and leaves none.
pub fn leave(threads: &mut [Thread], thread: Option<ThreadNo>, value: Value)
    ensures { threads.new ≡ deeds.left_by threads.old thread value }
{
    if let Some(thread) = thread {
        leave_at(threads, thread.saturating_sub(1), value);
    }
}

fn leave_at(threads: &mut [Thread], at: u32, value: Value)
    ensures { threads.new ≡ changed_at (changes.leaving value) threads.old at }
{
    let at = at as usize;
    if at < threads.len() {
        threads[at].leave(value);
    }
}
