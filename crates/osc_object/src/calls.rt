//! Environment calls. The number of a call stands in a7, its arguments in a0, a1 and a2.

ghost use Rattle.std.specs.Prelude.{◌≡◌, Ok, slice_get};
ghost use Rattle.osc_world.specs.declared.Value.TheVariants.{Num};
ghost use Rattle.osc_word.specs.declared.calls.Call.TheVariants as call;
ghost use Rattle.osc_world.specs.States as states;
ghost use Rattle.osc_world.specs.Offers as offers;
ghost use Rattle.osc_world.specs.Calls as calls;
ghost use Rattle.osc_world.specs.World as world;
ghost use Rattle.osc_world.specs.Deeds as deeds;
ghost use Rattle.osc_world.specs.Instructions as instructions;
ghost use Rattle.osc_object.specs.Turns.{turn_shown};
ghost use Rattle.osc_object.specs.Decisions.{decided_shown, decided};

use crate::decisions::{Decided, Deed, answers, answers_if, grants, is_idle, only, refuses};
use crate::state::Thread;
use crate::turn::{Turn, register};
use osc_memory::{HeapDeed, Process};
use osc_values::Object;
use osc_word::{Choice, MINUS_ONE, Pid};
use osc_world::{ObjectWhy, Value};

/// The registers of a call's arguments.
pub const A0: u8 = 10;

pub const A1: u8 = 11;

const A2: u8 = 12;

/// The register of a call's number.
pub const A7: u8 = 17;

/// The number of an argument, which has to be one.
pub fn number_in(value: Value) -> Result<u64, ObjectWhy>
    ensures { result ≡ calls.with_number value (λ n. n) }
{
    match value {
        Value::Num(number) => Ok(number),
        Value::Ptr { .. } => Err(ObjectWhy::BadCall),
    }
}

/// Exit.
#[tactic(auto, unfolding(osc_world::specs::Calls::serves))]
pub fn exit(turn: &Turn, choice: Choice) -> Decided
    ensures { decided_shown (turn_shown turn.now) result ≡ decided (turn_shown turn.now) choice (calls.serves (turn_shown turn.now) (call.Exit 10)) }
{
    match number_in(register(turn, A0)) {
        Ok(status) => only(turn, choice, Deed::Exits(status)),
        Err(why) => Decided::Errs(why),
    }
}

/// A malloc of a size that stands in a register.
fn make(turn: &Turn, choice: Choice, size: Value) -> Decided
    ensures { decided_shown (turn_shown turn.now) result ≡ decided (turn_shown turn.now) choice (calls.malloc_offer (turn_shown turn.now) size) }
{
    match number_in(size) {
        Ok(size) => grants(turn, choice, Deed::Heaps(HeapDeed::Makes(size))),
        Err(why) => Decided::Errs(why),
    }
}

/// Malloc.
#[tactic(auto, unfolding(osc_world::specs::Calls::serves))]
pub fn malloc(turn: &Turn, choice: Choice) -> Decided
    ensures { decided_shown (turn_shown turn.now) result ≡ decided (turn_shown turn.now) choice (calls.serves (turn_shown turn.now) (call.Malloc 10)) }
{
    make(turn, choice, register(turn, A0))
}

/// Whether there is a live object of this number, and this offset is its start.
fn is_live_start(objects: &[Object], object: u32, offset: u64) -> bool
    ensures { result ≡ calls.is_live_start offset (slice_get objects.now object) }
{
    let at = object as usize;
    at < objects.len() && objects[at].is_live_start(offset)
}

/// Free: of 0 it does nothing.
#[tactic(auto, unfolding(osc_world::specs::Calls::serves))]
pub fn free(turn: &Turn, choice: Choice) -> Decided
    ensures { decided_shown (turn_shown turn.now) result ≡ decided (turn_shown turn.now) choice (calls.serves (turn_shown turn.now) (call.Free 10)) }
{
    match register(turn, A0) {
        Value::Num(0) => only(turn, choice, Deed::Steps(answers(turn, Value::Num(0)))),
        Value::Ptr { object, offset } if is_live_start(turn.process.objects(), object, offset) => {
            only(turn, choice, Deed::Heaps(HeapDeed::Kills(object)))
        }
        _ => Decided::Errs(ObjectWhy::BadFree),
    }
}

/// A realloc of a live object to a size that stands in a register.
fn replace(turn: &Turn, choice: Choice, object: u32, size: Value) -> Decided
    ensures { decided_shown (turn_shown turn.now) result ≡ decided (turn_shown turn.now) choice
        (calls.with_number size (λ n. calls.grants_object (turn_shown turn.now) (world.Replaces object n))) }
{
    match number_in(size) {
        Ok(size) => grants(
            turn,
            choice,
            Deed::Heaps(HeapDeed::Replaces { object, size }),
        ),
        Err(why) => Decided::Errs(why),
    }
}

/// Realloc: of 0 it is malloc.
#[tactic(auto, unfolding(osc_world::specs::Calls::serves))]
pub fn realloc(turn: &Turn, choice: Choice) -> Decided
    ensures { decided_shown (turn_shown turn.now) result ≡ decided (turn_shown turn.now) choice (calls.serves (turn_shown turn.now) (call.Realloc 10 11)) }
{
    let size = register(turn, A1);
    match register(turn, A0) {
        Value::Num(0) => make(turn, choice, size),
        Value::Ptr { object, offset } if is_live_start(turn.process.objects(), object, offset) => {
            replace(turn, choice, object, size)
        }
        _ => Decided::Errs(ObjectWhy::BadFree),
    }
}

/// Fork, on an idle hart.
#[tactic(auto, unfolding(osc_world::specs::Calls::serves, osc_world::specs::Offers::chosen))]
pub fn fork(turn: &Turn, choice: Choice) -> Decided
    ensures { decided_shown (turn_shown turn.now) result ≡ decided (turn_shown turn.now) choice (calls.serves (turn_shown turn.now) call.Fork) }
{
    let state = turn.state;
    match choice {
        Choice::Started(hart) if is_idle(&state.harts, hart) => Decided::Goes(Deed::Forks(hart)),
        Choice::Refused => refuses(turn),
        _ => Decided::Unfit,
    }
}

/// A spawn at a pc, on an idle hart.
#[tactic(auto, unfolding(osc_world::specs::Offers::chosen))]
fn start(turn: &Turn, choice: Choice, pc: u64, sp: Value, arg: Value) -> Decided
    ensures { decided_shown (turn_shown turn.now) result ≡ decided (turn_shown turn.now) choice (Ok (offers.spawns Num (turn_shown turn.now) pc sp arg)) }
{
    let state = turn.state;
    match choice {
        Choice::Started(hart) if is_idle(&state.harts, hart) => {
            Decided::Goes(Deed::Spawns { hart, pc, sp, arg })
        }
        Choice::Refused => refuses(turn),
        _ => Decided::Unfit,
    }
}

/// Spawn.
#[tactic(auto, unfolding(osc_world::specs::Calls::serves))]
pub fn spawn(turn: &Turn, choice: Choice) -> Decided
    ensures { decided_shown (turn_shown turn.now) result ≡ decided (turn_shown turn.now) choice (calls.serves (turn_shown turn.now) (call.Spawn 10 11 12)) }
{
    match number_in(register(turn, A0)) {
        Ok(pc) => start(turn, choice, pc, register(turn, A1), register(turn, A2)),
        Err(why) => Decided::Errs(why),
    }
}

/// What a join of a thread answers; None as long as it is not done.
fn thread_value(threads: &[Thread], pid: Pid, thread: u64) -> Option<Value>
    ensures { result ≡ offers.thread_value Num pid (offers.thread_at threads.now thread) }
{
    if thread == 0 || thread > threads.len() as u64 {
        return Some(Value::Num(MINUS_ONE));
    }
    let spawned = &threads[(thread - 1) as usize];
    if spawned.spawner == pid {
        spawned.value
    } else {
        Some(Value::Num(MINUS_ONE))
    }
}

/// Join.
#[tactic(auto, unfolding(osc_world::specs::Calls::serves))]
pub fn join(turn: &Turn, choice: Choice) -> Decided
    ensures { decided_shown (turn_shown turn.now) result ≡ decided (turn_shown turn.now) choice (calls.serves (turn_shown turn.now) (call.Join 10)) }
{
    let state = turn.state;
    match number_in(register(turn, A0)) {
        Ok(thread) => answers_if(turn, choice, thread_value(&state.threads, turn.pid, thread)),
        Err(why) => Decided::Errs(why),
    }
}

/// Done, of a thread.
#[tactic(auto, unfolding(osc_world::specs::Calls::serves))]
pub fn done(turn: &Turn, choice: Choice) -> Decided
    ensures { decided_shown (turn_shown turn.now) result ≡ decided (turn_shown turn.now) choice (calls.serves (turn_shown turn.now) (call.Done 10)) }
{
    only(turn, choice, Deed::Leaves(register(turn, A0)))
}

/// A share of so many pages; none are never given.
#[tactic(auto, unfolding(osc_world::specs::Offers::chosen))]
fn share_of(turn: &Turn, choice: Choice, count: u64) -> Decided
    ensures { decided_shown (turn_shown turn.now) result ≡ decided (turn_shown turn.now) choice (Ok (offers.Grants (offers.shares count) (deeds.answers (turn_shown turn.now) (Num 0)))) }
{
    match choice {
        Choice::Given if count == 0 => Decided::Unfit,
        _ => grants(turn, choice, Deed::Shares(count)),
    }
}

/// Share.
#[tactic(auto, unfolding(osc_world::specs::Calls::serves))]
pub fn share(turn: &Turn, choice: Choice) -> Decided
    ensures { decided_shown (turn_shown turn.now) result ≡ decided (turn_shown turn.now) choice (calls.serves (turn_shown turn.now) (call.Share 10)) }
{
    match number_in(register(turn, A0)) {
        Ok(count) => share_of(turn, choice, count),
        Err(why) => Decided::Errs(why),
    }
}

/// What a wait for a process answers; None as long as it has not ended.
fn child_value(processes: &[Process], pid: Pid, child: u64) -> Option<Value>
    ensures { result ≡ offers.child_value Num pid (slice_get processes.now child) }
{
    if child >= processes.len() as u64 {
        return Some(Value::Num(MINUS_ONE));
    }
    let process = &processes[child as usize];
    if process.parent() == Some(pid) {
        let status = process.status()?;
        Some(Value::Num(u64::from(status)))
    } else {
        Some(Value::Num(MINUS_ONE))
    }
}

/// Wait.
#[tactic(auto, unfolding(osc_world::specs::Calls::serves))]
pub fn wait(turn: &Turn, choice: Choice) -> Decided
    ensures { decided_shown (turn_shown turn.now) result ≡ decided (turn_shown turn.now) choice (calls.serves (turn_shown turn.now) (call.Wait 10)) }
{
    let state = turn.state;
    match number_in(register(turn, A0)) {
        Ok(child) => answers_if(turn, choice, child_value(&state.processes, turn.pid, child)),
        Err(why) => Decided::Errs(why),
    }
}
