//! One event, up to what it changes.

ghost use Rattle.std.specs.Prelude.{◌≡◌, IfOk, Some};
ghost use Rattle.osc_rv.specs.declared.instr.Instr.TheVariants.{Ecall};
ghost use Rattle.osc_world.specs.Calls as calls;
ghost use Rattle.osc_world.specs.Events as events;
ghost use Rattle.osc_object.specs.Turns.{turn_shown};
ghost use Rattle.osc_object.specs.Decisions.{decided_shown, decided, decided_if};

use crate::calls::{
    A7, done, exit, fork, free, join, malloc, number_in, realloc, share, spawn, wait,
};
use crate::decisions::Decided;
use crate::instructions;
use crate::turn::{Turn, aim, register, value_at};
use crate::writing::write;
use osc_rv::{Instr, decode};
use osc_sv39::Access;
use osc_word::Choice;
use osc_world::{ObjectWhy, Value};
use std::alloc::{AllocError, Global};

/// The instruction at the hart's pc; None where nothing can be fetched there, or it is none.
#[tactic(auto, unfolding(osc_world::specs::Events::instr_at))]
fn instr_at(turn: &Turn) -> Option<Instr>
    ensures { result ≡ events.instr_at (turn_shown turn.now) }
{
    let Ok(at) = aim(turn, Access::Fetch, 4, Value::Num(turn.hart.pc()), true) else {
        return None;
    };
    match value_at(turn, at, 4) {
        Ok(Value::Num(word)) => decode(word as u32),
        _ => None,
    }
}

/// An environment call. An `Err` is want of memory.
#[tactic(auto, unfolding(osc_world::specs::Calls::serves))]
fn call(alloc: Global, turn: &Turn, choice: Choice) -> Result<Decided, AllocError>
    ensures { IfOk result (λ made. decided_shown (turn_shown turn.now) made ≡ decided (turn_shown turn.now) choice (calls.calls (turn_shown turn.now))) }
{
    let number = match number_in(register(turn, A7)) {
        Ok(number) => number,
        Err(why) => return Ok(Decided::Errs(why)),
    };
    match number {
        1 => Ok(exit(turn, choice)),
        2 => write(alloc, turn, choice),
        3 => Ok(malloc(turn, choice)),
        4 => Ok(free(turn, choice)),
        5 => Ok(realloc(turn, choice)),
        6 => Ok(fork(turn, choice)),
        7 => Ok(spawn(turn, choice)),
        8 => Ok(join(turn, choice)),
        9 => Ok(done(turn, choice)),
        10 => Ok(share(turn, choice)),
        11 => Ok(wait(turn, choice)),
        _ => Ok(Decided::Errs(ObjectWhy::BadCall)),
    }
}

/// An instruction, by its choice. An `Err` is want of memory.
#[tactic(auto, unfolding(osc_world::specs::Events::offered))]
fn decide(alloc: Global, turn: &Turn, choice: Choice, instr: &Instr) -> Result<Decided, AllocError>
    ensures { IfOk result (λ made. decided_shown (turn_shown turn.now) made ≡ decided (turn_shown turn.now) choice (events.offered (turn_shown turn.now) instr.now)) }
{
    match *instr {
        Instr::Ecall => call(alloc, turn, choice),
        _ => Ok(instructions::decide(turn, choice, instr)),
    }
}

/// What an event comes to. An `Err` is want of memory.
pub fn decide_event(alloc: Global, turn: &Turn, choice: Choice) -> Result<Decided, AllocError>
    ensures { IfOk result (λ made. decided_shown (turn_shown turn.now) made ≡ decided_if (turn_shown turn.now) choice (events.instr_at (turn_shown turn.now))) }
{
    match instr_at(turn) {
        Some(instr) => decide(alloc, turn, choice, &instr),
        None => Ok(Decided::Errs(ObjectWhy::Trap)),
    }
}
