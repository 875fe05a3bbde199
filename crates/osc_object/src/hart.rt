//! A hart: the thread that it runs, with its registers.

ghost use Rattle.std.specs.Prelude.{◌≡◌, IfOk, replicate};
ghost use Rattle.osc_world.specs.declared.Value.TheVariants.{Num};
ghost use Rattle.osc_world.specs.States as states;
ghost use Rattle.osc_world.specs.Accesses as accesses;

use crate::conditional::is_same_area;
use crate::steps::next;
use osc_word::address_map::STACK_END;
use osc_word::{ANSWER_REGISTER, Pid, ThreadNo};
use osc_world::{Place, Reservation, Value};
use std::alloc::{AllocError, Global};
use std::marker::Model;

/// The register of the stack's end.
const STACK_REGISTER: u8 = 2;

/// A hart. An idle one has no process and no registers.
#[derive(Drop)]
pub struct Hart {
    process: Option<Pid>,
    thread: Option<ThreadNo>,
    regs: Vec<Value>,
    pc: u64,
    reservation: Option<Reservation>,
}

impl Model for Hart {
    ghost use Rattle.osc_world.specs.States.{Hart};
    ghost use Rattle.osc_world.specs.declared.Value as value;

    ghost Value = { Hart value.Value };

    ghost view = { λ h. record { process = h.process; thread = h.thread; regs = h.regs.items; pc = h.pc; reservation = h.reservation } };
}

/// The register of this number gets a value; x0 stays.
fn set(regs: &mut [Value], number: u8, value: Value)
    ensures { regs.new ≡ states.with_value regs.old number value }
{
    let at = usize::from(number);
    if number != 0 && at < regs.len() {
        regs[at] = value;
    }
}

/// All registers, which hold 0. An `Err` is want of memory.
fn zeros(alloc: Global) -> Result<Vec<Value>, AllocError>
    ensures { IfOk result (λ regs. regs.items ≡ replicate 32 (Num 0)) }
{
    vec![in alloc; Value::Num(0); 32]
}

impl Hart {
    ghost use Rattle.std.specs.Prelude.{◌≡◌, [], None, Some, IfOk, replicate, slice_set};
    ghost use Rattle.osc_word.specs.Environment.{answer_register};
    ghost use Rattle.osc_world.specs.States as states;
    ghost use Rattle.osc_world.specs.Accesses as accesses;
    ghost use Rattle.osc_world.specs.Deeds as deeds;
    ghost use Rattle.osc_world.specs.declared.Value.TheVariants.{Num};
    ghost use Rattle.osc_object.specs.Changes as changes;

    /// A hart that runs no thread.
    pub fn idle(alloc: Global) -> Hart
        ensures { result ≡ states.idle }
    {
        Hart {
            process: None,
            thread: None,
            regs: Vec::new(alloc),
            pc: 0,
            reservation: None,
        }
    }

    /// The first thread of process 0: x2 is the end of the stack, and every other register is 0. An `Err` is want
    /// of memory.
    pub fn first(alloc: Global, entry: u64) -> Result<Hart, AllocError>
        ensures { IfOk result (λ hart. hart ≡ states.boot_hart Num entry) }
    {
        let mut regs = zeros(alloc)?;
        set(&mut regs, STACK_REGISTER, Value::Num(STACK_END));
        Ok(Hart {
            process: Some(0),
            thread: None,
            regs,
            pc: entry,
            reservation: None,
        })
    }

    /// A spawned thread: x2 is `sp`, a0 is the argument, and every other register is 0. An `Err` is want of
    /// memory.
    pub fn begun(
        alloc: Global,
        pid: Pid,
        thread: ThreadNo,
        pc: u64,
        sp: Value,
        arg: Value,
    ) -> Result<Hart, AllocError>
        ensures { IfOk result (λ hart. hart ≡ record {
          process = Some pid;
          thread = Some thread;
          regs = slice_set (slice_set (replicate 32 (Num 0)) 2 sp) answer_register arg;
          pc = pc;
          reservation = None;
        }) }
    {
        let mut regs = zeros(alloc)?;
        set(&mut regs, STACK_REGISTER, sp);
        set(&mut regs, ANSWER_REGISTER, arg);
        Ok(Hart {
            process: Some(pid),
            thread: Some(thread),
            regs,
            pc,
            reservation: None,
        })
    }

    /// The first thread of a child: this hart in process `pid`, with answer 0. An `Err` is want of memory.
    pub fn child(&self, alloc: Global, pid: Pid) -> Result<Hart, AllocError>
        ensures { IfOk result (λ child. child ≡ changes.child_on pid self.now) }
    {
        let mut child = Hart {
            process: Some(pid),
            thread: None,
            regs: Vec::from_slice(alloc, &self.regs)?,
            pc: self.pc,
            reservation: None,
        };
        child.answer(Value::Num(0));
        Ok(child)
    }

    /// The process of its thread; None exactly where it is idle.
    pub fn process(&self) -> Option<Pid>
        ensures { result ≡ self.now.process }
    {
        self.process
    }

    /// The number of its thread; None for the first thread of a process.
    pub fn thread(&self) -> Option<ThreadNo>
        ensures { result ≡ self.now.thread }
    {
        self.thread
    }

    /// The address of the next instruction.
    pub fn pc(&self) -> u64
        ensures { result ≡ self.now.pc }
    {
        self.pc
    }

    /// What its last load-reserved left.
    pub fn reservation(&self) -> Option<Reservation>
        ensures { result ≡ self.now.reservation }
    {
        self.reservation
    }

    /// What a register holds; x0 holds 0.
    pub fn register(&self, number: u8) -> Value
        ensures { result ≡ states.value_in (Num 0) self.now.regs number }
    {
        let at = usize::from(number);
        if number != 0 && at < self.regs.len() {
            self.regs[at]
        } else {
            Value::Num(0)
        }
    }

    /// A register gets a value, where x0 stays, and the hart goes on at `pc` with this reservation.
    pub fn go_on(&mut self, rd: u8, value: Value, pc: u64, reservation: Option<Reservation>)
        ensures { self.new ≡ record (self.old) { regs = states.with_value self.old.regs rd value; pc = pc; reservation = reservation } }
    {
        set(&mut self.regs, rd, value);
        self.pc = pc;
        self.reservation = reservation;
    }

    /// A call is answered: a0 gets the value, and the hart goes on with the next instruction. No reservation
    /// outlasts a call.
    pub fn answer(&mut self, value: Value)
        ensures { self.new ≡ changes.answered value self.old }
    {
        let pc = next(self.pc);
        self.go_on(ANSWER_REGISTER, value, pc, None);
    }

    /// Whether it runs a thread of process `pid`.
    pub fn runs(&self, pid: Pid) -> bool
        ensures { result ≡ deeds.runs pid self.now }
    {
        self.process == Some(pid)
    }

    /// It runs no thread from now on.
    pub fn rest(&mut self)
        ensures { self.new ≡ states.idle }
    {
        self.process = None;
        self.thread = None;
        self.regs.clear();
        self.pc = 0;
        self.reservation = None;
    }

    /// It runs no thread of process `pid` from now on.
    pub fn stop(&mut self, pid: Pid)
        ensures { self.new ≡ deeds.stopped pid self.old }
    {
        if self.runs(pid) {
            self.rest();
        }
    }

    /// After a store of a hart at a place of process `pid`: a reservation of that word is gone.
    pub fn disturb(&mut self, pid: Pid, at: Place)
        ensures { self.new ≡ accesses.disturbed pid at self.old }
    {
        if is_reserved_word(pid, at, self.process, self.reservation) {
            self.reservation = None;
        }
    }
}

/// Whether a reservation of a hart with this process is in the aligned word of 8 bytes at a place of
/// process `pid`.
fn is_reserved_word(
    pid: Pid,
    at: Place,
    process: Option<Pid>,
    reservation: Option<Reservation>,
) -> bool
    ensures { result ≡ accesses.is_reserved_word pid at process reservation }
{
    match (process, reservation) {
        (Some(other), Some(reservation)) => {
            let place = reservation.place;
            is_same_area(pid, at.area, other, place.area) && at.offset / 8 == place.offset / 8
        }
        _ => false,
    }
}
