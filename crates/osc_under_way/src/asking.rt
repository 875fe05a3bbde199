//! The call of a hart that has taken the kernel, and what a join and a wait are answered.

ghost use Rattle.std.specs.Prelude.{◌≡◌, Some};
ghost use Rattle.osc_calls.specs.Kernel.{Process};
ghost use Rattle.osc_calls.specs.Plan.{journal_entry};
ghost use Rattle.osc_calls.specs.Requests.{calling_of, child_look, meant, join_answer, wait_answer};

use osc_calls::{HartRecord, JoinLook, WaitLook};
use osc_word::{Answer, Call, Entry, Pid, Regs, Request, ThreadNo};
use std::marker::Model;

/// A call that a thread asks for, with the registers and the pc of its hart.
#[derive(Clone, Copy, Debug, PartialEq, Eq)]
pub struct Calling {
    pub(crate) hart: u32,
    pub(crate) pid: Pid,
    pub(crate) thread: Option<ThreadNo>,
    pub(crate) call: Call,
    pub(crate) regs: Regs,
    pub(crate) pc: u64,
}

impl Model for Calling {
    ghost use Rattle.osc_calls.specs.Kernel as kernel;

    ghost Value = { kernel.Calling };

    ghost view = { λ c. record {
      hart = c.hart;
      pid = c.pid;
      thread = c.thread;
      call = c.call;
      regs = c.regs;
      pc = c.pc;
    } };

    ghost inverse = { λ c. record {
      hart = c.hart;
      pid = c.pid;
      thread = c.thread;
      call = c.call;
      regs = c.regs;
      pc = c.pc;
    } };
}

impl Calling {
    /// The call of a hart with these registers, this pc and this record, `kept`; None exactly where its thread
    /// is stopped or it runs none, or where it only reports itself idle. The pc of an environment call
    /// is that of its ecall.
    pub fn of(
        hart: u32,
        regs: &Regs,
        pc: u64,
        request: Request,
        kept: Option<HartRecord>,
    ) -> Option<Calling>
        ensures { result ≡ calling_of hart regs.now pc request kept }
    {
        match request {
            Request::Idle => None,
            Request::Call(call) => match kept {
                Some(HartRecord::Runs { pid, thread }) => Some(Calling {
                    hart,
                    pid,
                    thread,
                    call,
                    regs: *regs,
                    pc,
                }),
                _ => None,
            },
        }
    }

    /// The hart that asks.
    pub fn hart(&self) -> u32
        ensures { result ≡ self.now.hart }
    {
        self.hart
    }

    /// The process of the thread that asks.
    pub fn pid(&self) -> Pid
        ensures { result ≡ self.now.pid }
    {
        self.pid
    }

    /// The number of the thread that asks; None for a process's first.
    pub fn thread(&self) -> Option<ThreadNo>
        ensures { result ≡ self.now.thread }
    {
        self.thread
    }

    /// What is asked for.
    pub fn call(&self) -> Call
        ensures { result ≡ self.now.call }
    {
        self.call
    }

    /// What the journal keeps of the call once it is answered.
    pub fn entry(&self, answer: Answer) -> Entry
        ensures { result ≡ journal_entry self.now answer }
    {
        Entry {
            pid: self.pid,
            hart: self.hart,
            call: self.call,
            answer,
        }
    }
}

/// The call that is planned: a realloc of nothing is a malloc.
pub fn meant(call: Call) -> Call
    ensures { result ≡ meant call }
{
    match call {
        Call::Realloc { pointer, size } => {
            if pointer == 0 {
                Call::Malloc(size)
            } else {
                call
            }
        }
        _ => call,
    }
}

/// What a wait of a process finds at a process with this parent and this status: Unknown exactly where it
/// is no child of the caller, NotYet exactly where it is one that has no status yet.
pub fn child_look(pid: Pid, parent: Option<Pid>, status: Option<u8>) -> WaitLook
    ensures { (child : Process) → child.parent ≡ parent → child.status ≡ status
        → result ≡ child_look pid (Some child) }
{
    if parent != Some(pid) {
        return WaitLook::Unknown;
    }
    match status {
        Some(status) => WaitLook::Status(status),
        None => WaitLook::NotYet,
    }
}

/// What a join is answered; None exactly where the thread runs, and then the join is not ready.
pub fn join_answer(look: JoinLook) -> Option<Answer>
    ensures { result ≡ join_answer look }
{
    match look {
        JoinLook::Value(value) => Some(Answer::Number(value)),
        JoinLook::NotYet => None,
        JoinLook::Unknown => Some(Answer::Unknown),
    }
}

/// What a wait is answered; None exactly where the child has not ended, and then the wait is not ready.
pub fn wait_answer(look: WaitLook) -> Option<Answer>
    ensures { result ≡ wait_answer look }
{
    match look {
        WaitLook::Status(status) => Some(Answer::Number(u64::from(status))),
        WaitLook::NotYet => None,
        WaitLook::Unknown => Some(Answer::Unknown),
    }
}
