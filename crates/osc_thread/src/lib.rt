//! The threads that the processes of a machine spawn, and what they were done with.
//!
//! Clauses see `Threads` as the list of the threads in the order of their spawns, so that thread n stands
//! at place n - 1.
#![tactic(auto)]

ghost use Rattle.std.specs.Prelude.{◌≡◌, ◌↔◌, [], length, true, false, ◌&&◌, if◌then◌else◌, Some, None, IfOk, IsNone};
ghost use Rattle.osc_word.specs.Environment.{thread_limit};
ghost use Rattle.osc_calls.specs.Threads.{has_room, new_number, spawned, thread_done, join_look};
ghost use Rattle.osc_thread.specs.Lives.{is_alive, is_spawned_by};
ghost use Rattle.osc_calls.specs.declared.JoinLook.TheVariants.{NotYet, Unknown};

pub use osc_calls::{JoinLook, Thread};
use osc_word::{Pid, THREAD_LIMIT, ThreadNo};
use std::alloc::{AllocError, Global};
use std::marker::Model;

/// The threads that were spawned, and room for all that may ever be.
#[derive(Drop)]
pub struct Threads {
    threads: Vec<Thread>,
}

impl Model for Threads {
    ghost use Rattle.std.specs.Prelude.{List, ◌≤◌};
    ghost use Rattle.std.specs.Vec.{vec_len, vec_capacity};
    ghost use Rattle.osc_word.specs.Environment.{thread_limit};
    ghost use Rattle.osc_calls.specs.declared.Thread.{Thread};

    ghost Value = { List Thread };

    ghost view = { λ threads. threads.threads.items };

    ghost invariant = { λ threads. (vec_len threads.threads ≤ thread_limit) × (thread_limit ≤ vec_capacity threads.threads) };
}

impl Threads {
    /// None was spawned.
    pub fn new(alloc: Global) -> Result<Threads, AllocError>
        ensures { IfOk result (λ threads. threads ≡ []) }
    {
        let threads = Vec::with_capacity(alloc, THREAD_LIMIT as usize)?;
        Ok(Threads { threads })
    }

    /// A thread of a process is spawned: its number, from 1 over the whole machine; None exactly where 4096
    /// were spawned, and then nothing changes.
    pub fn spawn(&mut self, pid: Pid) -> Option<ThreadNo>
        ensures number { result ≡ (if has_room self.old then Some (new_number self.old) else None) }
        ensures none { IsNone result ↔ (length self.old ≡ thread_limit) }
        ensures after { self.new ≡ (if has_room self.old then spawned pid self.old else self.old) }
    {
        let count = self.threads.len() as u32;
        if count < THREAD_LIMIT {
            self.threads.push(Thread { pid, value: None }).unwrap();
            Some(count + 1)
        } else {
            None
        }
    }

    /// A thread that lives is done with a value.
    pub fn done(&mut self, thread: ThreadNo, value: u64)
        requires { is_alive self.old thread ≡ true }
        ensures { self.new ≡ thread_done thread value self.old }
    {
        let place = thread as usize - 1;
        let pid = self.threads[place].pid;
        self.threads[place] = Thread {
            pid,
            value: Some(value),
        };
    }

    /// What a join of a process finds: NotYet exactly where this process spawned the thread and it lives,
    /// Unknown exactly where this process spawned no such thread. A value is found each time.
    pub fn join(&self, pid: Pid, thread: u64) -> JoinLook
        ensures look { result ≡ join_look self.now pid thread }
        ensures not_yet { (result ≡ NotYet) ↔ (is_spawned_by pid self.now thread && is_alive self.now thread ≡ true) }
        ensures unknown { (result ≡ Unknown) ↔ (is_spawned_by pid self.now thread ≡ false) }
    {
        if thread == 0 || thread > self.threads.len() as u64 {
            return JoinLook::Unknown;
        }
        let found = self.threads[thread as usize - 1];
        if found.pid != pid {
            return JoinLook::Unknown;
        }
        match found.value {
            Some(value) => JoinLook::Value(value),
            None => JoinLook::NotYet,
        }
    }
}

#[cfg(test)]
mod tests;
