//! What the kernel knows of each hart.

ghost use Rattle.std.specs.Prelude.{◌≡◌, ◌<◌, ◌≤◌, length, map, slice_get, slice_set, count_by};
ghost use Rattle.osc_calls.specs.Finish.{hart_left, record_left};
ghost use Rattle.osc_calls.specs.Kernel.{KernelState, idle_hart, is_idle, is_last, runs};
ghost use Rattle.osc_calls.specs.Open.{first_records};
ghost use Rattle.osc_calls.specs.ProcessPlans.{record_stopped, records_ended};

use osc_calls::HartRecord;
use osc_word::Pid;
use std::marker::Model;

/// The most harts that a machine has.
const MOST_HARTS: usize = 8;

/// The records of the harts, at most 8. No memory is taken.
#[derive(Debug, Drop)]
pub struct Records {
    records: [HartRecord; MOST_HARTS],
    harts: u32,
}

impl Model for Records {
    ghost use Rattle.std.specs.Prelude.{List, ◌≤◌, take};
    ghost use Rattle.osc_calls.specs.declared.HartRecord.{HartRecord};

    ghost Value = { List HartRecord };

    ghost view = { λ r. take r.harts r.records };

    ghost invariant = { λ r. r.harts ≤ 8 };
}

/// Whether a hart runs no thread and was not stopped.
fn is_idle(kept: &HartRecord) -> bool
    ensures { result ≡ is_idle kept.now }
{
    matches!(kept, HartRecord::Idle)
}

/// Whether a hart runs a thread of a process.
fn runs(pid: Pid, kept: &HartRecord) -> bool
    ensures { result ≡ runs pid kept.now }
{
    match kept {
        HartRecord::Runs { pid: other, .. } => *other == pid,
        HartRecord::Idle | HartRecord::Stopped { .. } => false,
    }
}

/// The record of a hart whose process may be the one that ends.
fn record_stopped(pid: Pid, kept: HartRecord) -> HartRecord
    ensures { result ≡ record_stopped pid kept }
{
    if runs(pid, &kept) {
        HartRecord::Stopped { pid }
    } else {
        kept
    }
}

/// The record of a hart that leaves: a stopped one is idle from now on.
fn record_left(kept: HartRecord) -> HartRecord
    ensures { result ≡ record_left kept }
{
    match kept {
        HartRecord::Stopped { .. } => HartRecord::Idle,
        HartRecord::Idle | HartRecord::Runs { .. } => kept,
    }
}

/// The least idle hart.
fn least_idle(records: &[HartRecord]) -> Option<usize>
    ensures { result ≡ idle_hart records.now }
{
    records.iter().position(|kept| is_idle(kept))
}

/// How many harts run a thread of a process.
fn running(records: &[HartRecord], pid: Pid) -> usize
    ensures { result ≡ count_by (runs pid) records.now }
{
    records.iter().filter(|kept| runs(pid, kept)).count()
}

/// Each hart that runs a thread of a process is stopped.
fn stop_all(records: &mut [HartRecord], pid: Pid)
    ensures { records.new ≡ map (record_stopped pid) records.old }
{
    for kept in records.iter_mut() {
        *kept = record_stopped(pid, *kept);
    }
}

impl Records {
    /// The records of so many harts at the start: the first runs process 0's first thread, and the others
    /// are idle.
    pub fn new(harts: u32) -> Records
        requires { harts ≤ 8 }
        ensures { result ≡ first_records harts }
    {
        let mut records = [HartRecord::Idle; MOST_HARTS];
        records[0] = HartRecord::Runs {
            pid: 0,
            thread: None,
        };
        Records { records, harts }
    }

    /// How many harts there are.
    pub fn harts(&self) -> u32
        ensures count { result ≡ length self.now }
        ensures few { result ≤ 8 }
    {
        self.records[..self.harts as usize].len() as u32
    }

    /// The record of a hart; None exactly where the machine has no such hart.
    pub fn get(&self, hart: u32) -> Option<HartRecord>
        ensures { result ≡ slice_get self.now hart }
    {
        self.records[..self.harts as usize]
            .get(hart as usize)
            .copied()
    }

    /// A hart gets another record.
    pub fn set(&mut self, hart: u32, new: HartRecord)
        requires { hart < length self.old }
        ensures { self.new ≡ slice_set self.old hart new }
    {
        self.records[hart as usize] = new;
    }

    /// The least idle hart; None exactly where none is idle.
    pub fn idle_hart(&self) -> Option<u32>
        ensures { result ≡ idle_hart self.now }
    {
        let hart = least_idle(&self.records[..self.harts as usize])?;
        Some(hart as u32)
    }

    /// Whether no more than one hart runs a thread of a process.
    pub fn is_last(&self, pid: Pid) -> bool
        ensures { result ≡ is_last self.now pid }
    {
        running(&self.records[..self.harts as usize], pid) <= 1
    }

    /// A process ends by a call of this hart, which is idle from now on; each other hart that runs a
    /// thread of the process is stopped.
    pub fn end(&mut self, hart: u32, pid: Pid)
        requires { hart < length self.old }
        ensures { self.new ≡ records_ended hart pid self.old }
    {
        stop_all(&mut self.records, pid);
        self.set(hart, HartRecord::Idle);
    }

    /// A hart leaves: where it was stopped it is idle from now on. No other record changes.
    pub fn leave(&mut self, hart: u32)
        ensures { (kernel : KernelState) → kernel.records ≡ self.old
            → hart_left hart (slice_get self.old hart) kernel ≡ record kernel { records = self.new } }
    {
        if let Some(kept) = self.get(hart) {
            self.set(hart, record_left(kept));
        }
    }
}
