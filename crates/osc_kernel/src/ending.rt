//! The plans of the calls that end a thread or a process, and of those that only look.

ghost use Rattle.std.specs.Prelude.{ℕ, ◌≡◌, ◌<◌, ◌≤◌, ◌++◌, ◌∷◌, [], true, Some, length};
ghost use Rattle.std.specs.Vec.{vec_capacity};
ghost use Rattle.osc_calls.specs.Kernel.{Process, process_at};
ghost use Rattle.osc_word.specs.declared.calls.Answer.TheVariants as answers;
ghost use Rattle.osc_calls.specs.ProcessPlans.{done_by, done_plan, end_plan, exit_plan, records_ended};
ghost use Rattle.osc_calls.specs.Reports as definition;
ghost use Rattle.osc_ready.specs.Found.{HasProcess};
ghost use Rattle.osc_thread.specs.Lives.{is_alive};
ghost use Rattle.osc_calls.specs.Requests.{join_answer, wait_answer, wait_look};
ghost use Rattle.osc_space.specs.Space.{Keeps};
ghost use Rattle.osc_kernel.specs.Inside.{kernel_of};
ghost use Rattle.osc_kernel.specs.Plans.{CanPlan, IsBeside, RoomsAfter, planned_by, threads_left};
ghost use Rattle.osc_kernel.specs.Sound.{HasRooms};

use crate::commit::Made;
use crate::state::{State, process_of};
use osc_thread::Threads;
use osc_under_way::{Calling, Effect, HartRecord, Report, report};
use osc_word::{Answer, Fault, ThreadNo};

/// The process of a call ends with this effect: its hart is idle, and its other harts are stopped.
fn end_process(state: &mut State, calling: &Calling, effect: Effect) -> Made
    requires hart { calling.now.hart < length state.old.records }
    ensures answer { result ≡ record { answer = answers.Ended; effect = effect } }
    ensures state { state.new ≡ record state.old { records = records_ended calling.now.hart calling.now.pid state.old.records } }
{
    state.records.end(calling.hart(), calling.pid());
    Made {
        answer: Answer::Ended,
        effect,
    }
}

/// Plans an exit.
pub fn plan_exit(state: &mut State, calling: &Calling, status: u64) -> Made
    requires can { CanPlan state.old calling.now }
    ensures made { planned_by state.new result ≡ exit_plan calling.now status (kernel_of state.old) }
    ensures rooms { RoomsAfter state.new result }
    ensures rest { IsBeside state.old state.new }
{
    end_process(state, calling, Effect::of_exit(status))
}

/// A report is made.
fn push_report(reports: &mut Vec<Report>, report: Report)
    requires { length reports.old.items < vec_capacity reports.old }
    ensures items { reports.new.items ≡ reports.old.items ++ report ∷ [] }
    ensures capacity { vec_capacity reports.old ≤ vec_capacity reports.new }
{
    reports.push(report).unwrap();
}

/// The report of the end of a call's process by a fault.
fn report_of(state: &State, calling: &Calling, fault: Fault) -> Report
    requires { HasProcess (kernel_of state.now) calling.now.pid }
    ensures { (p : Process) → process_at (kernel_of state.now) calling.now.pid ≡ Some p
        → result ≡ definition.report_of calling.now.pid calling.now.hart p.space.objects fault }
{
    let process = process_of(state, calling.pid());
    report(calling.pid(), calling.hart(), process.marks(), fault)
}

/// Plans the end of a process by a fault, which is reported.
pub fn plan_end(state: &mut State, calling: &Calling, fault: Fault) -> Made
    requires can { CanPlan state.old calling.now }
    ensures made { (p : Process) → process_at (kernel_of state.old) calling.now.pid ≡ Some p
        → planned_by state.new result ≡ end_plan calling.now fault p (kernel_of state.old) }
    ensures rooms { RoomsAfter state.new result }
    ensures rest { IsBeside state.old state.new }
{
    let report = report_of(state, calling, fault);
    push_report(&mut state.reports, report);
    end_process(state, calling, Effect::of_fault())
}

/// A spawned thread leaves its value; that of a process's first is dropped.
fn leave_value(threads: &mut Threads, thread: Option<ThreadNo>, value: u64)
    requires { (number : ℕ) → thread ≡ Some number → is_alive threads.old number ≡ true }
    ensures { threads.new ≡ threads_left thread value threads.old }
{
    if let Some(number) = thread {
        threads.done(number, value);
    }
}

/// The thread of a call ends. Where it is the last of its process, the process ends with the status 0.
fn end_thread(state: &mut State, calling: &Calling, is_last: bool) -> Made
    requires hart { calling.now.hart < length state.old.records }
    requires keeps { state.old.closing ≡ Keeps }
    requires rooms { HasRooms 0 state.old }
    ensures made { planned_by state.new result ≡ done_by is_last calling.now (kernel_of state.old) }
    ensures rooms { RoomsAfter state.new result }
    ensures rest { IsBeside state.old state.new }
{
    if is_last {
        end_process(state, calling, Effect::of_exit(0))
    } else {
        state.records.set(calling.hart(), HartRecord::Idle);
        Made::answered(Answer::Ended)
    }
}

/// Plans the end of a thread: a spawned one leaves its value.
pub fn plan_done(state: &mut State, calling: &Calling, value: u64) -> Made
    requires can { CanPlan state.old calling.now }
    ensures made { planned_by state.new result ≡ done_plan calling.now value (kernel_of state.old) }
    ensures rooms { RoomsAfter state.new result }
    ensures rest { IsBeside state.old state.new }
{
    let is_last = state.records.is_last(calling.pid());
    leave_value(&mut state.threads, calling.thread(), value);
    end_thread(state, calling, is_last)
}
