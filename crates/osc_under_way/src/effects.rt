//! What a committed call does to harts and their boxes, and what its instruction left open.

ghost use Rattle.std.specs.Prelude.{◌≡◌, ◌%◌, if◌then◌else◌, not};
ghost use Rattle.osc_word.specs.Environment.{fault_status};
ghost use Rattle.osc_word.specs.declared.orders.Order.TheVariants as orders;
ghost use Rattle.osc_calls.specs.declared.BoxChange.TheVariants.{Clear, Put};
ghost use Rattle.osc_calls.specs.Boxes.{change_of, is_stopped};
ghost use Rattle.osc_calls.specs.Choices.{answer_choice, effect_choice, number_choice};
ghost use Rattle.osc_calls.specs.Kernel.{KernelState, Ends, none_lives};
ghost use Rattle.osc_under_way.specs.Effects.{effect_of};

use crate::hart_records::Records;
use osc_calls::{BoxChange, HartRecord};
use osc_word::{Answer, Call, Choice, Order, Pid, Start};

/// The status of a process that ends by a fault.
const FAULT_STATUS: u8 = 70;

/// What a committed call does to harts and their boxes.
#[derive(Clone, Copy, Debug, PartialEq, Eq)]
pub enum Effect {
    Nothing,
    /// A free or a realloc has let memory go: no cache may keep a translation to it.
    Clears,
    /// A thread begins on this hart.
    Starts { hart: u32, start: Start },
    /// The process of the call ends with this status: 0 to 63, or 70 for an end by a fault.
    Ends { status: u8 },
}

impl Effect {
    /// The process ends by an exit with this number, of which the status is the low six bits.
    pub fn of_exit(number: u64) -> Effect
        ensures { effect_of result ≡ Ends (number % 64) }
    {
        Effect::Ends {
            status: (number % 64) as u8,
        }
    }

    /// The process ends by a fault.
    pub fn of_fault() -> Effect
        ensures { effect_of result ≡ Ends fault_status }
    {
        Effect::Ends {
            status: FAULT_STATUS,
        }
    }
}

/// What a call that is answered with a number left open: a share has given memory.
fn number_choice(call: Call) -> Choice
    ensures { result ≡ number_choice call }
{
    match call {
        Call::Share(_) => Choice::Given,
        _ => Choice::Plain,
    }
}

/// What a call that starts no thread left open.
fn answer_choice(call: Call, answer: Answer) -> Choice
    ensures { result ≡ answer_choice call answer }
{
    match answer {
        Answer::Number(_) => number_choice(call),
        Answer::Given { .. } | Answer::Placed { .. } | Answer::Moved { .. } => Choice::Given,
        Answer::NoShadow
        | Answer::NoFrames
        | Answer::NoHart
        | Answer::NoProcess
        | Answer::NoThread
        | Answer::Empty => Choice::Refused,
        Answer::Freed { .. }
        | Answer::Nothing
        | Answer::Ended
        | Answer::Unknown
        | Answer::DoubleFree { .. }
        | Answer::NotAnObject
        | Answer::HeaderDamaged { .. }
        | Answer::BadBuffer { .. } => Choice::Plain,
    }
}

/// The choice of the event with which a call commits.
pub fn choice(call: Call, answer: Answer, effect: &Effect) -> Choice
    ensures { result ≡ effect_choice (effect_of effect.now) call answer }
{
    match effect {
        Effect::Starts { hart, .. } => Choice::Started(*hart),
        Effect::Nothing | Effect::Clears | Effect::Ends { .. } => answer_choice(call, answer),
    }
}

/// Whether a hart is stopped because this process has ended.
fn is_stopped(pid: Pid, kept: Option<HartRecord>) -> bool
    ensures { result ≡ is_stopped pid kept }
{
    match kept {
        Some(HartRecord::Stopped { pid: other }) => other == pid,
        _ => false,
    }
}

/// What a hart's box gets by a committed call of a process. `others_live` says whether a process lives
/// besides this one.
pub fn change(
    pid: Pid,
    hart: u32,
    effect: &Effect,
    others_live: bool,
    records: &Records,
) -> BoxChange
    ensures { (kernel : KernelState) → kernel.records ≡ records.now → none_lives pid kernel ≡ not others_live
        → result ≡ change_of kernel pid hart (effect_of effect.now) }
{
    match effect {
        Effect::Nothing => BoxChange::Keep,
        Effect::Clears => BoxChange::Clear,
        Effect::Starts { hart: new, start } => {
            if *new == hart {
                BoxChange::Put(Order::Start(*start))
            } else {
                BoxChange::Keep
            }
        }
        Effect::Ends { .. } => end_change(is_stopped(pid, records.get(hart)), others_live),
    }
}

/// What a hart's box gets by the end of a process.
fn end_change(is_stopped: bool, others_live: bool) -> BoxChange
    ensures { result ≡ (if others_live then (if is_stopped then Put orders.Stop else Clear) else Put orders.Over) }
{
    if !others_live {
        BoxChange::Put(Order::Over)
    } else if is_stopped {
        BoxChange::Put(Order::Stop)
    } else {
        BoxChange::Clear
    }
}
