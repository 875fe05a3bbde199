//! What a hart asks for next.

ghost use Rattle.std.specs.Prelude.{◌≡◌, IfSome};
ghost use Rattle.osc_machine.specs.Turns.{guest_ask, hart_ask, move_ask};
ghost use Rattle.osc_turns.specs.Places.{WorksIn, EntryFor};
ghost use Rattle.osc_turns.specs.Seen.{moves_in};

use crate::hart::Hart;
use crate::place::Place;
use osc_guest::Ask;
use osc_kernel::Kernel;
use osc_machine::HartAsk;
use osc_moves::Progress;

/// What a guest's action is to the machine.
fn guest_ask(number: u32, ask: Ask) -> HartAsk
    ensures { result ≡ guest_ask number ask }
{
    match ask {
        Ask::TakeBox => HartAsk::TakeBox(number),
        Ask::Load(at) => HartAsk::Load(at),
        Ask::TakeGate { frame, only } => HartAsk::TakeGate { frame, only },
        Ask::Store { at, value } => HartAsk::Store { at, value },
        Ask::OpenGate { frame, version } => HartAsk::OpenGate { frame, version },
        Ask::GiveBox => HartAsk::GiveBox(number),
        Ask::Kernel(_) => HartAsk::TakeKernel,
        Ask::Rest => HartAsk::Rest,
    }
}

/// The entry that the next move stores, where it stores one.
fn entry_for(kernel: &Option<Kernel>, progress: &Progress) -> u64
    requires { WorksIn progress.now kernel.now }
    ensures { EntryFor progress.now kernel.now result }
{
    let Some(index) = progress.place() else {
        return 0;
    };
    match kernel {
        Some(kernel) => kernel.entry(index),
        None => 0,
    }
}

/// The next action of a job that is under way.
fn job_ask(kernel: &Option<Kernel>, progress: &Progress) -> HartAsk
    requires { WorksIn progress.now kernel.now }
    ensures { result ≡ move_ask (moves_in progress.now kernel.now) progress.now.read }
{
    let entry = entry_for(kernel, progress);
    progress.ask(entry)
}

impl Hart {
    /// What the guest part does next; None while the hart is in a call.
    #[tactic(auto, unfolding(osc_machine::specs::Turns::hart_ask))]
    #[inline(always)]
    pub fn guest_ask(&self) -> Option<Ask>
        ensures { IfSome result (λ ask. hart_ask self.now ≡ guest_ask self.now.number ask) }
    {
        match self.place {
            Place::Outside => Some(self.user.ask()),
            _ => None,
        }
    }

    /// The next action.
    #[tactic(auto, unfolding(osc_machine::specs::Turns::hart_ask))]
    #[inline(always)]
    pub fn ask(&self) -> HartAsk
        ensures { result ≡ hart_ask self.now }
    {
        match &self.place {
            Place::Outside => guest_ask(self.number, self.user.ask()),
            Place::TakingBoxes { next } => HartAsk::TakeBox(*next),
            Place::FirstWord { first, .. } => HartAsk::Load(*first),
            Place::SecondWord { second, .. } => HartAsk::Load(*second),
            Place::Working { progress } => job_ask(&self.kernel, progress),
            Place::GivingBoxes { next } => HartAsk::GiveBox(*next),
            Place::Returning { .. } | Place::Returned { .. } => HartAsk::GiveKernel,
        }
    }
}
