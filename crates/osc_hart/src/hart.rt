//! The hart: the calls by which its owner drives it.

ghost use Rattle.std.specs.Prelude.{◌≡◌};

use crate::answers::Told;
use crate::state::HartState;
use osc_cache::HartBox;
use osc_guest::{Ask, Touch, asks_within, hands_move};
use osc_word::{Choice, Regs, Start};
use std::marker::Model;

/// A hart with its thread. Its owner asks it for the next action, does that, and tells it the answer.
#[derive(Drop)]
pub struct UserHart {
    state: HartState,
}

impl Model for UserHart {
    ghost use Rattle.osc_hart.specs.Seen.{SeenHart};
    ghost use Rattle.osc_hart.specs.Within.{InRange};

    ghost Value = { SeenHart };

    ghost view = { λ h. h.state };

    ghost invariant = { λ h. InRange h.state.hart };
}

impl UserHart {
    ghost use Rattle.std.specs.Prelude.{◌≡◌, ◌<◌, true, is_some, None, length};
    ghost use Rattle.osc_guest.specs.User as user;
    ghost use Rattle.osc_guest.specs.Asks as asks;
    ghost use Rattle.osc_guest.specs.Told as definition;
    ghost use Rattle.osc_guest.specs.Fits.{Fits};
    ghost use Rattle.osc_guest.specs.Ranges.{AskIn};
    ghost use Rattle.osc_hart.specs.Answers.{made, said};
    ghost use Rattle.osc_hart.specs.Within.{ToldWithin};

    /// A hart that runs a thread from its beginning.
    pub fn begin(start: &Start) -> UserHart
        requires { start.now.root < start.now.frames }
        ensures { result ≡ record { hart = user.user_begin start.now; touch = None } }
    {
        asks_within();
        UserHart {
            state: HartState::begin(start),
        }
    }

    /// An idle hart that never had a thread.
    pub fn idle() -> UserHart
        ensures { result ≡ record { hart = user.user_idle; touch = None } }
    {
        UserHart {
            state: HartState::idle(),
        }
    }

    /// The next action. It is `Rest` exactly where the hart is at rest. It names only frames of the
    /// machine, and only words that a frame has.
    #[inline(always)]
    pub fn ask(&self) -> Ask
        ensures asked { result ≡ asks.ask self.now.hart }
        ensures within { AskIn self.now.hart.frames result }
    {
        asks_within();
        self.state.next_action()
    }

    /// The answer to the action that the hart asked for. A box names only frames of the machine. It
    /// gives a choice where an instruction commits with it.
    #[inline(always)]
    pub fn told(&mut self, told: Told) -> Option<Choice>
        requires fits { Fits (asks.ask self.old.hart) (said told) }
        requires within { ToldWithin (said told) self.old.hart }
        ensures { made self.new result ≡ definition.told self.old.hart (said told) }
    {
        asks_within();
        hands_move();
        self.state.told(told)
    }

    /// The box as the hart leaves it, once for each giving. The hart then still asks for the giving.
    #[inline(always)]
    pub fn hand_back(&mut self) -> HartBox
        requires { is_some self.old.hart.held ≡ true }
        ensures given { result ≡ user.handed self.old.hart }
        ensures slots { length result.slots ≡ 32 }
        ensures rest { self.new ≡ record self.old { hart = user.without_box self.old.hart } }
        ensures asks { asks.ask self.new.hart ≡ asks.ask self.old.hart }
    {
        self.state.hand_back()
    }

    /// The registers.
    pub fn regs(&self) -> &Regs
        ensures { result.now ≡ self.now.hart.regs }
    {
        &self.state.regs
    }

    /// The pc; while the hart asks for the kernel for an environment call, that of the ecall.
    pub fn pc(&self) -> u64
        ensures { result ≡ self.now.hart.pc }
    {
        self.state.pc
    }

    /// The access that the last answer did or found at fault; None where it did neither, and before
    /// the first answer.
    pub fn touched(&self) -> Option<Touch>
        ensures { result ≡ self.now.touch }
    {
        self.state.touch
    }

    /// How many choices the answers gave. A call that returns commits in the kernel and is not
    /// counted.
    pub fn retired(&self) -> u64
        ensures { result ≡ self.now.hart.retired }
    {
        self.state.retired
    }

    /// How many looks into the cache found the page.
    pub fn hits(&self) -> u64
        ensures { result ≡ self.now.hart.hits }
    {
        self.state.hits
    }

    /// How many looks into the cache found nothing and began a walk.
    pub fn walks(&self) -> u64
        ensures { result ≡ self.now.hart.walks }
    {
        self.state.walks
    }
}
