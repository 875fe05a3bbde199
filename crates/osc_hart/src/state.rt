//! What a hart holds and counted, and where it stands within its instruction.

ghost use Rattle.std.specs.Prelude.{◌≡◌};

use crate::accesses::{kind_of, touched_kind};
use crate::answers::Told;
use osc_cache::{HartBox, has_32_slots};
use osc_guest::{After, MemoryAccess, Place, Reservation, Touch};
use osc_word::{Call, Choice, Fault, Regs, Request, Start};
use std::marker::Model;

/// The parts of a hart. Nothing is said here of the frames that it names: that stands with `UserHart`.
#[derive(Drop)]
pub struct HartState {
    pub pid: u32,
    pub root: u32,
    pub levels: u8,
    pub frames: u32,
    pub regs: Regs,
    pub pc: u64,
    pub reservation: Option<Reservation>,
    pub place: Place,
    pub held: Option<HartBox>,
    pub retired: u64,
    pub hits: u64,
    pub walks: u64,
    pub touch: Option<Touch>,
}

impl Model for HartState {
    ghost use Rattle.osc_hart.specs.Seen.{SeenHart};
    ghost use Rattle.osc_hart.specs.Sound.{PlaceFits};

    ghost Value = { SeenHart };

    ghost view = { λ h. record {
      hart = record {
        pid = h.pid;
        root = h.root;
        levels = h.levels;
        frames = h.frames;
        regs = h.regs;
        pc = h.pc;
        reservation = h.reservation;
        place = h.place;
        held = h.held;
        retired = h.retired;
        hits = h.hits;
        walks = h.walks;
      };
      touch = h.touch;
    } };

    ghost invariant = { λ h. PlaceFits h.place };
}

impl HartState {
    ghost use Rattle.std.specs.Prelude.{◌≡◌, true, is_some, None, length};
    ghost use Rattle.osc_guest.specs.User as user;
    ghost use Rattle.osc_guest.specs.Asks as asks;
    ghost use Rattle.osc_guest.specs.Accesses as accesses;
    ghost use Rattle.osc_guest.specs.Looking as looking;
    ghost use Rattle.osc_guest.specs.Told as definition;
    ghost use Rattle.osc_guest.specs.Fits.{Fits};
    ghost use Rattle.osc_hart.specs.Answers.{made, said};

    /// An idle hart that never had a thread.
    pub fn idle() -> HartState
        ensures { result ≡ record { hart = user.user_idle; touch = None } }
    {
        HartState {
            pid: 0,
            root: 0,
            levels: 0,
            frames: 0,
            regs: Regs::new(),
            pc: 0,
            reservation: None,
            place: Place::Idle,
            held: None,
            retired: 0,
            hits: 0,
            walks: 0,
            touch: None,
        }
    }

    /// A hart that runs a thread from its beginning.
    pub fn begin(start: &Start) -> HartState
        ensures { result ≡ record { hart = user.user_begin start.now; touch = None } }
    {
        let mut state = HartState::idle();
        state.start(start);
        state.place = Place::Run;
        state
    }

    /// The box as the hart leaves it.
    #[tactic(auto, unfolding(osc_guest::specs::Asks::ask))]
    #[inline(always)]
    pub fn hand_back(&mut self) -> HartBox
        requires { is_some self.old.hart.held ≡ true }
        ensures given { result ≡ user.handed self.old.hart }
        ensures slots { length result.slots ≡ 32 }
        ensures rest { self.new ≡ record self.old { hart = user.without_box self.old.hart } }
        ensures asks { asks.ask self.new.hart ≡ asks.ask self.old.hart }
    {
        let hart_box = self.held.take().unwrap();
        has_32_slots(&hart_box);
        hart_box
    }

    /// The answer to the action that the hart asked for.
    #[inline(always)]
    pub fn told(&mut self, told: Told) -> Option<Choice>
        requires { Fits (asks.ask self.old.hart) (said told) }
        ensures { made self.new result ≡ definition.told self.old.hart (said told) }
    {
        self.touch = None;
        self.answer(told)
    }

    /// The hart gets another thread, without a reservation.
    #[inline(never)]
    pub fn start(&mut self, start: &Start)
        ensures { self.new ≡ record self.old { hart = user.starting start.now self.old.hart } }
    {
        self.pid = start.pid;
        self.root = start.root;
        self.levels = start.levels;
        self.frames = start.frames;
        self.regs = start.regs;
        self.pc = start.pc;
        self.reservation = None;
    }

    /// An access of the hart's process.
    #[inline(always)]
    pub fn touch(&self, access: &MemoryAccess, done: bool) -> Touch
        ensures { result ≡ accesses.touch_of access.now done self.now.hart }
    {
        Touch {
            pid: self.pid,
            address: access.address,
            width: access.width,
            kind: touched_kind(kind_of(access.what)),
            done,
        }
    }

    /// An instruction commits.
    #[inline(always)]
    pub fn commit(&mut self, choice: Choice) -> Option<Choice>
        requires untouched { self.old.touch ≡ None }
        ensures { made self.new result ≡ user.commits choice self.old.hart }
    {
        self.retired = self.retired.saturating_add(1);
        Some(choice)
    }

    /// The hart gives its box and then takes the kernel. Its reservation ends.
    #[inline(always)]
    pub fn call(&mut self, request: Request)
        ensures { self.new ≡ record self.old { hart = looking.calling request self.old.hart } }
    {
        self.reservation = None;
        self.place = Place::GiveBox {
            after: After::Call(request),
        };
    }

    /// An instruction that faults commits, and calls for the end of its process. Registers and pc stay.
    #[inline(never)]
    pub fn fault(&mut self, cause: u8, address: u64) -> Option<Choice>
        requires untouched { self.old.touch ≡ None }
        ensures { made self.new result ≡ looking.faulted (record { cause = cause; address = address }) self.old.hart }
    {
        self.call(Request::Call(Call::End(Fault::Access { cause, address })));
        self.commit(Choice::Plain)
    }
}
