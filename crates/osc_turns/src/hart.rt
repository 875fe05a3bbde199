//! The hart's own part of the machine.

ghost use Rattle.std.specs.Prelude.{◌≡◌, IfOk, None, replicate};

use crate::place::Place;
use osc_cache::HartBox;
use osc_hart::UserHart;
use osc_kernel::Kernel;
use std::alloc::{AllocError, Global};
use std::marker::Model;

/// One hart's own part: what it does as a guest, where it is in a call, and what it holds for it.
#[derive(Drop)]
pub struct Hart {
    pub(crate) number: u32,
    pub(crate) count: u32,
    pub(crate) user: UserHart,
    pub(crate) place: Place,
    pub(crate) kernel: Option<Kernel>,
    pub(crate) boxes: Vec<Option<HartBox>>,
    pub(crate) calls: u64,
    pub(crate) clears: u64,
}

impl Model for Hart {
    ghost use Rattle.std.specs.Prelude.{◌≡◌, ◌<◌, length};
    ghost use Rattle.osc_machine.specs.Parts.{HartState};
    ghost use Rattle.osc_turns.specs.Seen.{place_seen, kernel_in};
    ghost use Rattle.osc_turns.specs.Places.{PlaceFits, CallsIn, CountsIn};

    ghost Value = { HartState };

    ghost view = { λ h. record {
      number = h.number;
      count = h.count;
      user = h.user.hart;
      place = place_seen h.place h.kernel;
      kernel = kernel_in h.kernel;
      boxes = h.boxes.items;
      calls = h.calls;
      clears = h.clears;
    } };

    ghost invariant = { λ h. (h.number < h.count) × (length h.boxes.items ≡ h.count) × PlaceFits h.count h.place h.kernel × CallsIn h.place h.user.hart × CountsIn h.count h.kernel };
}

/// Hands without a box, one for each hart. It takes memory.
#[tactic(auto, using(crate::proofs::Emptied::one_more))]
fn empty_hands(alloc: Global, count: u32) -> Result<Vec<Option<HartBox>>, AllocError>
    ensures { IfOk result (λ hands. hands.items ≡ replicate count None) }
{
    let mut hands = Vec::with_capacity(alloc, count as usize)?;
    for _ in 0..count {
        hands.push(None)?;
    }
    Ok(hands)
}

impl Hart {
    ghost use Rattle.std.specs.Prelude.{◌≡◌, ◌<◌, IfOk, None, option_map, replicate};
    ghost use Rattle.osc_machine.specs.Parts.{Outside};
    ghost use Rattle.osc_machine.specs.Views as views;

    /// A hart outside a call that held nothing so far, by its number below the count of all harts. It
    /// takes memory.
    pub fn new(alloc: Global, number: u32, count: u32, user: UserHart) -> Result<Hart, AllocError>
        requires { number < count }
        ensures { IfOk result (λ hart. hart ≡ record {
          number = number;
          count = count;
          user = user.hart;
          place = Outside;
          kernel = None;
          boxes = replicate count None;
          calls = 0;
          clears = 0;
        }) }
    {
        let boxes = empty_hands(alloc, count)?;
        Ok(Hart {
            number,
            count,
            user,
            place: Place::Outside,
            kernel: None,
            boxes,
            calls: 0,
            clears: 0,
        })
    }

    /// Its number among the harts.
    #[inline(always)]
    pub fn number(&self) -> u32
        ensures { result ≡ self.now.number }
    {
        self.number
    }

    /// The committed events, so far as 64 bits count them.
    pub fn retired(&self) -> u64
        ensures { result ≡ views.retired self.now }
    {
        self.user.retired().saturating_add(self.calls)
    }

    /// How many looks into the cache found the page.
    pub fn hits(&self) -> u64
        ensures { result ≡ self.now.user.hits }
    {
        self.user.hits()
    }

    /// How many looks into the cache found nothing and began a walk.
    pub fn walks(&self) -> u64
        ensures { result ≡ self.now.user.walks }
    {
        self.user.walks()
    }

    /// How many caches its calls emptied.
    pub fn clears(&self) -> u64
        ensures { result ≡ self.now.clears }
    {
        self.clears
    }

    /// The kernel, while the hart holds it.
    pub fn kernel(&self) -> Option<&Kernel>
        ensures { option_map (λ kernel. kernel.now.kernel) result ≡ self.now.kernel }
    {
        self.kernel.as_ref()
    }

    /// Whether the hart gives the kernel back since it found the journal full.
    pub fn journal_full(&self) -> bool
        ensures { result ≡ views.journal_full self.now }
    {
        match self.place {
            Place::Returning { full } | Place::Returned { full, .. } => full,
            _ => false,
        }
    }
}
