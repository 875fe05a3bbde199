//! What a hart gives, and how it changes a box that is at home.

ghost use Rattle.std.specs.Prelude.{ℕ, ◌≡◌, ◌<◌, true, is_some, Some, None, slice_set, slice_index_or};
ghost use Rattle.osc_machine.specs.Laws.{bared};
ghost use Rattle.osc_machine.specs.declared.HartAsk.TheVariants as does;
ghost use Rattle.osc_machine.specs.Turns.{hart_ask, handed_box, handed_kernel, box_given};
ghost use Rattle.osc_turns.specs.Answers.{IsGiving, IsChanging, box_in_hand, freed_of};
ghost use Rattle.osc_turns.specs.Places.{CommitsKernel, IsFree};

use crate::boxes::change;
use crate::hart::Hart;
use crate::place::Place;
use osc_cache::HartBox;
use osc_kernel::Kernel;
use std::snapshot::Snapshot;

impl Hart {
    /// The kernel as the hart gives it, with its call finished, once for each giving. The hart then still
    /// asks for the giving.
    #[tactic(auto, unfolding(osc_machine::specs::Turns::hart_ask, osc_machine::specs::Turns::handed_kernel), using(crate::proofs::Labels::finish_labelled))]
    pub fn hand_kernel(&mut self) -> Kernel
        requires asks { hart_ask self.old ≡ does.GiveKernel }
        requires held { is_some self.old.kernel ≡ true }
        ensures given { Some result.kernel ≡ handed_kernel self.old }
        ensures free { IsFree self.old.count result.kernel }
        ensures freed { result.freed ≡ freed_of self.old.kernel }
        ensures rest { self.new ≡ bared self.old }
    {
        let full = self.journal_full();
        let mut kernel = self.kernel.take().unwrap();
        let before = Snapshot::of(&kernel);
        let resume = kernel.finish();
        let label = kernel.label();
        self.place = Place::Returned {
            full,
            resume,
            label,
            before,
        };
        kernel
    }

    /// A box of the call as the hart gives it.
    #[tactic(auto, unfolding(osc_machine::specs::Turns::box_given))]
    fn hand_call_box(&mut self, next: u32) -> HartBox
        requires within { next < self.old.count }
        requires held { is_some (slice_index_or self.old.boxes next None) ≡ true }
        requires commits { CommitsKernel self.old.kernel }
        ensures given { result ≡ box_given next self.old.kernel (slice_index_or self.old.boxes next None) }
        ensures rest { self.new ≡ record self.old { boxes = slice_set self.old.boxes next None } }
    {
        let mut held = self.boxes[next as usize].take().unwrap();
        if let Some(kernel) = &self.kernel {
            change(&mut held, &kernel.box_change(next));
        }
        held
    }

    /// The box that the hart gives, as it leaves it, once for each giving. The hart then still asks for
    /// the giving.
    #[tactic(auto, unfolding(osc_machine::specs::Turns::hart_ask, osc_machine::specs::Turns::handed_box))]
    #[inline(always)]
    pub fn hand_box(&mut self) -> HartBox
        requires asks { IsGiving (hart_ask self.old) }
        requires held { is_some (box_in_hand self.old) ≡ true }
        ensures given { result ≡ handed_box self.old }
        ensures rest { self.new ≡ bared self.old }
    {
        match self.place {
            Place::GivingBoxes { next } => self.hand_call_box(next),
            Place::Outside => self.user.hand_back(),
            Place::TakingBoxes { .. } => self.user.hand_back(),
            Place::FirstWord { .. } => self.user.hand_back(),
            Place::SecondWord { .. } => self.user.hand_back(),
            Place::Working { .. } => self.user.hand_back(),
            Place::Returning { .. } => self.user.hand_back(),
            Place::Returned { .. } => self.user.hand_back(),
        }
    }

    /// Changes a box that is at home as the call says.
    #[tactic(auto, unfolding(osc_machine::specs::Turns::hart_ask, osc_machine::specs::Turns::box_given))]
    pub fn change(&self, held: &mut HartBox)
        requires asks { IsChanging (hart_ask self.now) }
        ensures { (box : ℕ) → hart_ask self.now ≡ does.ChangeBox box → held.new ≡ box_given box self.now.kernel (Some held.old) }
    {
        let Place::Working { progress } = &self.place else {
            return;
        };
        if let (Some(kernel), Some(hart)) = (&self.kernel, progress.box_changed()) {
            change(held, &kernel.box_change(hart));
        }
    }
}
