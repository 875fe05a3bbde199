//! What a hart makes of an answer.

ghost use Rattle.std.specs.Prelude.{◌≡◌, ◌<◌, ◌^◌, true, false, Bool, if◌then◌else◌, Some, None, List, [], length, slice_set, slice_index_or};
ghost use Rattle.osc_guest.specs.Asks as guest;
ghost use Rattle.osc_guest.specs.Told as heard;
ghost use Rattle.osc_guest.specs.Fits.{Fits};
ghost use Rattle.osc_hart.specs.Answers as answers;
ghost use Rattle.osc_hart.specs.Within.{ToldWithin};
ghost use Rattle.osc_machine.specs.Turns as turns;
ghost use Rattle.osc_machine.specs.Turns.{hart_ask, hart_told, from_guest, quietly, kernel_taken};
ghost use Rattle.osc_turns.specs.Answers.{said, AnswerFits, AnswerWithin};
ghost use Rattle.osc_guest.specs.User.{risen};
ghost use Rattle.osc_calls.specs.Choices.{choice};
ghost use Rattle.osc_calls.specs.JobDone.{entries};
ghost use Rattle.osc_calls.specs.Kernel.{next_job};
ghost use Rattle.osc_moves.specs.Standing.{moves_at};
ghost use Rattle.osc_machine.specs.Views.{label_in};
ghost use Rattle.osc_turns.specs.Places.{Commits, Waits, IsFree, Calls, PlaceFits, ReturnsKernel, IsWorking};
ghost use Rattle.osc_machine.specs.Parts.{Outside};
ghost use Rattle.osc_turns.specs.Seen.{made, turned, place_seen, kernel_in, planned_with, returning_from};

use crate::boxes::clears;
use crate::calls::{place_begun, place_on};
use crate::hart::Hart;
use crate::place::{HartTold, NOTHING, Place, Stepped};
use osc_cache::HartBox;
use osc_calls::{Begun, BoxChange};
use osc_guest::{Ask, Touch};
use osc_hart::Told;
use osc_kernel::Kernel;
use osc_machine::laws::stays_exactly;
use osc_moves::Progress;
use osc_word::{Choice, Event, Label, Resume};
use std::mem::replace;

/// An access of a hart, as a label shows it.
fn touched(hart: u32, touch: &Touch) -> Label
    ensures { result ≡ turns.touched hart touch.now }
{
    Label::Touched {
        pid: touch.pid,
        hart,
        address: touch.address,
        width: touch.width,
        kind: touch.kind,
        done: touch.done,
    }
}

/// Whether a call commits at once.
fn is_planned(begun: Begun) -> bool
    ensures { result ≡ turns.is_planned begun }
{
    matches!(begun, Begun::Planned)
}

impl Hart {
    /// The event that commits with a choice.
    fn committed(&self, choice: Choice) -> Event
        ensures { result ≡ turns.committed_by self.now.number choice }
    {
        Event {
            hart: self.number,
            choice,
        }
    }

    /// The guest part hears an answer.
    #[inline(always)]
    fn tell_user(&mut self, told: Told) -> Stepped
        requires outside { self.old.place ≡ Outside }
        requires fits { Fits (guest.ask self.old.user) (answers.said told) }
        requires within { ToldWithin (answers.said told) self.old.user }
        ensures { made self.new result ≡ turned (from_guest self.old (heard.told self.old.user (answers.said told))) }
    {
        let choice = self.user.told(told);
        let label = self
            .user
            .touched()
            .map(|touch| touched(self.number, &touch));
        Stepped {
            commit: choice.map(|choice| self.committed(choice)),
            label,
        }
    }

    /// The boxes in its hand.
    fn boxes(&self) -> &[Option<HartBox>]
        ensures boxes { result.now ≡ self.now.boxes }
        ensures count { length result.now ≡ self.now.count }
        ensures some { 0 < length result.now }
        ensures few { length result.now < 2 ^ 32 }
    {
        let _count = self.count;
        &self.boxes
    }

    /// A call may commit.
    fn commit(&mut self, commits: bool, kernel: &Kernel) -> Option<Event>
        requires { commits ≡ true → Commits kernel.now.kernel }
        ensures hart { self.new ≡ record self.old { calls = if commits then risen self.old.calls else self.old.calls } }
        ensures event { result ≡ (if commits then Some (turns.committed_by self.old.number (choice kernel.now.kernel)) else None) }
    {
        if !commits {
            return None;
        }
        self.calls = self.calls.saturating_add(1);
        Some(self.committed(kernel.choice()))
    }

    /// In a call the hart goes to a place with the kernel and what its change showed; it may commit with
    /// it.
    fn go_on(
        &mut self,
        commits: bool,
        kernel: Kernel,
        label: Option<Label>,
        place: Place,
    ) -> Stepped
        requires commits { commits ≡ true → Commits kernel.kernel }
        requires place { PlaceFits self.old.count place (Some kernel) }
        requires calls { Calls self.old.user }
        requires counted { kernel.kernel.config.harts ≡ self.old.count }
        ensures { (shows : List Label) → label ≡ label_in shows
            → made self.new result ≡ turned (turns.in_call commits (record { kernel = kernel.kernel; shows = shows })
            (place_seen place (Some kernel)) self.old) }
    {
        let commit = self.commit(commits, &kernel);
        self.place = place;
        self.kernel = Some(kernel);
        Stepped { commit, label }
    }

    /// The hart took the kernel for its guest part's request.
    #[tactic(auto, using(crate::proofs::Begun::begun_fits))]
    fn take_kernel(&mut self, mut kernel: Kernel) -> Stepped
        requires free { IsFree self.old.count kernel.kernel }
        requires outside { self.old.place ≡ Outside }
        ensures { made self.new result ≡ turned (kernel_taken (guest.ask self.old.user) kernel.kernel self.old) }
    {
        let Ask::Kernel(request) = self.user.ask() else {
            return NOTHING;
        };
        let begun = kernel.begin(self.number, self.user.regs(), self.user.pc(), request);
        let label = kernel.label();
        let place = place_begun(begun, &kernel, self.boxes());
        self.go_on(is_planned(begun), kernel, label, place)
    }

    /// The kernel leaves the hart's hand for a while.
    fn lift(&mut self) -> Option<Kernel>
        ensures kernel { kernel_in result ≡ self.old.kernel }
        ensures rest { self.new ≡ record self.old { place = Outside; kernel = None } }
    {
        self.place = Place::Outside;
        self.kernel.take()
    }

    /// A box comes into the hart's hand, or leaves it.
    fn put_box(&mut self, place: u32, held: Option<HartBox>)
        requires { place < self.old.count }
        ensures { self.new ≡ record self.old { boxes = slice_set self.old.boxes place held } }
    {
        self.boxes[place as usize] = held;
    }

    /// The call is planned with what was found of a header.
    fn plan_with(&mut self, mut kernel: Kernel, found: [u64; 2]) -> Stepped
        requires waits { Waits kernel.kernel }
        requires calls { Calls self.old.user }
        requires counted { kernel.kernel.config.harts ≡ self.old.count }
        ensures { made self.new result ≡ turned (turns.in_call true (planned_with found kernel.kernel)
            (turns.place_on (planned_with found kernel.kernel).kernel self.old.boxes) self.old) }
    {
        kernel.plan(found);
        let label = kernel.label();
        let place = place_on(&kernel, self.boxes());
        self.go_on(true, kernel, label, place)
    }

    /// The boxes are taken one after another; with the last one the call, which looks at no header, is
    /// planned.
    fn take_box(&mut self, next: u32, kernel: Kernel, hart_box: HartBox) -> Stepped
        requires within { next < self.old.count }
        requires waits { Waits kernel.kernel }
        requires calls { Calls self.old.user }
        requires counted { kernel.kernel.config.harts ≡ self.old.count }
        ensures { made self.new result ≡ turned (turns.box_taken next hart_box kernel.kernel self.old) }
    {
        let count = self.count;
        self.put_box(next, Some(hart_box));
        if next + 1 == count {
            self.plan_with(kernel, [0, 0])
        } else {
            self.go_on(false, kernel, None, Place::TakingBoxes { next: next + 1 })
        }
    }

    /// A cache is emptied by the next move, where it changes a box.
    fn count_clear(&mut self, kernel: &Kernel, progress: &Progress)
        requires { Commits kernel.now.kernel }
        ensures { self.new ≡ record self.old {
          clears =
              turns.clears_by (moves_at (entries kernel.now.kernel) progress.now) kernel.now.kernel self.old.clears;
        } }
    {
        if let Some(hart) = progress.box_changed() {
            self.clears = clears(&kernel.box_change(hart), self.clears);
        }
    }

    /// An action of the job under way is done.
    fn action_done(&mut self, progress: &Progress, word: u64, mut kernel: Kernel) -> Stepped
        requires job { next_job kernel.kernel ≡ Some progress.now.job }
        requires commits { Commits kernel.kernel }
        requires calls { Calls self.old.user }
        requires counted { kernel.kernel.config.harts ≡ self.old.count }
        ensures { made self.new result ≡ turned (turns.action_done (moves_at (entries kernel.kernel) progress.now)
            progress.now.read word kernel.kernel self.old) }
    {
        self.count_clear(&kernel, progress);
        match progress.told(word) {
            Some(progress) => self.go_on(false, kernel, None, Place::Working { progress }),
            None => {
                kernel.job_done(word);
                let label = kernel.label();
                let place = place_on(&kernel, self.boxes());
                self.go_on(false, kernel, label, place)
            }
        }
    }

    /// An action of the job under way is done; `word` is what it loaded, or 0.
    #[inline(never)]
    fn work(&mut self, word: u64) -> Stepped
        requires { IsWorking self.old.place }
        ensures { made self.new result ≡ turned (turns.place_told self.old.place self.old.kernel self.old (turns.Word word)) }
    {
        match replace(&mut self.place, Place::Outside) {
            Place::Working { progress } => match self.kernel.take() {
                Some(kernel) => self.action_done(&progress, word, kernel),
                None => NOTHING,
            },
            Place::Outside
            | Place::TakingBoxes { .. }
            | Place::FirstWord { .. }
            | Place::SecondWord { .. }
            | Place::GivingBoxes { .. }
            | Place::Returning { .. }
            | Place::Returned { .. } => NOTHING,
        }
    }

    /// A box is changed so.
    fn count_change(&mut self, change: &BoxChange)
        ensures { self.new ≡ record self.old { clears = turns.clears_more change.now self.old.clears } }
    {
        self.clears = clears(change, self.clears);
    }

    /// A box of the call was given.
    fn box_gone(&mut self, next: u32, kernel: Kernel) -> Stepped
        requires within { next < self.old.count }
        requires commits { Commits kernel.kernel }
        requires calls { Calls self.old.user }
        requires counted { kernel.kernel.config.harts ≡ self.old.count }
        ensures { made self.new result ≡ turned (turns.box_gone next kernel.kernel self.old) }
    {
        self.put_box(next, None);
        self.count_change(&kernel.box_change(next));
        let place = place_on(&kernel, self.boxes());
        self.go_on(false, kernel, None, place)
    }

    /// The guest part hears what came of its request.
    fn resume(&mut self, resume: Resume, label: Option<Label>) -> Stepped
        requires { Calls self.old.user }
        ensures { (shows : List Label) (full : Bool) → label ≡ label_in shows
            → made self.new result ≡ turned (turns.kernel_gone (record { resume = resume; shows = shows; full = full }) self.old) }
    {
        self.user.told(Told::Resumed(resume));
        self.place = Place::Outside;
        self.kernel = None;
        Stepped {
            commit: None,
            label,
        }
    }

    /// A box was taken.
    #[tactic(auto, unfolding(osc_machine::specs::Turns::hart_ask, osc_machine::specs::Turns::hart_told))]
    #[inline(always)]
    fn box_told(&mut self, hart_box: HartBox) -> Stepped
        requires fits { AnswerFits self.old.count (hart_ask self.old) (turns.Box hart_box) }
        requires within { AnswerWithin self.old (turns.Box hart_box) }
        ensures { made self.new result ≡ turned (hart_told self.old (turns.Box hart_box)) }
    {
        match self.place {
            Place::Outside => self.tell_user(Told::Box(hart_box)),
            Place::TakingBoxes { next } => match self.lift() {
                Some(kernel) => self.take_box(next, kernel, hart_box),
                None => NOTHING,
            },
            Place::FirstWord { .. } => NOTHING,
            Place::SecondWord { .. } => NOTHING,
            Place::Working { .. } => NOTHING,
            Place::GivingBoxes { .. } => NOTHING,
            Place::Returning { .. } => NOTHING,
            Place::Returned { .. } => NOTHING,
        }
    }

    /// The kernel was taken.
    #[tactic(auto, unfolding(osc_machine::specs::Turns::hart_ask, osc_machine::specs::Turns::hart_told))]
    fn kernel_told(&mut self, kernel: Kernel) -> Stepped
        requires { AnswerFits self.old.count (hart_ask self.old) (turns.Kernel kernel.kernel) }
        ensures { made self.new result ≡ turned (hart_told self.old (turns.Kernel kernel.kernel)) }
    {
        match self.place {
            Place::Outside => self.take_kernel(kernel),
            Place::TakingBoxes { .. } => NOTHING,
            Place::FirstWord { .. } => NOTHING,
            Place::SecondWord { .. } => NOTHING,
            Place::Working { .. } => NOTHING,
            Place::GivingBoxes { .. } => NOTHING,
            Place::Returning { .. } => NOTHING,
            Place::Returned { .. } => NOTHING,
        }
    }

    /// A word was loaded.
    #[tactic(auto, unfolding(osc_machine::specs::Turns::hart_ask, osc_machine::specs::Turns::hart_told))]
    #[inline(always)]
    fn word_told(&mut self, word: u64) -> Stepped
        requires { AnswerFits self.old.count (hart_ask self.old) (turns.Word word) }
        ensures { made self.new result ≡ turned (hart_told self.old (turns.Word word)) }
    {
        match self.place {
            Place::Outside => self.tell_user(Told::Word(word)),
            Place::FirstWord { second, .. } => {
                self.place = Place::SecondWord {
                    found: word,
                    second,
                };
                NOTHING
            }
            Place::SecondWord { found, .. } => match self.lift() {
                Some(kernel) => self.plan_with(kernel, [found, word]),
                None => NOTHING,
            },
            Place::Working { .. } => self.work(word),
            Place::TakingBoxes { .. } => NOTHING,
            Place::GivingBoxes { .. } => NOTHING,
            Place::Returning { .. } => NOTHING,
            Place::Returned { .. } => NOTHING,
        }
    }

    /// A gate was taken.
    #[tactic(auto, unfolding(osc_machine::specs::Turns::hart_ask, osc_machine::specs::Turns::hart_told))]
    fn gate_told(&mut self, version: u64) -> Stepped
        requires { AnswerFits self.old.count (hart_ask self.old) (turns.Gate version) }
        ensures { made self.new result ≡ turned (hart_told self.old (turns.Gate version)) }
    {
        match self.place {
            Place::Outside => self.tell_user(Told::Gate(version)),
            Place::TakingBoxes { .. } => NOTHING,
            Place::FirstWord { .. } => NOTHING,
            Place::SecondWord { .. } => NOTHING,
            Place::Working { .. } => NOTHING,
            Place::GivingBoxes { .. } => NOTHING,
            Place::Returning { .. } => NOTHING,
            Place::Returned { .. } => NOTHING,
        }
    }

    /// A gate has another version.
    #[tactic(auto, unfolding(osc_machine::specs::Turns::hart_ask, osc_machine::specs::Turns::hart_told))]
    fn version_told(&mut self) -> Stepped
        requires { AnswerFits self.old.count (hart_ask self.old) turns.OldVersion }
        ensures { made self.new result ≡ turned (hart_told self.old turns.OldVersion) }
    {
        match self.place {
            Place::Outside => self.tell_user(Told::OldVersion),
            Place::TakingBoxes { .. } => NOTHING,
            Place::FirstWord { .. } => NOTHING,
            Place::SecondWord { .. } => NOTHING,
            Place::Working { .. } => NOTHING,
            Place::GivingBoxes { .. } => NOTHING,
            Place::Returning { .. } => NOTHING,
            Place::Returned { .. } => NOTHING,
        }
    }

    /// The kernel was given; where it is still in the hart's hand, it is finished first.
    fn give_kernel(&mut self) -> Stepped
        requires kernel { ReturnsKernel self.old.kernel }
        requires calls { Calls self.old.user }
        ensures { (full : Bool) → made self.new result ≡ turned (turns.kernel_gone (returning_from full self.old.kernel) self.old) }
    {
        match self.lift() {
            Some(mut kernel) => {
                let resume = kernel.finish();
                let label = kernel.label();
                self.resume(resume, label)
            }
            None => NOTHING,
        }
    }

    /// The action is done.
    #[tactic(auto, unfolding(osc_machine::specs::Turns::hart_ask, osc_machine::specs::Turns::hart_told))]
    #[inline(always)]
    fn done_told(&mut self) -> Stepped
        requires { AnswerFits self.old.count (hart_ask self.old) turns.Done }
        ensures { made self.new result ≡ turned (hart_told self.old turns.Done) }
    {
        match self.place {
            Place::Outside => self.tell_user(Told::Done),
            Place::Working { .. } => self.work(0),
            Place::GivingBoxes { next } => match self.lift() {
                Some(kernel) => self.box_gone(next, kernel),
                None => NOTHING,
            },
            Place::Returning { .. } => self.give_kernel(),
            Place::Returned { resume, label, .. } => self.resume(resume, label),
            Place::TakingBoxes { .. } => NOTHING,
            Place::FirstWord { .. } => NOTHING,
            Place::SecondWord { .. } => NOTHING,
        }
    }

    /// The answer to the action that the hart asked for. It tells the event that commits with it, and
    /// what the step shows beside the objects that were let go.
    #[inline(always)]
    pub fn told(&mut self, told: HartTold) -> Stepped
        requires fits { AnswerFits self.old.count (hart_ask self.old) (said told) }
        requires within { AnswerWithin self.old (said told) }
        ensures { made self.new result ≡ turned (hart_told self.old (said told)) }
    {
        stays_exactly();
        match told {
            HartTold::Busy => NOTHING,
            HartTold::Box(hart_box) => self.box_told(hart_box),
            HartTold::Kernel(kernel) => self.kernel_told(kernel),
            HartTold::Word(word) => self.word_told(word),
            HartTold::Gate(version) => self.gate_told(version),
            HartTold::OldVersion => self.version_told(),
            HartTold::Done => self.done_told(),
        }
    }
}
