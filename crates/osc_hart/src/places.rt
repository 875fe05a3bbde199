//! What a hart asks for at its place, and what it makes of an answer there.

ghost use Rattle.std.specs.Prelude.{◌≡◌};
ghost use Rattle.osc_guest.specs.Asks as asks;
ghost use Rattle.osc_guest.specs.Told as definition;
ghost use Rattle.osc_hart.specs.Sound.{IsAccess};

use crate::accesses::{
    choice_of, fetch_at, number_kept, page_of, reservation_after, word_place, word_stored,
};
use crate::answers::Told;
use crate::instructions::MISALIGNED_TARGET;
use crate::looking::next;
use crate::pages::entry_index;
use crate::state::HartState;
use osc_cache::HartBox;
use osc_guest::{After, Ask, MemoryAccess, Place, Stage, What};
use osc_sv39::read_pte;
use osc_word::{ANSWER_REGISTER, Call, Choice, Order, Request, Resume, WordAt};

/// What an access asks for.
#[inline(always)]
fn access_ask(access: &MemoryAccess, frame: u32, stage: Stage) -> Ask
    requires { IsAccess access.now }
    ensures { result ≡ asks.access_ask access.now frame stage }
{
    match stage {
        Stage::Fetch | Stage::Load | Stage::GatedLoad { .. } => {
            Ask::Load(word_place(access, frame))
        }
        Stage::TakeGate { only } => Ask::TakeGate { frame, only },
        Stage::GatedStore { found, .. } => Ask::Store {
            at: word_place(access, frame),
            value: word_stored(access, found),
        },
    }
}

/// Where a hart is once it gave its box.
fn place_then(after: After) -> Place
    ensures { result ≡ definition.place_then after }
{
    match after {
        After::Run => Place::Run,
        After::Call(request) => Place::Call { request },
        After::Idle => Place::Idle,
        After::Rest => Place::Rest,
    }
}

impl HartState {
    ghost use Rattle.std.specs.Prelude.{◌≡◌, ◌<◌, true, Bool};
    ghost use Rattle.osc_paging.specs.Boxes.{BoxState};
    ghost use Rattle.osc_guest.specs.User as user;
    ghost use Rattle.osc_guest.specs.Asks as asks;
    ghost use Rattle.osc_guest.specs.Orders as orders;
    ghost use Rattle.osc_guest.specs.Told as definition;
    ghost use Rattle.osc_guest.specs.Fits.{Fits, last_version};
    ghost use Rattle.osc_hart.specs.Answers.{made, said};
    ghost use Rattle.osc_hart.specs.Sound.{IsAccess, IsFormed, PlaceFits, StageFits};

    /// The next action.
    #[tactic(auto, unfolding(osc_guest::specs::Asks::ask))]
    #[inline(always)]
    pub fn next_action(&self) -> Ask
        ensures { result ≡ asks.ask self.now.hart }
    {
        match &self.place {
            Place::Run | Place::Idle => Ask::TakeBox,
            Place::Walk {
                access,
                level,
                table,
            } => Ask::Load(WordAt {
                frame: *table,
                index: entry_index(self.levels, *level, page_of(access)),
            }),
            Place::Access {
                access,
                frame,
                stage,
            } => access_ask(access, *frame, *stage),
            Place::OpenGate { frame, version } => Ask::OpenGate {
                frame: *frame,
                version: *version,
            },
            Place::GiveBox { .. } => Ask::GiveBox,
            Place::Call { request } => Ask::Kernel(*request),
            Place::Rest => Ask::Rest,
        }
    }

    /// The fetch of an instruction begins. A misaligned pc, which only the first of a thread can
    /// be, is found here.
    #[inline(always)]
    fn begin_fetch(&mut self) -> Option<Choice>
        requires untouched { self.old.touch ≡ None }
        ensures { made self.new result ≡ orders.begun self.old.hart }
    {
        let pc = self.pc;
        if pc.is_multiple_of(4) {
            self.look_up(&fetch_at(pc))
        } else {
            self.fault(MISALIGNED_TARGET, pc)
        }
    }

    /// The hart looks at the order in its box. A running hart begins its next instruction.
    #[inline(always)]
    fn look_at_order(&mut self, running: bool, mut hart_box: HartBox) -> Option<Choice>
        requires untouched { self.old.touch ≡ None }
        ensures { made self.new result ≡ orders.ordered running hart_box.order hart_box self.old.hart }
    {
        match *hart_box.order() {
            Order::Stop => {
                hart_box.set_order(Order::Empty);
                self.held = Some(hart_box);
                self.call(Request::Idle);
                None
            }
            Order::Over => {
                self.held = Some(hart_box);
                self.place = Place::GiveBox { after: After::Rest };
                None
            }
            Order::Start(start) if !running => {
                hart_box.set_order(Order::Empty);
                self.held = Some(hart_box);
                self.start(&start);
                self.begin_fetch()
            }
            Order::Empty if !running => {
                self.held = Some(hart_box);
                self.place = Place::GiveBox { after: After::Idle };
                None
            }
            _ => {
                self.held = Some(hart_box);
                self.begin_fetch()
            }
        }
    }

    /// The hart took its box.
    #[inline(always)]
    fn take_box(&mut self, hart_box: HartBox) -> Option<Choice>
        requires untouched { self.old.touch ≡ None }
        ensures { made self.new result ≡ definition.told_at self.old.hart.place self.old.hart (definition.Box hart_box) }
    {
        match self.place {
            Place::Run => self.look_at_order(true, hart_box),
            Place::Idle => self.look_at_order(false, hart_box),
            _ => None,
        }
    }

    /// An access is done and commits, and the hart goes on at a place. It found this word.
    #[inline(always)]
    fn complete(&mut self, access: &MemoryAccess, word: u64, place: Place) -> Option<Choice>
        requires formed { IsFormed access.now }
        requires place { PlaceFits place }
        requires untouched { self.old.touch ≡ None }
        ensures { made self.new result ≡ definition.completed access.now word place self.old.hart }
    {
        let touch = self.touch(access, true);
        self.regs.set(access.rd, number_kept(access, word));
        self.pc = next(self.pc);
        self.place = place;
        let choice = self.commit(choice_of(access.what));
        self.touch = Some(touch);
        choice
    }

    /// An access is done under the gate of its frame, which had the version `found` and is left with
    /// the version `left`.
    #[inline(always)]
    fn complete_gated(
        &mut self,
        access: &MemoryAccess,
        frame: u32,
        found: u64,
        left: u64,
        word: u64,
    ) -> Option<Choice>
        requires formed { IsFormed access.now }
        requires untouched { self.old.touch ≡ None }
        ensures { made self.new result ≡ definition.gate_done access.now frame found left word self.old.hart }
    {
        self.reservation = reservation_after(access, frame, found, self.reservation);
        self.complete(
            access,
            word,
            Place::OpenGate {
                frame,
                version: left,
            },
        )
    }

    /// The word was loaded under the gate: a load-reserved is done, all else stores.
    #[inline(always)]
    fn load_gated(
        &mut self,
        access: &MemoryAccess,
        frame: u32,
        version: u64,
        word: u64,
    ) -> Option<Choice>
        requires access { IsAccess access.now }
        requires version { version < last_version }
        requires untouched { self.old.touch ≡ None }
        ensures { made self.new result ≡ definition.gated access.now.what access.now frame version word self.old.hart }
    {
        if let What::Lr(_) = access.what {
            return self.complete_gated(access, frame, version, version, word);
        }
        self.place = Place::Access {
            access: *access,
            frame,
            stage: Stage::GatedStore {
                version,
                found: word,
            },
        };
        None
    }

    /// A word was loaded within an access.
    #[inline(always)]
    fn take_data(
        &mut self,
        access: &MemoryAccess,
        frame: u32,
        stage: Stage,
        word: u64,
    ) -> Option<Choice>
        requires access { IsAccess access.now }
        requires stage { StageFits stage access.now.width }
        requires untouched { self.old.touch ≡ None }
        ensures { made self.new result ≡ definition.access_told stage access.now frame self.old.hart (definition.Word word) }
    {
        match stage {
            Stage::Fetch => self.fetch(access, word),
            Stage::Load => self.complete(access, word, Place::GiveBox { after: After::Run }),
            Stage::GatedLoad { version } => self.load_gated(access, frame, version, word),
            Stage::TakeGate { .. } | Stage::GatedStore { .. } => None,
        }
    }

    /// A word was loaded.
    #[inline(always)]
    fn take_word(&mut self, word: u64) -> Option<Choice>
        requires untouched { self.old.touch ≡ None }
        ensures { made self.new result ≡ definition.told_at self.old.hart.place self.old.hart (definition.Word word) }
    {
        match self.place {
            Place::Walk { access, level, .. } => self.walk(&access, level, read_pte(word)),
            Place::Access {
                access,
                frame,
                stage,
            } => self.take_data(&access, frame, stage, word),
            _ => None,
        }
    }

    /// The gate of a frame was taken.
    fn take_gate(&mut self, version: u64) -> Option<Choice>
        requires version { version < last_version }
        requires untouched { self.old.touch ≡ None }
        ensures { made self.new result ≡ definition.told_at self.old.hart.place self.old.hart (definition.Gate version) }
    {
        if let Place::Access {
            access,
            frame,
            stage: Stage::TakeGate { .. },
        } = self.place
        {
            self.place = Place::Access {
                access,
                frame,
                stage: Stage::GatedLoad { version },
            };
        }
        None
    }

    /// The gate of a frame has another version than a store-conditional asked for.
    fn miss_gate(&mut self) -> Option<Choice>
        requires untouched { self.old.touch ≡ None }
        ensures { made self.new result ≡ definition.told_at self.old.hart.place self.old.hart definition.OldVersion }
    {
        match self.place {
            Place::Access {
                access,
                stage: Stage::TakeGate { only: Some(_) },
                ..
            } => self.fail_conditional(access),
            _ => None,
        }
    }

    /// The action was done.
    #[inline(always)]
    fn finish(&mut self) -> Option<Choice>
        requires untouched { self.old.touch ≡ None }
        ensures { made self.new result ≡ definition.told_at self.old.hart.place self.old.hart definition.Done }
    {
        match self.place {
            Place::Access {
                access,
                frame,
                stage: Stage::GatedStore { version, found },
            } => return self.complete_gated(&access, frame, version, version + 1, found),
            Place::OpenGate { .. } => self.place = Place::GiveBox { after: After::Run },
            Place::GiveBox { after } => {
                self.place = place_then(after);
                self.held = None;
            }
            _ => {}
        }
        None
    }

    /// The call of a thread has this answer.
    fn return_from(&mut self, resume: Resume)
        ensures { self.new ≡ record self.old { hart = definition.resumed resume self.old.hart } }
    {
        match resume {
            Resume::Return(value) => {
                self.regs.set(ANSWER_REGISTER, value);
                self.pc = next(self.pc);
                self.place = Place::Run;
            }
            Resume::Again => {}
            Resume::Idle => self.place = Place::Idle,
            Resume::Fault(fault) => {
                self.place = Place::Call {
                    request: Request::Call(Call::End(fault)),
                };
            }
        }
    }

    /// The kernel was given back.
    fn resume(&mut self, resume: Resume) -> Option<Choice>
        requires untouched { self.old.touch ≡ None }
        ensures { made self.new result ≡ definition.told_at self.old.hart.place self.old.hart (definition.Resumed resume) }
    {
        match self.place {
            Place::Call {
                request: Request::Idle,
            } => self.place = Place::Idle,
            Place::Call {
                request: Request::Call(_),
            } => self.return_from(resume),
            _ => {}
        }
        None
    }

    /// What the hart makes of the answer to its action.
    #[tactic(auto, unfolding(osc_guest::specs::Told::told, osc_guest::specs::Asks::ask))]
    #[inline(always)]
    pub fn answer(&mut self, told: Told) -> Option<Choice>
        requires fits { Fits (asks.ask self.old.hart) (said told) }
        requires untouched { self.old.touch ≡ None }
        ensures { made self.new result ≡ definition.told self.old.hart (said told) }
    {
        match told {
            Told::Box(hart_box) => self.take_box(hart_box),
            Told::Word(word) => self.take_word(word),
            Told::Gate(version) => self.take_gate(version),
            Told::OldVersion => self.miss_gate(),
            Told::Resumed(resume) => self.resume(resume),
            Told::Done => self.finish(),
            Told::Busy => None,
        }
    }
}
