//! What the harts share.

use crate::boxes::Homes;
use crate::laws::{steps_free, steps_keep};
use crate::{gates, words};
use osc_guest::Ask;
use osc_machine::HartAsk;
use osc_machine::laws::giving_looks_away;
use osc_turns::{Hart, HartBox, HartTold, Kernel, NOTHING, Stepped};
use osc_word::{Config, Frame};
use std::marker::Model;

/// What the harts of a machine share: the words and the gates of memory, the boxes and the kernel while
/// they are at home, and the configuration that it began with.
#[derive(Drop)]
pub struct Machine {
    pub(crate) words: Vec<u64>,
    pub(crate) gates: Vec<u64>,
    pub(crate) boxes: Homes,
    pub(crate) kernel: Option<Kernel>,
    pub(crate) config: Config,
}

impl Model for Machine {
    ghost use Rattle.std.specs.Prelude.{map};
    ghost use Rattle.osc_core.specs.Shared.{Shared, gate_of};

    ghost Value = { Shared };

    ghost view = { λ m. record {
      words = m.words.items;
      gates = map gate_of m.gates.items;
      boxes = m.boxes;
      kernel = m.kernel;
      config = m.config;
    } };
}

impl Machine {
    ghost use Rattle.std.specs.Prelude.{ℕ, ◌≡◌, ◌<◌, length, Some, IfSome, option_map, slice_get, slice_set};
    ghost use Rattle.osc_machine.specs.declared.HartAsk.TheVariants as does;
    ghost use Rattle.osc_turns.specs.Answers.{said, AnswerFits};
    ghost use Rattle.osc_core.specs.Acting.{IsReady, IsDone, alone, gate_told, gates_told};
    ghost use Rattle.osc_core.specs.Ends.{GivesFreed, freed_home};
    ghost use Rattle.osc_core.specs.Shared.{state_of, seen, shown};
    ghost use Rattle.osc_machine.specs.Views.{freed_in};
    ghost use Rattle.osc_core.specs.Sound.{Sound};
    ghost use Rattle.osc_core.specs.Told.{Reached, JournalTells};
    ghost use Rattle.osc_word.specs.declared.settings.Config.{Config};
    ghost use Rattle.osc_machine.specs.Parts.{HartState};
    ghost use Rattle.osc_machine.specs.Step.{acted, step};
    ghost use Rattle.osc_machine.specs.Turns.{guest_ask, hart_ask};

    /// A box comes home.
    #[inline(always)]
    fn give_box(&mut self, number: u32, hart_box: HartBox)
        ensures { self.new ≡ record self.old { boxes = slice_set self.old.boxes number (Some hart_box) } }
    {
        self.boxes.give(number, hart_box);
    }

    /// Takes a gate; None where it is taken or its version is the last one.
    fn take_gate(&mut self, frame: Frame, only: Option<u64>) -> Option<HartTold>
        ensures told { option_map said result ≡ gate_told only (slice_get self.old.gates frame) }
        ensures gates { self.new ≡ record self.old { gates = gates_told self.old.gates frame (gate_told only (slice_get self.old.gates frame)) } }
        ensures fits { (harts : ℕ) → IfSome (gate_told only (slice_get self.old.gates frame)) (AnswerFits harts (does.TakeGate frame only)) }
    {
        gates::take(&mut self.gates, frame, only)
    }

    /// Does the next action of a hart's guest part, and answers what the hart is to be told of it. None where
    /// the thing that it wants is taken and where it is at rest: then nothing changes.
    #[inline(always)]
    fn act_for_guest(&mut self, ask: Ask, hart: &mut Hart) -> Option<HartTold>
        requires asks { hart_ask hart.old ≡ guest_ask hart.old.number ask }
        requires ready { IsReady self.old hart.old }
        ensures done { IsDone self.old self.new hart.old hart.new (option_map said result) }
        ensures freed { GivesFreed (hart_ask hart.old) hart.old.kernel self.new.kernel }
    {
        giving_looks_away();
        match ask {
            Ask::TakeBox => self.boxes.take(hart.number()),
            Ask::Load(at) => Some(HartTold::Word(words::load(&self.words, at))),
            Ask::GiveBox => {
                let number = hart.number();
                let hart_box = hart.hand_box();
                self.give_box(number, hart_box);
                Some(HartTold::Done)
            }
            Ask::Store { at, value } => {
                words::store(&mut self.words, at, value);
                Some(HartTold::Done)
            }
            Ask::TakeGate { frame, only } => self.take_gate(frame, only),
            Ask::OpenGate { frame, version } => {
                gates::open(&mut self.gates, frame, version);
                Some(HartTold::Done)
            }
            Ask::Kernel(_) => self.kernel.take().map(HartTold::Kernel),
            Ask::Rest => None,
        }
    }

    /// Does the next action of a hart's call, and answers the same.
    #[inline(never)]
    fn act_for_call(&mut self, hart: &mut Hart) -> Option<HartTold>
        requires { IsReady self.old hart.old }
        ensures done { IsDone self.old self.new hart.old hart.new (option_map said result) }
        ensures freed { GivesFreed (hart_ask hart.old) hart.old.kernel self.new.kernel }
    {
        giving_looks_away();
        match hart.ask() {
            HartAsk::TakeBox(number) => self.boxes.take(number),
            HartAsk::GiveBox(number) => {
                let hart_box = hart.hand_box();
                self.give_box(number, hart_box);
                Some(HartTold::Done)
            }
            HartAsk::ChangeBox(number) => self.boxes.change(number, hart),
            HartAsk::Load(at) => Some(HartTold::Word(words::load(&self.words, at))),
            HartAsk::Store { at, value } => {
                words::store(&mut self.words, at, value);
                Some(HartTold::Done)
            }
            HartAsk::TakeGate { frame, only } => self.take_gate(frame, only),
            HartAsk::OpenGate { frame, version } => {
                gates::open(&mut self.gates, frame, version);
                Some(HartTold::Done)
            }
            HartAsk::TakeKernel => self.kernel.take().map(HartTold::Kernel),
            HartAsk::GiveKernel => {
                self.kernel = Some(hart.hand_kernel());
                Some(HartTold::Done)
            }
            HartAsk::Rest => None,
        }
    }

    /// Does a hart's next action, and answers what the hart is to be told of it.
    #[inline(always)]
    fn act(&mut self, hart: &mut Hart) -> Option<HartTold>
        requires { IsReady self.old hart.old }
        ensures done { IsDone self.old self.new hart.old hart.new (option_map said result) }
        ensures freed { GivesFreed (hart_ask hart.old) hart.old.kernel self.new.kernel }
    {
        match hart.guest_ask() {
            Some(ask) => self.act_for_guest(ask, hart),
            None => self.act_for_call(hart),
        }
    }

    /// One step of this hart, which is ready for it.
    #[inline(always)]
    fn turn(&mut self, hart: &mut Hart) -> Stepped
        requires { IsReady self.old hart.old }
        ensures step { shown (alone self.new hart.new) result ≡ seen (acted (alone self.old hart.old) 0 hart.old (hart_ask hart.old)) }
        ensures freed { GivesFreed (hart_ask hart.old) hart.old.kernel self.new.kernel }
    {
        match self.act(hart) {
            Some(told) => hart.told(told),
            None => NOTHING,
        }
    }

    /// One of these harts makes a step, and is ready for it.
    #[inline(always)]
    fn step_ready(&mut self, harts: &mut [Hart], hart: usize) -> Stepped
        requires hart { hart < length harts.old }
        requires ready { (h : HartState) → slice_get harts.old hart ≡ Some h → IsReady self.old h }
        ensures step { shown (state_of self.new harts.new) result ≡ seen (step (state_of self.old harts.old) hart) }
        ensures freed { (h : HartState) → slice_get harts.old hart ≡ Some h → GivesFreed (hart_ask h) h.kernel self.new.kernel }
    {
        self.turn(&mut harts[hart])
    }

    /// A step of one of its harts: it does the hart's next action and tells the hart what came of it. It
    /// answers the event that commits with the step and what the step shows beside objects that were let go,
    /// which the kernel tells that came home; where the thing that the hart wants is taken, and where the hart is at rest, nothing changes.
    /// In a run from the start the journal then tells what the kernel keeps of each process.
    #[inline(always)]
    pub fn step(&mut self, harts: &mut [Hart], hart: usize) -> Stepped
        requires hart { hart < length harts.old }
        requires sound { Sound (state_of self.old harts.old) }
        ensures step { shown (state_of self.new harts.new) result ≡ seen (step (state_of self.old harts.old) hart) }
        ensures freed { (h : HartState) → slice_get harts.old hart ≡ Some h
            → freed_in (step (state_of self.old harts.old) hart).shows ≡ freed_home (hart_ask h) self.new.kernel }
        ensures sound { Sound (state_of self.new harts.new) }
        ensures journal { (config : Config) → Reached config (state_of self.old harts.old) → JournalTells config (state_of self.new harts.new) }
    {
        steps_keep();
        steps_free();
        self.step_ready(harts, hart)
    }
}
