//! What follows once the word of an instruction was loaded.

use crate::accesses::{access_of, found_by, kind_of, misaligned};
use crate::state::HartState;
use crate::words::is_aligned;
use osc_guest::{After, MemoryAccess, Place};
use osc_int::{IntDone, int_step};
use osc_rv::{Instr, decode};
use osc_word::{Call, Choice, Request};

/// The cause of a word that is no instruction, and that of a breakpoint.
const ILLEGAL_INSTRUCTION: u8 = 2;

const BREAKPOINT: u8 = 3;

/// The cause of a jump to an address that is not divisible by 4.
pub const MISALIGNED_TARGET: u8 = 0;

impl HartState {
    ghost use Rattle.std.specs.Prelude.{◌≡◌};
    ghost use Rattle.osc_isa.specs.Traps as traps;
    ghost use Rattle.osc_rv.specs.Instr.{instr_of};
    ghost use Rattle.osc_guest.specs.Accesses as accesses;
    ghost use Rattle.osc_guest.specs.Instructions as instructions;
    ghost use Rattle.osc_guest.specs.Looking as looking;
    ghost use Rattle.osc_hart.specs.Answers.{made};
    ghost use Rattle.osc_hart.specs.Sound.{IsFormed, DoneFits};

    /// An access is looked up, unless its address is misaligned.
    #[inline(always)]
    pub fn access(&mut self, access: &MemoryAccess) -> Option<Choice>
        requires formed { IsFormed access.now }
        requires untouched { self.old.touch ≡ None }
        ensures { made self.new result ≡ instructions.unless_misaligned (accesses.alignment_trap access.now) access.now self.old.hart }
    {
        if is_aligned(access.address, access.width) {
            self.look_up(access)
        } else {
            self.fault(misaligned(kind_of(access.what)), access.address)
        }
    }

    /// An instruction that touches no data commits.
    #[inline(always)]
    fn step(&mut self, pc: u64) -> Option<Choice>
        requires untouched { self.old.touch ≡ None }
        ensures { made self.new result ≡ instructions.stepped self.old.hart.regs pc self.old.hart }
    {
        self.pc = pc;
        self.place = Place::GiveBox { after: After::Run };
        self.commit(Choice::Plain)
    }

    /// A word that is no instruction faults.
    fn fail(&mut self) -> Option<Choice>
        requires untouched { self.old.touch ≡ None }
        ensures { made self.new result ≡ looking.faulted (traps.illegal_at self.old.hart.pc) self.old.hart }
    {
        let pc = self.pc;
        self.fault(ILLEGAL_INSTRUCTION, pc)
    }

    /// An instruction that does this.
    #[tactic(auto, unfolding(osc_guest::specs::Instructions::executed))]
    #[inline(always)]
    fn execute(&mut self, instr: &Instr, done: IntDone) -> Option<Choice>
        requires done { DoneFits done }
        requires untouched { self.old.touch ≡ None }
        ensures { made self.new result ≡ instructions.executed instr.now done self.old.hart }
    {
        match done {
            IntDone::Set { rd, value, pc } => {
                self.regs.set(rd, value);
                self.step(pc)
            }
            IntDone::Go { pc } => self.step(pc),
            IntDone::Call => {
                let call = Call::of(&self.regs);
                self.call(Request::Call(call));
                None
            }
            IntDone::Break => {
                let pc = self.pc;
                self.fault(BREAKPOINT, pc)
            }
            IntDone::BadTarget { target } => self.fault(MISALIGNED_TARGET, target),
            _ => match access_of(instr, &done) {
                Some(access) => self.access(&access),
                None => self.fail(),
            },
        }
    }

    /// The word of an instruction, which may be none.
    #[inline(always)]
    fn decode(&mut self, word: u32) -> Option<Choice>
        requires untouched { self.old.touch ≡ None }
        ensures { made self.new result ≡ instructions.decoded (instr_of word) self.old.hart }
    {
        match &decode(word) {
            Some(instr) => {
                let done = int_step(instr, &self.regs, self.pc);
                self.execute(instr, done)
            }
            None => self.fail(),
        }
    }

    /// The word that holds the instruction was loaded.
    #[inline(always)]
    pub fn fetch(&mut self, access: &MemoryAccess, word: u64) -> Option<Choice>
        requires formed { IsFormed access.now }
        requires width { access.now.width ≡ 4 }
        requires untouched { self.old.touch ≡ None }
        ensures { made self.new result ≡ instructions.fetched access.now word self.old.hart }
    {
        let touch = self.touch(access, true);
        let choice = self.decode(found_by(access, word) as u32);
        self.touch = Some(touch);
        choice
    }
}
