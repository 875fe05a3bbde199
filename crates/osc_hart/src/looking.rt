//! How an address is translated: by the cache of the box, else by a walk, one entry at a time.

ghost use Rattle.std.specs.Prelude.{◌≡◌, ◌<◌};
ghost use Rattle.osc_sv39.specs.declared.entries.Access.{Access};
ghost use Rattle.osc_paging.specs.Boxes.{look};
ghost use Rattle.osc_guest.specs.User.{box_or_new};
ghost use Rattle.osc_isa.specs.Integer as integer;
ghost use Rattle.osc_guest.specs.Looking.{box_filled};

use crate::accesses::{first_stage, kind_of, page_fault, page_of, reserved_version};
use crate::pages::is_canonical;
use crate::state::HartState;
use osc_cache::{HartBox, Look};
use osc_guest::{After, MemoryAccess, Place};
use osc_sv39::{Access, Mapping, PteEntry, allows};
use osc_word::Choice;

/// The address of the next instruction.
pub fn next(pc: u64) -> u64
    ensures { result ≡ integer.next pc }
{
    pc.wrapping_add(4)
}

/// What the cache of a box says of a page. A hart without its box finds nothing.
#[inline(always)]
fn look_in(held: &Option<HartBox>, page: u64, access: Access) -> Look
    ensures { result ≡ look (box_or_new held.now).slots page access }
{
    match held {
        Some(hart_box) => hart_box.look(page, access),
        None => Look::Miss,
    }
}

/// Keeps a translation in the cache of a box.
fn fill_in(held: &mut Option<HartBox>, page: u64, mapping: Mapping)
    ensures { held.new ≡ box_filled page mapping held.old }
{
    if let Some(hart_box) = held {
        hart_box.fill(page, mapping);
    }
}

impl HartState {
    ghost use Rattle.std.specs.Prelude.{◌≡◌, ◌<◌};
    ghost use Rattle.osc_guest.specs.Looking as looking;
    ghost use Rattle.osc_hart.specs.Answers.{made};
    ghost use Rattle.osc_hart.specs.Sound.{IsAccess};

    /// An access without a translation faults.
    #[inline(never)]
    fn lose(&mut self, access: MemoryAccess) -> Option<Choice>
        requires untouched { self.old.touch ≡ None }
        ensures { made self.new result ≡ looking.lost access self.old.hart }
    {
        let touch = self.touch(&access, false);
        let choice = self.fault(page_fault(kind_of(access.what)), access.address);
        self.touch = Some(touch);
        choice
    }

    /// A store-conditional that fails commits, and its register gets 1.
    #[inline(never)]
    pub fn fail_conditional(&mut self, access: MemoryAccess) -> Option<Choice>
        requires register { access.rd < 32 }
        requires untouched { self.old.touch ≡ None }
        ensures { made self.new result ≡ looking.sc_failed access self.old.hart }
    {
        self.regs.set(access.rd, 1);
        self.pc = next(self.pc);
        self.reservation = None;
        self.place = Place::GiveBox { after: After::Run };
        self.commit(Choice::Fail)
    }

    /// The frame of an access is known.
    #[tactic(auto, unfolding(osc_guest::specs::Looking::reached))]
    #[inline(always)]
    fn reach(&mut self, access: &MemoryAccess, frame: u32) -> Option<Choice>
        requires access { IsAccess access.now }
        requires untouched { self.old.touch ≡ None }
        ensures { made self.new result ≡ looking.reached access.now frame self.old.hart }
    {
        let version = reserved_version(self.reservation, access, frame);
        match first_stage(access, version) {
            Some(stage) => {
                self.place = Place::Access {
                    access: *access,
                    frame,
                    stage,
                };
                None
            }
            None => self.fail_conditional(*access),
        }
    }

    /// Looks for the page of an access in the cache, and begins to walk where it is not there.
    #[tactic(auto, unfolding(osc_guest::specs::Looking::looked_up))]
    #[inline(always)]
    pub fn look_up(&mut self, access: &MemoryAccess) -> Option<Choice>
        requires access { IsAccess access.now }
        requires untouched { self.old.touch ≡ None }
        ensures { made self.new result ≡ looking.looked_up access.now self.old.hart }
    {
        let page = page_of(access);
        if !is_canonical(self.levels, page) {
            return self.lose(*access);
        }
        match look_in(&self.held, page, kind_of(access.what)) {
            Look::Hit(frame) => {
                self.hits = self.hits.saturating_add(1);
                self.reach(access, frame)
            }
            Look::Miss => {
                self.walks = self.walks.saturating_add(1);
                self.place = Place::Walk {
                    access: *access,
                    level: self.levels.saturating_sub(1),
                    table: self.root,
                };
                None
            }
        }
    }

    /// A leaf that lets the access pass is kept in the cache.
    fn find_leaf(&mut self, access: &MemoryAccess, mapping: Mapping) -> Option<Choice>
        requires access { IsAccess access.now }
        requires untouched { self.old.touch ≡ None }
        ensures { made self.new result ≡ looking.leaf_found access.now mapping self.old.hart }
    {
        if mapping.frame < self.frames && allows(mapping.bits, kind_of(access.what)) {
            fill_in(&mut self.held, page_of(access), mapping);
            self.reach(access, mapping.frame)
        } else {
            self.lose(*access)
        }
    }

    /// A link leads to the table of the next level.
    fn find_link(&mut self, access: &MemoryAccess, level: u8, frame: u32) -> Option<Choice>
        requires access { IsAccess access.now }
        requires untouched { self.old.touch ≡ None }
        ensures { made self.new result ≡ looking.link_found access.now level frame self.old.hart }
    {
        if frame < self.frames {
            self.place = Place::Walk {
                access: *access,
                level,
                table: frame,
            };
            None
        } else {
            self.lose(*access)
        }
    }

    /// What the hart makes of an entry of this level.
    #[tactic(auto, unfolding(osc_guest::specs::Looking::walked))]
    #[inline(never)]
    pub fn walk(&mut self, access: &MemoryAccess, level: u8, entry: PteEntry) -> Option<Choice>
        requires access { IsAccess access.now }
        requires untouched { self.old.touch ≡ None }
        ensures { made self.new result ≡ looking.walked access.now level entry self.old.hart }
    {
        match entry {
            PteEntry::Leaf(frame, bits) if level == 0 => {
                self.find_leaf(access, Mapping { frame, bits })
            }
            PteEntry::Table(frame) if level > 0 => self.find_link(access, level - 1, frame),
            _ => self.lose(*access),
        }
    }
}
