//! Looks at a process.

ghost use Rattle.std.specs.Prelude.{◌≡◌, ◌-◌, Some};
ghost use Rattle.osc_calls.specs.HeapPlans.{block_step, free_step, header_step, realloc_step};
ghost use Rattle.osc_mark.specs.Grants.{owner};
ghost use Rattle.osc_paging.specs.KeptTables.{root_of};
ghost use Rattle.osc_space.specs.Header.{header_at};
ghost use Rattle.osc_slot.specs.Heap.{block_of_user};
ghost use Rattle.osc_space.specs.Objects.{mark};
ghost use Rattle.osc_tables.specs.Calls.{IsOpen};

use crate::Process;
use osc_calls::Begun;
use osc_mark::Marks;
use osc_shadow::{block_word, header_at};
use osc_space::HeaderLook;
use osc_tables::Tables;
use osc_word::address_map::FIRST_SHADOW_PAGE;
use osc_word::{Config, Frame, HeapKind, ObjectNo, Page, Pid, Waiting};

impl Process {
    /// How it ended, once the call of its end has returned: 0 to 63, or 70 for an end by a fault.
    pub fn status(&self) -> Option<u8>
        ensures { result ≡ self.now.status }
    {
        self.status
    }

    /// The process that it is a child of; None for the first.
    pub fn parent(&self) -> Option<Pid>
        ensures { result ≡ self.now.parent }
    {
        self.parent
    }

    /// The shadow pages that it granted itself, without those that it inherited.
    pub fn granted(&self) -> u64
        ensures { result ≡ mark self.now.space.objects - self.now.inherited }
    {
        (self.space.marks.next_page() - FIRST_SHADOW_PAGE).saturating_sub(u64::from(self.inherited))
    }

    /// The frame of its topmost table.
    pub fn root(&self) -> Frame
        requires { IsOpen self.now.space.tables }
        ensures { root_of self.now.space.tables ≡ Some result }
    {
        self.space.tables.root()
    }

    /// The object that a page was granted to, live or dead; None exactly where the page was not
    /// granted.
    pub fn owner(&self, page: Page) -> Option<ObjectNo>
        ensures { result ≡ owner self.now.space.objects page }
    {
        self.space.marks.owner(page)
    }

    /// Its shadow pages, and the objects that they were granted to.
    pub fn marks(&self) -> &Marks
        ensures objects { result.now.objects ≡ self.now.space.objects }
        ensures limit { result.now.limit ≡ self.now.space.shadows }
    {
        &self.space.marks
    }

    /// Its page tables.
    pub fn tables(&self) -> &Tables
        ensures { result.now ≡ self.now.space.tables }
    {
        &self.space.tables
    }

    /// The objects that wait, in the order of their calls.
    pub fn waiting(&self) -> &[ObjectNo]
        ensures { result.now ≡ self.now.space.waiting }
    {
        self.waiting.objects()
    }

    /// The same objects, for whoever keeps them.
    pub fn waiting_again(&self) -> Waiting
        ensures { result ≡ self.now.space.waiting }
    {
        self.waiting.copied()
    }

    /// What a free needs before its plan: the two header words of a live object under the heap oscar, and
    /// else nothing.
    pub fn free_step(&self, config: &Config, pointer: u64) -> Begun
        ensures { result ≡ free_step config.now.heap self.now.space pointer }
    {
        match config.heap {
            HeapKind::Oscar => self.object_step(pointer),
            HeapKind::Plain => Begun::Planned,
        }
    }

    /// What a realloc needs before its plan: the two header words of a live object, or of a held block of
    /// the plain heap.
    pub fn realloc_step(&self, config: &Config, pointer: u64) -> Begun
        ensures { result ≡ realloc_step config.now.heap self.now.space pointer }
    {
        match config.heap {
            HeapKind::Oscar => self.object_step(pointer),
            HeapKind::Plain => self.block_step(pointer),
        }
    }

    /// The header words of a live object.
    fn object_step(&self, pointer: u64) -> Begun
        ensures { result ≡ header_step (header_at self.now.space pointer) }
    {
        match header_at(&self.space.tables, &self.space.marks, pointer) {
            HeaderLook::Words(first, second) => Begun::Header(first, second),
            _ => Begun::Planned,
        }
    }

    /// The header words of a held block.
    fn block_step(&self, pointer: u64) -> Begun
        ensures { result ≡ block_step self.now.space.heap.pages (block_of_user self.now.space.heap.held pointer) }
    {
        match self.space.heap.block_at(pointer) {
            Some(block) => Begun::Header(
                block_word(&self.space.heap, block, 0),
                block_word(&self.space.heap, block, 8),
            ),
            None => Begun::Planned,
        }
    }
}
