//! A loaded image.

ghost use Rattle.std.specs.Prelude.{◌≡◌, ℕ, ◌+◌, ◌*◌, ◌^◌, ◌<◌, ◌≤◌, false, length, slice_index, unwrap_or, IfOk, IfSome, MatchOption};
ghost use Rattle.std.specs.Bool.{OnTrue};
ghost use Rattle.osc_sv39.specs.declared.entries.Access.{Access};
ghost use Rattle.osc_image.specs.Image as image;
ghost use Rattle.osc_image.specs.Frames as frames;
ghost use Rattle.osc_image.specs.Form as form;
ghost use Rattle.osc_elf.specs.Segments.{all_shown};
ghost use Rattle.osc_elf.specs.TableNumbers.{tables_of};
ghost use Rattle.osc_sv39.specs.Walk.{IsLevels};

use crate::permitted::{last_end, permitted};
use crate::pieces::{advance, borders, owned_byte, owners, piece_at};
use crate::segment::{PAGE, Segment};
use bitflags::Flags;
use osc_image::ImageFault;
use osc_sv39::{Access, PteBits};
use std::alloc::{AllocError, Global};
use std::marker::Model;

/// The frames of the stack.
const STACK_FRAMES: u64 = 16;

/// The pages of a table of level 1, and of one of level 0.
const DIRECTORY_PAGES: u64 = 512 * 512;

const LEAF_TABLE_PAGES: u64 = 512;

/// A program's entry address and its segments. A page has the joined flags of the segments that touch
/// it, and a segment replaces what it covers of those before it.
///
/// Nothing is copied for each segment: it holds the file once, however its segments overlap, and takes
/// no memory for zeros.
#[derive(Drop)]
pub struct Image {
    entry: u64,
    file: Vec<u8>,
    segments: Vec<Segment>,
    /// The addresses where segments begin and end, and 0, ascending; and for each the index of the last
    /// segment that has it.
    borders: Vec<u64>,
    owners: Vec<Option<usize>>,
    /// For each page up to the last one whether it can be read, written and executed.
    read: Vec<bool>,
    write: Vec<bool>,
    execute: Vec<bool>,
}

impl Model for Image {
    ghost use Rattle.osc_image.specs.Image as image;

    ghost Value = { image.Image };

    ghost use Rattle.osc_elf.specs.Segments.{all_shown};
    ghost use Rattle.osc_elf.specs.Tables.{AreTables};
    ghost use Rattle.osc_elf.specs.Pieces.{ArePieces};

    ghost view = { λ i. record { entry = i.entry; segments = all_shown i.file.items i.segments.items } };

    ghost invariant = { λ i. AreTables i.segments.items i.read.items i.write.items i.execute.items
        × ArePieces i.segments.items i.borders.items i.owners.items };
}

/// The flags of a page's leaf.
fn flags(read: bool, write: bool, execute: bool) -> Option<PteBits>
    ensures { result ≡ image.bits_of read write execute }
{
    if !read && !write && !execute {
        return None;
    }
    let mut bits = PteBits::from_bits_retain(0);
    if read {
        bits.insert(PteBits::R);
    }
    if write {
        bits.insert(PteBits::W);
    }
    if execute {
        bits.insert(PteBits::X);
    }
    Some(bits)
}

impl Image {
    /// The image of the segments, whose bytes stand in the file.
    pub fn new(
        alloc: Global,
        entry: u64,
        file: Vec<u8>,
        segments: Vec<Segment>,
    ) -> Result<Image, AllocError>
        ensures { IfOk result (λ made. made ≡ record { entry = entry; segments = all_shown file.items segments.items }) }
    {
        let borders = borders(alloc, &segments)?;
        let owners = owners(alloc, &segments, &borders)?;
        let limit = last_end(&segments);
        let read = permitted(alloc, &segments, Access::Load, limit)?;
        let write = permitted(alloc, &segments, Access::Store, limit)?;
        let execute = permitted(alloc, &segments, Access::Fetch, limit)?;
        Ok(Image {
            entry,
            file,
            segments,
            borders,
            owners,
            read,
            write,
            execute,
        })
    }

    /// The address of the first instruction (ELF-64, e_entry).
    pub fn entry(&self) -> u64
        ensures { result ≡ self.now.entry }
    {
        self.entry
    }

    /// The number of a page at or below which all mapped pages lie.
    fn limit(&self) -> u64
        ensures beyond { (access : Access) (page : ℕ) → result ≤ page → image.page_permits self.now.segments access page ≡ false }
        ensures bound { result ≤ 1048576 }
    {
        self.read.len() as u64
    }

    /// Whether a page can be accessed so.
    fn permits(&self, access: Access, page: u64) -> bool
        ensures { result ≡ image.page_permits self.now.segments access page }
    {
        let table = match access {
            Access::Load => &self.read,
            Access::Store => &self.write,
            Access::Fetch => &self.execute,
        };
        table.get(page as usize).copied().unwrap_or(false)
    }

    /// The permissions of a page, an address divided by 4096, of R, W and X alone; None exactly where
    /// it is not mapped. What can be written can be read too.
    pub fn page_bits(&self, page: u64) -> Option<PteBits>
        ensures { result ≡ image.bits_at self.now page }
    {
        let read = self.permits(Access::Load, page);
        let write = self.permits(Access::Store, page);
        flags(read, write, self.permits(Access::Fetch, page))
    }

    fn is_mapped(&self, page: u64) -> bool
        ensures value { result ≡ image.is_mapped self.now page }
        ensures bound { OnTrue result (page < 1048576) }
    {
        page < self.limit() && self.page_bits(page).is_some()
    }

    /// The least mapped page at or above one; None exactly where there is none.
    pub fn next_page(&self, from: u64) -> Option<u64>
        ensures bound { IfSome result (λ page. page < 1048576) }
        ensures next { MatchOption result (image.NoneFrom self.now from) (λ page. image.IsNextPage self.now from page) }
    {
        for page in from..self.limit() {
            if self.is_mapped(page) {
                return Some(page);
            }
        }
        None
    }

    /// The byte that was laid last at an address, 0 where none was.
    fn laid_byte(&self, address: u64) -> u8
        ensures { result ≡ image.laid_byte self.now.segments address }
    {
        let piece = piece_at(&self.borders, address);
        owned_byte(&self.file, &self.segments, self.owners[piece], address)
    }

    /// The byte at an address; None exactly where its page is not mapped.
    pub fn byte(&self, address: u64) -> Option<u8>
        ensures { result ≡ image.byte_at self.now address }
    {
        if !self.is_mapped(address / PAGE) {
            return None;
        }
        Some(self.laid_byte(address))
    }

    /// Puts the bytes that were laid last from an address on, 0 where none was.
    fn lay(&self, start: u64, into: &mut [u8])
        requires { start + length into.old < 2 ^ 64 }
        ensures len { length into.new ≡ length into.old }
        ensures each { (i : ℕ) → i < length into.old → slice_index into.new i ≡ image.laid_byte self.now.segments (start + i) }
    {
        let mut piece = piece_at(&self.borders, start);
        for place in 0..into.len() {
            let address = start + place as u64;
            piece = advance(&self.borders, piece, address);
            into[place] = owned_byte(&self.file, &self.segments, self.owners[piece], address);
        }
    }

    /// Puts the 4096 bytes of a page, an address divided by 4096; all are 0 where it is not mapped. The
    /// segments that do not touch the page cost nothing.
    pub fn page_bytes(&self, page: u64, into: &mut [u8])
        requires { length into.old ≡ 4096 }
        ensures len { length into.new ≡ 4096 }
        ensures each { (i : ℕ) → i < 4096 → slice_index into.new i ≡ unwrap_or (image.byte_at self.now (4096 * page + i)) 0 }
    {
        if self.is_mapped(page) {
            self.lay(page * PAGE, into);
        } else {
            into.fill(0);
        }
    }

    /// How many pages are mapped.
    #[tactic(auto, using(crate::proofs::Counting::count_steps))]
    pub fn page_count(&self) -> u64
        ensures count { result ≡ image.page_count self.now }
        ensures bound { result ≤ 1048576 }
    {
        let mut count = 0;
        for page in 0..self.limit() {
            if self.is_mapped(page) {
                count += 1;
            }
        }
        count
    }

    /// How many tables the mapped pages have that are for so many pages each.
    fn tables(&self, size: u64) -> u64
        requires { 0 < size }
        ensures count { result ≡ frames.different (tables_of size (image.pages self.now)) }
        ensures bound { result ≤ 1048576 }
    {
        let mut count = 0;
        // the number of the first table that no page so far is in or above
        let mut next = 0;
        for page in 0..self.limit() {
            if self.is_mapped(page) && next <= page / size {
                next = page / size + 1;
                count += 1;
            }
        }
        count
    }

    /// How many frames a machine with 3 or 4 levels of page tables needs to boot it: its pages, those
    /// of the stack, and the page tables of both.
    pub fn needed_frames(&self, levels: u8) -> u64
        requires { IsLevels levels }
        ensures { result ≡ frames.needed_frames levels self.now }
    {
        // the root and the two tables of the stack, which has none of those in common with an image;
        // the fourth level has one table over both
        let others = u64::from(levels);
        let tables = self.tables(DIRECTORY_PAGES) + self.tables(LEAF_TABLE_PAGES);
        self.page_count() + STACK_FRAMES + others + tables
    }

    /// The least page that can be written and executed.
    fn write_exec(&self) -> Option<u64>
        ensures { result ≡ form.write_exec_below self.now.segments image.page_limit }
    {
        for page in 0..self.limit() {
            if self.permits(Access::Store, page) && self.permits(Access::Fetch, page) {
                return Some(page);
            }
        }
        None
    }

    fn has_entry(&self) -> bool
        ensures { result ≡ form.is_entry self.now }
    {
        self.entry.is_multiple_of(4) && self.permits(Access::Fetch, self.entry / PAGE)
    }

    /// What is wrong with the pages or with the entry.
    #[tactic(auto, unfolding(osc_image::specs::Form::map_fault))]
    pub fn fault(&self) -> Option<ImageFault>
        ensures { result ≡ form.map_fault self.now }
    {
        if let Some(page) = self.write_exec() {
            return Some(ImageFault::WriteExec { page });
        }
        if !self.has_entry() {
            return Some(ImageFault::Entry {
                address: self.entry(),
            });
        }
        None
    }
}
