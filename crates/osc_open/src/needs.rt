//! The frames that the start needs.

ghost use Rattle.std.specs.Prelude.{ℕ, ◌≡◌, ◌<◌, ◌≤◌, ◌/◌, length, map};
ghost use Rattle.osc_image.specs.Frames.{different};
ghost use Rattle.osc_sv39.specs.Walk.{IsLevels};
ghost use Rattle.osc_open.specs.Laying.{AreImagePages, frames_for, number_of_page, pages_of};

use osc_sv39::PteBits;
use osc_word::Page;
use osc_word::address_map::STACK_PAGES;

/// The pages that a leaf table has entries for.
const LEAF_TABLE: u64 = 512;

/// The pages below one entry of a table two levels above the pages.
const DIRECTORY: u64 = 512 * 512;

/// How many tables the pages have that are for so many pages each.
fn tables_over(pages: &[(Page, PteBits)], size: u64) -> u64
    requires size { 0 < size }
    requires pages { AreImagePages 16 (pages_of pages.now) }
    ensures count { result ≡ different (map (λ (page : ℕ). page / size) (map number_of_page (pages_of pages.now))) }
    ensures few { result ≤ length pages.now }
{
    let mut count = 0;
    // The number of the first table that no page so far is in or above.
    let mut next = 0;
    for (page, _) in pages {
        let table = page / size;
        if next <= table {
            next = table + 1;
            count += 1;
        }
    }
    count
}

/// How many frames a machine with 3 or 4 levels of page tables needs for the start: those of the
/// pages, of the stack's pages, and of the page tables of both.
pub fn needed_frames(pages: &[(Page, PteBits)], levels: u8) -> u64
    requires levels { IsLevels levels }
    requires pages { AreImagePages 16 (pages_of pages.now) }
    requires few { length pages.now ≤ 1048576 }
    ensures { result ≡ frames_for levels (pages_of pages.now) }
{
    // The topmost table and the two tables of the stack, which has none of those in common with an
    // image. The fourth level has one table over both.
    let others = u64::from(levels);
    let tables = tables_over(pages, DIRECTORY) + tables_over(pages, LEAF_TABLE);
    pages.len() as u64 + STACK_PAGES + others + tables
}
