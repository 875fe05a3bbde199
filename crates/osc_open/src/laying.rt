//! How pages are laid: the tables that a page lacks first, and then its own frame.

ghost use Rattle.std.specs.Prelude.{◌≡◌, ◌-◌, ◌≤◌, List, [], ◌∷◌};
ghost use Rattle.osc_space.specs.LeafFlags.{leaf_of_page};
ghost use Rattle.osc_paging.specs.TableChanges.{link_all};
ghost use Rattle.osc_calls.specs.Open.{OpenPage, lay, lay_all, open_page};
ghost use Rattle.osc_tables.specs.Calls.{changed};
ghost use Rattle.osc_open.specs.Laying.{pages_of};
ghost use Rattle.osc_open.specs.Row.{CanLay, CanLayFirst, alike, with_stack};

use osc_frames::Frames;
use osc_sv39::{Mapping, PteBits};
use osc_tables::Tables;
use osc_word::{Jobs, Page};

/// V, U, A and D: what each page of the guest has beside R, W and X.
const GUEST_PAGE: u8 = 0xd1;

/// The flags of the leaf of a page, by its R, W and X.
fn leaf_bits(bits: PteBits) -> PteBits
    ensures { result ≡ leaf_of_page bits }
{
    PteBits(GUEST_PAGE + bits.0 / 2 % 8 * 2)
}

/// Lays one page in a machine of so many frames, of which the first ones are taken: its tables get the
/// next frames, and the page the one after those.
fn lay(
    page: Page,
    bits: PteBits,
    count: u32,
    tables: &mut Tables,
    frames: &mut Frames,
    jobs: &mut Jobs,
)
    requires count { count ≤ 4096 }
    requires can { CanLayFirst count (open_page page bits) tables.old frames.old jobs.old }
    ensures next { changed tables.new frames.new jobs.new.pushed
        ≡ lay (open_page page bits) (link_all tables.old.top page (changed tables.old frames.old jobs.old.pushed)) }
    ensures rest { (rest : List OpenPage) → CanLay count (open_page page bits ∷ rest) tables.old frames.old jobs.old
        → CanLay count rest tables.new frames.new jobs.new }
    ensures room { jobs.new.room ≡ jobs.old.room }
{
    let taken = count - frames.free_count();
    let missing = tables.need(page, 1) as u32;
    let mapping = Mapping {
        frame: taken + missing,
        bits: leaf_bits(bits),
    };
    tables.map(page, mapping, frames, jobs);
    frames.take();
}

/// Lays the pages of an image, and leaves room for the stack.
pub fn lay_image(
    pages: &[(Page, PteBits)],
    count: u32,
    tables: &mut Tables,
    frames: &mut Frames,
    jobs: &mut Jobs,
)
    requires count { count ≤ 4096 }
    requires can { CanLay count (with_stack (pages_of pages.now)) tables.old frames.old jobs.old }
    ensures next { changed tables.new frames.new jobs.new.pushed
        ≡ lay_all (pages_of pages.now) (changed tables.old frames.old jobs.old.pushed) }
    ensures stack { CanLay count (with_stack []) tables.new frames.new jobs.new }
    ensures room { jobs.new.room ≡ jobs.old.room }
{
    for (page, bits) in pages {
        lay(*page, *bits, count, tables, frames, jobs);
    }
}

/// Lays the pages from one on up to another, which permit the same.
pub fn lay_alike(
    first: Page,
    end: Page,
    bits: PteBits,
    count: u32,
    tables: &mut Tables,
    frames: &mut Frames,
    jobs: &mut Jobs,
)
    requires range { first ≤ end }
    requires count { count ≤ 4096 }
    requires can { CanLay count (alike first (end - first) bits) tables.old frames.old jobs.old }
    ensures next { changed tables.new frames.new jobs.new.pushed
        ≡ lay_all (alike first (end - first) bits) (changed tables.old frames.old jobs.old.pushed) }
    ensures last { CanLay count [] tables.new frames.new jobs.new }
    ensures room { jobs.new.room ≡ jobs.old.room }
{
    for page in first..end {
        lay(page, bits, count, tables, frames, jobs);
    }
}
