//! Whether there is memory for a block and its shadow pages.

ghost use Rattle.std.specs.Prelude.{◌≡◌, ◌≤◌, option_map};
ghost use Rattle.osc_tables.specs.Calls.{IsOrdered};
ghost use Rattle.osc_shadow.specs.Answers.{lack_answer};
ghost use Rattle.osc_shadow.specs.Parts.{memory_refusal};

use osc_frames::Frames;
use osc_mark::Marks;
use osc_tables::Tables;

/// What there is too little of.
#[derive(Clone, Copy, Debug, PartialEq, Eq)]
pub enum Lack {
    /// Shadow pages that may still be granted.
    Shadow,
    /// Free frames.
    Frames,
}

/// Tables always have three levels or four, and their mapped pages in order. No page is looked for:
/// none has this number.
pub fn know_tables(tables: &Tables)
    ensures { IsOrdered tables.now }
{
    let _none = tables.next_page(u64::MAX);
}

/// What is lacking for so many block frames and so many fresh shadow pages, with the tables over these
/// pages: shadow pages are counted first. None exactly where there is enough of both.
pub fn memory_lack(
    tables: &Tables,
    marks: &Marks,
    frames: &Frames,
    block_frames: u64,
    pages: u64,
) -> Option<Lack>
    ensures { option_map lack_answer result ≡ memory_refusal tables.now marks.now frames.now block_frames pages }
{
    if pages > u64::from(marks.left()) {
        return Some(Lack::Shadow);
    }
    let free = u64::from(frames.free_count());
    if block_frames > free {
        return Some(Lack::Frames);
    }
    know_tables(tables);
    let needed = tables.need(marks.next_page(), pages);
    if needed > free - block_frames {
        return Some(Lack::Frames);
    }
    None
}
