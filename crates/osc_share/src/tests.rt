ghost use Rattle.std.specs.Prelude.{◌≡◌, ◌≢◌, ◌<◌, ◌≤◌, ◌∷◌, [], length};
ghost use Rattle.osc_space.specs.Share.{shared_frames};
ghost use Rattle.osc_word.specs.JobList.{spare};
ghost use Rattle.osc_tables.specs.Calls.{HasTaken, IsClosed, IsOpen};

use crate::{Regions, first_from};
use osc_frames::Frames;
use osc_sv39::{Mapping, PteBits, PteEntry, leaf, read_pte};
use osc_tables::Tables;
use osc_word::address_map::FIRST_SHARED_PAGE;
use osc_word::{Frame, Jobs};
use std::process::Abort;
use std::test::Fail;

/// Opens closed tables on the least free frame.
fn open_on(rt: &impl Abort, tables: &mut Tables, frames: &mut Frames)
    requires closed { IsClosed tables.old }
    requires frames { tables.old.count ≡ 64 }
    requires levels { tables.old.top ≡ 2 }
    requires count { length frames.old ≡ 64 }
    ensures levels { tables.new.top ≡ 2 }
    ensures opened { IsOpen tables.new }
    ensures taken { HasTaken tables.new frames.new }
{
    let root = frames.take().expect(rt, "no frame");
    tables.open(root);
}

/// Maps a page for reads and writes, after looking whether that may be done.
fn map_on(
    rt: &impl Abort,
    tables: &mut Tables,
    page: u64,
    frame: Frame,
    frames: &mut Frames,
    jobs: &mut Jobs,
)
    requires page { page < 67108864 }
    requires levels { tables.old.top ≡ 2 }
    requires opened { IsOpen tables.old }
    requires taken { HasTaken tables.old frames.old }
    ensures levels { tables.new.top ≡ 2 }
    ensures opened { IsOpen tables.new }
    ensures taken { HasTaken tables.new frames.new }
{
    let mapping = Mapping {
        frame,
        bits: PteBits(0xd7),
    };
    assert!(rt;
        read_pte(leaf(mapping.frame, mapping.bits)) == PteEntry::Leaf(mapping.frame, mapping.bits)
    );
    assert!(rt; tables.at(page).is_none());
    assert!(rt; tables.left() > 0);
    assert!(rt; tables.need(page, 1) <= u64::from(frames.free_count()));
    assert!(rt; jobs.spare() >= 7);
    tables.map(page, mapping, frames, jobs);
}

/// The frames of the two shared pages that tables have.
fn two_frames(rt: &impl Abort, tables: &Tables) -> (Frame, Frame)
    ensures frames { shared_frames tables.now ≡ result.0 ∷ result.1 ∷ [] }
    ensures different { result.0 ≢ result.1 }
{
    let first = first_from(tables, FIRST_SHARED_PAGE).expect(rt, "no page");
    let second = first_from(tables, first.number + 1).expect(rt, "one page");
    assert!(rt; first_from(tables, second.number + 1).is_none());
    assert!(rt; first.mapping.frame != second.mapping.frame);
    (first.mapping.frame, second.mapping.frame)
}

/// A process with two shared pages joins, after looking whether it may.
fn join_on(rt: &impl Abort, regions: &mut Regions, child: &Tables)
    requires { length regions.old ≡ 64 }
    ensures { length regions.new ≡ 64 }
{
    let (first, second) = two_frames(rt, child);
    assert!(rt; first < 64);
    assert!(rt; second < 64);
    assert!(rt; regions.holders(first) > 0);
    assert!(rt; regions.holders(first) < u32::MAX);
    assert!(rt; regions.holders(second) > 0);
    assert!(rt; regions.holders(second) < u32::MAX);
    regions.join(child);
}

/// A process with two shared pages leaves, after looking whether it may.
fn leave_on(rt: &impl Abort, regions: &mut Regions, tables: &Tables, frames: &mut Frames)
    requires regions { length regions.old ≡ 64 }
    requires frames { length frames.old ≡ 64 }
    ensures regions { length regions.new ≡ 64 }
    ensures frames { length frames.new ≡ 64 }
{
    let (first, second) = two_frames(rt, tables);
    assert!(rt; first < 64);
    assert!(rt; second < 64);
    assert!(rt; regions.holders(first) > 0);
    assert!(rt; regions.holders(second) > 0);
    assert!(rt; !frames.is_free(first));
    assert!(rt; !frames.is_free(second));
    regions.leave(tables, frames);
}

/// Two processes hold a region of two pages; its frames are free when both have left. The tables'
/// own frames are those of another machine, so that only the region's are seen.
#[test]
fn free_after_the_last_holder(rt: HostRuntime) -> Result<(), Fail> {
    let mut regions = Regions::new(rt.alloc(), 64)?;
    let mut frames = Frames::new(rt.alloc(), 64)?;
    assert_eq!(rt; frames.take(), Some(0));
    assert_eq!(rt; frames.take(), Some(1));
    assert_eq!(rt; frames.take(), Some(2));
    regions.hold(1);
    regions.hold(2);
    let mut jobs = Jobs::new(rt.alloc(), 64)?;
    let mut others = Frames::new(rt.alloc(), 64)?;
    let mut parent = Tables::new(rt.alloc(), 64, 64, 3)?;
    open_on(&rt, &mut parent, &mut others);
    map_on(&rt, &mut parent, 0x10, 0, &mut others, &mut jobs);
    map_on(&rt, &mut parent, 0x20_0000, 2, &mut others, &mut jobs);
    map_on(&rt, &mut parent, 0xff_ffff, 1, &mut others, &mut jobs);
    map_on(&rt, &mut parent, 0x100_0000, 0, &mut others, &mut jobs);
    join_on(&rt, &mut regions, &parent);
    assert_eq!(rt; regions.holders(0), 0);
    assert_eq!(rt; regions.holders(1), 2);
    assert_eq!(rt; regions.holders(2), 2);
    assert_eq!(rt; regions.holders(3), 0);
    leave_on(&rt, &mut regions, &parent, &mut frames);
    assert_eq!(rt; regions.holders(1), 1);
    assert_eq!(rt; regions.holders(2), 1);
    assert_eq!(rt; frames.free_count(), 61);
    leave_on(&rt, &mut regions, &parent, &mut frames);
    assert_eq!(rt; regions.holders(1), 0);
    assert_eq!(rt; regions.holders(2), 0);
    assert_eq!(rt; frames.free_count(), 63);
    assert!(rt; !frames.is_free(0));
    assert!(rt; frames.is_free(1));
    assert!(rt; frames.is_free(2));
    Ok(())
}
