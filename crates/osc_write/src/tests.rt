ghost use Rattle.std.specs.Prelude.{◌≡◌, ◌<◌, length};
ghost use Rattle.osc_tables.specs.Calls.{HasTaken, IsClosed, IsOpen};

use crate::plan_write;
use osc_frames::Frames;
use osc_sv39::{Mapping, PteBits, PteEntry, leaf, read_pte};
use osc_tables::Tables;
use osc_word::{Answer, Frame, Job, Jobs, WordAt};
use std::alloc::Global;
use std::process::Abort;
use std::test::Fail;

/// V, R, W, U, A and D.
const READ_WRITE: PteBits = PteBits(0xd7);

/// V, X, U, A and D.
const EXECUTE: PteBits = PteBits(0xd9);

/// Opens closed tables on the least free frame.
fn open_on(rt: &impl Abort, tables: &mut Tables, frames: &mut Frames)
    requires closed { IsClosed tables.old }
    requires count { length frames.old ≡ tables.old.count }
    requires frames { tables.old.count ≡ 64 }
    requires levels { tables.old.top ≡ 2 }
    ensures levels { tables.new.top ≡ 2 }
    ensures opened { IsOpen tables.new }
    ensures taken { HasTaken tables.new frames.new }
{
    let root = frames.take().expect(rt, "no frame");
    tables.open(root);
}

/// Maps a page, after looking whether that may be done.
fn map_on(
    rt: &impl Abort,
    tables: &mut Tables,
    page: u64,
    mapping: Mapping,
    frames: &mut Frames,
    jobs: &mut Jobs,
)
    requires page { page < 67108864 }
    requires levels { tables.old.top ≡ 2 }
    requires opened { IsOpen tables.old }
    requires taken { HasTaken tables.old frames.old }
    ensures levels { tables.new.top ≡ 2 }
    ensures opened { IsOpen tables.new }
    ensures taken { HasTaken tables.new frames.new }
{
    assert!(rt;
        read_pte(leaf(mapping.frame, mapping.bits)) == PteEntry::Leaf(mapping.frame, mapping.bits)
    );
    assert!(rt; tables.at(page).is_none());
    assert!(rt; tables.left() > 0);
    assert!(rt; tables.need(page, 1) <= u64::from(frames.free_count()));
    assert!(rt; jobs.spare() >= 7);
    tables.map(page, mapping, frames, jobs);
}

/// Tables with two pages that can be read and, after them, one that cannot, over frames 40, 50 and 60.
fn three_pages(rt: &impl Abort, alloc: Global) -> Result<Tables, Fail> {
    let mut frames = Frames::new(alloc, 64)?;
    let mut tables = Tables::new(alloc, 64, 128, 3)?;
    let mut jobs = Jobs::new(alloc, 64)?;
    open_on(rt, &mut tables, &mut frames);
    let [a, b, c] = [(40, READ_WRITE), (50, READ_WRITE), (60, EXECUTE)].map(|(
        frame,
        bits,
    )| Mapping { frame, bits });
    map_on(rt, &mut tables, 0x10, a, &mut frames, &mut jobs);
    map_on(rt, &mut tables, 0x11, b, &mut frames, &mut jobs);
    map_on(rt, &mut tables, 0x12, c, &mut frames, &mut jobs);
    Ok(tables)
}

/// Plans a write, after looking whether that may be done.
fn write_on(
    rt: &impl Abort,
    tables: &Tables,
    written: u32,
    jobs: &mut Jobs,
    buf: u64,
    len: u64,
) -> Answer {
    assert!(rt; tables.at(0xf_ffff_ffff_ffff).is_none());
    assert!(rt; jobs.spare() >= 524_289);
    plan_write(tables, written, jobs, buf, len)
}

/// The job on so many bytes of a word.
fn out(frame: Frame, index: u16, first: u8, count: u8) -> Job {
    Job::ToOut {
        at: WordAt { frame, index },
        first,
        count,
    }
}

#[test]
fn words_of_two_pages(rt: HostRuntime) -> Result<(), Fail> {
    let alloc = rt.alloc();
    let tables = three_pages(&rt, alloc)?;
    let mut jobs = Jobs::new(alloc, 524_300)?;
    assert_eq!(rt;
        write_on(&rt, &tables, 0, &mut jobs, 0x10fed, 28),
        Answer::Number(28)
    );
    let due = [
        out(40, 509, 5, 3),
        out(40, 510, 0, 8),
        out(40, 511, 0, 8),
        out(50, 0, 0, 8),
        out(50, 1, 0, 1),
    ];
    for (i, job) in due.iter().enumerate() {
        assert_eq!(rt; jobs.get(i as u32), Some(*job));
    }
    assert_eq!(rt; jobs.get(5), None);
    // A part of one word follows.
    assert_eq!(rt;
        write_on(&rt, &tables, 28, &mut jobs, 0x11002, 3),
        Answer::Number(3)
    );
    assert_eq!(rt; jobs.get(5), Some(out(50, 0, 2, 3)));
    assert_eq!(rt; jobs.get(6), None);
    Ok(())
}

#[test]
fn bytes_that_cannot_be_read(rt: HostRuntime) -> Result<(), Fail> {
    let alloc = rt.alloc();
    let tables = three_pages(&rt, alloc)?;
    let mut jobs = Jobs::new(alloc, 524_300)?;
    for (buf, len, address) in [
        (0x11ffe, 3, 0x12000),
        (0xffff, 2, 0xffff),
        (0x12004, 1, 0x12004),
        (0xffff_ffff_ffff_fffc, 8, 0xffff_ffff_ffff_fffc),
    ] {
        assert_eq!(rt;
            write_on(&rt, &tables, 0, &mut jobs, buf, len),
            Answer::BadBuffer { address }
        );
        assert_eq!(rt; jobs.get(0), None);
    }
    Ok(())
}

#[test]
fn output_that_is_full(rt: HostRuntime) -> Result<(), Fail> {
    let alloc = rt.alloc();
    let tables = three_pages(&rt, alloc)?;
    let mut jobs = Jobs::new(alloc, 524_300)?;
    assert_eq!(rt;
        write_on(&rt, &tables, 4_194_303, &mut jobs, 0x11fff, 4),
        Answer::Number(1)
    );
    assert_eq!(rt; jobs.get(0), Some(out(50, 511, 7, 1)));
    assert_eq!(rt; jobs.get(1), None);
    // Nothing is written to an output without room, whatever the buffer is.
    for len in [0, 1, u64::MAX] {
        assert_eq!(rt;
            write_on(&rt, &tables, 4_194_304, &mut jobs, 0, len),
            Answer::Number(0)
        );
    }
    assert_eq!(rt; jobs.get(1), None);
    Ok(())
}
