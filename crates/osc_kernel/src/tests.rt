use crate::test_world::{
    FIRST, SECOND, SHARED, Step, World, access, call, check_answers, commit, config, finish, frees,
    gives, in_use, load, open, run, spawns, store,
};
use osc_calls::{Begun, BoxChange, Place, Report};
use osc_word::{Answer, Call, Choice, Fault, HeapKind, MINUS_ONE, Resume};
use std::alloc::Global;
use std::process::Abort;
use std::test::Fail;

fn realloc(pointer: u64, size: u64) -> Call {
    Call::Realloc { pointer, size }
}

fn dead(object: u32, offset: i64, call: u32) -> Place {
    Place::Dead {
        object,
        offset,
        call,
    }
}

/// After the calls the only process ends by a fault of a hart's thread, which is reported with its
/// place. Nothing of its memory is left.
fn ends_by(
    rt: &impl Abort,
    alloc: Global,
    steps: &[Step],
    hart: u32,
    fault: Fault,
    place: Place,
) -> Result<(), Fail> {
    let mut w = open(rt, alloc, config(2))?;
    run(rt, &mut w, steps);
    assert_eq!(rt; call(rt, &mut w, hart, Call::End(fault)), Resume::Idle);
    let report = Report {
        pid: 0,
        hart,
        fault,
        place,
    };
    assert_eq!(rt; w.kernel.reports(), [report].as_slice());
    assert_eq!(rt; w.kernel.ended(0), Some(70));
    assert!(rt; w.kernel.over());
    assert_eq!(rt; in_use(&w), 0);
    Ok(())
}

#[test]
fn accesses_are_reported(rt: HostRuntime) -> Result<(), Fail> {
    let alloc = rt.alloc();
    let fault = access(13, FIRST + 8);
    ends_by(&rt, alloc, &[gives(), frees()], 0, fault, dead(0, 8, 1))?;
    let steps = [gives(), spawns(0x10000), frees()];
    let fault = access(13, FIRST);
    ends_by(&rt, alloc, &steps, 1, fault, dead(0, 0, 2))?;
    let live = Place::Live {
        object: 0,
        offset: -16,
    };
    ends_by(&rt, alloc, &[gives()], 0, access(12, FIRST - 16), live)?;
    for fault in [
        access(13, 0x20_0040_0010),
        access(13, 0x40_0000_0000),
        access(12, 0x40_0000_0000),
    ] {
        ends_by(&rt, alloc, &[gives()], 0, fault, Place::Nowhere)?;
    }
    let steps = [gives(), spawns(2)];
    ends_by(&rt, alloc, &steps, 1, access(0, 2), Place::Nowhere)
}

#[test]
fn bad_calls_are_reported(rt: HostRuntime) -> Result<(), Fail> {
    let alloc = rt.alloc();
    let double = Fault::DoubleFree {
        pointer: FIRST,
        object: 0,
        call: 1,
    };
    for again in [Call::Free(FIRST), realloc(FIRST, 8)] {
        let steps = [gives(), frees(), (0, again, Resume::Fault(double))];
        ends_by(&rt, alloc, &steps, 0, double, Place::Nowhere)?;
    }
    let last = u64::MAX - 3;
    for (bad, fault) in [
        (
            Call::Free(FIRST + 16),
            Fault::BadFree {
                pointer: 0x10_0000_0020,
            },
        ),
        (
            Call::Free(0x20_0040_0010),
            Fault::BadFree {
                pointer: 0x20_0040_0010,
            },
        ),
        (Call::Write { buf: last, len: 8 }, access(13, last)),
        (Call::Unknown(12), Fault::UnknownCall { number: 12 }),
    ] {
        let steps = [gives(), (0, bad, Resume::Fault(fault))];
        ends_by(&rt, alloc, &steps, 0, fault, Place::Nowhere)?;
    }
    let fault = access(13, FIRST);
    let write = Call::Write {
        buf: FIRST,
        len: 24,
    };
    let steps = [gives(), frees(), (0, write, Resume::Fault(fault))];
    ends_by(&rt, alloc, &steps, 0, fault, dead(0, 0, 1))
}

#[test]
fn damaged_headers(rt: HostRuntime) -> Result<(), Fail> {
    for (first, kept) in [(0x20_0040_0010, 24), (9, 0x20_0040_0010)] {
        for bad in [Call::Free(FIRST), realloc(FIRST, 30)] {
            let mut w = open(&rt, rt.alloc(), config(2))?;
            run(&rt, &mut w, &[gives()]);
            assert_eq!(rt; load(&rt, &w, 0, FIRST - 16), Some(0x20_0040_0010));
            assert_eq!(rt; load(&rt, &w, 0, FIRST - 8), Some(24));
            store(&rt, &mut w, 0, FIRST - 16, first);
            store(&rt, &mut w, 0, FIRST - 8, 9);
            let fault = Fault::Header {
                object: 0,
                kept,
                found: 9,
            };
            let end = Call::End(fault);
            let steps = [(0, bad, Resume::Fault(fault)), (0, end, Resume::Idle)];
            run(&rt, &mut w, &steps);
            let damaged = Answer::HeaderDamaged { kept, found: 9 };
            let given = Answer::Given {
                object: 0,
                pointer: FIRST,
            };
            check_answers(&rt, &w, &[given, damaged, Answer::Ended]);
        }
    }
    Ok(())
}

/// The addresses of an object of 24 bytes that grows to 30 and 5000 bytes and shrinks to 10.
const MOVES: [u64; 4] = [
    0x10_0000_0010,
    0x10_0000_1010,
    0x10_0000_2010,
    0x10_0000_4010,
];

/// The three reallocs.
fn moves() -> [Step; 4] {
    [
        gives(),
        (0, realloc(MOVES[0], 30), Resume::Return(MOVES[1])),
        (0, realloc(MOVES[1], 5000), Resume::Return(MOVES[2])),
        (0, realloc(MOVES[2], 10), Resume::Return(MOVES[3])),
    ]
}

#[test]
fn reallocs_move_objects(rt: HostRuntime) -> Result<(), Fail> {
    let mut w = open(&rt, rt.alloc(), config(2))?;
    for (i, (hart, asked, wanted)) in moves().iter().enumerate() {
        assert_eq!(rt; call(&rt, &mut w, *hart, *asked), *wanted, "step {i}");
        if i == 0 {
            store(&rt, &mut w, 0, FIRST, 9);
        }
        for (k, address) in MOVES.iter().enumerate() {
            let holds = if k == i { Some(9) } else { None };
            assert_eq!(rt; load(&rt, &w, 0, *address), holds, "{k} after {i}");
        }
    }
    for (object, address) in [(0, MOVES[0]), (1, MOVES[1]), (2, MOVES[2])] {
        let place = dead(object, 0, object + 1);
        ends_by(&rt, rt.alloc(), &moves(), 0, access(13, address), place)?;
    }
    Ok(())
}

#[test]
fn refused_objects(rt: HostRuntime) -> Result<(), Fail> {
    let given = |object, pointer| Answer::Given { object, pointer };
    let mut few = config(2);
    few.shadows = 3;
    let mut w = open(&rt, rt.alloc(), few)?;
    let malloc = Call::Malloc(24);
    let steps = [
        gives(),
        (0, malloc, Resume::Return(SECOND)),
        (0, malloc, Resume::Return(0x10_0000_2070)),
        (0, malloc, Resume::Return(0)),
    ];
    run(&rt, &mut w, &steps);
    let third = given(2, 0x10_0000_2070);
    check_answers(
        &rt,
        &w,
        &[given(0, FIRST), given(1, SECOND), third, Answer::NoShadow],
    );
    assert_eq!(rt; w.kernel.granted(), 3);
    let mut w = open(&rt, rt.alloc(), config(2))?;
    let steps = [
        (0, Call::Malloc(u64::MAX), Resume::Return(0)),
        (0, Call::Malloc(8_000_000), Resume::Return(0)),
    ];
    run(&rt, &mut w, &steps);
    assert_eq!(rt; w.kernel.peak(), 22);
    run(&rt, &mut w, &[gives()]);
    assert_eq!(rt; w.kernel.peak(), 25);
    check_answers(
        &rt,
        &w,
        &[Answer::NoShadow, Answer::NoFrames, given(0, FIRST)],
    );
    few.shadows = 1;
    let mut w = open(&rt, rt.alloc(), few)?;
    let steps = [gives(), (0, realloc(FIRST, 30), Resume::Return(0))];
    run(&rt, &mut w, &steps);
    check_answers(&rt, &w, &[given(0, FIRST), Answer::NoShadow]);
    store(&rt, &mut w, 0, FIRST, 9);
    assert_eq!(rt; load(&rt, &w, 0, FIRST), Some(9));
    Ok(())
}

/// A free of nothing does nothing, and two objects of no byte have two addresses. The first malloc does 2
/// words of the block, 2 of the header, 2 tables with their links, and a page.
#[test]
fn objects_of_no_byte(rt: HostRuntime) -> Result<(), Fail> {
    let mut w = open(&rt, rt.alloc(), config(1))?;
    for (asked, number, steps) in [
        (Call::Free(0), 0, 0),
        (Call::Malloc(0), 0x10_0000_0010, 1031),
        (Call::Malloc(0), 0x10_0000_1030, 5),
        (Call::Free(0), 0, 0),
    ] {
        assert_eq!(rt; call(&rt, &mut w, 0, asked), Resume::Return(number));
        assert_eq!(rt; w.steps, steps);
    }
    Ok(())
}

#[test]
fn refused_calls(rt: HostRuntime) -> Result<(), Fail> {
    let spawn = Call::Spawn {
        pc: 0x10000,
        sp: 0,
        arg: 0,
    };
    let mut w = open(&rt, rt.alloc(), config(1))?;
    let rows = [
        (Call::Fork, MINUS_ONE, Answer::NoHart, Choice::Refused),
        (spawn, MINUS_ONE, Answer::NoHart, Choice::Refused),
        (Call::Share(0), 0, Answer::Empty, Choice::Refused),
        (Call::Share(100_000), 0, Answer::NoFrames, Choice::Refused),
        (Call::Share(u64::MAX), 0, Answer::NoFrames, Choice::Refused),
        (Call::Join(9), MINUS_ONE, Answer::Unknown, Choice::Plain),
        (Call::Wait(9), MINUS_ONE, Answer::Unknown, Choice::Plain),
        (Call::Wait(0), MINUS_ONE, Answer::Unknown, Choice::Plain),
    ];
    for (asked, number, _answer, choice) in rows {
        let begun = commit(&rt, &mut w, 0, asked);
        assert_eq!(rt; begun, Begun::Planned);
        assert_eq!(rt; w.kernel.choice(), choice);
        assert_eq!(rt; w.kernel.box_change(0), BoxChange::Keep);
        assert_eq!(rt; finish(&rt, &mut w), Resume::Return(number));
        assert_eq!(rt; w.jobs, 0);
    }
    check_answers(
        &rt,
        &w,
        &rows.map(|(_asked, _number, answer, _choice)| answer),
    );
    assert_eq!(rt; in_use(&w), 22);
    run(&rt, &mut w, &[gives()]);
    Ok(())
}

/// Processes are counted over the whole life of the machine, and harts are looked for first.
#[test]
fn no_more_processes(rt: HostRuntime) -> Result<(), Fail> {
    let mut two = config(3);
    two.processes = 2;
    let mut w = open(&rt, rt.alloc(), two)?;
    let steps = [
        (0, Call::Fork, Resume::Return(1)),
        (0, Call::Fork, Resume::Return(MINUS_ONE)),
        (1, Call::Exit(64), Resume::Idle),
        (0, Call::Fork, Resume::Return(MINUS_ONE)),
        (0, Call::Wait(1), Resume::Return(0)),
    ];
    run(&rt, &mut w, &steps);
    let answers = [
        Answer::Number(1),
        Answer::NoProcess,
        Answer::Ended,
        Answer::NoProcess,
        Answer::Number(0),
    ];
    check_answers(&rt, &w, &answers);
    two.harts = 1;
    two.processes = 1;
    let mut w = open(&rt, rt.alloc(), two)?;
    run(&rt, &mut w, &[(0, Call::Fork, Resume::Return(MINUS_ONE))]);
    check_answers(&rt, &w, &[Answer::NoHart]);
    Ok(())
}

/// Shared memory is one for parent and child, and all else is the child's own.
#[test]
fn child_shares_a_region(rt: HostRuntime) -> Result<(), Fail> {
    for levels in [3, 4] {
        let mut deep = config(2);
        deep.levels = levels;
        let mut w = open(&rt, rt.alloc(), deep)?;
        let steps = [
            (0, Call::Share(1), Resume::Return(SHARED)),
            (0, Call::Malloc(8), Resume::Return(FIRST)),
        ];
        run(&rt, &mut w, &steps);
        store(&rt, &mut w, 0, FIRST, 5);
        run(&rt, &mut w, &[(0, Call::Fork, Resume::Return(1))]);
        assert_eq!(rt; load(&rt, &w, 1, FIRST), Some(5));
        store(&rt, &mut w, 1, FIRST, 6);
        store(&rt, &mut w, 1, SHARED, 7);
        let steps = [
            (0, Call::Wait(1), Resume::Again),
            (1, Call::Exit(6), Resume::Idle),
            (0, Call::Wait(1), Resume::Return(6)),
        ];
        run(&rt, &mut w, &steps);
        assert_eq!(rt; load(&rt, &w, 0, FIRST), Some(5));
        assert_eq!(rt; load(&rt, &w, 0, SHARED), Some(7));
        assert_eq!(rt; w.kernel.granted(), 1);
        run(&rt, &mut w, &[(0, Call::Exit(18), Resume::Idle)]);
        assert_eq!(rt; w.kernel.ended(0), Some(18));
        assert_eq!(rt; w.kernel.ended(1), Some(6));
        assert!(rt; w.kernel.over());
        assert_eq!(rt; in_use(&w), 0);
    }
    Ok(())
}

/// A child knows what its parent has freed, and ends by its own fault alone.
#[test]
fn child_loads_what_was_freed(rt: HostRuntime) -> Result<(), Fail> {
    let mut w = open(&rt, rt.alloc(), config(2))?;
    let fault = access(13, FIRST);
    let steps = [
        gives(),
        frees(),
        (0, Call::Fork, Resume::Return(1)),
        (1, Call::End(fault), Resume::Idle),
        (0, Call::Wait(1), Resume::Return(70)),
        (0, Call::Exit(70), Resume::Idle),
    ];
    run(&rt, &mut w, &steps);
    let report = Report {
        pid: 1,
        hart: 1,
        fault,
        place: dead(0, 0, 1),
    };
    assert_eq!(rt; w.kernel.reports(), [report].as_slice());
    assert_eq!(rt; w.kernel.ended(0), Some(6));
    assert_eq!(rt; w.kernel.processes(), 2);
    Ok(())
}

/// On the plain heap the freed block stays, and is another object's at once.
#[test]
fn use_after_free(rt: HostRuntime) -> Result<(), Fail> {
    let mut plain = config(2);
    plain.heap = HeapKind::Plain;
    let mut w = open(&rt, rt.alloc(), plain)?;
    let malloc = Call::Malloc(24);
    let block = 0x20_0040_0010;
    let steps = [
        (0, malloc, Resume::Return(block)),
        (0, malloc, Resume::Return(0x20_0040_0040)),
    ];
    run(&rt, &mut w, &steps);
    store(&rt, &mut w, 0, block + 8, 9);
    run(&rt, &mut w, &[(0, Call::Free(block), Resume::Return(0))]);
    assert_eq!(rt; load(&rt, &w, 0, block + 8), Some(9));
    run(&rt, &mut w, &[(0, Call::Exit(9), Resume::Idle)]);
    assert_eq!(rt; w.kernel.ended(0), Some(9));
    assert_eq!(rt; w.kernel.granted(), 0);
    let steps = [gives(), (0, malloc, Resume::Return(SECOND)), frees()];
    let fault = access(13, FIRST + 8);
    ends_by(&rt, rt.alloc(), &steps, 0, fault, dead(0, 8, 2))
}

/// Calls, cleared boxes, shadow pages and the most frames of a run that is over.
fn summary(w: &World) -> (usize, u32, u64, u32) {
    (
        w.kernel.journal().len(),
        w.clears,
        w.kernel.granted(),
        w.kernel.peak(),
    )
}

#[test]
fn counts_of_short_runs(rt: HostRuntime) -> Result<(), Fail> {
    for (levels, batch, exit, all) in [
        (3, 1, (1, 1, 0, 22), (3, 2, 1, 25)),
        (4, 1, (1, 1, 0, 23), (3, 2, 1, 26)),
        (3, 2, (1, 1, 0, 22), (3, 1, 1, 25)),
    ] {
        let mut one = config(1);
        one.levels = levels;
        one.batch = batch;
        let mut w = open(&rt, rt.alloc(), one)?;
        let ends = (0, Call::Exit(7), Resume::Idle);
        run(&rt, &mut w, &[ends]);
        assert_eq!(rt; summary(&w), exit);
        let mut w = open(&rt, rt.alloc(), one)?;
        run(&rt, &mut w, &[gives(), frees(), ends]);
        assert_eq!(rt; summary(&w), all);
    }
    Ok(())
}

/// A thousand objects in 64 frames. A flush gives the block's frame back, and that after which no page of
/// the first leaf table is left gives up the table too.
#[test]
fn thousand_objects(rt: HostRuntime) -> Result<(), Fail> {
    for (batch, clears) in [(1, 1001), (64, 16)] {
        let mut small = config(1);
        small.frames = 64;
        small.batch = batch;
        let mut w = open(&rt, rt.alloc(), small)?;
        for i in 0..1000_u32 {
            let slot = i.checked_rem(batch).unwrap_or(0);
            let pointer = FIRST + u64::from(i) * 4096 + u64::from(slot) * 48;
            let steps = [
                (0, Call::Malloc(24), Resume::Return(pointer)),
                (0, Call::Free(pointer), Resume::Return(0)),
            ];
            run(&rt, &mut w, &steps);
            let flushes = slot + 1 == batch;
            let waits = if flushes { 0 } else { 1 };
            let used = if i == 511 { 23 } else { 24 + waits };
            assert_eq!(rt; in_use(&w), used, "free {i}");
            let freed = if flushes { batch } else { 0 };
            assert_eq!(rt; w.kernel.freed().count(), freed);
        }
        run(&rt, &mut w, &[(0, Call::Exit(0), Resume::Idle)]);
        assert_eq!(rt; summary(&w), (2001, clears, 1000, 25));
    }
    Ok(())
}
