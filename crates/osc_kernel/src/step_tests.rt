ghost use Rattle.std.specs.Prelude.{◌≤◌, length};

use crate::test_world::{
    FIRST, PC, SECOND, SHARED, World, access, begin, call, check_answers, commit, config, do_job,
    finish, frees, gives, in_use, load, open, registers, run, spawns, store,
};
use osc_calls::{Begun, BoxChange};
use osc_word::{
    Access, Answer, Call, Choice, Entry, Fault, Label, MINUS_ONE, Order, Pid, Regs, Request,
    Resume, Start, WordAt,
};
use std::process::Abort;
use std::test::Fail;

/// A call of a process's hart, how the hart goes on, and the call's answer.
type Row = (Pid, u32, Call, Resume, Answer);

/// What a spawned thread starts with.
const SPAWN: Call = Call::Spawn {
    pc: 0x10040,
    sp: 0x200,
    arg: 3,
};

/// One call of each kind, by two harts.
fn rows() -> [Row; 13] {
    let moved = 0x10_0000_1010;
    let bad = Fault::UnknownCall { number: 12 };
    let realloc = Call::Realloc {
        pointer: FIRST,
        size: 30,
    };
    let write = Call::Write {
        buf: SHARED,
        len: 3,
    };
    let given = Answer::Given {
        object: 0,
        pointer: FIRST,
    };
    let answer = Answer::Moved {
        old: 0,
        object: 1,
        pointer: moved,
    };
    let freed = Answer::Freed { object: 1 };
    let returns = |number| Resume::Return(number);
    let number = |number| Answer::Number(number);
    [
        (0, 0, Call::Malloc(24), returns(FIRST), given),
        (0, 0, realloc, returns(moved), answer),
        (0, 0, Call::Free(moved), returns(0), freed),
        (0, 0, Call::Share(1), returns(SHARED), number(SHARED)),
        (0, 0, write, returns(3), number(3)),
        (0, 0, SPAWN, returns(1), number(1)),
        (0, 1, Call::Done(7), Resume::Idle, Answer::Ended),
        (0, 0, Call::Join(1), returns(7), number(7)),
        (0, 0, Call::Fork, returns(1), number(1)),
        (1, 1, Call::Unknown(12), Resume::Fault(bad), Answer::Unknown),
        (1, 1, Call::End(bad), Resume::Idle, Answer::Ended),
        (0, 0, Call::Wait(1), returns(70), number(70)),
        (0, 0, Call::Exit(7), Resume::Idle, Answer::Ended),
    ]
}

/// How each begins.
fn beginnings() -> [Begun; 13] {
    let at = |index| WordAt { frame: 22, index };
    let header = Begun::Header(at(0), at(1));
    let planned = Begun::Planned;
    let boxes = Begun::Boxes;
    [
        planned, header, header, boxes, boxes, planned, planned, planned, boxes, planned, boxes,
        planned, boxes,
    ]
}

/// How many jobs each leaves: those of the malloc, the realloc in place and the share make pages; the
/// fork copies the 17 pages of image and stack and 9 tables.
const JOBS: [u32; 13] = [8, 6, 3, 6, 1, 1, 0, 0, 26, 0, 0, 0, 0];

fn choices() -> [Choice; 13] {
    let plain = Choice::Plain;
    let given = Choice::Given;
    let started = Choice::Started(1);
    [
        given, given, plain, given, plain, started, plain, plain, started, plain, plain, plain,
        plain,
    ]
}

/// What each shows when it commits, and when it returns.
fn labels() -> [(Option<Label>, Option<Label>); 13] {
    let ended = |pid, fault, status| { Some(Label::Ended { pid, fault, status }) };
    let gave = Label::Gave {
        pid: 0,
        object: 0,
        first: 0x100_0000,
        pages: 1,
        size: 24,
    };
    let moving = Label::Moving {
        pid: 0,
        old: 0,
        call: 1,
    };
    let moved = Label::Moved {
        pid: 0,
        old: 0,
        call: 1,
        object: 1,
        first: 0x100_0001,
        pages: 1,
        size: 30,
    };
    let freeing = Label::Freeing {
        pid: 0,
        object: 1,
        call: 2,
    };
    let forked = Label::Forked { pid: 0, child: 1 };
    let none = (None, None);
    [
        (None, Some(gave)),
        (Some(moving), Some(moved)),
        (Some(freeing), None),
        none,
        none,
        none,
        none,
        none,
        (Some(forked), None),
        none,
        (ended(1, true, 70), None),
        none,
        (ended(0, false, 7), None),
    ]
}

/// A thread begins.
fn starts(pid: Pid, root: u32, regs: Regs, pc: u64) -> BoxChange {
    BoxChange::Put(Order::Start(Start {
        pid,
        root,
        regs,
        pc,
        levels: 3,
        frames: 1024,
    }))
}

/// The thread of the spawn, with its stack pointer and its argument.
fn spawned() -> BoxChange {
    let mut regs = Regs::new();
    regs.set(2, 0x200);
    regs.set(10, 3);
    starts(0, 0, regs, 0x10040)
}

/// The thread of the child, with the registers of its parent but the answer 0, after the ecall.
fn forked() -> BoxChange {
    let mut regs = registers();
    regs.set(10, 0);
    starts(1, 27, regs, PC + 4)
}

/// What each does to the box of a hart.
fn change_by(place: usize, hart: u32) -> BoxChange {
    match (place, hart) {
        (1 | 2 | 10, _) => BoxChange::Clear,
        (5, 1) => spawned(),
        (8, 1) => forked(),
        (12, _) => BoxChange::Put(Order::Over),
        _ => BoxChange::Keep,
    }
}

fn check_boxes(rt: &impl Abort, w: &World, wanted: &[BoxChange])
    requires { length wanted.now ≤ 8 }
{
    for (hart, change) in wanted.iter().enumerate() {
        assert_eq!(rt; w.kernel.box_change(hart as u32), *change, "hart {hart}");
    }
}

#[test]
fn one_call_of_each_kind(rt: HostRuntime) -> Result<(), Fail> {
    let mut w = open(&rt, rt.alloc(), config(2))?;
    for i in 0..13 {
        let (pid, hart, asked, resume, answer) = rows()[i];
        if i == 4 {
            store(&rt, &mut w, 0, SHARED, 0x6463_6261);
        }
        assert_eq!(rt;
            commit(&rt, &mut w, hart, asked),
            beginnings()[i],
            "call {i}"
        );
        let (at_commit, at_return) = labels()[i];
        assert_eq!(rt; w.kernel.label(), at_commit, "call {i}");
        assert_eq!(rt; w.kernel.choice(), choices()[i], "call {i}");
        check_boxes(&rt, &w, &[change_by(i, 0), change_by(i, 1)]);
        assert_eq!(rt; finish(&rt, &mut w), resume, "call {i}");
        assert_eq!(rt; w.kernel.label(), at_return, "call {i}");
        assert_eq!(rt; w.jobs, JOBS[i], "call {i}");
        let entry = Entry {
            pid,
            hart,
            call: asked,
            answer,
        };
        let entered = w.kernel.journal().get(i).copied();
        assert_eq!(rt; entered, Some(entry));
    }
    assert_eq!(rt; w.kernel.journal().len(), 13);
    assert_eq!(rt; w.kernel.output(), [0x61, 0x62, 0x63].as_slice());
    assert_eq!(rt; w.kernel.peak(), 53);
    assert_eq!(rt; in_use(&w), 0);
    Ok(())
}

/// A job of a write is done and shows the bytes that it wrote.
fn check_out(rt: &impl Abort, w: &mut World, address: u64, width: u8) {
    assert!(rt; do_job(rt, w));
    let touched = Label::Touched {
        pid: 0,
        hart: 0,
        address,
        width,
        kind: Access::Load,
        done: true,
    };
    assert_eq!(rt; w.kernel.label(), Some(touched));
}

#[test]
fn short_writes(rt: HostRuntime) -> Result<(), Fail> {
    let mut w = open(&rt, rt.alloc(), config(1))?;
    run(&rt, &mut w, &[gives()]);
    store(&rt, &mut w, 0, FIRST, 0x0807_0605_0403_0201);
    store(&rt, &mut w, 0, FIRST + 8, 0x1817_1615_1413_1211);
    let write = Call::Write {
        buf: FIRST + 5,
        len: 10,
    };
    commit(&rt, &mut w, 0, write);
    check_out(&rt, &mut w, FIRST + 5, 3);
    check_out(&rt, &mut w, FIRST + 8, 7);
    assert!(rt; !do_job(&rt, &mut w));
    assert_eq!(rt; finish(&rt, &mut w), Resume::Return(10));
    let bytes = [6, 7, 8, 0x11, 0x12, 0x13, 0x14, 0x15, 0x16, 0x17];
    assert_eq!(rt; w.kernel.output(), bytes.as_slice());
    let past = Call::Write {
        buf: 0x10_0000_0ff8,
        len: 16,
    };
    commit(&rt, &mut w, 0, past);
    let touched = Label::Touched {
        pid: 0,
        hart: 0,
        address: 0x10_0000_1000,
        width: 1,
        kind: Access::Load,
        done: false,
    };
    assert_eq!(rt; w.kernel.label(), Some(touched));
    let fault = access(13, 0x10_0000_1000);
    assert_eq!(rt; finish(&rt, &mut w), Resume::Fault(fault));
    assert_eq!(rt; w.kernel.output(), bytes.as_slice());
    Ok(())
}

/// The output holds 4 MiB, and a write has at most 524289 jobs.
#[test]
fn long_writes(rt: HostRuntime) -> Result<(), Fail> {
    let mut large = config(1);
    large.frames = 2048;
    for (past, len, jobs) in [
        (0, 4_194_304, 524_288),
        (0, 4_194_305, 524_288),
        (1, 4_194_304, 524_289),
    ] {
        let mut w = open(&rt, rt.alloc(), large)?;
        run(
            &rt,
            &mut w,
            &[(0, Call::Share(1025), Resume::Return(SHARED))],
        );
        for page in 0..1024_u64 {
            store(&rt, &mut w, 0, SHARED + page * 4096, page << 8);
        }
        let buf = SHARED + past;
        let write = (0, Call::Write { buf, len }, Resume::Return(4_194_304));
        run(&rt, &mut w, &[write]);
        assert_eq!(rt; w.jobs, jobs);
        assert_eq!(rt; w.kernel.output().len(), 4_194_304);
        for page in 0..1024_usize {
            let at = page * 4096 + 1 - past as usize;
            let byte = w.kernel.output().get(at).copied();
            assert_eq!(rt; byte, Some((page & 0xff) as u8), "page {page}");
        }
        let more = (0, Call::Write { buf, len }, Resume::Return(0));
        run(&rt, &mut w, &[more, (0, Call::Exit(0), Resume::Idle)]);
        assert_eq!(rt; w.kernel.output().len(), 4_194_304);
        assert_eq!(rt; in_use(&w), 0);
    }
    Ok(())
}

/// At most 4096 threads are spawned, also where all of them are done.
#[test]
fn no_more_threads(rt: HostRuntime) -> Result<(), Fail> {
    let mut w = open(&rt, rt.alloc(), config(2))?;
    for thread in 1..=4096_u64 {
        let steps = [
            (0, SPAWN, Resume::Return(thread)),
            (0, Call::Join(thread), Resume::Again),
            (1, Call::Done(thread * 3), Resume::Idle),
            (0, Call::Join(thread), Resume::Return(thread * 3)),
        ];
        run(&rt, &mut w, &steps);
    }
    let steps = [
        (0, SPAWN, Resume::Return(MINUS_ONE)),
        (0, Call::Join(4096), Resume::Return(12288)),
        (0, Call::Join(4097), Resume::Return(MINUS_ONE)),
        (0, Call::Fork, Resume::Return(1)),
        (1, Call::Join(4096), Resume::Return(MINUS_ONE)),
        (1, Call::Done(9), Resume::Idle),
        (0, Call::Wait(1), Resume::Return(0)),
    ];
    run(&rt, &mut w, &steps);
    let journal = w.kernel.journal();
    assert_eq!(rt; journal.len(), 12295);
    assert_eq!(rt; journal[12288].answer, Answer::NoThread);
    assert_eq!(rt; in_use(&w), 22);
    Ok(())
}

/// The harts of a process that ends are stopped, and take threads again once they have asked.
#[test]
fn stopped_harts(rt: HostRuntime) -> Result<(), Fail> {
    let mut w = open(&rt, rt.alloc(), config(4))?;
    let steps = [
        (0, SPAWN, Resume::Return(1)),
        (0, Call::Fork, Resume::Return(1)),
    ];
    run(&rt, &mut w, &steps);
    assert_eq!(rt; commit(&rt, &mut w, 0, Call::Exit(0)), Begun::Boxes);
    let stops = [
        BoxChange::Clear,
        BoxChange::Put(Order::Stop),
        BoxChange::Clear,
        BoxChange::Clear,
    ];
    check_boxes(&rt, &w, &stops);
    assert_eq!(rt; w.kernel.ended(0), None);
    assert_eq!(rt; finish(&rt, &mut w), Resume::Idle);
    assert_eq!(rt; w.kernel.ended(0), Some(0));
    assert!(rt; !w.kernel.over());
    let steps = [
        (2, SPAWN, Resume::Return(2)),
        (2, SPAWN, Resume::Return(3)),
        (2, SPAWN, Resume::Return(MINUS_ONE)),
    ];
    run(&rt, &mut w, &steps);
    let gone = commit(&rt, &mut w, 1, Call::Malloc(24));
    assert_eq!(rt; gone, Begun::Gone);
    assert_eq!(rt; finish(&rt, &mut w), Resume::Idle);
    commit(&rt, &mut w, 2, SPAWN);
    assert_eq!(rt; w.kernel.choice(), Choice::Started(1));
    assert_eq!(rt; finish(&rt, &mut w), Resume::Return(4));
    assert_eq!(rt; begin(&rt, &mut w, 3, Request::Idle), Begun::Gone);
    assert_eq!(rt; finish(&rt, &mut w), Resume::Idle);
    run(&rt, &mut w, &[(2, SPAWN, Resume::Return(MINUS_ONE))]);
    commit(&rt, &mut w, 3, Call::Exit(5));
    for hart in 0..4 {
        let over = BoxChange::Put(Order::Over);
        assert_eq!(rt; w.kernel.box_change(hart), over, "hart {hart}");
    }
    assert_eq!(rt; finish(&rt, &mut w), Resume::Idle);
    assert!(rt; w.kernel.over());
    assert_eq!(rt; w.clears, 13);
    Ok(())
}

/// A call that finds no room in the journal is asked again, and changes nothing. What is not ready is not
/// entered.
#[test]
fn full_journal(rt: HostRuntime) -> Result<(), Fail> {
    let mut brief = config(2);
    brief.journal = 1;
    let mut w = open(&rt, rt.alloc(), brief)?;
    run(&rt, &mut w, &[(0, SPAWN, Resume::Return(1))]);
    for (hart, asked, begun) in [
        (0, Call::Exit(0), Begun::JournalFull),
        (0, Call::Join(1), Begun::Again),
        (0, Call::Join(2), Begun::JournalFull),
        (1, Call::Done(7), Begun::JournalFull),
    ] {
        assert_eq!(rt; commit(&rt, &mut w, hart, asked), begun);
        assert_eq!(rt; w.kernel.label(), None);
        assert_eq!(rt; finish(&rt, &mut w), Resume::Again);
    }
    check_answers(&rt, &w, &[Answer::Number(1)]);
    assert_eq!(rt; w.kernel.ended(0), None);
    assert_eq!(rt; w.kernel.choice(), Choice::Plain);
    Ok(())
}

/// Two objects wait for each other, and a realloc lets go what waits before it.
#[test]
fn frees_in_pairs(rt: HostRuntime) -> Result<(), Fail> {
    let mut pairs = config(2);
    pairs.batch = 2;
    let mut w = open(&rt, rt.alloc(), pairs)?;
    let third = 0x10_0000_2070;
    let steps = [
        gives(),
        (0, Call::Malloc(24), Resume::Return(SECOND)),
        (0, Call::Malloc(24), Resume::Return(third)),
        (0, Call::Free(SECOND), Resume::Return(0)),
    ];
    run(&rt, &mut w, &steps);
    assert_eq!(rt; w.kernel.freed().count(), 0);
    assert_eq!(rt; load(&rt, &w, 0, SECOND), None);
    run(&rt, &mut w, &[frees()]);
    assert_eq!(rt; w.kernel.freed().objects(), [1, 0].as_slice());
    assert_eq!(rt; w.kernel.label(), None);
    let last = (0, Call::Malloc(24), Resume::Return(0x10_0000_3010));
    let steps = [last, (0, Call::Free(third), Resume::Return(0))];
    run(&rt, &mut w, &steps);
    assert_eq!(rt; w.kernel.freed().count(), 0);
    let realloc = Call::Realloc {
        pointer: 0x10_0000_3010,
        size: 30,
    };
    let steps = [(0, realloc, Resume::Return(0x10_0000_4010))];
    run(&rt, &mut w, &steps);
    assert_eq!(rt; w.kernel.freed().objects(), [2].as_slice());
    let moved = Label::Moved {
        pid: 0,
        old: 3,
        call: 7,
        object: 4,
        first: 0x100_0004,
        pages: 1,
        size: 30,
    };
    assert_eq!(rt; w.kernel.label(), Some(moved));
    assert_eq!(rt; w.clears, 4);
    Ok(())
}

/// What waits in a parent waits in its child too, and each lets go its own.
#[test]
fn child_frees_in_pairs(rt: HostRuntime) -> Result<(), Fail> {
    let mut pairs = config(2);
    pairs.batch = 2;
    let mut w = open(&rt, rt.alloc(), pairs)?;
    let steps = [
        gives(),
        (0, Call::Malloc(24), Resume::Return(SECOND)),
        frees(),
        (0, Call::Fork, Resume::Return(1)),
        (1, Call::Free(SECOND), Resume::Return(0)),
    ];
    run(&rt, &mut w, &steps);
    assert_eq!(rt; w.kernel.freed().objects(), [0, 1].as_slice());
    assert_eq!(rt; load(&rt, &w, 1, SECOND), None);
    let header = load(&rt, &w, 0, SECOND - 8);
    assert_eq!(rt; header, Some(24));
    run(&rt, &mut w, &[(0, Call::Free(SECOND), Resume::Return(0))]);
    assert_eq!(rt; w.kernel.freed().objects(), [0, 1].as_slice());
    let ends = [
        (1, Call::Exit(0), Resume::Idle),
        (0, Call::Exit(0), Resume::Idle),
    ];
    run(&rt, &mut w, &ends);
    assert_eq!(rt; in_use(&w), 0);
    Ok(())
}
