ghost use Rattle.std.specs.Prelude.{◌≡◌};

use super::*;
use osc_mark::Marks;
use osc_word::{
    Access, Answer, Call, Choice, Config, Entry, Fault, HeapKind, Job, Label, Order, Pid, Regs,
    Request, Resume, Start, WordAt,
};
use std::process::Abort;
use std::test::Fail;

/// The user address of the first object of a process, of 24 bytes.
const POINTER: u64 = 0x10_0000_0010;

/// The user address of the second.
const SECOND: u64 = 0x10_0000_1040;

/// Grants one page, after looking whether that may be done.
fn grant_on(rt: &impl Abort, marks: &mut Marks, size: u64, canon: u64) -> u32
    ensures { marks.new.limit ≡ marks.old.limit }
{
    assert!(rt; marks.left() >= 1);
    marks.grant(1, size, canon)
}

/// Kills an object that is live.
fn kill_on(rt: &impl Abort, marks: &mut Marks, object: u32, call: u32)
    ensures { marks.new.limit ≡ marks.old.limit }
{
    assert!(rt; object < marks.next_object());
    let is_live = matches!(marks.fact(object).state, osc_mark::ObjectState::Live);
    assert!(rt; is_live);
    marks.kill(object, call);
}

fn config() -> Config {
    Config {
        heap: HeapKind::Oscar,
        harts: 4,
        processes: 64,
        frames: 1024,
        shadows: 65536,
        journal: 65536,
        levels: 3,
        batch: 1,
    }
}

/// A call of a spawned thread of process 1 on hart 2.
fn calling(rt: &impl Abort, call: Call) -> Calling {
    let record = HartRecord::Runs {
        pid: 1,
        thread: Some(5),
    };
    let mut regs = Regs::new();
    regs.set(10, 77);
    regs.set(11, 78);
    Calling::of(2, &regs, 0x10008, Request::Call(call), Some(record)).expect(rt, "it runs a thread")
}

fn access(address: u64) -> Fault {
    Fault::Access { cause: 13, address }
}

/// Two objects, of which the first died by call 1.
fn two_objects(rt: &impl Abort, marks: &mut Marks) {
    assert_eq!(rt; grant_on(rt, marks, 24, 0x20_0040_0010), 0);
    assert_eq!(rt; grant_on(rt, marks, 24, 0x20_0040_0040), 1);
    kill_on(rt, marks, 0, 1);
}

#[test]
fn reports_of_accesses(rt: HostRuntime) -> Result<(), Fail> {
    let mut marks = Marks::new(rt.alloc(), 8)?;
    two_objects(&rt, &mut marks);
    for (pid, hart, address, place) in [
        (
            0,
            0,
            POINTER + 8,
            Place::Dead {
                object: 0,
                offset: 8,
                call: 1,
            },
        ),
        (
            1,
            1,
            POINTER,
            Place::Dead {
                object: 0,
                offset: 0,
                call: 1,
            },
        ),
        (
            0,
            0,
            SECOND - 24,
            Place::Live {
                object: 1,
                offset: -24,
            },
        ),
        (
            0,
            0,
            0x10_0000_1fff,
            Place::Live {
                object: 1,
                offset: 4031,
            },
        ),
        (0, 0, 0x10_0000_2000, Place::Nowhere),
        (0, 0, 0x20_0040_0010, Place::Nowhere),
        (0, 0, u64::MAX, Place::Nowhere),
    ] {
        assert_eq!(rt;
            report(pid, hart, &marks, access(address)),
            Report {
                pid,
                hart,
                fault: access(address),
                place,
            }
        );
    }
    for fault in [
        Fault::BadFree { pointer: POINTER },
        Fault::UnknownCall { number: POINTER },
    ] {
        assert_eq!(rt; report(0, 0, &marks, fault).place, Place::Nowhere);
    }
    Ok(())
}

#[test]
fn how_harts_go_on(rt: HostRuntime) -> Result<(), Fail> {
    let mut marks = Marks::new(rt.alloc(), 8)?;
    two_objects(&rt, &mut marks);
    let fork = Call::Fork;
    let spawn = Call::Spawn {
        pc: 0,
        sp: 0,
        arg: 0,
    };
    for (call, answer, due) in [
        (
            Call::Free(POINTER),
            Answer::DoubleFree { object: 0, call: 1 },
            Resume::Fault(Fault::DoubleFree {
                pointer: POINTER,
                object: 0,
                call: 1,
            }),
        ),
        (
            Call::Free(POINTER + 16),
            Answer::NotAnObject,
            Resume::Fault(Fault::BadFree {
                pointer: 0x10_0000_0020,
            }),
        ),
        (Call::Free(0), Answer::Nothing, Resume::Return(0)),
        (
            Call::Free(SECOND),
            Answer::HeaderDamaged {
                kept: 0x18,
                found: 9,
            },
            Resume::Fault(Fault::Header {
                object: 1,
                kept: 0x18,
                found: 9,
            }),
        ),
        (
            Call::Realloc {
                pointer: SECOND,
                size: 30,
            },
            Answer::Moved {
                old: 1,
                object: 2,
                pointer: 0x10_0000_2010,
            },
            Resume::Return(0x10_0000_2010),
        ),
        (Call::Wait(1), Answer::Number(70), Resume::Return(70)),
        (fork, Answer::NoHart, Resume::Return(u64::MAX)),
        (fork, Answer::NoProcess, Resume::Return(u64::MAX)),
        (spawn, Answer::NoHart, Resume::Return(u64::MAX)),
        (Call::Share(0), Answer::Empty, Resume::Return(0)),
        (Call::Share(100_000), Answer::NoFrames, Resume::Return(0)),
        (Call::Malloc(24), Answer::NoShadow, Resume::Return(0)),
        (Call::Join(9), Answer::Unknown, Resume::Return(u64::MAX)),
        (
            Call::Unknown(12),
            Answer::Unknown,
            Resume::Fault(Fault::UnknownCall { number: 12 }),
        ),
        (
            Call::Write { buf: 0, len: 9 },
            Answer::BadBuffer { address: 4 },
            Resume::Fault(access(4)),
        ),
        (Call::Exit(0), Answer::Ended, Resume::Idle),
    ] {
        assert_eq!(rt; resume(&marks, call, answer), due);
    }
    Ok(())
}

#[test]
fn joins_and_waits(rt: HostRuntime) {
    assert_eq!(rt; child_look(0, Some(0), Some(6)), WaitLook::Status(6));
    assert_eq!(rt; child_look(0, Some(0), None), WaitLook::NotYet);
    assert_eq!(rt; child_look(0, Some(1), Some(6)), WaitLook::Unknown);
    assert_eq!(rt; child_look(0, None, Some(6)), WaitLook::Unknown);
    assert_eq!(rt; wait_answer(WaitLook::Status(70)), Some(Answer::Number(70)));
    assert_eq!(rt; wait_answer(WaitLook::NotYet), None);
    assert_eq!(rt; wait_answer(WaitLook::Unknown), Some(Answer::Unknown));
    assert_eq!(rt; join_answer(JoinLook::Value(7)), Some(Answer::Number(7)));
    assert_eq!(rt; join_answer(JoinLook::NotYet), None);
    assert_eq!(rt; join_answer(JoinLook::Unknown), Some(Answer::Unknown));
}

#[test]
fn who_asks(rt: HostRuntime) {
    let asking = calling(&rt, Call::Malloc(24));
    assert_eq!(rt; asking.hart(), 2);
    assert_eq!(rt; asking.pid(), 1);
    assert_eq!(rt; asking.thread(), Some(5));
    assert_eq!(rt; asking.call(), Call::Malloc(24));
    assert_eq!(rt;
        asking.entry(Answer::NoShadow),
        Entry {
            pid: 1,
            hart: 2,
            call: Call::Malloc(24),
            answer: Answer::NoShadow,
        }
    );
    let regs = Regs::new();
    let runs = HartRecord::Runs {
        pid: 0,
        thread: None,
    };
    for (request, record) in [
        (Request::Idle, Some(runs)),
        (Request::Call(Call::Fork), Some(HartRecord::Idle)),
        (
            Request::Call(Call::Fork),
            Some(HartRecord::Stopped { pid: 0 }),
        ),
        (Request::Call(Call::Fork), None),
    ] {
        assert_eq!(rt; Calling::of(0, &regs, 0, request, record), None);
    }
    for (pointer, due) in [
        (0, Call::Malloc(24)),
        (
            1,
            Call::Realloc {
                pointer: 1,
                size: 24,
            },
        ),
    ] {
        assert_eq!(rt; meant(Call::Realloc { pointer, size: 24 }), due);
    }
    assert_eq!(rt; meant(Call::Free(0)), Call::Free(0));
}

/// What the boxes of four harts get, of a call of process 0.
fn changes(effect: &Effect, others_live: bool, records: &Records) -> [BoxChange; 4] {
    [
        change(0, 0, effect, others_live, records),
        change(0, 1, effect, others_live, records),
        change(0, 2, effect, others_live, records),
        change(0, 3, effect, others_live, records),
    ]
}

/// A hart gets another record, after looking whether there is such a hart.
fn set_on(rt: &impl Abort, records: &mut Records, hart: u32, record: HartRecord) {
    assert!(rt; records.get(hart).is_some());
    records.set(hart, record);
}

/// A process ends, after looking whether there is such a hart.
fn end_on(rt: &impl Abort, records: &mut Records, hart: u32, pid: Pid) {
    assert!(rt; records.get(hart).is_some());
    records.end(hart, pid);
}

#[test]
fn process_with_two_harts_ends(rt: HostRuntime) {
    let mut records = Records::new(4);
    let child = HartRecord::Runs {
        pid: 1,
        thread: None,
    };
    let spawned = HartRecord::Runs {
        pid: 0,
        thread: Some(1),
    };
    assert_eq!(rt; records.idle_hart(), Some(1));
    set_on(&rt, &mut records, 1, spawned);
    assert_eq!(rt; records.idle_hart(), Some(2));
    set_on(&rt, &mut records, 2, child);
    assert!(rt; !records.is_last(0));
    assert!(rt; records.is_last(1));
    end_on(&rt, &mut records, 0, 0);
    for (hart, due) in [
        (0, Some(HartRecord::Idle)),
        (1, Some(HartRecord::Stopped { pid: 0 })),
        (2, Some(child)),
        (3, Some(HartRecord::Idle)),
        (4, None),
    ] {
        assert_eq!(rt; records.get(hart), due);
    }
    let ends = Effect::Ends { status: 6 };
    assert_eq!(rt;
        changes(&ends, true, &records),
        [
            BoxChange::Clear,
            BoxChange::Put(Order::Stop),
            BoxChange::Clear,
            BoxChange::Clear,
        ]
    );
    assert_eq!(rt;
        changes(&ends, false, &records),
        [BoxChange::Put(Order::Over); 4]
    );
    records.leave(1);
    records.leave(2);
    assert_eq!(rt; records.get(1), Some(HartRecord::Idle));
    assert_eq!(rt; records.get(2), Some(child));
}

#[test]
fn every_hart_runs(rt: HostRuntime) {
    let mut records = Records::new(8);
    assert_eq!(rt; records.harts(), 8);
    for hart in 1..8 {
        assert_eq!(rt; records.idle_hart(), Some(hart));
        set_on(
            &rt,
            &mut records,
            hart,
            HartRecord::Runs {
                pid: hart,
                thread: None,
            },
        );
    }
    assert_eq!(rt; records.idle_hart(), None);
}

#[test]
fn what_boxes_get(rt: HostRuntime) {
    let records = Records::new(4);
    let start = spawn_start(&config(), 0, 3, 0x10040, 0x1000, 9);
    let starts = Effect::Starts { hart: 2, start };
    let order = Order::Start(spawn_start(&config(), 0, 3, 0x10040, 0x1000, 9));
    assert_eq!(rt;
        changes(&Effect::Nothing, true, &records),
        [BoxChange::Keep; 4]
    );
    assert_eq!(rt;
        changes(&Effect::Clears, true, &records),
        [BoxChange::Clear; 4]
    );
    assert_eq!(rt;
        changes(&starts, true, &records),
        [
            BoxChange::Keep,
            BoxChange::Keep,
            BoxChange::Put(order),
            BoxChange::Keep,
        ]
    );
}

#[test]
fn what_is_left_open(rt: HostRuntime) {
    let start = spawn_start(&config(), 0, 3, 0x10040, 0x1000, 9);
    let starts = Effect::Starts { hart: 2, start };
    assert_eq!(rt;
        choice(Call::Fork, Answer::Number(1), &starts),
        Choice::Started(2)
    );
    let realloc = Call::Realloc {
        pointer: POINTER,
        size: 30,
    };
    for (call, answer, due) in [
        (Call::Fork, Answer::NoHart, Choice::Refused),
        (Call::Share(0), Answer::Empty, Choice::Refused),
        (Call::Share(1), Answer::Number(0x2_0000_0000), Choice::Given),
        (Call::Wait(1), Answer::Number(6), Choice::Plain),
        (Call::Malloc(24), Answer::NoShadow, Choice::Refused),
        (
            Call::Malloc(24),
            Answer::Given {
                object: 0,
                pointer: POINTER,
            },
            Choice::Given,
        ),
        (realloc, Answer::NotAnObject, Choice::Plain),
        (realloc, Answer::NoFrames, Choice::Refused),
        (
            Call::Free(POINTER),
            Answer::Freed { object: 0 },
            Choice::Plain,
        ),
    ] {
        assert_eq!(rt; choice(call, answer, &Effect::Nothing), due);
    }
}

#[test]
fn ends_of_processes(rt: HostRuntime) {
    assert_eq!(rt; Effect::of_exit(70), Effect::Ends { status: 6 });
    assert_eq!(rt; Effect::of_exit(u64::MAX), Effect::Ends { status: 63 });
    assert_eq!(rt; Effect::of_fault(), Effect::Ends { status: 70 });
}

#[test]
fn what_commits_show(rt: HostRuntime) {
    let start = fork_start(&config(), &calling(&rt, Call::Fork), 3, 40);
    let starts = Effect::Starts { hart: 3, start };
    let ends = Effect::Ends { status: 6 };
    let fault = Effect::of_fault();
    let nothing = Effect::Nothing;
    let spawn = Call::Spawn {
        pc: 0,
        sp: 0,
        arg: 0,
    };
    for (call, answer, effect, due) in [
        (
            Call::Free(POINTER),
            Answer::Freed { object: 4 },
            &Effect::Clears,
            Some(Label::Freeing {
                pid: 1,
                object: 4,
                call: 9,
            }),
        ),
        (
            Call::Realloc {
                pointer: POINTER,
                size: 30,
            },
            Answer::Moved {
                old: 4,
                object: 6,
                pointer: SECOND,
            },
            &Effect::Clears,
            Some(Label::Moving {
                pid: 1,
                old: 4,
                call: 9,
            }),
        ),
        (
            Call::Write {
                buf: 0x1ff8,
                len: 16,
            },
            Answer::BadBuffer { address: 0x2000 },
            &nothing,
            Some(Label::Touched {
                pid: 1,
                hart: 2,
                address: 0x2000,
                width: 1,
                kind: Access::Load,
                done: false,
            }),
        ),
        (
            Call::Fork,
            Answer::Number(3),
            &starts,
            Some(Label::Forked { pid: 1, child: 3 }),
        ),
        (spawn, Answer::Number(3), &starts, None),
        (
            Call::Exit(70),
            Answer::Ended,
            &ends,
            Some(Label::Ended {
                pid: 1,
                fault: false,
                status: 6,
            }),
        ),
        (
            Call::End(access(4)),
            Answer::Ended,
            &fault,
            Some(Label::Ended {
                pid: 1,
                fault: true,
                status: 70,
            }),
        ),
        (Call::Done(6), Answer::Ended, &nothing, None),
        (Call::Malloc(24), Answer::NoShadow, &nothing, None),
    ] {
        assert_eq!(rt; plan_label(&calling(&rt, call), 9, answer, effect), due);
    }
}

#[test]
fn what_a_write_shows(rt: HostRuntime) {
    let write = calling(
        &rt,
        Call::Write {
            buf: u64::MAX - 1,
            len: 100,
        },
    );
    let job = Job::ToOut {
        at: WordAt { frame: 7, index: 1 },
        first: 0,
        count: 8,
    };
    assert_eq!(rt;
        out_label(&write, Answer::Number(12), job, 10),
        Some(Label::Touched {
            pid: 1,
            hart: 2,
            address: 0,
            width: 8,
            kind: Access::Load,
            done: true,
        })
    );
    assert_eq!(rt;
        out_label(&write, Answer::Number(12), Job::ClearBox { hart: 0 }, 0),
        None
    );
}

#[test]
fn what_returns_show(rt: HostRuntime) -> Result<(), Fail> {
    let mut marks = Marks::new(rt.alloc(), 8)?;
    two_objects(&rt, &mut marks);
    let given = Answer::Given {
        object: 1,
        pointer: SECOND,
    };
    assert_eq!(rt;
        answer_label(3, 9, &marks, given),
        Some(Label::Gave {
            pid: 3,
            object: 1,
            first: 0x100_0001,
            pages: 1,
            size: 24,
        })
    );
    let moved = Answer::Moved {
        old: 0,
        object: 1,
        pointer: SECOND,
    };
    assert_eq!(rt;
        answer_label(3, 9, &marks, moved),
        Some(Label::Moved {
            pid: 3,
            old: 0,
            call: 9,
            object: 1,
            first: 0x100_0001,
            pages: 1,
            size: 24,
        })
    );
    assert_eq!(rt;
        answer_label(3, 9, &marks, Answer::Freed { object: 0 }),
        None
    );
    assert_eq!(rt;
        freed_label(3, &marks, 0),
        Label::Freed {
            pid: 3,
            object: 0,
            call: 1,
        }
    );
    Ok(())
}

/// Whether registers are 0 but for these two.
fn has_only(regs: &Regs, two: [(u8, u64); 2]) -> bool {
    let mut due = Regs::new();
    for (register, value) in two {
        if register < 32 {
            due.set(register, value);
        }
    }
    *regs == due
}

#[test]
fn how_threads_begin(rt: HostRuntime) {
    let Start {
        pid,
        root,
        regs,
        pc,
        levels,
        frames,
    } = fork_start(&config(), &calling(&rt, Call::Fork), 3, 40);
    assert_eq!(rt; (pid, root, pc, levels, frames), (3, 40, 0x1000c, 3, 1024));
    assert!(rt; has_only(&regs, [(10, 0), (11, 78)]));
    let spawned = spawn_start(&config(), 1, 41, 0x10040, 0x2000, 9);
    assert_eq!(rt; spawned.pid, 1);
    assert_eq!(rt; spawned.root, 41);
    assert_eq!(rt; spawned.pc, 0x10040);
    assert!(rt; has_only(&spawned.regs, [(2, 0x2000), (10, 9)]));
}
