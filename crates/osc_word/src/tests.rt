use crate::{Call, Config, ConfigFault, HeapKind, Job, Jobs, Regs, Waiting, WordAt};
use std::test::Fail;

fn config() -> Config {
    Config {
        heap: HeapKind::Oscar,
        harts: 4,
        processes: 16,
        frames: 1024,
        shadows: 65536,
        journal: 65536,
        levels: 3,
        batch: 1,
    }
}

#[test]
fn limits(rt: HostRuntime) {
    let least = Config {
        harts: 1,
        processes: 1,
        frames: 64,
        shadows: 1,
        journal: 1,
        ..config()
    };
    let most = Config {
        harts: 8,
        processes: 64,
        frames: 4096,
        shadows: 1_048_576,
        journal: 1_048_576,
        levels: 4,
        batch: 64,
        ..config()
    };
    for good in [config(), least, most] {
        assert_eq!(rt; good.check(), Ok(()));
    }
    for (bad, fault) in [
        (
            Config {
                harts: 0,
                frames: 0,
                ..config()
            },
            ConfigFault::Harts,
        ),
        (
            Config {
                harts: 9,
                ..config()
            },
            ConfigFault::Harts,
        ),
        (
            Config {
                processes: 0,
                shadows: 0,
                ..config()
            },
            ConfigFault::Processes,
        ),
        (
            Config {
                processes: 65,
                ..config()
            },
            ConfigFault::Processes,
        ),
        (
            Config {
                frames: 63,
                journal: 0,
                ..config()
            },
            ConfigFault::Frames,
        ),
        (
            Config {
                frames: 4097,
                ..config()
            },
            ConfigFault::Frames,
        ),
        (
            Config {
                shadows: 0,
                journal: 0,
                ..config()
            },
            ConfigFault::Shadows,
        ),
        (
            Config {
                shadows: 1_048_577,
                ..config()
            },
            ConfigFault::Shadows,
        ),
        (
            Config {
                journal: 0,
                ..config()
            },
            ConfigFault::Journal,
        ),
        (
            Config {
                journal: 1_048_577,
                levels: 2,
                ..config()
            },
            ConfigFault::Journal,
        ),
        (
            Config {
                levels: 2,
                batch: 0,
                ..config()
            },
            ConfigFault::Levels,
        ),
        (
            Config {
                levels: 5,
                ..config()
            },
            ConfigFault::Levels,
        ),
        (
            Config {
                batch: 0,
                ..config()
            },
            ConfigFault::Batch,
        ),
        (
            Config {
                batch: 65,
                ..config()
            },
            ConfigFault::Batch,
        ),
    ] {
        assert_eq!(rt; bad.check(), Err(fault));
    }
}

#[test]
fn registers(rt: HostRuntime) {
    let mut regs = Regs::new();
    regs.set(0, 7);
    regs.set(31, u64::MAX);
    regs.set(1, 5);
    regs.set(1, 6);
    assert_eq!(rt;
        [regs.get(0), regs.get(1), regs.get(2), regs.get(31)],
        [0, 6, 0, u64::MAX]
    );
}

#[test]
fn jobs_in_order(rt: HostRuntime) -> Result<(), Fail> {
    let at = WordAt {
        frame: 3,
        index: 511,
    };
    let mut jobs = Jobs::new(rt.alloc(), 2)?;
    assert_eq!(rt; jobs.spare(), 2);
    jobs.push(Job::PutWord { at, value: 9 });
    jobs.push(Job::ClearBox { hart: 1 });
    assert_eq!(rt; jobs.spare(), 0);
    assert_eq!(rt; jobs.get(0), Some(Job::PutWord { at, value: 9 }));
    assert_eq!(rt; jobs.get(1), Some(Job::ClearBox { hart: 1 }));
    assert_eq!(rt; jobs.get(2), None);
    jobs.clear();
    assert_eq!(rt; jobs.spare(), 2);
    assert_eq!(rt; jobs.get(0), None);
    Ok(())
}

#[test]
fn waiting_in_order(rt: HostRuntime) {
    let mut waiting = Waiting::new();
    assert_eq!(rt; waiting.count(), 0);
    for object in 0..64 {
        if waiting.count() < 64 {
            waiting.push(object);
        }
    }
    assert_eq!(rt; waiting.count(), 64);
    assert_eq!(rt; waiting.objects().first(), Some(&0));
    assert_eq!(rt; waiting.objects().last(), Some(&63));
    waiting.clear();
    assert_eq!(rt; waiting.count(), 0);
    waiting.push(7);
    assert_eq!(rt; waiting.objects().first(), Some(&7));
}

#[test]
fn calls(rt: HostRuntime) {
    let mut regs = Regs::new();
    for (register, value) in [(10, 100), (11, 200), (12, 300)] {
        regs.set(register, value);
    }
    for (number, call) in [
        (0, Call::Unknown(0)),
        (1, Call::Exit(100)),
        (2, Call::Write { buf: 100, len: 200 }),
        (3, Call::Malloc(100)),
        (4, Call::Free(100)),
        (
            5,
            Call::Realloc {
                pointer: 100,
                size: 200,
            },
        ),
        (6, Call::Fork),
        (
            7,
            Call::Spawn {
                pc: 100,
                sp: 200,
                arg: 300,
            },
        ),
        (8, Call::Join(100)),
        (9, Call::Done(100)),
        (10, Call::Share(100)),
        (11, Call::Wait(100)),
        (12, Call::Unknown(12)),
        (u64::MAX, Call::Unknown(u64::MAX)),
    ] {
        regs.set(17, number);
        assert_eq!(rt; Call::of(&regs), call);
    }
}
