use super::*;
use std::test::Fail;

/// A thread that lives is done, as a join by its process shows.
fn finish(threads: &mut Threads, pid: Pid, number: ThreadNo, value: u64) -> bool {
    match threads.join(pid, u64::from(number)) {
        JoinLook::NotYet => {
            threads.done(number, value);
            true
        }
        JoinLook::Value(_) | JoinLook::Unknown => false,
    }
}

#[test]
fn three_threads_of_two_processes(rt: HostRuntime) -> Result<(), Fail> {
    let mut threads = Threads::new(rt.alloc())?;
    assert_eq!(rt; threads.join(0, 9), JoinLook::Unknown);
    assert_eq!(rt; threads.spawn(0), Some(1));
    assert_eq!(rt; threads.spawn(1), Some(2));
    assert_eq!(rt; threads.spawn(0), Some(3));
    assert_eq!(rt; threads.join(0, 3), JoinLook::NotYet);
    assert!(rt; finish(&mut threads, 0, 3, 17));
    assert!(rt; finish(&mut threads, 1, 2, u64::MAX));
    for _ in 0..2 {
        assert_eq!(rt; threads.join(0, 3), JoinLook::Value(17));
        assert_eq!(rt; threads.join(1, 2), JoinLook::Value(u64::MAX));
        assert_eq!(rt; threads.join(0, 1), JoinLook::NotYet);
    }
    for (pid, number) in [(1, 1), (0, 2), (2, 3), (0, 0), (0, 4), (0, u64::MAX)] {
        assert_eq!(rt; threads.join(pid, number), JoinLook::Unknown);
    }
    Ok(())
}

#[test]
fn as_many_threads_as_there_may_be(rt: HostRuntime) -> Result<(), Fail> {
    let mut threads = Threads::new(rt.alloc())?;
    for number in 1..=4096 {
        assert_eq!(rt; threads.spawn(0), Some(number));
        assert!(rt; finish(&mut threads, 0, number, u64::from(number) * 3));
    }
    assert_eq!(rt; threads.spawn(0), None);
    assert_eq!(rt; threads.join(0, 1), JoinLook::Value(3));
    assert_eq!(rt; threads.join(0, 4096), JoinLook::Value(12288));
    assert_eq!(rt; threads.join(0, 4097), JoinLook::Unknown);
    Ok(())
}
