//! A slow and failing outside.

use super::runs::hello;
use super::support::{Outside, WELL, guest, run_on};
use crate::Status;
use std::test::Fail;

const SLOW: Outside<'static> = Outside { most: 1, ..WELL };

/// What a call answers and leaves of hello.
#[derive(Clone, Copy)]
struct Left<'a> {
    name: &'a str,
    outside: Outside<'a>,
    status: u8,
    out: &'a [u8],
    err: &'a [u8],
}

/// A source that fails at its first call of this number.
fn unread<'a>(name: &'a str, source_fails: &'a [u64]) -> Left<'a> {
    Left {
        name,
        outside: Outside {
            source_fails,
            ..SLOW
        },
        status: 66,
        out: b"",
        err: b"oscar: source fault\n",
    }
}

#[test]
fn fails_where_the_outside_does(rt: HostRuntime) -> Result<(), Fail> {
    let rows = [
        unread("read 1", &[1]),
        unread("read 2", &[2]),
        unread("read 3", &[3]),
        Left {
            name: "write 4 to out",
            outside: Outside {
                out_fails: &[4],
                ..SLOW
            },
            status: 67,
            out: b"hel",
            err: b"",
        },
        Left {
            name: "write 1 to out",
            outside: Outside {
                out_fails: &[1],
                ..WELL
            },
            status: 67,
            out: b"",
            err: b"",
        },
        Left {
            name: "write 1 to err",
            outside: Outside {
                err_fails: &[1],
                ..WELL
            },
            status: 67,
            out: b"hello\n",
            err: b"",
        },
        Left {
            name: "write 5 to err",
            outside: Outside {
                err_fails: &[5],
                ..SLOW
            },
            status: 67,
            out: b"hello\n",
            err: b"run:",
        },
    ];
    for row in &rows {
        let file = guest(rt.alloc(), &hello(), b"hello\n", 6)?;
        let given = run_on(rt.alloc(), "oscar", file, row.outside)?;
        let name = row.name;
        assert_eq!(rt; given.status, Status(row.status), "{name}");
        assert_eq!(rt; given.out.bytes(), row.out, "{name}");
        assert_eq!(rt; given.err.bytes(), row.err, "{name}");
    }
    Ok(())
}

#[test]
fn one_byte_at_a_time(rt: HostRuntime) -> Result<(), Fail> {
    let fast = run_on(
        rt.alloc(),
        "oscar",
        guest(rt.alloc(), &hello(), b"hello\n", 6)?,
        WELL,
    )?;
    let slow = run_on(
        rt.alloc(),
        "oscar",
        guest(rt.alloc(), &hello(), b"hello\n", 6)?,
        SLOW,
    )?;
    assert_eq!(rt; slow.status, Status(0));
    assert_eq!(rt; slow.out.bytes(), b"hello\n".as_slice());
    assert_eq!(rt; slow.err.bytes(), fast.err.bytes());
    Ok(())
}

#[test]
fn an_err_that_fails_at_a_refusal(rt: HostRuntime) -> Result<(), Fail> {
    let outside = Outside {
        err_fails: &[1],
        ..WELL
    };
    let given = run_on(rt.alloc(), "oscar", Vec::new(rt.alloc()), outside)?;
    assert_eq!(rt; given.status, Status(67));
    assert_eq!(rt; given.out.bytes(), b"".as_slice());
    assert_eq!(rt; given.err.bytes(), b"".as_slice());
    Ok(())
}
