//! Guests that end by a fault, and the line of each.

use super::code::{
    A0, A1, A2, ECALL, S0, S1, SP, T0, T1, ZERO, addi, jalr, jump, ld, lui, number, sd, slli,
};
use super::support::{Match, Row, check_rows};
use std::alloc::Global;
use std::process::Abort;
use std::test::Fail;

/// A guest that ends by a fault of this line, by default words.
fn faults<'a>(code: &'a [u32], line: &'a str) -> Row<'a> {
    Row {
        line: "oscar",
        code,
        data: b"",
        status: 70,
        out: b"",
        err: line,
        matched: Match::Front,
    }
}

/// Grants 24 bytes, kept in s0.
const GRANT: [u32; 4] = [0x0180_0513, 0x0030_0893, ECALL, 0x0005_0413];

/// The instructions behind `GRANT`, as one guest of twelve.
fn granted(rest: [u32; 8]) -> [u32; 12] {
    let [a, b, c, d] = GRANT;
    let [e, f, g, h, i, j, k, l] = rest;
    [a, b, c, d, e, f, g, h, i, j, k, l]
}

/// Nothing more.
const END: u32 = 0;

#[test]
fn uses_after_free(rt: HostRuntime) -> Result<(), Fail> {
    let read = granted([number(4), ECALL, ld(T1, 8, S0), END, END, END, END, END]);
    let twice = granted([
        number(4),
        ECALL,
        addi(A0, S0, 0),
        number(4),
        ECALL,
        END,
        END,
        END,
    ]);
    let moved = granted([
        number(4),
        ECALL,
        addi(A0, S0, 0),
        addi(A1, ZERO, 8),
        number(5),
        ECALL,
        END,
        END,
    ]);
    let written = granted([
        number(4),
        ECALL,
        addi(A0, S0, 0),
        addi(A1, ZERO, 8),
        number(2),
        ECALL,
        END,
        END,
    ]);
    check_rows(
        &rt,
        rt.alloc(),
        &[
            faults(
                &read,
                "fault: process 0 hart 0 cause 13 at 0x1000000018: object 0 offset 8 freed by call 1\nrun: picks ",
            ),
            faults(
                &twice,
                "fault: process 0 hart 0 double free at 0x1000000010: object 0 freed by call 1\nrun: picks ",
            ),
            faults(
                &moved,
                "fault: process 0 hart 0 double free at 0x1000000010: object 0 freed by call 1\nrun: picks ",
            ),
            faults(
                &written,
                "fault: process 0 hart 0 cause 13 at 0x1000000010: object 0 offset 0 freed by call 1\nrun: picks ",
            ),
        ],
    )
}

#[test]
fn frees_of_no_object(rt: HostRuntime) -> Result<(), Fail> {
    let inner = granted([addi(A0, S0, 16), number(4), ECALL, END, END, END, END, END]);
    // 0x2000400010: the block below the object
    let block = [
        lui(A0, 0x20004),
        slli(A0, A0, 8),
        addi(A0, A0, 16),
        number(4),
        ECALL,
    ];
    let null = [
        addi(A0, ZERO, 0),
        number(4),
        ECALL,
        addi(A0, A0, 5),
        number(1),
        ECALL,
    ];
    check_rows(
        &rt,
        rt.alloc(),
        &[
            faults(
                &inner,
                "fault: process 0 hart 0 bad free at 0x1000000020: no object starts there\n",
            ),
            faults(
                &block,
                "fault: process 0 hart 0 bad free at 0x2000400010: no object starts there\n",
            ),
            Row {
                line: "oscar",
                code: &null,
                data: b"",
                status: 5,
                out: b"",
                err: "run: picks ",
                matched: Match::Front,
            },
        ],
    )
}

#[test]
fn headers_that_were_changed(rt: HostRuntime) -> Result<(), Fail> {
    let size = granted([
        addi(T0, ZERO, 9),
        sd(T0, -8, A0),
        number(4),
        ECALL,
        END,
        END,
        END,
        END,
    ]);
    let both = granted([
        addi(T0, ZERO, 9),
        sd(T0, -16, A0),
        sd(T0, -8, A0),
        number(4),
        ECALL,
        END,
        END,
        END,
    ]);
    check_rows(
        &rt,
        rt.alloc(),
        &[
            faults(
                &size,
                "fault: process 0 hart 0 header of object 0 kept 0x18 found 0x9\n",
            ),
            faults(
                &both,
                "fault: process 0 hart 0 header of object 0 kept 0x2000400010 found 0x9\n",
            ),
        ],
    )
}

#[test]
fn accesses_outside(rt: HostRuntime) -> Result<(), Fail> {
    let below = granted([ld(T0, -16, A0), ld(T1, 0, T0), END, END, END, END, END, END]);
    let far = [addi(A0, ZERO, 64), slli(A0, A0, 32), ld(T0, 0, A0)];
    let jump_far = [addi(A0, ZERO, 64), slli(A0, A0, 32), jalr(ZERO, A0)];
    let write = [addi(A0, ZERO, -4), addi(A1, ZERO, 8), number(2), ECALL];
    check_rows(
        &rt,
        rt.alloc(),
        &[
            faults(
                &below,
                "fault: process 0 hart 0 cause 13 at 0x2000400010: no object\n",
            ),
            faults(
                &far,
                "fault: process 0 hart 0 cause 13 at 0x4000000000: no object\n",
            ),
            faults(
                &jump_far,
                "fault: process 0 hart 0 cause 12 at 0x4000000000: no object\n",
            ),
            faults(
                &write,
                "fault: process 0 hart 0 cause 13 at 0xfffffffffffffffc: no object\n",
            ),
        ],
    )
}

#[test]
fn calls_and_threads(rt: HostRuntime) -> Result<(), Fail> {
    let unknown = [number(12), ECALL];
    let thread = [
        addi(A0, ZERO, 2),
        addi(A1, ZERO, 0),
        addi(A2, ZERO, 0),
        number(7),
        ECALL,
        jump(0),
    ];
    check_rows(
        &rt,
        rt.alloc(),
        &[
            faults(&unknown, "fault: process 0 hart 0 call 12 unknown\n"),
            faults(
                &thread,
                "fault: process 0 hart 1 cause 0 at 0x2: no object\n",
            ),
        ],
    )
}

/// Main grants 24 bytes, spawns a thread that reads them for ever, frees them and joins the thread.
fn shared_with_a_thread() -> [u32; 19] {
    [
        addi(A0, ZERO, 24),
        number(3),
        ECALL,
        addi(S0, A0, 0),
        lui(A0, 0x10),
        addi(A0, A0, 68),
        addi(A1, SP, -256),
        addi(A2, S0, 0),
        number(7),
        ECALL,
        addi(S1, A0, 0),
        addi(A0, S0, 0),
        number(4),
        ECALL,
        addi(A0, S1, 0),
        number(8),
        ECALL,
        // the thread, at 68
        ld(T0, 0, A0),
        jump(-4),
    ]
}

const DIGITS: [&str; 10] = ["0", "1", "2", "3", "4", "5", "6", "7", "8", "9"];

/// The report of the thread, whichever instruction of it comes first after the free, under the seed of two
/// digits.
fn check_seed(rt: &impl Abort, alloc: Global, tens: &str, ones: &str) -> Result<(), Fail> {
    let code = shared_with_a_thread();
    let mut line = String::new(alloc);
    line.push_str("oscar --seed ")?;
    line.push_str(tens)?;
    line.push_str(ones)?;
    let row = Row {
        line: &line,
        ..faults(
            &code,
            "fault: process 0 hart 1 cause 13 at 0x1000000010: object 0 offset 0 freed by call 2\nrun: picks ",
        )
    };
    check_rows(rt, alloc, &[row])
}

/// Every seed from 0 to 63.
#[test]
fn thread_outlives_an_object(rt: HostRuntime) -> Result<(), Fail> {
    for tens in &DIGITS[..6] {
        for ones in &DIGITS {
            check_seed(&rt, rt.alloc(), tens, ones)?;
        }
    }
    for ones in &DIGITS[..4] {
        check_seed(&rt, rt.alloc(), "6", ones)?;
    }
    Ok(())
}
