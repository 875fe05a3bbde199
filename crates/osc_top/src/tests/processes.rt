//! Processes, shared regions and threads.

use super::code::{A0, A1, ECALL, S0, S1, T0, T1, ZERO, add, addi, bne, jump, ld, lui, number, sd};
use super::support::{Match, Row, check_rows};
use std::test::Fail;

/// A child stores 6 into its copy of an object and 7 into a shared page, and ends with 6. Its parent adds
/// that, its own 5 in the object and what the page holds.
fn parent_and_child() -> [u32; 28] {
    [
        addi(A0, ZERO, 1),
        number(10),
        ECALL,
        addi(S1, A0, 0),
        addi(A0, ZERO, 8),
        number(3),
        ECALL,
        addi(S0, A0, 0),
        addi(T0, ZERO, 5),
        sd(T0, 0, S0),
        number(6),
        ECALL,
        bne(A0, ZERO, 32),
        addi(T0, ZERO, 6),
        sd(T0, 0, S0),
        addi(T0, ZERO, 7),
        sd(T0, 0, S1),
        addi(A0, ZERO, 6),
        number(1),
        ECALL,
        number(11),
        ECALL,
        ld(T0, 0, S0),
        ld(T1, 0, S1),
        add(A0, A0, T0),
        add(A0, A0, T1),
        number(1),
        ECALL,
    ]
}

/// Shares a page and writes its address.
fn shares() -> [u32; 12] {
    [
        addi(A0, ZERO, 1),
        number(10),
        ECALL,
        lui(S0, 0x11),
        sd(A0, 0, S0),
        addi(A0, S0, 0),
        addi(A1, ZERO, 8),
        number(2),
        ECALL,
        addi(A0, ZERO, 0),
        number(1),
        ECALL,
    ]
}

/// A child loads from what its parent freed, and the parent ends with its status.
fn freed_by_the_parent() -> [u32; 16] {
    [
        addi(A0, ZERO, 24),
        number(3),
        ECALL,
        addi(S0, A0, 0),
        number(4),
        ECALL,
        number(6),
        ECALL,
        bne(A0, ZERO, 12),
        ld(T0, 0, S0),
        jump(0),
        addi(A0, ZERO, 1),
        number(11),
        ECALL,
        number(1),
        ECALL,
    ]
}

/// A guest that runs by default words.
fn runs<'a>(code: &'a [u32], data: &'a [u8], status: u8, out: &'a [u8], err: &'a str) -> Row<'a> {
    Row {
        line: "oscar",
        code,
        data,
        status,
        out,
        err,
        matched: Match::Front,
    }
}

#[test]
fn forks(rt: HostRuntime) -> Result<(), Fail> {
    let summary = "run: picks ";
    let child =
        "fault: process 1 hart 1 cause 13 at 0x1000000010: object 0 offset 0 freed by call 1\nrun: picks ";
    check_rows(
        &rt,
        rt.alloc(),
        &[
            runs(&parent_and_child(), b"", 18, b"", summary),
            // 0x200000000
            runs(&shares(), &[0; 8], 0, b"\0\0\0\0\x02\0\0\0", summary),
            runs(&freed_by_the_parent(), b"", 6, b"", child),
        ],
    )
}

/// Fork, spawn, a share of no page, one of 100000 pages, and a join of no thread; it writes the answers.
fn refused() -> [u32; 27] {
    [
        lui(S0, 0x11),
        number(6),
        ECALL,
        sd(A0, 0, S0),
        lui(A0, 0x10),
        number(7),
        ECALL,
        sd(A0, 8, S0),
        addi(A0, ZERO, 0),
        number(10),
        ECALL,
        sd(A0, 16, S0),
        lui(A0, 0x18),
        addi(A0, A0, 0x6A0),
        ECALL,
        sd(A0, 24, S0),
        addi(A0, ZERO, 9),
        number(8),
        ECALL,
        sd(A0, 32, S0),
        addi(A0, S0, 0),
        addi(A1, ZERO, 40),
        number(2),
        ECALL,
        addi(A0, ZERO, 0),
        number(1),
        ECALL,
    ]
}

/// Shares 2^64 - 1 pages, and ends with 5 more than the answer.
fn shares_too_much() -> [u32; 6] {
    [
        addi(A0, ZERO, -1),
        number(10),
        ECALL,
        addi(A0, A0, 5),
        number(1),
        ECALL,
    ]
}

/// Spawns a thread that ends at once and joins it, 4096 times; spawns one more, and ends with 6 more than
/// the answer.
fn many_threads() -> [u32; 18] {
    [
        lui(S0, 1),
        lui(A0, 0x10),
        addi(A0, A0, 64),
        number(7),
        ECALL,
        number(8),
        ECALL,
        addi(S0, S0, -1),
        bne(S0, ZERO, -28),
        lui(A0, 0x10),
        addi(A0, A0, 64),
        number(7),
        ECALL,
        addi(A0, A0, 6),
        number(1),
        ECALL,
        // a thread, at 64
        number(9),
        ECALL,
    ]
}

#[test]
fn refusals(rt: HostRuntime) -> Result<(), Fail> {
    let row = |line, code, data, status, out| Row {
        line,
        code,
        data,
        status,
        out,
        err: "run: picks ",
        matched: Match::Front,
    };
    check_rows(
        &rt,
        rt.alloc(),
        &[
            row(
                "oscar --harts 1",
                &refused(),
                &[1; 40],
                0,
                b"\xff\xff\xff\xff\xff\xff\xff\xff\xff\xff\xff\xff\xff\xff\xff\xff\0\0\0\0\0\0\0\0\0\0\0\0\0\0\0\0\xff\xff\xff\xff\xff\xff\xff\xff",
            ),
            row("oscar", &shares_too_much(), b"", 5, b""),
            row("oscar", &many_threads(), b"", 5, b""),
        ],
    )
}
