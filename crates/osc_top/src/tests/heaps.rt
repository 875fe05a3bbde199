//! What malloc, free and realloc answer, under both heaps.

use super::code::{
    A0, A1, ECALL, S0, S1, T0, T1, ZERO, add, addi, bne, ld, lui, number, sd, sltiu,
};
use super::support::{Match, Row, check_rows};
use std::test::Fail;

/// Grants two objects of a size, and writes both pointers.
fn two(size: i32) -> [u32; 15] {
    [
        lui(S0, 0x11),
        addi(A0, ZERO, size),
        number(3),
        ECALL,
        sd(A0, 0, S0),
        addi(A0, ZERO, size),
        ECALL,
        sd(A0, 8, S0),
        addi(A0, S0, 0),
        addi(A1, ZERO, 16),
        number(2),
        ECALL,
        addi(A0, ZERO, 0),
        number(1),
        ECALL,
    ]
}

#[test]
fn pointers(rt: HostRuntime) -> Result<(), Fail> {
    let row = |line, code, out| Row {
        line,
        code,
        data: &[0; 16],
        status: 0,
        out,
        err: "run: picks ",
        matched: Match::Front,
    };
    check_rows(
        &rt,
        rt.alloc(),
        &[
            // 0x1000000010 and 0x1000001030
            row(
                "oscar",
                &two(0),
                b"\x10\0\0\0\x10\0\0\0\x30\x10\0\0\x10\0\0\0",
            ),
            // 0x2000400010 and 0x2000400040
            row(
                "oscar --heap plain",
                &two(24),
                b"\x10\0\x40\0\x20\0\0\0\x40\0\x40\0\x20\0\0\0",
            ),
        ],
    )
}

/// Grants 24 bytes that hold 9 and moves them to 30, 5000 and 10, writes the four pointers and what the
/// last one holds, and loads through the one that stands so many bytes from the first.
fn moves(loaded: i32) -> [u32; 26] {
    [
        lui(S0, 0x11),
        addi(A0, ZERO, 24),
        number(3),
        ECALL,
        sd(A0, 0, S0),
        addi(T0, ZERO, 9),
        sd(T0, 0, A0),
        number(5),
        addi(A1, ZERO, 30),
        ECALL,
        sd(A0, 8, S0),
        lui(A1, 1),
        addi(A1, A1, 904),
        ECALL,
        sd(A0, 16, S0),
        addi(A1, ZERO, 10),
        ECALL,
        sd(A0, 24, S0),
        ld(T0, 0, A0),
        sd(T0, 32, S0),
        addi(A0, S0, 0),
        addi(A1, ZERO, 40),
        number(2),
        ECALL,
        ld(T1, loaded, S0),
        ld(T1, 0, T1),
    ]
}

#[test]
fn moved_objects(rt: HostRuntime) -> Result<(), Fail> {
    let row = |code, err| Row {
        line: "oscar",
        code,
        data: &[0; 40],
        status: 70,
        // 0x1000000010, 0x1000001010, 0x1000002010, 0x1000004010, 9
        out: b"\x10\0\0\0\x10\0\0\0\x10\x10\0\0\x10\0\0\0\x10\x20\0\0\x10\0\0\0\x10\x40\0\0\x10\0\0\0\x09\0\0\0\0\0\0\0",
        err: err,
        matched: Match::Front,
    };
    check_rows(
        &rt,
        rt.alloc(),
        &[
            row(
                &moves(0),
                "fault: process 0 hart 0 cause 13 at 0x1000000010: object 0 offset 0 freed by call 1\n",
            ),
            row(
                &moves(8),
                "fault: process 0 hart 0 cause 13 at 0x1000001010: object 1 offset 0 freed by call 2\n",
            ),
            row(
                &moves(16),
                "fault: process 0 hart 0 cause 13 at 0x1000002010: object 2 offset 0 freed by call 3\n",
            ),
        ],
    )
}

/// Grants 24 bytes four times, and ends with 1 where the last answer is 0.
fn four() -> [u32; 9] {
    [
        addi(S0, ZERO, 4),
        addi(A0, ZERO, 24),
        number(3),
        ECALL,
        addi(S0, S0, -1),
        bne(S0, ZERO, -16),
        sltiu(A0, A0, 1),
        number(1),
        ECALL,
    ]
}

/// Asks for more than there is, twice, and then for 24 bytes, and writes the answers.
fn too_much() -> [u32; 19] {
    [
        lui(S0, 0x11),
        addi(A0, ZERO, -1),
        number(3),
        ECALL,
        sd(A0, 0, S0),
        lui(A0, 0x7A1),
        addi(A0, A0, 512),
        ECALL,
        sd(A0, 8, S0),
        addi(A0, ZERO, 24),
        ECALL,
        sd(A0, 16, S0),
        addi(A0, S0, 0),
        addi(A1, ZERO, 24),
        number(2),
        ECALL,
        addi(A0, ZERO, 0),
        number(1),
        ECALL,
    ]
}

/// Moves an object of 24 bytes that holds 9, where there is no page left for it, and ends with the answer
/// and what the object holds.
fn stays() -> [u32; 13] {
    [
        addi(A0, ZERO, 24),
        number(3),
        ECALL,
        addi(S0, A0, 0),
        addi(T0, ZERO, 9),
        sd(T0, 0, S0),
        addi(A1, ZERO, 30),
        number(5),
        ECALL,
        ld(T0, 0, S0),
        add(A0, A0, T0),
        number(1),
        ECALL,
    ]
}

#[test]
fn refusals(rt: HostRuntime) -> Result<(), Fail> {
    let row = |line, code, data, status, out| Row {
        line,
        code,
        data,
        status,
        out,
        err: "run: picks ",
        matched: Match::Front,
    };
    check_rows(
        &rt,
        rt.alloc(),
        &[
            row("oscar --shadows 3", &four(), b"", 1, b""),
            row("oscar --shadows 4", &four(), b"", 0, b""),
            row(
                "oscar",
                &too_much(),
                &[1; 24],
                0,
                b"\0\0\0\0\0\0\0\0\0\0\0\0\0\0\0\0\x10\0\0\0\x10\0\0\0",
            ),
            row("oscar --shadows 1", &stays(), b"", 9, b""),
        ],
    )
}

/// Grants two objects of 24 bytes, stores 9 into the first, frees it, loads it and ends with that.
fn stale() -> [u32; 14] {
    [
        addi(A0, ZERO, 24),
        number(3),
        ECALL,
        addi(S1, A0, 0),
        addi(A0, ZERO, 24),
        ECALL,
        addi(T0, ZERO, 9),
        sd(T0, 8, S1),
        addi(A0, S1, 0),
        number(4),
        ECALL,
        ld(A0, 8, S1),
        number(1),
        ECALL,
    ]
}

/// Frees an object of 24 bytes that holds 9, and loads it.
fn waits() -> [u32; 11] {
    [
        addi(A0, ZERO, 24),
        number(3),
        ECALL,
        addi(S0, A0, 0),
        addi(T0, ZERO, 9),
        sd(T0, 0, A0),
        number(4),
        ECALL,
        ld(A0, 0, S0),
        number(1),
        ECALL,
    ]
}

#[test]
fn stale_loads(rt: HostRuntime) -> Result<(), Fail> {
    let row = |line, code, status, err| Row {
        line,
        code,
        data: b"",
        status,
        out: b"",
        err: err,
        matched: Match::Front,
    };
    check_rows(
        &rt,
        rt.alloc(),
        &[
            row("oscar --heap plain", &stale(), 9, "run: picks "),
            row(
                "oscar",
                &stale(),
                70,
                "fault: process 0 hart 0 cause 13 at 0x1000000018: object 0 offset 8 freed by call 2\n",
            ),
            row("oscar --harts 1 --batch 2", &waits(), 9, "run: picks "),
            row(
                "oscar --harts 1",
                &waits(),
                70,
                "fault: process 0 hart 0 cause 13 at 0x1000000010: object 0 offset 0 freed by call 1\n",
            ),
        ],
    )
}
