//! Threads that share words by atomic instructions.

use super::code::{
    A0, A1, A2, ECALL, S0, S1, T0, T1, ZERO, addi, amoadd_w, beq, bne, ld, lr_d, lui, number, sc_d,
    sd,
};
use super::support::{Match, Row, check_rows};
use std::test::Fail;

/// Main and three threads each add 1 a thousand times to the word at 0x11000, and main writes it.
fn counters() -> [u32; 36] {
    [
        lui(S0, 0x11),
        addi(S1, ZERO, 3),
        lui(A0, 0x10),
        addi(A0, A0, 112),
        addi(A1, ZERO, 0),
        addi(A2, S0, 0),
        number(7),
        ECALL,
        addi(S1, S1, -1),
        bne(S1, ZERO, -28),
        addi(T0, ZERO, 1000),
        addi(T1, ZERO, 1),
        amoadd_w(ZERO, T1, S0),
        addi(T0, T0, -1),
        bne(T0, ZERO, -8),
        addi(S1, ZERO, 3),
        addi(A0, S1, 0),
        number(8),
        ECALL,
        addi(S1, S1, -1),
        bne(S1, ZERO, -16),
        addi(A0, S0, 0),
        addi(A1, ZERO, 8),
        number(2),
        ECALL,
        addi(A0, ZERO, 0),
        number(1),
        ECALL,
        // a thread, at 112
        addi(T0, ZERO, 1000),
        addi(T1, ZERO, 1),
        amoadd_w(ZERO, T1, A0),
        addi(T0, T0, -1),
        bne(T0, ZERO, -8),
        addi(A0, ZERO, 0),
        number(9),
        ECALL,
    ]
}

#[test]
fn no_addition_is_lost(rt: HostRuntime) -> Result<(), Fail> {
    check_rows(
        &rt,
        rt.alloc(),
        &[Row {
            line: "oscar",
            code: &counters(),
            data: b"\0\0\0\0\xff\xff\xff\xff",
            status: 0,
            out: b"\xa0\x0f\0\0\xff\xff\xff\xff",
            err: "run: picks ",
            matched: Match::Front,
        }],
    )
}

/// Main reserves the word at 0x11000, lets a thread store 5 and then the old value there, and answers
/// what its store-conditional says. The flags of the two stand in another page.
fn stored_between() -> [u32; 29] {
    [
        lui(S0, 0x11),
        lui(S1, 0x12),
        lui(A0, 0x10),
        addi(A0, A0, 64),
        addi(A1, ZERO, 0),
        addi(A2, ZERO, 0),
        number(7),
        ECALL,
        lr_d(T0, S0),
        addi(T1, ZERO, 1),
        sd(T1, 0, S1),
        ld(T1, 8, S1),
        beq(T1, ZERO, -4),
        sc_d(A0, T0, S0),
        number(1),
        ECALL,
        // the thread, at 64
        lui(S0, 0x11),
        lui(S1, 0x12),
        ld(T1, 0, S1),
        beq(T1, ZERO, -4),
        ld(T0, 0, S0),
        addi(T1, ZERO, 5),
        sd(T1, 0, S0),
        sd(T0, 0, S0),
        addi(T1, ZERO, 1),
        sd(T1, 8, S1),
        addi(A0, ZERO, 0),
        number(9),
        ECALL,
    ]
}

/// A store-conditional right behind its load-reserved: 4 more than what it answers.
fn alone() -> [u32; 6] {
    [
        lui(S0, 0x11),
        lr_d(T0, S0),
        sc_d(A0, T0, S0),
        addi(A0, A0, 4),
        number(1),
        ECALL,
    ]
}

#[test]
fn reservations(rt: HostRuntime) -> Result<(), Fail> {
    let ends = |line, code, status| Row {
        line,
        code,
        data: &[0; 8192],
        status,
        out: b"",
        err: "run: picks ",
        matched: Match::Front,
    };
    let between = stored_between();
    let alone = alone();
    check_rows(
        &rt,
        rt.alloc(),
        &[
            ends("oscar", &between, 1),
            ends("oscar --harts 1", &alone, 4),
        ],
    )
}
