//! Guests whose events are judged in terms of objects.

use super::code::{A0, ECALL, S0, T0, ZERO, addi, bne, ld, lw, number, sd, slli};
use super::runs::{seven, uses};
use super::support::{Match, Row, check_rows};
use std::test::Fail;

/// A guest with this text on err, or with its end.
fn judged<'a>(line: &'a str, code: &'a [u32], status: u8, err: &'a str, matched: Match) -> Row<'a> {
    Row {
        line,
        code,
        data: b"",
        status,
        out: b"",
        err,
        matched,
    }
}

/// Loads 8 bytes of an object that has none, and ends with 0.
fn loads_outside() -> [u32; 7] {
    [
        addi(A0, ZERO, 0),
        number(3),
        ECALL,
        ld(T0, 0, A0),
        addi(A0, ZERO, 0),
        number(1),
        ECALL,
    ]
}

/// Stores a pointer, loads four of its bytes, and ends with 0.
fn loads_a_part() -> [u32; 8] {
    [
        addi(A0, ZERO, 24),
        number(3),
        ECALL,
        sd(A0, 0, A0),
        lw(T0, 0, A0),
        addi(A0, ZERO, 0),
        number(1),
        ECALL,
    ]
}

/// Compares two objects, which differ, and ends with 0; behind the branch stands no instruction.
fn compares() -> [u32; 11] {
    [
        addi(A0, ZERO, 24),
        number(3),
        ECALL,
        addi(S0, A0, 0),
        addi(A0, ZERO, 24),
        ECALL,
        bne(S0, A0, 8),
        0,
        addi(A0, ZERO, 0),
        number(1),
        ECALL,
    ]
}

/// Frees an object that holds 9, loads it, and ends with what it gave.
fn loads_dead() -> [u32; 11] {
    [
        addi(A0, ZERO, 24),
        number(3),
        ECALL,
        addi(S0, A0, 0),
        addi(T0, ZERO, 9),
        sd(T0, 0, A0),
        number(4),
        ECALL,
        ld(A0, 0, S0),
        number(1),
        ECALL,
    ]
}

#[test]
fn says_that_each_event_has_a_meaning(rt: HostRuntime) -> Result<(), Fail> {
    check_rows(
        &rt,
        rt.alloc(),
        &[
            judged(
                "oscar --mode object --harts 1",
                &uses(),
                0,
                "run: picks 1089 retired 10 calls 3 hits 9 walks 3 clears 2 marks 1 peak 25\nobject: clean\n",
                Match::Whole,
            ),
            judged(
                "oscar --mode object --harts 1",
                &compares(),
                0,
                "\nobject: clean\n",
                Match::End,
            ),
        ],
    )
}

#[test]
fn says_which_event_has_none(rt: HostRuntime) -> Result<(), Fail> {
    check_rows(
        &rt,
        rt.alloc(),
        &[
            judged(
                "oscar --mode object --harts 1",
                &loads_outside(),
                0,
                "\nobject: error at event 3: outside\n",
                Match::End,
            ),
            judged(
                "oscar --mode object --harts 1",
                &loads_a_part(),
                0,
                "\nobject: error at event 4: pointer bytes\n",
                Match::End,
            ),
            judged(
                "oscar --mode object --harts 1 --batch 2",
                &loads_dead(),
                9,
                "\nobject: error at event 8: dead object\n",
                Match::End,
            ),
        ],
    )
}

/// Computes with a pointer as if it were a number, and ends with 0.
fn doubles_a_pointer() -> [u32; 7] {
    [
        addi(A0, ZERO, 24),
        number(3),
        ECALL,
        slli(T0, A0, 1),
        addi(A0, ZERO, 0),
        number(1),
        ECALL,
    ]
}

/// Stores a pointer into a shared page, and ends with 0.
fn shares_a_pointer() -> [u32; 11] {
    [
        addi(A0, ZERO, 1),
        number(10),
        ECALL,
        addi(S0, A0, 0),
        addi(A0, ZERO, 24),
        number(3),
        ECALL,
        sd(A0, 0, S0),
        addi(A0, ZERO, 0),
        number(1),
        ECALL,
    ]
}

/// Frees eight bytes from an object's start, which ends it.
fn frees_inside() -> [u32; 6] {
    [
        addi(A0, ZERO, 24),
        number(3),
        ECALL,
        addi(A0, A0, 8),
        number(4),
        ECALL,
    ]
}

#[test]
fn says_why_it_has_none(rt: HostRuntime) -> Result<(), Fail> {
    let line = "oscar --mode object --harts 1";
    // ebreak, and a call that there is not
    for (code, status, err) in [
        (&[0x0010_0073][..], 70, "\nobject: error at event 0: trap\n"),
        (
            &doubles_a_pointer()[..],
            0,
            "\nobject: error at event 3: pointer use\n",
        ),
        (
            &shares_a_pointer()[..],
            0,
            "\nobject: error at event 7: pointer in shared region\n",
        ),
        (
            &frees_inside()[..],
            70,
            "\nobject: error at event 5: bad free\n",
        ),
        (
            &[number(99), ECALL][..],
            70,
            "\nobject: error at event 1: bad call\n",
        ),
    ] {
        check_rows(
            &rt,
            rt.alloc(),
            &[judged(line, code, status, err, Match::End)],
        )?;
    }
    Ok(())
}

#[test]
fn says_nothing_of_objects_where_it_is_spent(rt: HostRuntime) -> Result<(), Fail> {
    let code = seven();
    check_rows(
        &rt,
        rt.alloc(),
        &[
            judged(
                "oscar --mode object --harts 1 --picks 15",
                &code,
                69,
                "oscar: spent: picks 15\n",
                Match::Whole,
            ),
            judged(
                "oscar --mode object --harts 1 --picks 16",
                &code,
                7,
                "run: picks 16 retired 3 calls 1 hits 2 walks 1 clears 1 marks 0 peak 22\nobject: clean\n",
                Match::Whole,
            ),
        ],
    )
}
