//! Guests that run to their end, and the summary of each.

use super::code::{A0, A1, ECALL, S0, T0, T1, ZERO, addi, bne, jump, ld, lui, number, sd};
use super::support::{Match, Row, WELL, check_rows, guest, run_on};
use crate::Status;
use std::test::Fail;

/// Prints hello: 8 instructions.
pub fn hello() -> [u32; 8] {
    [
        lui(A0, 0x11),
        addi(A0, A0, 0),
        addi(A1, ZERO, 6),
        number(2),
        ECALL,
        addi(A0, ZERO, 0),
        number(1),
        ECALL,
    ]
}

/// Ends with 7.
pub fn seven() -> [u32; 3] {
    [addi(A0, ZERO, 7), number(1), ECALL]
}

/// Stores into an object of 24 bytes, loads it, frees it, and ends with the answer.
pub fn uses() -> [u32; 10] {
    [
        addi(A0, ZERO, 24),
        number(3),
        ECALL,
        addi(T0, ZERO, 9),
        sd(T0, 0, A0),
        ld(T1, 0, A0),
        number(4),
        ECALL,
        number(1),
        ECALL,
    ]
}

#[test]
fn prints_hello(rt: HostRuntime) -> Result<(), Fail> {
    let code = hello();
    check_rows(
        &rt,
        rt.alloc(),
        &[
            Row {
                line: "oscar",
                code: &code,
                data: b"hello\n",
                status: 0,
                out: b"hello\n",
                err: " retired 8 calls 2 ",
                matched: Match::Part,
            },
            Row {
                line: "oscar --heap plain --harts 1 --seed 9",
                code: &code,
                data: b"hello\n",
                status: 0,
                out: b"hello\n",
                err: " retired 8 calls 2 ",
                matched: Match::Part,
            },
        ],
    )
}

/// The status is that of `seven`, and all numbers are known.
fn ends_with_seven<'a>(line: &'a str, code: &'a [u32], err: &'a str) -> Row<'a> {
    Row {
        line,
        code,
        data: b"",
        status: 7,
        out: b"",
        err: err,
        matched: Match::Whole,
    }
}

#[test]
fn tells_the_summary(rt: HostRuntime) -> Result<(), Fail> {
    let code = seven();
    let three = "run: picks 16 retired 3 calls 1 hits 2 walks 1 clears 1 marks 0 peak 22\n";
    check_rows(
        &rt,
        rt.alloc(),
        &[
            ends_with_seven("oscar --harts 1", &code, three),
            ends_with_seven("oscar --harts 1 --picks 16", &code, three),
            ends_with_seven(
                "oscar --harts 1 --levels 4",
                &code,
                "run: picks 17 retired 3 calls 1 hits 2 walks 1 clears 1 marks 0 peak 23\n",
            ),
        ],
    )
}

#[test]
fn spends_its_picks(rt: HostRuntime) -> Result<(), Fail> {
    let spent = |line, code, err| Row {
        line,
        code,
        data: b"",
        status: 69,
        out: b"",
        err: err,
        matched: Match::Whole,
    };
    let code = seven();
    let granted = [
        addi(A0, ZERO, 24),
        number(3),
        ECALL,
        addi(A0, ZERO, 0),
        number(1),
        ECALL,
    ];
    check_rows(
        &rt,
        rt.alloc(),
        &[
            spent(
                "oscar --harts 1 --picks 15",
                &code,
                "oscar: spent: picks 15\n",
            ),
            spent("oscar --picks 0", &code, "oscar: spent: picks 0\n"),
            spent(
                "oscar --picks 1000",
                &[jump(0)],
                "oscar: spent: picks 1000\n",
            ),
            spent(
                "oscar --journal 1 --picks 10000",
                &granted,
                "oscar: spent: picks 10000\n",
            ),
        ],
    )
}

#[test]
fn frees_what_it_was_given(rt: HostRuntime) -> Result<(), Fail> {
    let code = uses();
    let done = |line, err| Row {
        line,
        code: &code,
        data: b"",
        status: 0,
        out: b"",
        err: err,
        matched: Match::Whole,
    };
    check_rows(
        &rt,
        rt.alloc(),
        &[
            done(
                "oscar --harts 1",
                "run: picks 1089 retired 10 calls 3 hits 9 walks 3 clears 2 marks 1 peak 25\n",
            ),
            done(
                "oscar --harts 1 --levels 4",
                "run: picks 1092 retired 10 calls 3 hits 9 walks 3 clears 2 marks 1 peak 26\n",
            ),
            done(
                "oscar --harts 1 --batch 2",
                "run: picks 1085 retired 10 calls 3 hits 10 walks 2 clears 1 marks 1 peak 25\n",
            ),
        ],
    )
}

/// A thousand times malloc of 24 bytes and free.
fn pairs() -> [u32; 10] {
    [
        addi(S0, ZERO, 1000),
        addi(A0, ZERO, 24),
        number(3),
        ECALL,
        number(4),
        ECALL,
        addi(S0, S0, -1),
        bne(S0, ZERO, -24),
        number(1),
        ECALL,
    ]
}

#[test]
fn grants_a_thousand_pages(rt: HostRuntime) -> Result<(), Fail> {
    let code = pairs();
    let done = |line, part| Row {
        line,
        code: &code,
        data: b"",
        status: 0,
        out: b"",
        err: part,
        matched: Match::Part,
    };
    check_rows(
        &rt,
        rt.alloc(),
        &[
            done("oscar --frames 64", " marks 1000 peak 25\n"),
            done(
                "oscar --harts 1 --batch 64 --frames 64",
                " clears 16 marks 1000 peak 25\n",
            ),
        ],
    )
}

/// Writes 4194305 bytes from a buffer of them, again, and then the two answers.
fn writes_much() -> [u32; 19] {
    [
        lui(A0, 0x11),
        lui(A1, 0x400),
        addi(A1, A1, 1),
        number(2),
        ECALL,
        addi(S0, A0, 0),
        lui(A0, 0x11),
        lui(A1, 0x400),
        addi(A1, A1, 1),
        number(2),
        ECALL,
        // a full output takes no byte: 5 where the answers are 4194304 and 0
        lui(T0, 0x400),
        bne(S0, T0, 16),
        bne(A0, ZERO, 12),
        addi(A0, ZERO, 5),
        jump(8),
        addi(A0, ZERO, 6),
        number(1),
        ECALL,
    ]
}

#[test]
fn output_holds_four_mebibytes(rt: HostRuntime) -> Result<(), Fail> {
    let code = writes_much();
    let file = guest(rt.alloc(), &code, b"", 4_194_305)?;
    let given = run_on(rt.alloc(), "oscar --frames 2048", file, WELL)?;
    assert_eq!(rt; given.status, Status(5));
    assert_eq!(rt; given.out.bytes().len(), 4_194_304);
    Ok(())
}
