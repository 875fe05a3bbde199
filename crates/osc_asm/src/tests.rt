//! Files that are built, read back and refused.

use crate::{AsmFault, Builder, LabelNo};
use osc_elf::read_image;
use osc_rv::{BranchKind, Field, ImmOp, Instr};
use std::alloc::{AllocError, Global};
use std::test::Fail;

const ZERO: u8 = 0;

const T0: u8 = 5;

const A0: u8 = 10;

const A1: u8 = 11;

const A7: u8 = 17;

/// addi rd, x0, number
fn put(builder: &mut Builder, rd: u8, number: u32) -> Result<(), Fail> {
    let rd = Field::new(u32::from(rd)).ok_or("register")?;
    let rs1 = Field::new(0).ok_or("x0")?;
    let imm = Field::new(number).ok_or("immediate")?;
    builder.emit(Instr::Imm {
        op: ImmOp::Addi,
        rd,
        rs1,
        imm,
    })?;
    Ok(())
}

fn call(builder: &mut Builder, number: u32) -> Result<(), Fail> {
    put(builder, A7, number)?;
    builder.emit(Instr::Ecall)?;
    Ok(())
}

fn bind(builder: &mut Builder, label: LabelNo) {
    if builder.is_free(label) {
        builder.bind(label);
    }
}

/// The file header of the format, with so many program headers.
fn header(alloc: Global, count: u8) -> Result<Vec<u8>, AllocError> {
    let mut file = Vec::from_slice(alloc, b"\x7fELF\x02\x01\x01\0\0\0\0\0\0\0\0\0")?;
    file.extend_from_slice(b"\x02\0\xf3\0\x01\0\0\0\0\0\x01\0\0\0\0\0\x40\0\0\0\0\0\0\0")?;
    file.extend_from_slice(b"\0\0\0\0\0\0\0\0\0\0\0\0\x40\0\x38\0")?;
    file.extend_from_slice(&[count, 0, 0, 0, 0, 0, 0, 0])?;
    Ok(file)
}

/// Prints `hello` and a newline, as GNU as assembles it.
const HELLO_CODE: [u8; 32] = [
    0x37, 0x15, 0x01, 0x00, 0x13, 0x05, 0x05, 0x00, 0x93, 0x05, 0x60, 0x00, 0x93, 0x08, 0x20, 0x00,
    0x73, 0x00, 0x00, 0x00, 0x13, 0x05, 0x00, 0x00, 0x93, 0x08, 0x10, 0x00, 0x73, 0x00, 0x00, 0x00,
];

#[test]
fn hello(rt: HostRuntime) -> Result<(), Fail> {
    let mut builder = Builder::new(rt.alloc());
    builder.bytes(b"hel")?;
    builder.la_bytes(A0, 0)?;
    put(&mut builder, A1, 6)?;
    call(&mut builder, 2)?;
    put(&mut builder, A0, 0)?;
    call(&mut builder, 1)?;
    builder.bytes(b"lo\n")?;
    let file = builder.finish(rt.alloc())?;

    let mut expected = header(rt.alloc(), 2)?;
    expected.extend_from_slice(b"\x01\0\0\0\x05\0\0\0\0\x10\0\0\0\0\0\0\0\0\x01\0\0\0\0\0")?;
    expected.extend_from_slice(b"\0\0\0\0\0\0\0\0\x20\0\0\0\0\0\0\0\x20\0\0\0\0\0\0\0")?;
    expected.extend_from_slice(b"\0\x10\0\0\0\0\0\0")?;
    expected.extend_from_slice(b"\x01\0\0\0\x06\0\0\0\0\x20\0\0\0\0\0\0\0\x10\x01\0\0\0\0\0")?;
    expected.extend_from_slice(b"\0\0\0\0\0\0\0\0\x06\0\0\0\0\0\0\0\x06\0\0\0\0\0\0\0")?;
    expected.extend_from_slice(b"\0\x10\0\0\0\0\0\0")?;
    expected.resize(4096, 0)?;
    expected.extend_from_slice(&HELLO_CODE)?;
    expected.resize(8192, 0)?;
    expected.extend_from_slice(b"hello\n")?;
    assert_eq!(rt; file.as_slice(), expected.as_slice());

    let image = read_image(rt.alloc(), &file)?;
    assert_eq!(rt; image.entry(), 0x10000);
    assert_eq!(rt; image.page_count(), 2);
    assert_eq!(rt; image.byte(0x1101f), Some(0));
    assert_eq!(rt; image.byte(0x11001), Some(b'e'));
    assert_eq!(rt; image.byte(0x12000), None);
    Ok(())
}

#[test]
fn bytes_alone(rt: HostRuntime) -> Result<(), Fail> {
    let mut builder = Builder::new(rt.alloc());
    assert_eq!(rt; builder.finish(rt.alloc())?.len(), 120);
    builder.bytes(b"x")?;
    let file = builder.finish(rt.alloc())?;
    assert_eq!(rt; file.len(), 4097);
    assert_eq!(rt; file.last().copied(), Some(b'x'));
    Ok(())
}

#[test]
fn code_alone(rt: HostRuntime) -> Result<(), Fail> {
    let mut builder = Builder::new(rt.alloc());
    put(&mut builder, A0, 7)?;
    call(&mut builder, 1)?;
    let file = builder.finish(rt.alloc())?;
    let mut expected = header(rt.alloc(), 1)?;
    expected.extend_from_slice(b"\x01\0\0\0\x05\0\0\0\0\x10\0\0\0\0\0\0\0\0\x01\0\0\0\0\0")?;
    expected.extend_from_slice(b"\0\0\0\0\0\0\0\0\x0c\0\0\0\0\0\0\0\x0c\0\0\0\0\0\0\0")?;
    expected.extend_from_slice(b"\0\x10\0\0\0\0\0\0")?;
    expected.resize(4096, 0)?;
    expected.extend_from_slice(&[
        0x13, 0x05, 0x70, 0x00, 0x93, 0x08, 0x10, 0x00, 0x73, 0x00, 0x00, 0x00,
    ])?;
    assert_eq!(rt; file.as_slice(), expected.as_slice());
    Ok(())
}

/// The words of a file's code.
fn words(alloc: Global, file: &[u8]) -> Result<Vec<u32>, AllocError> {
    let mut words = Vec::new(alloc);
    let count = file.len().saturating_sub(4096) / 4;
    for index in 0..count {
        let place = index.saturating_mul(4).saturating_add(4096);
        let mut bytes = [0; 4];
        for (at, byte) in file.iter().skip(place).take(4).enumerate() {
            if at < 4 {
                bytes[at] = *byte;
            }
        }
        words.push(u32::from_le_bytes(bytes))?;
    }
    Ok(words)
}

#[test]
fn numbers_and_labels(rt: HostRuntime) -> Result<(), Fail> {
    let mut builder = Builder::new(rt.alloc());
    for value in [0, 0x7ff, 0x800, 0xfff, 0x1000, 0x1234_5678, 0x7fff_f7ff] {
        builder.li(A0, value)?;
    }
    let back = builder.label()?;
    let on = builder.label()?;
    bind(&mut builder, back);
    builder.branch(BranchKind::Bne, A0, T0, on)?;
    builder.branch(BranchKind::Bgeu, T0, ZERO, back)?;
    builder.jump(1, on)?;
    builder.jump(ZERO, back)?;
    bind(&mut builder, on);
    builder.la(A0, back)?;
    builder.la(A0, on)?;
    builder.la_bytes(A0, 0xfff)?;
    let file = builder.finish(rt.alloc())?;
    assert_eq!(rt; words(rt.alloc(), &file)?.as_slice(), [
        0x0000_0537, 0x0005_0513, 0x0000_0537, 0x7ff5_0513, 0x0000_1537, 0x8005_0513, 0x0000_1537,
        0xfff5_0513, 0x0000_1537, 0x0005_0513, 0x1234_5537, 0x6785_0513, 0x7fff_f537, 0x7ff5_0513,
        // At 0x10038: bne a0, t0, +16; bgeu t0, zero, -4; jal ra, +8; j -12.
        0x0055_1863, 0xfe02_fee3, 0x0080_00ef, 0xff5f_f06f,
        // 0x10038, 0x10048 and 0x11fff.
        0x0001_0537, 0x0385_0513, 0x0001_0537, 0x0485_0513, 0x0001_2537, 0xfff5_0513,
    ].as_slice());
    Ok(())
}

/// A branch or jal from an index to another in code of so many other instructions.
fn reach(
    alloc: Global,
    is_jump: bool,
    from: usize,
    to: usize,
) -> Result<Result<Vec<u8>, AsmFault>, AllocError> {
    let mut builder = Builder::new(alloc);
    let label = builder.label()?;
    let last = if from < to { to } else { from };
    for index in 0..=last {
        if index == to {
            bind(&mut builder, label);
        }
        if index != from {
            builder.emit(Instr::Ecall)?;
        } else if is_jump {
            builder.jump(ZERO, label)?;
        } else {
            builder.branch(BranchKind::Beq, A0, A1, label)?;
        }
    }
    Ok(builder.finish(alloc))
}

#[test]
fn offsets_at_their_ends(rt: HostRuntime) -> Result<(), Fail> {
    for (is_jump, from, to, is_near) in [
        (false, 0, 1023, true),
        (false, 0, 1024, false),
        (false, 1024, 0, true),
        (false, 1025, 0, false),
        (true, 0, 262_143, true),
        (true, 0, 262_144, false),
        (true, 262_144, 0, true),
        (true, 262_145, 0, false),
    ] {
        let found = reach(rt.alloc(), is_jump, from, to)?;
        if is_near {
            assert!(rt; found.is_ok(), "{from} {to}");
        } else {
            assert_eq!(rt; found.err(), Some(AsmFault::Far(0)), "{from} {to}");
        }
    }
    Ok(())
}

#[test]
fn refusals_in_order(rt: HostRuntime) -> Result<(), Fail> {
    let mut builder = Builder::new(rt.alloc());
    let far = builder.label()?;
    let near = builder.label()?;
    let never = builder.label()?;
    bind(&mut builder, far);
    for _ in 0..2000 {
        builder.emit(Instr::Ecall)?;
    }
    builder.bytes(&[0; 64])?;
    bind(&mut builder, near);
    builder.branch(BranchKind::Beq, A0, A1, near)?;
    assert!(rt; builder.finish(rt.alloc()).is_ok());
    builder.branch(BranchKind::Beq, A0, A1, far)?;
    assert_eq!(rt; builder.finish(rt.alloc()).err(), Some(AsmFault::Far(0)));
    builder.la(A0, never)?;
    assert_eq!(rt; builder.finish(rt.alloc()).err(), Some(AsmFault::Label(2)));
    builder.jump(ZERO, 7)?;
    assert_eq!(rt; builder.finish(rt.alloc()).err(), Some(AsmFault::Label(2)));
    Ok(())
}

#[test]
fn longest_file(rt: HostRuntime) -> Result<(), Fail> {
    let mut builder = Builder::new(rt.alloc());
    builder.emit(Instr::Ecall)?;
    let mut piece = Vec::new(rt.alloc());
    piece.resize(16_777_216 - 8192, 1)?;
    builder.bytes(&piece)?;
    let file = builder.finish(rt.alloc())?;
    assert_eq!(rt; file.len(), 16_777_216);
    let image = read_image(rt.alloc(), &file)?;
    assert_eq!(rt; image.byte(0x100_efff), Some(1));
    builder.bytes(&[1])?;
    assert_eq!(rt; builder.finish(rt.alloc()).err(), Some(AsmFault::TooLong));
    Ok(())
}
