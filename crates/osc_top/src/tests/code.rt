//! Instruction words by their names (RISC-V Unprivileged ISA, "RV32/64G Instruction Set Listings").

pub const ZERO: u32 = 0;

pub const SP: u32 = 2;

pub const T0: u32 = 5;

pub const T1: u32 = 6;

pub const S0: u32 = 8;

pub const S1: u32 = 9;

pub const A0: u32 = 10;

pub const A1: u32 = 11;

pub const A2: u32 = 12;

pub const A3: u32 = 13;

pub const A7: u32 = 17;

/// The instruction after `a7` in a call.
pub const ECALL: u32 = 0x73;

/// A word of format I.
fn format_i(immediate: i32, rs1: u32, funct3: u32, rd: u32, opcode: u32) -> u32 {
    (((immediate & 0xFFF) as u32) << 20) | (rs1 << 15) | (funct3 << 12) | (rd << 7) | opcode
}

/// A word of format B; the offset is in bytes.
fn format_b(offset: i32, rs2: u32, rs1: u32, funct3: u32) -> u32 {
    let bits = (offset & 0x1FFF) as u32;
    (((bits >> 12) & 1) << 31)
        | (((bits >> 5) & 0x3F) << 25)
        | (rs2 << 20)
        | (rs1 << 15)
        | (funct3 << 12)
        | (((bits >> 1) & 0xF) << 8)
        | (((bits >> 11) & 1) << 7)
        | 0x63
}

/// A word of opcode AMO.
fn atomic(funct5: u32, rs2: u32, rs1: u32, funct3: u32, rd: u32) -> u32 {
    (funct5 << 27) | (rs2 << 20) | (rs1 << 15) | (funct3 << 12) | (rd << 7) | 0x2F
}

pub fn addi(rd: u32, rs1: u32, immediate: i32) -> u32 {
    format_i(immediate, rs1, 0, rd, 0x13)
}

pub fn sltiu(rd: u32, rs1: u32, immediate: i32) -> u32 {
    format_i(immediate, rs1, 3, rd, 0x13)
}

pub fn lw(rd: u32, offset: i32, rs1: u32) -> u32 {
    format_i(offset, rs1, 2, rd, 0x03)
}

pub fn ld(rd: u32, offset: i32, rs1: u32) -> u32 {
    format_i(offset, rs1, 3, rd, 0x03)
}

pub fn jalr(rd: u32, rs1: u32) -> u32 {
    format_i(0, rs1, 0, rd, 0x67)
}

pub fn slli(rd: u32, rs1: u32, amount: u32) -> u32 {
    (amount << 20) | (rs1 << 15) | (1 << 12) | (rd << 7) | 0x13
}

pub fn add(rd: u32, rs1: u32, rs2: u32) -> u32 {
    (rs2 << 20) | (rs1 << 15) | (rd << 7) | 0x33
}

pub fn lui(rd: u32, upper: u32) -> u32 {
    (upper << 12) | (rd << 7) | 0x37
}

pub fn sd(rs2: u32, offset: i32, rs1: u32) -> u32 {
    let bits = (offset & 0xFFF) as u32;
    (((bits >> 5) & 0x7F) << 25)
        | (rs2 << 20)
        | (rs1 << 15)
        | (3 << 12)
        | ((bits & 0x1F) << 7)
        | 0x23
}

pub fn beq(rs1: u32, rs2: u32, offset: i32) -> u32 {
    format_b(offset, rs2, rs1, 0)
}

pub fn bne(rs1: u32, rs2: u32, offset: i32) -> u32 {
    format_b(offset, rs2, rs1, 1)
}

/// A jump without a link; the offset is in bytes.
pub fn jump(offset: i32) -> u32 {
    let bits = (offset & 0x1F_FFFF) as u32;
    (((bits >> 20) & 1) << 31)
        | (((bits >> 1) & 0x3FF) << 21)
        | (((bits >> 11) & 1) << 20)
        | (((bits >> 12) & 0xFF) << 12)
        | 0x6F
}

pub fn amoadd_w(rd: u32, rs2: u32, rs1: u32) -> u32 {
    atomic(0, rs2, rs1, 2, rd)
}

pub fn lr_d(rd: u32, rs1: u32) -> u32 {
    atomic(2, 0, rs1, 3, rd)
}

pub fn sc_d(rd: u32, rs2: u32, rs1: u32) -> u32 {
    atomic(3, rs2, rs1, 3, rd)
}

/// The number of a call, before its `ECALL`.
pub fn number(call: i32) -> u32 {
    addi(A7, ZERO, call)
}
