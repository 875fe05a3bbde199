//! What an instruction's text says: its mnemonic and its operands.

ghost use Rattle.std.specs.Prelude.{◌≡◌, ◌+◌, ◌*◌, ◌<◌, ◌≤◌};
ghost use Rattle.osc_text.specs.Spelling as spec;

use osc_rv::{
    AmoOp, BranchKind, Field, ImmOp, Instr, LoadKind, MulOp, RegOp, ShiftOp, StoreKind, UpperOp,
    Width,
};

/// The name of an instruction, with the bits that order an atomic access.
#[derive(Clone, Copy, PartialEq, Eq, Debug)]
pub enum Mnemonic {
    Upper(UpperOp),
    Jal,
    Jalr,
    Branch(BranchKind),
    Load(LoadKind),
    Store(StoreKind),
    Imm(ImmOp),
    Shift(ShiftOp),
    ShiftW(ShiftOp),
    Op(RegOp),
    Mul(MulOp),
    Fence,
    FenceI,
    Ecall,
    Ebreak,
    Amo {
        op: AmoOp,
        width: Width,
        aq: bool,
        rl: bool,
    },
    Lr {
        width: Width,
        aq: bool,
        rl: bool,
    },
    Sc {
        width: Width,
        aq: bool,
        rl: bool,
    },
}

/// A number with its sign; 0 is not negative in any instruction's spelling.
#[derive(Clone, Copy, PartialEq, Eq, Debug)]
pub struct Number {
    pub negative: bool,
    pub magnitude: Field<22>,
}

/// One operand.
#[derive(Clone, Copy, PartialEq, Eq, Debug)]
pub enum Operand {
    /// `x5`
    Register(Field<5>),
    /// `-16`
    Immediate(Number),
    /// `-16(x5)`
    Indexed { offset: Number, base: Field<5> },
    /// `(x5)`
    Address(Field<5>),
}

/// The operands of an instruction, in the order of its text.
#[derive(Clone, Copy, PartialEq, Eq, Debug)]
pub enum Operands {
    Nothing,
    One(Operand),
    Two(Operand, Operand),
    Three(Operand, Operand, Operand),
}

/// A mnemonic with its operands.
#[derive(Clone, Copy, PartialEq, Eq, Debug)]
pub struct Spelling {
    pub mnemonic: Mnemonic,
    pub operands: Operands,
}

/// An immediate of 12 bits is from -2048 to 2047.
const IMMEDIATE_REACH: u32 = 1 << 11;

/// The offset of a branch is a signed number of 13 bits, that of a jal one of 21.
const BRANCH_REACH: u32 = 1 << 12;

const JAL_REACH: u32 = 1 << 20;

/// A number that is not negative.
fn natural(number: u32) -> Number
    requires { number < 4194304 }
    ensures { result ≡ spec.natural number }
{
    Number {
        negative: false,
        magnitude: Field::new(number).unwrap(),
    }
}

/// The number from -reach to reach - 1 whose two's complement a field holds.
fn signed(reach: u32, field: u32) -> Number
    requires { (reach ≤ 1048576) × (field < reach + reach) }
    ensures { result ≡ spec.signed reach field }
{
    if field < reach {
        natural(field)
    } else {
        Number {
            negative: true,
            magnitude: Field::new(2 * reach - field).unwrap(),
        }
    }
}

fn immediate(field: Field<12>) -> Number
    ensures { result ≡ spec.signed 2048 field }
{
    signed(IMMEDIATE_REACH, field.value())
}

fn upper(op: UpperOp, rd: Field<5>, imm: Field<20>) -> Spelling
    ensures { result ≡ spec.upper op rd imm }
{
    Spelling {
        mnemonic: Mnemonic::Upper(op),
        operands: Operands::Two(
            Operand::Register(rd),
            Operand::Immediate(natural(imm.value())),
        ),
    }
}

fn jump(rd: Field<5>, half: Field<20>) -> Spelling
    ensures { result ≡ spec.jump rd half }
{
    Spelling {
        mnemonic: Mnemonic::Jal,
        operands: Operands::Two(
            Operand::Register(rd),
            Operand::Immediate(signed(JAL_REACH, 2 * half.value())),
        ),
    }
}

fn branch(kind: BranchKind, rs1: Field<5>, rs2: Field<5>, half: Field<12>) -> Spelling
    ensures { result ≡ spec.branch kind rs1 rs2 half }
{
    Spelling {
        mnemonic: Mnemonic::Branch(kind),
        operands: Operands::Three(
            Operand::Register(rs1),
            Operand::Register(rs2),
            Operand::Immediate(signed(BRANCH_REACH, 2 * half.value())),
        ),
    }
}

/// A register, and an address by an offset from another register.
fn indexed(mnemonic: Mnemonic, register: Field<5>, base: Field<5>, imm: Field<12>) -> Spelling
    ensures { result ≡ spec.indexed mnemonic register base imm }
{
    Spelling {
        mnemonic,
        operands: Operands::Two(
            Operand::Register(register),
            Operand::Indexed {
                offset: immediate(imm),
                base,
            },
        ),
    }
}

/// Two registers and a number.
fn with_number(mnemonic: Mnemonic, rd: Field<5>, rs1: Field<5>, number: Number) -> Spelling
    ensures { result ≡ spec.with_number mnemonic rd rs1 number }
{
    Spelling {
        mnemonic,
        operands: Operands::Three(
            Operand::Register(rd),
            Operand::Register(rs1),
            Operand::Immediate(number),
        ),
    }
}

/// Three registers.
fn registers(mnemonic: Mnemonic, rd: Field<5>, rs1: Field<5>, rs2: Field<5>) -> Spelling
    ensures { result ≡ spec.registers mnemonic rd rs1 rs2 }
{
    Spelling {
        mnemonic,
        operands: Operands::Three(
            Operand::Register(rd),
            Operand::Register(rs1),
            Operand::Register(rs2),
        ),
    }
}

fn fence(mnemonic: Mnemonic, bits: Field<22>) -> Spelling
    ensures { result ≡ spec.fence mnemonic bits }
{
    Spelling {
        mnemonic,
        operands: Operands::One(Operand::Immediate(natural(bits.value()))),
    }
}

/// Two registers, and the register of the address.
fn atomic(mnemonic: Mnemonic, rd: Field<5>, rs1: Field<5>, rs2: Field<5>) -> Spelling
    ensures { result ≡ spec.atomic mnemonic rd rs1 rs2 }
{
    Spelling {
        mnemonic,
        operands: Operands::Three(
            Operand::Register(rd),
            Operand::Register(rs2),
            Operand::Address(rs1),
        ),
    }
}

fn reserved(mnemonic: Mnemonic, rd: Field<5>, rs1: Field<5>) -> Spelling
    ensures { result ≡ spec.reserved mnemonic rd rs1 }
{
    Spelling {
        mnemonic,
        operands: Operands::Two(Operand::Register(rd), Operand::Address(rs1)),
    }
}

fn bare(mnemonic: Mnemonic) -> Spelling
    ensures { result ≡ spec.bare mnemonic }
{
    Spelling {
        mnemonic,
        operands: Operands::Nothing,
    }
}

impl Spelling {
    /// The spelling of an instruction.
    pub fn of(instr: &Instr) -> Spelling
        ensures { result ≡ spec.spelling_of instr.now }
    {
        match *instr {
            Instr::Upper { op, rd, imm } => upper(op, rd, imm),
            Instr::Jal { rd, half } => jump(rd, half),
            Instr::Jalr { rd, rs1, imm } => indexed(Mnemonic::Jalr, rd, rs1, imm),
            Instr::Branch {
                kind,
                rs1,
                rs2,
                half,
            } => branch(kind, rs1, rs2, half),
            Instr::Load { kind, rd, rs1, imm } => indexed(Mnemonic::Load(kind), rd, rs1, imm),
            Instr::Store {
                kind,
                rs1,
                rs2,
                imm,
            } => indexed(Mnemonic::Store(kind), rs2, rs1, imm),
            Instr::Imm { op, rd, rs1, imm } => with_number(
                Mnemonic::Imm(op),
                rd,
                rs1,
                immediate(imm),
            ),
            Instr::Shift {
                op,
                rd,
                rs1,
                amount,
            } => with_number(Mnemonic::Shift(op), rd, rs1, natural(amount.value())),
            Instr::ShiftW {
                op,
                rd,
                rs1,
                amount,
            } => with_number(Mnemonic::ShiftW(op), rd, rs1, natural(amount.value())),
            Instr::Op { op, rd, rs1, rs2 } => registers(Mnemonic::Op(op), rd, rs1, rs2),
            Instr::Mul { op, rd, rs1, rs2 } => registers(Mnemonic::Mul(op), rd, rs1, rs2),
            Instr::Fence { bits } => fence(Mnemonic::Fence, bits),
            Instr::FenceI { bits } => fence(Mnemonic::FenceI, bits),
            Instr::Ecall => bare(Mnemonic::Ecall),
            Instr::Ebreak => bare(Mnemonic::Ebreak),
            Instr::Amo {
                op,
                width,
                rd,
                rs1,
                rs2,
                aq,
                rl,
            } => atomic(Mnemonic::Amo { op, width, aq, rl }, rd, rs1, rs2),
            Instr::Lr {
                width,
                rd,
                rs1,
                aq,
                rl,
            } => reserved(Mnemonic::Lr { width, aq, rl }, rd, rs1),
            Instr::Sc {
                width,
                rd,
                rs1,
                rs2,
                aq,
                rl,
            } => atomic(Mnemonic::Sc { width, aq, rl }, rd, rs1, rs2),
        }
    }
}
