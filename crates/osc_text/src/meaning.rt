//! The instruction that a mnemonic and its operands name.

ghost use Rattle.std.specs.Prelude.{◌≡◌, ◌<◌, ◌≤◌, ◌/◌, Some};
ghost use Rattle.osc_rv.specs.declared.instr.Instr.{Instr};
ghost use Rattle.osc_rv.specs.Instr.{FieldsFit};
ghost use Rattle.osc_text.specs.Spelling.{spelling_of};
ghost use Rattle.osc_text.specs.declared.spelling.Operand.TheVariants.{Register, Immediate, Indexed, Address};
ghost use Rattle.osc_text.specs.declared.spelling.Operands.TheVariants.{Nothing, One, Two, Three};
ghost use Rattle.osc_text.specs.Reading as spec;

use crate::spelling::{Mnemonic, Number, Operand, Operands, Spelling};
use osc_rv::{Field, Instr};

/// A number's two's complement, below `limit`.
fn wrapped(limit: u32, number: Number) -> u32
    requires { (0 < limit) × (limit ≤ 4194304) }
    ensures value { result ≡ spec.wrapped limit number }
    ensures range { result < limit }
{
    let magnitude = number.magnitude.value();
    let bits = if number.negative {
        limit - magnitude % limit
    } else {
        magnitude
    };
    bits % limit
}

fn immediate(number: Number) -> Field<12>
    ensures { result ≡ spec.wrapped 4096 number }
{
    Field::new(wrapped(1 << 12, number)).unwrap()
}

fn free_bits(number: Number) -> Field<22>
    ensures { result ≡ spec.wrapped 4194304 number }
{
    Field::new(wrapped(1 << 22, number)).unwrap()
}

fn upper(number: Number) -> Field<20>
    ensures { result ≡ spec.wrapped 1048576 number }
{
    Field::new(wrapped(1 << 20, number)).unwrap()
}

fn jump_half(number: Number) -> Field<20>
    ensures { result ≡ spec.wrapped 2097152 number / 2 }
{
    Field::new(wrapped(1 << 21, number) / 2).unwrap()
}

fn branch_half(number: Number) -> Field<12>
    ensures { result ≡ spec.wrapped 8192 number / 2 }
{
    Field::new(wrapped(1 << 13, number) / 2).unwrap()
}

fn amount(number: Number) -> Field<6>
    ensures { result ≡ spec.wrapped 64 number }
{
    Field::new(wrapped(1 << 6, number)).unwrap()
}

fn amount_w(number: Number) -> Field<5>
    ensures { result ≡ spec.wrapped 32 number }
{
    Field::new(wrapped(1 << 5, number)).unwrap()
}

impl Spelling {
    /// The instruction whose spelling this is, where there is one. The numbers of its operands are
    /// taken without a test of their range: where no instruction has this spelling, any may be
    /// answered.
    #[tactic(auto, using(crate::proofs::Inverse::reads))]
    pub fn instr(self) -> Option<Instr>
        ensures value { result ≡ spec.instr_at self.mnemonic self.operands }
        ensures reads { (instr : Instr) → FieldsFit instr → spelling_of instr ≡ self → result ≡ Some instr }
    {
        instr_at(self.mnemonic, self.operands)
    }
}

fn instr_at(mnemonic: Mnemonic, operands: Operands) -> Option<Instr>
    ensures { result ≡ spec.instr_at mnemonic operands }
{
    match operands {
        Operands::Nothing => bare(mnemonic),
        Operands::One(operand) => of_one(mnemonic, operand),
        Operands::Two(first, second) => of_two(mnemonic, first, second),
        Operands::Three(first, second, third) => of_three(mnemonic, first, second, third),
    }
}

fn of_one(mnemonic: Mnemonic, operand: Operand) -> Option<Instr>
    ensures { result ≡ spec.instr_at mnemonic (One operand) }
{
    match operand {
        Operand::Immediate(number) => fence(mnemonic, number),
        _ => None,
    }
}

fn of_two(mnemonic: Mnemonic, first: Operand, second: Operand) -> Option<Instr>
    ensures { result ≡ spec.instr_at mnemonic (Two first second) }
{
    let Operand::Register(register) = first else {
        return None;
    };
    match second {
        Operand::Register(_) => None,
        Operand::Immediate(number) => with_offset(mnemonic, register, number),
        Operand::Indexed { offset, base } => indexed(mnemonic, register, offset, base),
        Operand::Address(rs1) => reserved(mnemonic, register, rs1),
    }
}

fn of_three(mnemonic: Mnemonic, first: Operand, second: Operand, third: Operand) -> Option<Instr>
    ensures { result ≡ spec.instr_at mnemonic (Three first second third) }
{
    let Operand::Register(first) = first else {
        return None;
    };
    let Operand::Register(second) = second else {
        return None;
    };
    of_registers(mnemonic, first, second, third)
}

fn bare(mnemonic: Mnemonic) -> Option<Instr>
    ensures { result ≡ spec.instr_at mnemonic Nothing }
{
    match mnemonic {
        Mnemonic::Ecall => Some(Instr::Ecall),
        Mnemonic::Ebreak => Some(Instr::Ebreak),
        _ => None,
    }
}

fn fence(mnemonic: Mnemonic, number: Number) -> Option<Instr>
    ensures { result ≡ spec.instr_at mnemonic (One (Immediate number)) }
{
    let bits = free_bits(number);
    match mnemonic {
        Mnemonic::Fence => Some(Instr::Fence { bits }),
        Mnemonic::FenceI => Some(Instr::FenceI { bits }),
        _ => None,
    }
}

fn with_offset(mnemonic: Mnemonic, rd: Field<5>, number: Number) -> Option<Instr>
    ensures { result ≡ spec.instr_at mnemonic (Two (Register rd) (Immediate number)) }
{
    match mnemonic {
        Mnemonic::Upper(op) => Some(Instr::Upper {
            op,
            rd,
            imm: upper(number),
        }),
        Mnemonic::Jal => Some(Instr::Jal {
            rd,
            half: jump_half(number),
        }),
        _ => None,
    }
}

fn indexed(mnemonic: Mnemonic, register: Field<5>, offset: Number, rs1: Field<5>) -> Option<Instr>
    ensures { result ≡ spec.instr_at mnemonic (Two (Register register) (Indexed offset rs1)) }
{
    let imm = immediate(offset);
    match mnemonic {
        Mnemonic::Jalr => Some(Instr::Jalr {
            rd: register,
            rs1,
            imm,
        }),
        Mnemonic::Load(kind) => Some(Instr::Load {
            kind,
            rd: register,
            rs1,
            imm,
        }),
        Mnemonic::Store(kind) => Some(Instr::Store {
            kind,
            rs1,
            rs2: register,
            imm,
        }),
        _ => None,
    }
}

fn reserved(mnemonic: Mnemonic, rd: Field<5>, rs1: Field<5>) -> Option<Instr>
    ensures { result ≡ spec.instr_at mnemonic (Two (Register rd) (Address rs1)) }
{
    match mnemonic {
        Mnemonic::Lr { width, aq, rl } => Some(Instr::Lr {
            width,
            rd,
            rs1,
            aq,
            rl,
        }),
        _ => None,
    }
}

fn of_registers(
    mnemonic: Mnemonic,
    first: Field<5>,
    second: Field<5>,
    third: Operand,
) -> Option<Instr>
    ensures { result ≡ spec.instr_at mnemonic (Three (Register first) (Register second) third) }
{
    match third {
        Operand::Register(rs2) => registers(mnemonic, first, second, rs2),
        Operand::Immediate(number) => with_number(mnemonic, first, second, number),
        Operand::Address(rs1) => atomic(mnemonic, first, second, rs1),
        Operand::Indexed { .. } => None,
    }
}

fn registers(mnemonic: Mnemonic, rd: Field<5>, rs1: Field<5>, rs2: Field<5>) -> Option<Instr>
    ensures { result ≡ spec.instr_at mnemonic (Three (Register rd) (Register rs1) (Register rs2)) }
{
    match mnemonic {
        Mnemonic::Op(op) => Some(Instr::Op { op, rd, rs1, rs2 }),
        Mnemonic::Mul(op) => Some(Instr::Mul { op, rd, rs1, rs2 }),
        _ => None,
    }
}

fn with_number(
    mnemonic: Mnemonic,
    first: Field<5>,
    second: Field<5>,
    number: Number,
) -> Option<Instr>
    ensures { result ≡ spec.instr_at mnemonic (Three (Register first) (Register second) (Immediate number)) }
{
    match mnemonic {
        Mnemonic::Branch(kind) => Some(Instr::Branch {
            kind,
            rs1: first,
            rs2: second,
            half: branch_half(number),
        }),
        Mnemonic::Imm(op) => Some(Instr::Imm {
            op,
            rd: first,
            rs1: second,
            imm: immediate(number),
        }),
        Mnemonic::Shift(op) => Some(Instr::Shift {
            op,
            rd: first,
            rs1: second,
            amount: amount(number),
        }),
        Mnemonic::ShiftW(op) => Some(Instr::ShiftW {
            op,
            rd: first,
            rs1: second,
            amount: amount_w(number),
        }),
        _ => None,
    }
}

fn atomic(mnemonic: Mnemonic, rd: Field<5>, rs2: Field<5>, rs1: Field<5>) -> Option<Instr>
    ensures { result ≡ spec.instr_at mnemonic (Three (Register rd) (Register rs2) (Address rs1)) }
{
    match mnemonic {
        Mnemonic::Amo { op, width, aq, rl } => Some(Instr::Amo {
            op,
            width,
            rd,
            rs1,
            rs2,
            aq,
            rl,
        }),
        Mnemonic::Sc { width, aq, rl } => Some(Instr::Sc {
            width,
            rd,
            rs1,
            rs2,
            aq,
            rl,
        }),
        _ => None,
    }
}
