//! Registers, offsets and the two parts of a number, as fields of instructions.

ghost use Rattle.std.specs.Prelude.{◌≡◌, ◌<◌, ◌^◌};
ghost use Rattle.osc_asm.specs.Numbers as numbers;
ghost use Rattle.osc_asm.specs.Layout as layout;

use osc_rv::{Field, ImmOp, Instr, UpperOp};

/// The field of a register.
pub fn register(number: u8) -> Field<5>
    requires { number < 32 }
    ensures { result ≡ number }
{
    Field::new(u32::from(number)).unwrap()
}

/// lui with the high part of a number.
pub fn lui(rd: Field<5>, number: u128) -> Instr
    requires { number < 2 ^ 127 }
    ensures { result ≡ numbers.lui_of rd number }
{
    let part = (number + 2048) / 4096 % 1_048_576;
    Instr::Upper {
        op: UpperOp::Lui,
        rd,
        imm: Field::new(part as u32).unwrap(),
    }
}

/// addi with the low part of a number.
pub fn addi(rd: Field<5>, number: u128) -> Instr
    ensures { result ≡ numbers.addi_of rd number }
{
    Instr::Imm {
        op: ImmOp::Addi,
        rd,
        rs1: rd,
        imm: Field::new((number % 4096) as u32).unwrap(),
    }
}

/// The field of the offset from one address to another in a branch.
pub fn branch_field(from: u128, to: u128) -> Field<12>
    requires { to < 2 ^ 127 }
    ensures { result ≡ layout.offset_field 13 from to }
{
    let offset = (to + 8192).saturating_sub(from) % 8192;
    Field::new((offset / 2) as u32).unwrap()
}

/// The field of the offset from one address to another in a jal.
pub fn jal_field(from: u128, to: u128) -> Field<20>
    requires { to < 2 ^ 127 }
    ensures { result ≡ layout.offset_field 21 from to }
{
    let offset = (to + 2_097_152).saturating_sub(from) % 2_097_152;
    Field::new((offset / 2) as u32).unwrap()
}
