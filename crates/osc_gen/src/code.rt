//! Instructions by their names, appended to a builder. x8 is s0, x9 s1, x18 s2, x5 and x6 are t0 and
//! t1, x10 to x12 and x17 are a0 to a2 and a7.

ghost use Rattle.std.specs.Prelude.{◌≡◌, ◌∷◌, ◌<◌, [], OnOk};
ghost use Rattle.osc_asm.specs.Program.{with_code};
ghost use Rattle.osc_gen.specs.Code as code;

use osc_asm::Builder;
use osc_rv::{Field, ImmOp, Instr, LoadKind, RegOp, StoreKind};
use std::alloc::AllocError;

pub(crate) const ZERO: u8 = 0;

pub(crate) const T0: u8 = 5;

pub(crate) const T1: u8 = 6;

pub(crate) const S0: u8 = 8;

pub(crate) const S1: u8 = 9;

pub(crate) const A0: u8 = 10;

pub(crate) const A1: u8 = 11;

pub(crate) const A2: u8 = 12;

pub(crate) const A7: u8 = 17;

pub(crate) const S2: u8 = 18;

/// The field of a register.
pub(crate) fn register(number: u8) -> Field<5>
    requires { number < 32 }
    ensures { result ≡ number }
{
    Field::new(u32::from(number)).unwrap()
}

/// The field of an immediate, of its 12 bits.
fn immediate(bits: u32) -> Field<12>
    requires { bits < 4096 }
    ensures { result ≡ bits }
{
    Field::new(bits).unwrap()
}

pub(crate) fn addi(builder: &mut Builder, rd: u8, rs1: u8, imm: u32) -> Result<(), AllocError>
    requires registers { (rd < 32) × (rs1 < 32) }
    requires immediate { imm < 4096 }
    ensures { OnOk result (builder.new ≡ with_code builder.old (code.addi rd rs1 imm ∷ [])) }
{
    builder.emit(Instr::Imm {
        op: ImmOp::Addi,
        rd: register(rd),
        rs1: register(rs1),
        imm: immediate(imm),
    })
}

pub(crate) fn add(builder: &mut Builder, rd: u8, rs1: u8, rs2: u8) -> Result<(), AllocError>
    requires { (rd < 32) × (rs1 < 32) × (rs2 < 32) }
    ensures { OnOk result (builder.new ≡ with_code builder.old (code.add rd rs1 rs2 ∷ [])) }
{
    builder.emit(Instr::Op {
        op: RegOp::Add,
        rd: register(rd),
        rs1: register(rs1),
        rs2: register(rs2),
    })
}

/// `ld rd, offset(base)`
pub(crate) fn ld(builder: &mut Builder, rd: u8, offset: u32, base: u8) -> Result<(), AllocError>
    requires registers { (rd < 32) × (base < 32) }
    requires offset { offset < 4096 }
    ensures { OnOk result (builder.new ≡ with_code builder.old (code.ld rd offset base ∷ [])) }
{
    builder.emit(Instr::Load {
        kind: LoadKind::Ld,
        rd: register(rd),
        rs1: register(base),
        imm: immediate(offset),
    })
}

/// `sd source, offset(base)`
pub(crate) fn sd(builder: &mut Builder, source: u8, offset: u32, base: u8) -> Result<(), AllocError>
    requires registers { (source < 32) × (base < 32) }
    requires offset { offset < 4096 }
    ensures { OnOk result (builder.new ≡ with_code builder.old (code.sd source offset base ∷ [])) }
{
    builder.emit(Instr::Store {
        kind: StoreKind::Sd,
        rs1: register(base),
        rs2: register(source),
        imm: immediate(offset),
    })
}

/// The environment call of a number.
pub(crate) fn call(builder: &mut Builder, number: u32) -> Result<(), AllocError>
    requires { number < 4096 }
    ensures { OnOk result (builder.new ≡ with_code builder.old (code.call number)) }
{
    addi(builder, A7, ZERO, number)?;
    builder.emit(Instr::Ecall)?;
    Ok(())
}
