//! One integer instruction.

ghost use Rattle.std.specs.Prelude.{◌≡◌, ◌<◌, ◌≤◌, ◌+◌, ◌*◌, ◌%◌, ◌^◌};
ghost use Rattle.osc_word.specs.Registers.{register};
ghost use Rattle.osc_isa.specs.Numbers as numbers;
ghost use Rattle.osc_isa.specs.Integer as integer;
ghost use Rattle.osc_isa.specs.declared.IntDone.TheVariants as done;
ghost use Rattle.osc_rv.specs.declared.instr.UpperOp.TheVariants.{Lui, Auipc};

use crate::numbers::extended;
use crate::operation::{
    is_taken, op_of_imm, op_of_shift, op_of_shift_w, operate, store_value, store_width,
};
use osc_isa::IntDone;
use osc_mul::mul_value;
use osc_rv::{Field, ImmOp, Instr, RegOp, StoreKind, UpperOp};
use osc_word::Regs;

/// The number of a register.
fn number(field: Field<5>) -> u8
    ensures value { result ≡ field }
    ensures range { result < 32 }
{
    field.value() as u8
}

/// What a register holds.
fn read(regs: &Regs, field: Field<5>) -> u64
    ensures { result ≡ register regs.now field }
{
    regs.get(number(field))
}

/// A register plus a signed field of 12 bits.
fn offset_from(regs: &Regs, rs1: Field<5>, imm: Field<12>) -> u64
    ensures { result ≡ integer.offset_from regs.now rs1 imm }
{
    read(regs, rs1).wrapping_add(extended(12, u64::from(imm.value())))
}

/// The address of the instruction after the one at `pc`.
fn next(pc: u64) -> u64
    ensures { result ≡ integer.next pc }
{
    pc.wrapping_add(4)
}

/// The address at a signed offset of `width` bits from `pc`; `half` is the offset without its bit 0.
fn target_at(pc: u64, width: u32, half: u32) -> u64
    requires narrow { (0 < width) × (width < 64) }
    requires fits { half * 2 < 2 ^ width }
    ensures { result ≡ numbers.wrapped (pc + numbers.extended width (half * 2)) }
{
    pc.wrapping_add(extended(width, u64::from(half) * 2))
}

/// What lui and auipc leave in their register.
fn upper(op: UpperOp, imm: Field<20>, pc: u64) -> u64
    ensures lui { op ≡ Lui → result ≡ numbers.extended 32 (imm * 4096) }
    ensures auipc { op ≡ Auipc → result ≡ numbers.wrapped (pc + numbers.extended 32 (imm * 4096)) }
{
    let value = extended(32, u64::from(imm.value()) * 4096);
    match op {
        UpperOp::Lui => value,
        UpperOp::Auipc => pc.wrapping_add(value),
    }
}

/// Register `rd` gets a value, and the next instruction follows.
fn set(rd: Field<5>, value: u64, pc: u64) -> IntDone
    ensures { result ≡ done.Set rd value (integer.next pc) }
{
    IntDone::Set {
        rd: number(rd),
        value,
        pc: next(pc),
    }
}

/// An operation on two numbers.
fn computed(op: RegOp, rd: Field<5>, a: u64, b: u64, pc: u64) -> IntDone
    ensures { result ≡ done.Set rd (integer.operate op a b) (integer.next pc) }
{
    set(rd, operate(op, a, b), pc)
}

/// An operation on a register's value and a signed field of 12 bits.
fn with_imm(op: ImmOp, rd: Field<5>, value: u64, imm: Field<12>, pc: u64) -> IntDone
    ensures { result ≡ done.Set rd (integer.operate (integer.op_of_imm op) value (numbers.extended 12 imm)) (integer.next pc) }
{
    let operand = extended(12, u64::from(imm.value()));
    computed(op_of_imm(op), rd, value, operand, pc)
}

/// A register's value, shifted.
fn shifted(op: RegOp, rd: Field<5>, value: u64, amount: u32, pc: u64) -> IntDone
    ensures { result ≡ done.Set rd (integer.operate op value amount) (integer.next pc) }
{
    computed(op, rd, value, u64::from(amount), pc)
}

/// A jump, which leaves the address to come back to in a register.
fn jumped(rd: Field<5>, pc: u64, target: u64) -> IntDone
    ensures { result ≡ integer.jumped rd pc target }
{
    if target.is_multiple_of(4) {
        IntDone::Set {
            rd: number(rd),
            value: next(pc),
            pc: target,
        }
    } else {
        IntDone::BadTarget { target }
    }
}

/// A jump by a register, which ignores bit 0 of the target.
fn jumped_by_register(rd: Field<5>, pc: u64, target: u64) -> IntDone
    ensures { result ≡ integer.jumped rd pc (integer.without_bit_0 target) }
{
    jumped(rd, pc, target - target % 2)
}

/// A branch; one that is not taken may have any target.
fn branched(taken: bool, pc: u64, half: Field<12>) -> IntDone
    ensures { result ≡ integer.branched taken pc (numbers.wrapped (pc + numbers.extended 13 (half * 2))) }
{
    let target = target_at(pc, 13, half.value());
    if !taken {
        IntDone::Go { pc: next(pc) }
    } else if target.is_multiple_of(4) {
        IntDone::Go { pc: target }
    } else {
        IntDone::BadTarget { target }
    }
}

/// A store of the low bits of a value.
fn stored(kind: StoreKind, address: u64, value: u64) -> IntDone
    ensures { result ≡ done.Store (integer.store_width kind) address (value % 256 ^ integer.store_width kind) }
{
    IntDone::Store {
        width: store_width(kind),
        address,
        value: store_value(kind, value),
    }
}

/// What the instruction at `pc` does, by the Unprivileged manual. An atomic instruction is answered as
/// its address and operand. A register of an instruction is a field of 5 bits, so it is below 32.
pub fn int_step(instr: &Instr, regs: &Regs, pc: u64) -> IntDone
    ensures { result ≡ integer.done_of instr.now regs.now pc }
{
    match *instr {
        Instr::Upper { op, rd, imm } => set(rd, upper(op, imm, pc), pc),
        Instr::Jal { rd, half } => jumped(rd, pc, target_at(pc, 21, half.value())),
        Instr::Jalr { rd, rs1, imm } => jumped_by_register(rd, pc, offset_from(regs, rs1, imm)),
        Instr::Branch {
            kind,
            rs1,
            rs2,
            half,
        } => branched(is_taken(kind, read(regs, rs1), read(regs, rs2)), pc, half),
        Instr::Load { kind, rd, rs1, imm } => IntDone::Load {
            rd: number(rd),
            kind,
            address: offset_from(regs, rs1, imm),
        },
        Instr::Store {
            kind,
            rs1,
            rs2,
            imm,
        } => stored(kind, offset_from(regs, rs1, imm), read(regs, rs2)),
        Instr::Imm { op, rd, rs1, imm } => with_imm(op, rd, read(regs, rs1), imm, pc),
        Instr::Shift {
            op,
            rd,
            rs1,
            amount,
        } => shifted(op_of_shift(op), rd, read(regs, rs1), amount.value(), pc),
        Instr::ShiftW {
            op,
            rd,
            rs1,
            amount,
        } => shifted(op_of_shift_w(op), rd, read(regs, rs1), amount.value(), pc),
        Instr::Op { op, rd, rs1, rs2 } => computed(op, rd, read(regs, rs1), read(regs, rs2), pc),
        Instr::Mul { op, rd, rs1, rs2 } => {
            set(rd, mul_value(op, read(regs, rs1), read(regs, rs2)), pc)
        }
        Instr::Fence { .. } | Instr::FenceI { .. } => IntDone::Go { pc: next(pc) },
        Instr::Ecall => IntDone::Call,
        Instr::Ebreak => IntDone::Break,
        Instr::Amo { rs1, rs2, .. } | Instr::Sc { rs1, rs2, .. } => IntDone::Atomic {
            address: read(regs, rs1),
            operand: read(regs, rs2),
        },
        Instr::Lr { rs1, .. } => IntDone::Atomic {
            address: read(regs, rs1),
            operand: 0,
        },
    }
}
