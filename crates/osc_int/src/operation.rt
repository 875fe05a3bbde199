//! The operations on two registers and the conditions of branches.

ghost use Rattle.std.specs.Prelude.{◌≡◌, ◌%◌, ◌^◌};
ghost use Rattle.osc_isa.specs.Integer as integer;

use crate::numbers::{signed_shift, word};
use osc_rv::{BranchKind, ImmOp, RegOp, ShiftOp, StoreKind};

/// What an operation gives for two registers; those that end in `w` work on the low 32 bits.
#[tactic(auto, using(crate::proofs::Words::word_wrapped))]
pub fn operate(op: RegOp, a: u64, b: u64) -> u64
    ensures { result ≡ integer.operate op a b }
{
    match op {
        RegOp::Add => a.wrapping_add(b),
        RegOp::Sub => a.wrapping_sub(b),
        RegOp::Sll => a.wrapping_shl((b % 64) as u32),
        RegOp::Slt => u64::from(a.cast_signed() < b.cast_signed()),
        RegOp::Sltu => u64::from(a < b),
        RegOp::Xor => a ^ b,
        RegOp::Srl => a.wrapping_shr((b % 64) as u32),
        RegOp::Sra => signed_shift(a, (b % 64) as u32),
        RegOp::Or => a | b,
        RegOp::And => a & b,
        RegOp::Addw => word(a.wrapping_add(b)),
        RegOp::Subw => word(a.wrapping_sub(b)),
        RegOp::Sllw => word(a.wrapping_shl((b % 32) as u32)),
        RegOp::Srlw => word((a % (1 << 32)).wrapping_shr((b % 32) as u32)),
        RegOp::Sraw => signed_shift(word(a), (b % 32) as u32),
    }
}

/// The operation of an instruction with an immediate.
pub fn op_of_imm(op: ImmOp) -> RegOp
    ensures { result ≡ integer.op_of_imm op }
{
    match op {
        ImmOp::Addi => RegOp::Add,
        ImmOp::Slti => RegOp::Slt,
        ImmOp::Sltiu => RegOp::Sltu,
        ImmOp::Xori => RegOp::Xor,
        ImmOp::Ori => RegOp::Or,
        ImmOp::Andi => RegOp::And,
        ImmOp::Addiw => RegOp::Addw,
    }
}

/// The operation of a shift by an amount.
pub fn op_of_shift(op: ShiftOp) -> RegOp
    ensures { result ≡ integer.op_of_shift op }
{
    match op {
        ShiftOp::Left => RegOp::Sll,
        ShiftOp::Right => RegOp::Srl,
        ShiftOp::Signed => RegOp::Sra,
    }
}

/// The operation of a shift of the low 32 bits by an amount.
pub fn op_of_shift_w(op: ShiftOp) -> RegOp
    ensures { result ≡ integer.op_of_shift_w op }
{
    match op {
        ShiftOp::Left => RegOp::Sllw,
        ShiftOp::Right => RegOp::Srlw,
        ShiftOp::Signed => RegOp::Sraw,
    }
}

/// Whether a branch is taken.
pub fn is_taken(kind: BranchKind, a: u64, b: u64) -> bool
    ensures { result ≡ integer.is_taken kind a b }
{
    match kind {
        BranchKind::Beq => a == b,
        BranchKind::Bne => a != b,
        BranchKind::Blt => a.cast_signed() < b.cast_signed(),
        BranchKind::Bge => a.cast_signed() >= b.cast_signed(),
        BranchKind::Bltu => a < b,
        BranchKind::Bgeu => a >= b,
    }
}

/// The bytes of a store.
pub fn store_width(kind: StoreKind) -> u8
    ensures { result ≡ integer.store_width kind }
{
    match kind {
        StoreKind::Sb => 1,
        StoreKind::Sh => 2,
        StoreKind::Sw => 4,
        StoreKind::Sd => 8,
    }
}

/// The low bits of a register that a store has place for.
pub fn store_value(kind: StoreKind, value: u64) -> u64
    ensures { result ≡ value % 256 ^ integer.store_width kind }
{
    match kind {
        StoreKind::Sb => value % (1 << 8),
        StoreKind::Sh => value % (1 << 16),
        StoreKind::Sw => value % (1 << 32),
        StoreKind::Sd => value,
    }
}
