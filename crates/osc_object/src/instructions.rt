//! What an instruction that is no call does.

ghost use Rattle.std.specs.Prelude.{◌≡◌, ◌≢◌, ◌<◌, ◌+◌, ◌*◌, ◌%◌, ◌^◌};
ghost use Rattle.osc_isa.specs.Numbers as numbers;
ghost use Rattle.osc_isa.specs.Integer as integer;
ghost use Rattle.osc_rv.specs.declared.instr.Instr.TheVariants.{Ecall};
ghost use Rattle.osc_world.specs.Values as values;
ghost use Rattle.osc_world.specs.Instructions as instructions;
ghost use Rattle.osc_world.specs.Events as events;
ghost use Rattle.osc_world.specs.Operations as operations;
ghost use Rattle.osc_rv.specs.declared.instr.UpperOp.TheVariants.{Lui, Auipc};
ghost use Rattle.osc_object.specs.Turns.{turn_shown, step_shown, shown_by};
ghost use Rattle.osc_object.specs.Decisions.{decided_shown, decided};

use crate::accesses::{amo_step, load_step, reserve_step, store_step};
use crate::conditional::conditional;
use crate::decisions::{Decided, only_step};
use crate::steps::{Step, advanced, branches, jumps, jumps_by, passes, sets, sets_if};
use crate::turn::{Turn, register};
use osc_int::{extended, op_of_shift, op_of_shift_w, store_width};
use osc_rv::{BranchKind, Field, ImmOp, Instr, RegOp, UpperOp};
use osc_values::{is_taken_for, multiplied, operated, operated_imm};
use osc_word::Choice;
use osc_world::{ObjectWhy, Value};

/// The number of a register.
fn number(field: Field<5>) -> u8
    ensures value { result ≡ field }
    ensures range { result < 32 }
{
    field.value() as u8
}

/// What a register holds.
fn read(turn: &Turn, field: Field<5>) -> Value
    ensures { result ≡ instructions.register_of (turn_shown turn.now) field }
{
    register(turn, number(field))
}

/// A signed field of 12 bits.
fn signed(imm: Field<12>) -> u64
    ensures { result ≡ numbers.extended 12 imm }
{
    extended(12, u64::from(imm.value()))
}

/// A register plus a signed field of 12 bits.
fn offset_from(turn: &Turn, rs1: Field<5>, imm: Field<12>) -> Value
    ensures { result ≡ values.advanced (instructions.register_of (turn_shown turn.now) rs1) (numbers.extended 12 imm) }
{
    advanced(read(turn, rs1), signed(imm))
}

/// The address at a signed offset of `width` bits from the pc; `half` is the offset without its bit 0.
fn target_at(turn: &Turn, width: u32, half: u32) -> u64
    requires narrow { (0 < width) × (width < 64) }
    requires fits { half * 2 < 2 ^ width }
    ensures { result ≡ numbers.wrapped ((turn_shown turn.now).hart.pc + numbers.extended width (half * 2)) }
{
    let offset = extended(width, u64::from(half) * 2);
    turn.hart.pc().wrapping_add(offset)
}

/// What lui and auipc leave in their register.
fn upper(turn: &Turn, op: UpperOp, imm: Field<20>) -> u64
    ensures lui { op ≡ Lui → result ≡ numbers.extended 32 (imm * 4096) }
    ensures auipc { op ≡ Auipc → result ≡ numbers.wrapped ((turn_shown turn.now).hart.pc + numbers.extended 32 (imm * 4096)) }
{
    let value = extended(32, u64::from(imm.value()) * 4096);
    match op {
        UpperOp::Lui => value,
        UpperOp::Auipc => turn.hart.pc().wrapping_add(value),
    }
}

/// A branch.
fn branch(
    turn: &Turn,
    kind: BranchKind,
    rs1: Field<5>,
    rs2: Field<5>,
    half: Field<12>,
) -> Result<Step, ObjectWhy>
    ensures { shown_by step_shown result ≡ instructions.branches (turn_shown turn.now) (numbers.wrapped ((turn_shown turn.now).hart.pc + numbers.extended 13 (half * 2)))
        (operations.is_taken_for (instructions.objects_of (turn_shown turn.now)) kind
        (instructions.register_of (turn_shown turn.now) rs1) (instructions.register_of (turn_shown turn.now) rs2)) }
{
    let target = target_at(turn, 13, half.value());
    let taken = is_taken_for(
        turn.process.objects(),
        kind,
        read(turn, rs1),
        read(turn, rs2),
    );
    branches(turn, target, taken)
}

/// An operation on two values.
fn computed(turn: &Turn, op: RegOp, rd: Field<5>, a: Value, b: Value) -> Result<Step, ObjectWhy>
    ensures { shown_by step_shown result ≡ instructions.sets_if (turn_shown turn.now) rd (operations.operated (instructions.objects_of (turn_shown turn.now)) op a b) }
{
    let value = operated(turn.process.objects(), op, a, b);
    sets_if(turn, number(rd), value)
}

/// An operation on a register and a signed field of 12 bits.
fn with_imm(
    turn: &Turn,
    op: ImmOp,
    rd: Field<5>,
    a: Value,
    imm: Field<12>,
) -> Result<Step, ObjectWhy>
    ensures { shown_by step_shown result ≡ instructions.sets_if (turn_shown turn.now) rd (operations.operated_imm (instructions.objects_of (turn_shown turn.now)) op a (numbers.extended 12 imm)) }
{
    let value = operated_imm(turn.process.objects(), op, a, signed(imm));
    sets_if(turn, number(rd), value)
}

/// An instruction that is no call, by its choice.
#[tactic(auto, unfolding(osc_world::specs::Events::offered, osc_world::specs::Offers::chosen))]
pub fn decide(turn: &Turn, choice: Choice, instr: &Instr) -> Decided
    requires { instr.now ≢ Ecall }
    ensures { decided_shown (turn_shown turn.now) result ≡ decided (turn_shown turn.now) choice (events.offered (turn_shown turn.now) instr.now) }
{
    let step = match *instr {
        Instr::Upper { op, rd, imm } => {
            Ok(sets(turn, number(rd), Value::Num(upper(turn, op, imm))))
        }
        Instr::Jal { rd, half } => jumps(turn, number(rd), target_at(turn, 21, half.value())),
        Instr::Jalr { rd, rs1, imm } => jumps_by(turn, number(rd), offset_from(turn, rs1, imm)),
        Instr::Branch {
            kind,
            rs1,
            rs2,
            half,
        } => branch(turn, kind, rs1, rs2, half),
        Instr::Load { kind, rd, rs1, imm } => {
            load_step(turn, kind, number(rd), offset_from(turn, rs1, imm))
        }
        Instr::Store {
            kind,
            rs1,
            rs2,
            imm,
        } => store_step(
            turn,
            store_width(kind),
            offset_from(turn, rs1, imm),
            read(turn, rs2),
        ),
        Instr::Imm { op, rd, rs1, imm } => with_imm(turn, op, rd, read(turn, rs1), imm),
        Instr::Shift {
            op,
            rd,
            rs1,
            amount,
        } => {
            let amount = Value::Num(u64::from(amount.value()));
            computed(turn, op_of_shift(op), rd, read(turn, rs1), amount)
        }
        Instr::ShiftW {
            op,
            rd,
            rs1,
            amount,
        } => {
            let amount = Value::Num(u64::from(amount.value()));
            computed(turn, op_of_shift_w(op), rd, read(turn, rs1), amount)
        }
        Instr::Op { op, rd, rs1, rs2 } => computed(turn, op, rd, read(turn, rs1), read(turn, rs2)),
        Instr::Mul { op, rd, rs1, rs2 } => {
            let value = multiplied(op, read(turn, rs1), read(turn, rs2));
            sets_if(turn, number(rd), value)
        }
        Instr::Fence { .. } | Instr::FenceI { .. } => Ok(passes(turn)),
        Instr::Ecall | Instr::Ebreak => Err(ObjectWhy::Trap),
        Instr::Amo {
            op,
            width,
            rd,
            rs1,
            rs2,
            ..
        } => amo_step(
            turn,
            op,
            width,
            number(rd),
            read(turn, rs1),
            read(turn, rs2),
        ),
        Instr::Lr { width, rd, rs1, .. } => reserve_step(turn, width, number(rd), read(turn, rs1)),
        Instr::Sc {
            width,
            rd,
            rs1,
            rs2,
            ..
        } => {
            return conditional(
                turn,
                choice,
                width,
                number(rd),
                read(turn, rs1),
                read(turn, rs2),
            );
        }
    };
    only_step(turn, choice, step)
}
