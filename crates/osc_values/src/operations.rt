//! What an operation gives for values.

ghost use Rattle.std.specs.Prelude.{◌≡◌, []};
ghost use Rattle.osc_rv.specs.declared.instr.RegOp.TheVariants.{Sub, Sltu};
ghost use Rattle.osc_world.specs.declared.Value.TheVariants.{Ptr};
ghost use Rattle.osc_world.specs.Operations as operations;

use crate::objects::Object;
use osc_amo::amo;
use osc_int::{is_taken, op_of_imm, operate};
use osc_mul::mul_value;
use osc_rv::{AmoOp, BranchKind, ImmOp, MulOp, RegOp, Width};
use osc_world::Value;

/// Whether an offset is from 0 to the size of an object of this number, whether it lives or not.
fn has_offset(objects: &[Object], object: u32, offset: u64) -> bool
    ensures { result ≡ operations.has_offset objects.now object offset }
{
    let at = object as usize;
    at < objects.len() && objects[at].has_offset(offset)
}

/// Whether there is a live object of this number, and an offset is from 0 to its size.
fn has_live_offset(objects: &[Object], object: u32, offset: u64) -> bool
    ensures { result ≡ operations.has_live_offset objects.now object offset }
{
    let at = object as usize;
    at < objects.len() && objects[at].has_live_offset(offset)
}

/// Whether two pointers are equal: those to one object by their offsets. Two live objects differ, as long as
/// no offset is past its object's end; else None.
fn are_same(
    objects: &[Object],
    object: u32,
    offset: u64,
    other: u32,
    other_offset: u64,
) -> Option<bool>
    ensures { result ≡ operations.are_equal objects.now (Ptr object offset) (Ptr other other_offset) }
{
    if object == other {
        return Some(offset == other_offset);
    }
    let differ = has_live_offset(objects, object, offset)
        && has_live_offset(objects, other, other_offset);
    differ.then_some(false)
}

/// Whether two values are equal; None where the rows of pointers do not say.
fn are_equal(objects: &[Object], a: Value, b: Value) -> Option<bool>
    ensures { result ≡ operations.are_equal objects.now a b }
{
    match (a, b) {
        (Value::Num(a), Value::Num(b)) => Some(a == b),
        (
            Value::Ptr { object, offset },
            Value::Ptr {
                object: other,
                offset: other_offset,
            },
        ) => are_same(objects, object, offset, other, other_offset),
        (Value::Ptr { object, offset }, Value::Num(number))
        | (Value::Num(number), Value::Ptr { object, offset }) => {
            let differ = number == 0 && has_offset(objects, object, offset);
            differ.then_some(false)
        }
    }
}

/// Whether a pointer is below another to the same object, both from the object's start to its end; else
/// None.
fn is_below(
    objects: &[Object],
    object: u32,
    offset: u64,
    other: u32,
    other_offset: u64,
) -> Option<bool>
    ensures { result ≡ operations.is_below objects.now object offset other other_offset }
{
    let comparable = object == other
        && has_offset(objects, object, offset)
        && has_offset(objects, object, other_offset);
    comparable.then_some(offset < other_offset)
}

/// The number that stands for a test.
fn number_if(test: bool) -> Value
    ensures { result ≡ operations.number_if test }
{
    Value::Num(u64::from(test))
}

/// What a comparison of unsigned numbers gives where its second operand is a pointer.
fn below_pointer(objects: &[Object], a: Value, other: u32, other_offset: u64) -> Option<Value>
    ensures { result ≡ operations.operated objects.now Sltu a (Ptr other other_offset) }
{
    match a {
        Value::Num(number) => {
            let is_null = number == 0 && has_offset(objects, other, other_offset);
            is_null.then_some(number_if(true))
        }
        Value::Ptr { object, offset } => {
            let below = is_below(objects, object, offset, other, other_offset)?;
            Some(number_if(below))
        }
    }
}

/// What a subtraction from a pointer gives: a number moves it back, and of two pointers to one object it is
/// the distance.
fn subtracted(object: u32, offset: u64, b: Value) -> Option<Value>
    ensures { result ≡ operations.operated [] Sub (Ptr object offset) b }
{
    match b {
        Value::Num(number) => Some(Value::Ptr {
            object,
            offset: offset.wrapping_sub(number),
        }),
        Value::Ptr {
            object: other,
            offset: other_offset,
        } => {
            let distance = Value::Num(offset.wrapping_sub(other_offset));
            (object == other).then_some(distance)
        }
    }
}

/// What an operation gives for two registers; None where it has no row for a pointer.
pub fn operated(objects: &[Object], op: RegOp, a: Value, b: Value) -> Option<Value>
    ensures { result ≡ operations.operated objects.now op a b }
{
    match (op, a, b) {
        (_, Value::Num(a), Value::Num(b)) => Some(Value::Num(operate(op, a, b))),
        (RegOp::Add, Value::Ptr { object, offset }, Value::Num(number))
        | (RegOp::Add, Value::Num(number), Value::Ptr { object, offset }) => Some(Value::Ptr {
            object,
            offset: offset.wrapping_add(number),
        }),
        (RegOp::Sub, Value::Ptr { object, offset }, b) => subtracted(object, offset, b),
        (RegOp::Sltu, a, Value::Ptr { object, offset }) => {
            below_pointer(objects, a, object, offset)
        }
        _ => None,
    }
}

/// What an operation gives for a register and an immediate, which is extended to 64 bits; None where it has
/// no row for a pointer.
pub fn operated_imm(objects: &[Object], op: ImmOp, a: Value, imm: u64) -> Option<Value>
    ensures { result ≡ operations.operated_imm objects.now op a imm }
{
    match (op, a) {
        (_, Value::Num(a)) => Some(Value::Num(operate(op_of_imm(op), a, imm))),
        (ImmOp::Addi, Value::Ptr { object, offset }) => Some(Value::Ptr {
            object,
            offset: offset.wrapping_add(imm),
        }),
        (ImmOp::Andi, Value::Ptr { offset, .. }) => (imm < 16).then_some(Value::Num(offset & imm)),
        (ImmOp::Sltiu, Value::Ptr { object, offset }) => {
            let is_null_test = imm == 1 && has_offset(objects, object, offset);
            is_null_test.then_some(number_if(false))
        }
        _ => None,
    }
}

/// What a multiplication or division gives; None where an operand is a pointer.
pub fn multiplied(op: MulOp, a: Value, b: Value) -> Option<Value>
    ensures { result ≡ operations.multiplied op a b }
{
    match (a, b) {
        (Value::Num(a), Value::Num(b)) => Some(Value::Num(mul_value(op, a, b))),
        _ => None,
    }
}

/// Whether a branch is taken; None where its kind has no row for a pointer.
pub fn is_taken_for(objects: &[Object], kind: BranchKind, a: Value, b: Value) -> Option<bool>
    ensures { result ≡ operations.is_taken_for objects.now kind a b }
{
    match (kind, a, b) {
        (_, Value::Num(a), Value::Num(b)) => Some(is_taken(kind, a, b)),
        (BranchKind::Beq, a, b) => are_equal(objects, a, b),
        (BranchKind::Bne, a, b) => {
            let equal = are_equal(objects, a, b)?;
            Some(!equal)
        }
        (
            BranchKind::Bltu | BranchKind::Bgeu,
            Value::Ptr { object, offset },
            Value::Ptr {
                object: other,
                offset: other_offset,
            },
        ) => {
            let below = is_below(objects, object, offset, other, other_offset)?;
            Some((kind == BranchKind::Bltu) == below)
        }
        _ => None,
    }
}

/// Whether the register of an atomic memory operation may hold this value.
pub fn is_amo_operand(op: AmoOp, width: Width, value: Value) -> bool
    ensures { result ≡ operations.is_amo_operand op width value }
{
    match value {
        Value::Num(_) => true,
        Value::Ptr { .. } => matches!((op, width), (AmoOp::Swap, Width::D)),
    }
}

/// What an atomic memory operation stores, by what was in memory and what the register holds; None where
/// one is a pointer, unless they are exchanged whole.
pub fn amo_value(op: AmoOp, width: Width, old: Value, operand: Value) -> Option<Value>
    ensures { result ≡ operations.amo_value op width old operand }
{
    match (op, width, old, operand) {
        (_, _, Value::Num(a), Value::Num(b)) => Some(Value::Num(amo(op, width, a, b))),
        (AmoOp::Swap, Width::D, _, whole) => Some(whole),
        _ => None,
    }
}
