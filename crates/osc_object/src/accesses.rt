//! Loads, stores and atomic instructions.

ghost use Rattle.std.specs.Prelude.{◌≡◌, ◌<◌, ◌≤◌, ◌^◌};
ghost use Rattle.osc_isa.specs.Integer as integer;
ghost use Rattle.osc_isa.specs.Atomic as atomic;
ghost use Rattle.osc_world.specs.Instructions as instructions;
ghost use Rattle.osc_values.specs.Stored.{FitsIn};
ghost use Rattle.osc_object.specs.Turns.{turn_shown, step_shown, put_shown, shown_by};

use crate::steps::{Step, passes, sets};
use crate::turn::{Turn, aim, is_storable, puts, value_at};
use osc_amo::widen;
use osc_int::extended;
use osc_rv::{AmoOp, LoadKind, Width};
use osc_sv39::Access;
use osc_values::{amo_value, is_amo_operand};
use osc_world::{ObjectWhy, Place, Reservation, Value};

/// The bytes of a load.
fn load_width(kind: LoadKind) -> u8
    ensures some { (0 < result) × (result ≤ 8) }
    ensures value { result ≡ integer.load_width kind }
{
    match kind {
        LoadKind::Lb | LoadKind::Lbu => 1,
        LoadKind::Lh | LoadKind::Lhu => 2,
        LoadKind::Lw | LoadKind::Lwu => 4,
        LoadKind::Ld => 8,
    }
}

/// What a load puts into its register, by the number in its bytes.
fn loaded(kind: LoadKind, number: u64) -> u64
    requires { number < 256 ^ integer.load_width kind }
    ensures { result ≡ integer.loaded kind number }
{
    match kind {
        LoadKind::Lb => extended(8, number),
        LoadKind::Lh => extended(16, number),
        LoadKind::Lw => extended(32, number),
        LoadKind::Ld | LoadKind::Lbu | LoadKind::Lhu | LoadKind::Lwu => number,
    }
}

/// What a load puts into its register, by the value in its bytes.
fn loaded_value(kind: LoadKind, value: Value) -> Value
    requires { FitsIn (integer.load_width kind) value }
    ensures { result ≡ instructions.loaded_value kind value }
{
    match value {
        Value::Num(number) => Value::Num(loaded(kind, number)),
        Value::Ptr { object, offset } => Value::Ptr { object, offset },
    }
}

/// A load.
pub fn load_step(turn: &Turn, kind: LoadKind, rd: u8, address: Value) -> Result<Step, ObjectWhy>
    ensures { shown_by step_shown result ≡ instructions.load_step (turn_shown turn.now) kind rd address }
{
    let width = load_width(kind);
    let at = aim(turn, Access::Load, width, address, true)?;
    let value = value_at(turn, at, width)?;
    Ok(sets(turn, rd, loaded_value(kind, value)))
}

/// A step after the store of a value.
fn after_put(at: Place, width: u8, value: Value, step: Step) -> Result<Step, ObjectWhy>
    ensures { shown_by step_shown result ≡ instructions.after_put at width value (step_shown step) }
{
    let put = puts(at, width, value)?;
    Ok(Step {
        put: Some(put),
        ..step
    })
}

/// A store.
pub fn store_step(turn: &Turn, width: u8, address: Value, value: Value) -> Result<Step, ObjectWhy>
    requires { 0 < width }
    ensures { shown_by step_shown result ≡ instructions.store_step (turn_shown turn.now) width address value }
{
    let takes = is_storable(width, value);
    let at = aim(turn, Access::Store, width, address, takes)?;
    after_put(at, width, value, passes(turn))
}

/// The bytes of an atomic instruction.
pub fn width_of(width: Width) -> u8
    ensures some { (0 < result) × (result ≤ 8) }
    ensures value { result ≡ atomic.width_of width }
{
    match width {
        Width::W => 4,
        Width::D => 8,
    }
}

/// What an atomic instruction puts into its register for the value that it read.
fn widened_value(width: Width, value: Value) -> Value
    requires { FitsIn (atomic.width_of width) value }
    ensures { result ≡ instructions.widened_value width value }
{
    match value {
        Value::Num(number) => Value::Num(widen(width, number)),
        Value::Ptr { object, offset } => Value::Ptr { object, offset },
    }
}

/// An atomic memory operation: a load, then a store of what it makes of both.
pub fn amo_step(
    turn: &Turn,
    op: AmoOp,
    width: Width,
    rd: u8,
    address: Value,
    operand: Value,
) -> Result<Step, ObjectWhy>
    ensures { shown_by step_shown result ≡ instructions.amo_step (turn_shown turn.now) op width rd address operand }
{
    let bytes = width_of(width);
    let takes = is_amo_operand(op, width, operand);
    let at = aim(turn, Access::Store, bytes, address, takes)?;
    let old = value_at(turn, at, bytes)?;
    let Some(value) = amo_value(op, width, old, operand) else {
        return Err(ObjectWhy::PointerUse);
    };
    after_put(at, bytes, value, sets(turn, rd, widened_value(width, old)))
}

/// A load-reserved.
pub fn reserve_step(turn: &Turn, width: Width, rd: u8, address: Value) -> Result<Step, ObjectWhy>
    ensures { shown_by step_shown result ≡ instructions.reserve_step (turn_shown turn.now) width rd address }
{
    let bytes = width_of(width);
    let at = aim(turn, Access::Load, bytes, address, true)?;
    let value = value_at(turn, at, bytes)?;
    let step = sets(turn, rd, widened_value(width, value));
    Ok(Step {
        reservation: Some(Reservation { place: at, width }),
        ..step
    })
}
