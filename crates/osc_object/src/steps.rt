//! Steps: a register gets a value, maybe after a store, and the hart goes on.

ghost use Rattle.std.specs.Prelude.{◌≡◌, ◌<◌, ◌^◌, ◌%◌};
ghost use Rattle.osc_isa.specs.Integer as integer;
ghost use Rattle.osc_world.specs.declared.Value.TheVariants.{Num, Ptr};
ghost use Rattle.osc_world.specs.Values as values;
ghost use Rattle.osc_world.specs.Deeds as deeds;
ghost use Rattle.osc_world.specs.Instructions as instructions;
ghost use Rattle.osc_object.specs.Turns.{turn_shown, step_shown, shown_by};

use crate::turn::{Put, Turn};
use osc_rv::Field;
use osc_world::{ObjectWhy, Reservation, Value};

/// A store, if there is one; then a register gets a value, where x0 stays, and the hart goes on at `pc` with
/// this reservation.
#[derive(Clone, Copy)]
pub struct Step {
    pub put: Option<Put>,
    pub rd: u8,
    pub value: Value,
    pub pc: u64,
    pub reservation: Option<Reservation>,
}

/// The address of the instruction after the one at `pc`.
pub fn next(pc: u64) -> u64
    ensures { result ≡ integer.next pc }
{
    pc.wrapping_add(4)
}

/// A value so many further on.
pub fn advanced(value: Value, by: u64) -> Value
    ensures { result ≡ values.advanced value by }
{
    match value {
        Value::Num(number) => Value::Num(number.wrapping_add(by)),
        Value::Ptr { object, offset } => Value::Ptr {
            object,
            offset: offset.wrapping_add(by),
        },
    }
}

/// A register gets a value, and the hart goes on with the next instruction.
pub fn sets(turn: &Turn, rd: u8, value: Value) -> Step
    ensures { step_shown result ≡ deeds.sets (turn_shown turn.now) rd value }
{
    Step {
        put: None,
        rd,
        value,
        pc: next(turn.hart.pc()),
        reservation: turn.hart.reservation(),
    }
}

/// A register gets a value, if there is one.
pub fn sets_if(turn: &Turn, rd: u8, value: Option<Value>) -> Result<Step, ObjectWhy>
    ensures { shown_by step_shown result ≡ instructions.sets_if (turn_shown turn.now) rd value }
{
    match value {
        Some(value) => Ok(sets(turn, rd, value)),
        None => Err(ObjectWhy::PointerUse),
    }
}

/// No register is set.
pub fn passes(turn: &Turn) -> Step
    ensures { step_shown result ≡ instructions.passes (turn_shown turn.now) }
{
    sets(turn, 0, Value::Num(0))
}

/// A step that goes on at a target, which has to be divisible by 4.
fn goes_to(target: u64, step: Step) -> Result<Step, ObjectWhy>
    ensures { shown_by step_shown result ≡ instructions.goes_to target (step_shown step) }
{
    if target.is_multiple_of(4) {
        Ok(Step { pc: target, ..step })
    } else {
        Err(ObjectWhy::Trap)
    }
}

/// A jump, which leaves the address to come back to in a register.
pub fn jumps(turn: &Turn, rd: u8, target: u64) -> Result<Step, ObjectWhy>
    ensures { shown_by step_shown result ≡ instructions.jumps (turn_shown turn.now) rd target }
{
    let back = Value::Num(next(turn.hart.pc()));
    goes_to(target, sets(turn, rd, back))
}

/// A jump to a value, whose bit 0 is ignored; there is no code in objects.
pub fn jumps_by(turn: &Turn, rd: u8, target: Value) -> Result<Step, ObjectWhy>
    ensures { shown_by step_shown result ≡ instructions.jumps_by (turn_shown turn.now) rd target }
{
    match target {
        Value::Num(address) => jumps(turn, rd, address - address % 2),
        Value::Ptr { .. } => Err(ObjectWhy::PointerUse),
    }
}

/// A branch; one that is not taken may have any target. None stands for a pointer that it has no meaning
/// for.
pub fn branches(turn: &Turn, target: u64, taken: Option<bool>) -> Result<Step, ObjectWhy>
    ensures { shown_by step_shown result ≡ instructions.branches (turn_shown turn.now) target taken }
{
    match taken {
        Some(true) => goes_to(target, passes(turn)),
        Some(false) => Ok(passes(turn)),
        None => Err(ObjectWhy::PointerUse),
    }
}
