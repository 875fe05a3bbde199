//! One event under way: what it reads before it changes anything.

ghost use Rattle.std.specs.Prelude.{◌≡◌, ◌≤◌, ◌<◌, IfOk};
ghost use Rattle.osc_world.specs.Accesses as accesses;
ghost use Rattle.osc_world.specs.Instructions as instructions;
ghost use Rattle.osc_values.specs.Stored.{FitsIn};
ghost use Rattle.osc_object.specs.Turns.{turn_shown, put_shown, shown_by};

use crate::hart::Hart;
use crate::state::State;
use osc_memory::Process;
use osc_sv39::Access;
use osc_word::Pid;
use osc_world::{Area, ObjectWhy, Place, Value};

/// The state, the hart of the event with its number, and its process with its number.
pub struct Turn<'a> {
    pub state: &'a State,
    pub number: u32,
    pub hart: &'a Hart,
    pub pid: Pid,
    pub process: &'a Process,
}

/// A store that is decided: where it begins, its width and its value.
#[derive(Clone, Copy)]
pub struct Put {
    pub at: Place,
    pub width: u8,
    pub value: Value,
}

/// What a register of the hart holds.
pub fn register(turn: &Turn, number: u8) -> Value
    ensures { result ≡ instructions.register_of (turn_shown turn.now) number }
{
    turn.hart.register(number)
}

/// Whether the address, or the offset of a pointer, is divisible by the width.
fn is_aligned(width: u8, address: Value) -> bool
    requires { 0 < width }
    ensures { result ≡ accesses.is_aligned width address }
{
    match address {
        Value::Num(number) => number.is_multiple_of(u64::from(width)),
        Value::Ptr { offset, .. } => offset.is_multiple_of(u64::from(width)),
    }
}

/// Where an access begins, whose operand in a register may be what it is; or the first error.
pub fn aim(
    turn: &Turn,
    access: Access,
    width: u8,
    address: Value,
    takes_operand: bool,
) -> Result<Place, ObjectWhy>
    requires { 0 < width }
    ensures { result ≡ accesses.aimed (turn_shown turn.now) access width address takes_operand }
{
    if !is_aligned(width, address) {
        return Err(ObjectWhy::Trap);
    }
    if !takes_operand {
        return Err(ObjectWhy::PointerUse);
    }
    turn.process.reach(access, width, address)
}

/// The value that stands in the `width` bytes from a place on.
pub fn value_at(turn: &Turn, at: Place, width: u8) -> Result<Value, ObjectWhy>
    requires { width ≤ 8 }
    ensures fits { IfOk result (FitsIn width) }
    ensures value { result ≡ accesses.value_at (turn_shown turn.now) at width }
{
    let state = turn.state;
    match turn.process.value_at(&state.shared, at, width) {
        Some(value) => Ok(value),
        None => Err(ObjectWhy::PointerBytes),
    }
}

/// The store of a value that its width takes; no pointer goes into a shared page.
pub fn puts(at: Place, width: u8, value: Value) -> Result<Put, ObjectWhy>
    ensures { shown_by put_shown result ≡ accesses.puts at width value }
{
    match (at.area, value) {
        (Area::Shared(_), Value::Ptr { .. }) => Err(ObjectWhy::PointerShared),
        _ => Ok(Put { at, width, value }),
    }
}

/// Whether a store of this width takes the value.
pub fn is_storable(width: u8, value: Value) -> bool
    ensures { result ≡ accesses.is_storable width value }
{
    match value {
        Value::Num(_) => true,
        Value::Ptr { .. } => width == 8,
    }
}
