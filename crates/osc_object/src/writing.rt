//! The call write.

ghost use Rattle.std.specs.Prelude.{◌≡◌, IfOk, OnOk, Some, [], ◌∷◌};
ghost use Rattle.osc_word.specs.declared.calls.Call.TheVariants as call;
ghost use Rattle.osc_world.specs.Values as values;
ghost use Rattle.osc_world.specs.Offers as offers;
ghost use Rattle.osc_world.specs.Accesses as accesses;
ghost use Rattle.osc_world.specs.Calls as calls;
ghost use Rattle.osc_world.specs.Instructions as instructions;
ghost use Rattle.osc_object.specs.Turns.{turn_shown, shown_by};
ghost use Rattle.osc_object.specs.Decisions.{decided_shown, decided};
ghost use Rattle.osc_object.specs.Rows.{bytes_of, row_shown, spelled, spelled_row};

use crate::calls::{A0, A1, number_in};
use crate::decisions::{Decided, Deed, only};
use crate::steps::advanced;
use crate::turn::{Turn, register};
use osc_sv39::Access;
use osc_word::{Choice, OUTPUT_LIMIT};
use osc_world::{Byte, ObjectWhy, Value};
use std::alloc::{AllocError, Global};

/// What was read of a row: its numbers, and whether no part of a pointer was met.
#[derive(Drop)]
struct Read {
    numbers: Vec<u8>,
    plain: bool,
}

/// One byte more of a row.
fn add_byte(read: &mut Read, byte: Byte) -> Result<(), AllocError>
    ensures { OnOk result (row_shown read.new ≡ spelled (row_shown read.old) (byte ∷ [])) }
{
    match byte {
        Byte::Number(number) => read.numbers.push(number)?,
        Byte::Part { .. } => read.plain = false,
    }
    Ok(())
}

/// One byte more of a row, if there is one.
fn add(read: &mut Read, byte: Option<Byte>) -> Result<(), AllocError>
    ensures { OnOk result (row_shown read.new ≡ spelled (row_shown read.old) (bytes_of byte)) }
{
    match byte {
        Some(byte) => add_byte(read, byte),
        None => Ok(()),
    }
}

/// The byte at an address that a load reaches; the inner None where its area has no such byte.
fn loaded_byte(turn: &Turn, address: Value) -> Result<Option<Byte>, ObjectWhy>
    ensures { shown_by bytes_of result ≡ accesses.loaded_byte (turn_shown turn.now) address }
{
    let at = turn.process.reach(Access::Load, 1, address)?;
    let state = turn.state;
    Ok(turn.process.byte_at(&state.shared, at))
}

/// The numbers in so many bytes from an address on, where a load reaches all of them.
fn read_row(
    alloc: Global,
    turn: &Turn,
    count: u64,
    from: Value,
) -> Result<Result<Read, ObjectWhy>, AllocError>
    ensures { IfOk result (λ read. shown_by row_shown read ≡ spelled_row (Some []) (accesses.row_at (turn_shown turn.now) count from)) }
{
    let mut read = Read {
        numbers: Vec::new(alloc),
        plain: true,
    };
    let mut address = from;
    for _ in 0..count {
        match loaded_byte(turn, address) {
            Ok(byte) => add(&mut read, byte)?,
            Err(why) => return Ok(Err(why)),
        }
        address = advanced(address, 1);
    }
    Ok(Ok(read))
}

/// How many bytes a write of so many takes: those that the output has room for.
fn write_count(turn: &Turn, asked: u64) -> u64
    ensures { result ≡ offers.write_count (turn_shown turn.now).state asked }
{
    let state = turn.state;
    let room = (OUTPUT_LIMIT as u64).saturating_sub(state.output.len() as u64);
    asked.min(room)
}

/// A write of so many bytes.
fn write_of(alloc: Global, turn: &Turn, choice: Choice, asked: u64) -> Result<Decided, AllocError>
    ensures { IfOk result (λ made. decided_shown (turn_shown turn.now) made ≡ decided (turn_shown turn.now) choice
        (calls.only_deed (calls.write_deed (turn_shown turn.now) (instructions.register_of (turn_shown turn.now) 10) asked))) }
{
    let count = write_count(turn, asked);
    let read = match read_row(alloc, turn, count, register(turn, A0))? {
        Ok(read) => read,
        Err(why) => return Ok(Decided::Errs(why)),
    };
    if read.plain {
        Ok(only(turn, choice, Deed::Writes(read.numbers)))
    } else {
        Ok(Decided::Errs(ObjectWhy::PointerBytes))
    }
}

/// Write: the first bytes of the buffer, as many as the output has room for. An `Err` is want of memory.
#[tactic(auto, unfolding(osc_world::specs::Calls::serves))]
pub fn write(alloc: Global, turn: &Turn, choice: Choice) -> Result<Decided, AllocError>
    ensures { IfOk result (λ made. decided_shown (turn_shown turn.now) made ≡ decided (turn_shown turn.now) choice (calls.serves (turn_shown turn.now) (call.Write 10 11))) }
{
    match number_in(register(turn, A1)) {
        Ok(asked) => write_of(alloc, turn, choice, asked),
        Err(why) => Ok(Decided::Errs(why)),
    }
}
