//! The bytes of a stored value.

ghost use Rattle.std.specs.Prelude.{◌≡◌, slice_set, length};
ghost use Rattle.std.specs.Int.{byte_at};
ghost use Rattle.osc_world.specs.Values as values;
ghost use Rattle.osc_world.specs.Accesses as accesses;
ghost use Rattle.osc_values.specs.Stored.{byte_in, byte_count};

use osc_world::{Byte, Value};

/// The byte of this index of a number, the lowest first; above the eighth all are 0.
fn number_byte(number: u64, index: u8) -> u8
    ensures { result ≡ byte_at index number }
{
    if index < 8 {
        number.to_le_bytes()[usize::from(index)]
    } else {
        0
    }
}

/// The byte of this index of a stored value.
fn byte_of(value: Value, index: u8) -> Byte
    ensures { result ≡ byte_in value index }
{
    match value {
        Value::Num(number) => Byte::Number(number_byte(number, index)),
        Value::Ptr { object, offset } => Byte::Part {
            object,
            offset,
            index,
        },
    }
}

/// How many bytes a value has that is stored with this width; a pointer has all its parts.
fn bytes_of_width(value: Value, width: u8) -> u8
    ensures { result ≡ byte_count width value }
{
    match value {
        Value::Num(_) => width,
        Value::Ptr { .. } => 8,
    }
}

/// Puts a byte at a place, if there is one.
#[tactic(auto, using(std::proofs::lemmas::List::set_past))]
fn put_byte(bytes: &mut [Byte], place: usize, byte: Byte)
    ensures put { bytes.new ≡ slice_set bytes.old place byte }
    ensures size { length bytes.new ≡ length bytes.old }
{
    if place < bytes.len() {
        bytes[place] = byte;
    }
}

/// Puts a value with this width into bytes, from an offset on. What has no place there is left out.
pub fn overlay(bytes: &mut [Byte], offset: u64, width: u8, value: Value)
    ensures { bytes.new ≡ accesses.overlaid bytes.old offset (values.spread width value) }
{
    if offset >= bytes.len() as u64 {
        return;
    }
    let first = offset as usize;
    for index in 0..bytes_of_width(value, width) {
        put_byte(bytes, first + usize::from(index), byte_of(value, index));
    }
}
