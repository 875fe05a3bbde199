//! The value that stands in bytes.

ghost use Rattle.std.specs.Prelude.{◌≡◌, ◌<◌, ◌≤◌, ◌+◌, ◌*◌, ◌^◌, IfSome, length, take, drop};
ghost use Rattle.std.specs.Option.{option_map};
ghost use Rattle.byteorder.specs.Endian.{little_number};
ghost use Rattle.osc_world.specs.Values as values;
ghost use Rattle.osc_values.specs.Stored.{FitsIn};

use osc_world::{Byte, Value};

/// A number with one byte more below it.
fn with_byte_below(number: u64, byte: u8) -> u64
    requires { number < 256 ^ 7 }
    ensures value { result ≡ number * 256 + byte }
    ensures range { byte < 256 }
{
    number * 256 + u64::from(byte)
}

/// The number in bytes, the lowest first; None where one is a part of a pointer.
fn number_in(bytes: &[Byte]) -> Option<u64>
    requires { length bytes.now ≤ 8 }
    ensures fits { IfSome result (λ number. number < 256 ^ length bytes.now) }
    ensures value { result ≡ option_map (little_number (length bytes.now)) (values.numbers_in bytes.now) }
{
    let mut number = 0;
    let mut at = bytes.len();
    while at > 0 {
        at -= 1;
        let Byte::Number(byte) = bytes[at] else {
            return None;
        };
        number = with_byte_below(number, byte);
    }
    Some(number)
}

/// Whether a byte is the part of this index of a pointer.
fn is_part(byte: Byte, object: u32, offset: u64, index: u8) -> bool
    ensures { result ≡ values.is_part object offset index byte }
{
    byte == Byte::Part {
        object,
        offset,
        index,
    }
}

/// Whether the bytes are the eight parts of a pointer, in order.
fn are_parts(bytes: &[Byte], object: u32, offset: u64) -> bool
    ensures { result ≡ values.are_parts object offset 0 bytes.now }
{
    if bytes.len() != 8 {
        return false;
    }
    for index in 0..8 {
        if !is_part(bytes[usize::from(index)], object, offset, index) {
            return false;
        }
    }
    true
}

/// The pointer of which the bytes are the eight parts, in order; else None.
fn pointer_in(bytes: &[Byte]) -> Option<Value>
    ensures fits { IfSome result (FitsIn (length bytes.now)) }
    ensures value { result ≡ values.pointer_in bytes.now }
{
    match bytes.first() {
        Some(&Byte::Part { object, offset, .. }) if are_parts(bytes, object, offset) => {
            Some(Value::Ptr { object, offset })
        }
        _ => None,
    }
}

/// The value that stands in bytes: a number, or the pointer of which they are the eight parts. None where
/// they are neither.
fn gather(bytes: &[Byte]) -> Option<Value>
    requires { length bytes.now ≤ 8 }
    ensures fits { IfSome result (FitsIn (length bytes.now)) }
    ensures value { result ≡ values.gather bytes.now }
{
    match number_in(bytes) {
        Some(number) => Some(Value::Num(number)),
        None => pointer_in(bytes),
    }
}

/// The value in the `width` bytes from an offset on, as `gather`; bytes past the end are left out.
#[tactic(auto, using(crate::proofs::Parts::take_part))]
pub fn value_in(bytes: &[Byte], offset: u64, width: u8) -> Option<Value>
    requires { width ≤ 8 }
    ensures fits { IfSome result (FitsIn width) }
    ensures value { result ≡ values.gather (take width (drop offset bytes.now)) }
{
    let from = offset.min(bytes.len() as u64) as usize;
    let to = bytes.len().min(from + usize::from(width));
    gather(&bytes[from..to])
}
