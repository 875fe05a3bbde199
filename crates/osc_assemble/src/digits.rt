//! Bytes from hexadecimal digits.

ghost use Rattle.std.specs.Prelude.{◌≡◌, ◌<◌, IfOk};
ghost use Rattle.osc_assemble.specs.Put as spec;

use std::alloc::{AllocError, Global};

fn digit_value(digit: u8) -> u8
    ensures value { result ≡ spec.digit_value digit }
    ensures range { result < 16 }
{
    match digit {
        b'0'..=b'9' => digit - b'0',
        b'a'..=b'f' => digit - b'a' + 10,
        _ => 0,
    }
}

/// The bytes of pairs of digits.
pub(crate) fn bytes_of(alloc: Global, digits: &[u8]) -> Result<Vec<u8>, AllocError>
    ensures { IfOk result (λ bytes. bytes.items ≡ spec.bytes_of digits.now) }
{
    let mut bytes = Vec::with_capacity(alloc, digits.len() / 2)?;
    let mut at = 0;
    while at + 1 < digits.len() {
        bytes.push(16 * digit_value(digits[at]) + digit_value(digits[at + 1]))?;
        at += 2;
    }
    Ok(bytes)
}
