//! Numbers and registers at the front of a text.

ghost use Rattle.std.specs.Prelude.{◌≡◌, ◌≢◌, ◌<◌, ◌≤◌, ◌++◌, ◌∷◌, ℕ, false, List, Some, IfSome, IsNone, IsSome, slice_get};
ghost use Rattle.std.specs.Fmt.{decimal};
ghost use Rattle.osc_text.specs.declared.spelling.Number.{Number};
ghost use Rattle.osc_text.specs.Text.{register_text, address_text, number_text};
ghost use Rattle.osc_text.specs.Digits as spec;

use crate::spelling::Number;
use osc_rv::Field;

fn with_digit(value: u32, digit: u8) -> u32
    requires value { value < 10000000 }
    requires digit { (48 ≤ digit) × (digit ≤ 57) }
    ensures value { result ≡ spec.with_digit value digit }
    ensures range { result < 10000000 }
{
    (value * 10 + u32::from(digit - b'0')) % 10_000_000
}

/// The number of the digits at the front, by its last seven digits, and what follows them.
fn digits(text: &[u8]) -> (u32, &[u8])
    ensures value { result.0 ≡ spec.front_value 0 text.now }
    ensures rest { result.1.now ≡ spec.after_digits text.now }
{
    let mut value = 0;
    let mut at = 0;
    while at < text.len() {
        let byte = text[at];
        if !byte.is_ascii_digit() {
            break;
        }
        value = with_digit(value, byte);
        at += 1;
    }
    (value, &text[at..])
}

/// What follows a byte that the text begins with.
fn after(byte: u8, text: &[u8]) -> Option<&[u8]>
    ensures found { IfSome result (λ rest. text.now ≡ byte ∷ rest.now) }
    ensures missing { IsNone result → (rest : List ℕ) → text.now ≢ byte ∷ rest }
{
    if !text.is_empty() && text[0] == byte {
        Some(&text[1..])
    } else {
        None
    }
}

/// A number whose sign was read before.
fn magnitude(negative: bool, text: &[u8]) -> Option<(Number, &[u8])>
    ensures { (magnitude : ℕ) (rest : List ℕ) → magnitude < 4194304 → spec.starts_digit rest ≡ false
        → text.now ≡ decimal magnitude ++ rest
        → spec.Reads result (record { negative = negative; magnitude = magnitude }) rest }
{
    let (value, rest) = digits(text);
    let magnitude = Field::new(value)?;
    Some((
        Number {
            negative,
            magnitude,
        },
        rest,
    ))
}

/// The number at the front, which no digit follows, with what follows it. It is below 2^22. Leading
/// zeros and a negative 0 are taken too; where no number stands there, the answer may be any.
pub fn number(text: &[u8]) -> Option<(Number, &[u8])>
    ensures { (number : Number) (rest : List ℕ) → number.magnitude < 4194304 → spec.starts_digit rest ≡ false
        → text.now ≡ number_text number ++ rest → spec.Reads result number rest }
{
    match after(b'-', text) {
        Some(rest) => magnitude(true, rest),
        None => magnitude(false, text),
    }
}

/// The register at the front, which no digit follows, with what follows it.
pub fn register(text: &[u8]) -> Option<(Field<5>, &[u8])>
    ensures reads { (register : ℕ) (rest : List ℕ) → register < 32 → spec.starts_digit rest ≡ false
        → text.now ≡ register_text register ++ rest → spec.Reads result register rest }
    ensures first { IsSome result → slice_get text.now 0 ≡ Some 120 }
{
    let (value, rest) = digits(after(b'x', text)?);
    Some((Field::new(value)?, rest))
}

/// The register in parentheses at the front, with what follows it.
pub fn address(text: &[u8]) -> Option<(Field<5>, &[u8])>
    ensures reads { (base : ℕ) (rest : List ℕ) → base < 32 → text.now ≡ address_text base ++ rest → spec.Reads result base rest }
    ensures first { IsSome result → slice_get text.now 0 ≡ Some 40 }
{
    let Some((base, rest)) = register(after(b'(', text)?) else {
        return None;
    };
    Some((base, after(b')', rest)?))
}
