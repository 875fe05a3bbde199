//! The words of a line.

ghost use Rattle.std.specs.Prelude.{◌≡◌, ◌<◌, ◌++◌, ℕ, List, Some, IfSome};
ghost use Rattle.std.specs.Fmt.{decimal};
ghost use Rattle.std.specs.List.{list_all};
ghost use Rattle.osc_text.specs.Digits.{Reads};
ghost use Rattle.osc_line.specs.Line as spec;

use crate::split::after_front;
use itoa::Buffer;
use osc_rv::Field;
use osc_text::{TextBuf, register};
use std::str;

fn is_name_byte(byte: u8) -> bool
    ensures { result ≡ spec.is_name_byte byte }
{
    byte.is_ascii_lowercase() || byte.is_ascii_digit() || byte == b'_'
}

fn all_name_bytes(word: &[u8]) -> bool
    ensures { result ≡ list_all spec.is_name_byte word.now }
{
    let mut at = 0;
    while at < word.len() {
        if !is_name_byte(word[at]) {
            return false;
        }
        at += 1;
    }
    true
}

/// Whether a word is a name: 1 to 32 of a to z, 0 to 9 and _, of which the first is a letter.
pub(crate) fn is_name(word: &[u8]) -> bool
    ensures { result ≡ spec.is_name word.now }
{
    match word {
        [] => false,
        [first, rest @ ..] => first.is_ascii_lowercase() && rest.len() < 32 && all_name_bytes(rest),
    }
}

fn is_hex_digit(byte: u8) -> bool
    ensures { result ≡ spec.is_hex_digit byte }
{
    byte.is_ascii_digit() || (byte >= b'a' && byte <= b'f')
}

fn all_hex_digits(word: &[u8]) -> bool
    ensures { result ≡ list_all spec.is_hex_digit word.now }
{
    let mut at = 0;
    while at < word.len() {
        if !is_hex_digit(word[at]) {
            return false;
        }
        at += 1;
    }
    true
}

/// Whether a word is pairs of lower case hexadecimal digits, at least one.
pub(crate) fn is_hex(word: &[u8]) -> bool
    ensures { result ≡ spec.is_hex word.now }
{
    !word.is_empty() && word.len() % 2 == 0 && all_hex_digits(word)
}

/// The number below 2^32 that a word is in decimal.
fn numeral(word: &[u8]) -> Option<u32>
    ensures found { IfSome result (λ number. word.now ≡ decimal number) }
    ensures reads { (number : ℕ) → number < 4294967296 → word.now ≡ decimal number → result ≡ Some number }
{
    let Ok(text) = str::from_utf8(word) else {
        return None;
    };
    let Ok(number) = text.parse::<u32>() else {
        return None;
    };
    if Buffer::new().format(number).as_bytes() == word {
        Some(number)
    } else {
        None
    }
}

/// The number below a limit that a word is in decimal.
pub(crate) fn numeral_below(limit: u32, word: &[u8]) -> Option<u32>
    ensures found { IfSome result (λ number. (number < limit) × (word.now ≡ decimal number)) }
    ensures reads { (number : ℕ) → number < limit → word.now ≡ decimal number → result ≡ Some number }
{
    let number = numeral(word)?;
    if number < limit { Some(number) } else { None }
}

fn number_of(register: Field<5>) -> u32
    ensures value { result ≡ register }
    ensures range { result < 32 }
{
    register.value()
}

/// The register after a front, with what follows the comma and the space after it.
pub(crate) fn register_after<'a>(front: &[u8], line: &'a [u8]) -> Option<(u8, &'a [u8])>
    ensures found { IfSome result (λ found. (found.0 < 32) × (line.now ≡ front.now ++ spec.first_register found.0 found.1.now)) }
    ensures reads { (found : ℕ) (rest : List ℕ) → found < 32 → line.now ≡ front.now ++ spec.first_register found rest
        → Reads result found rest }
{
    let after = after_front(front, line)?;
    let Some((found, _)) = register(after) else {
        return None;
    };
    let number = number_of(found);
    let mut printed = TextBuf::new();
    printed.text(b"x");
    printed.decimal(number);
    printed.text(b", ");
    match after_front(printed.as_bytes(), after) {
        Some(rest) => Some((number as u8, rest)),
        None => None,
    }
}
