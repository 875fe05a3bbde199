ghost use Rattle.std.specs.Prelude.{◌≡◌, ◌+◌, ◌*◌, ◌<◌, ◌≤◌, ◌↔◌, ◌^◌, ℕ, IsNone, IfSome};
ghost use Rattle.osc_rv.specs.Bits.{bits};

use std::marker::Model;

/// A field of `N` bits of an instruction word: a number below 2^N.
#[derive(Clone, Copy, PartialEq, Eq, Debug)]
pub struct Field<const N: u32> {
    value: u32,
}

impl<const N: u32> Model for Field<N> {
    ghost Value = { ℕ };

    ghost view = { λ f. f.value };

    ghost invariant = { λ f. f.value < 2 ^ N };

    ghost inverse = { λ n. record { value = n } };
}

impl<const N: u32> Field<N> {
    /// The field that holds `value`; None where it is 2^N or more.
    pub fn new(value: u32) -> Option<Field<N>>
        ensures refused { IsNone result ↔ (2 ^ N ≤ value) }
        ensures value { IfSome result (λ f. f ≡ value) }
    {
        if N >= u32::BITS {
            return Some(Field { value });
        }
        if value >= 1 << N {
            return None;
        }
        Some(Field { value })
    }

    /// The number in the field.
    pub fn value(&self) -> u32
        ensures number { result ≡ self.now }
        ensures range { result < 2 ^ N }
    {
        self.value
    }

    /// The field that holds `value`, which is known to fit.
    pub(crate) fn holding(value: u32) -> Field<N>
        requires { value < 2 ^ N }
        ensures { result ≡ value }
    {
        Field { value }
    }

    /// The `N` bits of `word` from bit `low` on.
    pub(crate) fn of_word(word: u32, low: u32) -> Field<N>
        requires { (low < 32) × (N < 32) }
        ensures { result ≡ bits low N word }
    {
        Field {
            value: bits_of(word, low, N),
        }
    }
}

/// The bits of `word` from bit `low` on, `count` of them.
pub(crate) fn bits_of(word: u32, low: u32, count: u32) -> u32
    requires { (low < 32) × (count < 32) }
    ensures number { result ≡ bits low count word }
    ensures range { result < 2 ^ count }
{
    (word >> low) % (1 << count)
}
