//! Truth values as bits of words, 64 to a word. Past the last word no bit is 1.

ghost use Rattle.std.specs.Prelude.{ℕ, ◌≡◌, ◌+◌, ◌*◌, ◌^◌, ◌<◌, ◌≤◌, ◌&&◌, nat_lt, length, slice_set};
ghost use Rattle.std.specs.Int.{bit_at};
ghost use Rattle.osc_frames.specs.Words.{digit, has, numbers_of};
ghost use Rattle.osc_slot.specs.Least.{least};
ghost use Rattle.osc_heap.specs.Layout.{has_as};

use crate::reserved::value_at;

/// The least of `count` numbers from `first` on at which the bit is as wanted.
pub fn least_as(words: &[u64], first: usize, count: usize, wanted: bool) -> Option<usize>
    requires fits { first + count < 2 ^ 64 }
    ensures { result ≡ least (has_as words.now wanted) first count }
{
    let end = first + count;
    let mut at = first;
    while at < end {
        let part = (end - at).min(64);
        let found = window(words, at, part, wanted);
        if found != 0 {
            return Some(at + found.trailing_zeros() as usize);
        }
        at += part;
    }
    None
}

// The word whose bit j is 1 exactly where j is below the count and the bit of `first + j` is as wanted.
fn window(words: &[u64], first: usize, count: usize, wanted: bool) -> u64
    requires count { (0 < count) × (count ≤ 64) }
    ensures { (j : ℕ) → j < 64 → bit_at result j ≡ digit (nat_lt j count && has_as words.now wanted (first + j)) }
{
    let bits = bits_from(words, first, count);
    let bits = if wanted { bits } else { !bits };
    bits & (u64::MAX >> (64 - count))
}

// The bits of `count` numbers from `first` on, and of others after them.
fn bits_from(words: &[u64], first: usize, count: usize) -> u64
    requires count { (0 < count) × (count ≤ 64) }
    ensures { (j : ℕ) → j < count → bit_at result j ≡ digit (has words.now (first + j)) }
{
    let shift = first % 64;
    let low = value_at(words, first / 64, 0) >> shift;
    if shift + count <= 64 {
        return low;
    }
    low | value_at(words, first / 64 + 1, 0) << (64 - shift)
}

/// Sets the bit of a number.
pub fn set_bit(words: &mut [u64], number: usize, value: bool)
    requires { number < 64 * length words.old }
    ensures { (count : ℕ) → number < count → numbers_of words.new count ≡ slice_set (numbers_of words.old count) number value }
{
    let word = number / 64;
    let bit = 1 << (number % 64);
    words[word] = if value {
        words[word] | bit
    } else {
        words[word] & !bit
    };
}

/// Whether the bit of a number is 1.
pub fn is_set(words: &[u64], number: usize) -> bool
    ensures { result ≡ has words.now number }
{
    (value_at(words, number / 64, 0) >> (number % 64)) & 1 == 1
}
