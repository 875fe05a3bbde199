//! Parts of a word of 8 bytes: the `width` bytes at an address, which is divisible by the width, and
//! the width is 1, 2, 4 or 8.
ghost use Rattle.std.specs.Prelude.{◌≡◌, ◌<◌, ◌+◌, ◌*◌, ◌/◌, ◌%◌, ◌^◌, ◌==◌, true};
ghost use Rattle.osc_guest.specs.AccessLaws.{is_access_width};
ghost use Rattle.osc_guest.specs.Accesses as accesses;

/// Whether an address is divisible by a width.
pub fn is_aligned(address: u64, width: u8) -> bool
    requires { is_access_width width ≡ true }
    ensures { result ≡ (address % width == 0) }
{
    match width {
        1 => true,
        2 => address % 2 == 0,
        4 => address % 4 == 0,
        _ => address % 8 == 0,
    }
}

/// The low bytes of a number.
fn low_bytes(number: u64, width: u8) -> u64
    requires { is_access_width width ≡ true }
    ensures { result ≡ number % 256 ^ width }
{
    match width {
        1 => number % (1 << 8),
        2 => number % (1 << 16),
        4 => number % (1 << 32),
        _ => number,
    }
}

/// The bits below the byte of an address.
fn bits_below(address: u64) -> u32
    ensures { result ≡ 8 * (address % 8) }
{
    8 * (address % 8) as u32
}

/// The number in the bytes of a word.
pub fn part_of(address: u64, width: u8, word: u64) -> u64
    requires { is_access_width width ≡ true }
    ensures { result ≡ accesses.part_of address width word }
{
    low_bytes(word >> bits_below(address), width)
}

/// The bytes of a word below a byte.
#[tactic(auto, using(crate::proofs::Parts::byte_power))]
fn below_byte(word: u64, byte: u32) -> u64
    requires { byte < 8 }
    ensures { result ≡ word % 256 ^ byte }
{
    word % (1 << (8 * byte))
}

/// A number moved up by so many bytes, for which there is room.
#[tactic(auto, using(crate::proofs::Parts::byte_power))]
fn at_byte(number: u64, byte: u32) -> u64
    requires byte { byte < 8 }
    requires room { number * 256 ^ byte < 2 ^ 64 }
    ensures { result ≡ number * 256 ^ byte }
{
    number << (8 * byte)
}

/// The bytes of a word from a byte on, in their places: those below are 0.
fn from_byte(word: u64, byte: u32) -> u64
    requires { byte < 9 }
    ensures { result ≡ word / 256 ^ byte * 256 ^ byte }
{
    if byte == 8 {
        return 0;
    }
    word >> (8 * byte) << (8 * byte)
}

/// The word with another number in these bytes.
pub fn with_part(address: u64, width: u8, word: u64, number: u64) -> u64
    requires width { is_access_width width ≡ true }
    requires aligned { address % width ≡ 0 }
    requires fits { number < 256 ^ width }
    ensures { result ≡ accesses.with_part address width word number }
{
    let byte = (address % 8) as u32;
    below_byte(word, byte) + at_byte(number, byte) + from_byte(word, byte + u32::from(width))
}
