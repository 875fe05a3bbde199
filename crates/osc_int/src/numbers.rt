//! Numbers of 64 bits in registers.

ghost use Rattle.std.specs.Prelude.{◌≡◌, ◌<◌, ◌^◌};
ghost use Rattle.osc_isa.specs.Numbers as numbers;

/// A field of `width` bits, with its sign bit in all bits above.
pub fn extended(width: u32, field: u64) -> u64
    requires narrow { (0 < width) × (width < 64) }
    requires fits { field < 2 ^ width }
    ensures { result ≡ numbers.extended width field }
{
    if field < 1 << (width - 1) {
        field
    } else {
        field + (u64::MAX - ((1 << width) - 1))
    }
}

/// The low 32 bits, extended by their sign.
pub fn word(number: u64) -> u64
    ensures { result ≡ numbers.word number }
{
    extended(32, number % (1 << 32))
}

/// A register divided by 2^amount, both signed and rounded down.
pub fn signed_shift(number: u64, amount: u32) -> u64
    requires { amount < 64 }
    ensures { result ≡ numbers.signed_shift number amount }
{
    number.cast_signed().wrapping_shr(amount).cast_unsigned()
}
