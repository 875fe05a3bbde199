//! What a product, a quotient or a remainder is, by what two registers hold.

ghost use Rattle.std.specs.Prelude.{◌≡◌, pos, ◌*ℤ◌};
ghost use Rattle.osc_isa.specs.Multiply as multiply;
ghost use Rattle.osc_isa.specs.Numbers as numbers;

use osc_rv::MulOp;

/// What `op` gives for `a` in rs1 and `b` in rs2: the RISC-V Unprivileged manual, "M Standard Extension
/// for Integer Multiplication and Division". Every operation gives a value for every two numbers; a
/// division by 0 does not trap.
pub fn mul_value(op: MulOp, a: u64, b: u64) -> u64
    ensures { result ≡ multiply.muldiv op a b }
{
    let (signed_a, signed_b) = (a.cast_signed(), b.cast_signed());
    match op {
        MulOp::Mul => a.wrapping_mul(b),
        MulOp::Mulh => high_bits(i128::from(signed_a) * i128::from(signed_b)),
        MulOp::Mulhsu => high_bits(mixed_product(signed_a, b)),
        MulOp::Mulhu => unsigned_high_bits(u128::from(a) * u128::from(b)),
        MulOp::Div => quotient(signed_a, signed_b),
        MulOp::Divu => unsigned_quotient(a, b),
        MulOp::Rem => remainder(signed_a, signed_b),
        MulOp::Remu => unsigned_remainder(a, b),
        MulOp::Mulw => word(a.wrapping_mul(b)),
        MulOp::Divw => word(quotient(signed_word(a), signed_word(b))),
        MulOp::Divuw => word(unsigned_quotient(unsigned_word(a), unsigned_word(b))),
        MulOp::Remw => word(remainder(signed_word(a), signed_word(b))),
        MulOp::Remuw => word(unsigned_remainder(unsigned_word(a), unsigned_word(b))),
    }
}

fn mixed_product(a: i64, b: u64) -> i128
    ensures { result ≡ a *ℤ pos b }
{
    i128::from(a) * i128::from(b)
}

/// Bits 127 to 64 of a product of which a factor is signed.
fn high_bits(product: i128) -> u64
    ensures { result ≡ multiply.high_bits product }
{
    ((product >> 64) as i64).cast_unsigned()
}

/// Bits 127 to 64 of a product of unsigned factors.
fn unsigned_high_bits(product: u128) -> u64
    ensures { result ≡ multiply.high_bits (pos product) }
{
    (product >> 64) as u64
}

/// The least number by -1 wraps round to itself.
fn quotient(a: i64, b: i64) -> u64
    ensures { result ≡ multiply.quotient a b }
{
    if b == 0 {
        u64::MAX
    } else {
        a.wrapping_div(b).cast_unsigned()
    }
}

fn unsigned_quotient(a: u64, b: u64) -> u64
    ensures { result ≡ multiply.quotient (pos a) (pos b) }
{
    if b == 0 { u64::MAX } else { a / b }
}

fn remainder(a: i64, b: i64) -> u64
    ensures { result ≡ multiply.remainder a b }
{
    let left = if b == 0 { a } else { a.wrapping_rem(b) };
    left.cast_unsigned()
}

fn unsigned_remainder(a: u64, b: u64) -> u64
    ensures { result ≡ multiply.remainder (pos a) (pos b) }
{
    if b == 0 { a } else { a % b }
}

/// The low 32 bits, extended by their sign.
fn word(number: u64) -> u64
    ensures { result ≡ numbers.word number }
{
    let low = unsigned_word(number);
    if low < 1 << 31 {
        low
    } else {
        low + 0xFFFF_FFFF_0000_0000
    }
}

/// The low 32 bits as a signed number.
fn signed_word(number: u64) -> i64
    ensures { result ≡ multiply.signed_word number }
{
    word(number).cast_signed()
}

/// The low 32 bits as an unsigned number.
fn unsigned_word(number: u64) -> u64
    ensures { pos result ≡ multiply.unsigned_word number }
{
    number % (1 << 32)
}
