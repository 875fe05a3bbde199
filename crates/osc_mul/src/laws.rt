//! Laws of the products, quotients and remainders, for every two registers.

ghost use Rattle.std.specs.Prelude.{◌≡◌, ◌≢◌, ◌+◌, ◌*◌, ◌-◌, ◌%◌, ◌^◌, ℤ, pos, ◌+ℤ◌, ◌*ℤ◌};
ghost use Rattle.osc_rv.specs.declared.instr.MulOp.TheVariants.{Mul, Mulh, Mulhsu, Mulhu, Div, Divu, Rem, Remu, Mulw, Divw, Divuw, Remw, Remuw};
ghost use Rattle.osc_isa.specs.Multiply.{muldiv, signed_word, unsigned_word};
ghost use Rattle.osc_isa.specs.Numbers.{signed, word};
ghost use Rattle.osc_mul.specs.Divided.{Divided};

/// Two registers hold a whole product: its low half, which is the same for every reading of the
/// operands, and the half above it that goes by theirs. A product of words is the low word of the product.
pub fn halves_of_a_product(a: u64, b: u64)
    ensures signed { signed (muldiv Mulh a b) *ℤ pos (2 ^ 64) +ℤ pos (muldiv Mul a b) ≡ signed a *ℤ signed b }
    ensures mixed { signed (muldiv Mulhsu a b) *ℤ pos (2 ^ 64) +ℤ pos (muldiv Mul a b) ≡ signed a *ℤ pos b }
    ensures unsigned { muldiv Mulhu a b * 2 ^ 64 + muldiv Mul a b ≡ a * b }
    ensures words { muldiv Mulw a b ≡ word (a * b) }
{}

/// A signed number over another, where the divisor is not 0, and not -1 under the least number.
pub fn signed_quotient(a: u64, b: u64)
    requires divisor { b ≢ 0 }
    requires fits { a ≡ 2 ^ 63 → b ≢ 2 ^ 64 - 1 }
    ensures { Divided (signed a) (signed b) (signed (muldiv Div a b)) (signed (muldiv Rem a b)) }
{}

/// An unsigned number over another that is not 0.
pub fn unsigned_quotient(a: u64, b: u64)
    requires divisor { b ≢ 0 }
    ensures { Divided (pos a) (pos b) (pos (muldiv Divu a b)) (pos (muldiv Remu a b)) }
{}

/// The same for the low 32 bits as signed numbers.
pub fn signed_quotient_of_words(a: u64, b: u64)
    requires divisor { b % 2 ^ 32 ≢ 0 }
    requires fits { a % 2 ^ 32 ≡ 2 ^ 31 → b % 2 ^ 32 ≢ 2 ^ 32 - 1 }
    ensures { Divided (signed_word a) (signed_word b) (signed (muldiv Divw a b)) (signed (muldiv Remw a b)) }
{}

/// The same for the low 32 bits as unsigned numbers, whose quotient and remainder are the low 32 bits of
/// their registers.
pub fn unsigned_quotient_of_words(a: u64, b: u64)
    requires divisor { b % 2 ^ 32 ≢ 0 }
    ensures { Divided (unsigned_word a) (unsigned_word b) (unsigned_word (muldiv Divuw a b)) (unsigned_word (muldiv Remuw a b)) }
{}

/// A number over another has one quotient and one remainder.
pub fn one_quotient_and_remainder()
    ensures { (a b q r s t : ℤ) → Divided a b q r → Divided a b s t → (q ≡ s) × (r ≡ t) }
{}

/// By 0 the quotient has every bit set, and the remainder is the dividend.
pub fn quotient_by_zero(a: u64)
    ensures signed { muldiv Div a 0 ≡ 2 ^ 64 - 1 }
    ensures unsigned { muldiv Divu a 0 ≡ 2 ^ 64 - 1 }
    ensures signed_left { muldiv Rem a 0 ≡ a }
    ensures unsigned_left { muldiv Remu a 0 ≡ a }
{}

/// The same for the low 32 bits, which the remainder extends by their sign.
pub fn quotient_of_words_by_zero(a: u64, b: u64)
    requires divisor { b % 2 ^ 32 ≡ 0 }
    ensures signed { muldiv Divw a b ≡ 2 ^ 64 - 1 }
    ensures unsigned { muldiv Divuw a b ≡ 2 ^ 64 - 1 }
    ensures signed_left { muldiv Remw a b ≡ word a }
    ensures unsigned_left { muldiv Remuw a b ≡ word a }
{}

/// The least signed number by -1 is itself again, and nothing is left over.
pub fn least_by_minus_one()
    ensures quotient { muldiv Div (2 ^ 63) (2 ^ 64 - 1) ≡ 2 ^ 63 }
    ensures left { muldiv Rem (2 ^ 63) (2 ^ 64 - 1) ≡ 0 }
{}

/// The same for the low 32 bits.
pub fn least_word_by_minus_one(a: u64, b: u64)
    requires least { a % 2 ^ 32 ≡ 2 ^ 31 }
    requires minus_one { b % 2 ^ 32 ≡ 2 ^ 32 - 1 }
    ensures quotient { muldiv Divw a b ≡ 2 ^ 64 - 2 ^ 31 }
    ensures left { muldiv Remw a b ≡ 0 }
{}

/// What comes out of the low 32 bits is extended by its sign.
pub fn words_are_extended(a: u64, b: u64)
    ensures product { word (muldiv Mulw a b) ≡ muldiv Mulw a b }
    ensures signed { word (muldiv Divw a b) ≡ muldiv Divw a b }
    ensures unsigned { word (muldiv Divuw a b) ≡ muldiv Divuw a b }
    ensures signed_left { word (muldiv Remw a b) ≡ muldiv Remw a b }
    ensures unsigned_left { word (muldiv Remuw a b) ≡ muldiv Remuw a b }
{}
