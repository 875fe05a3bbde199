//! What an atomic memory operation makes of the number in memory and of its operand: the RISC-V
//! Unprivileged manual, "A Extension for Atomic Instructions".

ghost use Rattle.std.specs.Prelude.{◌≡◌, ◌<◌, ◌^◌};
ghost use Rattle.osc_isa.specs.Atomic as atomic;

use osc_rv::{AmoOp, Width};

/// The low bits of a number that a width takes: 32 in `.w`, all 64 in `.d`.
fn narrowed(width: Width, number: u64) -> u64
    ensures { result ≡ atomic.narrowed width number }
{
    match width {
        Width::W => number % (1 << 32),
        Width::D => number,
    }
}

/// What goes into the register for a number that was read, of which the low 32 bits count in `.w`: they
/// are extended by their sign.
pub fn widen(width: Width, number: u64) -> u64
    ensures low { result ≡ atomic.widened width (atomic.narrowed width number) }
    ensures whole { number < 256 ^ atomic.width_of width → result ≡ atomic.widened width number }
{
    let low = narrowed(width, number);
    match width {
        Width::W if low < 1 << 31 => low,
        Width::W => low + 0xFFFF_FFFF_0000_0000,
        Width::D => low,
    }
}

/// A number of this width as a signed number.
fn signed(width: Width, number: u64) -> i64
    ensures { result ≡ atomic.signed_of width (atomic.narrowed width number) }
{
    widen(width, number).cast_signed()
}

/// What `op` stores where `old` stands and `operand` is in rs2. In `.w` the low 32 bits of both count, and
/// the upper 32 bits of the answer are 0.
#[tactic(auto, using(crate::proofs::Words::low_wrapped))]
pub fn amo(op: AmoOp, width: Width, old: u64, operand: u64) -> u64
    ensures { result ≡ atomic.amo_of op width old operand }
{
    let (a, b) = (narrowed(width, old), narrowed(width, operand));
    match op {
        AmoOp::Add => narrowed(width, a.wrapping_add(b)),
        AmoOp::Swap => b,
        AmoOp::Xor => a ^ b,
        AmoOp::Or => a | b,
        AmoOp::And => a & b,
        AmoOp::Min if signed(width, operand) < signed(width, old) => b,
        AmoOp::Max if signed(width, old) < signed(width, operand) => b,
        AmoOp::Minu if b < a => b,
        AmoOp::Maxu if a < b => b,
        AmoOp::Min | AmoOp::Max | AmoOp::Minu | AmoOp::Maxu => a,
    }
}
