//! The draws of a number, one after another.

ghost use Rattle.std.specs.Prelude.{◌≡◌, ◌<◌, ◌≤◌};
ghost use Rattle.osc_gen.specs.Draws as draws;

/// What is drawn for a round.
#[derive(Clone, Copy, Debug, PartialEq, Eq)]
pub struct Draw {
    /// Which pointer, 0 to 15.
    pub pointer: u8,
    /// What is done with a live one, 0 to 3.
    pub deed: u8,
    /// A size in bytes, 1 to 3000.
    pub size: u32,
}

/// The number that follows another.
pub(crate) fn next(number: u64) -> u64
    ensures { result ≡ draws.next number }
{
    number
        .wrapping_mul(6_364_136_223_846_793_005)
        .wrapping_add(1_442_695_040_888_963_407)
}

/// What a number draws.
pub(crate) fn drawn_by(number: u64) -> Draw
    ensures value { result ≡ draws.draw number }
    ensures range { (result.pointer < 16) × (result.size < 4096) }
{
    Draw {
        pointer: (number / (1 << 33) % 16) as u8,
        deed: (number / (1 << 37) % 4) as u8,
        size: 1 + (number / (1 << 40) % 3000) as u32,
    }
}
