//! The flags of an entry.

ghost use Rattle.std.specs.Prelude.{⊤, [], ◌∷◌, codes};

use bitflags::{Flag, Flags, bitflag_items};

/// The flags of a page table entry, bits 0 to 7 of its word.
#[derive(Clone, Copy, Debug, PartialEq, Eq)]
pub struct PteBits(pub u8);

bitflag_items! {
    impl PteBits: u8 {
        /// The entry is valid.
        const V = 1;
        /// The page may be read.
        const R = 2;
        /// The page may be written.
        const W = 4;
        /// The page may be executed.
        const X = 8;
        /// The page may be accessed by the guest.
        const U = 16;
        /// The mapping is global, which this machine has not.
        const G = 32;
        /// The page was accessed.
        const A = 64;
        /// The page was written.
        const D = 128;
    }
}

impl Flags for PteBits {
    type Bits = u8;

    ghost exact = { ⊤ };

    ghost table = { (codes "V", 1) ∷ (codes "R", 2) ∷ (codes "W", 4) ∷ (codes "X", 8)
        ∷ (codes "U", 16) ∷ (codes "G", 32) ∷ (codes "A", 64) ∷ (codes "D", 128) ∷ [] };

    ghost set_of = { λ bits. bits.0 };

    fn flags<'a>() -> &'a [Flag<PteBits>] {
        PteBits::FLAGS
    }

    fn bits(&self) -> u8 {
        self.0
    }

    fn from_bits_retain(bits: u8) -> PteBits {
        PteBits(bits)
    }
}
