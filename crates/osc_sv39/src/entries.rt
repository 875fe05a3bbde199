//! The words of entries.
#![tactic(auto, using(crate::proofs::FlagTests::flag_tests))]

ghost use Rattle.std.specs.Prelude.{◌≡◌, ◌%◌};
ghost use Rattle.osc_sv39.specs.Entries.{word_of, entry_of, is_allowed, is_pointer, is_reserved};

use crate::flags::PteBits;
use bitflags::Flags;

/// What an access does.
#[derive(Clone, Copy, Debug, PartialEq, Eq)]
pub enum Access {
    Fetch,
    Load,
    Store,
}

/// The frame of a page, and the flags of its leaf.
#[derive(Clone, Copy, Debug, PartialEq, Eq)]
pub struct Mapping {
    pub frame: u32,
    pub bits: PteBits,
}

/// What an entry's word says.
#[derive(Clone, Copy, Debug, PartialEq, Eq)]
pub enum PteEntry {
    Absent,
    /// The table of the next level stands in this frame.
    Table(u32),
    /// The page has this frame and these flags.
    Leaf(u32, PteBits),
    Reserved,
}

/// The word of a leaf.
pub fn leaf(frame: u32, bits: PteBits) -> u64
    ensures { result ≡ word_of (PteEntry.Leaf frame bits) }
{
    u64::from(frame) << 10 | u64::from(bits.bits())
}

/// The word of a link to the table of the next level.
pub fn table(frame: u32) -> u64
    ensures { result ≡ word_of (PteEntry.Table frame) }
{
    u64::from(frame) << 10 | 1
}

/// The flags of a word.
fn flags_of(word: u64) -> PteBits
    ensures { result.0 ≡ word % 256 }
{
    PteBits::from_bits_retain((word & 0xff) as u8)
}

/// What a word says.
pub fn read_pte(word: u64) -> PteEntry
    ensures { result ≡ entry_of word }
{
    let bits = flags_of(word);
    if !bits.contains(PteBits::V) {
        PteEntry::Absent
    } else if word >> 42 != 0 {
        PteEntry::Reserved
    } else if is_reserved(bits) {
        PteEntry::Reserved
    } else if is_pointer(bits) {
        PteEntry::Table((word >> 10) as u32)
    } else {
        PteEntry::Leaf((word >> 10) as u32, bits)
    }
}

/// Whether the entry points to a table.
fn is_pointer(bits: PteBits) -> bool
    ensures { result ≡ is_pointer bits.0 }
{
    !bits.contains(PteBits::R) && !bits.contains(PteBits::W) && !bits.contains(PteBits::X)
}

/// Whether no valid entry has these flags.
fn is_reserved(bits: PteBits) -> bool
    ensures { result ≡ is_reserved bits.0 }
{
    let marked = if is_pointer(bits) {
        bits.contains(PteBits::U) || bits.contains(PteBits::A) || bits.contains(PteBits::D)
    } else {
        !bits.contains(PteBits::A) || !bits.contains(PteBits::D)
    };
    marked || bits.contains(PteBits::G) || bits.contains(PteBits::W) && !bits.contains(PteBits::R)
}

/// Whether these flags let the guest make this access.
pub fn allows(bits: PteBits, access: Access) -> bool
    ensures { result ≡ is_allowed bits.0 access }
{
    let needed = match access {
        Access::Fetch => PteBits::X,
        Access::Load => PteBits::R,
        Access::Store => PteBits::W,
    };
    bits.contains(PteBits::U) && bits.contains(needed)
}
