use crate::{Access, PteBits, PteEntry, allows, leaf, read_pte, split, table};
use bitflags::Flags;

fn bits(number: u8) -> PteBits {
    PteBits::from_bits_retain(number)
}

#[test]
fn addresses(rt: HostRuntime) {
    for (address, levels, numbers) in [
        (0x10_0000_0010, 3, Some([0, 64, 0, 0])),
        (0x40_0000_0000, 3, None),
        (0x3f_ffff_ffff, 3, Some([0, 255, 511, 511])),
        (0xffff_ffc0_0000_0000, 3, Some([0, 256, 0, 0])),
        (0xffff_ffbf_ffff_ffff, 3, None),
        (u64::MAX, 3, Some([0, 511, 511, 511])),
        (0x8000_0000_0000_0000, 3, None),
        (0x2_0040_3fff, 3, Some([0, 8, 2, 3])),
        (0x2_0040_3fff, 4, Some([0, 8, 2, 3])),
        (0x40_0000_0000, 4, Some([0, 256, 0, 0])),
        (0x7fff_ffff_ffff, 4, Some([255, 511, 511, 511])),
        (0x8000_0000_0000, 4, None),
        (0xffff_7fff_ffff_ffff, 4, None),
        (0xffff_8000_0000_0000, 4, Some([256, 0, 0, 0])),
        (u64::MAX, 4, Some([511, 511, 511, 511])),
    ] {
        assert!(rt; levels == 3 || levels == 4);
        assert_eq!(rt; split(address, levels), numbers);
    }
}

#[test]
fn written_words(rt: HostRuntime) {
    let flags = PteBits::V
        .union(PteBits::R)
        .union(PteBits::W)
        .union(PteBits::U)
        .union(PteBits::A)
        .union(PteBits::D);
    assert_eq!(rt; leaf(5, flags), 0x14d7);
    assert_eq!(rt; table(5), 0x1401);
    assert_eq!(rt; leaf(u32::MAX, bits(0xdb)), 0x3ff_ffff_fcdb);
}

#[test]
fn read_words(rt: HostRuntime) {
    for (word, entry) in [
        (0, PteEntry::Absent),
        (0xffff_ffff_ffff_fffe, PteEntry::Absent),
        (0x1401, PteEntry::Table(5)),
        (0x1701, PteEntry::Table(5)),
        (0x14d7, PteEntry::Leaf(5, bits(0xd7))),
        (0x17d7, PteEntry::Leaf(5, bits(0xd7))),
        (0x14db, PteEntry::Leaf(5, bits(0xdb))),
        (0x14d3, PteEntry::Leaf(5, bits(0xd3))),
        (0x14c9, PteEntry::Leaf(5, bits(0xc9))),
        (0x3ff_ffff_fcd7, PteEntry::Leaf(u32::MAX, bits(0xd7))),
        // Bits 63 to 54, and a frame's number of 33 bits.
        (0x8000_0000_0000_14d7, PteEntry::Reserved),
        (0x0040_0000_0000_1401, PteEntry::Reserved),
        (0x0000_0400_0000_00d7, PteEntry::Reserved),
        (0x0000_0400_0000_0001, PteEntry::Reserved),
        // G.
        (0x14f7, PteEntry::Reserved),
        (0x1421, PteEntry::Reserved),
        // W without R.
        (0x14d5, PteEntry::Reserved),
        (0x14dd, PteEntry::Reserved),
        // A pointer with U, A or D.
        (0x1411, PteEntry::Reserved),
        (0x1441, PteEntry::Reserved),
        (0x1481, PteEntry::Reserved),
        // A leaf without A or D.
        (0x1497, PteEntry::Reserved),
        (0x1457, PteEntry::Reserved),
    ] {
        assert_eq!(rt; read_pte(word), entry);
    }
}

#[test]
fn accesses(rt: HostRuntime) {
    for (flags, expected) in [
        (0xd7, [false, true, true]),
        (0xdb, [true, true, false]),
        (0xd3, [false, true, false]),
        (0xc7, [false, false, false]),
        (0xd9, [true, false, false]),
    ] {
        let allowed = [Access::Fetch, Access::Load, Access::Store].map(|access| allows(
            bits(flags),
            access,
        ));
        assert_eq!(rt; allowed, expected);
    }
}
