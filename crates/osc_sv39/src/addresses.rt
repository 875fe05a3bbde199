//! The parts of a virtual address.

ghost use Rattle.std.specs.Prelude.{◌≡◌, ◌<◌, ◌/◌, ◌%◌, ◌^◌};
ghost use Rattle.osc_sv39.specs.Walk.{IsLevels, is_canonical, page_numbers};

/// Whether the tables reach an address: for 3 levels bits 63 to 39 all equal bit 38, for 4 levels
/// bits 63 to 48 all equal bit 47.
fn is_canonical(va: u64, levels: u8) -> bool
    requires { IsLevels levels }
    ensures { result ≡ is_canonical levels (va / 4096) }
{
    if levels == 3 {
        let high = va >> 38;
        high == 0 || high == 0x3ff_ffff
    } else {
        let high = va >> 47;
        high == 0 || high == 0x1_ffff
    }
}

/// The number of nine bits that stands in an address from this bit on.
fn number_at(va: u64, bit: u32) -> u16
    requires { bit < 64 }
    ensures { result ≡ va / 2 ^ bit % 512 }
{
    (va >> bit & 0x1ff) as u16
}

/// The numbers VPN[3], VPN[2], VPN[1] and VPN[0] of an address, with VPN[3] 0 for 3 levels of
/// tables: None exactly where, for 3 levels, bits 63 to 39 do not all equal bit 38, and for 4
/// levels, bits 63 to 48 do not all equal bit 47.
#[tactic(auto, using(crate::proofs::Numbers::numbers))]
pub fn split(va: u64, levels: u8) -> Option<[u16; 4]>
    requires { IsLevels levels }
    ensures { result ≡ page_numbers levels va }
{
    if !is_canonical(va, levels) {
        return None;
    }
    let top = if levels == 3 { 0 } else { number_at(va, 39) };
    Some([top, number_at(va, 30), number_at(va, 21), number_at(va, 12)])
}
