//! Pages and their numbers in the range of the tables. `top` is the level of the topmost table, one
//! less than the number of levels.
#![tactic(auto, using(crate::proofs::Pieces::piece_facts))]

ghost use Rattle.std.specs.Prelude.{◌≡◌, ◌<◌, ◌*◌, ◌^◌, suc, if◌then◌else◌, Option};
ghost use Rattle.osc_sv39.specs.Walk.{is_canonical, number_of, piece};
ghost use Rattle.std.specs.Prelude.{◌+◌, ◌≤◌};
ghost use Rattle.osc_paging.specs.KeptTables.{canonical_page, pieces_over};
ghost use Rattle.osc_tables.specs.Places.{half, least_from};
ghost use Rattle.osc_tables.specs.Inside.{IsTop};

/// How many pages are in the lower half of the range.
fn half(top: u8) -> u64
    requires { IsTop top }
    ensures half { result ≡ half top }
    ensures whole { result * 2 ≡ 512 ^ suc top }
    ensures range { result ≤ 2 ^ 35 }
{
    if top == 2 { 1 << 26 } else { 1 << 35 }
}

/// Whether the addresses of a page are canonical.
pub fn is_canonical(page: u64, top: u8) -> bool
    requires { IsTop top }
    ensures { result ≡ is_canonical (suc top) page }
{
    if top == 2 {
        let high = page >> 26;
        high == 0 || high == 0x3ff_ffff
    } else {
        let high = page >> 35;
        high == 0 || high == 0x1_ffff
    }
}

/// The number of a page in the range of the tables.
pub fn number_of(page: u64, top: u8) -> u64
    requires { IsTop top }
    ensures { result ≡ number_of (suc top) page }
{
    if top == 2 {
        page & 0x7ff_ffff
    } else {
        page & 0xf_ffff_ffff
    }
}

/// The number of a leaf table in the range of the tables.
pub fn leaf_number(leaf: u64, top: u8) -> u64
    requires { IsTop top }
    ensures { result ≡ number_of top leaf }
{
    if top == 2 {
        leaf & 0x3_ffff
    } else {
        leaf & 0x7ff_ffff
    }
}

/// The number of a page in the range of the tables; None exactly where its addresses are not
/// canonical.
pub fn number_in_range(page: u64, top: u8) -> Option<u64>
    requires { IsTop top }
    ensures { result ≡ (if is_canonical (suc top) page then Some (number_of (suc top) page) else None) }
{
    if is_canonical(page, top) {
        Some(number_of(page, top))
    } else {
        None
    }
}

/// The canonical page of a number.
pub fn page_of(number: u64, top: u8) -> u64
    requires top { IsTop top }
    requires range { number < 512 ^ suc top }
    ensures { result ≡ canonical_page (suc top) number }
{
    let half = half(top);
    if number < half {
        number
    } else {
        (1 << 52) - half * 2 + number
    }
}

/// The piece of a level that holds the page of a number.
pub fn piece_over(level: u8, number: u64) -> u64
    ensures piece { result ≡ piece level number }
    ensures few { result ≤ number }
{
    let mut piece = number;
    let mut done = 0;
    while done < level {
        piece /= 512;
        done += 1;
    }
    piece
}

/// The least number of a page at or above another; None where there is no canonical page.
pub fn least_from(page: u64, top: u8) -> Option<u64>
    requires { IsTop top }
    ensures { result ≡ least_from top page }
{
    let half = half(top);
    if page < half {
        Some(page)
    } else if page <= (1 << 52) - half {
        Some(half)
    } else if page < 1 << 52 {
        Some(number_of(page, top))
    } else {
        None
    }
}

/// Over how many pieces of a level so many pages lie.
pub fn pieces_over(level: u8, first: u64, count: u64) -> u64
    requires { first + count < 2 ^ 64 }
    ensures pieces { result ≡ pieces_over level first count }
    ensures few { result ≤ first + count }
{
    if count == 0 {
        return 0;
    }
    piece_over(level, first + (count - 1)) - piece_over(level, first) + 1
}
