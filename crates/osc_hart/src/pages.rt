//! Pages by the tables that reach them, for every number of levels. A page is an address divided by
//! 4096, so it is below 2^52.
ghost use Rattle.std.specs.Prelude.{◌≡◌, ◌<◌, ◌^◌, ◌%◌};
ghost use Rattle.osc_sv39.specs.Walk as walk;

/// From so many levels on the tables reach every page.
const ALL_LEVELS: u8 = 6;

/// Whether tables of so many levels reach a page: all bits of its addresses from the top one of the
/// page numbers on are equal.
pub fn is_canonical(levels: u8, page: u64) -> bool
    requires { page < 2 ^ 52 }
    ensures { result ≡ walk.is_canonical levels page }
{
    if levels >= ALL_LEVELS {
        return true;
    }
    let bits = 9 * u32::from(levels);
    let high = page >> bits.saturating_sub(1);
    high == 0 || high == (1 << (53 - bits)) - 1
}

/// The number of a page in the range of tables of so many levels.
fn number_of(levels: u8, page: u64) -> u64
    requires { page < 2 ^ 52 }
    ensures { result ≡ walk.number_of levels page }
{
    if levels >= ALL_LEVELS {
        return page;
    }
    page % (1 << (9 * u32::from(levels)))
}

/// The piece of a level that holds the page of a number.
fn piece(level: u8, number: u64) -> u64
    ensures { result ≡ walk.piece level number }
{
    if level > 7 {
        return 0;
    }
    number >> (9 * u32::from(level))
}

/// The place of the entry for a page in a table of a level.
pub fn entry_index(levels: u8, level: u8, page: u64) -> u16
    requires { page < 2 ^ 52 }
    ensures { result ≡ walk.piece level (walk.number_of levels page) % 512 }
{
    (piece(level, number_of(levels, page)) % 512) as u16
}
