//! How many tables are not there.
#![tactic(auto, using(crate::proofs::Pieces::need_facts))]

ghost use Rattle.std.specs.Prelude.{◌≡◌, ◌+◌, ◌<◌, ◌≤◌, ◌^◌};
ghost use Rattle.osc_paging.specs.KeptTables.{missing, need_below};
ghost use Rattle.osc_tables.specs.Inside.{InOrder};

use crate::numbers::{piece_over, pieces_over};
use crate::table_list::frame_of;
use osc_paging::TableFrame;

/// How many of the tables of a level are not there, over so many pieces.
fn missing(tables: &[TableFrame], level: u8, from: u64, count: u64) -> u64
    requires order { InOrder tables.now }
    requires range { from + count < 2 ^ 64 }
    ensures missing { result ≡ missing tables.now level from count }
    ensures few { result ≤ count }
{
    let mut total = 0;
    for i in 0..count {
        if frame_of(tables, level, from + i).is_none() {
            total += 1;
        }
    }
    total
}

/// The table frames that mapping so many pages newly takes, below a topmost table of this level.
pub fn need_below(tables: &[TableFrame], top: u8, first: u64, count: u64) -> u64
    requires order { InOrder tables.now }
    requires range { first + count ≤ 2 ^ 36 }
    ensures { result ≡ need_below tables.now top first count }
{
    let mut total = 0;
    let mut level = top;
    while level > 0 {
        let from = piece_over(level, first);
        let pieces = pieces_over(level, first, count);
        level -= 1;
        total += missing(tables, level, from, pieces);
    }
    total
}
