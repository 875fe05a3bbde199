//! Lists of tables in the order of level and number.
#![tactic(auto, using(crate::proofs::TablePlaces::table_places))]

ghost use Rattle.std.specs.Prelude.{◌≡◌, ◌+◌, ◌<◌, ◌≤◌, length, MatchOption, All, map, []};
ghost use Rattle.std.specs.Vec.{vec_len, vec_capacity};
ghost use Rattle.osc_paging.specs.KeptTables.{frame_of, is_piece, piece_of};
ghost use Rattle.osc_paging.specs.TableChanges.{is_before, renamed_table, with_table, without_table};
ghost use Rattle.osc_paging.specs.declared.TableFrame.{TableFrame};
ghost use Rattle.osc_tables.specs.Inside.{InOrder};
ghost use Rattle.osc_tables.specs.Places.{table_place, TableStandsAt};

use osc_paging::{Piece, TableFrame};

/// Whether a piece comes before another.
fn is_before(piece: Piece, other: Piece) -> bool
    ensures { result ≡ is_before piece other }
{
    piece.level < other.level || piece.level == other.level && piece.number < other.number
}

/// Whether a piece has this level and number.
fn is_same(piece: Piece, other: Piece) -> bool
    ensures { result ≡ is_piece piece other.level other.number }
{
    piece.level == other.level && piece.number == other.number
}

/// How many tables come before a piece.
fn place_for(tables: &[TableFrame], piece: Piece) -> usize
    requires { InOrder tables.now }
    ensures place { result ≡ table_place piece tables.now }
    ensures within { result ≤ length tables.now }
{
    let mut low = 0;
    let mut high = tables.len();
    while low < high {
        let middle = low + (high - low) / 2;
        if is_before(tables[middle].piece, piece) {
            low = middle + 1;
        } else {
            high = middle;
        }
    }
    low
}

/// Where the table over a piece stands; None exactly where it is not there.
fn find_table(tables: &[TableFrame], piece: Piece) -> Option<usize>
    requires { InOrder tables.now }
    ensures { MatchOption result (frame_of tables.now piece.level piece.number ≡ None) (TableStandsAt piece tables.now) }
{
    let at = place_for(tables, piece);
    if at < tables.len() {
        let found = tables[at].piece;
        if is_same(found, piece) {
            return Some(at);
        }
    }
    None
}

/// The frame of the table of this level and number.
pub fn frame_of(tables: &[TableFrame], level: u8, number: u64) -> Option<u32>
    requires { InOrder tables.now }
    ensures { result ≡ frame_of tables.now level number }
{
    let at = find_table(tables, Piece { level, number })?;
    Some(tables[at].frame)
}

/// What the frame is a table of.
pub fn piece_of(tables: &[TableFrame], frame: u32) -> Option<Piece>
    ensures { result ≡ piece_of tables.now frame }
{
    for t in tables {
        if t.frame == frame {
            return Some(t.piece);
        }
    }
    None
}

/// Puts a table in its place.
pub fn put_table(tables: &mut Vec<TableFrame>, new: TableFrame)
    requires order { InOrder tables.old.items }
    requires room { vec_len tables.old < vec_capacity tables.old }
    ensures items { tables.new.items ≡ with_table new tables.old.items }
    ensures len { vec_len tables.new ≡ vec_len tables.old + 1 }
    ensures capacity { vec_capacity tables.old ≤ vec_capacity tables.new }
{
    let at = place_for(tables, new.piece);
    tables.insert(at, new).unwrap();
}

/// Takes a table away.
pub fn drop_table(tables: &mut Vec<TableFrame>, level: u8, number: u64)
    requires { InOrder tables.old.items }
    ensures items { tables.new.items ≡ without_table level number tables.old.items }
    ensures capacity { vec_capacity tables.old ≤ vec_capacity tables.new }
{
    if let Some(at) = find_table(tables, Piece { level, number }) {
        let _gone = tables.remove(at);
    }
}

/// Copies tables, with each frame under its new name.
#[tactic(auto, using(crate::proofs::Copies::copy_facts))]
pub fn copy_tables(tables: &[TableFrame], into: &mut Vec<TableFrame>, names: &[u32])
    requires frames { All (λ (t : TableFrame). t.frame < length names.now) tables.now }
    requires empty { into.old.items ≡ [] }
    requires room { length tables.now ≤ vec_capacity into.old }
    ensures items { into.new.items ≡ map (renamed_table names.now) tables.now }
    ensures capacity { vec_capacity into.old ≤ vec_capacity into.new }
{
    for t in tables {
        let frame = names[t.frame as usize];
        into.push(TableFrame {
            piece: t.piece,
            frame,
        })
        .unwrap();
    }
}
