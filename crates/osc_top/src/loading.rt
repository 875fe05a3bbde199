//! Reads a source to its end.

ghost use Rattle.std.specs.Prelude.{◌≡◌, ◌≤◌, ◌<◌, IfOk, vec_len, length};
ghost use Rattle.osc_outside.specs.Faults.{Rose, HasCause};
ghost use Rattle.osc_top.specs.Loading.{IsQuietRead, Loads, ReadsFront};

use crate::outcome::Refusal;
use osc_outside::{Failed, Source};
use std::alloc::{AllocError, Global};

/// The bytes of one read.
const PIECE: usize = 65_536;

/// The most bytes that are read: one more than the longest file.
const LONGEST_READ: usize = 16_777_217;

/// A buffer of zeros.
fn buffer(alloc: Global, size: usize) -> Result<Vec<u8>, AllocError>
    ensures { IfOk result (λ bytes. vec_len bytes ≡ size) }
{
    vec![in alloc; 0; size]
}

/// Reads at most `most` bytes into the front of a buffer, and says how many; 0 is the end.
fn read_front<S: Source>(source: &mut S, piece: &mut [u8], most: usize) -> Result<usize, Failed>
    requires some { 0 < most }
    requires room { most ≤ length piece.old }
    ensures bound { IfOk result (λ count. count ≤ most) }
    ensures bytes { ReadsFront (S.left source.old) (S.left source.new) result piece.new }
    ensures cause { HasCause (S.faults source.old) (S.faults source.new) result }
{
    source.read(&mut piece[..most])
}

/// All that a source has left, or its first 16 MiB and one byte. `Source` comes only where the source
/// failed, and never `Image`. Whatever comes, only the front of what was left is taken.
pub fn load<S: Source>(alloc: Global, source: &mut S) -> Result<Vec<u8>, Refusal>
    ensures later { S.faults source.old ≤ S.faults source.new }
    ensures kept { IsQuietRead (S.faults source.old) (S.faults source.new) result }
    ensures loads { Loads (S.left source.old) (S.left source.new) (Rose (S.faults source.old) (S.faults source.new)) result }
{
    let mut piece = buffer(alloc, PIECE)?;
    let mut file = Vec::new(alloc);
    while file.len() < LONGEST_READ {
        let most = PIECE.min(LONGEST_READ - file.len());
        let count = read_front(source, &mut piece, most)?;
        if count == 0 {
            return Ok(file);
        }
        file.extend_from_slice(&piece[..count])?;
    }
    Ok(file)
}
