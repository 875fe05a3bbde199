//! Which segment gives the bytes from an address on. The work is near the number of segments times its
//! logarithm, however they overlap.

ghost use Rattle.std.specs.Prelude.{◌≡◌, ℕ, ◌+◌, ◌<◌, ◌≤◌, length, vec_len, slice_index, slice_index_or, IfOk, None};
ghost use Rattle.std.specs.List.{All, Contains};
ghost use Rattle.std.specs.List.Sorted.{IsNonDecreasing};
ghost use Rattle.osc_elf.specs.Pieces.{HasBorders, IsOwner, AreOwners, IsIn};
ghost use Rattle.osc_elf.specs.Segments.{all_shown};
ghost use Rattle.osc_image.specs.Image.{laid_byte};
ghost use Rattle.osc_elf.specs.Painting.{painted, AreSkips};

use crate::segment::Segment;
use std::alloc::{AllocError, Global};

/// The addresses where segments begin and end, and 0.
fn unsorted_borders(alloc: Global, segments: &[Segment]) -> Result<Vec<u64>, AllocError>
    ensures zero { IfOk result (λ borders. Contains borders.items 0) }
    ensures both { IfOk result (λ borders. All (HasBorders borders.items) segments.now) }
{
    let mut borders = Vec::new(alloc);
    borders.push(0)?;
    for segment in segments {
        borders.push(segment.address)?;
        borders.push(segment.end())?;
    }
    Ok(borders)
}

/// The addresses where segments begin and end, and 0, ascending.
pub fn borders(alloc: Global, segments: &[Segment]) -> Result<Vec<u64>, AllocError>
    ensures rising { IfOk result (λ borders. IsNonDecreasing borders.items) }
    ensures zero { IfOk result (λ borders. Contains borders.items 0) }
    ensures both { IfOk result (λ borders. All (HasBorders borders.items) segments.now) }
{
    let mut borders = unsorted_borders(alloc, segments)?;
    borders.sort_unstable();
    Ok(borders)
}

/// How many borders lie below an address.
fn count_below(borders: &[u64], address: u64) -> usize
    requires { IsNonDecreasing borders.now }
    ensures bound { result ≤ length borders.now }
    ensures below { (k : ℕ) → k < result → slice_index borders.now k < address }
    ensures from { (k : ℕ) → result ≤ k → k < length borders.now → address ≤ slice_index borders.now k }
{
    borders.partition_point(|border| *border < address)
}

/// The last border at or below an address.
pub fn piece_at(borders: &[u64], address: u64) -> usize
    requires rising { IsNonDecreasing borders.now }
    requires zero { Contains borders.now 0 }
    ensures { IsIn borders.now result address }
{
    borders.partition_point(|border| *border <= address) - 1
}

/// The last border at or below an address, from one at or below it on.
pub fn advance(borders: &[u64], from: usize, address: u64) -> usize
    requires inside { from < length borders.now }
    requires low { slice_index borders.now from ≤ address }
    ensures { IsIn borders.now result address }
{
    let mut piece = from;
    while piece + 1 < borders.len() && borders[piece + 1] <= address {
        piece += 1;
    }
    piece
}

/// The byte at an address that has this owner.
pub fn owned_byte(file: &[u8], segments: &[Segment], owner: Option<usize>, address: u64) -> u8
    requires { IsOwner segments.now segments.now address owner }
    ensures { result ≡ laid_byte (all_shown file.now segments.now) address }
{
    match owner {
        Some(index) => segments[index].byte(file, address),
        None => 0,
    }
}

/// Gives each border between two that has no owner this one.
fn paint(
    owners: &mut Vec<Option<usize>>,
    skips: &mut Vec<usize>,
    from: usize,
    to: usize,
    owner: usize,
)
    requires bound { to ≤ vec_len owners.old }
    requires skips { AreSkips owners.old.items skips.old.items }
    ensures len { vec_len owners.new ≡ vec_len owners.old }
    ensures skips { AreSkips owners.new.items skips.new.items }
    ensures each { (k : ℕ) → k < vec_len owners.old → slice_index_or owners.new.items k None
        ≡ painted from to owner (slice_index_or owners.old.items k None) k }
{
    let mut at = from;
    while at < to {
        let next = skips[at];
        owners[at] = owners[at].or(Some(owner));
        skips[at] = next.max(to);
        at = next;
    }
}

/// For each border the next one.
fn successors(alloc: Global, count: usize) -> Result<Vec<usize>, AllocError>
    ensures len { IfOk result (λ skips. vec_len skips ≡ count) }
    ensures each { IfOk result (λ skips. (k : ℕ) → k < count → slice_index skips.items k ≡ k + 1) }
{
    let mut skips = Vec::new(alloc);
    for border in 0..count {
        skips.push(border + 1)?;
    }
    Ok(skips)
}

/// For each border the index of the last segment that has its address.
pub fn owners(
    alloc: Global,
    segments: &[Segment],
    borders: &[u64],
) -> Result<Vec<Option<usize>>, AllocError>
    requires { IsNonDecreasing borders.now }
    ensures len { IfOk result (λ owners. vec_len owners ≡ length borders.now) }
    ensures owned { IfOk result (λ owners. AreOwners segments.now segments.now borders.now owners.items) }
{
    let mut owners = vec![in alloc; None; borders.len()]?;
    let mut skips = successors(alloc, borders.len())?;
    let mut index = segments.len();
    while index > 0 {
        index -= 1;
        let segment = &segments[index];
        let from = count_below(borders, segment.address);
        let to = count_below(borders, segment.end());
        paint(&mut owners, &mut skips, from, to, index);
    }
    Ok(owners)
}
