//! Which pages the segments let be accessed. The work is linear in the segments and in the pages up to
//! the last one, however often these overlap.

ghost use Rattle.std.specs.Prelude.{◌≡◌, ℕ, ◌<◌, ◌≤◌, max, slice_index, IfOk, vec_len};
ghost use Rattle.osc_elf.specs.Segments.{end_page, last_end};
ghost use Rattle.osc_elf.specs.Reach.{reach_of, Reaches, Permitted};

use crate::segment::Segment;
use osc_sv39::Access;
use std::alloc::{AllocError, Global};

/// The number of the page after the last that a segment touches.
#[tactic(auto, using(crate::proofs::Reaching::reach_steps))]
pub fn last_end(segments: &[Segment]) -> u32
    ensures value { result ≡ last_end segments.now }
    ensures bound { result ≤ 1048576 }
{
    let mut last = 0;
    for segment in segments {
        last = segment.end_page().max(last);
    }
    last
}

/// Notes on its first page how far a segment reaches that permits the access.
fn note_reach(reaches: &mut Vec<u32>, segment: &Segment, access: Access)
    requires { end_page segment.now ≤ vec_len reaches.old }
    ensures len { vec_len reaches.new ≡ vec_len reaches.old }
    ensures each { (page : ℕ) → page < vec_len reaches.old → slice_index reaches.new.items page
        ≡ max (reach_of segment.now access page) (slice_index reaches.old.items page) }
{
    if segment.permits(access) {
        let first = segment.first_page();
        reaches[first] = segment.end_page().max(reaches[first]);
    }
}

/// For each page how far the segments reach that begin on it and permit the access: the number of the
/// page after the last one, 0 where there is no such segment.
#[tactic(auto, using(crate::proofs::Reaching::reach_steps))]
fn reaches(
    alloc: Global,
    segments: &[Segment],
    access: Access,
    limit: usize,
) -> Result<Vec<u32>, AllocError>
    requires { last_end segments.now ≤ limit }
    ensures len { IfOk result (λ reaches. vec_len reaches ≡ limit) }
    ensures each { IfOk result (λ reaches. Reaches reaches.items segments.now access limit) }
{
    let mut reaches = vec![in alloc; 0u32; limit]?;
    for segment in segments {
        note_reach(&mut reaches, segment, access);
    }
    Ok(reaches)
}

/// For each page up to the last whether it can be accessed so.
#[tactic(auto, using(crate::proofs::Reaching::sweep_steps))]
pub fn permitted(
    alloc: Global,
    segments: &[Segment],
    access: Access,
    limit: u32,
) -> Result<Vec<bool>, AllocError>
    requires { last_end segments.now ≤ limit }
    ensures len { IfOk result (λ table. vec_len table ≡ limit) }
    ensures each { IfOk result (λ table. Permitted table.items segments.now access) }
{
    let reaches = reaches(alloc, segments, access, limit as usize)?;
    let mut table = Vec::new(alloc);
    let mut end = 0;
    for page in 0..limit {
        end = reaches[page as usize].max(end);
        table.push(page < end)?;
    }
    Ok(table)
}
