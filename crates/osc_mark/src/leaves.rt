//! For each leaf table of the shadow range the number of its pages that have a live owner.
#![tactic(auto, using(std::proofs::lemmas::Bool::Decides::nat_tests))]

ghost use Rattle.std.specs.Prelude.{ℕ, ◌≡◌, ◌+◌, ◌*◌, ◌<◌, ◌≤◌, length, slice_index_or};
ghost use Rattle.osc_mark.specs.Leaves.{first_leaf, pages_under, AreRaised, AreLowered};

/// The pages under a leaf table.
const PAGES: u64 = 512;

/// The leaf table over the first shadow page, at 0x10_0000_0000.
pub const FIRST_LEAF: u64 = 0x8000;

/// How many of so many pages from one on stand under a leaf table.
fn pages_under(leaf: u64, first: u64, pages: u32) -> u32
    requires leaf { leaf < 131072 }
    requires first { first < 67108864 }
    ensures under { result ≡ pages_under leaf first pages }
    ensures most { result ≤ 512 }
{
    let from = first.max(PAGES * leaf);
    let to = (first + u64::from(pages)).min(PAGES * leaf + PAGES);
    if from < to { (to - from) as u32 } else { 0 }
}

/// Adds pages to the leaf tables that they stand under.
pub fn add_pages(counts: &mut [u32], first: u64, pages: u32)
    requires count { length counts.old ≤ 32769 }
    requires low { 512 * first_leaf ≤ first }
    requires high { first + pages ≤ 512 * first_leaf + 512 * length counts.old }
    requires small { (i : ℕ) → i < length counts.old → slice_index_or counts.old i 0 ≤ 16777216 }
    ensures { AreRaised (first_leaf + length counts.old) first pages counts.old counts.new }
{
    let end = first + u64::from(pages);
    for leaf in first / PAGES..end.div_ceil(PAGES) {
        counts[(leaf - FIRST_LEAF) as usize] += pages_under(leaf, first, pages);
    }
}

/// Takes pages from the leaf tables that they stand under.
pub fn drop_pages(counts: &mut [u32], first: u64, pages: u32)
    requires count { length counts.old ≤ 32769 }
    requires low { 512 * first_leaf ≤ first }
    requires high { first + pages ≤ 512 * first_leaf + 512 * length counts.old }
    requires held { (i : ℕ) → i < length counts.old → pages_under (first_leaf + i) first pages ≤ slice_index_or counts.old i 0 }
    ensures { AreLowered (first_leaf + length counts.old) first pages counts.old counts.new }
{
    let end = first + u64::from(pages);
    for leaf in first / PAGES..end.div_ceil(PAGES) {
        counts[(leaf - FIRST_LEAF) as usize] -= pages_under(leaf, first, pages);
    }
}
