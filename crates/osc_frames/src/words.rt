//! Sets of numbers below 4096 as bits of words, and their least number.

ghost use Rattle.std.specs.Prelude.{◌≡◌, ◌↔◌, ◌+◌, ◌*◌, ◌<◌, ◌≤◌, Bool, List, Some, IfOk, IfSome, IsNone, length, replicate, slice_get, slice_index, slice_set, true, false, if◌then◌else◌, ◌==◌, nat_lt, ℕ};
ghost use Rattle.std.specs.Int.{bit_at};
ghost use Rattle.osc_frames.specs.Free.{free_count, least_free};
ghost use Rattle.osc_frames.specs.Words.{AreBelow, IsGroup, IsTop, digit};

use crate::steps::Steps;
use std::alloc::{AllocError, Global};
use std::marker::Model;
use std::sync::ledger::Ledger;

/// A set of numbers below 4096: 64 groups of 64 bits, and a top word that tells which groups have a number.
pub trait BitWords {
    /// The set, as a truth value for each number.
    ghost numbers: { Self → List Bool };

    /// The top word: bit i is 1 exactly where group i is not 0. One step.
    fn top<L: Ledger>(&self, steps: &mut Steps<L>) -> u64
        ensures below { length (numbers self.now) ≤ 4096 }
        ensures bits { IsTop (numbers self.now) result }
        ensures step { steps.new ≡ steps.old + 1 };

    /// Group i: bit j is 1 exactly where 64 i + j is in the set. One step.
    fn group<L: Ledger>(&self, i: u8, steps: &mut Steps<L>) -> u64
        requires { i < 64 }
        ensures bits { IsGroup (numbers self.now) i result }
        ensures step { steps.new ≡ steps.old + 1 };
}

/// The least number of a set; None exactly where it is empty. At most two steps.
pub fn least<B: BitWords, L: Ledger>(set: &B, steps: &mut Steps<L>) -> Option<u32>
    ensures least { result ≡ least_free (B.numbers set.now) }
    ensures none { IsNone result ↔ (free_count (B.numbers set.now) ≡ 0) }
    ensures bound { steps.new ≤ steps.old + 2 }
    ensures some { steps.old < steps.new }
    ensures found { IfSome result (λ _. steps.new ≡ steps.old + 2) }
{
    let top = set.top(steps);
    if top == 0 {
        return None;
    }
    let i = top.trailing_zeros();
    let group = set.group(i as u8, steps);
    Some(64 * i + group.trailing_zeros())
}

/// A set of numbers below a count, kept as bits.
#[derive(Drop)]
pub struct BitRow {
    count: u32,
    top: u64,
    groups: Vec<u64>,
}

impl Model for BitRow {
    ghost use Rattle.std.specs.Prelude.{List, Bool};
    ghost use Rattle.osc_frames.specs.Words.{IsRow, numbers_of};

    ghost Value = { List Bool };

    ghost view = { λ row. numbers_of row.groups.items row.count };

    ghost invariant = { λ row. IsRow row.count row.top row.groups.items };
}

impl BitRow {
    /// No number below the count, or all of them.
    pub fn new(alloc: Global, count: u32, full: bool) -> Result<BitRow, AllocError>
        requires { count ≤ 4096 }
        ensures { IfOk result (λ row. row ≡ replicate count full) }
    {
        let within = if full { count } else { 0 };
        Ok(BitRow {
            count,
            top: low_ones(within.div_ceil(64)),
            groups: groups_below(alloc, within)?,
        })
    }

    /// Puts a number below the count into the set.
    pub fn put(&mut self, i: u32)
        requires { i < length self.old }
        ensures { self.new ≡ slice_set self.old i true }
    {
        self.set(i, true);
    }

    /// Takes a number below the count out of the set.
    pub fn drop_out(&mut self, i: u32)
        requires { i < length self.old }
        ensures { self.new ≡ slice_set self.old i false }
    {
        self.set(i, false);
    }

    /// Whether a number below the count is in the set.
    pub fn contains(&self, i: u32) -> bool
        requires { i < length self.now }
        ensures { slice_get self.now i ≡ Some result }
    {
        (self.groups[(i / 64) as usize] >> (i % 64)) & 1 == 1
    }

    fn set(&mut self, i: u32, value: bool)
        requires { i < length self.old }
        ensures { self.new ≡ slice_set self.old i value }
    {
        let group = i / 64;
        let word = with_bit(self.groups[group as usize], i % 64, value);
        self.groups[group as usize] = word;
        self.top = with_bit(self.top, group, word != 0);
    }
}

impl BitWords for BitRow {
    ghost numbers = { λ row. row };

    fn top<L: Ledger>(&self, steps: &mut Steps<L>) -> u64 {
        steps.tick();
        self.top
    }

    fn group<L: Ledger>(&self, i: u8, steps: &mut Steps<L>) -> u64 {
        steps.tick();
        self.groups[i as usize]
    }
}

// The word with one bit as told.
fn with_bit(word: u64, i: u32, value: bool) -> u64
    requires { i < 64 }
    ensures { (j : ℕ) → j < 64 → bit_at result j ≡ (if j == i then digit value else bit_at word j) }
{
    let bit = 1 << i;
    if value { word | bit } else { word & !bit }
}

// The word whose bits below the count are 1, all of them from 64 on.
fn low_ones(count: u32) -> u64
    ensures { (j : ℕ) → j < 64 → bit_at result j ≡ digit (nat_lt j count) }
{
    if count == 0 {
        return 0;
    }
    u64::MAX >> (64 - count.min(64))
}

// The 64 groups of all numbers below the count.
fn groups_below(alloc: Global, count: u32) -> Result<Vec<u64>, AllocError>
    ensures { IfOk result (λ groups. AreBelow count groups.items) }
{
    let mut groups = vec![in alloc; 0; 64]?;
    for i in 0..64 {
        groups[i] = low_ones(count.saturating_sub(64 * i as u32));
    }
    Ok(groups)
}
