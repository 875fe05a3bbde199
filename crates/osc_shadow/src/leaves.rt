//! Leaf tables over the shadow pages of objects that are let go. The leaf table with number n stands
//! over the pages from 512 n on.

ghost use Rattle.std.specs.Prelude.{◌≡◌, ◌+◌, ◌<◌, ◌≤◌, ◌^◌, ◌&&◌, Bool, List, All, MatchOption, is_some, length, if◌then◌else◌};
ghost use Rattle.osc_word.specs.JobList.{spare};
ghost use Rattle.osc_paging.specs.KeptTables.{frame_of};
ghost use Rattle.osc_paging.specs.TableChanges.{reclaim};
ghost use Rattle.osc_tables.specs.Calls.{changed};
ghost use Rattle.osc_tables.specs.Inside.{IsTop, InOrder};
ghost use Rattle.osc_mark.specs.Grants.{AreMarked};
ghost use Rattle.osc_space.specs.Objects.{facts, is_in_leaf, leaf_dead};
ghost use Rattle.osc_space.specs.Free.{reclaim_all};
ghost use Rattle.osc_shadow.specs.Flushing.{IsLeast, NonePasses, ShowsLive, is_over, leaves_over, lesser};

use osc_mark::Marks;
use osc_space::ObjectFact;
use osc_tables::Tables;
use osc_word::{Jobs, ObjectNo};

/// The pages under a leaf table.
const PAGES: u64 = 512;

/// The first leaf table from one on that an object has a page under.
fn leaf_of(fact: ObjectFact, from: u64) -> Option<u64>
    requires some { 0 < fact.pages }
    requires low { fact.first < 2 ^ 32 }
    ensures { MatchOption result (NonePasses (λ leaf. is_in_leaf leaf fact) from) (IsLeast (λ leaf. is_in_leaf leaf fact) from) }
{
    let last = (fact.first + u64::from(fact.pages) - 1) / PAGES;
    let leaf = from.max(fact.first / PAGES);
    if leaf <= last { Some(leaf) } else { None }
}

/// The lesser of two numbers that there may be.
fn lesser(a: Option<u64>, b: Option<u64>) -> Option<u64>
    ensures { result ≡ lesser a b }
{
    match (a, b) {
        (Some(x), Some(y)) => Some(x.min(y)),
        (Some(x), None) => Some(x),
        (None, y) => y,
    }
}

/// The least leaf table from one on that one of these objects has a page under.
pub fn next_leaf(marks: &Marks, gone: &[ObjectNo], from: u64) -> Option<u64>
    requires known { All (λ object. object < length marks.now.objects) gone.now }
    ensures { MatchOption result
        (NonePasses (is_over (facts marks.now.objects gone.now)) from)
        (IsLeast (is_over (facts marks.now.objects gone.now)) from) }
{
    let mut next = None;
    for object in gone {
        let fact = marks.fact(*object);
        next = lesser(next, leaf_of(fact, from));
    }
    next
}

/// Whether a leaf table is linked: then its pages need no table more than those under its neighbour
/// in the table above.
pub fn is_linked(tables: &Tables, leaf: u64) -> bool
    requires top { IsTop tables.now.top }
    requires low { leaf < 2 ^ 17 }
    ensures { result ≡ is_some (frame_of tables.now.tables 0 leaf) }
{
    let even = leaf - leaf % 2;
    let neighbour = even + 1 - leaf % 2;
    tables.need(even * PAGES, 2 * PAGES) == tables.need(neighbour * PAGES, PAGES)
}

/// Gives a leaf table up, where it is dead and linked.
fn give_up(tables: &mut Tables, marks: &Marks, leaf: u64, jobs: &mut Jobs)
    requires top { IsTop tables.old.top }
    requires shadows { ShowsLive tables.old marks.now.objects }
    requires spare { 1 ≤ spare jobs.old }
    ensures next { (free : List Bool) → changed tables.new free jobs.new.pushed
        ≡ (if leaf_dead marks.now.objects leaf && is_some (frame_of tables.old.tables 0 leaf)
        then reclaim leaf (changed tables.old free jobs.old.pushed)
        else changed tables.old free jobs.old.pushed) }
    ensures room { jobs.new.room ≡ jobs.old.room }
{
    if marks.leaf_dead(leaf) && is_linked(tables, leaf) {
        tables.reclaim(leaf, jobs);
    }
}

/// Gives up the dead leaf tables over these objects, ascending. Their frames stand aside.
pub fn give_leaves_up(tables: &mut Tables, marks: &Marks, gone: &[ObjectNo], jobs: &mut Jobs)
    requires top { IsTop tables.old.top }
    requires order { InOrder tables.old.tables }
    requires marked { AreMarked marks.now }
    requires shadows { ShowsLive tables.old marks.now.objects }
    requires known { All (λ object. object < length marks.now.objects) gone.now }
    requires spare { length tables.old.tables < spare jobs.old }
    ensures next { (free : List Bool) → changed tables.new free jobs.new.pushed
        ≡ reclaim_all (leaves_over tables.old marks.now.objects (facts marks.now.objects gone.now)) (changed tables.old free jobs.old.pushed) }
    ensures few { length jobs.new.pushed ≤ length jobs.old.pushed + length tables.old.tables }
    ensures room { jobs.new.room ≡ jobs.old.room }
{
    let mut from = 0;
    while let Some(leaf) = next_leaf(marks, gone, from) {
        give_up(tables, marks, leaf, jobs);
        from = leaf + 1;
    }
}
