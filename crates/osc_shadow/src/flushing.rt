//! The flush: objects that waited are let go.

ghost use Rattle.std.specs.Prelude.{◌≡◌, ◌+◌, ◌<◌, ◌≤◌, ◌++◌, Bool, List, All, length};
ghost use Rattle.osc_word.specs.JobList.{spare};
ghost use Rattle.osc_tables.specs.Calls.{changed};
ghost use Rattle.osc_tables.specs.Inside.{IsTop, InOrder};
ghost use Rattle.osc_mark.specs.Grants.{AreMarked};
ghost use Rattle.osc_space.specs.Objects.{facts};
ghost use Rattle.osc_space.specs.Free.{clear_jobs};
ghost use Rattle.osc_shadow.specs.Flushing.{ShowsLive, flushed, leaves_over};

use crate::leaves::give_leaves_up;
use osc_mark::Marks;
use osc_tables::Tables;
use osc_word::{Job, Jobs, ObjectNo};

/// The box of each hart is to be cleared, ascending.
fn clear_boxes(harts: u32, jobs: &mut Jobs)
    requires spare { harts ≤ spare jobs.old }
    ensures pushed { jobs.new.pushed ≡ jobs.old.pushed ++ clear_jobs harts }
    ensures few { length jobs.new.pushed ≤ length jobs.old.pushed + harts }
    ensures room { jobs.new.room ≡ jobs.old.room }
{
    for hart in 0..harts {
        jobs.push(Job::ClearBox { hart });
    }
}

/// Lets objects go: the dead leaf tables over them are given up, ascending, and then the box of each
/// hart is to be cleared.
pub fn flush(tables: &mut Tables, marks: &Marks, gone: &[ObjectNo], harts: u32, jobs: &mut Jobs)
    requires top { IsTop tables.old.top }
    requires order { InOrder tables.old.tables }
    requires marked { AreMarked marks.now }
    requires shadows { ShowsLive tables.old marks.now.objects }
    requires known { All (λ object. object < length marks.now.objects) gone.now }
    requires spare { length tables.old.tables + harts < spare jobs.old }
    ensures next { (free : List Bool) → changed tables.new free jobs.new.pushed
        ≡ flushed harts (leaves_over tables.old marks.now.objects (facts marks.now.objects gone.now)) (changed tables.old free jobs.old.pushed) }
    ensures few { length jobs.new.pushed ≤ length jobs.old.pushed + length tables.old.tables + harts }
    ensures room { jobs.new.room ≡ jobs.old.room }
{
    give_leaves_up(tables, marks, gone, jobs);
    clear_boxes(harts, jobs);
}
