//! The copies of the frames that were found.

ghost use Rattle.std.specs.Prelude.{◌≡◌, ◌≢◌, ◌<◌, ◌≤◌, ◌++◌, ℕ, [], Some, true, false, length, map, position, slice_index, slice_set, ◌∷◌};
ghost use Rattle.std.specs.List.{range_with_len};
ghost use Rattle.osc_word.specs.JobList.{spare, with_job};
ghost use Rattle.osc_frames.specs.Free.{free_count};
ghost use Rattle.osc_space.specs.Fork.{copy_job, name_in, set_free};
ghost use Rattle.osc_fork.specs.Names.{marked_copies, marked_frames, to_copy};

use crate::marking::TO_COPY;
use osc_frames::Frames;
use osc_tables::Tables;
use osc_word::{Frame, Job, Jobs, WordAt};

/// Copies a frame into the least free one, as a table or as words. Gives the new frame.
fn copy_frame(tables: &Tables, from: Frame, frames: &mut Frames, jobs: &mut Jobs) -> Frame
    requires aside { tables.now.aside ≡ [] }
    requires some { 0 < free_count frames.old }
    requires spare { 0 < spare jobs.old }
    ensures least { position (λ free. free) frames.old ≡ Some result }
    ensures taken { frames.new ≡ slice_set frames.old result false }
    ensures pushed { jobs.new ≡ with_job jobs.old (copy_job tables.now (from, result)) }
{
    let to = frames.take().unwrap();
    let job = if tables.table_at(from).is_some() {
        Job::CopyTable { from, to }
    } else {
        Job::CopyWords {
            from: WordAt {
                frame: from,
                index: 0,
            },
            to: WordAt {
                frame: to,
                index: 0,
            },
            count: 512,
        }
    };
    jobs.push(job);
    to
}

/// Copies the frames that are to be copied, ascending, each into the least free one, which it is then
/// named by.
pub fn copy_frames(tables: &Tables, names: &mut [Frame], frames: &mut Frames, jobs: &mut Jobs)
    requires aside { tables.now.aside ≡ [] }
    requires few { length names.old ≤ 4096 }
    requires others { (frame : ℕ) → frame < length names.old → slice_index names.old frame ≢ to_copy
        → slice_index names.old frame ≡ frame }
    requires enough { length (marked_frames names.old) ≤ free_count frames.old }
    requires spare { length names.old ≤ spare jobs.old }
    ensures names { names.new ≡ map (name_in (marked_copies names.old frames.old)) (range_with_len 0 (length names.old)) }
    ensures frames { frames.new ≡ set_free false (map (λ (c : ℕ × ℕ). c.1) (marked_copies names.old frames.old)) frames.old }
    ensures pushed { jobs.new.pushed ≡ jobs.old.pushed ++ map (copy_job tables.now) (marked_copies names.old frames.old) }
    ensures room { jobs.new.room ≡ jobs.old.room }
{
    for (from, name) in names.iter_mut().enumerate() {
        if *name == TO_COPY {
            *name = copy_frame(tables, from as Frame, frames, jobs);
        }
    }
}
