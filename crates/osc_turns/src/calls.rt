//! Where a call goes on.

ghost use Rattle.std.specs.Prelude.{◌≡◌, ◌<◌, ◌^◌, Some, length};
ghost use Rattle.osc_calls.specs.Kernel.{next_job};
ghost use Rattle.osc_machine.specs.Turns.{place_on, place_begun};
ghost use Rattle.osc_turns.specs.Places.{Commits, PlaceFits, BegunFits};
ghost use Rattle.osc_turns.specs.Seen.{place_seen};

use crate::boxes::first_held;
use crate::place::Place;
use osc_cache::HartBox;
use osc_calls::Begun;
use osc_kernel::Kernel;
use osc_moves::Progress;

/// At the jobs that are left, then at the boxes to be given, and then the kernel is given.
pub fn place_on(kernel: &Kernel, boxes: &[Option<HartBox>]) -> Place
    requires commits { Commits kernel.now.kernel }
    requires few { length boxes.now < 2 ^ 32 }
    ensures place { place_seen result (Some kernel.now) ≡ place_on kernel.now.kernel boxes.now }
    ensures fits { PlaceFits (length boxes.now) result (Some kernel.now) }
{
    if let Some(job) = kernel.next_job() {
        return Place::Working {
            progress: Progress::begin(job),
        };
    }
    match first_held(boxes) {
        Some(next) => Place::GivingBoxes { next },
        None => Place::Returning { full: false },
    }
}

/// Once the kernel has looked at the request.
pub fn place_begun(begun: Begun, kernel: &Kernel, boxes: &[Option<HartBox>]) -> Place
    requires begun { BegunFits begun kernel.now.kernel }
    requires some { 0 < length boxes.now }
    requires few { length boxes.now < 2 ^ 32 }
    ensures place { place_seen result (Some kernel.now) ≡ place_begun begun kernel.now.kernel boxes.now }
    ensures fits { PlaceFits (length boxes.now) result (Some kernel.now) }
{
    match begun {
        Begun::Again | Begun::Gone => Place::Returning { full: false },
        Begun::JournalFull => Place::Returning { full: true },
        Begun::Boxes => Place::TakingBoxes { next: 0 },
        Begun::Header(first, second) => Place::FirstWord { first, second },
        Begun::Planned => place_on(kernel, boxes),
    }
}
