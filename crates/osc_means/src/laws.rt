//! The laws of the plain heap. Each function does nothing: what it says is proved of the definitions.

ghost use Rattle.osc_means.specs.PlainHeap.{EventsAreShown, RunsAreShown, PlainHeapAgrees};
ghost use Rattle.osc_means.specs.NotStuck.{StuckForPlace, RunGoesOn, RunIsPlaced, PlacedHeapAgrees};

/// The plain heap gives what the objects mean, for at most 4096 frames: as long as the object run meets no
/// error and the plain run is not stuck, each event keeps the plain state that shows the world, so that after
/// every list of events both have the same output, and process 0 has ended in the same way. An event that does
/// not fit is an error. What a forked child shows rests on `pointers_name_objects` of `osc_world`: each pointer
/// names a granted object of its process.
pub fn plain_heap_agrees()
    ensures events { EventsAreShown }
    ensures runs { RunsAreShown }
    ensures same { PlainHeapAgrees }
{}

/// The plain run is not stuck exactly where each call that is given memory has a place for it: a malloc, and a
/// realloc that has to move, a free slot of the heap, and a share addresses below the shadows for its pages. An
/// event is stuck exactly where it has none, whatever the state; so a run goes on where each event has its
/// place, and nowhere else. Where the object run meets no error too, for at most 4096 frames, both runs then
/// have the same output, and process 0 has ended in the same way.
pub fn plain_run_goes_on()
    ensures event { StuckForPlace }
    ensures runs { RunGoesOn }
    ensures only { RunIsPlaced }
    ensures same { PlacedHeapAgrees }
{}
