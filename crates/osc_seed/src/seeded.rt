//! The seeded run.

ghost use Rattle.std.specs.Prelude.{◌≡◌, ◌<◌, length};
ghost use Rattle.osc_machine.specs.Run.{run};
ghost use Rattle.osc_machine.specs.Views.{machine_over};
ghost use Rattle.osc_core.specs.Shared.{state_of};
ghost use Rattle.osc_core.specs.Sound.{Sound};
ghost use Rattle.osc_seed.specs.Seeded.{picks_made, end_after, SafeFromStart, ToldFromStart, RefusedFromStart};

use crate::SeededEnd;
use crate::picks::{next_seed, picked};
use osc_core::{Hart, Machine};

/// Steps the machine by the picks of a seed until it is over, and at most by so many. Each pick goes on
/// from the seed of the one before. A machine that is over at the start makes no step. On the heap with
/// shadows the run that it makes is safe: no access to a freed object's pages is done.
pub fn run_seeded(machine: &mut Machine, harts: &mut [Hart], seed: u64, picks: u64) -> SeededEnd
    requires some { 0 < length harts.old }
    requires sound { Sound (state_of machine.old harts.old) }
    ensures state { state_of machine.new harts.new ≡ (run (state_of machine.old harts.old) (picks_made (state_of machine.old harts.old) seed picks)).state }
    ensures end { result ≡ end_after (machine_over (state_of machine.new harts.new)) (length (picks_made (state_of machine.old harts.old) seed picks)) }
    ensures sound { Sound (state_of machine.new harts.new) }
    ensures safe { SafeFromStart (state_of machine.old harts.old) (picks_made (state_of machine.old harts.old) seed picks) }
    ensures journal { ToldFromStart (state_of machine.old harts.old) (picks_made (state_of machine.old harts.old) seed picks) }
    ensures refusals { RefusedFromStart (state_of machine.old harts.old) (picks_made (state_of machine.old harts.old) seed picks) }
{
    let mut seed = seed;
    for made in 0..picks {
        if machine.over(harts) {
            return SeededEnd::Over { picks: made };
        }
        seed = next_seed(seed);
        machine.step(harts, picked(harts.len(), seed));
    }
    if machine.over(harts) {
        SeededEnd::Over { picks }
    } else {
        SeededEnd::Spent
    }
}
