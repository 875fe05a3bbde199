//! The judged run.

ghost use Rattle.std.specs.Prelude.{◌≡◌, ◌<◌, None, IfOk, OnOk, OnErr, length};
ghost use Rattle.std.specs.Option.{option_to_list};
ghost use Rattle.osc_machine.specs.Run.{run};
ghost use Rattle.osc_machine.specs.Step.{step};
ghost use Rattle.osc_machine.specs.Views.{machine_over};
ghost use Rattle.osc_core.specs.Shared.{state_of};
ghost use Rattle.osc_core.specs.Sound.{Sound};
ghost use Rattle.osc_judge.specs.Judging.{first_error};
ghost use Rattle.osc_seed.specs.Seeded.{picks_made};
ghost use Rattle.osc_seed.specs.Seeded as seeded;
ghost use Rattle.osc_judged.specs.Judged.{judged_over, Stops};

use crate::JudgedEnd;
use osc_core::{Hart, Machine};
use osc_judge::World;
use osc_seed::SeededEnd;
use osc_seed::picks::{next_seed, picked};
use std::alloc::{AllocError, Global};

/// A step of a hart; the event that commits with it, if one does, is given to the world. An `Err` is want of
/// memory of the world, and the step is done all the same.
fn judged_step(
    alloc: Global,
    machine: &mut Machine,
    harts: &mut [Hart],
    world: &mut World,
    hart: usize,
) -> Result<(), AllocError>
    requires hart { hart < length harts.old }
    requires sound { Sound (state_of machine.old harts.old) }
    ensures state { state_of machine.new harts.new ≡ (step (state_of machine.old harts.old) hart).state }
    ensures world { OnOk result (world.new ≡ judged_over (option_to_list (step (state_of machine.old harts.old) hart).event) world.old) }
    ensures lost { OnErr result (world.new ≡ None) }
    ensures sound { Sound (state_of machine.new harts.new) }
{
    match machine.step(harts, hart).commit {
        Some(event) => {
            world.step(alloc, event)?;
            Ok(())
        }
        None => Ok(()),
    }
}

/// An end of the machine, and the first error of the world.
fn told_of(world: &World, end: SeededEnd) -> JudgedEnd
    ensures end { result.end ≡ end }
    ensures error { result.error ≡ first_error world.now }
{
    JudgedEnd {
        end,
        error: world.error(),
    }
}

/// How a run ends after so many picks, by whether the machine is over then.
fn end_after(over: bool, made: u64) -> SeededEnd
    ensures { result ≡ seeded.end_after over made }
{
    if over {
        SeededEnd::Over { picks: made }
    } else {
        SeededEnd::Spent
    }
}

/// Steps the machine as `run_seeded` does, and gives each event to the world when it commits. It answers how
/// the machine ended, and the first error of the world. An `Err` is want of memory of the world, which may
/// come at any event: the steps done so far stay done, and from then on the world answers want of memory.
pub fn run_judged(
    alloc: Global,
    machine: &mut Machine,
    harts: &mut [Hart],
    world: &mut World,
    seed: u64,
    picks: u64,
) -> Result<JudgedEnd, AllocError>
    requires some { 0 < length harts.old }
    requires sound { Sound (state_of machine.old harts.old) }
    ensures state { OnOk result (state_of machine.new harts.new ≡ (run (state_of machine.old harts.old) (picks_made (state_of machine.old harts.old) seed picks)).state) }
    ensures end { IfOk result (λ judged. judged.end ≡ seeded.end_after (machine_over (state_of machine.new harts.new)) (length (picks_made (state_of machine.old harts.old) seed picks))) }
    ensures world { OnOk result (world.new ≡ judged_over (run (state_of machine.old harts.old) (picks_made (state_of machine.old harts.old) seed picks)).commits world.old) }
    ensures error { IfOk result (λ judged. judged.error ≡ first_error world.new) }
    ensures wanting { OnErr result (Stops (state_of machine.old harts.old) (picks_made (state_of machine.old harts.old) seed picks) (state_of machine.new harts.new) world.new) }
    ensures sound { Sound (state_of machine.new harts.new) }
{
    let mut seed = seed;
    for made in 0..picks {
        if machine.over(harts) {
            return Ok(told_of(world, SeededEnd::Over { picks: made }));
        }
        seed = next_seed(seed);
        judged_step(alloc, machine, harts, world, picked(harts.len(), seed))?;
    }
    Ok(told_of(world, end_after(machine.over(harts), picks)))
}
