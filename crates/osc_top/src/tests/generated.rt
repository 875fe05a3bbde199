//! Guests that numbers give, run under both heaps.

ghost use Rattle.std.specs.Prelude.{IfOk};
ghost use Rattle.osc_core.specs.Shared.{state_of};
ghost use Rattle.osc_core.specs.Sound.{Sound};

use osc_core::laws::starts_sound;
use osc_core::{Booted, Ending, Machine};
use osc_elf::read_image;
use osc_gen::guest_of;
use osc_judge::World;
use osc_judged::run_judged;
use osc_seed::{SeededEnd, run_seeded};
use osc_word::{Answer, Call, Config, Entry, HeapKind};
use std::alloc::Global;
use std::process::Abort;
use std::test::Fail;

/// What a run has that is told nothing but its heap.
fn config_of(heap: HeapKind) -> Config {
    Config {
        heap,
        harts: 4,
        processes: 16,
        frames: 1024,
        shadows: 65536,
        journal: 65536,
        levels: 3,
        batch: 1,
    }
}

/// The machine with the guest of a number.
fn boot(alloc: Global, number: u64, heap: HeapKind) -> Result<Booted, Fail>
    ensures { IfOk result (λ booted. Sound (state_of booted.machine booted.harts.items)) }
{
    starts_sound();
    let file = guest_of(alloc, number)?;
    let image = read_image(alloc, &file)?;
    let booted = Machine::boot(alloc, &image, &config_of(heap))?;
    Ok(booted)
}

/// The world with the guest of a number.
fn boot_world(alloc: Global, number: u64) -> Result<World, Fail> {
    let file = guest_of(alloc, number)?;
    let image = read_image(alloc, &file)?;
    let world = World::boot(alloc, &image, &config_of(HeapKind::Oscar))?;
    Ok(world)
}

/// Whether a call asked for memory.
fn is_malloc(entry: &Entry) -> bool {
    matches!(entry.call, Call::Malloc(_))
}

/// Whether an entry gives memory.
fn gives(entry: &Entry) -> bool {
    matches!(entry.answer, Answer::Given { .. } | Answer::Placed { .. })
}

/// How many calls of a guest's run ask for memory and how many of them get it, and how it ends.
#[derive(Clone, Copy)]
struct Ran {
    asked: usize,
    given: usize,
    ending: Option<Ending>,
}

/// A run of the guest of a number to its end.
fn run(rt: &impl Abort, alloc: Global, number: u64, heap: HeapKind) -> Result<Ran, Fail> {
    let Booted {
        mut machine,
        mut harts,
    } = boot(alloc, number, heap)?;
    if harts.is_empty() {
        return Err("no hart".into());
    }
    let end = run_seeded(&mut machine, &mut harts, 1, 10_000_000);
    assert!(rt; end != SeededEnd::Spent, "{number}");
    let journal = machine.kernel_with(&harts).ok_or("no kernel")?.journal();
    Ok(Ran {
        asked: journal.iter().filter(|entry| is_malloc(entry)).count(),
        given: journal
            .iter()
            .filter(|entry| is_malloc(entry) && gives(entry))
            .count(),
        ending: machine.ending(&harts),
    })
}

#[test]
fn no_malloc_is_refused(rt: HostRuntime) -> Result<(), Fail> {
    for number in 1..21 {
        for heap in [HeapKind::Oscar, HeapKind::Plain] {
            let ran = run(&rt, rt.alloc(), number, heap)?;
            assert!(rt; ran.asked > 0, "{number}");
            assert_eq!(rt; ran.given, ran.asked, "{number}");
            assert_eq!(rt; ran.ending, Some(Ending::Exit(0)), "{number}");
        }
    }
    Ok(())
}

#[test]
fn each_event_has_a_meaning(rt: HostRuntime) -> Result<(), Fail> {
    for number in 1..21 {
        let Booted {
            mut machine,
            mut harts,
        } = boot(rt.alloc(), number, HeapKind::Oscar)?;
        if harts.is_empty() {
            return Err("no hart".into());
        }
        let mut world = boot_world(rt.alloc(), number)?;
        let ended = run_judged(
            rt.alloc(),
            &mut machine,
            &mut harts,
            &mut world,
            1,
            10_000_000,
        )?;
        assert_eq!(rt; ended.error, None, "{number}");
        assert_eq!(rt; world.status(), Some(0), "{number}");
    }
    Ok(())
}
