//! Machines that begin, that don't, and that run step by step.

ghost use Rattle.std.specs.Prelude.{◌≤◌, IfOk, length};
ghost use Rattle.osc_core.specs.Parts.{AreVersions};
ghost use Rattle.osc_core.specs.Shared.{state_of};
ghost use Rattle.osc_core.specs.Sound.{Sound};

use crate::laws::{starts_home, starts_sound};
use crate::{BootFault, Booted, Counts, Ending, Hart, Machine, Parts};
use osc_elf::read_image;
use osc_word::{Config, ConfigFault, HeapKind};
use std::alloc::{AllocError, Global};
use std::test::Fail;

/// One hart, and else what a run has that is told nothing.
const CONFIG: Config = Config {
    heap: HeapKind::Oscar,
    harts: 1,
    processes: 16,
    frames: 1024,
    shadows: 65536,
    journal: 65536,
    levels: 3,
    batch: 1,
};

/// Ends with 7: `addi a0, x0, 7`, call 1.
static SEVEN: [u32; 3] = [0x0070_0513, 0x0010_0893, 0x0000_0073];

/// Malloc(24), a store of 9 and a load at what it gave, free, and exit with what that answered.
static MALLOC_AND_FREE: [u32; 10] = [
    0x0180_0513, // addi a0, x0, 24
    0x0030_0893, // call 3
    0x0000_0073,
    0x0090_0293, // addi t0, x0, 9
    0x0055_3023, // sd t0, 0(a0)
    0x0005_3303, // ld t1, 0(a0)
    0x0040_0893, // call 4
    0x0000_0073,
    0x0010_0893, // call 1
    0x0000_0073,
];

/// Adds 8 bytes of a number.
fn push_long(file: &mut Vec<u8>, number: u64) -> Result<(), AllocError> {
    file.extend_from_slice(&number.to_le_bytes())
}

/// An image with this code at 0x10000, in pages of so many bytes that can be read and executed.
fn image_file(alloc: Global, code: &[u32], size: u64) -> Result<Vec<u8>, AllocError> {
    let mut file = Vec::from_slice(alloc, &[0x7f, b'E', b'L', b'F', 2, 1, 1])?;
    file.resize(16, 0)?;
    file.extend_from_slice(&[2, 0, 243, 0, 1, 0, 0, 0])?;
    push_long(&mut file, 0x10000)?;
    push_long(&mut file, 64)?;
    push_long(&mut file, 0)?;
    file.extend_from_slice(&[0, 0, 0, 0, 64, 0, 56, 0, 1, 0, 0, 0, 0, 0, 0, 0])?;
    file.extend_from_slice(&[1, 0, 0, 0, 5, 0, 0, 0])?;
    push_long(&mut file, 4096)?;
    push_long(&mut file, 0x10000)?;
    push_long(&mut file, 0)?;
    push_long(&mut file, code.len() as u64 * 4)?;
    push_long(&mut file, size)?;
    push_long(&mut file, 4096)?;
    file.resize(4096, 0)?;
    for word in code {
        file.extend_from_slice(&word.to_le_bytes())?;
    }
    Ok(file)
}

/// The machine of a file.
fn boot(alloc: Global, file: &[u8], config: &Config) -> Result<Booted, Fail>
    ensures { IfOk result (λ booted. Sound (state_of booted.machine booted.harts.items)) }
{
    starts_sound();
    let image = read_image(alloc, file)?;
    let booted = Machine::boot(alloc, &image, config)?;
    Ok(booted)
}

/// The parts of the machine of a file at its start.
fn start_parts(alloc: Global, file: &[u8], config: &Config) -> Result<Parts, Fail>
    ensures { IfOk result (λ parts. AreVersions parts.versions.items × (length parts.boxes.items ≤ parts.room)) }
{
    starts_home();
    let image = read_image(alloc, file)?;
    let booted = Machine::boot(alloc, &image, config)?;
    Ok(booted.machine.into_parts())
}

/// Why a file's machine doesn't begin; None where it does.
fn refusal(alloc: Global, file: &[u8], config: &Config) -> Result<Option<BootFault>, Fail> {
    let image = read_image(alloc, file)?;
    match Machine::boot(alloc, &image, config) {
        Ok(_) => Ok(None),
        Err(fault) => Ok(Some(fault)),
    }
}

/// So many steps of the first hart.
fn steps(machine: &mut Machine, harts: &mut [Hart], count: u32)
    requires { Sound (state_of machine.old harts.old) }
    ensures { Sound (state_of machine.new harts.new) }
{
    for _made in 0..count {
        if !harts.is_empty() {
            machine.step(harts, 0);
        }
    }
}

#[test]
fn configurations_refused(rt: HostRuntime) -> Result<(), Fail> {
    let rows = [
        (Config { harts: 0, ..CONFIG }, ConfigFault::Harts),
        (
            Config {
                processes: 65,
                ..CONFIG
            },
            ConfigFault::Processes,
        ),
        (
            Config {
                frames: 63,
                ..CONFIG
            },
            ConfigFault::Frames,
        ),
        (
            Config {
                shadows: 0,
                ..CONFIG
            },
            ConfigFault::Shadows,
        ),
        (
            Config {
                journal: 0,
                ..CONFIG
            },
            ConfigFault::Journal,
        ),
        (
            Config {
                levels: 5,
                ..CONFIG
            },
            ConfigFault::Levels,
        ),
        (
            Config {
                batch: 65,
                ..CONFIG
            },
            ConfigFault::Batch,
        ),
        (
            Config {
                frames: 4097,
                batch: 0,
                ..CONFIG
            },
            ConfigFault::Frames,
        ),
    ];
    let file = image_file(rt.alloc(), &SEVEN, 409_600)?;
    for (config, fault) in rows {
        assert_eq!(rt;
            refusal(rt.alloc(), &file, &config)?,
            Some(BootFault::Config(fault))
        );
    }
    Ok(())
}

/// 100 pages, 16 of the stack and 5 tables.
#[test]
fn image_larger_than_the_frames(rt: HostRuntime) -> Result<(), Fail> {
    let file = image_file(rt.alloc(), &SEVEN, 409_600)?;
    let rows = [
        (
            64,
            Some(BootFault::NoRoom {
                needed: 121,
                frames: 64,
            }),
        ),
        (
            120,
            Some(BootFault::NoRoom {
                needed: 121,
                frames: 120,
            }),
        ),
        (121, None),
    ];
    for (frames, fault) in rows {
        let config = Config { frames, ..CONFIG };
        assert_eq!(rt;
            refusal(rt.alloc(), &file, &config)?,
            fault,
            "{frames} frames"
        );
    }
    Ok(())
}

#[test]
fn runs_of_one_hart(rt: HostRuntime) -> Result<(), Fail> {
    let seven = Counts {
        retired: 3,
        calls: 1,
        hits: 2,
        walks: 1,
        clears: 1,
        marks: 0,
        peak: 22,
    };
    let malloc_and_free = Counts {
        retired: 10,
        calls: 3,
        hits: 9,
        walks: 3,
        clears: 2,
        marks: 1,
        peak: 25,
    };
    let rows: [(&[u32], u32, u8, Counts); 2] = [
        (&SEVEN, 15, 7, seven),
        (&MALLOC_AND_FREE, 1088, 0, malloc_and_free),
    ];
    for (code, before, status, counts) in rows {
        let file = image_file(rt.alloc(), code, code.len() as u64 * 4)?;
        let mut booted = boot(rt.alloc(), &file, &CONFIG)?;
        assert_eq!(rt; booted.harts.len(), 1);
        steps(&mut booted.machine, &mut booted.harts, before);
        assert!(rt;
            !booted.machine.over(&booted.harts),
            "over too soon: {status}"
        );
        assert_eq!(rt; booted.machine.ending(&booted.harts), None);
        steps(&mut booted.machine, &mut booted.harts, 1);
        assert!(rt; booted.machine.over(&booted.harts), "not over: {status}");
        assert_eq!(rt;
            booted.machine.ending(&booted.harts),
            Some(Ending::Exit(status))
        );
        assert_eq!(rt; booted.machine.counts(&booted.harts), counts);
    }
    Ok(())
}

/// A machine is taken apart, put together, and taken apart by its kernel.
#[test]
fn parts_of_a_start(rt: HostRuntime) -> Result<(), Fail> {
    let file = image_file(rt.alloc(), &SEVEN, 12)?;
    let config = Config { harts: 3, ..CONFIG };
    let parts = start_parts(rt.alloc(), &file, &config)?;
    assert_eq!(rt; parts.words.len(), 1024 * 512);
    assert_eq!(rt; parts.versions.len(), 1024);
    assert_eq!(rt; parts.boxes.len(), 3);
    assert_eq!(rt; parts.config, config);
    assert_eq!(rt; parts.kernel.processes(), 1);
    let machine = Machine::of_parts(parts);
    assert_eq!(rt; machine.ending(&[]), None);
    assert!(rt; machine.kernel().is_some());
    Ok(())
}
