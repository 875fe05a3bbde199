//! Seeded runs, with the counts of their summaries.

ghost use Rattle.std.specs.Prelude.{IfOk};
ghost use Rattle.osc_core.specs.Shared.{state_of};
ghost use Rattle.osc_core.specs.Sound.{Sound};

use crate::{SeededEnd, run_seeded};
use osc_core::laws::starts_sound;
use osc_core::{Booted, Counts, Ending, HartAsk, Machine};
use osc_elf::read_image;
use osc_word::{Config, HeapKind};
use std::alloc::{AllocError, Global};
use std::test::Fail;

/// What a run has that is told nothing.
const CONFIG: Config = Config {
    heap: HeapKind::Oscar,
    harts: 4,
    processes: 16,
    frames: 1024,
    shadows: 65536,
    journal: 65536,
    levels: 3,
    batch: 1,
};

/// Writes the six bytes at 0x11000 and exits with 0.
static HELLO: [u32; 8] = [
    0x0001_1537, // lui a0, 0x11
    0x0005_0513, // addi a0, a0, 0
    0x0060_0593, // addi a1, x0, 6
    0x0020_0893, // call 2
    0x0000_0073,
    0x0000_0513, // addi a0, x0, 0
    0x0010_0893, // call 1
    0x0000_0073,
];

/// Ends with 7: `addi a0, x0, 7`, call 1.
static SEVEN: [u32; 3] = [0x0070_0513, 0x0010_0893, 0x0000_0073];

/// Malloc(24), a store of 9 and a load at what it gave, free, and exit with what that answered.
static MALLOC_AND_FREE: [u32; 10] = [
    0x0180_0513, // addi a0, x0, 24
    0x0030_0893, // call 3
    0x0000_0073,
    0x0090_0293, // addi t0, x0, 9
    0x0055_3023, // sd t0, 0(a0)
    0x0005_3303, // ld t1, 0(a0)
    0x0040_0893, // call 4
    0x0000_0073,
    0x0010_0893, // call 1
    0x0000_0073,
];

/// A thousand times malloc(24) and free, and exit with 0.
static PAIRS: [u32; 11] = [
    0x3e80_0413, // addi s0, x0, 1000
    0x0180_0513, // again: addi a0, x0, 24
    0x0030_0893, // call 3
    0x0000_0073,
    0x0040_0893, // call 4
    0x0000_0073,
    0xfff4_0413, // addi s0, s0, -1
    0xfe04_14e3, // bne s0, x0, again
    0x0000_0513, // addi a0, x0, 0
    0x0010_0893, // call 1
    0x0000_0073,
];

/// Malloc(24), free, and a load at offset 8 of what was given.
static STALE: [u32; 7] = [
    0x0180_0513, // addi a0, x0, 24
    0x0030_0893, // call 3
    0x0000_0073,
    0x0005_0413, // addi s0, a0, 0
    0x0040_0893, // call 4
    0x0000_0073,
    0x0084_3303, // ld t1, 8(s0)
];

/// Jumps to itself.
static LOOP: [u32; 1] = [0x0000_006f];

/// Adds 8 bytes of a number.
fn push_long(file: &mut Vec<u8>, number: u64) -> Result<(), AllocError> {
    file.extend_from_slice(&number.to_le_bytes())
}

/// A program header for bytes that stand in the file at their address less 0xF000.
fn push_header(file: &mut Vec<u8>, flags: u8, address: u64, size: u64) -> Result<(), AllocError> {
    file.extend_from_slice(&[1, 0, 0, 0, flags, 0, 0, 0])?;
    push_long(file, address.saturating_sub(0xF000))?;
    push_long(file, address)?;
    push_long(file, 0)?;
    push_long(file, size)?;
    push_long(file, size)?;
    push_long(file, 4096)
}

/// An image with this code at 0x10000 and these bytes at 0x11000, where there are some.
fn image_file(alloc: Global, code: &[u32], bytes: &[u8]) -> Result<Vec<u8>, AllocError> {
    let mut file = Vec::from_slice(alloc, &[0x7f, b'E', b'L', b'F', 2, 1, 1])?;
    file.resize(16, 0)?;
    file.extend_from_slice(&[2, 0, 243, 0, 1, 0, 0, 0])?;
    push_long(&mut file, 0x10000)?;
    push_long(&mut file, 64)?;
    push_long(&mut file, 0)?;
    let headers = if bytes.is_empty() { 1 } else { 2 };
    file.extend_from_slice(&[0, 0, 0, 0, 64, 0, 56, 0, headers, 0, 0, 0, 0, 0, 0, 0])?;
    push_header(&mut file, 5, 0x10000, code.len() as u64 * 4)?;
    if !bytes.is_empty() {
        push_header(&mut file, 6, 0x11000, bytes.len() as u64)?;
    }
    file.resize(4096, 0)?;
    for word in code {
        file.extend_from_slice(&word.to_le_bytes())?;
    }
    if !bytes.is_empty() {
        file.resize(8192, 0)?;
        file.extend_from_slice(bytes)?;
    }
    Ok(file)
}

/// The machine of an image with this code and these bytes.
fn boot(alloc: Global, code: &[u32], bytes: &[u8], config: &Config) -> Result<Booted, Fail>
    ensures { IfOk result (λ booted. Sound (state_of booted.machine booted.harts.items)) }
{
    starts_sound();
    let file = image_file(alloc, code, bytes)?;
    let image = read_image(alloc, &file)?;
    let booted = Machine::boot(alloc, &image, config)?;
    Ok(booted)
}

/// What a run came to.
#[derive(Drop)]
struct Ran {
    end: SeededEnd,
    ending: Option<Ending>,
    counts: Counts,
    output: Vec<u8>,
    reports: usize,
}

/// A run with the picks of seed 1.
fn run(
    alloc: Global,
    code: &[u32],
    bytes: &[u8],
    config: &Config,
    picks: u64,
) -> Result<Ran, Fail> {
    let Booted {
        mut machine,
        mut harts,
    } = boot(alloc, code, bytes, config)?;
    if harts.is_empty() {
        return Err("no hart".into());
    }
    let end = run_seeded(&mut machine, &mut harts, 1, picks);
    let kernel = machine.kernel_with(&harts).ok_or("no kernel")?;
    Ok(Ran {
        end,
        ending: machine.ending(&harts),
        counts: machine.counts(&harts),
        output: Vec::from_slice(alloc, kernel.output())?,
        reports: kernel.reports().len(),
    })
}

#[test]
fn counted_runs(rt: HostRuntime) -> Result<(), Fail> {
    let one = Config { harts: 1, ..CONFIG };
    let seven = Counts {
        retired: 3,
        calls: 1,
        hits: 2,
        walks: 1,
        clears: 1,
        marks: 0,
        peak: 22,
    };
    let malloc_and_free = Counts {
        retired: 10,
        calls: 3,
        hits: 9,
        walks: 3,
        clears: 2,
        marks: 1,
        peak: 25,
    };
    let rows: [(&str, &[u32], u64, u8, Counts); 2] = [
        ("seven", &SEVEN, 16, 7, seven),
        (
            "malloc and free",
            &MALLOC_AND_FREE,
            1089,
            0,
            malloc_and_free,
        ),
    ];
    for (name, code, picks, status, counts) in rows {
        for allowed in [picks, 1_000_000] {
            let ran = run(rt.alloc(), code, &[], &one, allowed)?;
            assert_eq!(rt; ran.end, SeededEnd::Over { picks }, "{name}");
            assert_eq!(rt; ran.ending, Some(Ending::Exit(status)), "{name}");
            assert_eq!(rt; ran.counts, counts, "{name}");
        }
        let ran = run(rt.alloc(), code, &[], &one, picks - 1)?;
        assert_eq!(rt; (ran.end, ran.ending), (SeededEnd::Spent, None), "{name}");
    }
    Ok(())
}

#[test]
fn output_and_reports(rt: HostRuntime) -> Result<(), Fail> {
    let ran = run(rt.alloc(), &HELLO, b"hello\n", &CONFIG, 1_000_000)?;
    assert_eq!(rt; ran.ending, Some(Ending::Exit(0)));
    assert_eq!(rt; ran.output.as_slice(), b"hello\n".as_slice());
    assert_eq!(rt; (ran.counts.retired, ran.reports), (8, 0));
    let ran = run(rt.alloc(), &STALE, &[], &CONFIG, 1_000_000)?;
    assert_eq!(rt; ran.ending, Some(Ending::Fault));
    assert_eq!(rt; (ran.output.len(), ran.reports), (0, 1));
    Ok(())
}

#[test]
fn leaf_tables_are_given_up(rt: HostRuntime) -> Result<(), Fail> {
    let config = Config {
        frames: 64,
        ..CONFIG
    };
    let ran = run(rt.alloc(), &PAIRS, &[], &config, 100_000_000)?;
    assert_eq!(rt; ran.ending, Some(Ending::Exit(0)));
    assert_eq!(rt;
        (ran.counts.calls, ran.counts.marks, ran.counts.peak),
        (2001, 1000, 25)
    );
    Ok(())
}

#[test]
fn runs_without_end(rt: HostRuntime) -> Result<(), Fail> {
    let ran = run(rt.alloc(), &LOOP, &[], &CONFIG, 1000)?;
    assert_eq!(rt; (ran.end, ran.ending), (SeededEnd::Spent, None));
    let journal = Config {
        harts: 1,
        journal: 1,
        ..CONFIG
    };
    let ran = run(rt.alloc(), &MALLOC_AND_FREE, &[], &journal, 10_000)?;
    assert_eq!(rt;
        (ran.end, ran.ending, ran.counts.calls),
        (SeededEnd::Spent, None, 1)
    );
    Ok(())
}

/// An idle hart takes its own box first.
#[test]
fn first_pick_of_seed_1(rt: HostRuntime) -> Result<(), Fail> {
    let Booted {
        mut machine,
        mut harts,
    } = boot(rt.alloc(), &SEVEN, &[], &CONFIG)?;
    assert_eq!(rt; harts.len(), 4);
    let end = run_seeded(&mut machine, &mut harts, 1, 1);
    assert_eq!(rt; end, SeededEnd::Spent);
    let asks = [
        HartAsk::TakeBox(0),
        HartAsk::TakeBox(1),
        HartAsk::GiveBox(2),
        HartAsk::TakeBox(3),
    ];
    for (hart, asked) in harts.iter().zip(asks) {
        assert_eq!(rt; hart.ask(), asked);
    }
    Ok(())
}
