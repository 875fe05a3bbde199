//! Lists of words, each with the task that it asks for or its refusal.

use crate::{Mode, Task, WordsFault, read_words};
use osc_word::{Config, HeapKind};
use std::alloc::{AllocError, Global};
use std::test::Fail;

/// The words that stand between single spaces.
fn words_of<'a>(alloc: Global, line: &'a str) -> Result<Vec<&'a str>, AllocError> {
    line.split(' ').collect(alloc)
}

/// What the words of a line ask for.
fn asked(alloc: Global, line: &str) -> Result<Task, WordsFault> {
    let words = words_of(alloc, line)?;
    read_words(alloc, words.as_slice())
}

fn defaults() -> Task {
    Task {
        mode: Mode::Seed,
        config: Config {
            heap: HeapKind::Oscar,
            harts: 4,
            processes: 16,
            frames: 1024,
            shadows: 65536,
            journal: 65536,
            levels: 3,
            batch: 1,
        },
        seed: 1,
        picks: 100_000_000,
        limit: 100_000_000,
        number: 1,
    }
}

/// The least that each option allows, with the other mode and heap.
fn least() -> Task {
    Task {
        mode: Mode::Gen,
        config: Config {
            heap: HeapKind::Plain,
            harts: 1,
            processes: 1,
            frames: 64,
            shadows: 1,
            journal: 1,
            levels: 3,
            batch: 1,
        },
        seed: 0,
        picks: 0,
        limit: 1,
        number: 0,
    }
}

/// The most that each option allows.
fn most() -> Task {
    Task {
        mode: Mode::Seed,
        config: Config {
            heap: HeapKind::Oscar,
            harts: 8,
            processes: 64,
            frames: 4096,
            shadows: 1_048_576,
            journal: 1_048_576,
            levels: 4,
            batch: 64,
        },
        seed: u64::MAX,
        picks: 1_099_511_627_776,
        limit: 1_099_511_627_776,
        number: u64::MAX,
    }
}

const LEAST: &str =
    "oscar --mode gen --heap plain --harts 1 --processes 1 --frames 64 --shadows 1 --journal 1 --seed 0 --picks 0 --limit 1 --number 0 --levels 3 --batch 1";

const MOST: &str =
    "oscar --batch 64 --levels 4 --number 18446744073709551615 --limit 1099511627776 --picks 1099511627776 --seed 18446744073709551615 --journal 1048576 --shadows 1048576 --frames 4096 --processes 64 --harts 8 --heap oscar --mode seed";

#[test]
fn whole_tasks(rt: HostRuntime) {
    for (line, task) in [
        ("oscar", defaults()),
        ("any/name", defaults()),
        (
            "oscar --mode object --heap oscar",
            Task {
                mode: Mode::Object,
                ..defaults()
            },
        ),
        (LEAST, least()),
        (MOST, most()),
    ] {
        assert_eq!(rt; asked(rt.alloc(), line), Ok(task), "at {line}");
    }
}

/// Lines whose seed is the number.
static SEEDS: [(&str, u64); 7] = [
    ("oscar --seed 7", 7),
    ("oscar --seed=7", 7),
    ("oscar --seed 00000000000000000007", 7),
    ("oscar --seed 00000000000000000000", 0),
    ("oscar --seed 18446744073709551615", u64::MAX),
    ("oscar --mode=seed --seed 3", 3),
    ("oscar --seed 2 --", 2),
];

#[test]
fn seeds(rt: HostRuntime) {
    for (line, seed) in &SEEDS {
        let task = Task {
            seed: *seed,
            ..defaults()
        };
        assert_eq!(rt; asked(rt.alloc(), line), Ok(task), "at {line}");
    }
}

/// Lines that are not options of the table, each with one value and at most once.
static STRANGE: [&str; 19] = [
    "oscar ",
    "oscar go",
    "oscar --bogus 1",
    "oscar --help",
    "oscar -h",
    "oscar --version",
    "oscar -V",
    "oscar help",
    "oscar --seed",
    "oscar --seed -5",
    "oscar --seed --mode",
    "oscar --seed 1 2",
    "oscar --seed 1 --seed 1",
    "oscar --mode seed --mode seed",
    "oscar --see 1",
    "oscar -seed 1",
    "oscar seed=1",
    "oscar -- --seed 1",
    "oscar --harts 9 --bogus 1",
];

/// Lines with the place of the first option whose text is not allowed.
static REFUSED: [(&str, u8); 40] = [
    ("oscar --mode run", 0),
    ("oscar --mode Object", 0),
    ("oscar --mode object --heap plain", 1),
    ("oscar --mode Seed", 0),
    ("oscar --mode=", 0),
    ("oscar --mode seedy", 0),
    ("oscar --harts 0 --mode x", 0),
    ("oscar --heap Plain", 1),
    ("oscar --heap ", 1),
    ("oscar --frames 1 --heap x", 1),
    ("oscar --harts 0", 2),
    ("oscar --harts 9", 2),
    ("oscar --harts 9 --frames 1", 2),
    ("oscar --frames 1 --harts 9", 2),
    ("oscar --harts +1", 2),
    ("oscar --harts 1_0", 2),
    ("oscar --harts=-1", 2),
    ("oscar --processes 0", 3),
    ("oscar --processes 65", 3),
    ("oscar --frames 63", 4),
    ("oscar --frames 4097", 4),
    ("oscar --shadows 0", 5),
    ("oscar --shadows 1048577", 5),
    ("oscar --journal 0", 6),
    ("oscar --journal 1048577", 6),
    ("oscar --seed=", 7),
    ("oscar --seed ", 7),
    ("oscar --seed -", 7),
    ("oscar --seed 0x10", 7),
    ("oscar --seed 18446744073709551616", 7),
    ("oscar --seed 99999999999999999999", 7),
    ("oscar --seed 000000000000000000001", 7),
    ("oscar --picks 1099511627777", 8),
    ("oscar --limit 0", 9),
    ("oscar --limit 1099511627777", 9),
    ("oscar --number 18446744073709551616", 10),
    ("oscar --levels 2", 11),
    ("oscar --batch 0 --levels 5", 11),
    ("oscar --batch 0", 12),
    ("oscar --batch 65", 12),
];

#[test]
fn refusals(rt: HostRuntime) {
    for line in &STRANGE {
        assert_eq!(rt;
            asked(rt.alloc(), line),
            Err(WordsFault::Words),
            "at {line}"
        );
    }
    for (line, place) in &REFUSED {
        assert_eq!(rt;
            asked(rt.alloc(), line),
            Err(WordsFault::Value(*place)),
            "at {line}"
        );
    }
}

#[test]
fn no_word_at_all(rt: HostRuntime) -> Result<(), Fail> {
    let none: Vec<&str> = Vec::new(rt.alloc());
    assert_eq!(rt; read_words(rt.alloc(), none.as_slice()), Ok(defaults()));
    Ok(())
}

/// Lines that name a mode, with it and the heap.
static MODES: [(&str, Mode, HeapKind); 4] = [
    ("oscar --mode asm", Mode::Asm, HeapKind::Oscar),
    ("oscar --mode disasm", Mode::Disasm, HeapKind::Oscar),
    ("oscar --heap plain --mode asm", Mode::Asm, HeapKind::Plain),
    (
        "oscar --heap plain --mode=disasm",
        Mode::Disasm,
        HeapKind::Plain,
    ),
];

#[test]
fn modes_without_a_machine(rt: HostRuntime) {
    for (line, mode, heap) in &MODES {
        let task = Task {
            mode: *mode,
            config: Config {
                heap: *heap,
                ..defaults().config
            },
            ..defaults()
        };
        assert_eq!(rt; asked(rt.alloc(), line), Ok(task), "at {line}");
    }
    for line in ["oscar --mode ASM", "oscar --mode disas"] {
        assert_eq!(rt;
            asked(rt.alloc(), line),
            Err(WordsFault::Value(0)),
            "at {line}"
        );
    }
}
