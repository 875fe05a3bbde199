//! Worlds and events for the tests beside.

use crate::World;
use osc_elf::read_image;
use osc_word::{Choice, Config, Event, HeapKind};
use std::alloc::{AllocError, Global};
use std::test::Fail;

/// Two harts, and else what a run has that is told nothing.
const CONFIG: Config = Config {
    heap: HeapKind::Oscar,
    harts: 2,
    processes: 16,
    frames: 1024,
    shadows: 65536,
    journal: 65536,
    levels: 3,
    batch: 1,
};

/// An event of hart 0 that leaves nothing to choose.
pub const STEP: Event = Event {
    hart: 0,
    choice: Choice::Plain,
};

/// An event of hart 0 that gives memory.
pub const GIVEN: Event = Event {
    hart: 0,
    choice: Choice::Given,
};

/// An event of hart 0 with which a thread begins on hart 1.
pub const STARTED: Event = Event {
    hart: 0,
    choice: Choice::Started(1),
};

/// An event of hart 1 that leaves nothing to choose.
pub const OTHER: Event = Event {
    hart: 1,
    choice: Choice::Plain,
};

/// Adds 8 bytes of a number.
fn push_long(file: &mut Vec<u8>, number: u64) -> Result<(), AllocError> {
    file.extend_from_slice(&number.to_le_bytes())
}

/// A file with this code at 0x10000, which can be read and executed.
fn image_file(alloc: Global, code: &[u32]) -> Result<Vec<u8>, AllocError> {
    let size = code.len() as u64 * 4;
    let mut file = Vec::from_slice(alloc, &[0x7f, b'E', b'L', b'F', 2, 1, 1])?;
    file.resize(16, 0)?;
    file.extend_from_slice(&[2, 0, 243, 0, 1, 0, 0, 0])?;
    push_long(&mut file, 0x10000)?;
    push_long(&mut file, 64)?;
    push_long(&mut file, 0)?;
    file.extend_from_slice(&[0, 0, 0, 0, 64, 0, 56, 0, 1, 0, 0, 0, 0, 0, 0, 0])?;
    file.extend_from_slice(&[1, 0, 0, 0, 5, 0, 0, 0])?;
    push_long(&mut file, 4096)?;
    push_long(&mut file, 0x10000)?;
    push_long(&mut file, 0)?;
    push_long(&mut file, size)?;
    push_long(&mut file, size)?;
    push_long(&mut file, 4096)?;
    file.resize(4096, 0)?;
    for word in code {
        file.extend_from_slice(&word.to_le_bytes())?;
    }
    Ok(file)
}

/// The world of a program after these events.
pub fn world_after(alloc: Global, code: &[u32], events: &[Event]) -> Result<World, Fail> {
    let file = image_file(alloc, code)?;
    let image = read_image(alloc, &file)?;
    let mut world = World::boot(alloc, &image, &CONFIG)?;
    for event in events {
        world.step(alloc, *event)?;
    }
    Ok(world)
}
