//! Programs with an event that has no meaning.

use super::support::{GIVEN, OTHER, STARTED, STEP, world_after};
use crate::{Judged, JudgedError, ObjectWhy};
use osc_word::{Choice, Event};
use std::test::Fail;

/// Malloc, free, and a load from the dead object.
static LOADS_DEAD: [u32; 7] = [
    0x0180_0513, // li a0, 24
    0x0030_0893, // li a7, 3
    0x0000_0073, // ecall
    0x0005_0413, // mv s0, a0
    0x0040_0893, // li a7, 4
    0x0000_0073, // ecall
    0x0004_3283, // ld t0, 0(s0)
];

#[test]
fn the_first_error_stays(rt: HostRuntime) -> Result<(), Fail> {
    let events = [STEP, STEP, GIVEN, STEP, STEP, STEP, STEP];
    let mut world = world_after(rt.alloc(), &LOADS_DEAD, &events)?;
    let first = JudgedError {
        event: 6,
        why: ObjectWhy::DeadObject,
    };
    assert_eq!(rt; world.error(), Some(first));
    // hart 1 runs no thread
    assert_eq!(rt;
        world.step(rt.alloc(), OTHER)?,
        Judged::Error(ObjectWhy::DeadObject)
    );
    assert_eq!(rt; world.error(), Some(first));
    Ok(())
}

/// Malloc, a thread that stores into the object, a load-reserved and a store-conditional there.
static RESERVES: [u32; 12] = [
    0x0080_0513, // li a0, 8
    0x0030_0893, // li a7, 3
    0x0000_0073, // ecall
    0x0005_0613, // mv a2, a0
    0x0005_0413, // mv s0, a0
    0x0000_0517, // auipc a0, 0
    0x0185_0513, // addi a0, a0, 24
    0x0070_0893, // li a7, 7
    0x0000_0073, // ecall
    0x1004_32af, // lr.d t0, (s0)
    0x1854_332f, // sc.d t1, t0, (s0)
    0x0005_3023, // sd x0, 0(a0)
];

/// The store-conditional has stored, although the thread stored between.
#[test]
fn a_success_after_a_store_between_does_not_fit(rt: HostRuntime) -> Result<(), Fail> {
    let mut events = [STEP; 12];
    events[2] = GIVEN;
    events[8] = STARTED;
    events[10] = OTHER;
    events[11] = Event {
        hart: 0,
        choice: Choice::Success,
    };
    let world = world_after(rt.alloc(), &RESERVES, &events)?;
    let trap = JudgedError {
        event: 11,
        why: ObjectWhy::Trap,
    };
    assert_eq!(rt; world.error(), Some(trap));
    Ok(())
}

/// Malloc, a store of the pointer, and a load of four of its bytes.
static LOADS_A_PART: [u32; 5] = [
    0x0180_0513, // li a0, 24
    0x0030_0893, // li a7, 3
    0x0000_0073, // ecall
    0x00a5_3023, // sd a0, 0(a0)
    0x0005_2283, // lw t0, 0(a0)
];

#[test]
fn a_part_of_a_pointer_is_no_number(rt: HostRuntime) -> Result<(), Fail> {
    let events = [STEP, STEP, GIVEN, STEP, STEP];
    let world = world_after(rt.alloc(), &LOADS_A_PART, &events)?;
    let part = JudgedError {
        event: 4,
        why: ObjectWhy::PointerBytes,
    };
    assert_eq!(rt; world.error(), Some(part));
    Ok(())
}
