//! Programs whose events all have a meaning.

use super::support::{GIVEN, OTHER, STARTED, STEP, world_after};
use osc_word::Event;
use std::test::Fail;

/// Malloc, a store of 9, realloc, a write of the first byte, a load, and exit with what it gave.
static MOVES: [u32; 15] = [
    0x0180_0513, // li a0, 24
    0x0030_0893, // li a7, 3
    0x0000_0073, // ecall
    0x0090_0293, // li t0, 9
    0x0055_3023, // sd t0, 0(a0)
    0x7d00_0593, // li a1, 2000
    0x0050_0893, // li a7, 5
    0x0000_0073, // ecall
    0x0005_0413, // mv s0, a0
    0x0010_0593, // li a1, 1
    0x0020_0893, // li a7, 2
    0x0000_0073, // ecall
    0x0004_3503, // ld a0, 0(s0)
    0x0010_0893, // li a7, 1
    0x0000_0073, // ecall
];

#[test]
fn bytes_move_with_their_object(rt: HostRuntime) -> Result<(), Fail> {
    let mut events = [STEP; 15];
    events[2] = GIVEN;
    events[7] = GIVEN;
    let world = world_after(rt.alloc(), &MOVES, &events)?;
    assert_eq!(rt; world.error(), None);
    assert_eq!(rt; world.status(), Some(9));
    assert_eq!(rt; world.output(), b"\x09".as_slice());
    Ok(())
}

/// Share, malloc of an object with 5, fork. The child stores 6 in the object and 7 in the page, and exits with
/// 6. The parent waits, and exits with the sum of that status, the object and the page.
static FORKS: [u32; 28] = [
    0x0010_0513, // li a0, 1
    0x00a0_0893, // li a7, 10
    0x0000_0073, // ecall
    0x0005_0413, // mv s0, a0
    0x0080_0513, // li a0, 8
    0x0030_0893, // li a7, 3
    0x0000_0073, // ecall
    0x0005_0493, // mv s1, a0
    0x0050_0293, // li t0, 5
    0x0054_b023, // sd t0, 0(s1)
    0x0060_0893, // li a7, 6
    0x0000_0073, // ecall
    0x0205_1063, // bne a0, x0, 32
    0x0060_0293, // li t0, 6
    0x0054_b023, // sd t0, 0(s1)
    0x0070_0293, // li t0, 7
    0x0054_3023, // sd t0, 0(s0)
    0x0060_0513, // li a0, 6
    0x0010_0893, // li a7, 1
    0x0000_0073, // ecall
    0x00b0_0893, // li a7, 11
    0x0000_0073, // ecall
    0x0004_b283, // ld t0, 0(s1)
    0x0004_3303, // ld t1, 0(s0)
    0x0055_0533, // add a0, a0, t0
    0x0065_0533, // add a0, a0, t1
    0x0010_0893, // li a7, 1
    0x0000_0073, // ecall
];

/// The parent's events to the fork, those of the child, and the rest.
fn events_of_forks() -> [Event; 29] {
    let mut events = [STEP; 29];
    events[2] = GIVEN;
    events[6] = GIVEN;
    events[11] = STARTED;
    for place in 12..20 {
        events[place] = OTHER;
    }
    events
}

#[test]
fn a_child_has_objects_of_its_own(rt: HostRuntime) -> Result<(), Fail> {
    let world = world_after(rt.alloc(), &FORKS, &events_of_forks())?;
    assert_eq!(rt; world.error(), None);
    assert_eq!(rt; world.status(), Some(18));
    Ok(())
}
