//! Guests of some numbers. The draws and the files' sums were worked out by a script of their own.

use crate::draw::{drawn_by, next};
use crate::guest_of;
use osc_elf::read_image;
use std::test::Fail;

/// Pointer, deed and size of the first rounds of number 7.
const DRAWS: [(u8, u8, u32); 5] = [
    (14, 1, 729),
    (15, 3, 1307),
    (1, 3, 2819),
    (1, 1, 928),
    (9, 2, 2106),
];

#[test]
fn draws_of_seven(rt: HostRuntime) {
    let mut number = 7;
    for (pointer, deed, size) in DRAWS {
        number = next(number);
        let drawn = drawn_by(number);
        assert_eq!(rt;
            (drawn.pointer, drawn.deed, drawn.size),
            (pointer, deed, size)
        );
    }
}

/// Each byte added to 31 times what came before, modulo 2^64.
fn sum_of(file: &[u8]) -> u64 {
    let mut sum = 0_u64;
    for byte in file {
        sum = sum.wrapping_mul(31).wrapping_add(u64::from(*byte));
    }
    sum
}

/// Numbers, with the sums of their files.
static FILES: [(u64, u64); 5] = [
    (0, 14_861_764_472_143_867_990),
    (1, 12_419_172_765_362_841_669),
    (7, 7_504_912_575_780_200_429),
    (20, 3_884_327_800_629_823_879),
    (u64::MAX, 2_477_505_169_534_541_271),
];

#[test]
fn files(rt: HostRuntime) -> Result<(), Fail> {
    for (number, sum) in &FILES {
        let file = guest_of(rt.alloc(), *number)?;
        assert_eq!(rt; file.len(), 24720, "of {number}");
        assert_eq!(rt; sum_of(&file), *sum, "of {number}");
        let image = read_image(rt.alloc(), &file)?;
        assert_eq!(rt; image.entry(), 0x10000);
        assert_eq!(rt; image.page_count(), 6);
    }
    Ok(())
}
