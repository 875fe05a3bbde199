//! Listings of small images.

use crate::listing_of;
use osc_elf::{Image, read_image};
use std::alloc::{AllocError, Global};
use std::test::Fail;

fn push_long(file: &mut Vec<u8>, number: u64) -> Result<(), AllocError> {
    file.extend_from_slice(&number.to_le_bytes())
}

/// A segment: its flags, its address, and the place and number of its bytes in the file.
type Part = (u8, u64, u64, u64);

/// A file with its entry, and segments whose bytes follow the headers from byte 4096 on.
fn file_of(alloc: Global, entry: u64, parts: &[Part], bytes: &[u8]) -> Result<Vec<u8>, AllocError> {
    let mut file = Vec::from_slice(alloc, b"\x7fELF\x02\x01\x01\0\0\0\0\0\0\0\0\0")?;
    file.extend_from_slice(&[2, 0, 243, 0, 1, 0, 0, 0])?;
    push_long(&mut file, entry)?;
    push_long(&mut file, 64)?;
    push_long(&mut file, 0)?;
    let count = (parts.len() as u64).to_le_bytes();
    file.extend_from_slice(&[0, 0, 0, 0, 64, 0, 56, 0, count[0], count[1]])?;
    file.resize(64, 0)?;
    for (flags, address, place, size) in parts {
        file.extend_from_slice(&[1, 0, 0, 0, *flags, 0, 0, 0])?;
        push_long(&mut file, *place)?;
        push_long(&mut file, *address)?;
        push_long(&mut file, 0)?;
        push_long(&mut file, *size)?;
        push_long(&mut file, *size)?;
        push_long(&mut file, 4096)?;
    }
    file.resize(4096, 0)?;
    file.extend_from_slice(bytes)?;
    Ok(file)
}

const CODE: &[u8] = b"\x13\x05\x70\x00\x93\x08\x10\x00\x73\x00\x00\x00\xff\xff\xff\xff";

const FRONT: &str = "0x10000 addi x10, x0, 7
0x10004 addi x17, x0, 1
0x10008 ecall
0x1000c word 0x0
";

#[test]
fn three_instructions(rt: HostRuntime) -> Result<(), Fail> {
    let file = file_of(rt.alloc(), 0x10000, &[(5, 0x10000, 4096, 12)], CODE)?;
    let image = read_image(rt.alloc(), &file)?;
    let text = listing_of(rt.alloc(), &image)?;
    // 62 bytes of three lines, and 1021 lines of 17
    assert_eq!(rt; text.len(), 17419);
    assert!(rt; text.starts_with(FRONT.as_bytes()));
    assert!(rt; text.ends_with(b"\n0x10ff8 word 0x0\n0x10ffc word 0x0\n"));
    Ok(())
}

const OTHERS: &str = "0x14000 word 0x0
0x14004 word 0x0
0x14008 addi x10, x0, 7
";

/// Two pages of code, of which the upper one stands first in the table, and data above and between them.
fn pages(alloc: Global) -> Result<Vec<u8>, AllocError> {
    let parts = [
        (1, 0x14008, 4096, 4),
        (6, 0x15000, 4096, 16),
        (4, 0x13000, 4096, 16),
        (5, 0x12ffc, 4108, 4),
    ];
    file_of(alloc, 0x12ffc, &parts, CODE)
}

#[test]
fn executable_pages_ascending(rt: HostRuntime) -> Result<(), Fail> {
    let file = pages(rt.alloc())?;
    let image: Image = read_image(rt.alloc(), &file)?;
    let text = listing_of(rt.alloc(), &image)?;
    // 2048 lines of 17 bytes, but for two of 24
    assert_eq!(rt; text.len(), 34830);
    assert!(rt; text.starts_with(b"0x12000 word 0x0\n0x12004 word 0x0\n"));
    assert!(rt; text[17391..].starts_with(b"0x12ffc word 0xffffffff\n0x14000 word 0x0\n"));
    assert!(rt; text[17415..].starts_with(OTHERS.as_bytes()));
    assert!(rt; text.ends_with(b"\n0x14ffc word 0x0\n"));
    Ok(())
}
