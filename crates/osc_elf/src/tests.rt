//! Files that are taken and files that are refused.

mod gnu_image;

use crate::{Image, read_image};
use bitflags::Flags;
use gnu_image::GNU_IMAGE;
use osc_sv39::PteBits;
use std::alloc::{AllocError, Global};
use std::test::Fail;

/// Bytes that are put at a place of a file.
struct Patch(usize, &'static [u8]);

/// Prints `hello` and a newline: `la a0`, `addi a1, x0, 6`, call 2, `addi a0, x0, 0`, call 1.
const CODE: [u8; 32] = [
    0x37, 0x15, 0x01, 0x00, 0x13, 0x05, 0x05, 0x00, 0x93, 0x05, 0x60, 0x00, 0x93, 0x08, 0x20, 0x00,
    0x73, 0x00, 0x00, 0x00, 0x13, 0x05, 0x00, 0x00, 0x93, 0x08, 0x10, 0x00, 0x73, 0x00, 0x00, 0x00,
];

/// A program header of PT_LOAD.
#[derive(Clone, Copy)]
struct Load {
    flags: u8,
    offset: u64,
    address: u64,
    file_size: u64,
    size: u64,
}

fn pt_load(flags: u8, offset: u64, address: u64, file_size: u64, size: u64) -> Load {
    Load {
        flags,
        offset,
        address,
        file_size,
        size,
    }
}

fn push_long(file: &mut Vec<u8>, number: u64) -> Result<(), AllocError> {
    file.extend_from_slice(&number.to_le_bytes())
}

fn push_load(file: &mut Vec<u8>, load: &Load) -> Result<(), AllocError> {
    file.extend_from_slice(&[1, 0, 0, 0, load.flags, 0, 0, 0])?;
    push_long(file, load.offset)?;
    push_long(file, load.address)?;
    push_long(file, 0)?;
    push_long(file, load.file_size)?;
    push_long(file, load.size)?;
    push_long(file, 4096)
}

/// A file header with its entry at 0x10000, for so many program headers behind it.
fn header(alloc: Global, count: u16) -> Result<Vec<u8>, AllocError> {
    let mut file = Vec::from_slice(alloc, &[0x7f, b'E', b'L', b'F', 2, 1, 1])?;
    file.resize(16, 0)?;
    file.extend_from_slice(&[2, 0, 243, 0, 1, 0, 0, 0])?;
    push_long(&mut file, 0x10000)?;
    push_long(&mut file, 64)?;
    push_long(&mut file, 0)?;
    file.extend_from_slice(&[0, 0, 0, 0, 64, 0, 56, 0])?;
    file.extend_from_slice(&count.to_le_bytes())?;
    file.resize(64, 0)?;
    Ok(file)
}

/// An image of 8198 bytes: the code at 0x10000, and `hello` with a newline at 0x11000.
fn hello(alloc: Global) -> Result<Vec<u8>, AllocError> {
    let mut file = header(alloc, 2)?;
    push_load(&mut file, &pt_load(5, 4096, 0x10000, 32, 32))?;
    push_load(&mut file, &pt_load(6, 8192, 0x11000, 6, 6))?;
    file.resize(4096, 0)?;
    file.extend_from_slice(&CODE)?;
    file.resize(8192, 0)?;
    file.extend_from_slice(b"hello\n")?;
    Ok(file)
}

/// An image of these segments, with four bytes of code at 0x10000 before them in the table.
fn image_with(alloc: Global, loads: &[Load; 5]) -> Result<Vec<u8>, AllocError> {
    let mut file = header(alloc, 6)?;
    push_load(&mut file, &pt_load(5, 0, 0x10000, 4, 4))?;
    for load in loads {
        push_load(&mut file, load)?;
    }
    file.resize(1024, 0)?;
    file.extend_from_slice(b"ABCDEFGHIJKLMNOP")?;
    Ok(file)
}

fn apply(file: &mut Vec<u8>, patch: &Patch) {
    for (index, byte) in patch.1.iter().enumerate() {
        let place = patch.0.saturating_add(index);
        if place < file.len() {
            file[place] = *byte;
        }
    }
}

/// The text of the refusal, or `taken`.
fn says(alloc: Global, file: &[u8]) -> Result<String, AllocError> {
    match read_image(alloc, file) {
        Ok(_) => String::from_str(alloc, "taken"),
        Err(fault) => fault.to_string(alloc),
    }
}

/// One segment that is read and executed, of so many bytes in memory, with the entry at its start.
fn one_segment(alloc: Global, size: u64) -> Result<Vec<u8>, AllocError> {
    let mut file = header(alloc, 1)?;
    push_load(&mut file, &pt_load(5, 0, 0x10000, 0, size))?;
    Ok(file)
}

#[test]
fn files_cut_short(rt: HostRuntime) -> Result<(), Fail> {
    let file = hello(rt.alloc())?;
    assert_eq!(rt; file.len(), 8198);
    for length in 0..8198 {
        let said = says(rt.alloc(), &file[..length])?;
        let expected = match length {
            0..=63 => "truncated",
            64..=119 => "segment 0 table end",
            120..=4127 => "segment 0 file end",
            _ => "segment 1 file end",
        };
        assert_eq!(rt; said.as_str(), expected, "{length} bytes");
    }
    assert_eq!(rt; says(rt.alloc(), &file)?.as_str(), "taken");
    Ok(())
}

/// Patches of the image of 8198 bytes, and what is said of it then.
static PATCHED: [(&[Patch], &str); 48] = [
    (&[], "taken"),
    (&[Patch(3, b"f")], "magic"),
    (&[Patch(4, &[1])], "class"),
    (&[Patch(5, &[2])], "class"),
    (&[Patch(16, &[3]), Patch(48, &[1])], "type"),
    (&[Patch(18, &[62])], "machine"),
    (&[Patch(19, &[1])], "machine"),
    (&[Patch(6, &[0])], "version"),
    (&[Patch(23, &[1])], "version"),
    (&[Patch(48, &[1])], "flags"),
    (&[Patch(48, &[2])], "flags"),
    (&[Patch(48, &[4])], "flags"),
    // RVE is none of the refused flags.
    (&[Patch(48, &[8])], "taken"),
    (&[Patch(52, &[63])], "header size"),
    (&[Patch(54, &[55])], "header size"),
    (&[Patch(54, &[55]), Patch(56, &[0])], "entry 0x10000"),
    (&[Patch(56, &[0])], "entry 0x10000"),
    (&[Patch(32, &[0xff; 8])], "segment 0 table end"),
    // The header would end at 2^64.
    (
        &[Patch(32, &[0xc8, 0xff, 0xff, 0xff, 0xff, 0xff, 0xff, 0xff])],
        "segment 0 table end",
    ),
    (&[Patch(56, &[0xff, 0xff])], "segment 145 table end"),
    (&[Patch(64, &[2])], "segment 0 dynamic"),
    (&[Patch(120, &[3])], "segment 1 interpreter"),
    (&[Patch(120, &[7])], "segment 1 thread storage"),
    (
        &[Patch(64, &[7]), Patch(120, &[2])],
        "segment 0 thread storage",
    ),
    // Another type is not looked at.
    (
        &[Patch(120, &[3, 0, 0, 0x70]), Patch(128, &[0xff; 48])],
        "taken",
    ),
    (&[Patch(152, &[7]), Patch(160, &[6])], "segment 1 sizes"),
    (&[Patch(152, &[7]), Patch(160, &[7])], "segment 1 file end"),
    (&[Patch(128, &[0xff; 8])], "segment 1 file end"),
    (
        &[Patch(128, &[0xff; 8]), Patch(152, &[0])],
        "segment 1 file end",
    ),
    (
        &[
            Patch(136, &[0, 0xf0, 0xff, 0xff, 0xff, 0xff, 0xff, 0xff]),
            Patch(160, &[0, 0x20]),
        ],
        "segment 1 range",
    ),
    (&[Patch(136, &[0xff, 0xff, 0])], "segment 1 range"),
    (&[Patch(136, &[0xfa, 0xff, 0xff, 0xff])], "taken"),
    (&[Patch(136, &[0xfb, 0xff, 0xff, 0xff])], "segment 1 range"),
    // 4 GiB in memory.
    (&[Patch(160, &[0, 0, 0, 0, 1])], "segment 1 range"),
    // A segment of no bytes may have any address.
    (
        &[Patch(136, &[0xff; 8]), Patch(152, &[0]), Patch(160, &[0])],
        "taken",
    ),
    // The physical address and the alignment are not looked at.
    (&[Patch(144, &[0xff; 8]), Patch(168, &[0xff; 8])], "taken"),
    (&[Patch(68, &[7])], "write and execute at 0x10000"),
    (&[Patch(68, &[0xff; 4])], "write and execute at 0x10000"),
    (&[Patch(136, &[0, 0x08, 1])], "write and execute at 0x10000"),
    (
        &[Patch(68, &[3]), Patch(124, &[7])],
        "write and execute at 0x10000",
    ),
    (&[Patch(124, &[7])], "write and execute at 0x11000"),
    (
        &[Patch(68, &[7]), Patch(24, &[2])],
        "write and execute at 0x10000",
    ),
    (&[Patch(24, &[2])], "entry 0x10002"),
    (&[Patch(24, &[0xfc, 0x0f])], "taken"),
    (&[Patch(24, &[0, 0x10])], "entry 0x11000"),
    (&[Patch(24, &[0, 0, 0])], "entry 0x0"),
    (&[Patch(24, &[0xfc; 8])], "entry 0xfcfcfcfcfcfcfcfc"),
    (&[Patch(68, &[4])], "entry 0x10000"),
];

#[test]
fn files_patched(rt: HostRuntime) -> Result<(), Fail> {
    for (index, (patches, expected)) in PATCHED.iter().enumerate() {
        let mut file = hello(rt.alloc())?;
        for one in patches.iter() {
            apply(&mut file, one);
        }
        let said = says(rt.alloc(), &file)?;
        assert_eq!(rt; said.as_str(), *expected, "row {index}");
    }
    let alone = header(rt.alloc(), 1)?;
    assert_eq!(rt; says(rt.alloc(), &alone)?.as_str(), "segment 0 table end");
    let alone = header(rt.alloc(), 0)?;
    assert_eq!(rt; says(rt.alloc(), &alone)?.as_str(), "entry 0x10000");
    Ok(())
}

/// The flags R, W and X.
fn bits(number: u8) -> Option<PteBits> {
    Some(PteBits::from_bits_retain(number))
}

/// The bytes from an address on, a dot for one that is not mapped.
fn bytes(alloc: Global, image: &Image, address: u64, count: u64) -> Result<Vec<u8>, AllocError> {
    let mut all = Vec::new(alloc);
    for place in 0..count {
        all.push(image.byte(address.saturating_add(place)).unwrap_or(b'.'))?;
    }
    Ok(all)
}

#[test]
fn image_of_gnu_ld(rt: HostRuntime) -> Result<(), Fail> {
    let image = read_image(rt.alloc(), &GNU_IMAGE)?;
    assert_eq!(rt; image.entry(), 0x10120);
    assert_eq!(rt; image.page_count(), 2);
    assert_eq!(rt; image.needed_frames(3), 23);
    for (page, expected) in [
        (0xf, None),
        (0x10, bits(0xa)),
        (0x11, bits(0x6)),
        (0x12, None),
        (0x1000_0000_0000, None),
        (u64::MAX, None),
    ] {
        assert_eq!(rt; image.page_bits(page), expected, "page {page:#x}");
    }
    for (from, expected) in [
        (0, Some(0x10)),
        (0x10, Some(0x10)),
        (0x11, Some(0x11)),
        (0x12, None),
        (u64::MAX, None),
    ] {
        assert_eq!(rt; image.next_page(from), expected, "from {from:#x}");
    }
    for (address, expected) in [
        (0xffff, b".\x7fELF".as_slice()),
        (0x1011f, b"\0\x17\x15\0".as_slice()),
        (0x1013c, b"\x73\0\0\0\0\0".as_slice()),
        (0x1113f, b"\0hello\n\0".as_slice()),
        (0x11fff, b"\0.".as_slice()),
    ] {
        let found = bytes(rt.alloc(), &image, address, expected.len() as u64)?;
        assert_eq!(rt; found.as_slice(), expected, "at {address:#x}");
    }
    Ok(())
}

/// The bytes of a page, by one call for each and by one call for all.
fn pages_agree(alloc: Global, image: &Image, page: u64) -> Result<bool, AllocError> {
    let mut page_bytes = vec![in alloc; 0xee; 4096]?;
    image.page_bytes(page, &mut page_bytes);
    for (place, byte) in page_bytes.iter().enumerate() {
        let address = page.saturating_mul(4096).saturating_add(place as u64);
        if *byte != image.byte(address).unwrap_or(0) {
            return Ok(false);
        }
    }
    Ok(true)
}

#[test]
fn segments_that_overlap(rt: HostRuntime) -> Result<(), Fail> {
    let file = image_with(
        rt.alloc(),
        &[
            pt_load(4, 1024, 0x20ffc, 8, 8),
            pt_load(2, 1032, 0x21002, 2, 4),
            pt_load(0, 1036, 0x20ffe, 2, 2),
            pt_load(0, 1024, 0x30000, 8, 8),
            pt_load(1, 1024, 0x40000, 2, 4096),
        ],
    )?;
    let image = read_image(rt.alloc(), &file)?;
    for (page, expected) in [
        (0x20, bits(2)),
        (0x21, bits(6)),
        (0x30, None),
        (0x40, bits(8)),
        (0x41, None),
    ] {
        assert_eq!(rt; image.page_bits(page), expected, "page {page:#x}");
    }
    let found = bytes(rt.alloc(), &image, 0x20ffb, 12)?;
    assert_eq!(rt; found.as_slice(), b"\0ABMNEFIJ\0\0\0".as_slice());
    assert_eq!(rt;
        bytes(rt.alloc(), &image, 0x30000, 2)?.as_slice(),
        b"..".as_slice()
    );
    assert_eq!(rt;
        bytes(rt.alloc(), &image, 0x40000, 3)?.as_slice(),
        b"AB\0".as_slice()
    );
    for page in [
        0,
        0xf,
        0x10,
        0x20,
        0x21,
        0x30,
        0x40,
        0x41,
        0x10_0000,
        u64::MAX,
    ] {
        assert!(rt; pages_agree(rt.alloc(), &image, page)?, "page {page:#x}");
    }
    let mut page = vec![in rt.alloc(); 0; 4096]?;
    image.page_bytes(0x21, &mut page);
    assert!(rt; page.starts_with(b"EFIJ\0\0\0"));
    assert_eq!(rt; image.next_page(0x22), Some(0x40));
    assert_eq!(rt; image.page_count(), 4);
    Ok(())
}

#[test]
fn needed_frames(rt: HostRuntime) -> Result<(), Fail> {
    for (size, pages, frames) in [
        (4, 1, 22),
        (409_600, 100, 121),
        (4_194_304, 1024, 1047),
        (0xffff_0000, 1_048_560, 1_050_631),
    ] {
        let file = one_segment(rt.alloc(), size)?;
        let image = read_image(rt.alloc(), &file)?;
        assert_eq!(rt; image.page_count(), pages, "{size} bytes");
        assert_eq!(rt; image.needed_frames(3), frames, "{size} bytes");
        assert_eq!(rt; image.needed_frames(4), frames + 1, "{size} bytes");
    }
    Ok(())
}

/// 65534 segments of three bytes that lie side by side, so that more than 1300 touch each page.
#[test]
fn segments_side_by_side(rt: HostRuntime) -> Result<(), Fail> {
    let mut file = header(rt.alloc(), 65535)?;
    push_load(&mut file, &pt_load(5, 0, 0x10000, 4, 4))?;
    for index in 0..65534 {
        push_load(&mut file, &pt_load(6, index % 3, 0x20000 + index * 3, 2, 3))?;
    }
    let image = read_image(rt.alloc(), &file)?;
    assert_eq!(rt; image.page_count(), 49);
    let found = bytes(rt.alloc(), &image, 0x20000, 12)?;
    assert_eq!(rt; found.as_slice(), b"\x7fE\0EL\0LF\0\x7fE\0".as_slice());
    let found = bytes(rt.alloc(), &image, 0x20000 + 65533 * 3, 4)?;
    assert_eq!(rt; found.as_slice(), b"EL\0\0".as_slice());
    for page in [0x20, 0x21, 0x38, 0x4f, 0x50] {
        assert!(rt; pages_agree(rt.alloc(), &image, page)?, "page {page:#x}");
    }
    Ok(())
}

#[test]
fn longest_files(rt: HostRuntime) -> Result<(), Fail> {
    let mut file = header(rt.alloc(), 65535)?;
    push_load(&mut file, &pt_load(5, 0, 0x10000, 4, 4))?;
    for _ in 1..65535 {
        push_load(&mut file, &pt_load(6, 0, 0x20000, 0xf0_0000, 0xf0_0000))?;
    }
    file.resize(16_777_216, b'x')?;
    let image = read_image(rt.alloc(), &file)?;
    assert_eq!(rt; image.page_count(), 3841);
    assert_eq!(rt;
        bytes(rt.alloc(), &image, 0x20001, 3)?.as_slice(),
        b"ELF".as_slice()
    );
    for page in [0x10, 0x1f, 0x20, 0x800, 0xf1f, 0xf20] {
        assert!(rt; pages_agree(rt.alloc(), &image, page)?, "page {page:#x}");
    }
    file.push(b'x')?;
    assert_eq!(rt; says(rt.alloc(), &file)?.as_str(), "too long");
    Ok(())
}
