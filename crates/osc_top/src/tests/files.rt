//! Files that are no image, and images that need too many frames.

use super::runs::{hello, seven};
use super::support::{Segment, WELL, file_of, guest, run_on};
use crate::Status;
use std::alloc::{AllocError, Global};
use std::process::Abort;
use std::test::Fail;

/// The file with one byte replaced, if it is that long.
fn patched(mut file: Vec<u8>, at: usize, byte: u8) -> Vec<u8> {
    if let Some(place) = file.get_mut(at) {
        *place = byte;
    }
    file
}

/// The first bytes of a file.
fn cut(mut file: Vec<u8>, length: usize) -> Vec<u8> {
    file.truncate(length);
    file
}

/// Wants that a file is refused with this line.
fn check(
    rt: &impl Abort,
    alloc: Global,
    line: &str,
    file: Vec<u8>,
    wanted: &str,
) -> Result<(), Fail> {
    let given = run_on(alloc, line, file, WELL)?;
    assert_eq!(rt; given.err.bytes(), wanted.as_bytes());
    assert_eq!(rt; given.status, Status(65), "{wanted}");
    assert_eq!(rt; given.out.bytes(), b"".as_slice());
    Ok(())
}

/// An image of 8198 bytes with code and data.
fn whole(alloc: Global) -> Result<Vec<u8>, AllocError> {
    guest(alloc, &hello(), b"hello\n", 6)
}

/// The first bytes of `whole`, for each number in a range.
fn check_fronts(
    rt: &impl Abort,
    alloc: Global,
    first: usize,
    end: usize,
    wanted: &str,
) -> Result<(), Fail> {
    for length in first..end {
        check(rt, alloc, "oscar", cut(whole(alloc)?, length), wanted)?;
    }
    Ok(())
}

#[test]
fn fronts_of_a_file(rt: HostRuntime) -> Result<(), Fail> {
    check_fronts(&rt, rt.alloc(), 0, 64, "oscar: image: truncated\n")?;
    check_fronts(
        &rt,
        rt.alloc(),
        64,
        120,
        "oscar: image: segment 0 table end\n",
    )?;
    check_fronts(
        &rt,
        rt.alloc(),
        120,
        176,
        "oscar: image: segment 0 file end\n",
    )?;
    check_fronts(
        &rt,
        rt.alloc(),
        4120,
        4128,
        "oscar: image: segment 0 file end\n",
    )?;
    check_fronts(
        &rt,
        rt.alloc(),
        4128,
        4136,
        "oscar: image: segment 1 file end\n",
    )?;
    check_fronts(
        &rt,
        rt.alloc(),
        8190,
        8198,
        "oscar: image: segment 1 file end\n",
    )
}

#[test]
fn refuses_files(rt: HostRuntime) -> Result<(), Fail> {
    let seven = || guest(rt.alloc(), &seven(), b"", 0);
    // e_flags stands at 48, e_type at 16, e_phnum at 56, and of the first program header p_flags at 68
    let no_segment = patched(seven()?, 56, 0);
    check(
        &rt,
        rt.alloc(),
        "oscar",
        no_segment,
        "oscar: image: entry 0x10000\n",
    )?;
    check(
        &rt,
        rt.alloc(),
        "oscar",
        patched(seven()?, 48, 1),
        "oscar: image: flags\n",
    )?;
    let kind = patched(patched(seven()?, 48, 1), 16, 3);
    check(&rt, rt.alloc(), "oscar", kind, "oscar: image: type\n")?;
    check(
        &rt,
        rt.alloc(),
        "oscar",
        patched(seven()?, 68, 7),
        "oscar: image: write and execute at 0x10000\n",
    )
}

#[test]
fn refuses_segments(rt: HostRuntime) -> Result<(), Fail> {
    let mut headers_past = whole(rt.alloc())?;
    for at in 32..40 {
        headers_past = patched(headers_past, at, 0xFF);
    }
    check(
        &rt,
        rt.alloc(),
        "oscar",
        headers_past,
        "oscar: image: segment 0 table end\n",
    )?;
    // the second program header stands at 120: its p_vaddr at 136, p_filesz at 152, p_memsz at 160
    let mut far = whole(rt.alloc())?;
    for at in 138..144 {
        far = patched(far, at, 0xFF);
    }
    far = patched(patched(far, 136, 0), 137, 0xF0);
    far = patched(patched(far, 160, 0), 161, 0x20);
    check(
        &rt,
        rt.alloc(),
        "oscar",
        far,
        "oscar: image: segment 1 range\n",
    )?;
    let sizes = patched(whole(rt.alloc())?, 152, 7);
    check(
        &rt,
        rt.alloc(),
        "oscar",
        sizes,
        "oscar: image: segment 1 sizes\n",
    )?;
    let mut long = Vec::new(rt.alloc());
    long.resize(16_777_217, 0)?;
    check(&rt, rt.alloc(), "oscar", long, "oscar: image: too long\n")
}

/// A segment of zeros with code's flags.
fn zeros(alloc: Global, size: u64) -> Result<Vec<u8>, AllocError> {
    file_of(
        alloc,
        &[Segment {
            flags: 5,
            address: 0x10000,
            bytes: b"",
            size,
        }],
    )
}

#[test]
fn images_that_need_too_much(rt: HostRuntime) -> Result<(), Fail> {
    let rows = [
        (
            "oscar --frames 64",
            409_600,
            "oscar: image needs 121 frames of 64\n",
        ),
        (
            "oscar --frames 64 --levels 4",
            409_600,
            "oscar: image needs 122 frames of 64\n",
        ),
        (
            "oscar",
            4_194_304,
            "oscar: image needs 1047 frames of 1024\n",
        ),
        (
            "oscar",
            0xFFFF_0000,
            "oscar: image needs 1050631 frames of 1024\n",
        ),
    ];
    for (line, size, wanted) in rows {
        check(&rt, rt.alloc(), line, zeros(rt.alloc(), size)?, wanted)?;
    }
    Ok(())
}
