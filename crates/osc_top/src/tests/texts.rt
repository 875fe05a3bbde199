//! Texts that are assembled, and images that are listed.

use super::runs::seven;
use super::support::{Answer, Outside, Segment, WELL, bytes_of, file_of, guest, run_on};
use crate::Status;
use std::alloc::{AllocError, Global};
use std::process::Abort;
use std::test::Fail;

fn asm(alloc: Global, text: &[u8], outside: Outside) -> Result<Answer, AllocError> {
    run_on(
        alloc,
        "oscar --mode asm",
        Vec::from_slice(alloc, text)?,
        outside,
    )
}

const SEVEN: &[u8] = b"addi x10, x0, 7\naddi x17, x0, 1\necall";

const LISTED: &str = "0x10000 addi x10, x0, 7
0x10004 addi x17, x0, 1
0x10008 ecall
0x1000c word 0x0
";

/// The text of a guest gives its image, and the image its listing.
#[test]
fn assembles_and_lists(rt: HostRuntime) -> Result<(), Fail> {
    let image = guest(rt.alloc(), &seven(), b"", 0)?;
    let made = asm(rt.alloc(), SEVEN, WELL)?;
    assert_eq!(rt; made.status, Status(0));
    assert_eq!(rt; made.out.bytes(), image.as_slice());
    assert_eq!(rt; made.err.bytes(), b"".as_slice());
    let listed = run_on(rt.alloc(), "oscar --mode disasm --frames 64", image, WELL)?;
    assert_eq!(rt; listed.status, Status(0));
    assert_eq!(rt; listed.err.bytes(), b"".as_slice());
    // 62 bytes of three lines, and 1021 lines of 17
    assert_eq!(rt; listed.out.bytes().len(), 17419);
    assert!(rt; listed.out.bytes().starts_with(LISTED.as_bytes()));
    assert!(rt;
        listed
            .out
            .bytes()
            .ends_with(b"\n0x10ff8 word 0x0\n0x10ffc word 0x0\n")
    );
    Ok(())
}

/// `mul x10, x11, x12` is 0x02C58533.
#[test]
fn multiplies(rt: HostRuntime) -> Result<(), Fail> {
    let image = guest(rt.alloc(), &[0x02C5_8533], b"", 0)?;
    let made = asm(rt.alloc(), b"# a product\n\nmul x10, x11, x12\n", WELL)?;
    assert_eq!(rt; made.out.bytes(), image.as_slice());
    let listed = run_on(rt.alloc(), "oscar --mode disasm", image, WELL)?;
    assert!(rt;
        listed
            .out
            .bytes()
            .starts_with(b"0x10000 mul x10, x11, x12\n0x10004 word 0x0\n")
    );
    Ok(())
}

/// Wants that a text is refused with this line.
fn check(rt: &impl Abort, alloc: Global, text: &[u8], wanted: &str) -> Result<(), Fail> {
    let given = asm(alloc, text, WELL)?;
    assert_eq!(rt; given.err.bytes(), wanted.as_bytes());
    assert_eq!(rt; given.status, Status(72), "{wanted}");
    assert_eq!(rt; given.out.bytes(), b"".as_slice());
    Ok(())
}

#[test]
fn texts_that_are_refused(rt: HostRuntime) -> Result<(), Fail> {
    let rows: [(&str, &str); 6] = [
        ("addi x10, x0, 2048", "oscar: text: line 1 form\n"),
        ("jal x0, far_away", "oscar: text: line 1 label\n"),
        (
            "ecall\n\n# a\naddi x10, x0, 007",
            "oscar: text: line 4 form\n",
        ),
        ("a:\nb:\na:\njal x0, c", "oscar: text: line 3 bound\n"),
        ("a:\nbeq x5, x6, b\nb", "oscar: text: line 3 form\n"),
        ("\x7fELF", "oscar: text: line 1 form\n"),
    ];
    for (text, wanted) in rows.iter() {
        check(&rt, rt.alloc(), text.as_bytes(), wanted)?;
    }
    let mut far = Vec::from_slice(rt.alloc(), b"ecall\nbeq x5, x6, end\n")?;
    for _ in 0..1023 {
        far.extend_from_slice(b"ecall\n")?;
    }
    far.extend_from_slice(b"end:\n")?;
    check(&rt, rt.alloc(), &far, "oscar: text: line 2 far\n")?;
    let mut long = Vec::new(rt.alloc());
    long.resize(16_777_217, b'\n')?;
    check(&rt, rt.alloc(), &long, "oscar: text: too long\n")
}

/// An image with a page of code, whose second word is no instruction, and this many bytes of data.
fn with_data(alloc: Global, size: u64) -> Result<Vec<u8>, AllocError> {
    let bytes = bytes_of(alloc, &[0x73, 0xFFFF_FFFF])?;
    file_of(
        alloc,
        &[
            Segment {
                flags: 5,
                address: 0x10000,
                bytes: &bytes,
                size: 8,
            },
            Segment {
                flags: 6,
                address: 0x11000,
                bytes: b"",
                size,
            },
        ],
    )
}

/// Images are listed without what a run needs beside their pages.
#[test]
fn images_of_many_pages(rt: HostRuntime) -> Result<(), Fail> {
    let line = "oscar --mode disasm --frames 64";
    let most = with_data(rt.alloc(), 63 * 4096)?;
    let listed = run_on(rt.alloc(), line, most, WELL)?;
    assert_eq!(rt; listed.status, Status(0));
    // lines of 14 and 24 bytes, and 1022 of 17
    assert_eq!(rt; listed.out.bytes().len(), 17412);
    assert!(rt;
        listed
            .out
            .bytes()
            .starts_with(b"0x10000 ecall\n0x10004 word 0xffffffff\n")
    );
    let more = with_data(rt.alloc(), 63 * 4096 + 1)?;
    let refused = run_on(rt.alloc(), line, more, WELL)?;
    assert_eq!(rt; refused.status, Status(65));
    assert_eq!(rt; refused.out.bytes(), b"".as_slice());
    assert_eq!(rt;
        refused.err.bytes(),
        b"oscar: image needs 65 frames of 64\n".as_slice()
    );
    let text = run_on(rt.alloc(), line, Vec::from_slice(rt.alloc(), SEVEN)?, WELL)?;
    assert_eq!(rt; text.status, Status(65));
    assert_eq!(rt; text.err.bytes(), b"oscar: image: truncated\n".as_slice());
    Ok(())
}

#[test]
fn texts_with_a_failing_outside(rt: HostRuntime) -> Result<(), Fail> {
    let unread = Outside {
        source_fails: &[2],
        most: 3,
        ..WELL
    };
    let given = asm(rt.alloc(), SEVEN, unread)?;
    assert_eq!(rt; given.status, Status(66));
    assert_eq!(rt; given.err.bytes(), b"oscar: source fault\n".as_slice());
    let unwritten = Outside {
        out_fails: &[2],
        most: 4,
        ..WELL
    };
    let given = asm(rt.alloc(), SEVEN, unwritten)?;
    assert_eq!(rt; given.status, Status(67));
    assert_eq!(rt; given.out.bytes(), b"\x7fELF".as_slice());
    assert_eq!(rt; given.err.bytes(), b"".as_slice());
    Ok(())
}
