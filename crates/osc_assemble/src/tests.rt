//! Texts with their files and faults. The words are those that GNU as gives the same instructions.

use crate::{TextFault, assemble};
use osc_elf::read_image;
use std::alloc::{AllocError, Global};
use std::test::Fail;

/// The bytes of the instructions of a text stand from the first address on.
const ROWS: [(&str, [u8; 12]); 3] = [
    (
        "addi x10, x0, 7\naddi x17, x0, 1\necall",
        [
            0x13, 0x05, 0x70, 0x00, 0x93, 0x08, 0x10, 0x00, 0x73, 0x00, 0x00, 0x00,
        ],
    ),
    (
        "# a comment\n\nli x10, 74565\nmul x10, x11, x12\n",
        [
            0x37, 0x25, 0x01, 0x00, 0x13, 0x05, 0x55, 0x34, 0x33, 0x85, 0xc5, 0x02,
        ],
    ),
    (
        "jal x0, end\nback:\nbeq x5, x6, back\nend:\njal x1, back\n",
        [
            0x6f, 0x00, 0x80, 0x00, 0x63, 0x80, 0x62, 0x00, 0xef, 0xf0, 0xdf, 0xff,
        ],
    ),
];

#[test]
fn files(rt: HostRuntime) -> Result<(), Fail> {
    for (text, bytes) in ROWS.iter() {
        let file = assemble(rt.alloc(), text.as_bytes())?;
        assert_eq!(rt; file.len(), 4108, "{text}");
        let image = read_image(rt.alloc(), &file)?;
        assert_eq!(rt; image.entry(), 0x10000);
        for (index, byte) in bytes.iter().enumerate() {
            assert_eq!(rt; image.byte(0x10000 + index as u64), Some(*byte), "{text}");
        }
    }
    Ok(())
}

#[test]
fn addresses_and_bytes(rt: HostRuntime) -> Result<(), Fail> {
    let text = b"bytes 0a\nla x11, end\nlab x12, 1\nend:\nbytes ff1b";
    let file = assemble(rt.alloc(), text)?;
    let image = read_image(rt.alloc(), &file)?;
    let code = [
        0xb7, 0x05, 0x01, 0x00, 0x93, 0x85, 0x05, 0x01, 0x37, 0x16, 0x01, 0x00, 0x13, 0x06, 0x16,
        0x00,
    ];
    for (index, byte) in code.iter().enumerate() {
        assert_eq!(rt; image.byte(0x10000 + index as u64), Some(*byte));
    }
    assert_eq!(rt; image.byte(0x11000), Some(0x0a));
    assert_eq!(rt; image.byte(0x11001), Some(0xff));
    assert_eq!(rt; image.byte(0x11002), Some(0x1b));
    Ok(())
}

#[test]
fn faults(rt: HostRuntime) -> Result<(), Fail> {
    let rows: [(&str, TextFault); 8] = [
        ("addi x10, x0, 2048", TextFault::Form { line: 1 }),
        ("jal x0, far_away", TextFault::Label { line: 1 }),
        ("a:\na:\njal x0, A", TextFault::Form { line: 3 }),
        ("a:\n\r\n", TextFault::Form { line: 2 }),
        ("jal x0, b\na:\n\na:\na:\n", TextFault::Bound { line: 4 }),
        (
            "a:\njal x0, a\nla x5, b\nla x5, c\n",
            TextFault::Label { line: 3 },
        ),
        ("a:\nbeq x5, x6, aa\n", TextFault::Label { line: 2 }),
        ("ecall\necall ", TextFault::Form { line: 2 }),
    ];
    for (text, fault) in rows.iter() {
        match assemble(rt.alloc(), text.as_bytes()) {
            Ok(_) => assert!(rt; false, "{text}"),
            Err(found) => assert_eq!(rt; found, *fault, "{text}"),
        }
    }
    Ok(())
}

/// A text with so many more instructions, and an end.
fn longer(alloc: Global, front: &[u8], count: usize, end: &[u8]) -> Result<Vec<u8>, AllocError> {
    let mut text = Vec::from_slice(alloc, front)?;
    for _ in 0..count {
        text.extend_from_slice(b"ecall\n")?;
    }
    text.extend_from_slice(end)?;
    Ok(text)
}

#[test]
fn offsets(rt: HostRuntime) -> Result<(), Fail> {
    let near = longer(rt.alloc(), b"beq x5, x6, end\n", 1022, b"end:\n")?;
    assert_eq!(rt; assemble(rt.alloc(), &near)?.len(), 8188);
    let far = longer(rt.alloc(), b"#\nbeq x5, x6, end\n", 1023, b"end:\n")?;
    assert!(rt; assemble(rt.alloc(), &far) == Err(TextFault::Far { line: 2 }));
    let both = longer(rt.alloc(), b"beq x5, x6, end\n", 1023, b"end:\njal x0, b")?;
    assert!(rt; assemble(rt.alloc(), &both) == Err(TextFault::Label { line: 1026 }));
    Ok(())
}
