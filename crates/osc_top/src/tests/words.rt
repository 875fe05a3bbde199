//! Words that are no task, and the generated guest.

use super::runs::seven;
use super::support::{WELL, guest, run_on};
use crate::Status;
use std::test::Fail;

/// Lines of words with what is said of them.
static REFUSED: [(&str, &str); 14] = [
    ("oscar --frames 63", "oscar: usage: --frames\n"),
    ("oscar --bogus 1", "oscar: usage: words\n"),
    ("oscar x", "oscar: usage: words\n"),
    ("oscar --help", "oscar: usage: words\n"),
    ("oscar --mode seed --mode seed", "oscar: usage: words\n"),
    ("oscar --harts 9 --frames 1", "oscar: usage: --harts\n"),
    ("oscar --mode object --heap plain", "oscar: usage: --heap\n"),
    ("oscar --mode run", "oscar: usage: --mode\n"),
    ("oscar --heap other", "oscar: usage: --heap\n"),
    ("oscar --levels 5", "oscar: usage: --levels\n"),
    ("oscar --batch 65", "oscar: usage: --batch\n"),
    ("oscar --processes 65", "oscar: usage: --processes\n"),
    ("oscar --shadows 1048577", "oscar: usage: --shadows\n"),
    ("oscar --seed ", "oscar: usage: --seed\n"),
];

#[test]
fn refuses_words(rt: HostRuntime) -> Result<(), Fail> {
    for (line, text) in &REFUSED {
        let file = guest(rt.alloc(), &seven(), b"", 0)?;
        let given = run_on(rt.alloc(), line, file, WELL)?;
        assert_eq!(rt; given.status, Status(64), "{line}");
        assert_eq!(rt; given.out.bytes(), b"".as_slice(), "{line}");
        assert_eq!(rt; given.err.bytes(), text.as_bytes(), "{line}");
    }
    Ok(())
}

/// The guest of number 7 writes its sum, 0x2a96c. The source, which would fail, is not read.
#[test]
fn makes_a_guest(rt: HostRuntime) -> Result<(), Fail> {
    let rows = [
        (
            "oscar --mode gen --number 7",
            "run: picks 658302 retired 7952 calls 637 hits 9499 walks 1455 clears 1613 marks 416 peak 43\n",
        ),
        (
            "oscar --mode gen --number 7",
            "run: picks 658302 retired 7952 calls 637 hits 9499 walks 1455 clears 1613 marks 416 peak 43\n",
        ),
        (
            "oscar --mode gen --number 7 --heap plain",
            "run: picks 670417 retired 7952 calls 637 hits 9962 walks 992 clears 897 marks 0 peak 55\n",
        ),
    ];
    for (line, text) in rows {
        let unread = super::support::Outside {
            source_fails: &[1],
            ..WELL
        };
        let given = run_on(rt.alloc(), line, Vec::new(rt.alloc()), unread)?;
        assert_eq!(rt; given.status, Status(0), "{line}");
        assert_eq!(rt;
            given.out.bytes(),
            b"\x6c\xa9\x02\0\0\0\0\0".as_slice(),
            "{line}"
        );
        assert_eq!(rt; given.err.bytes(), text.as_bytes(), "{line}");
    }
    Ok(())
}
