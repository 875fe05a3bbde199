// What each call answers, with numbers worked by hand. The counts of faults are proved.
use super::{Failed, MemorySink, MemorySource, Sink, Source, StdSink, StdSource};
use std::io;
use std::io::{ErrorKind, Read, Write};
use std::process::Abort;
use std::test::Fail;

// Reads into buffers of the given lengths. Each gives its text, or fails where there is none.
fn expect_reads<S: Source>(rt: &impl Abort, source: &mut S, reads: &[(usize, Option<&str>)]) {
    for (size, expected) in reads {
        let mut buffer = [b'.'; 8];
        assert!(rt; *size <= 8);
        let result = source.read(&mut buffer[..*size]);
        match expected {
            Some(text) => {
                assert_eq!(rt; result, Ok(text.len()));
                assert!(rt; text.len() <= 8);
                assert_eq!(rt; &buffer[..text.len()], text.as_bytes());
            }
            None => assert_eq!(rt; result, Err(Failed)),
        }
    }
}

// Writes the pieces. Each is taken as far as its number says, or fails where there is none.
fn expect_writes<S: Sink>(rt: &impl Abort, sink: &mut S, writes: &[(&str, Option<usize>)]) {
    for (piece, expected) in writes {
        let result = sink.write(piece.as_bytes());
        assert_eq!(rt; result, expected.ok_or(Failed), "at {piece:?}");
    }
}

#[test]
fn memory_source(rt: HostRuntime) -> Result<(), Fail> {
    let rows: [(&str, u32, &[u64], &[(usize, Option<&str>)]); 5] = [
        // Nothing to give: each call is the end.
        ("", 4, &[], &[(8, Some("")), (0, Some("")), (8, Some(""))]),
        // The buffer bounds the first read, `most` the second, what is left the third.
        (
            "hello\n",
            2,
            &[],
            &[
                (1, Some("h")),
                (8, Some("el")),
                (8, Some("lo")),
                (8, Some("\n")),
                (8, Some("")),
            ],
        ),
        // The first call and the third fail and take nothing.
        (
            "hello\n",
            4,
            &[3, 1],
            &[
                (8, None),
                (3, Some("hel")),
                (3, None),
                (8, Some("lo\n")),
                (8, Some("")),
            ],
        ),
        // No call has the number 0. A call that is to fail does so for an empty buffer and at the end too.
        (
            "ab",
            9,
            &[0, 2, 4],
            &[
                (1, Some("a")),
                (0, None),
                (8, Some("b")),
                (8, None),
                (8, Some("")),
            ],
        ),
        // An empty buffer takes nothing, and is a call.
        ("ab", 9, &[2], &[(0, Some("")), (8, None), (8, Some("ab"))]),
    ];
    for (text, most, failing, reads) in rows {
        assert!(rt; most > 0);
        let bytes = text.as_bytes().to_vec(rt.alloc())?;
        let mut source = MemorySource::new(bytes, most, failing.to_vec(rt.alloc())?);
        expect_reads(&rt, &mut source, reads);
    }
    Ok(())
}

#[test]
fn memory_sink(rt: HostRuntime) -> Result<(), Fail> {
    let rows: [(u32, u32, &[u64], &[(&str, Option<usize>)], &str); 5] = [
        // The piece bounds the first write, `most` the second, the room left the third; then it is full.
        (
            6,
            3,
            &[],
            &[
                ("h", Some(1)),
                ("ello", Some(3)),
                ("o\n!", Some(2)),
                ("!", None),
                ("", Some(0)),
            ],
            "hello\n",
        ),
        // No room at all: only the empty piece is taken.
        (0, 3, &[], &[("", Some(0)), ("a", None)], ""),
        // The fourth call fails, as an output that takes one byte a call and then breaks.
        (
            9,
            1,
            &[4],
            &[
                ("hello", Some(1)),
                ("ello", Some(1)),
                ("llo", Some(1)),
                ("lo", None),
                ("lo", Some(1)),
            ],
            "hell",
        ),
        // No call has the number 0. A call that is to fail does so for an empty piece too.
        (
            9,
            9,
            &[0, 1],
            &[("", None), ("ab", Some(2)), ("", Some(0))],
            "ab",
        ),
        // A call that finds no room is a call.
        (
            1,
            9,
            &[3],
            &[("ab", Some(1)), ("b", None), ("", None), ("", Some(0))],
            "a",
        ),
    ];
    for (room, most, failing, writes, held) in rows {
        assert!(rt; most > 0);
        let failing = failing.to_vec(rt.alloc())?;
        let mut sink = MemorySink::new(rt.alloc(), room, most, failing)?;
        expect_writes(&rt, &mut sink, writes);
        assert_eq!(rt; sink.bytes(), held.as_bytes());
    }
    Ok(())
}

// A stream of which every second call is an error.
#[derive(Drop)]
struct Stumbling<T> {
    stream: T,
    fails_next: bool,
}

impl<T> Stumbling<T> {
    fn stumbles(&mut self) -> io::Result<()> {
        let fails = self.fails_next;
        self.fails_next = !fails;
        if fails {
            return Err(io::Error::from(ErrorKind::Interrupted));
        }
        Ok(())
    }
}

impl<R: Read> Read for Stumbling<R> {
    fn read(&mut self, buffer: &mut [u8]) -> io::Result<usize> {
        self.stumbles()?;
        self.stream.read(buffer)
    }
}

impl<W: Write> Write for Stumbling<W> {
    fn write(&mut self, piece: &[u8]) -> io::Result<usize> {
        self.stumbles()?;
        self.stream.write(piece)
    }

    fn flush(&mut self) -> io::Result<()> {
        self.stream.flush()
    }
}

#[test]
fn std_source(rt: HostRuntime) {
    let text: &[u8] = b"hello\n";
    let mut source = StdSource::new(text);
    expect_reads(
        &rt,
        &mut source,
        &[
            (0, Some("")),
            (4, Some("hell")),
            (8, Some("o\n")),
            (8, Some("")),
        ],
    );
    let mut source = StdSource::new(Stumbling {
        stream: text,
        fails_next: false,
    });
    expect_reads(
        &rt,
        &mut source,
        &[
            (4, Some("hell")),
            (4, None),
            (4, Some("o\n")),
            (4, None),
            (4, Some("")),
        ],
    );
}

#[test]
fn std_sink(rt: HostRuntime) -> Result<(), Fail> {
    // A writer with room for three bytes: the fourth finds none, which is a fault.
    let mut room = [b'.'; 3];
    let mut sink = StdSink::new(&mut room[..]);
    expect_writes(
        &rt,
        &mut sink,
        &[
            ("ab", Some(2)),
            ("", Some(0)),
            ("cd", Some(1)),
            ("d", None),
            ("", Some(0)),
        ],
    );
    assert_eq!(rt; room, *b"abc");
    let mut held = Vec::new(rt.alloc());
    let mut sink = StdSink::new(Stumbling {
        stream: &mut held,
        fails_next: true,
    });
    expect_writes(
        &rt,
        &mut sink,
        &[("ab", None), ("ab", Some(2)), ("c", None), ("c", Some(1))],
    );
    assert_eq!(rt; held.as_slice(), b"abc".as_slice());
    Ok(())
}

/// More bytes than the host moves in one piece.
const LONG: usize = 200_000;

#[test]
fn std_streams_move_long_pieces(rt: HostRuntime) -> Result<(), Fail> {
    let text = vec![in rt.alloc(); b'x'; LONG]?;
    let mut buffer = vec![in rt.alloc(); b'.'; LONG]?;
    let mut source = StdSource::new(text.as_slice());
    assert_eq!(rt; source.read(&mut buffer), Ok(LONG));
    assert_eq!(rt; buffer, text);
    assert_eq!(rt; source.read(&mut buffer), Ok(0));
    let mut held = Vec::new(rt.alloc());
    let mut sink = StdSink::new(&mut held);
    assert_eq!(rt; sink.write(&text), Ok(LONG));
    assert_eq!(rt; held, text);
    Ok(())
}
