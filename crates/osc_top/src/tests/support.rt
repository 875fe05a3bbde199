//! Images and runs for the tests beside.

use crate::{Status, oscar};
use osc_outside::{MemorySink, MemorySource};
use std::alloc::{AllocError, Global};
use std::process::Abort;
use std::test::Fail;

/// Where data stands: the page after the first one of the code.
pub const DATA: u64 = 0x11000;

/// Adds 8 bytes of a number.
fn push_long(file: &mut Vec<u8>, number: u64) -> Result<(), AllocError> {
    file.extend_from_slice(&number.to_le_bytes())
}

/// A segment of an image, whose bytes stand in the file at their address less 0xF000.
#[derive(Clone, Copy)]
pub struct Segment<'a> {
    pub flags: u8,
    pub address: u64,
    pub bytes: &'a [u8],
    /// Its size in memory, in bytes.
    pub size: u64,
}

fn push_header(file: &mut Vec<u8>, segment: &Segment) -> Result<(), AllocError> {
    file.extend_from_slice(&[1, 0, 0, 0, segment.flags, 0, 0, 0])?;
    push_long(file, segment.address.saturating_sub(0xF000))?;
    push_long(file, segment.address)?;
    push_long(file, 0)?;
    push_long(file, segment.bytes.len() as u64)?;
    push_long(file, segment.size)?;
    push_long(file, 4096)
}

/// The file of an image that begins at 0x10000 (System V ABI, "ELF Header" and "Program Header").
pub fn file_of(alloc: Global, segments: &[Segment]) -> Result<Vec<u8>, AllocError> {
    let mut file = Vec::from_slice(alloc, &[0x7f, b'E', b'L', b'F', 2, 1, 1])?;
    file.resize(16, 0)?;
    file.extend_from_slice(&[2, 0, 243, 0, 1, 0, 0, 0])?;
    push_long(&mut file, 0x10000)?;
    push_long(&mut file, 64)?;
    push_long(&mut file, 0)?;
    file.extend_from_slice(&[
        0,
        0,
        0,
        0,
        64,
        0,
        56,
        0,
        (segments.len() & 0xFF) as u8,
        0,
        0,
        0,
        0,
        0,
        0,
        0,
    ])?;
    for segment in segments {
        push_header(&mut file, segment)?;
    }
    for segment in segments {
        file.resize(segment.address.saturating_sub(0xF000) as usize, 0)?;
        file.extend_from_slice(segment.bytes)?;
    }
    Ok(file)
}

/// The bytes of instruction words.
pub fn bytes_of(alloc: Global, code: &[u32]) -> Result<Vec<u8>, AllocError> {
    let mut bytes = Vec::new(alloc);
    for word in code {
        bytes.extend_from_slice(&word.to_le_bytes())?;
    }
    Ok(bytes)
}

/// The file of code at 0x10000, with data at `DATA` where it has a size.
pub fn guest(alloc: Global, code: &[u32], data: &[u8], size: u64) -> Result<Vec<u8>, AllocError> {
    let bytes = bytes_of(alloc, code)?;
    let text = Segment {
        flags: 5,
        address: 0x10000,
        bytes: &bytes,
        size: bytes.len() as u64,
    };
    let written = Segment {
        flags: 6,
        address: DATA,
        bytes: data,
        size,
    };
    if size == 0 {
        file_of(alloc, &[text])
    } else {
        file_of(alloc, &[text, written])
    }
}

/// What a call answered and wrote.
#[derive(Drop)]
pub struct Answer {
    pub status: Status,
    pub out: MemorySink,
    pub err: MemorySink,
}

/// How the outside behaves: the most bytes of a read and a write, and the calls that fail.
#[derive(Clone, Copy)]
pub struct Outside<'a> {
    pub most: u32,
    pub source_fails: &'a [u64],
    pub out_fails: &'a [u64],
    pub err_fails: &'a [u64],
}

pub const WELL: Outside<'static> = Outside {
    most: 65536,
    source_fails: &[],
    out_fails: &[],
    err_fails: &[],
};

/// Runs a file by the words of a line.
pub fn run_on(
    alloc: Global,
    line: &str,
    file: Vec<u8>,
    outside: Outside,
) -> Result<Answer, AllocError> {
    let words: Vec<&str> = line.split(' ').collect(alloc)?;
    let most = outside.most.max(1);
    let mut source = MemorySource::new(file, most, Vec::from_slice(alloc, outside.source_fails)?);
    let mut out = MemorySink::new(
        alloc,
        4_194_304,
        most,
        Vec::from_slice(alloc, outside.out_fails)?,
    )?;
    let mut err = MemorySink::new(
        alloc,
        65536,
        most,
        Vec::from_slice(alloc, outside.err_fails)?,
    )?;
    let status = oscar(alloc, words.as_slice(), &mut source, &mut out, &mut err);
    Ok(Answer { status, out, err })
}

/// How the text on err is compared with what is wanted.
#[derive(Clone, Copy)]
pub enum Match {
    /// It is this text and no other.
    Whole,
    /// It begins with this text.
    Front,
    /// It ends with this text.
    End,
    /// It has this text somewhere.
    Part,
}

/// A guest, the words with which it runs, and what is wanted of it.
#[derive(Clone, Copy)]
pub struct Row<'a> {
    pub line: &'a str,
    pub code: &'a [u32],
    pub data: &'a [u8],
    pub status: u8,
    pub out: &'a [u8],
    pub err: &'a str,
    pub matched: Match,
}

/// Whether a text holds another one.
fn holds(text: &[u8], part: &[u8]) -> bool {
    for at in 0..text.len() {
        if text[at..].starts_with(part) {
            return true;
        }
    }
    false
}

fn is_wanted(err: &[u8], wanted: &str, matched: Match) -> bool {
    match matched {
        Match::Whole => err == wanted.as_bytes(),
        Match::Front => err.starts_with(wanted.as_bytes()),
        Match::End => err.ends_with(wanted.as_bytes()),
        Match::Part => holds(err, wanted.as_bytes()),
    }
}

/// Runs each guest, and wants what its row says.
pub fn check_rows(rt: &impl Abort, alloc: Global, rows: &[Row]) -> Result<(), Fail> {
    for row in rows {
        let file = guest(alloc, row.code, row.data, row.data.len() as u64)?;
        let given = run_on(alloc, row.line, file, WELL)?;
        let line = row.line;
        assert!(rt;
            is_wanted(given.err.bytes(), row.err, row.matched),
            "{line}: err"
        );
        assert_eq!(rt; given.status, Status(row.status), "{line}");
        assert_eq!(rt; given.out.bytes(), row.out, "{line}");
    }
    Ok(())
}
