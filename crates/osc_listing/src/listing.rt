//! Lines of words, of pages, and of an image.

ghost use Rattle.std.specs.Prelude.{◌≡◌, ◌+◌, ◌<◌, ◌≤◌, ◌++◌, length, slice_index, IfOk, OnOk};
ghost use Rattle.osc_listing.specs.Listing as spec;

use bitflags::Flags;
use osc_elf::Image;
use osc_report::LineBuf;
use osc_rv::decode;
use osc_sv39::PteBits;
use osc_text::{TextBuf, print_instr};
use std::alloc::{AllocError, Global};

/// The bytes of a page.
const PAGE: usize = 4096;

/// The words of a page.
const WORDS: usize = 1024;

/// The pages below 4 GiB.
const PAGES: u64 = 1_048_576;

/// Whether a page, an address divided by 4096, can be executed.
fn is_code(image: &Image, page: u64) -> bool
    ensures { result ≡ spec.is_code image.now page }
{
    match image.page_bits(page) {
        Some(bits) => bits.contains(PteBits::X),
        None => false,
    }
}

/// The word at a place among bytes, of which the lowest comes first.
fn word_in(bytes: &[u8], at: usize) -> u32
    requires { at + 3 < length bytes.now }
    ensures { result ≡ spec.word_of (slice_index bytes.now at) (slice_index bytes.now (at + 1))
        (slice_index bytes.now (at + 2)) (slice_index bytes.now (at + 3)) }
{
    u32::from(bytes[at])
        + 256 * u32::from(bytes[at + 1])
        + 65536 * u32::from(bytes[at + 2])
        + 16_777_216 * u32::from(bytes[at + 3])
}

/// Appends the instruction that a word is, or its number.
fn append_word(word: u32, into: &mut LineBuf)
    requires room { length into.old ≤ 64 }
    ensures after { into.new ≡ into.old ++ spec.word_text word }
    ensures length { length into.new ≤ length into.old + 64 }
{
    match decode(word) {
        Some(instr) => {
            let mut text = TextBuf::new();
            print_instr(&instr, &mut text);
            into.text(text.as_bytes());
        }
        None => into.hexadecimal(b"word 0x", u64::from(word)),
    }
}

/// The line of a word. It replaces what the buffer held.
fn write_line(address: u64, word: u32, into: &mut LineBuf)
    ensures { into.new ≡ spec.line_text address word }
{
    into.clear();
    into.hexadecimal(b"0x", address);
    into.text(b" ");
    append_word(word, into);
    into.text(b"\n");
}

/// Appends the line of a word, which is written in `line`.
fn append_line(
    address: u64,
    word: u32,
    line: &mut LineBuf,
    text: &mut Vec<u8>,
) -> Result<(), AllocError>
    ensures { OnOk result (text.new.items ≡ text.old.items ++ spec.line_text address word) }
{
    write_line(address, word, line);
    text.extend_from_slice(line.as_bytes())?;
    Ok(())
}

/// Appends the lines of a page, an address below 2^32 divided by 4096.
fn list_page(image: &Image, page: u64, text: &mut Vec<u8>) -> Result<(), AllocError>
    requires { page < 1048576 }
    ensures { OnOk result (text.new.items ≡ text.old.items ++ spec.page_text image.now page) }
{
    let mut bytes = [0; PAGE];
    image.page_bytes(page, &mut bytes);
    let mut line = LineBuf::new();
    for index in 0..WORDS {
        let at = 4 * index;
        let address = PAGE as u64 * page + at as u64;
        append_line(address, word_in(&bytes, at), &mut line, text)?;
    }
    Ok(())
}

/// The listing of an image. For each of its executable pages, ascending, and each of their 1024 words it
/// has a line: the address, and the instruction in its one spelling, or the word's number where it is no
/// instruction of RV64IMA with `fence.i`.
#[tactic(auto, using(crate::proofs::Lines::page_steps))]
pub fn listing_of(alloc: Global, image: &Image) -> Result<Vec<u8>, AllocError>
    ensures { IfOk result (λ text. text.items ≡ spec.listing image.now) }
{
    let mut text = Vec::new(alloc);
    for page in 0..PAGES {
        if is_code(image, page) {
            list_page(image, page, &mut text)?;
        }
    }
    Ok(text)
}
