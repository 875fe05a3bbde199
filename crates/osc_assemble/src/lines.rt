//! The lines of a text.

ghost use Rattle.std.specs.Prelude.{◌≡◌, ◌<◌, ◌≤◌, ◌∷◌, length, Ok, Err, IfOk, IfErr, MatchResult};
ghost use Rattle.osc_assemble.specs.Lines.{lines_of};
ghost use Rattle.osc_assemble.specs.Put as put;
ghost use Rattle.osc_assemble.specs.Answer as spec;

use crate::TextFault;
use crate::assembler::Assembler;
use memchr::memchr;
use osc_line::read_line;
use std::alloc::Global;

/// The longest text, in bytes.
const LONGEST_TEXT: usize = 16_777_216;

/// The first line of a text that is not empty, without its newline, and what follows that.
fn first_line(text: &[u8]) -> (&[u8], &[u8])
    requires { 0 < length text.now }
    ensures lines { lines_of text.now ≡ result.0.now ∷ lines_of result.1.now }
    ensures shorter { length result.1.now < length text.now }
    ensures length { length result.0.now ≤ length text.now }
{
    match memchr(b'\n', text) {
        Some(end) => (&text[..end], &text[end + 1..]),
        None => (text, &[]),
    }
}

/// What the lines of a text put in, or the first line that says nothing.
fn read<'t>(alloc: Global, text: &'t [u8]) -> Result<Assembler<'t>, TextFault>
    requires { length text.now ≤ 16777216 }
    ensures read { IfOk result (λ made. put.Puts 1 (lines_of text.now) put.nothing made) }
    ensures whole { IfOk result put.IsWhole }
    ensures fault { IfErr result (λ fault. spec.IsFormFault fault (lines_of text.now)) }
{
    let mut made = Assembler::new(alloc);
    let mut rest = text;
    let mut number = 0;
    while !rest.is_empty() {
        let (line, after) = first_line(rest);
        number += 1;
        let Some(said) = read_line(line) else {
            return Err(TextFault::Form { line: number });
        };
        made.put(number, line, said)?;
        rest = after;
    }
    Ok(made)
}

/// The ELF file of a text, which is that of the builder's calls of its lines in order.
///
/// Answers the first of `TextFault` that stands in the way, with the number of its line. `Memory` may
/// come at any text.
pub fn assemble(alloc: Global, text: &[u8]) -> Result<Vec<u8>, TextFault>
    ensures answer { MatchResult result (λ file. spec.Means text.now (Ok file.items)) (λ fault. spec.Refuses fault text.now) }
    ensures loads { IfOk result (λ file. spec.Loads text.now file.items) }
{
    if text.len() > LONGEST_TEXT {
        return Err(TextFault::TooLong);
    }
    let made = read(alloc, text)?;
    made.finish(alloc)
}
