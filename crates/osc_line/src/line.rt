//! A line of a guest's text.

ghost use Rattle.std.specs.Prelude.{◌≡◌, ◌≤◌, ℕ, false, Some, IfSome, IsNone, length};
ghost use Rattle.osc_rv.specs.declared.instr.Instr.{Instr};
ghost use Rattle.osc_rv.specs.declared.instr.BranchKind.{BranchKind};
ghost use Rattle.osc_rv.specs.Instr.{FieldsFit};
ghost use Rattle.osc_text.specs.Text.{text_of};
ghost use Rattle.osc_line.specs.declared.line.Name.{Name};
ghost use Rattle.osc_line.specs.declared.line.Line.{Line};
ghost use Rattle.osc_line.specs.declared.line.Line.TheVariants as says;
ghost use Rattle.osc_line.specs.Line as spec;

use crate::mnemonic::branch_kind;
use crate::reader::read_instr;
use crate::split::{after_front, before_end, split};
use crate::words::{is_hex, is_name, numeral_below, register_after};
use osc_rv::{BranchKind, Instr};

/// A name, by its place in its line.
#[derive(Clone, Copy, PartialEq, Eq, Debug)]
pub struct Name {
    /// Where it starts, in bytes from the line's start.
    pub start: u32,
    /// How many bytes it has, 1 to 32.
    pub count: u32,
}

/// What a line says.
#[derive(Clone, Copy, PartialEq, Eq, Debug)]
pub enum Line {
    /// Nothing: the line is empty or a comment.
    Blank,
    /// `loop:`
    Bind(Name),
    /// `addi x10, x0, 7`
    Plain(Instr),
    /// `beq x10, x0, loop`
    Branch {
        kind: BranchKind,
        rs1: u8,
        rs2: u8,
        to: Name,
    },
    /// `jal x1, loop`
    Jump {
        rd: u8,
        to: Name,
    },
    /// `li x10, 74565`: the value is below 0x7FFFF800.
    Li {
        rd: u8,
        value: u32,
    },
    /// `la x10, loop`
    La {
        rd: u8,
        to: Name,
    },
    /// `lab x10, 8`: the address of a byte, by its place among the bytes, which is below 2^24.
    Lab {
        rd: u8,
        offset: u32,
    },
    /// `bytes 0aff`: where the digits start in the line, and how many there are.
    Bytes {
        start: u32,
        digits: u32,
    },
}

const LI_LIMIT: u32 = 0x7FFF_F800;

const LAB_LIMIT: u32 = 1 << 24;

/// The name that a word at the end of a line is.
fn name_at_end(line: &[u8], word: &[u8]) -> Option<Name>
    requires { (length line.now ≤ 16777216) × (length word.now ≤ length line.now) }
    ensures found { IfSome result (λ name. spec.EndsIn line.now word.now name) }
    ensures missing { IsNone result → spec.is_name word.now ≡ false }
{
    if !is_name(word) {
        return None;
    }
    Some(Name {
        start: (line.len() - word.len()) as u32,
        count: word.len() as u32,
    })
}

/// The branch to a name that a line says.
fn branch(line: &[u8]) -> Option<Line>
    requires { length line.now ≤ 16777216 }
    ensures found { IfSome result (λ said. spec.Says line.now said) }
    ensures missing { IsNone result → (kind : BranchKind) (rs1 rs2 : ℕ) (to : Name)
        → spec.Says line.now (says.Branch kind rs1 rs2 to) → ⊥ }
{
    let (name, rest) = split(b' ', line);
    let kind = branch_kind(name)?;
    let Some((rs1, rest)) = register_after(b" ", rest) else {
        return None;
    };
    let Some((rs2, word)) = register_after(b"", rest) else {
        return None;
    };
    let to = name_at_end(line, word)?;
    Some(Line::Branch { kind, rs1, rs2, to })
}

/// The jal to a name that a line says.
fn jump(line: &[u8]) -> Option<Line>
    requires { length line.now ≤ 16777216 }
    ensures found { IfSome result (λ said. spec.Says line.now said) }
    ensures missing { IsNone result → (rd : ℕ) (to : Name) → spec.Says line.now (says.Jump rd to) → ⊥ }
{
    let Some((rd, word)) = register_after(b"jal ", line) else {
        return None;
    };
    let to = name_at_end(line, word)?;
    Some(Line::Jump { rd, to })
}

/// The load of an address that a line says.
fn la(line: &[u8]) -> Option<Line>
    requires { length line.now ≤ 16777216 }
    ensures found { IfSome result (λ said. spec.Says line.now said) }
    ensures missing { IsNone result → (rd : ℕ) (to : Name) → spec.Says line.now (says.La rd to) → ⊥ }
{
    let Some((rd, word)) = register_after(b"la ", line) else {
        return None;
    };
    let to = name_at_end(line, word)?;
    Some(Line::La { rd, to })
}

/// The load of a number that a line says.
fn li(line: &[u8]) -> Option<Line>
    ensures found { IfSome result (λ said. spec.Says line.now said) }
    ensures missing { IsNone result → (rd value : ℕ) → spec.Says line.now (says.Li rd value) → ⊥ }
{
    let Some((rd, word)) = register_after(b"li ", line) else {
        return None;
    };
    let value = numeral_below(LI_LIMIT, word)?;
    Some(Line::Li { rd, value })
}

/// The load of the address of a byte that a line says.
fn lab(line: &[u8]) -> Option<Line>
    ensures found { IfSome result (λ said. spec.Says line.now said) }
    ensures missing { IsNone result → (rd offset : ℕ) → spec.Says line.now (says.Lab rd offset) → ⊥ }
{
    let Some((rd, word)) = register_after(b"lab ", line) else {
        return None;
    };
    let offset = numeral_below(LAB_LIMIT, word)?;
    Some(Line::Lab { rd, offset })
}

/// The bytes that a line says.
fn bytes(line: &[u8]) -> Option<Line>
    requires { length line.now ≤ 16777216 }
    ensures found { IfSome result (λ said. spec.Says line.now said) }
    ensures missing { IsNone result → (start digits : ℕ) → spec.Says line.now (says.Bytes start digits) → ⊥ }
{
    let word = after_front(b"bytes ", line)?;
    if !is_hex(word) {
        return None;
    }
    Some(Line::Bytes {
        start: 6,
        digits: word.len() as u32,
    })
}

/// The name that a line binds.
fn bind(line: &[u8]) -> Option<Line>
    requires { length line.now ≤ 16777216 }
    ensures found { IfSome result (λ said. spec.Says line.now said) }
    ensures missing { IsNone result → (name : Name) → spec.Says line.now (says.Bind name) → ⊥ }
{
    let word = before_end(b":", line)?;
    if !is_name(word) {
        return None;
    }
    Some(Line::Bind(Name {
        start: 0,
        count: word.len() as u32,
    }))
}

fn is_blank(line: &[u8]) -> bool
    ensures { result ≡ spec.is_blank line.now }
{
    line.is_empty() || line[0] == b'#'
}

/// What a line without its newline says, None where it is no line. A line has at most 16777216 bytes.
pub fn read_line(line: &[u8]) -> Option<Line>
    requires { length line.now ≤ 16777216 }
    ensures plain { (instr : Instr) → FieldsFit instr → text_of instr ≡ line.now → result ≡ Some (says.Plain instr) }
    ensures found { IfSome result (λ said. spec.Says line.now said) }
    ensures missing { IsNone result → (said : Line) → spec.Says line.now said → ⊥ }
{
    if let Some(instr) = read_instr(line) {
        return Some(Line::Plain(instr));
    }
    if is_blank(line) {
        return Some(Line::Blank);
    }
    if let Some(said) = bind(line) {
        return Some(said);
    }
    if let Some(said) = branch(line) {
        return Some(said);
    }
    if let Some(said) = jump(line) {
        return Some(said);
    }
    if let Some(said) = li(line) {
        return Some(said);
    }
    if let Some(said) = la(line) {
        return Some(said);
    }
    if let Some(said) = lab(line) {
        return Some(said);
    }
    bytes(line)
}
