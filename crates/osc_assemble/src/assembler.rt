//! What the lines of a text put in.

ghost use Rattle.std.specs.Prelude.{◌≡◌, ◌<◌, ◌≤◌, ◌+◌, ◌∷◌, [], length, take, drop, replicate, IfOk, OnOk, MatchResult, Ok};
ghost use Rattle.osc_asm.specs.declared.item.Item.TheVariants as Item;
ghost use Rattle.osc_asm.specs.Numbers.{lui_of, addi_of};
ghost use Rattle.osc_asm.specs.Loaded.{ReadsBack, AllDo};
ghost use Rattle.osc_line.specs.Line.{Says};
ghost use Rattle.osc_assemble.specs.Put as spec;
ghost use Rattle.osc_assemble.specs.Answer.{answer_of, file_fault, IsFaultOf};

use crate::TextFault;
use crate::digits::bytes_of;
use crate::names::Names;
use osc_asm::{AsmFault, Builder, LabelNo};
use osc_line::{Line, Name};
use osc_rv::{BranchKind, Instr};
use std::alloc::{AllocError, Global};
use std::marker::Model;

/// A builder with the names of its labels, and what tells the line of a fault.
#[derive(Drop)]
pub(crate) struct Assembler<'t> {
    alloc: Global,
    builder: Builder,
    names: Names<'t>,
    /// For each instruction the number of its line.
    lines: Vec<u32>,
    /// The first line that binds a name which was bound before.
    again: Option<u32>,
}

impl<'t> Model for Assembler<'t> {
    ghost use Rattle.osc_assemble.specs.Put as spec;

    ghost Value = { spec.Put };

    ghost view = { λ a. record { program = a.builder; names = a.names; lines = a.lines.items; again = a.again } };
}

/// The bytes from a place in a line on.
fn piece(line: &[u8], start: u32, count: u32) -> &[u8]
    requires { start + count ≤ length line.now }
    ensures { result.now ≡ take count (drop start line.now) }
{
    let (start, count) = (start as usize, count as usize);
    &line[start..start + count]
}

impl<'t> Assembler<'t> {
    /// Nothing was put in.
    pub(crate) fn new(alloc: Global) -> Assembler<'t>
        ensures { result ≡ spec.nothing }
    {
        Assembler {
            alloc,
            builder: Builder::new(alloc),
            names: Names::new(alloc),
            lines: Vec::new(alloc),
            again: None,
        }
    }

    /// The label of a name, which is made where the name is new.
    fn label(&mut self, name: &'t [u8]) -> Result<LabelNo, AllocError>
        ensures named { OnOk result (self.new ≡ spec.with_label_of self.old name.now) }
        ensures label { IfOk result (λ label. label ≡ spec.label_of self.old name.now) }
        ensures within { IfOk result (λ label. label < length self.new.names) }
    {
        let (label, added) = self.names.number(name)?;
        if added {
            self.builder.label()?;
        }
        Ok(label)
    }

    /// Notes the line of one more instruction.
    fn note(&mut self, number: u32) -> Result<(), AllocError>
        ensures { OnOk result (self.new ≡ spec.with_line self.old number) }
    {
        self.lines.push(number)?;
        Ok(())
    }

    fn bind(&mut self, number: u32, name: &'t [u8]) -> Result<(), AllocError>
        requires { spec.IsWhole self.old }
        ensures { OnOk result (self.new ≡ spec.with_bind number name.now self.old) }
    {
        let label = self.label(name)?;
        if self.builder.place_of(label).is_none() {
            self.builder.bind(label);
        } else if self.again.is_none() {
            self.again = Some(number);
        }
        Ok(())
    }

    fn plain(&mut self, number: u32, instr: Instr) -> Result<(), AllocError>
        ensures { OnOk result (self.new ≡ spec.with_items number (Item.Plain instr ∷ []) self.old) }
    {
        self.builder.emit(instr)?;
        self.note(number)
    }

    fn branch(
        &mut self,
        number: u32,
        kind: BranchKind,
        rs1: u8,
        rs2: u8,
        to: &'t [u8],
    ) -> Result<(), AllocError>
        requires { (rs1 < 32) × (rs2 < 32) }
        ensures { OnOk result (self.new ≡ spec.with_use number (λ label. Item.Branch kind rs1 rs2 label ∷ []) to.now self.old) }
    {
        let label = self.label(to)?;
        self.builder.branch(kind, rs1, rs2, label)?;
        self.note(number)
    }

    fn jump(&mut self, number: u32, rd: u8, to: &'t [u8]) -> Result<(), AllocError>
        requires { rd < 32 }
        ensures { OnOk result (self.new ≡ spec.with_use number (λ label. Item.Jump rd label ∷ []) to.now self.old) }
    {
        let label = self.label(to)?;
        self.builder.jump(rd, label)?;
        self.note(number)
    }

    fn li(&mut self, number: u32, rd: u8, value: u32) -> Result<(), AllocError>
        requires { (rd < 32) × (value < 2147481600) }
        ensures { OnOk result (self.new ≡ spec.with_items number
            (Item.Plain (lui_of rd value) ∷ Item.Plain (addi_of rd value) ∷ []) self.old) }
    {
        self.builder.li(rd, value)?;
        self.note(number)?;
        self.note(number)
    }

    fn la(&mut self, number: u32, rd: u8, to: &'t [u8]) -> Result<(), AllocError>
        requires { rd < 32 }
        ensures { OnOk result (self.new ≡ spec.with_use number
            (λ label. Item.LabelHigh rd label ∷ Item.LabelLow rd label ∷ []) to.now self.old) }
    {
        let label = self.label(to)?;
        self.builder.la(rd, label)?;
        self.note(number)?;
        self.note(number)
    }

    fn lab(&mut self, number: u32, rd: u8, offset: u32) -> Result<(), AllocError>
        requires { (rd < 32) × (offset < 16777216) }
        ensures { OnOk result (self.new ≡ spec.with_items number
            (Item.BytesHigh rd offset ∷ Item.BytesLow rd offset ∷ []) self.old) }
    {
        self.builder.la_bytes(rd, offset)?;
        self.note(number)?;
        self.note(number)
    }

    fn bytes(&mut self, digits: &[u8]) -> Result<(), AllocError>
        ensures { OnOk result (self.new ≡ spec.with_digits digits.now self.old) }
    {
        let bytes = bytes_of(self.alloc, digits)?;
        self.builder.bytes(&bytes)
    }

    /// Puts in what a line of a number says.
    pub(crate) fn put(&mut self, number: u32, line: &'t [u8], said: Line) -> Result<(), AllocError>
        requires whole { spec.IsWhole self.old }
        requires says { Says line.now said }
        ensures { OnOk result (self.new ≡ spec.with_said number line.now said self.old) }
    {
        match said {
            Line::Blank => Ok(()),
            Line::Bind(name) => self.bind(number, word(line, name)),
            Line::Plain(instr) => self.plain(number, instr),
            Line::Branch { kind, rs1, rs2, to } => self.branch(
                number,
                kind,
                rs1,
                rs2,
                word(line, to),
            ),
            Line::Jump { rd, to } => self.jump(number, rd, word(line, to)),
            Line::Li { rd, value } => self.li(number, rd, value),
            Line::La { rd, to } => self.la(number, rd, word(line, to)),
            Line::Lab { rd, offset } => self.lab(number, rd, offset),
            Line::Bytes { start, digits } => self.bytes(piece(line, start, digits)),
        }
    }

    /// The file of what was put in, or the first fault.
    pub(crate) fn finish(&self, alloc: Global) -> Result<Vec<u8>, TextFault>
        requires { spec.IsWhole self.now }
        ensures answer { MatchResult result (λ file. answer_of self.now ≡ Ok file.items) (λ fault. IsFaultOf fault (answer_of self.now)) }
        ensures reads_back { IfOk result (λ file. ReadsBack self.now.program file.items) }
        ensures does { OnOk result (AllDo self.now.program) }
    {
        if let Some(line) = self.again {
            return Err(TextFault::Bound { line });
        }
        if let Some(used) = self.builder.unbound_use() {
            return Err(TextFault::Label {
                line: self.lines[used.index],
            });
        }
        if let Some(used) = self.builder.far_use() {
            return Err(TextFault::Far {
                line: self.lines[used.index],
            });
        }
        match self.builder.finish(alloc) {
            Ok(file) => Ok(file),
            Err(fault) => Err(file_fault(fault)),
        }
    }
}

/// What a fault of a file is, once labels and offsets were looked at.
fn file_fault(fault: AsmFault) -> TextFault
    ensures { result ≡ file_fault fault }
{
    match fault {
        AsmFault::TooLong => TextFault::FileTooLong,
        AsmFault::Label(_) => TextFault::Memory,
        AsmFault::Far(_) => TextFault::Memory,
        AsmFault::Memory => TextFault::Memory,
    }
}

/// The name at its place in a line.
fn word(line: &[u8], name: Name) -> &[u8]
    requires { name.start + name.count ≤ length line.now }
    ensures { result.now ≡ spec.word line.now name }
{
    piece(line, name.start, name.count)
}
