//! The builder: what was put in, where it stands, and the file of it.

ghost use Rattle.std.specs.Prelude.{◌≡◌, ◌+◌, ◌*◌, ◌<◌, ◌≤◌, ◌^◌, ◌++◌, ◌∷◌, [], length, is_ok, if◌then◌else◌, slice_get, None, Some, MatchResult, OnOk, IfOk, IfSome, IsTrue};
ghost use Rattle.osc_asm.specs.Program as program;
ghost use Rattle.osc_asm.specs.Numbers as numbers;
ghost use Rattle.osc_asm.specs.Layout as layout;
ghost use Rattle.osc_asm.specs.File as spec;
ghost use Rattle.osc_asm.specs.Answer.{Refuses};
ghost use Rattle.osc_asm.specs.Loaded.{ReadsBack, AllDo};

use crate::header::{
    CODE_ADDRESS, CODE_PLACE, PAGE, READ_EXECUTE, READ_WRITE, file_header, lay, load_header,
    push_fields, push_word,
};
use crate::item::{Item, LabelUse};
use crate::numbers::{addi, branch_field, jal_field, lui, register};
use crate::{AsmFault, LabelNo};
use osc_rv::{BranchKind, Instr, encode};
use std::alloc::{AllocError, Global};
use std::marker::Model;

/// The longest file, in bytes.
const LONGEST_FILE: u128 = 16_777_216;

/// Instructions, labels and bytes of a program.
///
/// A label may be used before it is bound, and before it is made. A call that answers `AllocError`
/// leaves the builder as it was.
#[derive(Drop)]
pub struct Builder {
    code: Vec<Item>,
    /// For each label the index of the instruction at which it stands, None before it is bound.
    labels: Vec<Option<usize>>,
    bytes: Vec<u8>,
}

impl Model for Builder {
    ghost use Rattle.std.specs.Prelude.{length};
    ghost use Rattle.osc_asm.specs.Program as program;

    ghost Value = { program.Program };

    ghost use Rattle.osc_asm.specs.Layout.{BoundInside};

    ghost view = { λ b. record { code = b.code.items; labels = b.labels.items; bytes = b.bytes.items } };

    ghost invariant = { λ b. BoundInside b.labels.items (length b.code.items) };
}

impl Builder {
    /// A builder with no code, no bytes and no label.
    pub fn new(alloc: Global) -> Builder
        ensures { result ≡ program.empty }
    {
        Builder {
            code: Vec::new(alloc),
            labels: Vec::new(alloc),
            bytes: Vec::new(alloc),
        }
    }

    /// A new label, which is not bound. Labels are numbered from 0, and there are at most 2^32.
    pub fn label(&mut self) -> Result<LabelNo, AllocError>
        ensures { MatchResult result
            (λ label. (label ≡ length self.old.labels) × (self.new ≡ program.with_label self.old))
            (λ _. self.new ≡ self.old) }
    {
        let Ok(label) = LabelNo::try_from(self.labels.len()) else {
            return Err(AllocError);
        };
        self.labels.push(None)?;
        Ok(label)
    }

    /// The label, which was made here and is not bound, stands at the next instruction.
    pub fn bind(&mut self, label: LabelNo)
        requires { slice_get self.old.labels label ≡ Some None }
        ensures { self.new ≡ program.with_bound self.old label }
    {
        self.labels[label as usize] = Some(self.code.len());
    }

    /// Appends an instruction.
    pub fn emit(&mut self, instr: Instr) -> Result<(), AllocError>
        ensures { self.new ≡ (if is_ok result then program.with_code self.old (Item.Plain instr ∷ []) else self.old) }
    {
        self.append(&[Item::Plain(instr)])
    }

    /// Appends a branch to a label. Registers are below 32.
    pub fn branch(
        &mut self,
        kind: BranchKind,
        rs1: u8,
        rs2: u8,
        to: LabelNo,
    ) -> Result<(), AllocError>
        requires { (rs1 < 32) × (rs2 < 32) }
        ensures { self.new ≡ (if is_ok result then program.with_code self.old (Item.Branch kind rs1 rs2 to ∷ []) else self.old) }
    {
        let (rs1, rs2) = (register(rs1), register(rs2));
        self.append(&[Item::Branch { kind, rs1, rs2, to }])
    }

    /// Appends a jal to a label. The register is below 32.
    pub fn jump(&mut self, rd: u8, to: LabelNo) -> Result<(), AllocError>
        requires { rd < 32 }
        ensures { self.new ≡ (if is_ok result then program.with_code self.old (Item.Jump rd to ∷ []) else self.old) }
    {
        let rd = register(rd);
        self.append(&[Item::Jump { rd, to }])
    }

    /// Appends lui and addi that give a value below 0x7FFF_F800. The register is below 32.
    pub fn li(&mut self, rd: u8, value: u32) -> Result<(), AllocError>
        requires register { rd < 32 }
        requires value { value < 2147481600 }
        ensures appended { self.new ≡ (if is_ok result
            then program.with_code self.old (Item.Plain (numbers.lui_of rd value) ∷ Item.Plain (numbers.addi_of rd value) ∷ [])
            else self.old) }
        ensures gives { numbers.Loads rd value }
    {
        let (rd, number) = (register(rd), u128::from(value));
        self.append(&[Item::Plain(lui(rd, number)), Item::Plain(addi(rd, number))])
    }

    /// Appends lui and addi that give the address of a label. The register is below 32.
    pub fn la(&mut self, rd: u8, to: LabelNo) -> Result<(), AllocError>
        requires { rd < 32 }
        ensures { self.new ≡ (if is_ok result
            then program.with_code self.old (Item.LabelHigh rd to ∷ Item.LabelLow rd to ∷ [])
            else self.old) }
    {
        let rd = register(rd);
        self.append(&[Item::LabelHigh { rd, to }, Item::LabelLow { rd, to }])
    }

    /// Appends lui and addi that give the address `offset` bytes past the start of the bytes. The
    /// register is below 32, the offset below 16777216.
    pub fn la_bytes(&mut self, rd: u8, offset: u32) -> Result<(), AllocError>
        requires register { rd < 32 }
        requires offset { offset < 16777216 }
        ensures { self.new ≡ (if is_ok result
            then program.with_code self.old (Item.BytesHigh rd offset ∷ Item.BytesLow rd offset ∷ [])
            else self.old) }
    {
        let rd = register(rd);
        self.append(&[
            Item::BytesHigh { rd, offset },
            Item::BytesLow { rd, offset },
        ])
    }

    /// Appends a piece to the bytes.
    pub fn bytes(&mut self, piece: &[u8]) -> Result<(), AllocError>
        ensures { self.new ≡ (if is_ok result then program.with_bytes self.old piece.now else self.old) }
    {
        self.bytes.extend_from_slice(piece)
    }

    fn append(&mut self, items: &[Item]) -> Result<(), AllocError>
        ensures { self.new ≡ (if is_ok result then program.with_code self.old items.now else self.old) }
    {
        self.code.extend_from_slice(items)
    }

    /// Whether a label was made here and is not bound.
    #[cfg(test)]
    pub(crate) fn is_free(&self, label: LabelNo) -> bool
        ensures { IsTrue result → slice_get self.now.labels label ≡ Some None }
    {
        match self.labels.get(label as usize).copied() {
            Some(None) => true,
            _ => false,
        }
    }

    /// The index of the instruction at which a label stands, None where it is not bound.
    pub fn place_of(&self, label: LabelNo) -> Option<usize>
        ensures { result ≡ program.place_of self.now label }
    {
        self.labels.get(label as usize).copied().flatten()
    }

    /// The address of a label, 0 where it is not bound.
    fn label_address(&self, label: LabelNo) -> u128
        ensures value { result ≡ layout.label_address self.now label }
        ensures bound { result < 2 ^ 127 }
    {
        self.place_of(label).map_or(0, address)
    }

    /// The address of the first byte.
    fn bytes_address(&self) -> u128
        ensures value { result ≡ layout.bytes_address self.now }
        ensures bound { result < 2 ^ 126 }
    {
        address(self.code.len()).div_ceil(u128::from(PAGE)) * u128::from(PAGE)
    }

    /// Where the first byte stands in the file.
    fn bytes_place(&self) -> u128
        ensures value { result ≡ spec.file_place (layout.bytes_address self.now) }
        ensures bound { result < 2 ^ 126 }
    {
        self.bytes_address() - u128::from(CODE_ADDRESS) + u128::from(CODE_PLACE)
    }

    /// The instruction of an item at an index.
    fn instr_at(&self, index: usize, item: &Item) -> Instr
        ensures { result ≡ layout.instr_at self.now index item.now }
    {
        match *item {
            Item::Plain(instr) => instr,
            Item::Branch { kind, rs1, rs2, to } => {
                Instr::Branch {
                    kind,
                    rs1,
                    rs2,
                    half: branch_field(address(index), self.label_address(to)),
                }
            }
            Item::Jump { rd, to } => {
                Instr::Jal {
                    rd,
                    half: jal_field(address(index), self.label_address(to)),
                }
            }
            Item::LabelHigh { rd, to } => lui(rd, self.label_address(to)),
            Item::LabelLow { rd, to } => addi(rd, self.label_address(to)),
            Item::BytesHigh { rd, offset } => lui(rd, self.bytes_address() + u128::from(offset)),
            Item::BytesLow { rd, offset } => addi(rd, self.bytes_address() + u128::from(offset)),
        }
    }

    /// The first use of a label that is not bound, None where each label that is used is bound.
    #[tactic(auto, using(crate::proofs::Places::uses_steps))]
    pub fn unbound_use(&self) -> Option<LabelUse>
        ensures first { result ≡ layout.unbound_use self.now }
        ensures inside { IfSome result (λ used. used.index < length self.now.code) }
    {
        for (index, item) in self.code.iter().enumerate() {
            if let Some(used) = item.label_use(index) {
                if self.place_of(used.label).is_none() {
                    return Some(used);
                }
            }
        }
        None
    }

    fn is_far(&self, used: &LabelUse) -> bool
        ensures { result ≡ layout.is_far self.now used.now }
    {
        match used.reach {
            Some(reach) => !is_near(reach, address(used.index), self.label_address(used.label)),
            None => false,
        }
    }

    /// The first branch or jal whose offset its format cannot hold, None where there is none.
    #[tactic(auto, using(crate::proofs::Places::uses_steps))]
    pub fn far_use(&self) -> Option<LabelUse>
        ensures first { result ≡ layout.far_use self.now }
        ensures inside { IfSome result (λ used. used.index < length self.now.code) }
    {
        for (index, item) in self.code.iter().enumerate() {
            if let Some(used) = item.label_use(index) {
                if self.is_far(&used) {
                    return Some(used);
                }
            }
        }
        None
    }

    /// The bytes of the file.
    #[tactic(auto, using(crate::proofs::Laying::sizes))]
    fn file_size(&self) -> u128
        ensures value { result ≡ length (spec.file self.now) }
        ensures inside { layout.BoundInside self.now.labels (length self.now.code) }
    {
        let (code, bytes) = (self.code.len() as u128, self.bytes.len() as u128);
        if bytes > 0 {
            self.bytes_place() + bytes
        } else if code > 0 {
            u128::from(CODE_PLACE) + 4 * code
        } else {
            120
        }
    }

    /// The bytes of the instructions.
    fn code_bytes(&self, alloc: Global) -> Result<Vec<u8>, AllocError>
        ensures { IfOk result (λ code. code.items ≡ spec.code_bytes self.now) }
    {
        let mut code = Vec::new(alloc);
        for (index, item) in self.code.iter().enumerate() {
            push_word(&mut code, encode(&self.instr_at(index, item)))?;
        }
        Ok(code)
    }

    /// Appends the headers.
    fn push_headers(&self, file: &mut Vec<u8>) -> Result<(), AllocError>
        requires code { length self.now.code ≤ 4194304 }
        requires bytes { length self.now.bytes ≤ 16777216 }
        ensures { OnOk result (file.new.items ≡ file.old.items ++ spec.fields_bytes (spec.headers (spec.segments self.now))) }
    {
        let code_size = 4 * self.code.len() as u64;
        let code = load_header(READ_EXECUTE, CODE_ADDRESS, code_size, code_size);
        if self.bytes.is_empty() {
            push_fields(file, &file_header(1))?;
            push_fields(file, &code)?;
            return Ok(());
        }
        push_fields(file, &file_header(2))?;
        push_fields(file, &code)?;
        let bytes_size = self.bytes.len() as u64;
        let start = self.bytes_address() as u64;
        let bytes = load_header(READ_WRITE, start, bytes_size, bytes_size);
        push_fields(file, &bytes)?;
        Ok(())
    }

    /// What stands in the way of a file, the first of `AsmFault`.
    fn check(&self) -> Result<(), AsmFault>
        ensures first { MatchResult result (λ _. spec.fault_of self.now ≡ None) (λ fault. spec.fault_of self.now ≡ Some fault) }
        ensures short { OnOk result (length (spec.file self.now) ≤ 16777216) }
        ensures inside { OnOk result (layout.BoundInside self.now.labels (length self.now.code)) }
    {
        if let Some(used) = self.unbound_use() {
            return Err(AsmFault::Label(used.label));
        }
        if let Some(used) = self.far_use() {
            return Err(AsmFault::Far(used.label));
        }
        if self.file_size() > LONGEST_FILE {
            return Err(AsmFault::TooLong);
        }
        Ok(())
    }

    /// The file of a program that nothing stands in the way of.
    fn write(&self, alloc: Global) -> Result<Vec<u8>, AllocError>
        requires { length (spec.file self.now) ≤ 16777216 }
        ensures file { IfOk result (λ file. file.items ≡ spec.file self.now) }
        ensures reads_back { IfOk result (λ file. ReadsBack self.now file.items) }
    {
        let code = self.code_bytes(alloc)?;
        let mut file = Vec::new(alloc);
        self.push_headers(&mut file)?;
        lay(&mut file, CODE_PLACE as usize, &code)?;
        lay(&mut file, self.bytes_place() as usize, &self.bytes)?;
        Ok(file)
    }

    /// The ELF file of what was put in. Where there is an instruction, the file loads exactly that,
    /// and each branch, jal and address goes to where its label or byte stands. The code's part of
    /// the file begins at byte 4096, and that of the bytes at their address less 0xF000.
    ///
    /// Answers the first of `AsmFault` that stands in the way: `Label` for the first use of a label
    /// that is not bound, `Far` for the first branch whose offset is not from -4096 to 4095, or jal
    /// whose offset is not from -1048576 to 1048575, and `TooLong` for a file of more than 16777216
    /// bytes. `Memory` may come at any program.
    #[tactic(auto, unfolding(crate::specs::File::file_of))]
    pub fn finish(&self, alloc: Global) -> Result<Vec<u8>, AsmFault>
        ensures file { MatchResult result
            (λ file. spec.file_of self.now ≡ Ok file.items)
            (λ fault. Refuses fault (spec.file_of self.now)) }
        ensures reads_back { IfOk result (λ file. ReadsBack self.now file.items) }
        ensures does { OnOk result (AllDo self.now) }
    {
        self.check()?;
        Ok(self.write(alloc)?)
    }
}

/// The address of the instruction of an index.
fn address(index: usize) -> u128
    ensures value { result ≡ layout.address index }
    ensures bound { result < 2 ^ 67 }
{
    u128::from(CODE_ADDRESS) + 4 * index as u128
}

/// Whether the offset from one address to another is at least -reach and below reach.
fn is_near(reach: u32, from: u128, to: u128) -> bool
    requires { (from < 2 ^ 127) × (to < 2 ^ 127) }
    ensures { result ≡ layout.is_near reach from to }
{
    let reach = u128::from(reach);
    from <= to + reach && to < from + reach
}
