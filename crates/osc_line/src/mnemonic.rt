//! The mnemonic of a name.

ghost use Rattle.std.specs.Prelude.{◌≡◌, ◌≢◌, ◌++◌, true, IfSome, IsNone};
ghost use Rattle.osc_text.specs.Names as names;
ghost use Rattle.osc_line.specs.Named.{Named};
ghost use Rattle.osc_text.specs.declared.spelling.Mnemonic.{Mnemonic};
ghost use Rattle.osc_line.specs.declared.mnemonic.Stem.{Stem};
ghost use Rattle.osc_line.specs.declared.mnemonic.Ending.{Ending};
ghost use Rattle.osc_line.specs.Parts as parts;

use crate::split::split;
use osc_rv::{
    AmoOp, BranchKind, ImmOp, LoadKind, MulOp, RegOp, ShiftOp, StoreKind, UpperOp, Width,
};
use osc_text::Mnemonic;

fn upper_op(name: &[u8]) -> Option<UpperOp>
    ensures { Named names.upper_name name.now result }
{
    match name {
        b"lui" => Some(UpperOp::Lui),
        b"auipc" => Some(UpperOp::Auipc),
        _ => None,
    }
}

pub(crate) fn branch_kind(name: &[u8]) -> Option<BranchKind>
    ensures { Named names.branch_name name.now result }
{
    match name {
        b"beq" => Some(BranchKind::Beq),
        b"bne" => Some(BranchKind::Bne),
        b"blt" => Some(BranchKind::Blt),
        b"bge" => Some(BranchKind::Bge),
        b"bltu" => Some(BranchKind::Bltu),
        b"bgeu" => Some(BranchKind::Bgeu),
        _ => None,
    }
}

fn load_kind(name: &[u8]) -> Option<LoadKind>
    ensures { Named names.load_name name.now result }
{
    match name {
        b"lb" => Some(LoadKind::Lb),
        b"lh" => Some(LoadKind::Lh),
        b"lw" => Some(LoadKind::Lw),
        b"ld" => Some(LoadKind::Ld),
        b"lbu" => Some(LoadKind::Lbu),
        b"lhu" => Some(LoadKind::Lhu),
        b"lwu" => Some(LoadKind::Lwu),
        _ => None,
    }
}

fn store_kind(name: &[u8]) -> Option<StoreKind>
    ensures { Named names.store_name name.now result }
{
    match name {
        b"sb" => Some(StoreKind::Sb),
        b"sh" => Some(StoreKind::Sh),
        b"sw" => Some(StoreKind::Sw),
        b"sd" => Some(StoreKind::Sd),
        _ => None,
    }
}

fn imm_op(name: &[u8]) -> Option<ImmOp>
    ensures { Named names.imm_name name.now result }
{
    match name {
        b"addi" => Some(ImmOp::Addi),
        b"slti" => Some(ImmOp::Slti),
        b"sltiu" => Some(ImmOp::Sltiu),
        b"xori" => Some(ImmOp::Xori),
        b"ori" => Some(ImmOp::Ori),
        b"andi" => Some(ImmOp::Andi),
        b"addiw" => Some(ImmOp::Addiw),
        _ => None,
    }
}

fn shift_op(name: &[u8]) -> Option<ShiftOp>
    ensures { Named names.shift_name name.now result }
{
    match name {
        b"slli" => Some(ShiftOp::Left),
        b"srli" => Some(ShiftOp::Right),
        b"srai" => Some(ShiftOp::Signed),
        _ => None,
    }
}

fn shift_w_op(name: &[u8]) -> Option<ShiftOp>
    ensures { Named names.shift_w_name name.now result }
{
    match name {
        b"slliw" => Some(ShiftOp::Left),
        b"srliw" => Some(ShiftOp::Right),
        b"sraiw" => Some(ShiftOp::Signed),
        _ => None,
    }
}

fn reg_op(name: &[u8]) -> Option<RegOp>
    ensures { Named names.reg_name name.now result }
{
    match name {
        b"add" => Some(RegOp::Add),
        b"sub" => Some(RegOp::Sub),
        b"sll" => Some(RegOp::Sll),
        b"slt" => Some(RegOp::Slt),
        b"sltu" => Some(RegOp::Sltu),
        b"xor" => Some(RegOp::Xor),
        b"srl" => Some(RegOp::Srl),
        b"sra" => Some(RegOp::Sra),
        b"or" => Some(RegOp::Or),
        b"and" => Some(RegOp::And),
        b"addw" => Some(RegOp::Addw),
        b"subw" => Some(RegOp::Subw),
        b"sllw" => Some(RegOp::Sllw),
        b"srlw" => Some(RegOp::Srlw),
        b"sraw" => Some(RegOp::Sraw),
        _ => None,
    }
}

fn mul_op(name: &[u8]) -> Option<MulOp>
    ensures { Named names.mul_name name.now result }
{
    match name {
        b"mul" => Some(MulOp::Mul),
        b"mulh" => Some(MulOp::Mulh),
        b"mulhsu" => Some(MulOp::Mulhsu),
        b"mulhu" => Some(MulOp::Mulhu),
        b"div" => Some(MulOp::Div),
        b"divu" => Some(MulOp::Divu),
        b"rem" => Some(MulOp::Rem),
        b"remu" => Some(MulOp::Remu),
        b"mulw" => Some(MulOp::Mulw),
        b"divw" => Some(MulOp::Divw),
        b"divuw" => Some(MulOp::Divuw),
        b"remw" => Some(MulOp::Remw),
        b"remuw" => Some(MulOp::Remuw),
        _ => None,
    }
}

fn amo_op(name: &[u8]) -> Option<AmoOp>
    ensures { Named names.amo_name name.now result }
{
    match name {
        b"amoadd" => Some(AmoOp::Add),
        b"amoswap" => Some(AmoOp::Swap),
        b"amoxor" => Some(AmoOp::Xor),
        b"amoor" => Some(AmoOp::Or),
        b"amoand" => Some(AmoOp::And),
        b"amomin" => Some(AmoOp::Min),
        b"amomax" => Some(AmoOp::Max),
        b"amominu" => Some(AmoOp::Minu),
        b"amomaxu" => Some(AmoOp::Maxu),
        _ => None,
    }
}

/// The end of an atomic access's name: its width, and the bits that order it.
#[derive(Clone, Copy, PartialEq, Eq, Debug)]
pub(crate) struct Ending {
    width: Width,
    aq: bool,
    rl: bool,
}

impl Ending {
    fn new(width: Width, aq: bool, rl: bool) -> Ending
        ensures { result ≡ record { width = width; aq = aq; rl = rl } }
    {
        Ending { width, aq, rl }
    }

    /// The ending that a text is.
    fn named(name: &[u8]) -> Option<Ending>
        ensures { Named parts.ending_name name.now result }
    {
        match name {
            b".w" => Some(Ending::new(Width::W, false, false)),
            b".w.aq" => Some(Ending::new(Width::W, true, false)),
            b".w.rl" => Some(Ending::new(Width::W, false, true)),
            b".w.aqrl" => Some(Ending::new(Width::W, true, true)),
            b".d" => Some(Ending::new(Width::D, false, false)),
            b".d.aq" => Some(Ending::new(Width::D, true, false)),
            b".d.rl" => Some(Ending::new(Width::D, false, true)),
            b".d.aqrl" => Some(Ending::new(Width::D, true, true)),
            _ => None,
        }
    }
}

/// The name of an atomic access without its ending.
#[derive(Clone, Copy, PartialEq, Eq, Debug)]
pub(crate) enum Stem {
    Amo(AmoOp),
    Lr,
    Sc,
}

impl Stem {
    /// The stem that a text is.
    fn named(name: &[u8]) -> Option<Stem>
        ensures { Named parts.stem_name name.now result }
    {
        match name {
            b"lr" => Some(Stem::Lr),
            b"sc" => Some(Stem::Sc),
            _ => Some(Stem::Amo(amo_op(name)?)),
        }
    }

    fn with(self, ending: Ending) -> Mnemonic
        ensures { names.name_of result ≡ parts.stem_name self ++ parts.ending_name ending }
    {
        let Ending { width, aq, rl } = ending;
        match self {
            Stem::Amo(op) => Mnemonic::Amo { op, width, aq, rl },
            Stem::Lr => Mnemonic::Lr { width, aq, rl },
            Stem::Sc => Mnemonic::Sc { width, aq, rl },
        }
    }
}

/// The mnemonic of an atomic access that has a name.
fn atomic(name: &[u8]) -> Option<Mnemonic>
    ensures found { IfSome result (λ mnemonic. name.now ≡ names.name_of mnemonic) }
    ensures missing { IsNone result → (stem : Stem) (ending : Ending)
        → name.now ≢ parts.stem_name stem ++ parts.ending_name ending }
{
    let (front, rest) = split(b'.', name);
    let stem = Stem::named(front)?;
    Some(stem.with(Ending::named(rest)?))
}

/// The mnemonic without operations that has a name.
fn single(name: &[u8]) -> Option<Mnemonic>
    ensures found { IfSome result (λ mnemonic. name.now ≡ names.name_of mnemonic) }
    ensures missing { IsNone result → (mnemonic : Mnemonic) → parts.is_single mnemonic ≡ true
        → name.now ≢ names.name_of mnemonic }
{
    match name {
        b"jal" => Some(Mnemonic::Jal),
        b"jalr" => Some(Mnemonic::Jalr),
        b"fence" => Some(Mnemonic::Fence),
        b"fence.i" => Some(Mnemonic::FenceI),
        b"ecall" => Some(Mnemonic::Ecall),
        b"ebreak" => Some(Mnemonic::Ebreak),
        _ => None,
    }
}

/// The mnemonic that has a name.
pub(crate) fn mnemonic(name: &[u8]) -> Option<Mnemonic>
    ensures { Named names.name_of name.now result }
{
    if let Some(op) = reg_op(name) {
        return Some(Mnemonic::Op(op));
    }
    if let Some(op) = imm_op(name) {
        return Some(Mnemonic::Imm(op));
    }
    if let Some(kind) = load_kind(name) {
        return Some(Mnemonic::Load(kind));
    }
    if let Some(kind) = store_kind(name) {
        return Some(Mnemonic::Store(kind));
    }
    if let Some(kind) = branch_kind(name) {
        return Some(Mnemonic::Branch(kind));
    }
    if let Some(op) = shift_op(name) {
        return Some(Mnemonic::Shift(op));
    }
    if let Some(op) = shift_w_op(name) {
        return Some(Mnemonic::ShiftW(op));
    }
    if let Some(op) = upper_op(name) {
        return Some(Mnemonic::Upper(op));
    }
    if let Some(op) = mul_op(name) {
        return Some(Mnemonic::Mul(op));
    }
    if let Some(mnemonic) = single(name) {
        return Some(mnemonic);
    }
    atomic(name)
}
