//! The names of the listings.

ghost use Rattle.std.specs.Prelude.{◌≡◌, ◌≤◌, length};
ghost use Rattle.osc_text.specs.Names.{upper_name, branch_name, load_name, store_name, imm_name, shift_name, shift_w_name, reg_name, mul_name, amo_name, width_name, order_name};

use osc_rv::{
    AmoOp, BranchKind, ImmOp, LoadKind, MulOp, RegOp, ShiftOp, StoreKind, UpperOp, Width,
};

pub(crate) fn upper_name(op: UpperOp) -> &'static [u8]
    ensures name { result.now ≡ upper_name op }
    ensures short { length result.now ≤ 5 }
{
    match op {
        UpperOp::Lui => b"lui",
        UpperOp::Auipc => b"auipc",
    }
}

pub(crate) fn branch_name(kind: BranchKind) -> &'static [u8]
    ensures name { result.now ≡ branch_name kind }
    ensures short { length result.now ≤ 4 }
{
    match kind {
        BranchKind::Beq => b"beq",
        BranchKind::Bne => b"bne",
        BranchKind::Blt => b"blt",
        BranchKind::Bge => b"bge",
        BranchKind::Bltu => b"bltu",
        BranchKind::Bgeu => b"bgeu",
    }
}

pub(crate) fn load_name(kind: LoadKind) -> &'static [u8]
    ensures name { result.now ≡ load_name kind }
    ensures short { length result.now ≤ 3 }
{
    match kind {
        LoadKind::Lb => b"lb",
        LoadKind::Lh => b"lh",
        LoadKind::Lw => b"lw",
        LoadKind::Ld => b"ld",
        LoadKind::Lbu => b"lbu",
        LoadKind::Lhu => b"lhu",
        LoadKind::Lwu => b"lwu",
    }
}

pub(crate) fn store_name(kind: StoreKind) -> &'static [u8]
    ensures name { result.now ≡ store_name kind }
    ensures short { length result.now ≤ 2 }
{
    match kind {
        StoreKind::Sb => b"sb",
        StoreKind::Sh => b"sh",
        StoreKind::Sw => b"sw",
        StoreKind::Sd => b"sd",
    }
}

pub(crate) fn imm_name(op: ImmOp) -> &'static [u8]
    ensures name { result.now ≡ imm_name op }
    ensures short { length result.now ≤ 5 }
{
    match op {
        ImmOp::Addi => b"addi",
        ImmOp::Slti => b"slti",
        ImmOp::Sltiu => b"sltiu",
        ImmOp::Xori => b"xori",
        ImmOp::Ori => b"ori",
        ImmOp::Andi => b"andi",
        ImmOp::Addiw => b"addiw",
    }
}

pub(crate) fn shift_name(op: ShiftOp) -> &'static [u8]
    ensures name { result.now ≡ shift_name op }
    ensures short { length result.now ≤ 4 }
{
    match op {
        ShiftOp::Left => b"slli",
        ShiftOp::Right => b"srli",
        ShiftOp::Signed => b"srai",
    }
}

pub(crate) fn shift_w_name(op: ShiftOp) -> &'static [u8]
    ensures name { result.now ≡ shift_w_name op }
    ensures short { length result.now ≤ 5 }
{
    match op {
        ShiftOp::Left => b"slliw",
        ShiftOp::Right => b"srliw",
        ShiftOp::Signed => b"sraiw",
    }
}

pub(crate) fn reg_name(op: RegOp) -> &'static [u8]
    ensures name { result.now ≡ reg_name op }
    ensures short { length result.now ≤ 4 }
{
    match op {
        RegOp::Add => b"add",
        RegOp::Sub => b"sub",
        RegOp::Sll => b"sll",
        RegOp::Slt => b"slt",
        RegOp::Sltu => b"sltu",
        RegOp::Xor => b"xor",
        RegOp::Srl => b"srl",
        RegOp::Sra => b"sra",
        RegOp::Or => b"or",
        RegOp::And => b"and",
        RegOp::Addw => b"addw",
        RegOp::Subw => b"subw",
        RegOp::Sllw => b"sllw",
        RegOp::Srlw => b"srlw",
        RegOp::Sraw => b"sraw",
    }
}

pub(crate) fn mul_name(op: MulOp) -> &'static [u8]
    ensures name { result.now ≡ mul_name op }
    ensures short { length result.now ≤ 6 }
{
    match op {
        MulOp::Mul => b"mul",
        MulOp::Mulh => b"mulh",
        MulOp::Mulhsu => b"mulhsu",
        MulOp::Mulhu => b"mulhu",
        MulOp::Div => b"div",
        MulOp::Divu => b"divu",
        MulOp::Rem => b"rem",
        MulOp::Remu => b"remu",
        MulOp::Mulw => b"mulw",
        MulOp::Divw => b"divw",
        MulOp::Divuw => b"divuw",
        MulOp::Remw => b"remw",
        MulOp::Remuw => b"remuw",
    }
}

pub(crate) fn amo_name(op: AmoOp) -> &'static [u8]
    ensures name { result.now ≡ amo_name op }
    ensures short { length result.now ≤ 7 }
{
    match op {
        AmoOp::Add => b"amoadd",
        AmoOp::Swap => b"amoswap",
        AmoOp::Xor => b"amoxor",
        AmoOp::Or => b"amoor",
        AmoOp::And => b"amoand",
        AmoOp::Min => b"amomin",
        AmoOp::Max => b"amomax",
        AmoOp::Minu => b"amominu",
        AmoOp::Maxu => b"amomaxu",
    }
}

pub(crate) fn width_name(width: Width) -> &'static [u8]
    ensures name { result.now ≡ width_name width }
    ensures short { length result.now ≤ 2 }
{
    match width {
        Width::W => b".w",
        Width::D => b".d",
    }
}

pub(crate) fn order_name(aq: bool, rl: bool) -> &'static [u8]
    ensures name { result.now ≡ order_name aq rl }
    ensures short { length result.now ≤ 5 }
{
    match (aq, rl) {
        (false, false) => b"",
        (true, false) => b".aq",
        (false, true) => b".rl",
        (true, true) => b".aqrl",
    }
}
