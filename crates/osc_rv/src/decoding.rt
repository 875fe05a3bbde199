ghost use Rattle.std.specs.Prelude.{◌≡◌, ◌<◌, IfSome};
ghost use Rattle.std.specs.Option.{option_or, option_and_then};
ghost use Rattle.osc_rv.specs.Codes.{width_at};
ghost use Rattle.osc_rv.specs.Formats.{s_imm, b_half, j_half, fence_bits};
ghost use Rattle.osc_rv.specs.Instr.{instr_of, word_of, opcode_of, upper_of, jal_of, jalr_of, branch_of, load_of, store_of, imm_of, shift_of, shift_w_of, reg_of, mul_of, fence_of, system_of, atomic_of, funct3_of};

use crate::codes::{
    AMO, AUIPC, BRANCH, EBREAK, ECALL, JAL, JALR, LOAD, LR, LUI, MISC_MEM, MULDIV, OP, OP_32,
    OP_IMM, OP_IMM_32, SC, STORE, SYSTEM,
};
use crate::field::{Field, bits_of};
use crate::instr::{
    AmoOp, BranchKind, ImmOp, Instr, LoadKind, MulOp, RegOp, ShiftOp, StoreKind, UpperOp, Width,
};

/// The instruction of `word` by the RISC-V Unprivileged manual, "RV32/64G Instruction Set Listings"
/// (RV32I, RV64I, Zifencei, RV32M, RV64M, RV32A, RV64A); None exactly where they have no such word.
/// Whatever it reads, `encode` writes back.
pub fn decode(word: u32) -> Option<Instr>
    ensures instr { result ≡ instr_of word }
    ensures written_back { IfSome result (λ instr. word_of instr ≡ word) }
{
    decode_at(bits_of(word, 0, 7), word)
}

/// The instruction of a word with this opcode.
#[tactic(auto, unfolding(crate::specs::Instr::instr_of))]
fn decode_at(opcode: u32, word: u32) -> Option<Instr>
    requires { opcode ≡ opcode_of word }
    ensures { result ≡ instr_of word }
{
    match opcode {
        LUI => Some(upper(UpperOp::Lui, word)),
        AUIPC => Some(upper(UpperOp::Auipc, word)),
        JAL => Some(jal(word)),
        JALR => jalr(word),
        BRANCH => branch(word),
        LOAD => load(word),
        STORE => store(word),
        OP_IMM => imm(OP_IMM, word).or_else(|| shift(word)),
        OP_IMM_32 => imm(OP_IMM_32, word).or_else(|| shift_w(word)),
        OP => op(OP, word).or_else(|| muldiv(OP, word)),
        OP_32 => op(OP_32, word).or_else(|| muldiv(OP_32, word)),
        MISC_MEM => fence(word),
        SYSTEM => system(word),
        AMO => atomic(Width::at(funct3(word))?, word),
        _ => None,
    }
}

fn funct3(word: u32) -> u32
    ensures { result ≡ funct3_of word }
{
    bits_of(word, 12, 3)
}

fn upper(op: UpperOp, word: u32) -> Instr
    ensures { result ≡ upper_of op word }
{
    Instr::Upper {
        op,
        rd: Field::of_word(word, 7),
        imm: Field::of_word(word, 12),
    }
}

fn jal(word: u32) -> Instr
    ensures { result ≡ jal_of word }
{
    Instr::Jal {
        rd: Field::of_word(word, 7),
        half: jump_half(word),
    }
}

fn jalr(word: u32) -> Option<Instr>
    ensures { result ≡ jalr_of word }
{
    if funct3(word) != 0 {
        return None;
    }
    Some(Instr::Jalr {
        rd: Field::of_word(word, 7),
        rs1: Field::of_word(word, 15),
        imm: Field::of_word(word, 20),
    })
}

fn branch(word: u32) -> Option<Instr>
    ensures { result ≡ branch_of word }
{
    Some(Instr::Branch {
        kind: BranchKind::at(funct3(word))?,
        rs1: Field::of_word(word, 15),
        rs2: Field::of_word(word, 20),
        half: branch_half(word),
    })
}

fn load(word: u32) -> Option<Instr>
    ensures { result ≡ load_of word }
{
    Some(Instr::Load {
        kind: LoadKind::at(funct3(word))?,
        rd: Field::of_word(word, 7),
        rs1: Field::of_word(word, 15),
        imm: Field::of_word(word, 20),
    })
}

fn store(word: u32) -> Option<Instr>
    ensures { result ≡ store_of word }
{
    Some(Instr::Store {
        kind: StoreKind::at(funct3(word))?,
        rs1: Field::of_word(word, 15),
        rs2: Field::of_word(word, 20),
        imm: Field::holding(bits_of(word, 7, 5) | bits_of(word, 25, 7) << 5),
    })
}

fn imm(opcode: u32, word: u32) -> Option<Instr>
    ensures { result ≡ imm_of opcode word }
{
    Some(Instr::Imm {
        op: ImmOp::at(opcode, funct3(word))?,
        rd: Field::of_word(word, 7),
        rs1: Field::of_word(word, 15),
        imm: Field::of_word(word, 20),
    })
}

fn shift(word: u32) -> Option<Instr>
    ensures { result ≡ shift_of word }
{
    Some(Instr::Shift {
        op: ShiftOp::at(funct3(word), bits_of(word, 26, 6))?,
        rd: Field::of_word(word, 7),
        rs1: Field::of_word(word, 15),
        amount: Field::of_word(word, 20),
    })
}

fn shift_w(word: u32) -> Option<Instr>
    ensures { result ≡ shift_w_of word }
{
    if bits_of(word, 25, 1) != 0 {
        return None;
    }
    Some(Instr::ShiftW {
        op: ShiftOp::at(funct3(word), bits_of(word, 26, 6))?,
        rd: Field::of_word(word, 7),
        rs1: Field::of_word(word, 15),
        amount: Field::of_word(word, 20),
    })
}

fn op(opcode: u32, word: u32) -> Option<Instr>
    ensures { result ≡ reg_of opcode word }
{
    Some(Instr::Op {
        op: RegOp::at(opcode, funct3(word), bits_of(word, 25, 7))?,
        rd: Field::of_word(word, 7),
        rs1: Field::of_word(word, 15),
        rs2: Field::of_word(word, 20),
    })
}

fn muldiv(opcode: u32, word: u32) -> Option<Instr>
    ensures { result ≡ mul_of opcode word }
{
    if bits_of(word, 25, 7) != MULDIV {
        return None;
    }
    Some(Instr::Mul {
        op: MulOp::at(opcode, funct3(word))?,
        rd: Field::of_word(word, 7),
        rs1: Field::of_word(word, 15),
        rs2: Field::of_word(word, 20),
    })
}

fn fence(word: u32) -> Option<Instr>
    ensures { result ≡ fence_of word }
{
    let bits = fence_free_bits(word);
    match funct3(word) {
        0 => Some(Instr::Fence { bits }),
        1 => Some(Instr::FenceI { bits }),
        _ => None,
    }
}

fn system(word: u32) -> Option<Instr>
    ensures { result ≡ system_of word }
{
    match word {
        ECALL => Some(Instr::Ecall),
        EBREAK => Some(Instr::Ebreak),
        _ => None,
    }
}

fn atomic(width: Width, word: u32) -> Option<Instr>
    ensures { result ≡ atomic_of word width }
{
    let rd: Field<5> = Field::of_word(word, 7);
    let rs1: Field<5> = Field::of_word(word, 15);
    let rs2: Field<5> = Field::of_word(word, 20);
    let aq = bits_of(word, 26, 1) == 1;
    let rl = bits_of(word, 25, 1) == 1;
    match bits_of(word, 27, 5) {
        LR if rs2.value() == 0 => Some(Instr::Lr {
            width,
            rd,
            rs1,
            aq,
            rl,
        }),
        LR => None,
        SC => Some(Instr::Sc {
            width,
            rd,
            rs1,
            rs2,
            aq,
            rl,
        }),
        funct5 => Some(Instr::Amo {
            op: AmoOp::at(funct5)?,
            width,
            rd,
            rs1,
            rs2,
            aq,
            rl,
        }),
    }
}

fn branch_half(word: u32) -> Field<12>
    ensures { result ≡ b_half word }
{
    Field::holding(
        bits_of(word, 8, 4)
            | bits_of(word, 25, 6) << 4
            | bits_of(word, 7, 1) << 10
            | bits_of(word, 31, 1) << 11,
    )
}

fn jump_half(word: u32) -> Field<20>
    ensures { result ≡ j_half word }
{
    Field::holding(
        bits_of(word, 21, 10)
            | bits_of(word, 20, 1) << 10
            | bits_of(word, 12, 8) << 11
            | bits_of(word, 31, 1) << 19,
    )
}

fn fence_free_bits(word: u32) -> Field<22>
    ensures { result ≡ fence_bits word }
{
    Field::holding(bits_of(word, 7, 5) | bits_of(word, 15, 17) << 5)
}
