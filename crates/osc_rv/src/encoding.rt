ghost use Rattle.std.specs.Prelude.{◌≡◌, ◌<◌, ◌^◌, ◌+◌, ◌*◌};
ghost use Rattle.osc_rv.specs.Codes.{shift_funct6};
ghost use Rattle.osc_rv.specs.Formats.{r_word, i_word, s_word, b_word, u_word, j_word, fence_word};
ghost use Rattle.osc_rv.specs.Instr.{word_of, instr_of, atomic_word, FieldsFit};

use crate::codes::{
    AMO, BRANCH, EBREAK, ECALL, JAL, JALR, LOAD, LR, MISC_MEM, MULDIV, OP_IMM, OP_IMM_32, SC, STORE,
};
use crate::field::{Field, bits_of};
use crate::instr::{Instr, ShiftOp, Width};

/// The word of `instr`, by the same listings as `decode`, which reads it back.
pub fn encode(instr: &Instr) -> u32
    ensures word { result ≡ word_of instr.now }
    ensures read_back { instr_of result ≡ Some instr.now }
{
    word(instr)
}

/// The word, and that each field fits its place in it.
#[tactic(auto, unfolding(crate::specs::Instr::word_of))]
fn word(instr: &Instr) -> u32
    ensures word { result ≡ word_of instr.now }
    ensures fits { FieldsFit instr.now }
{
    match *instr {
        Instr::Upper { op, rd, imm } => format_u(op.opcode(), rd, imm),
        Instr::Jal { rd, half } => format_j(JAL, rd, half),
        Instr::Jalr { rd, rs1, imm } => format_i(JALR, rd, 0, rs1, imm),
        Instr::Branch {
            kind,
            rs1,
            rs2,
            half,
        } => format_b(BRANCH, kind.funct3(), rs1, rs2, half),
        Instr::Load { kind, rd, rs1, imm } => format_i(LOAD, rd, kind.funct3(), rs1, imm),
        Instr::Store {
            kind,
            rs1,
            rs2,
            imm,
        } => format_s(STORE, kind.funct3(), rs1, rs2, imm),
        Instr::Imm { op, rd, rs1, imm } => format_i(op.opcode(), rd, op.funct3(), rs1, imm),
        Instr::Shift {
            op,
            rd,
            rs1,
            amount,
        } => format_i(OP_IMM, rd, op.funct3(), rs1, shift_imm(op, amount.value())),
        Instr::ShiftW {
            op,
            rd,
            rs1,
            amount,
        } => format_i(
            OP_IMM_32,
            rd,
            op.funct3(),
            rs1,
            shift_imm(op, amount.value()),
        ),
        Instr::Op { op, rd, rs1, rs2 } => {
            format_r(op.opcode(), rd, op.funct3(), rs1, rs2, op.funct7())
        }
        Instr::Mul { op, rd, rs1, rs2 } => {
            format_r(op.opcode(), rd, op.funct3(), rs1, rs2, MULDIV)
        }
        Instr::Fence { bits } => fence(MISC_MEM, 0, bits),
        Instr::FenceI { bits } => fence(MISC_MEM, 1, bits),
        Instr::Ecall => ECALL,
        Instr::Ebreak => EBREAK,
        Instr::Amo {
            op,
            width,
            rd,
            rs1,
            rs2,
            aq,
            rl,
        } => atomic(op.funct5(), width, rd, rs1, rs2, aq, rl),
        Instr::Lr {
            width,
            rd,
            rs1,
            aq,
            rl,
        } => atomic(LR, width, rd, rs1, Field::holding(0), aq, rl),
        Instr::Sc {
            width,
            rd,
            rs1,
            rs2,
            aq,
            rl,
        } => atomic(SC, width, rd, rs1, rs2, aq, rl),
    }
}

/// The amount of a shift, with the bits above it that tell the shifts apart.
fn shift_imm(op: ShiftOp, amount: u32) -> Field<12>
    requires { amount < 2 ^ 6 }
    ensures { result ≡ amount + shift_funct6 op * 2 ^ 6 }
{
    Field::holding(amount | op.funct6() << 6)
}

fn format_r(
    opcode: u32,
    rd: Field<5>,
    funct3: u32,
    rs1: Field<5>,
    rs2: Field<5>,
    funct7: u32,
) -> u32
    requires { (opcode < 2 ^ 7) × (funct3 < 2 ^ 3) × (funct7 < 2 ^ 7) }
    ensures word { result ≡ r_word opcode rd funct3 rs1 rs2 funct7 }
    ensures fits { (rd < 2 ^ 5) × (rs1 < 2 ^ 5) × (rs2 < 2 ^ 5) }
{
    opcode | rd.value() << 7 | funct3 << 12 | rs1.value() << 15 | rs2.value() << 20 | funct7 << 25
}

fn format_i(opcode: u32, rd: Field<5>, funct3: u32, rs1: Field<5>, imm: Field<12>) -> u32
    requires { (opcode < 2 ^ 7) × (funct3 < 2 ^ 3) }
    ensures word { result ≡ i_word opcode rd funct3 rs1 imm }
    ensures fits { (rd < 2 ^ 5) × (rs1 < 2 ^ 5) × (imm < 2 ^ 12) }
{
    opcode | rd.value() << 7 | funct3 << 12 | rs1.value() << 15 | imm.value() << 20
}

fn format_s(opcode: u32, funct3: u32, rs1: Field<5>, rs2: Field<5>, imm: Field<12>) -> u32
    requires { (opcode < 2 ^ 7) × (funct3 < 2 ^ 3) }
    ensures word { result ≡ s_word opcode funct3 rs1 rs2 imm }
    ensures fits { (rs1 < 2 ^ 5) × (rs2 < 2 ^ 5) × (imm < 2 ^ 12) }
{
    opcode
        | bits_of(imm.value(), 0, 5) << 7
        | funct3 << 12
        | rs1.value() << 15
        | rs2.value() << 20
        | bits_of(imm.value(), 5, 7) << 25
}

fn format_b(opcode: u32, funct3: u32, rs1: Field<5>, rs2: Field<5>, half: Field<12>) -> u32
    requires { (opcode < 2 ^ 7) × (funct3 < 2 ^ 3) }
    ensures word { result ≡ b_word opcode funct3 rs1 rs2 half }
    ensures fits { (rs1 < 2 ^ 5) × (rs2 < 2 ^ 5) × (half < 2 ^ 12) }
{
    opcode
        | bits_of(half.value(), 10, 1) << 7
        | bits_of(half.value(), 0, 4) << 8
        | funct3 << 12
        | rs1.value() << 15
        | rs2.value() << 20
        | bits_of(half.value(), 4, 6) << 25
        | bits_of(half.value(), 11, 1) << 31
}

fn format_u(opcode: u32, rd: Field<5>, imm: Field<20>) -> u32
    requires { opcode < 2 ^ 7 }
    ensures word { result ≡ u_word opcode rd imm }
    ensures fits { (rd < 2 ^ 5) × (imm < 2 ^ 20) }
{
    opcode | rd.value() << 7 | imm.value() << 12
}

fn format_j(opcode: u32, rd: Field<5>, half: Field<20>) -> u32
    requires { opcode < 2 ^ 7 }
    ensures word { result ≡ j_word opcode rd half }
    ensures fits { (rd < 2 ^ 5) × (half < 2 ^ 20) }
{
    opcode
        | rd.value() << 7
        | bits_of(half.value(), 11, 8) << 12
        | bits_of(half.value(), 10, 1) << 20
        | bits_of(half.value(), 0, 10) << 21
        | bits_of(half.value(), 19, 1) << 31
}

fn fence(opcode: u32, funct3: u32, bits: Field<22>) -> u32
    requires { (opcode < 2 ^ 7) × (funct3 < 2 ^ 3) }
    ensures word { result ≡ fence_word opcode funct3 bits }
    ensures fits { bits < 2 ^ 22 }
{
    opcode | bits_of(bits.value(), 0, 5) << 7 | funct3 << 12 | bits_of(bits.value(), 5, 17) << 15
}

fn atomic(
    funct5: u32,
    width: Width,
    rd: Field<5>,
    rs1: Field<5>,
    rs2: Field<5>,
    aq: bool,
    rl: bool,
) -> u32
    requires { funct5 < 2 ^ 5 }
    ensures word { result ≡ atomic_word funct5 width rd rs1 rs2 aq rl }
    ensures fits { (rd < 2 ^ 5) × (rs1 < 2 ^ 5) × (rs2 < 2 ^ 5) }
{
    let funct7 = u32::from(rl) | u32::from(aq) << 1 | funct5 << 2;
    format_r(AMO, rd, width.funct3(), rs1, rs2, funct7)
}
