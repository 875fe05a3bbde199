//! The text of an instruction.

ghost use Rattle.std.specs.Prelude.{◌≡◌, ◌+◌, ◌≤◌, ◌++◌, length};
ghost use Rattle.osc_text.specs.Names as names;
ghost use Rattle.osc_text.specs.Text as spec;

use crate::buffer::TextBuf;
use crate::names::{
    amo_name, branch_name, imm_name, load_name, mul_name, order_name, reg_name, shift_name,
    shift_w_name, store_name, upper_name, width_name,
};
use crate::spelling::{Mnemonic, Number, Operand, Operands, Spelling};
use osc_rv::{Field, Instr, Width};

/// The name of an atomic access: `stem` has at most 7 bytes.
fn append_atomic(stem: &[u8], width: Width, aq: bool, rl: bool, into: &mut TextBuf)
    requires stem { length stem.now ≤ 7 }
    requires room { length into.old + 14 ≤ 64 }
    ensures after { into.new ≡ into.old ++ stem.now ++ names.width_name width ++ names.order_name aq rl }
    ensures length { length into.new ≤ length into.old + 14 }
{
    into.text(stem);
    into.text(width_name(width));
    into.text(order_name(aq, rl));
}

fn append_name(mnemonic: Mnemonic, into: &mut TextBuf)
    requires room { length into.old + 14 ≤ 64 }
    ensures after { into.new ≡ into.old ++ names.name_of mnemonic }
    ensures length { length into.new ≤ length into.old + 14 }
{
    match mnemonic {
        Mnemonic::Upper(op) => into.text(upper_name(op)),
        Mnemonic::Jal => into.text(b"jal"),
        Mnemonic::Jalr => into.text(b"jalr"),
        Mnemonic::Branch(kind) => into.text(branch_name(kind)),
        Mnemonic::Load(kind) => into.text(load_name(kind)),
        Mnemonic::Store(kind) => into.text(store_name(kind)),
        Mnemonic::Imm(op) => into.text(imm_name(op)),
        Mnemonic::Shift(op) => into.text(shift_name(op)),
        Mnemonic::ShiftW(op) => into.text(shift_w_name(op)),
        Mnemonic::Op(op) => into.text(reg_name(op)),
        Mnemonic::Mul(op) => into.text(mul_name(op)),
        Mnemonic::Fence => into.text(b"fence"),
        Mnemonic::FenceI => into.text(b"fence.i"),
        Mnemonic::Ecall => into.text(b"ecall"),
        Mnemonic::Ebreak => into.text(b"ebreak"),
        Mnemonic::Amo { op, width, aq, rl } => append_atomic(amo_name(op), width, aq, rl, into),
        Mnemonic::Lr { width, aq, rl } => append_atomic(b"lr", width, aq, rl, into),
        Mnemonic::Sc { width, aq, rl } => append_atomic(b"sc", width, aq, rl, into),
    }
}

/// A register's name, of at most 3 bytes.
fn append_register(register: Field<5>, into: &mut TextBuf)
    requires room { length into.old + 3 ≤ 64 }
    ensures after { into.new ≡ into.old ++ spec.register_text register }
    ensures length { length into.new ≤ length into.old + 3 }
{
    into.text(b"x");
    into.decimal(register.value());
}

fn sign(negative: bool) -> &'static [u8]
    ensures text { result.now ≡ spec.sign_text negative }
    ensures length { length result.now ≤ 1 }
{
    if negative { b"-" } else { b"" }
}

/// A number, of at most 8 bytes.
fn append_number(number: Number, into: &mut TextBuf)
    requires room { length into.old + 8 ≤ 64 }
    ensures after { into.new ≡ into.old ++ spec.number_text number }
    ensures length { length into.new ≤ length into.old + 8 }
{
    into.text(sign(number.negative));
    into.decimal(number.magnitude.value());
}

fn append_address(base: Field<5>, into: &mut TextBuf)
    requires room { length into.old + 5 ≤ 64 }
    ensures after { into.new ≡ into.old ++ spec.address_text base }
    ensures length { length into.new ≤ length into.old + 5 }
{
    into.text(b"(");
    append_register(base, into);
    into.text(b")");
}

/// A separator of at most 2 bytes and then an operand.
fn append_operand(separator: &[u8], operand: Operand, into: &mut TextBuf)
    requires separator { length separator.now ≤ 2 }
    requires room { length into.old + 15 ≤ 64 }
    ensures after { into.new ≡ into.old ++ separator.now ++ spec.operand_text operand }
    ensures length { length into.new ≤ length into.old + 15 }
{
    into.text(separator);
    match operand {
        Operand::Register(register) => append_register(register, into),
        Operand::Immediate(number) => append_number(number, into),
        Operand::Indexed { offset, base } => {
            append_number(offset, into);
            append_address(base, into);
        }
        Operand::Address(base) => append_address(base, into),
    }
}

fn append_operands(operands: Operands, into: &mut TextBuf)
    requires room { length into.old + 45 ≤ 64 }
    ensures after { into.new ≡ into.old ++ spec.operands_text operands }
    ensures length { length into.new ≤ length into.old + 45 }
{
    match operands {
        Operands::Nothing => {}
        Operands::One(first) => append_operand(b" ", first, into),
        Operands::Two(first, second) => {
            append_operand(b" ", first, into);
            append_operand(b", ", second, into);
        }
        Operands::Three(first, second, third) => {
            append_operand(b" ", first, into);
            append_operand(b", ", second, into);
            append_operand(b", ", third, into);
        }
    }
}

/// The text of an instruction replaces what the buffer held. It has at most 59 bytes.
#[tactic(auto, unfolding(crate::specs::Text::text_of))]
pub fn print_instr(instr: &Instr, into: &mut TextBuf)
    ensures text { into.new ≡ spec.text_of instr.now }
    ensures length { length into.new ≤ 59 }
{
    let spelling = Spelling::of(instr);
    into.clear();
    append_name(spelling.mnemonic, into);
    append_operands(spelling.operands, into);
}
