//! The operands of an instruction.

ghost use Rattle.std.specs.Prelude.{◌≡◌, ◌<◌, ◌++◌, ℕ, true, false, List, Some, codes};
ghost use Rattle.osc_text.specs.declared.spelling.Number.{Number};
ghost use Rattle.osc_text.specs.declared.spelling.Operand.{Operand};
ghost use Rattle.osc_text.specs.declared.spelling.Operand.TheVariants.{Register, Immediate, Indexed, Address};
ghost use Rattle.osc_text.specs.declared.spelling.Operands.{Operands};
ghost use Rattle.osc_text.specs.declared.spelling.Operands.TheVariants.{One, Two, Three};
ghost use Rattle.osc_text.specs.Digits.{Reads, starts_digit};
ghost use Rattle.osc_text.specs.Text as texts;
ghost use Rattle.osc_line.specs.Parts as spec;

use crate::split::after_front;
use osc_text::{Operand, Operands, address, number, register};

fn register_operand(text: &[u8]) -> Option<(Operand, &[u8])>
    ensures { (register : ℕ) (rest : List ℕ) → register < 32 → starts_digit rest ≡ false
        → text.now ≡ texts.register_text register ++ rest → Reads result (Register register) rest }
{
    match register(text) {
        Some((found, rest)) => Some((Operand::Register(found), rest)),
        None => None,
    }
}

fn address_operand(text: &[u8]) -> Option<(Operand, &[u8])>
    ensures { (base : ℕ) (rest : List ℕ) → base < 32
        → text.now ≡ texts.address_text base ++ rest → Reads result (Address base) rest }
{
    match address(text) {
        Some((base, rest)) => Some((Operand::Address(base), rest)),
        None => None,
    }
}

/// A number, and the register in parentheses where one follows it.
fn numeric_operand(text: &[u8]) -> Option<(Operand, &[u8])>
    ensures number { (number : Number) (rest : List ℕ) → number.magnitude < 4194304 → spec.ends rest ≡ true
        → text.now ≡ texts.number_text number ++ rest → Reads result (Immediate number) rest }
    ensures indexed { (offset : Number) (base : ℕ) (rest : List ℕ) → offset.magnitude < 4194304 → base < 32
        → text.now ≡ (texts.number_text offset ++ texts.address_text base) ++ rest → Reads result (Indexed offset base) rest }
{
    let Some((offset, after_number)) = number(text) else {
        return None;
    };
    match address(after_number) {
        Some((base, rest)) => Some((Operand::Indexed { offset, base }, rest)),
        None => Some((Operand::Immediate(offset), after_number)),
    }
}

/// The operand at the front, which nothing or a comma follows, with what follows it.
fn operand(text: &[u8]) -> Option<(Operand, &[u8])>
    ensures { (operand : Operand) (rest : List ℕ) → spec.OperandFits operand → spec.ends rest ≡ true
        → text.now ≡ texts.operand_text operand ++ rest → Reads result operand rest }
{
    if text.is_empty() {
        return None;
    }
    match text[0] {
        b'x' => register_operand(text),
        b'(' => address_operand(text),
        _ => numeric_operand(text),
    }
}

fn last_operand(first: Operand, second: Operand, text: &[u8]) -> Option<Operands>
    ensures { (third : Operand) → spec.OperandFits third → text.now ≡ texts.operand_text third
        → result ≡ Some (Three first second third) }
{
    match operand(text) {
        Some((third, _)) => Some(Operands::Three(first, second, third)),
        None => None,
    }
}

fn more_operands(first: Operand, text: &[u8]) -> Option<Operands>
    ensures two { (second : Operand) → spec.OperandFits second → text.now ≡ texts.operand_text second
        → result ≡ Some (Two first second) }
    ensures three { (second third : Operand) → spec.OperandFits second → spec.OperandFits third
        → text.now ≡ texts.operand_text second ++ codes ", " ++ texts.operand_text third
        → result ≡ Some (Three first second third) }
{
    let Some((second, rest)) = operand(text) else {
        return None;
    };
    match after_front(b", ", rest) {
        Some(text) => last_operand(first, second, text),
        None => Some(Operands::Two(first, second)),
    }
}

fn some_operands(text: &[u8]) -> Option<Operands>
    ensures one { (first : Operand) → spec.OperandFits first → text.now ≡ texts.operand_text first
        → result ≡ Some (One first) }
    ensures two { (first second : Operand) → spec.OperandFits first → spec.OperandFits second
        → text.now ≡ texts.operand_text first ++ codes ", " ++ texts.operand_text second
        → result ≡ Some (Two first second) }
    ensures three { (first second third : Operand) → spec.OperandFits first → spec.OperandFits second → spec.OperandFits third
        → text.now ≡ texts.operand_text first ++ codes ", " ++ texts.operand_text second ++ codes ", " ++ texts.operand_text third
        → result ≡ Some (Three first second third) }
{
    let Some((first, rest)) = operand(text) else {
        return None;
    };
    match after_front(b", ", rest) {
        Some(text) => more_operands(first, text),
        None => Some(Operands::One(first)),
    }
}

/// The operands whose text this is. Where it is the text of none, the answer may be any.
pub(crate) fn operands(text: &[u8]) -> Option<Operands>
    ensures { (operands : Operands) → spec.OperandsFit operands → text.now ≡ texts.operands_text operands
        → result ≡ Some operands }
{
    match after_front(b" ", text) {
        Some(text) => some_operands(text),
        None => Some(Operands::Nothing),
    }
}
