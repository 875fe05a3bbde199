//! The instruction of a text.

ghost use Rattle.std.specs.Prelude.{◌≡◌, Some, IfSome};
ghost use Rattle.osc_rv.specs.declared.instr.Instr.{Instr};
ghost use Rattle.osc_rv.specs.Instr.{FieldsFit};
ghost use Rattle.osc_text.specs.Text.{text_of};

use crate::mnemonic::mnemonic;
use crate::operands::operands;
use crate::split::split;
use osc_rv::Instr;
use osc_text::{Spelling, TextBuf, print_instr};

/// The instruction whose spelling a text is. Where it is the spelling of none, the answer may be any.
fn meant(text: &[u8]) -> Option<Instr>
    ensures { (instr : Instr) → FieldsFit instr → text_of instr ≡ text.now → result ≡ Some instr }
{
    let (name, rest) = split(b' ', text);
    let mnemonic = mnemonic(name)?;
    let operands = operands(rest)?;
    let spelling = Spelling { mnemonic, operands };
    spelling.instr()
}

/// The instruction whose one spelling a text is, None where it is the spelling of none.
pub fn read_instr(text: &[u8]) -> Option<Instr>
    ensures found { IfSome result (λ instr. text_of instr ≡ text.now) }
    ensures fits { IfSome result FieldsFit }
    ensures all { (instr : Instr) → FieldsFit instr → text_of instr ≡ text.now → result ≡ Some instr }
{
    let instr = meant(text)?;
    let mut printed = TextBuf::new();
    print_instr(&instr, &mut printed);
    if printed.as_bytes() == text {
        Some(instr)
    } else {
        None
    }
}
