//! What stands at a place of the code.

ghost use Rattle.std.specs.Prelude.{◌≡◌};
ghost use Rattle.osc_asm.specs.Layout.{use_of};

use crate::LabelNo;
use osc_rv::{BranchKind, Field, Instr};

/// One instruction of the code, of 4 bytes.
#[derive(Clone, Copy, PartialEq, Eq, Debug)]
pub enum Item {
    /// An instruction as it is.
    Plain(Instr),
    /// A branch to a label (RISC-V ELF psABI, "Relocations": R_RISCV_BRANCH).
    Branch {
        kind: BranchKind,
        rs1: Field<5>,
        rs2: Field<5>,
        to: LabelNo,
    },
    /// A jal to a label (R_RISCV_JAL).
    Jump {
        rd: Field<5>,
        to: LabelNo,
    },
    /// lui with the high part of a label's address (R_RISCV_HI20).
    LabelHigh {
        rd: Field<5>,
        to: LabelNo,
    },
    /// addi with its low part (R_RISCV_LO12_I).
    LabelLow {
        rd: Field<5>,
        to: LabelNo,
    },
    /// lui with the high part of the address of a byte, by its place among the bytes.
    BytesHigh {
        rd: Field<5>,
        offset: u32,
    },
    /// addi with its low part.
    BytesLow {
        rd: Field<5>,
        offset: u32,
    },
}

/// The use of a label by the instruction of an index, counted from 0.
#[derive(Clone, Copy, PartialEq, Eq, Debug)]
pub struct LabelUse {
    pub index: usize,
    pub label: LabelNo,
    /// An offset to the label is at least -reach and below reach. None where the address is used.
    pub reach: Option<u32>,
}

/// The offset of a branch is a signed number of 13 bits, that of a jal one of 21.
const BRANCH_REACH: u32 = 1 << 12;

const JAL_REACH: u32 = 1 << 20;

impl Item {
    /// The label that it uses at an index, None where it uses none.
    pub(crate) fn label_use(&self, index: usize) -> Option<LabelUse>
        ensures { result ≡ use_of index self.now }
    {
        let (label, reach) = match *self {
            Item::Branch { to, .. } => (to, Some(BRANCH_REACH)),
            Item::Jump { to, .. } => (to, Some(JAL_REACH)),
            Item::LabelHigh { to, .. } => (to, None),
            Item::LabelLow { to, .. } => (to, None),
            Item::Plain(_) => return None,
            Item::BytesHigh { .. } => return None,
            Item::BytesLow { .. } => return None,
        };
        Some(LabelUse {
            index,
            label,
            reach,
        })
    }
}
