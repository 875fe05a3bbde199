//! The operation codes of the listings, in both directions.
ghost use Rattle.std.specs.Prelude.{◌≡◌, ◌<◌};
ghost use Rattle.osc_rv.specs.Codes.{upper_opcode, branch_funct3, branch_at, load_funct3, load_at, store_funct3, store_at, imm_opcode, imm_funct3, imm_at, shift_funct3, shift_funct6, shift_at, reg_opcode, reg_funct3, reg_funct7, reg_at, mul_opcode, mul_funct3, mul_at, amo_funct5, amo_at, width_funct3, width_at};

use crate::instr::{
    AmoOp, BranchKind, ImmOp, LoadKind, MulOp, RegOp, ShiftOp, StoreKind, UpperOp, Width,
};

pub(crate) const LOAD: u32 = 0x03;

pub(crate) const MISC_MEM: u32 = 0x0F;

pub(crate) const OP_IMM: u32 = 0x13;

pub(crate) const AUIPC: u32 = 0x17;

pub(crate) const OP_IMM_32: u32 = 0x1B;

pub(crate) const STORE: u32 = 0x23;

pub(crate) const AMO: u32 = 0x2F;

pub(crate) const OP: u32 = 0x33;

pub(crate) const LUI: u32 = 0x37;

pub(crate) const OP_32: u32 = 0x3B;

pub(crate) const BRANCH: u32 = 0x63;

pub(crate) const JALR: u32 = 0x67;

pub(crate) const JAL: u32 = 0x6F;

pub(crate) const SYSTEM: u32 = 0x73;

/// funct7 of every `MulOp`.
pub(crate) const MULDIV: u32 = 1;

/// funct5 of lr and sc, which are no `AmoOp`.
pub(crate) const LR: u32 = 0b00010;

pub(crate) const SC: u32 = 0b00011;

/// The words of ecall and ebreak, which have no free field.
pub(crate) const ECALL: u32 = 0x0000_0073;

pub(crate) const EBREAK: u32 = 0x0010_0073;

impl UpperOp {
    pub(crate) fn opcode(self) -> u32
        ensures { result ≡ upper_opcode self }
    {
        match self {
            UpperOp::Lui => LUI,
            UpperOp::Auipc => AUIPC,
        }
    }
}

impl BranchKind {
    pub(crate) fn funct3(self) -> u32
        ensures { result ≡ branch_funct3 self }
    {
        match self {
            BranchKind::Beq => 0,
            BranchKind::Bne => 1,
            BranchKind::Blt => 4,
            BranchKind::Bge => 5,
            BranchKind::Bltu => 6,
            BranchKind::Bgeu => 7,
        }
    }

    pub(crate) fn at(funct3: u32) -> Option<BranchKind>
        ensures { result ≡ branch_at funct3 }
    {
        match funct3 {
            0 => Some(BranchKind::Beq),
            1 => Some(BranchKind::Bne),
            4 => Some(BranchKind::Blt),
            5 => Some(BranchKind::Bge),
            6 => Some(BranchKind::Bltu),
            7 => Some(BranchKind::Bgeu),
            _ => None,
        }
    }
}

impl LoadKind {
    pub(crate) fn funct3(self) -> u32
        ensures { result ≡ load_funct3 self }
    {
        match self {
            LoadKind::Lb => 0,
            LoadKind::Lh => 1,
            LoadKind::Lw => 2,
            LoadKind::Ld => 3,
            LoadKind::Lbu => 4,
            LoadKind::Lhu => 5,
            LoadKind::Lwu => 6,
        }
    }

    pub(crate) fn at(funct3: u32) -> Option<LoadKind>
        ensures { result ≡ load_at funct3 }
    {
        match funct3 {
            0 => Some(LoadKind::Lb),
            1 => Some(LoadKind::Lh),
            2 => Some(LoadKind::Lw),
            3 => Some(LoadKind::Ld),
            4 => Some(LoadKind::Lbu),
            5 => Some(LoadKind::Lhu),
            6 => Some(LoadKind::Lwu),
            _ => None,
        }
    }
}

impl StoreKind {
    pub(crate) fn funct3(self) -> u32
        ensures { result ≡ store_funct3 self }
    {
        match self {
            StoreKind::Sb => 0,
            StoreKind::Sh => 1,
            StoreKind::Sw => 2,
            StoreKind::Sd => 3,
        }
    }

    pub(crate) fn at(funct3: u32) -> Option<StoreKind>
        ensures { result ≡ store_at funct3 }
    {
        match funct3 {
            0 => Some(StoreKind::Sb),
            1 => Some(StoreKind::Sh),
            2 => Some(StoreKind::Sw),
            3 => Some(StoreKind::Sd),
            _ => None,
        }
    }
}

impl ImmOp {
    pub(crate) fn opcode(self) -> u32
        ensures { result ≡ imm_opcode self }
    {
        match self {
            ImmOp::Addi | ImmOp::Slti | ImmOp::Sltiu | ImmOp::Xori | ImmOp::Ori | ImmOp::Andi =>
                OP_IMM,
            ImmOp::Addiw => OP_IMM_32,
        }
    }

    pub(crate) fn funct3(self) -> u32
        ensures { result ≡ imm_funct3 self }
    {
        match self {
            ImmOp::Addi | ImmOp::Addiw => 0,
            ImmOp::Slti => 2,
            ImmOp::Sltiu => 3,
            ImmOp::Xori => 4,
            ImmOp::Ori => 6,
            ImmOp::Andi => 7,
        }
    }

    pub(crate) fn at(opcode: u32, funct3: u32) -> Option<ImmOp>
        ensures { result ≡ imm_at opcode funct3 }
    {
        match (opcode, funct3) {
            (OP_IMM, 0) => Some(ImmOp::Addi),
            (OP_IMM, 2) => Some(ImmOp::Slti),
            (OP_IMM, 3) => Some(ImmOp::Sltiu),
            (OP_IMM, 4) => Some(ImmOp::Xori),
            (OP_IMM, 6) => Some(ImmOp::Ori),
            (OP_IMM, 7) => Some(ImmOp::Andi),
            (OP_IMM_32, 0) => Some(ImmOp::Addiw),
            _ => None,
        }
    }
}

impl ShiftOp {
    pub(crate) fn funct3(self) -> u32
        ensures { result ≡ shift_funct3 self }
    {
        match self {
            ShiftOp::Left => 1,
            ShiftOp::Right | ShiftOp::Signed => 5,
        }
    }

    /// Bits 31 to 26 of the word.
    pub(crate) fn funct6(self) -> u32
        ensures { result ≡ shift_funct6 self }
    {
        match self {
            ShiftOp::Left | ShiftOp::Right => 0,
            ShiftOp::Signed => 0x10,
        }
    }

    pub(crate) fn at(funct3: u32, funct6: u32) -> Option<ShiftOp>
        ensures { result ≡ shift_at funct3 funct6 }
    {
        match (funct3, funct6) {
            (1, 0) => Some(ShiftOp::Left),
            (5, 0) => Some(ShiftOp::Right),
            (5, 0x10) => Some(ShiftOp::Signed),
            _ => None,
        }
    }
}

impl RegOp {
    pub(crate) fn opcode(self) -> u32
        ensures { result ≡ reg_opcode self }
    {
        match self {
            RegOp::Add
            | RegOp::Sub
            | RegOp::Sll
            | RegOp::Slt
            | RegOp::Sltu
            | RegOp::Xor
            | RegOp::Srl
            | RegOp::Sra
            | RegOp::Or
            | RegOp::And => OP,
            RegOp::Addw | RegOp::Subw | RegOp::Sllw | RegOp::Srlw | RegOp::Sraw => OP_32,
        }
    }

    pub(crate) fn funct3(self) -> u32
        ensures { result ≡ reg_funct3 self }
    {
        match self {
            RegOp::Add | RegOp::Sub | RegOp::Addw | RegOp::Subw => 0,
            RegOp::Sll | RegOp::Sllw => 1,
            RegOp::Slt => 2,
            RegOp::Sltu => 3,
            RegOp::Xor => 4,
            RegOp::Srl | RegOp::Sra | RegOp::Srlw | RegOp::Sraw => 5,
            RegOp::Or => 6,
            RegOp::And => 7,
        }
    }

    pub(crate) fn funct7(self) -> u32
        ensures { result ≡ reg_funct7 self }
    {
        match self {
            RegOp::Add
            | RegOp::Sll
            | RegOp::Slt
            | RegOp::Sltu
            | RegOp::Xor
            | RegOp::Srl
            | RegOp::Or
            | RegOp::And
            | RegOp::Addw
            | RegOp::Sllw
            | RegOp::Srlw => 0,
            RegOp::Sub | RegOp::Sra | RegOp::Subw | RegOp::Sraw => 0x20,
        }
    }

    pub(crate) fn at(opcode: u32, funct3: u32, funct7: u32) -> Option<RegOp>
        ensures { result ≡ reg_at opcode funct3 funct7 }
    {
        match (opcode, funct3, funct7) {
            (OP, 0, 0) => Some(RegOp::Add),
            (OP, 0, 0x20) => Some(RegOp::Sub),
            (OP, 1, 0) => Some(RegOp::Sll),
            (OP, 2, 0) => Some(RegOp::Slt),
            (OP, 3, 0) => Some(RegOp::Sltu),
            (OP, 4, 0) => Some(RegOp::Xor),
            (OP, 5, 0) => Some(RegOp::Srl),
            (OP, 5, 0x20) => Some(RegOp::Sra),
            (OP, 6, 0) => Some(RegOp::Or),
            (OP, 7, 0) => Some(RegOp::And),
            (OP_32, 0, 0) => Some(RegOp::Addw),
            (OP_32, 0, 0x20) => Some(RegOp::Subw),
            (OP_32, 1, 0) => Some(RegOp::Sllw),
            (OP_32, 5, 0) => Some(RegOp::Srlw),
            (OP_32, 5, 0x20) => Some(RegOp::Sraw),
            _ => None,
        }
    }
}

impl MulOp {
    pub(crate) fn opcode(self) -> u32
        ensures { result ≡ mul_opcode self }
    {
        match self {
            MulOp::Mul
            | MulOp::Mulh
            | MulOp::Mulhsu
            | MulOp::Mulhu
            | MulOp::Div
            | MulOp::Divu
            | MulOp::Rem
            | MulOp::Remu => OP,
            MulOp::Mulw | MulOp::Divw | MulOp::Divuw | MulOp::Remw | MulOp::Remuw => OP_32,
        }
    }

    pub(crate) fn funct3(self) -> u32
        ensures { result ≡ mul_funct3 self }
    {
        match self {
            MulOp::Mul | MulOp::Mulw => 0,
            MulOp::Mulh => 1,
            MulOp::Mulhsu => 2,
            MulOp::Mulhu => 3,
            MulOp::Div | MulOp::Divw => 4,
            MulOp::Divu | MulOp::Divuw => 5,
            MulOp::Rem | MulOp::Remw => 6,
            MulOp::Remu | MulOp::Remuw => 7,
        }
    }

    pub(crate) fn at(opcode: u32, funct3: u32) -> Option<MulOp>
        ensures { result ≡ mul_at opcode funct3 }
    {
        match (opcode, funct3) {
            (OP, 0) => Some(MulOp::Mul),
            (OP, 1) => Some(MulOp::Mulh),
            (OP, 2) => Some(MulOp::Mulhsu),
            (OP, 3) => Some(MulOp::Mulhu),
            (OP, 4) => Some(MulOp::Div),
            (OP, 5) => Some(MulOp::Divu),
            (OP, 6) => Some(MulOp::Rem),
            (OP, 7) => Some(MulOp::Remu),
            (OP_32, 0) => Some(MulOp::Mulw),
            (OP_32, 4) => Some(MulOp::Divw),
            (OP_32, 5) => Some(MulOp::Divuw),
            (OP_32, 6) => Some(MulOp::Remw),
            (OP_32, 7) => Some(MulOp::Remuw),
            _ => None,
        }
    }
}

impl AmoOp {
    pub(crate) fn funct5(self) -> u32
        ensures { result ≡ amo_funct5 self }
    {
        match self {
            AmoOp::Add => 0b00000,
            AmoOp::Swap => 0b00001,
            AmoOp::Xor => 0b00100,
            AmoOp::Or => 0b01000,
            AmoOp::And => 0b01100,
            AmoOp::Min => 0b10000,
            AmoOp::Max => 0b10100,
            AmoOp::Minu => 0b11000,
            AmoOp::Maxu => 0b11100,
        }
    }

    pub(crate) fn at(funct5: u32) -> Option<AmoOp>
        ensures { result ≡ amo_at funct5 }
    {
        match funct5 {
            0b00000 => Some(AmoOp::Add),
            0b00001 => Some(AmoOp::Swap),
            0b00100 => Some(AmoOp::Xor),
            0b01000 => Some(AmoOp::Or),
            0b01100 => Some(AmoOp::And),
            0b10000 => Some(AmoOp::Min),
            0b10100 => Some(AmoOp::Max),
            0b11000 => Some(AmoOp::Minu),
            0b11100 => Some(AmoOp::Maxu),
            _ => None,
        }
    }
}

impl Width {
    pub(crate) fn funct3(self) -> u32
        ensures { result ≡ width_funct3 self }
    {
        match self {
            Width::W => 2,
            Width::D => 3,
        }
    }

    pub(crate) fn at(funct3: u32) -> Option<Width>
        ensures { result ≡ width_at funct3 }
    {
        match funct3 {
            2 => Some(Width::W),
            3 => Some(Width::D),
            _ => None,
        }
    }
}
