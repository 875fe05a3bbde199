use crate::field::Field;

/// The operations of format U: opcodes LUI and AUIPC.
#[derive(Clone, Copy, PartialEq, Eq, Debug)]
pub enum UpperOp {
    Lui,
    Auipc,
}

/// The conditions of a branch: opcode BRANCH.
#[derive(Clone, Copy, PartialEq, Eq, Debug)]
pub enum BranchKind {
    Beq,
    Bne,
    Blt,
    Bge,
    Bltu,
    Bgeu,
}

/// The widths of a load, and whether it extends by the sign: opcode LOAD.
#[derive(Clone, Copy, PartialEq, Eq, Debug)]
pub enum LoadKind {
    Lb,
    Lh,
    Lw,
    Ld,
    Lbu,
    Lhu,
    Lwu,
}

/// The widths of a store: opcode STORE.
#[derive(Clone, Copy, PartialEq, Eq, Debug)]
pub enum StoreKind {
    Sb,
    Sh,
    Sw,
    Sd,
}

/// The operations on a register and an immediate: opcode OP-IMM, and OP-IMM-32 for `Addiw`.
#[derive(Clone, Copy, PartialEq, Eq, Debug)]
pub enum ImmOp {
    Addi,
    Slti,
    Sltiu,
    Xori,
    Ori,
    Andi,
    Addiw,
}

/// The shifts by an amount in the word: slli, srli, srai, and slliw, srliw, sraiw.
#[derive(Clone, Copy, PartialEq, Eq, Debug)]
pub enum ShiftOp {
    Left,
    Right,
    Signed,
}

/// The operations on two registers: opcode OP, and OP-32 for those that end in `w`.
#[derive(Clone, Copy, PartialEq, Eq, Debug)]
pub enum RegOp {
    Add,
    Sub,
    Sll,
    Slt,
    Sltu,
    Xor,
    Srl,
    Sra,
    Or,
    And,
    Addw,
    Subw,
    Sllw,
    Srlw,
    Sraw,
}

/// The products, quotients and remainders: opcode OP, and OP-32 for those that end in `w`.
#[derive(Clone, Copy, PartialEq, Eq, Debug)]
pub enum MulOp {
    Mul,
    Mulh,
    Mulhsu,
    Mulhu,
    Div,
    Divu,
    Rem,
    Remu,
    Mulw,
    Divw,
    Divuw,
    Remw,
    Remuw,
}

/// The operations that read and write a memory word in one step: amoadd and its kin.
#[derive(Clone, Copy, PartialEq, Eq, Debug)]
pub enum AmoOp {
    Add,
    Swap,
    Xor,
    Or,
    And,
    Min,
    Max,
    Minu,
    Maxu,
}

/// The width of an atomic access: 32 bits (`.w`) or 64 (`.d`).
#[derive(Clone, Copy, PartialEq, Eq, Debug)]
pub enum Width {
    W,
    D,
}

/// An instruction of RV64IMA with `fence.i`: the RISC-V Unprivileged manual, "Base Instruction
/// Formats" and "RV32/64G Instruction Set Listings".
///
/// Immediates and offsets are the unsigned bits of their field; what an instruction does extends
/// them by the sign. `half` is an offset without its bit 0, which no word has. `aq` and `rl` are
/// the bits that order an atomic access.
#[derive(Clone, Copy, PartialEq, Eq, Debug)]
pub enum Instr {
    Upper {
        op: UpperOp,
        rd: Field<5>,
        imm: Field<20>,
    },
    Jal {
        rd: Field<5>,
        half: Field<20>,
    },
    Jalr {
        rd: Field<5>,
        rs1: Field<5>,
        imm: Field<12>,
    },
    Branch {
        kind: BranchKind,
        rs1: Field<5>,
        rs2: Field<5>,
        half: Field<12>,
    },
    Load {
        kind: LoadKind,
        rd: Field<5>,
        rs1: Field<5>,
        imm: Field<12>,
    },
    Store {
        kind: StoreKind,
        rs1: Field<5>,
        rs2: Field<5>,
        imm: Field<12>,
    },
    Imm {
        op: ImmOp,
        rd: Field<5>,
        rs1: Field<5>,
        imm: Field<12>,
    },
    Shift {
        op: ShiftOp,
        rd: Field<5>,
        rs1: Field<5>,
        amount: Field<6>,
    },
    ShiftW {
        op: ShiftOp,
        rd: Field<5>,
        rs1: Field<5>,
        amount: Field<5>,
    },
    Op {
        op: RegOp,
        rd: Field<5>,
        rs1: Field<5>,
        rs2: Field<5>,
    },
    Mul {
        op: MulOp,
        rd: Field<5>,
        rs1: Field<5>,
        rs2: Field<5>,
    },
    /// `bits` are the word's bits 31 to 15 and then 11 to 7, which the manual leaves free.
    Fence {
        bits: Field<22>,
    },
    /// `bits` as in `Fence`.
    FenceI {
        bits: Field<22>,
    },
    Ecall,
    Ebreak,
    Amo {
        op: AmoOp,
        width: Width,
        rd: Field<5>,
        rs1: Field<5>,
        rs2: Field<5>,
        aq: bool,
        rl: bool,
    },
    Lr {
        width: Width,
        rd: Field<5>,
        rs1: Field<5>,
        aq: bool,
        rl: bool,
    },
    Sc {
        width: Width,
        rd: Field<5>,
        rs1: Field<5>,
        rs2: Field<5>,
        aq: bool,
        rl: bool,
    },
}
