//! Words of GNU as, with the fields that its source lines name. `tools/instruction-vectors.sh`
//! makes the rows.
use super::*;
use std::test::Fail;

/// A word, the name of its instruction, and its rd, rs1, rs2, immediate, and order (2 for aq and
/// 1 for rl). The name is "none" where there is no instruction.
static ROWS: [(u32, &str, [u32; 5]); 266] = [
    (0x00000fb7, "lui", [31, 0, 0, 0, 0]),
    (0x00000097, "auipc", [1, 0, 0, 0, 0]),
    (0x00001fb7, "lui", [31, 0, 0, 1, 0]),
    (0x00001097, "auipc", [1, 0, 0, 1, 0]),
    (0x80000fb7, "lui", [31, 0, 0, 524288, 0]),
    (0x80000097, "auipc", [1, 0, 0, 524288, 0]),
    (0xffffffb7, "lui", [31, 0, 0, 1048575, 0]),
    (0xfffff097, "auipc", [1, 0, 0, 1048575, 0]),
    (0x000000ef, "jal", [1, 0, 0, 0, 0]),
    (0x002000ef, "jal", [1, 0, 0, 1, 0]),
    (0x001000ef, "jal", [1, 0, 0, 1024, 0]),
    (0x000010ef, "jal", [1, 0, 0, 2048, 0]),
    (0x7ffff0ef, "jal", [1, 0, 0, 524287, 0]),
    (0xfffff0ef, "jal", [1, 0, 0, 1048575, 0]),
    (0x800000ef, "jal", [1, 0, 0, 524288, 0]),
    (0x4aa55fef, "jal", [31, 0, 0, 174677, 0]),
    (0x000f80e7, "jalr", [1, 31, 0, 0, 0]),
    (0x00008f93, "addi", [31, 1, 0, 0, 0]),
    (0x0008009b, "addiw", [1, 16, 0, 0, 0]),
    (0x00013f83, "ld", [31, 2, 0, 0, 0]),
    (0x01f13023, "sd", [0, 2, 31, 0, 0]),
    (0x001f80e7, "jalr", [1, 31, 0, 1, 0]),
    (0x00108f93, "addi", [31, 1, 0, 1, 0]),
    (0x0018009b, "addiw", [1, 16, 0, 1, 0]),
    (0x00113f83, "ld", [31, 2, 0, 1, 0]),
    (0x01f130a3, "sd", [0, 2, 31, 1, 0]),
    (0x7fff80e7, "jalr", [1, 31, 0, 2047, 0]),
    (0x7ff08f93, "addi", [31, 1, 0, 2047, 0]),
    (0x7ff8009b, "addiw", [1, 16, 0, 2047, 0]),
    (0x7ff13f83, "ld", [31, 2, 0, 2047, 0]),
    (0x7ff13fa3, "sd", [0, 2, 31, 2047, 0]),
    (0xffff80e7, "jalr", [1, 31, 0, 4095, 0]),
    (0xfff08f93, "addi", [31, 1, 0, 4095, 0]),
    (0xfff8009b, "addiw", [1, 16, 0, 4095, 0]),
    (0xfff13f83, "ld", [31, 2, 0, 4095, 0]),
    (0xfff13fa3, "sd", [0, 2, 31, 4095, 0]),
    (0x800f80e7, "jalr", [1, 31, 0, 2048, 0]),
    (0x80008f93, "addi", [31, 1, 0, 2048, 0]),
    (0x8008009b, "addiw", [1, 16, 0, 2048, 0]),
    (0x80013f83, "ld", [31, 2, 0, 2048, 0]),
    (0x81f13023, "sd", [0, 2, 31, 2048, 0]),
    (0x555ea113, "slti", [2, 29, 0, 1365, 0]),
    (0x80012e93, "slti", [29, 2, 0, 2048, 0]),
    (0x555eb113, "sltiu", [2, 29, 0, 1365, 0]),
    (0x80013e93, "sltiu", [29, 2, 0, 2048, 0]),
    (0x555ec113, "xori", [2, 29, 0, 1365, 0]),
    (0x80014e93, "xori", [29, 2, 0, 2048, 0]),
    (0x555ee113, "ori", [2, 29, 0, 1365, 0]),
    (0x80016e93, "ori", [29, 2, 0, 2048, 0]),
    (0x555ef113, "andi", [2, 29, 0, 1365, 0]),
    (0x80017e93, "andi", [29, 2, 0, 2048, 0]),
    (0x7ffe0183, "lb", [3, 28, 0, 2047, 0]),
    (0x80018e03, "lb", [28, 3, 0, 2048, 0]),
    (0x7ffe1183, "lh", [3, 28, 0, 2047, 0]),
    (0x80019e03, "lh", [28, 3, 0, 2048, 0]),
    (0x7ffe2183, "lw", [3, 28, 0, 2047, 0]),
    (0x8001ae03, "lw", [28, 3, 0, 2048, 0]),
    (0x7ffe4183, "lbu", [3, 28, 0, 2047, 0]),
    (0x8001ce03, "lbu", [28, 3, 0, 2048, 0]),
    (0x7ffe5183, "lhu", [3, 28, 0, 2047, 0]),
    (0x8001de03, "lhu", [28, 3, 0, 2048, 0]),
    (0x7ffe6183, "lwu", [3, 28, 0, 2047, 0]),
    (0x8001ee03, "lwu", [28, 3, 0, 2048, 0]),
    (0x7fc18023, "sb", [0, 3, 28, 2016, 0]),
    (0x803e0fa3, "sb", [0, 28, 3, 2079, 0]),
    (0x7fc19023, "sh", [0, 3, 28, 2016, 0]),
    (0x803e1fa3, "sh", [0, 28, 3, 2079, 0]),
    (0x7fc1a023, "sw", [0, 3, 28, 2016, 0]),
    (0x803e2fa3, "sw", [0, 28, 3, 2079, 0]),
    (0x001f8163, "beq", [0, 31, 1, 1, 0]),
    (0x001f8f63, "beq", [0, 31, 1, 15, 0]),
    (0x021f8063, "beq", [0, 31, 1, 16, 0]),
    (0x7e1f8f63, "beq", [0, 31, 1, 1023, 0]),
    (0x001f80e3, "beq", [0, 31, 1, 1024, 0]),
    (0x7e1f8fe3, "beq", [0, 31, 1, 2047, 0]),
    (0xfe1f8fe3, "beq", [0, 31, 1, 4095, 0]),
    (0x801f8063, "beq", [0, 31, 1, 2048, 0]),
    (0x75a29ae3, "bne", [0, 5, 26, 1962, 0]),
    (0x8a5d15e3, "bne", [0, 26, 5, 3157, 0]),
    (0x75a2cae3, "blt", [0, 5, 26, 1962, 0]),
    (0x8a5d45e3, "blt", [0, 26, 5, 3157, 0]),
    (0x75a2dae3, "bge", [0, 5, 26, 1962, 0]),
    (0x8a5d55e3, "bge", [0, 26, 5, 3157, 0]),
    (0x75a2eae3, "bltu", [0, 5, 26, 1962, 0]),
    (0x8a5d65e3, "bltu", [0, 26, 5, 3157, 0]),
    (0x75a2fae3, "bgeu", [0, 5, 26, 1962, 0]),
    (0x8a5d75e3, "bgeu", [0, 26, 5, 3157, 0]),
    (0x000d9213, "slli", [4, 27, 0, 0, 0]),
    (0x001d9213, "slli", [4, 27, 0, 1, 0]),
    (0x01fd9213, "slli", [4, 27, 0, 31, 0]),
    (0x020d9213, "slli", [4, 27, 0, 32, 0]),
    (0x03fd9213, "slli", [4, 27, 0, 63, 0]),
    (0x000dd213, "srli", [4, 27, 0, 0, 0]),
    (0x001dd213, "srli", [4, 27, 0, 1, 0]),
    (0x01fdd213, "srli", [4, 27, 0, 31, 0]),
    (0x020dd213, "srli", [4, 27, 0, 32, 0]),
    (0x03fdd213, "srli", [4, 27, 0, 63, 0]),
    (0x400dd213, "srai", [4, 27, 0, 0, 0]),
    (0x401dd213, "srai", [4, 27, 0, 1, 0]),
    (0x41fdd213, "srai", [4, 27, 0, 31, 0]),
    (0x420dd213, "srai", [4, 27, 0, 32, 0]),
    (0x43fdd213, "srai", [4, 27, 0, 63, 0]),
    (0x00021d9b, "slliw", [27, 4, 0, 0, 0]),
    (0x00121d9b, "slliw", [27, 4, 0, 1, 0]),
    (0x01f21d9b, "slliw", [27, 4, 0, 31, 0]),
    (0x00025d9b, "srliw", [27, 4, 0, 0, 0]),
    (0x00125d9b, "srliw", [27, 4, 0, 1, 0]),
    (0x01f25d9b, "srliw", [27, 4, 0, 31, 0]),
    (0x40025d9b, "sraiw", [27, 4, 0, 0, 0]),
    (0x40125d9b, "sraiw", [27, 4, 0, 1, 0]),
    (0x41f25d9b, "sraiw", [27, 4, 0, 31, 0]),
    (0x004100b3, "add", [1, 2, 4, 0, 0]),
    (0x01df0fb3, "add", [31, 30, 29, 0, 0]),
    (0x404100b3, "sub", [1, 2, 4, 0, 0]),
    (0x41df0fb3, "sub", [31, 30, 29, 0, 0]),
    (0x004110b3, "sll", [1, 2, 4, 0, 0]),
    (0x01df1fb3, "sll", [31, 30, 29, 0, 0]),
    (0x004120b3, "slt", [1, 2, 4, 0, 0]),
    (0x01df2fb3, "slt", [31, 30, 29, 0, 0]),
    (0x004130b3, "sltu", [1, 2, 4, 0, 0]),
    (0x01df3fb3, "sltu", [31, 30, 29, 0, 0]),
    (0x004140b3, "xor", [1, 2, 4, 0, 0]),
    (0x01df4fb3, "xor", [31, 30, 29, 0, 0]),
    (0x004150b3, "srl", [1, 2, 4, 0, 0]),
    (0x01df5fb3, "srl", [31, 30, 29, 0, 0]),
    (0x404150b3, "sra", [1, 2, 4, 0, 0]),
    (0x41df5fb3, "sra", [31, 30, 29, 0, 0]),
    (0x004160b3, "or", [1, 2, 4, 0, 0]),
    (0x01df6fb3, "or", [31, 30, 29, 0, 0]),
    (0x004170b3, "and", [1, 2, 4, 0, 0]),
    (0x01df7fb3, "and", [31, 30, 29, 0, 0]),
    (0x004100bb, "addw", [1, 2, 4, 0, 0]),
    (0x01df0fbb, "addw", [31, 30, 29, 0, 0]),
    (0x404100bb, "subw", [1, 2, 4, 0, 0]),
    (0x41df0fbb, "subw", [31, 30, 29, 0, 0]),
    (0x004110bb, "sllw", [1, 2, 4, 0, 0]),
    (0x01df1fbb, "sllw", [31, 30, 29, 0, 0]),
    (0x004150bb, "srlw", [1, 2, 4, 0, 0]),
    (0x01df5fbb, "srlw", [31, 30, 29, 0, 0]),
    (0x404150bb, "sraw", [1, 2, 4, 0, 0]),
    (0x41df5fbb, "sraw", [31, 30, 29, 0, 0]),
    (0x02c58533, "mul", [10, 11, 12, 0, 0]),
    (0x03e08fb3, "mul", [31, 1, 30, 0, 0]),
    (0x02c59533, "mulh", [10, 11, 12, 0, 0]),
    (0x03e09fb3, "mulh", [31, 1, 30, 0, 0]),
    (0x02c5a533, "mulhsu", [10, 11, 12, 0, 0]),
    (0x03e0afb3, "mulhsu", [31, 1, 30, 0, 0]),
    (0x02c5b533, "mulhu", [10, 11, 12, 0, 0]),
    (0x03e0bfb3, "mulhu", [31, 1, 30, 0, 0]),
    (0x02c5c533, "div", [10, 11, 12, 0, 0]),
    (0x03e0cfb3, "div", [31, 1, 30, 0, 0]),
    (0x02c5d533, "divu", [10, 11, 12, 0, 0]),
    (0x03e0dfb3, "divu", [31, 1, 30, 0, 0]),
    (0x02c5e533, "rem", [10, 11, 12, 0, 0]),
    (0x03e0efb3, "rem", [31, 1, 30, 0, 0]),
    (0x02c5f533, "remu", [10, 11, 12, 0, 0]),
    (0x03e0ffb3, "remu", [31, 1, 30, 0, 0]),
    (0x02c5853b, "mulw", [10, 11, 12, 0, 0]),
    (0x03e08fbb, "mulw", [31, 1, 30, 0, 0]),
    (0x02c5c53b, "divw", [10, 11, 12, 0, 0]),
    (0x03e0cfbb, "divw", [31, 1, 30, 0, 0]),
    (0x02c5d53b, "divuw", [10, 11, 12, 0, 0]),
    (0x03e0dfbb, "divuw", [31, 1, 30, 0, 0]),
    (0x02c5e53b, "remw", [10, 11, 12, 0, 0]),
    (0x03e0efbb, "remw", [31, 1, 30, 0, 0]),
    (0x02c5f53b, "remuw", [10, 11, 12, 0, 0]),
    (0x03e0ffbb, "remuw", [31, 1, 30, 0, 0]),
    (0x0ff0000f, "fence", [0, 0, 0, 261120, 0]),
    (0x8330000f, "fence", [0, 0, 0, 2149376, 0]),
    (0x0120000f, "fence", [0, 0, 0, 18432, 0]),
    (0xffff8f8f, "fence", [0, 0, 0, 4194303, 0]),
    (0x0000100f, "fence.i", [0, 0, 0, 0, 0]),
    (0xffff9f8f, "fence.i", [0, 0, 0, 4194303, 0]),
    (0x00000073, "ecall", [0, 0, 0, 0, 0]),
    (0x00100073, "ebreak", [0, 0, 0, 0, 0]),
    (0x100f20af, "lr.w", [1, 30, 0, 0, 0]),
    (0x18f0af2f, "sc.w", [30, 1, 15, 0, 0]),
    (0x090fa02f, "amoswap.w", [0, 31, 16, 0, 0]),
    (0x00802faf, "amoadd.w", [31, 0, 8, 0, 0]),
    (0x100f30af, "lr.d", [1, 30, 0, 0, 0]),
    (0x18f0bf2f, "sc.d", [30, 1, 15, 0, 0]),
    (0x090fb02f, "amoswap.d", [0, 31, 16, 0, 0]),
    (0x00803faf, "amoadd.d", [31, 0, 8, 0, 0]),
    (0x120f20af, "lr.w", [1, 30, 0, 0, 1]),
    (0x1af0af2f, "sc.w", [30, 1, 15, 0, 1]),
    (0x0b0fa02f, "amoswap.w", [0, 31, 16, 0, 1]),
    (0x02802faf, "amoadd.w", [31, 0, 8, 0, 1]),
    (0x120f30af, "lr.d", [1, 30, 0, 0, 1]),
    (0x1af0bf2f, "sc.d", [30, 1, 15, 0, 1]),
    (0x0b0fb02f, "amoswap.d", [0, 31, 16, 0, 1]),
    (0x02803faf, "amoadd.d", [31, 0, 8, 0, 1]),
    (0x140f20af, "lr.w", [1, 30, 0, 0, 2]),
    (0x1cf0af2f, "sc.w", [30, 1, 15, 0, 2]),
    (0x0d0fa02f, "amoswap.w", [0, 31, 16, 0, 2]),
    (0x04802faf, "amoadd.w", [31, 0, 8, 0, 2]),
    (0x140f30af, "lr.d", [1, 30, 0, 0, 2]),
    (0x1cf0bf2f, "sc.d", [30, 1, 15, 0, 2]),
    (0x0d0fb02f, "amoswap.d", [0, 31, 16, 0, 2]),
    (0x04803faf, "amoadd.d", [31, 0, 8, 0, 2]),
    (0x160f20af, "lr.w", [1, 30, 0, 0, 3]),
    (0x1ef0af2f, "sc.w", [30, 1, 15, 0, 3]),
    (0x0f0fa02f, "amoswap.w", [0, 31, 16, 0, 3]),
    (0x06802faf, "amoadd.w", [31, 0, 8, 0, 3]),
    (0x160f30af, "lr.d", [1, 30, 0, 0, 3]),
    (0x1ef0bf2f, "sc.d", [30, 1, 15, 0, 3]),
    (0x0f0fb02f, "amoswap.d", [0, 31, 16, 0, 3]),
    (0x06803faf, "amoadd.d", [31, 0, 8, 0, 3]),
    (0x24cca32f, "amoxor.w", [6, 25, 12, 0, 2]),
    (0x23333caf, "amoxor.d", [25, 6, 19, 0, 1]),
    (0x44cca32f, "amoor.w", [6, 25, 12, 0, 2]),
    (0x43333caf, "amoor.d", [25, 6, 19, 0, 1]),
    (0x64cca32f, "amoand.w", [6, 25, 12, 0, 2]),
    (0x63333caf, "amoand.d", [25, 6, 19, 0, 1]),
    (0x84cca32f, "amomin.w", [6, 25, 12, 0, 2]),
    (0x83333caf, "amomin.d", [25, 6, 19, 0, 1]),
    (0xa4cca32f, "amomax.w", [6, 25, 12, 0, 2]),
    (0xa3333caf, "amomax.d", [25, 6, 19, 0, 1]),
    (0xc4cca32f, "amominu.w", [6, 25, 12, 0, 2]),
    (0xc3333caf, "amominu.d", [25, 6, 19, 0, 1]),
    (0xe4cca32f, "amomaxu.w", [6, 25, 12, 0, 2]),
    (0xe3333caf, "amomaxu.d", [25, 6, 19, 0, 1]),
    (0x00010001, "none", [0, 0, 0, 0, 0]),
    (0x00000000, "none", [0, 0, 0, 0, 0]),
    (0xffffffff, "none", [0, 0, 0, 0, 0]),
    (0x00012087, "none", [0, 0, 0, 0, 0]),
    (0x00113027, "none", [0, 0, 0, 0, 0]),
    (0x003170d3, "none", [0, 0, 0, 0, 0]),
    (0xc00110f3, "none", [0, 0, 0, 0, 0]),
    (0x0010e073, "none", [0, 0, 0, 0, 0]),
    (0x30200073, "none", [0, 0, 0, 0, 0]),
    (0x10500073, "none", [0, 0, 0, 0, 0]),
    (0x000000f3, "none", [0, 0, 0, 0, 0]),
    (0x00008073, "none", [0, 0, 0, 0, 0]),
    (0x00200073, "none", [0, 0, 0, 0, 0]),
    (0x000110e7, "none", [0, 0, 0, 0, 0]),
    (0x00112063, "none", [0, 0, 0, 0, 0]),
    (0x00113063, "none", [0, 0, 0, 0, 0]),
    (0x00017083, "none", [0, 0, 0, 0, 0]),
    (0x00114023, "none", [0, 0, 0, 0, 0]),
    (0x00117023, "none", [0, 0, 0, 0, 0]),
    (0x04011093, "none", [0, 0, 0, 0, 0]),
    (0x04015093, "none", [0, 0, 0, 0, 0]),
    (0x44015093, "none", [0, 0, 0, 0, 0]),
    (0x40011093, "none", [0, 0, 0, 0, 0]),
    (0x0201109b, "none", [0, 0, 0, 0, 0]),
    (0x0201509b, "none", [0, 0, 0, 0, 0]),
    (0x4201509b, "none", [0, 0, 0, 0, 0]),
    (0x0001209b, "none", [0, 0, 0, 0, 0]),
    (0x0001709b, "none", [0, 0, 0, 0, 0]),
    (0x403110b3, "none", [0, 0, 0, 0, 0]),
    (0x423100b3, "none", [0, 0, 0, 0, 0]),
    (0x203150b3, "none", [0, 0, 0, 0, 0]),
    (0x003120bb, "none", [0, 0, 0, 0, 0]),
    (0x403110bb, "none", [0, 0, 0, 0, 0]),
    (0x023110bb, "none", [0, 0, 0, 0, 0]),
    (0x023120bb, "none", [0, 0, 0, 0, 0]),
    (0x023130bb, "none", [0, 0, 0, 0, 0]),
    (0x063100b3, "none", [0, 0, 0, 0, 0]),
    (0x423140bb, "none", [0, 0, 0, 0, 0]),
    (0x0000200f, "none", [0, 0, 0, 0, 0]),
    (0x103120af, "none", [0, 0, 0, 0, 0]),
    (0x17f130af, "none", [0, 0, 0, 0, 0]),
    (0x003110af, "none", [0, 0, 0, 0, 0]),
    (0x003140af, "none", [0, 0, 0, 0, 0]),
    (0x283120af, "none", [0, 0, 0, 0, 0]),
    (0xf83130af, "none", [0, 0, 0, 0, 0]),
];

#[test]
fn words_of_gnu_as(rt: HostRuntime) -> Result<(), Fail> {
    for (word, name, fields) in ROWS.iter() {
        match decode(*word) {
            Some(instr) => {
                let (found_name, found_fields) = listed(&instr);
                assert_eq!(rt; found_name, *name, "{word:x}");
                assert_eq!(rt; found_fields, *fields, "{word:x}");
                assert_eq!(rt; encode(&instr), *word, "{name}");
            }
            None => assert_eq!(rt; *name, "none", "{word:x}"),
        }
    }
    Ok(())
}

#[test]
fn fields_at_their_ends(rt: HostRuntime) -> Result<(), Fail> {
    assert_eq!(rt; Field::<5>::new(31).ok_or("31")?.value(), 31);
    assert!(rt; Field::<5>::new(32).is_none());
    assert_eq!(rt; Field::<0>::new(0).ok_or("0")?.value(), 0);
    assert!(rt; Field::<0>::new(1).is_none());
    assert_eq!(rt;
        Field::<31>::new(0x7fff_ffff).ok_or("31 bits")?.value(),
        0x7fff_ffff
    );
    assert!(rt; Field::<31>::new(0x8000_0000).is_none());
    assert_eq!(rt;
        Field::<32>::new(u32::MAX).ok_or("32 bits")?.value(),
        u32::MAX
    );
    Ok(())
}

/// The name and the fields of an instruction, as in `ROWS`.
fn listed(instr: &Instr) -> (&'static str, [u32; 5]) {
    match *instr {
        Instr::Upper { op, rd, imm } => (upper_name(op), [rd.value(), 0, 0, imm.value(), 0]),
        Instr::Jal { rd, half } => ("jal", [rd.value(), 0, 0, half.value(), 0]),
        Instr::Jalr { rd, rs1, imm } => ("jalr", [rd.value(), rs1.value(), 0, imm.value(), 0]),
        Instr::Branch {
            kind,
            rs1,
            rs2,
            half,
        } => {
            (
                branch_name(kind),
                [0, rs1.value(), rs2.value(), half.value(), 0],
            )
        }
        Instr::Load { kind, rd, rs1, imm } => {
            (
                load_name(kind),
                [rd.value(), rs1.value(), 0, imm.value(), 0],
            )
        }
        Instr::Store {
            kind,
            rs1,
            rs2,
            imm,
        } => {
            (
                store_name(kind),
                [0, rs1.value(), rs2.value(), imm.value(), 0],
            )
        }
        Instr::Imm { op, rd, rs1, imm } => {
            (imm_name(op), [rd.value(), rs1.value(), 0, imm.value(), 0])
        }
        Instr::Shift {
            op,
            rd,
            rs1,
            amount,
        } => {
            let name = match op {
                ShiftOp::Left => "slli",
                ShiftOp::Right => "srli",
                ShiftOp::Signed => "srai",
            };
            (name, [rd.value(), rs1.value(), 0, amount.value(), 0])
        }
        Instr::ShiftW {
            op,
            rd,
            rs1,
            amount,
        } => {
            let name = match op {
                ShiftOp::Left => "slliw",
                ShiftOp::Right => "srliw",
                ShiftOp::Signed => "sraiw",
            };
            (name, [rd.value(), rs1.value(), 0, amount.value(), 0])
        }
        Instr::Op { op, rd, rs1, rs2 } => {
            (reg_name(op), [rd.value(), rs1.value(), rs2.value(), 0, 0])
        }
        Instr::Mul { op, rd, rs1, rs2 } => {
            (mul_name(op), [rd.value(), rs1.value(), rs2.value(), 0, 0])
        }
        Instr::Fence { bits } => ("fence", [0, 0, 0, bits.value(), 0]),
        Instr::FenceI { bits } => ("fence.i", [0, 0, 0, bits.value(), 0]),
        Instr::Ecall => ("ecall", [0; 5]),
        Instr::Ebreak => ("ebreak", [0; 5]),
        Instr::Amo {
            op,
            width,
            rd,
            rs1,
            rs2,
            aq,
            rl,
        } => {
            let fields = [rd.value(), rs1.value(), rs2.value(), 0, order(aq, rl)];
            (amo_name(op, width), fields)
        }
        Instr::Lr {
            width,
            rd,
            rs1,
            aq,
            rl,
        } => {
            let name = if width == Width::W { "lr.w" } else { "lr.d" };
            (name, [rd.value(), rs1.value(), 0, 0, order(aq, rl)])
        }
        Instr::Sc {
            width,
            rd,
            rs1,
            rs2,
            aq,
            rl,
        } => {
            let name = if width == Width::W { "sc.w" } else { "sc.d" };
            (
                name,
                [rd.value(), rs1.value(), rs2.value(), 0, order(aq, rl)],
            )
        }
    }
}

fn order(aq: bool, rl: bool) -> u32 {
    match (aq, rl) {
        (false, false) => 0,
        (false, true) => 1,
        (true, false) => 2,
        (true, true) => 3,
    }
}

fn upper_name(op: UpperOp) -> &'static str {
    match op {
        UpperOp::Lui => "lui",
        UpperOp::Auipc => "auipc",
    }
}

fn branch_name(kind: BranchKind) -> &'static str {
    match kind {
        BranchKind::Beq => "beq",
        BranchKind::Bne => "bne",
        BranchKind::Blt => "blt",
        BranchKind::Bge => "bge",
        BranchKind::Bltu => "bltu",
        BranchKind::Bgeu => "bgeu",
    }
}

fn load_name(kind: LoadKind) -> &'static str {
    match kind {
        LoadKind::Lb => "lb",
        LoadKind::Lh => "lh",
        LoadKind::Lw => "lw",
        LoadKind::Ld => "ld",
        LoadKind::Lbu => "lbu",
        LoadKind::Lhu => "lhu",
        LoadKind::Lwu => "lwu",
    }
}

fn store_name(kind: StoreKind) -> &'static str {
    match kind {
        StoreKind::Sb => "sb",
        StoreKind::Sh => "sh",
        StoreKind::Sw => "sw",
        StoreKind::Sd => "sd",
    }
}

fn imm_name(op: ImmOp) -> &'static str {
    match op {
        ImmOp::Addi => "addi",
        ImmOp::Slti => "slti",
        ImmOp::Sltiu => "sltiu",
        ImmOp::Xori => "xori",
        ImmOp::Ori => "ori",
        ImmOp::Andi => "andi",
        ImmOp::Addiw => "addiw",
    }
}

fn reg_name(op: RegOp) -> &'static str {
    match op {
        RegOp::Add => "add",
        RegOp::Sub => "sub",
        RegOp::Sll => "sll",
        RegOp::Slt => "slt",
        RegOp::Sltu => "sltu",
        RegOp::Xor => "xor",
        RegOp::Srl => "srl",
        RegOp::Sra => "sra",
        RegOp::Or => "or",
        RegOp::And => "and",
        RegOp::Addw => "addw",
        RegOp::Subw => "subw",
        RegOp::Sllw => "sllw",
        RegOp::Srlw => "srlw",
        RegOp::Sraw => "sraw",
    }
}

fn mul_name(op: MulOp) -> &'static str {
    match op {
        MulOp::Mul => "mul",
        MulOp::Mulh => "mulh",
        MulOp::Mulhsu => "mulhsu",
        MulOp::Mulhu => "mulhu",
        MulOp::Div => "div",
        MulOp::Divu => "divu",
        MulOp::Rem => "rem",
        MulOp::Remu => "remu",
        MulOp::Mulw => "mulw",
        MulOp::Divw => "divw",
        MulOp::Divuw => "divuw",
        MulOp::Remw => "remw",
        MulOp::Remuw => "remuw",
    }
}

fn amo_name(op: AmoOp, width: Width) -> &'static str {
    match (op, width) {
        (AmoOp::Add, Width::W) => "amoadd.w",
        (AmoOp::Swap, Width::W) => "amoswap.w",
        (AmoOp::Xor, Width::W) => "amoxor.w",
        (AmoOp::Or, Width::W) => "amoor.w",
        (AmoOp::And, Width::W) => "amoand.w",
        (AmoOp::Min, Width::W) => "amomin.w",
        (AmoOp::Max, Width::W) => "amomax.w",
        (AmoOp::Minu, Width::W) => "amominu.w",
        (AmoOp::Maxu, Width::W) => "amomaxu.w",
        (AmoOp::Add, Width::D) => "amoadd.d",
        (AmoOp::Swap, Width::D) => "amoswap.d",
        (AmoOp::Xor, Width::D) => "amoxor.d",
        (AmoOp::Or, Width::D) => "amoor.d",
        (AmoOp::And, Width::D) => "amoand.d",
        (AmoOp::Min, Width::D) => "amomin.d",
        (AmoOp::Max, Width::D) => "amomax.d",
        (AmoOp::Minu, Width::D) => "amominu.d",
        (AmoOp::Maxu, Width::D) => "amomaxu.d",
    }
}
