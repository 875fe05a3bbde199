//! Instruction words: half of them are instructions, of every opcode alike.
use osc_rv::{decode, encode};

/// The opcodes of RV64IA and fence.i.
const OPCODES: [u32; 14] = [
    0x03, 0x0F, 0x13, 0x17, 0x1B, 0x23, 0x2F, 0x33, 0x37, 0x3B, 0x63, 0x67, 0x6F, 0x73,
];

/// How often an instruction differs from the one before among `count` decoded words.
pub fn decoded(count: u64) -> u64 {
    let mut state = 1;
    let mut last = None;
    let mut changes: u64 = 0;
    for _ in 0..count {
        state = next(state);
        let instr = decode(word(state));
        if instr != last {
            changes = changes.wrapping_add(1);
        }
        last = instr;
    }
    changes
}

/// The sum of the words that the instructions of `count` decoded words are encoded to.
pub fn encoded(count: u64) -> u64 {
    let mut state = 1;
    let mut sum: u64 = 0;
    for _ in 0..count {
        state = next(state);
        if let Some(instr) = decode(word(state)) {
            sum = sum.wrapping_add(u64::from(encode(&instr)));
        }
    }
    sum
}

/// The next state of a linear congruential generator.
fn next(state: u64) -> u64 {
    state
        .wrapping_mul(6364136223846793005)
        .wrapping_add(1442695040888963407)
}

/// The word of a state: its upper half, with one of the opcodes.
fn word(state: u64) -> u32 {
    let opcode = OPCODES[(state >> 25) as usize % OPCODES.len()];
    (state >> 32) as u32 & !0x7F | opcode
}
