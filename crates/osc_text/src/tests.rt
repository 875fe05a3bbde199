//! Words of GNU as, with the text of its source lines in this project's notation.
use super::*;
use osc_rv::decode;
use std::test::Fail;

static ROWS: [(u32, &str); 13] = [
    (0x80000fb7, "lui x31, 524288"),
    (0x800000ef, "jal x1, -1048576"),
    (0x800f80e7, "jalr x1, -2048(x31)"),
    (0x803e0fa3, "sb x3, -2017(x28)"),
    (0x801f8063, "beq x31, x1, -4096"),
    (0x43fdd213, "srai x4, x27, 63"),
    (0x41df0fb3, "sub x31, x30, x29"),
    (0x02c58533, "mul x10, x11, x12"),
    (0xffff8f8f, "fence 4194303"),
    (0x00100073, "ebreak"),
    (0x160f20af, "lr.w.aqrl x1, (x30)"),
    (0x0f0fb02f, "amoswap.d.aqrl x0, x16, (x31)"),
    (0xe3333caf, "amomaxu.d.rl x25, x19, (x6)"),
];

#[test]
fn text_of_words(rt: HostRuntime) -> Result<(), Fail> {
    let mut found = TextBuf::new();
    for (word, text) in ROWS.iter() {
        let instr = decode(*word).ok_or("no instruction")?;
        print_instr(&instr, &mut found);
        assert_eq!(rt; found.as_bytes(), text.as_bytes(), "{word:x}");
    }
    Ok(())
}

#[test]
fn spellings_name_their_instruction(rt: HostRuntime) -> Result<(), Fail> {
    for (word, text) in ROWS.iter() {
        let instr = decode(*word).ok_or("no instruction")?;
        let found = Spelling::of(&instr).instr().ok_or("no spelling")?;
        assert_eq!(rt; found, instr, "{text}");
    }
    Ok(())
}

#[test]
fn fronts_of_texts(rt: HostRuntime) -> Result<(), Fail> {
    let Some((offset, rest)) = number(b"-16(x31), x2") else {
        return Ok(assert!(rt; false, "number"));
    };
    assert!(rt; offset.negative);
    assert_eq!(rt; offset.magnitude.value(), 16);
    let Some((base, rest)) = address(rest) else {
        return Ok(assert!(rt; false, "address"));
    };
    assert_eq!(rt; base.value(), 31);
    assert_eq!(rt; rest, b", x2".as_slice());
    assert!(rt; register(b"x32").is_none());
    assert!(rt; register(b"31").is_none());
    assert!(rt; number(b"4194304").is_none());
    Ok(())
}
