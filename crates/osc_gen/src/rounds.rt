//! The rounds of the guest: at each a pointer is drawn, and what is done with it.

ghost use Rattle.std.specs.Prelude.{◌≡◌, ◌*◌, ◌<◌, ◌≤◌, OnOk, None, Some, MatchResult};
ghost use Rattle.osc_asm.specs.Program.{with_code};
ghost use Rattle.osc_gen.specs.Guest as guest;
ghost use Rattle.osc_gen.specs.Draws.{chain};

use crate::code::{A0, A1, S0, S1, T0, ZERO, add, call, ld, sd};
use crate::draw::{Draw, drawn_by, next};
use osc_asm::Builder;
use std::alloc::AllocError;

/// For each pointer the size of its object, where that is live.
pub(crate) type Sizes = [Option<u32>; 16];

/// Where a pointer stands, in bytes past the first.
fn place_of(drawn: Draw) -> u32
    requires { drawn.pointer < 16 }
    ensures { (result ≡ 8 * drawn.pointer) × (result < 128) }
{
    8 * u32::from(drawn.pointer)
}

fn grant(builder: &mut Builder, round: u32, drawn: Draw) -> Result<(), AllocError>
    requires { (round < 1000) × (drawn.pointer < 16) × (drawn.size < 4096) }
    ensures { OnOk result (builder.new ≡ with_code builder.old (guest.granted round drawn)) }
{
    builder.li(A0, drawn.size)?;
    call(builder, 3)?;
    sd(builder, A0, place_of(drawn), S0)?;
    if drawn.size >= 8 {
        builder.li(T0, round)?;
        sd(builder, T0, 0, A0)?;
    }
    Ok(())
}

fn read(builder: &mut Builder, drawn: Draw, size: u32) -> Result<(), AllocError>
    requires { drawn.pointer < 16 }
    ensures { OnOk result (builder.new ≡ with_code builder.old (guest.read drawn size)) }
{
    if size >= 8 {
        ld(builder, T0, place_of(drawn), S0)?;
        ld(builder, T0, 0, T0)?;
        add(builder, S1, S1, T0)?;
    }
    Ok(())
}

fn free(builder: &mut Builder, drawn: Draw) -> Result<(), AllocError>
    requires { drawn.pointer < 16 }
    ensures { OnOk result (builder.new ≡ with_code builder.old (guest.freed drawn)) }
{
    ld(builder, A0, place_of(drawn), S0)?;
    call(builder, 4)?;
    sd(builder, ZERO, place_of(drawn), S0)?;
    Ok(())
}

fn move_object(builder: &mut Builder, drawn: Draw) -> Result<(), AllocError>
    requires { (drawn.pointer < 16) × (drawn.size < 4096) }
    ensures { OnOk result (builder.new ≡ with_code builder.old (guest.moved drawn)) }
{
    ld(builder, A0, place_of(drawn), S0)?;
    builder.li(A1, drawn.size)?;
    call(builder, 5)?;
    sd(builder, A0, place_of(drawn), S0)?;
    Ok(())
}

/// The code of a round, by the size of the pointer's object, where that is live.
fn round_code(
    builder: &mut Builder,
    round: u32,
    drawn: Draw,
    size: Option<u32>,
) -> Result<(), AllocError>
    requires { (round < 1000) × (drawn.pointer < 16) × (drawn.size < 4096) }
    ensures { OnOk result (builder.new ≡ with_code builder.old (guest.round_code round drawn size)) }
{
    match (size, drawn.deed) {
        (None, _) => grant(builder, round, drawn),
        (Some(size), 0 | 1) => read(builder, drawn, size),
        (Some(_), 2) => free(builder, drawn),
        (Some(_), _) => move_object(builder, drawn),
    }
}

/// What a round leaves at its pointer.
fn left_by(drawn: Draw, size: Option<u32>) -> Option<u32>
    ensures { result ≡ guest.left_by drawn size }
{
    match (size, drawn.deed) {
        (None, _) => Some(drawn.size),
        (Some(size), 0 | 1) => Some(size),
        (Some(_), 2) => None,
        (Some(_), _) => Some(drawn.size),
    }
}

/// The code of all rounds of a number.
pub(crate) fn rounds(builder: &mut Builder, number: u64) -> Result<(), AllocError>
    ensures { OnOk result (builder.new ≡ with_code builder.old (guest.rounds 0 guest.fresh (chain 1000 number))) }
{
    let mut sizes: Sizes = [None; 16];
    let mut last = number;
    for round in 0..1000_u32 {
        last = next(last);
        let drawn = drawn_by(last);
        let size = sizes[drawn.pointer as usize];
        round_code(builder, round, drawn, size)?;
        sizes[drawn.pointer as usize] = left_by(drawn, size);
    }
    Ok(())
}
