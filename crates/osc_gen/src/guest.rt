//! The whole guest: the rounds between a start and an end, and the second thread.

ghost use Rattle.std.specs.Prelude.{◌≡◌, OnOk, IfOk, Ok, length, slice_get, Some, None};
ghost use Rattle.osc_asm.specs.File.{file_of};
ghost use Rattle.osc_asm.specs.Program.{with_code};
ghost use Rattle.osc_gen.specs.Guest as guest;

use crate::code::{A0, A1, A2, S0, S1, S2, T0, T1, ZERO, add, addi, call, ld, register, sd};
use crate::rounds::rounds;
use osc_asm::{Builder, LabelNo};
use osc_rv::{AmoOp, BranchKind, Instr, Width};
use std::alloc::{AllocError, Global};

/// The 12 bits of -1.
const MINUS_ONE: u32 = 4095;

fn start(builder: &mut Builder, worker: LabelNo) -> Result<(), AllocError>
    requires { worker ≡ guest.worker }
    ensures { OnOk result (builder.new ≡ with_code builder.old guest.start_code) }
{
    builder.la_bytes(S0, 0)?;
    addi(builder, S1, ZERO, 0)?;
    builder.la(A0, worker)?;
    addi(builder, A1, ZERO, 0)?;
    addi(builder, A2, S0, 128)?;
    call(builder, 7)?;
    addi(builder, S2, A0, 0)?;
    Ok(())
}

fn end(builder: &mut Builder) -> Result<(), AllocError>
    ensures { OnOk result (builder.new ≡ with_code builder.old guest.end_code) }
{
    addi(builder, A0, S2, 0)?;
    call(builder, 8)?;
    ld(builder, T0, 128, S0)?;
    add(builder, S1, S1, T0)?;
    sd(builder, S1, 136, S0)?;
    addi(builder, A0, S0, 136)?;
    addi(builder, A1, ZERO, 8)?;
    call(builder, 2)?;
    addi(builder, A0, ZERO, 0)?;
    call(builder, 1)?;
    Ok(())
}

fn worker_start(builder: &mut Builder) -> Result<(), AllocError>
    ensures { OnOk result (builder.new ≡ with_code builder.old guest.worker_start) }
{
    addi(builder, T0, ZERO, 1000)?;
    addi(builder, T1, ZERO, 1)?;
    Ok(())
}

fn worker_loop(builder: &mut Builder, again: LabelNo) -> Result<(), AllocError>
    requires { again ≡ guest.again }
    ensures { OnOk result (builder.new ≡ with_code builder.old guest.worker_loop) }
{
    builder.emit(Instr::Amo {
        op: AmoOp::Add,
        width: Width::D,
        rd: register(ZERO),
        rs1: register(A0),
        rs2: register(T1),
        aq: false,
        rl: false,
    })?;
    addi(builder, T0, T0, MINUS_ONE)?;
    builder.branch(BranchKind::Bne, T0, ZERO, again)?;
    addi(builder, A0, ZERO, 0)?;
    call(builder, 9)?;
    Ok(())
}

/// What the guest of a number puts into a builder.
#[tactic(auto, unfolding(crate::specs::Guest::guest))]
fn built(alloc: Global, number: u64) -> Result<Builder, AllocError>
    ensures { IfOk result (λ builder. builder ≡ guest.guest number) }
{
    let mut builder = Builder::new(alloc);
    let worker = builder.label()?;
    let again = builder.label()?;
    builder.bytes(&[0; 144])?;
    start(&mut builder, worker)?;
    rounds(&mut builder, number)?;
    end(&mut builder)?;
    builder.bind(worker);
    worker_start(&mut builder)?;
    builder.bind(again);
    worker_loop(&mut builder, again)?;
    Ok(builder)
}

/// The file of the guest of a number. Memory may run out at any number, and nothing else keeps the
/// file back: the assembler refuses no guest.
#[tactic(auto, using(crate::proofs::Making::made))]
pub fn guest_of(alloc: Global, number: u64) -> Result<Vec<u8>, AllocError>
    ensures file { IfOk result (λ file. file.items ≡ guest.guest_file number) }
    ensures made { file_of (guest.guest number) ≡ Ok (guest.guest_file number) }
{
    let builder = built(alloc, number)?;
    match builder.finish(alloc) {
        Ok(file) => Ok(file),
        Err(_) => Err(AllocError),
    }
}
