//! How threads begin.

ghost use Rattle.std.specs.Prelude.{◌≡◌};
ghost use Rattle.osc_calls.specs.ProcessPlans.{thread_start, fork_start, spawn_start};

use crate::asking::Calling;
use osc_word::{ANSWER_REGISTER, Config, Frame, Pid, Regs, Start};

/// The register sp, the stack pointer.
const STACK_POINTER: u8 = 2;

/// The register a0, in which a thread's argument comes.
const FIRST_ARGUMENT: u8 = 10;

/// The beginning of a thread in a process whose topmost page table is in frame `root`.
pub fn thread_start(config: &Config, pid: Pid, root: Frame, regs: &Regs, pc: u64) -> Start
    ensures { result ≡ thread_start config.now pid root regs.now pc }
{
    Start {
        pid,
        root,
        regs: *regs,
        pc,
        levels: config.levels,
        frames: config.frames,
    }
}

/// The beginning of a child's first thread: it has the registers of the thread that forks, but the answer
/// 0, and goes on after the ecall.
pub fn fork_start(config: &Config, calling: &Calling, child: Pid, root: Frame) -> Start
    ensures { result ≡ fork_start config.now calling.now child root }
{
    let mut regs = calling.regs;
    regs.set(ANSWER_REGISTER, 0);
    thread_start(config, child, root, &regs, calling.pc.wrapping_add(4))
}

/// The beginning of a spawned thread: its registers are 0 but for the stack pointer in x2 and the argument
/// in x10.
pub fn spawn_start(config: &Config, pid: Pid, root: Frame, pc: u64, sp: u64, arg: u64) -> Start
    ensures { result ≡ spawn_start config.now pid root pc sp arg }
{
    let mut regs = Regs::new();
    regs.set(STACK_POINTER, sp);
    regs.set(FIRST_ARGUMENT, arg);
    thread_start(config, pid, root, &regs, pc)
}
