//! What harts ask of the kernel, what they are answered, and what the journal keeps.

ghost use Rattle.std.specs.Prelude.{◌≡◌};
ghost use Rattle.osc_word.specs.Environment.{call_of};

use crate::register_file::Regs;

/// The bytes that the output of all processes holds: 4 MiB.
pub const OUTPUT_LIMIT: u32 = 4_194_304;

/// The threads that are ever spawned.
pub const THREAD_LIMIT: u32 = 4096;

/// What many refusals answer.
pub const MINUS_ONE: u64 = u64::MAX;

/// The register a0, in which an answer comes.
pub const ANSWER_REGISTER: u8 = 10;

/// Why a process ends without being asked to.
#[derive(Clone, Copy, Debug, PartialEq, Eq)]
pub enum Fault {
    /// An instruction met an exception. `cause` is the exception code of the RISC-V Privileged
    /// manual, table "Supervisor cause register (scause) values after trap".
    Access {
        cause: u8,
        address: u64,
    },
    /// A free or realloc of an object that is dead since `call`.
    DoubleFree {
        pointer: u64,
        object: u32,
        call: u32,
    },
    /// A free or realloc of a pointer at which no object starts.
    BadFree {
        pointer: u64,
    },
    /// A word of an object's header was overwritten.
    Header {
        object: u32,
        kept: u64,
        found: u64,
    },
    /// An environment call without a meaning.
    UnknownCall {
        number: u64,
    },
}

/// An environment call with its arguments, or the end of a process by a fault.
#[derive(Clone, Copy, Debug, PartialEq, Eq)]
pub enum Call {
    Exit(u64),
    Write { buf: u64, len: u64 },
    Malloc(u64),
    Free(u64),
    Realloc { pointer: u64, size: u64 },
    Fork,
    Spawn { pc: u64, sp: u64, arg: u64 },
    Join(u64),
    Done(u64),
    Share(u64),
    Wait(u64),
    Unknown(u64),
    End(Fault),
}

impl Call {
    /// The environment call of an ecall with these registers: its number stands in a7, and its
    /// arguments in a0, a1 and a2.
    #[tactic(auto, unfolding(crate::specs::Environment::call_of))]
    pub fn of(regs: &Regs) -> Call
        ensures { result ≡ call_of regs.now }
    {
        let number = regs.get(17);
        let [a0, a1, a2] = [regs.get(10), regs.get(11), regs.get(12)];
        match number {
            1 => Call::Exit(a0),
            2 => Call::Write { buf: a0, len: a1 },
            3 => Call::Malloc(a0),
            4 => Call::Free(a0),
            5 => Call::Realloc {
                pointer: a0,
                size: a1,
            },
            6 => Call::Fork,
            7 => Call::Spawn {
                pc: a0,
                sp: a1,
                arg: a2,
            },
            8 => Call::Join(a0),
            9 => Call::Done(a0),
            10 => Call::Share(a0),
            11 => Call::Wait(a0),
            _ => Call::Unknown(number),
        }
    }
}

/// Why a hart takes the kernel.
#[derive(Clone, Copy, Debug, PartialEq, Eq)]
pub enum Request {
    Call(Call),
    /// It reports itself idle.
    Idle,
}

/// How a hart goes on once the kernel is given back.
#[derive(Clone, Copy, Debug, PartialEq, Eq)]
pub enum Resume {
    /// The call has returned this number in a0.
    Return(u64),
    /// The call was not ready: the hart asks again.
    Again,
    Idle,
    Fault(Fault),
}

/// The answer of a committed call.
#[derive(Clone, Copy, Debug, PartialEq, Eq)]
pub enum Answer {
    Number(u64),
    /// A new object.
    Given { object: u32, pointer: u64 },
    /// A block of the plain heap.
    Placed { pointer: u64 },
    Freed { object: u32 },
    /// The old object is dead, and a new one has its bytes.
    Moved { old: u32, object: u32, pointer: u64 },
    Nothing,
    Ended,
    NoShadow,
    NoFrames,
    NoHart,
    NoProcess,
    NoThread,
    Empty,
    Unknown,
    DoubleFree { object: u32, call: u32 },
    NotAnObject,
    HeaderDamaged { kept: u64, found: u64 },
    /// A buffer of a write is not readable at this address.
    BadBuffer { address: u64 },
}

/// A committed call of the journal.
#[derive(Clone, Copy, Debug, PartialEq, Eq)]
pub struct Entry {
    pub pid: u32,
    pub hart: u32,
    pub call: Call,
    pub answer: Answer,
}
