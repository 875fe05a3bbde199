//! Where a hart stands between two of its actions, and what it asks for there.

use crate::accesses::MemoryAccess;
use osc_word::{Request, WordAt};

/// How a hart goes on once it gave its box.
#[derive(Clone, Copy, Debug, PartialEq, Eq)]
pub enum After {
    /// It runs its next instruction.
    Run,
    /// It takes the kernel.
    Call(Request),
    /// It stays idle.
    Idle,
    Rest,
}

/// How far an access is whose frame is known.
#[derive(Clone, Copy, Debug, PartialEq, Eq)]
pub enum Stage {
    /// It loads the word that holds the instruction.
    Fetch,
    /// It loads the data word of a load.
    Load,
    /// It takes the gate of the data word's frame; a store-conditional only with this version.
    TakeGate { only: Option<u64> },
    /// It loads the data word under the gate, whose version it was told.
    GatedLoad { version: u64 },
    /// It stores the data word under the gate, where it found this word.
    GatedStore { version: u64, found: u64 },
}

/// The action that is next. From the taking of its box to the giving a hart holds it.
#[derive(Clone, Copy, Debug, PartialEq, Eq)]
pub enum Place {
    /// A running hart takes its box for an instruction.
    Run,
    /// An idle hart takes its box to look for an order.
    Idle,
    /// It loads the entry for the address from a table of this level, 0 for a leaf table.
    Walk {
        access: MemoryAccess,
        level: u8,
        table: u32,
    },
    /// It makes an access in a frame.
    Access {
        access: MemoryAccess,
        frame: u32,
        stage: Stage,
    },
    /// It opens the gate, which then has this version.
    OpenGate {
        frame: u32,
        version: u64,
    },
    /// It gives its box.
    GiveBox {
        after: After,
    },
    /// It takes the kernel, and goes on once that is given back.
    Call {
        request: Request,
    },
    /// It is at rest.
    Rest,
}

/// What a hart does next.
#[derive(Clone, Copy, Debug, PartialEq, Eq)]
pub enum Ask {
    /// Take its own box.
    TakeBox,
    /// Load a word.
    Load(WordAt),
    /// Take a frame's gate, whatever version it has, or only with this one.
    TakeGate { frame: u32, only: Option<u64> },
    /// Store a word.
    Store { at: WordAt, value: u64 },
    /// Open a gate that it took, with this version.
    OpenGate { frame: u32, version: u64 },
    /// Give its own box.
    GiveBox,
    /// Take the kernel for this, and be told when it was given back.
    Kernel(Request),
    /// Nothing any more.
    Rest,
}
