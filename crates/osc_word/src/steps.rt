//! What a run tells of its steps: the events that commit, and labels for those who watch.

/// What is left open by an event's instruction.
#[derive(Clone, Copy, Debug, PartialEq, Eq)]
pub enum Choice {
    Plain,
    /// Memory was given.
    Given,
    /// The call was refused.
    Refused,
    /// A thread began on this hart.
    Started(u32),
    /// A store-conditional stored.
    Success,
    /// A store-conditional failed.
    Fail,
}

/// The commit of one instruction of a hart.
#[derive(Clone, Copy, Debug, PartialEq, Eq)]
pub struct Event {
    pub hart: u32,
    pub choice: Choice,
}

/// What an access does.
#[derive(Clone, Copy, Debug, PartialEq, Eq)]
pub enum Access {
    Fetch,
    Load,
    Store,
}

/// What a step did to objects, memory or processes. `first` and `pages` are shadow pages, and
/// `call` is the place of the call in the journal.
#[derive(Clone, Copy, Debug, PartialEq, Eq)]
pub enum Label {
    Gave {
        pid: u32,
        object: u32,
        first: u64,
        pages: u32,
        size: u64,
    },
    Freeing {
        pid: u32,
        object: u32,
        call: u32,
    },
    Freed {
        pid: u32,
        object: u32,
        call: u32,
    },
    Moving {
        pid: u32,
        old: u32,
        call: u32,
    },
    Moved {
        pid: u32,
        old: u32,
        call: u32,
        object: u32,
        first: u64,
        pages: u32,
        size: u64,
    },
    /// An access of `width` bytes, and whether it was done.
    Touched {
        pid: u32,
        hart: u32,
        address: u64,
        width: u8,
        kind: Access,
        done: bool,
    },
    Forked {
        pid: u32,
        child: u32,
    },
    Ended {
        pid: u32,
        fault: bool,
        status: u8,
    },
}
