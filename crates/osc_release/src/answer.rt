//! The answer to a free.

use osc_word::ObjectNo;

/// The answer to a free of a live object.
#[derive(Clone, Copy, Debug, PartialEq, Eq)]
pub enum FreePlan {
    /// The object is dead and waits. Where `flush`, all that wait are let go: their blocks are to be
    /// given back when the call returns.
    Freed {
        object: ObjectNo,
        flush: bool,
    },
    /// The first header word that differs from what is kept. Nothing was changed.
    HeaderDamaged {
        object: ObjectNo,
        kept: u64,
        found: u64,
    },
}
