//! The answer to a realloc.

use osc_word::ObjectNo;

/// The answer to a realloc of a live object. All but `Moved` changed nothing.
#[derive(Clone, Copy, Debug, PartialEq, Eq)]
pub enum Realloced {
    /// The old object is dead, and a new one has its bytes at this user address.
    Moved {
        old: ObjectNo,
        object: ObjectNo,
        pointer: u64,
    },
    /// The first header word that differs from what is kept.
    HeaderDamaged {
        object: ObjectNo,
        kept: u64,
        found: u64,
    },
    /// There are too few shadow pages that may still be granted.
    NoShadow,
    /// There are too few free frames.
    NoFrames,
}
