//! Laws of entry words.

ghost use Rattle.osc_sv39.specs.ReadBack.{TablesReadBack, LeavesReadBack};

/// The word of a link or of a leaf says what it was made of.
pub fn entries_read_back()
    ensures tables { TablesReadBack }
    ensures leaves { LeavesReadBack }
{}
