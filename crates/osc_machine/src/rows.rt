//! Rows of the layers below, worked through. Each function does nothing: what it says is computed
//! from the definitions.

ghost use Rattle.osc_machine.specs.Rows.{RoomsFound, AddressesSplit, EntriesWritten, SlotsFound, CacheSeen};

/// The rooms of sizes at the borders of classes.
#[tactic(auto, unfolding(osc_class::specs::Rooms::room_of))]
pub fn rooms_found()
    ensures { RoomsFound }
{}

/// The numbers in an address, and the words of entries.
pub fn entries_written()
    ensures addresses { AddressesSplit }
    ensures words { EntriesWritten }
{}

/// The least slots.
#[tactic(auto, unfolding(osc_slot::specs::Least::least, osc_slot::specs::Least::any, osc_slot::specs::Slots::beside, osc_slot::specs::Slots::empty_page))]
pub fn slots_found()
    ensures { SlotsFound }
{}

/// Two pages of one slot in a cache.
#[tactic(auto, unfolding(osc_paging::specs::Boxes::no_entries))]
pub fn cache_seen()
    ensures { CacheSeen }
{}
