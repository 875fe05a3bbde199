//! The laws of heaps. Each is the contract of a function that does nothing.

ghost use Rattle.std.specs.Prelude.{ℕ, ◌≡◌, ◌≢◌, ◌+◌, ◌*◌, ◌/◌, ◌<◌, ◌≤◌, Bool, List, true, IsSome, length};
ghost use Rattle.osc_class.specs.declared.Room.{Room};
ghost use Rattle.osc_class.specs.Rooms.{IsRoom, shadow_pages};
ghost use Rattle.osc_slot.specs.declared.Block.{Block};
ghost use Rattle.osc_slot.specs.Areas.{first_page, area_of, slots_in, start_of, block_at_slot, LieApart};
ghost use Rattle.osc_slot.specs.Slots.{is_held, least_start, need, block_frames};
ghost use Rattle.osc_slot.specs.Heap.{Heap, IsHeap, FramesAgree, Keeps, AreNames, empty_heap, place, release, clear, copy, free_count};

/// Blocks at different slots lie apart.
pub fn slots_lie_apart()
    ensures { (frames : ℕ) (a b : Room) (slot other : ℕ) → IsRoom a → IsRoom b → slot < slots_in frames a → other < slots_in frames b
        → block_at_slot frames a slot ≢ block_at_slot frames b other → LieApart (block_at_slot frames a slot) (block_at_slot frames b other) }
{}

/// The pages of a block are pages of its room's area.
pub fn slots_lie_in_areas()
    ensures { (frames : ℕ) (room : Room) (slot : ℕ) → IsRoom room → slot < slots_in frames room
        → (first_page + area_of room * frames ≤ start_of frames room slot / 4096)
        × (start_of frames room slot / 4096 + shadow_pages room ≤ first_page + (area_of room + 1) * frames) }
{}

/// A slot exists wherever the need is at most the free frames, for any held blocks whose frames are
/// not free.
pub fn slot_exists()
    ensures { (frames : ℕ) (held : List Block) (room : Room) (free : ℕ) → IsRoom room → block_frames frames held + free ≤ frames
        → need frames held room ≤ free → IsSome (least_start frames held room) }
{}

/// An empty heap is a heap.
pub fn empty_is_heap()
    ensures { (frames : ℕ) → IsHeap (empty_heap frames) }
{}

/// An empty heap agrees with any free frames of its machine.
pub fn empty_agrees()
    ensures { (free : List Bool) → FramesAgree (empty_heap (length free)) free }
{}

/// To place a block keeps a heap, and free and held frames add up.
pub fn placing_keeps()
    ensures { (heap : Heap) (room : Room) (free : List Bool) → IsHeap heap → FramesAgree heap free → IsRoom room
        → need heap.frames heap.held room ≤ free_count free → Keeps heap free (place heap room free) }
{}

/// To release a held block keeps a heap, and free and held frames add up.
pub fn releasing_keeps()
    ensures { (heap : Heap) (block : Block) (free : List Bool) → IsHeap heap → FramesAgree heap free
        → is_held heap.held block ≡ true → Keeps heap free (release heap block free) }
{}

/// To clear a heap keeps a heap, and free and held frames add up.
pub fn clearing_keeps()
    ensures { (heap : Heap) (free : List Bool) → IsHeap heap → FramesAgree heap free → Keeps heap free (clear heap free) }
{}

/// A copy over different frames is a heap.
pub fn copy_is_heap()
    ensures { (heap : Heap) (names : List ℕ) → IsHeap heap → AreNames heap.frames names heap.pages → IsHeap (copy names heap) }
{}
