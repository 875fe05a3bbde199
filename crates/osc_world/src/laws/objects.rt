//! Laws of objects: which differ, which are dead, which can be freed, and what a new one holds.

ghost use Rattle.std.specs.Prelude.{ℕ, ◌≡◌, ◌≢◌, ◌≤◌, ◌<◌, ◌+◌, ◌++◌, ◌-◌, min, Bool, true, false, [], ◌∷◌, List, take, drop, length, replicate, slice_get, Option, Some, None, Result, Err, ◌&&◌};
ghost use Rattle.osc_sv39.specs.declared.entries.Access.{Access};
ghost use Rattle.osc_rv.specs.declared.instr.BranchKind.TheVariants.{Beq, Bne};
ghost use Rattle.osc_rv.specs.declared.instr.LoadKind.{LoadKind};
ghost use Rattle.osc_rv.specs.declared.instr.Width.{Width};
ghost use Rattle.osc_isa.specs.Integer.{load_width};
ghost use Rattle.osc_world.specs.declared.Value.{Value};
ghost use Rattle.osc_world.specs.declared.Value.TheVariants.{Ptr};
ghost use Rattle.osc_world.specs.declared.Byte.{Byte};
ghost use Rattle.osc_world.specs.declared.Byte.TheVariants.{Number};
ghost use Rattle.osc_world.specs.declared.ObjectWhy.TheVariants.{DeadObject, BadFree, PointerShared};
ghost use Rattle.osc_world.specs.declared.Place.{Place};
ghost use Rattle.osc_world.specs.Values.{is_pointer_value};
ghost use Rattle.osc_world.specs.States.{Hart};
ghost use Rattle.osc_world.specs.World.{WorldTurn, Object, Live, Dead};
ghost use Rattle.osc_world.specs.Operations.{is_taken_for};
ghost use Rattle.osc_world.specs.Accesses.{is_aligned, is_shared_area, is_reserved_word, disturbed, overlaid, object_overlaid, puts};
ghost use Rattle.osc_world.specs.Offers.{Errs, Unfit};
ghost use Rattle.osc_world.specs.Instructions.{load_step, store_step, holds_reservation, succeeds, objects_of};
ghost use Rattle.osc_world.specs.Calls.{free_deed, resized, zeros, without_object};

/// Pointers to two live objects, neither past its object's end, are different.
pub fn live_objects_differ()
    ensures { (objects : List Object) (o k q j : ℕ) (a b : List Byte) → o ≢ q → slice_get objects o ≡ Some (Live a)
        → slice_get objects q ≡ Some (Live b) → k ≤ length a → j ≤ length b
        → is_taken_for objects Bne (Ptr o k) (Ptr q j) ≡ Some true }
{}

/// An aligned load or store of a number by a pointer to a dead object errs so, whatever the offset.
#[tactic(auto, unfolding(crate::specs::Accesses::reached_place))]
pub fn dead_objects_refuse()
    ensures loads { (turn : WorldTurn) (kind : LoadKind) (rd o k size : ℕ) → slice_get (objects_of turn) o ≡ Some (Dead size)
        → is_aligned (load_width kind) (Ptr o k) ≡ true → load_step turn kind rd (Ptr o k) ≡ Err DeadObject }
    ensures stores { (turn : WorldTurn) (o k size : ℕ) (value : Value) → slice_get (objects_of turn) o ≡ Some (Dead size)
        → is_aligned 8 (Ptr o k) ≡ true → store_step turn 8 (Ptr o k) value ≡ Err DeadObject }
{}

/// A pointer to any other place of an object than its start can't be freed, nor can one to a dead object.
pub fn inner_pointers_are_not_freed()
    ensures inner { (turn : WorldTurn) (o k : ℕ) → 0 < k → free_deed turn (Ptr o k) ≡ Err BadFree }
    ensures dead { (turn : WorldTurn) (o k size : ℕ) → slice_get (objects_of turn) o ≡ Some (Dead size) → free_deed turn (Ptr o k) ≡ Err BadFree }
{}

/// The bytes of a new object are numbers 0, as many as were asked for.
pub fn new_objects_are_zero()
    ensures size { (size : ℕ) → length (zeros size) ≡ size }
    ensures zero { (size i : ℕ) → i < size → slice_get (zeros size) i ≡ Some (Number 0) }
{}

/// A realloc keeps the common bytes, and zeros follow.
pub fn resized_keeps_common_bytes()
    ensures size { (bytes : List Byte) (size : ℕ) → length (resized bytes size) ≡ size }
    ensures kept { (bytes : List Byte) (size i : ℕ) → i < size → i < length bytes → slice_get (resized bytes size) i ≡ slice_get bytes i }
    ensures zero { (bytes : List Byte) (size i : ℕ) → i < size → length bytes ≤ i → slice_get (resized bytes size) i ≡ Some (Number 0) }
{}

/// A store ends each other hart's reservation of its word.
pub fn stores_end_reservations()
    ensures { (pid : ℕ) (at : Place) (hart : Hart Value) → is_reserved_word pid at hart.process hart.reservation ≡ true
        → (disturbed pid at hart).reservation ≡ None }
{}

/// A store-conditional without a reservation can't succeed: it does not fit, unless it would put a
/// pointer into a shared region, which is an error.
pub fn success_needs_a_reservation()
    ensures fits { (turn : WorldTurn) (width : Width) (bytes rd : ℕ) (value : Value) (at : Place) → turn.hart.reservation ≡ None
        → (is_pointer_value value && is_shared_area at.area) ≡ false
        → succeeds turn rd (holds_reservation turn.hart.reservation at width) (puts at bytes value) ≡ Unfit }
    ensures errs { (turn : WorldTurn) (reserved : Bool) (bytes rd : ℕ) (value : Value) (at : Place)
        → (is_pointer_value value && is_shared_area at.area) ≡ true → succeeds turn rd reserved (puts at bytes value) ≡ Errs PointerShared }
{}

/// After its free an object is dead with its size, and every other one is as before.
pub fn freed_objects_are_dead()
    ensures freed { (objects : List Object) (o : ℕ) (bytes : List Byte) → slice_get objects o ≡ Some (Live bytes)
        → slice_get (without_object objects o) o ≡ Some (Dead (length bytes)) }
    ensures others { (objects : List Object) (o q : ℕ) → o ≢ q → slice_get (without_object objects o) q ≡ slice_get objects q }
    ensures count { (objects : List Object) (o : ℕ) → length (without_object objects o) ≡ length objects }
{}

/// A new object has the next number, and no other one changes.
pub fn new_objects_come_last()
    ensures new { (objects : List Object) (object : Object) → slice_get (objects ++ object ∷ []) (length objects) ≡ Some object }
    ensures others { (objects : List Object) (object : Object) (o : ℕ) → o < length objects
        → slice_get (objects ++ object ∷ []) o ≡ slice_get objects o }
{}

/// Stored bytes are read back, and all others stay; no store changes how many bytes there are.
pub fn stores_read_back()
    ensures size { (bytes others : List Byte) (offset : ℕ) → length (overlaid bytes offset others) ≡ length bytes }
    ensures stored { (bytes others : List Byte) (offset : ℕ) → offset + length others ≤ length bytes
        → take (length others) (drop offset (overlaid bytes offset others)) ≡ others }
    ensures below { (bytes others : List Byte) (offset i : ℕ) → i < offset
        → slice_get (overlaid bytes offset others) i ≡ slice_get bytes i }
    ensures above { (bytes others : List Byte) (offset i : ℕ) → offset + length others ≤ i
        → slice_get (overlaid bytes offset others) i ≡ slice_get bytes i }
{}

/// No store revives a dead object.
pub fn stores_revive_nothing()
    ensures { (offset size : ℕ) (bytes : List Byte) → object_overlaid offset bytes (Dead size) ≡ Dead size }
{}
