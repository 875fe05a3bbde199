//! Laws of values in bytes.

ghost use Rattle.std.specs.Prelude.{ℕ, ◌≡◌, ◌<◌, ◌^◌, List, length, map, Some, slice_get};
ghost use Rattle.byteorder.specs.Endian.{little_bytes};
ghost use Rattle.osc_world.specs.declared.Value.{Value};
ghost use Rattle.osc_world.specs.declared.Value.TheVariants.{Num, Ptr};
ghost use Rattle.osc_world.specs.declared.Byte.{Byte};
ghost use Rattle.osc_world.specs.declared.Byte.TheVariants.{Number, Part};
ghost use Rattle.osc_world.specs.Values.{parts, spread, gather};

/// The eight parts of a stored pointer give it back.
pub fn pointers_read_back()
    ensures stored { (object offset : ℕ) → spread 8 (Ptr object offset) ≡ parts object offset }
    ensures loaded { (object offset : ℕ) → gather (parts object offset) ≡ Some (Ptr object offset) }
{}

/// The part of a pointer at a place among its eight bytes has that place's number.
pub fn parts_stand_in_order()
    ensures count { (object offset : ℕ) → length (parts object offset) ≡ 8 }
    ensures part { (object offset index : ℕ) → index < 8 → slice_get (parts object offset) index ≡ Some (Part object offset index) }
{}

/// Bytes among which there is a part hold no value, unless they are the eight parts of its pointer, in
/// order.
pub fn parts_are_no_numbers()
    ensures { (bytes : List Byte) (place object offset index : ℕ) (value : Value) → slice_get bytes place ≡ Some (Part object offset index)
        → gather bytes ≡ Some value → (bytes ≡ parts object offset) × (value ≡ Ptr object offset) }
{}

/// A number of 8 bytes gives itself back.
pub fn numbers_read_back()
    ensures { (number : ℕ) → number < 2 ^ 64 → gather (map Number (little_bytes 8 number)) ≡ Some (Num number) }
{}
