//! Laws of operations on pointers, and of the order in which errors are chosen.

ghost use Rattle.std.specs.Prelude.{ℕ, ◌≡◌, ◌≢◌, ◌<◌, ◌≤◌, ◌+◌, ◌-◌, ◌^◌, true, false, List, slice_get, Some, None, Err};
ghost use Rattle.osc_rv.specs.declared.instr.RegOp.TheVariants.{Add, Sub, Sltu};
ghost use Rattle.osc_rv.specs.declared.instr.ImmOp.TheVariants.{Sltiu};
ghost use Rattle.osc_rv.specs.declared.instr.MulOp.{MulOp};
ghost use Rattle.osc_rv.specs.declared.instr.AmoOp.TheVariants as amo;
ghost use Rattle.osc_rv.specs.declared.instr.Width.TheVariants.{W, D};
ghost use Rattle.osc_isa.specs.Numbers.{wrapped};
ghost use Rattle.osc_isa.specs.Multiply.{muldiv};
ghost use Rattle.osc_world.specs.declared.Value.{Value};
ghost use Rattle.osc_world.specs.declared.Value.TheVariants.{Num, Ptr};
ghost use Rattle.osc_world.specs.declared.ObjectWhy.TheVariants.{Trap, PointerUse, DeadObject, PointerShared};
ghost use Rattle.osc_world.specs.declared.Area.TheVariants.{Shared};
ghost use Rattle.osc_world.specs.World.{WorldTurn, Object, Dead, object_size};
ghost use Rattle.osc_world.specs.Operations.{operated, operated_imm, multiplied, amo_value};
ghost use Rattle.osc_world.specs.Accesses.{is_aligned, is_storable, in_area, puts};
ghost use Rattle.osc_world.specs.Instructions.{objects_of, store_step};

/// A number added and taken away again gives the pointer; two pointers to one object have a distance, and
/// two to different ones have none.
pub fn pointers_move()
    ensures back { (objects : List Object) (o k n : ℕ) → k < 2 ^ 64 → n < 2 ^ 64 → operated objects Sub (Ptr o (wrapped (k + n))) (Num n) ≡ Some (Ptr o k) }
    ensures distance { (objects : List Object) (o k j : ℕ) → k < 2 ^ 64 → j ≤ k → operated objects Sub (Ptr o k) (Ptr o j) ≡ Some (Num (k - j)) }
    ensures apart { (objects : List Object) (o q k j : ℕ) → o ≢ q → operated objects Sub (Ptr o k) (Ptr q j) ≡ None }
    ensures sum { (objects : List Object) (o q k j : ℕ) → operated objects Add (Ptr o k) (Ptr q j) ≡ None }
{}

/// A pointer that is not past its object's end is not 0, whether the object lives or not.
pub fn pointers_are_not_null()
    ensures above { (objects : List Object) (o k : ℕ) (object : Object) → slice_get objects o ≡ Some object → k ≤ object_size object
        → operated objects Sltu (Num 0) (Ptr o k) ≡ Some (Num 1) }
    ensures below { (objects : List Object) (o k : ℕ) (object : Object) → slice_get objects o ≡ Some object → k ≤ object_size object
        → operated_imm objects Sltiu (Ptr o k) 1 ≡ Some (Num 0) }
{}

/// An atomic memory operation takes a pointer only as an exchange of 8 bytes.
pub fn pointers_are_exchanged_whole()
    ensures exchange { (old : Value) (o k : ℕ) → amo_value amo.Swap D old (Ptr o k) ≡ Some (Ptr o k) }
    ensures narrow { (o k n : ℕ) → amo_value amo.Swap W (Num n) (Ptr o k) ≡ None }
    ensures sum { (o k n : ℕ) → amo_value amo.Add D (Ptr o k) (Num n) ≡ None }
{}

/// Numbers alone are multiplied and divided.
pub fn pointers_are_not_multiplied()
    ensures numbers { (op : MulOp) (a b : ℕ) → multiplied op (Num a) (Num b) ≡ Some (Num (muldiv op a b)) }
    ensures left { (op : MulOp) (o k : ℕ) (value : Value) → multiplied op (Ptr o k) value ≡ None }
    ensures right { (op : MulOp) (o k : ℕ) (value : Value) → multiplied op value (Ptr o k) ≡ None }
{}

/// A store errs by its alignment first, then by a pointer that its width does not take, then by a dead
/// object; a pointer into a shared region is the last.
#[tactic(auto, unfolding(crate::specs::Accesses::reached_place))]
pub fn first_errors_are_chosen()
    ensures alignment { (turn : WorldTurn) (width : ℕ) (address value : Value) → is_aligned width address ≡ false → store_step turn width address value ≡ Err Trap }
    ensures operand { (turn : WorldTurn) (width : ℕ) (address value : Value) → is_aligned width address ≡ true → is_storable width value ≡ false
        → store_step turn width address value ≡ Err PointerUse }
    ensures dead { (turn : WorldTurn) (width o k size : ℕ) (value : Value) → is_aligned width (Ptr o k) ≡ true → is_storable width value ≡ true
        → slice_get (objects_of turn) o ≡ Some (Dead size) → store_step turn width (Ptr o k) value ≡ Err DeadObject }
    ensures shared { (page offset o k : ℕ) → puts (in_area (Shared page) offset) 8 (Ptr o k) ≡ Err PointerShared }
{}
