//! The laws of a hart. Each function does nothing: what it says is proved of the definitions.

ghost use Rattle.osc_guest.specs.Hands.{HandsMove, HandKept};
ghost use Rattle.osc_guest.specs.Carry.{SetsCarried, DoneShown, ElseLost, SetsReached};
ghost use Rattle.osc_guest.specs.Ranges.{AsksIn, RangeKept, BeginsIn};
ghost use Rattle.osc_guest.specs.AccessLaws.{AccessesKept, ReservationsKept, LoadsAligned, StoresAligned};
ghost use Rattle.osc_guest.specs.Laws.{
  BusyKeeps,
  RestStays,
  GivingLooksAway,
  ChoicesCounted,
  FaultsKeep,
  SilenceKeeps,
  TakersOfBox,
  Loaders,
  TakersOfGate,
  Storers,
  Openers,
  Givers,
  Callers,
  Resters,
  AnswersMove,
  GivingMoves,
  FittingChanges,
};

/// A hart that is told that the thing was taken stays as it was, a hart at rest asks for nothing,
/// and what is made of a giving doesn't look at the box.
pub fn stays_exactly()
    ensures busy { BusyKeeps }
    ensures rest { RestStays }
    ensures giving { GivingLooksAway }
{}

/// The count of instructions rises with each choice; and an access that faults, and a step at which
/// nothing commits, change no register and not the pc.
pub fn answers_keep()
    ensures counted { ChoicesCounted }
    ensures faults { FaultsKeep }
    ensures silence { SilenceKeeps }
{}

/// What a hart has in its hand, and which thread it runs, change only with the answers that say so;
/// it holds its box exactly from the taking to the giving.
pub fn hands_move()
    ensures moves { HandsMove }
    ensures agree { HandKept }
{}

/// What was true of each page and each table that a hart was told of stays true of all that it holds,
/// reaches and walks through. It shows each access that it does, at a page that it reached, and
/// whatever else it shows was not done.
pub fn answers_carry()
    ensures carries { SetsCarried }
    ensures done { DoneShown }
    ensures lost { ElseLost }
    ensures reached { SetsReached }
{}

/// For each kind of action, the places at which a hart asks for it.
pub fn places_ask()
    ensures taking { TakersOfBox }
    ensures load { Loaders }
    ensures gate { TakersOfGate }
    ensures store { Storers }
    ensures opening { Openers }
    ensures giving { Givers }
    ensures kernel { Callers }
    ensures rest { Resters }
{}

/// Within an instruction each fitting answer but that the thing was taken leads nearer to its end,
/// and the giving of the box ends it.
pub fn answers_move()
    ensures nearer { AnswersMove }
    ensures given { GivingMoves }
    ensures changed { FittingChanges }
{}

/// A hart asks only for frames that the machine has, since it tests the number of each frame that
/// it reads from memory.
pub fn asks_within()
    ensures asks { AsksIn }
    ensures kept { RangeKept }
    ensures begins { BeginsIn }
{}

/// An access under way is aligned, and a fetch is that at the pc; a store-conditional is at the gate
/// and stores only with the version of the reservation for it; and the alignment of loads and stores
/// is that of the integer instructions.
pub fn accesses_fit()
    ensures conditional { ReservationsKept }
    ensures loads { LoadsAligned }
    ensures stores { StoresAligned }
    ensures under_way { AccessesKept }
{}
