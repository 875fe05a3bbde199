//! Store-conditionals.

ghost use Rattle.std.specs.Prelude.{◌≡◌};
ghost use Rattle.osc_world.specs.Accesses as accesses;
ghost use Rattle.osc_world.specs.Instructions as instructions;
ghost use Rattle.osc_object.specs.Turns.{turn_shown, step_shown, put_shown, shown_by};
ghost use Rattle.osc_object.specs.Decisions.{decided_shown, decided};

use crate::accesses::width_of;
use crate::decisions::{Decided, Deed};
use crate::steps::{Step, sets};
use crate::turn::{Put, Turn, aim, is_storable, puts};
use osc_rv::Width;
use osc_sv39::Access;
use osc_word::Choice;
use osc_world::{Area, ObjectWhy, Place, Reservation, Value};

/// What a store-conditional leaves in its register.
const SUCCESS: u64 = 0;

const FAILURE: u64 = 1;

/// Whether two areas are the same, of processes with these numbers; a shared page is one for all.
pub fn is_same_area(pid: u32, a: Area, other: u32, b: Area) -> bool
    ensures { result ≡ accesses.is_same_area pid a other b }
{
    match (a, b) {
        (Area::Object(a), Area::Object(b)) => pid == other && a == b,
        (Area::Page(a), Area::Page(b)) => pid == other && a == b,
        (Area::Shared(a), Area::Shared(b)) => a == b,
        _ => false,
    }
}

/// Whether the last load-reserved was here, with this width, and nothing came between.
fn holds_reservation(reservation: Option<Reservation>, at: Place, width: Width) -> bool
    ensures { result ≡ instructions.holds_reservation reservation at width }
{
    match reservation {
        Some(reservation) => {
            is_same_area(0, reservation.place.area, 0, at.area)
                && reservation.place.offset == at.offset
                && is_width(reservation.width, width)
        }
        None => false,
    }
}

fn is_width(a: Width, b: Width) -> bool
    ensures { result ≡ instructions.is_width a b }
{
    matches!((a, b), (Width::W, Width::W) | (Width::D, Width::D))
}

/// The step of a store-conditional that stores nothing; it leaves no reservation.
fn conditional_step(turn: &Turn, rd: u8, answer: u64) -> Step
    ensures { step_shown result ≡ instructions.conditional_step (turn_shown turn.now) rd answer }
{
    Step {
        reservation: None,
        ..sets(turn, rd, Value::Num(answer))
    }
}

/// A success, which fits only where the reservation is still there.
fn succeeds(turn: &Turn, rd: u8, reserved: bool, put: Result<Put, ObjectWhy>) -> Decided
    ensures { decided_shown (turn_shown turn.now) result ≡ instructions.succeeds (turn_shown turn.now) rd reserved (shown_by put_shown put) }
{
    match put {
        Err(why) => Decided::Errs(why),
        Ok(put) if reserved => {
            let step = conditional_step(turn, rd, SUCCESS);
            Decided::Goes(Deed::Steps(Step {
                put: Some(put),
                ..step
            }))
        }
        Ok(_) => Decided::Unfit,
    }
}

/// A store-conditional; a failure always fits.
#[tactic(auto, unfolding(osc_world::specs::Offers::chosen))]
pub fn conditional(
    turn: &Turn,
    choice: Choice,
    width: Width,
    rd: u8,
    address: Value,
    value: Value,
) -> Decided
    ensures { decided_shown (turn_shown turn.now) result ≡ decided (turn_shown turn.now) choice (instructions.conditional (turn_shown turn.now) width rd address value) }
{
    let bytes = width_of(width);
    let at = match aim(
        turn,
        Access::Store,
        bytes,
        address,
        is_storable(bytes, value),
    ) {
        Ok(at) => at,
        Err(why) => return Decided::Errs(why),
    };
    match choice {
        Choice::Success => {
            let reserved = holds_reservation(turn.hart.reservation(), at, width);
            succeeds(turn, rd, reserved, puts(at, bytes, value))
        }
        Choice::Fail => Decided::Goes(Deed::Steps(conditional_step(turn, rd, FAILURE))),
        _ => Decided::Unfit,
    }
}
