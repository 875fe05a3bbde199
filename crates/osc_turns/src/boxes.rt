//! The boxes that a call takes, changes and gives.

ghost use Rattle.std.specs.Prelude.{◌≡◌, ◌<◌, ◌^◌, IfSome, length, position, is_some};
ghost use Rattle.osc_paging.specs.Boxes.{BoxState};
ghost use Rattle.osc_machine.specs.Turns.{first_held, clears_more};
ghost use Rattle.osc_calls.specs.Boxes.{changed};

use osc_cache::HartBox;
use osc_calls::BoxChange;

/// The place of the first box that is held.
fn place_held(boxes: &[Option<HartBox>]) -> Option<usize>
    ensures { result ≡ first_held boxes.now }
{
    boxes.iter().position(|held| held.is_some())
}

/// The least box that is held.
pub fn first_held(boxes: &[Option<HartBox>]) -> Option<u32>
    requires { length boxes.now < 2 ^ 32 }
    ensures first { result ≡ first_held boxes.now }
    ensures within { IfSome result (λ n. n < length boxes.now) }
{
    let place = place_held(boxes)?;
    Some(place as u32)
}

/// A box as a change leaves it.
pub fn change(held: &mut HartBox, change: &BoxChange)
    ensures { held.new ≡ changed change.now held.old }
{
    match *change {
        BoxChange::Keep => {}
        BoxChange::Clear => held.clear(),
        BoxChange::Put(order) => {
            held.clear();
            held.set_order(order);
        }
    }
}

/// The count of emptied caches once this change is made.
pub fn clears(change: &BoxChange, clears: u64) -> u64
    ensures { result ≡ clears_more change.now clears }
{
    match change {
        BoxChange::Keep => clears,
        BoxChange::Clear | BoxChange::Put(_) => clears.saturating_add(1),
    }
}
