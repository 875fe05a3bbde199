//! The object whose pointer a guest gives back.

ghost use Rattle.std.specs.Prelude.{◌≡◌, ◌≢◌, Some, MatchResult};
ghost use Rattle.osc_space.specs.Objects.{object_at};
ghost use Rattle.osc_process.specs.Given.{IsLiveAt, gone_answer};

use osc_mark::Marks;
use osc_shadow::{SeenObject, object_with};
use osc_space::ObjectState;
use osc_word::Answer;

/// The live object with a user address, or what a call answers where there is none: DoubleFree where it
/// is dead, and NotAnObject where no object has the address.
pub fn live_object(marks: &Marks, pointer: u64) -> Result<SeenObject, Answer>
    ensures { MatchResult result
        (λ o. IsLiveAt marks.now.objects pointer o × (pointer ≢ 0))
        (λ answer. gone_answer (object_at marks.now.objects pointer) ≡ Some answer) }
{
    let Some(seen) = object_with(marks, pointer) else {
        return Err(Answer::NotAnObject);
    };
    match seen.fact.state {
        ObjectState::Live => Ok(seen),
        ObjectState::Dead(call) => Err(Answer::DoubleFree {
            object: seen.number,
            call,
        }),
    }
}
