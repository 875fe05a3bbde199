//! What is always true of grants. The function does nothing: what it says is proved of the definitions.

ghost use Rattle.osc_mark.specs.OwnerLaws.{OwnersStay};

/// The pages of a grant belong to its object for good: a later grant takes other pages, and a death
/// changes no owner.
#[tactic(auto, using(crate::proofs::Owners::owners_stay))]
pub fn owners_stay()
    ensures { OwnersStay }
{}
