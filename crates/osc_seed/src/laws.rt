//! A law of seeded runs. The function does nothing: what it says is proved of the definitions.

ghost use Rattle.osc_seed.specs.Seeded.{SpentMakesAll};

/// A run that ends without the machine being over made all its picks.
pub fn spent_makes_all()
    ensures { SpentMakesAll }
{}
