//! The names of a text.

ghost use Rattle.std.specs.Prelude.{◌≡◌, ◌<◌, [], length, not, IfOk};
ghost use Rattle.osc_assemble.specs.Put as spec;

use indexmap::IndexSet;
use osc_asm::LabelNo;
use std::alloc::{AllocError, Global};
use std::marker::Model;

/// Names in the order in which they come up first. The number of each is that of its label.
#[derive(Drop)]
pub(crate) struct Names<'t> {
    set: IndexSet<&'t [u8]>,
}

impl<'t> Model for Names<'t> {
    ghost use Rattle.std.specs.Prelude.{ℕ, List, map};

    ghost Value = { List (List ℕ) };

    ghost view = { λ names. map (λ name. name.now) names.set.keys };
}

impl<'t> Names<'t> {
    pub(crate) fn new(alloc: Global) -> Names<'t>
        ensures { result ≡ [] }
    {
        Names {
            set: IndexSet::new(alloc),
        }
    }

    /// The number of a name, which is there from now on, and whether it is new.
    pub(crate) fn number(&mut self, name: &'t [u8]) -> Result<(LabelNo, bool), AllocError>
        ensures number { IfOk result (λ found. found.0 ≡ spec.place_in self.old name.now) }
        ensures added { IfOk result (λ found. found.1 ≡ not (spec.is_in self.old name.now)) }
        ensures within { IfOk result (λ found. found.0 < length self.new) }
        ensures names { IfOk result (λ found. self.new ≡ spec.with_name self.old name.now) }
    {
        let Ok((place, added)) = self.set.insert_full(name) else {
            return Err(AllocError);
        };
        let number = number_of(place)?;
        Ok((number, added))
    }
}

/// A place as the number of a label.
fn number_of(place: usize) -> Result<LabelNo, AllocError>
    ensures { IfOk result (λ number. number ≡ place) }
{
    match LabelNo::try_from(place) {
        Ok(number) => Ok(number),
        Err(_) => Err(AllocError),
    }
}
