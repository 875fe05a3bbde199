//! The look at an object's header.

ghost use Rattle.std.specs.Prelude.{◌≡◌, ◌^◌, ◌<◌, ◌≤◌, ◌∷◌, [], option_map, IfSome};
ghost use Rattle.osc_mark.specs.Grants.{AreMarked};
ghost use Rattle.osc_tables.specs.Inside.{IsTop};
ghost use Rattle.osc_space.specs.Objects.{fact, object_at};
ghost use Rattle.osc_space.specs.Header.{damage_reason, header_in, mapped_word};
ghost use Rattle.osc_space.specs.Space.{first_reason};
ghost use Rattle.osc_shadow.specs.Sight.{damage_answer, seen_of};

use crate::memory::know_tables;
use osc_mark::Marks;
use osc_space::{HeaderLook, ObjectFact, ObjectState};
use osc_tables::Tables;
use osc_word::{ObjectNo, WordAt};

/// An object with its number.
#[derive(Clone, Copy, Debug, PartialEq, Eq)]
pub struct SeenObject {
    pub number: ObjectNo,
    pub fact: ObjectFact,
}

/// The object with a user address, live or dead; None exactly where no object has it.
#[tactic(auto, using(crate::proofs::Sights::is_shadow_address))]
pub fn object_with(marks: &Marks, pointer: u64) -> Option<SeenObject>
    ensures object { option_map seen_of result ≡ object_at marks.now.objects pointer }
    ensures shadow { IfSome result (λ _. (0x1000000000 ≤ pointer) × (pointer < 0x2000000000)) }
    ensures valid { AreMarked marks.now }
{
    let number = marks.object_at(pointer)?;
    let fact = marks.fact(number);
    Some(SeenObject { number, fact })
}

/// The word at an address of a page that is mapped.
fn mapped_word(tables: &Tables, address: u64) -> WordAt
    requires top { IsTop tables.now.top }
    requires low { address < 2 ^ 38 }
    ensures { result ≡ mapped_word tables.now address }
{
    let frame = tables.at(address / 4096).map_or(0, |m| m.frame);
    WordAt {
        frame,
        index: (address % 4096 / 8) as u16,
    }
}

/// What stands at a pointer that a guest gives back: the two header words of the live object whose
/// user address it is; Zero exactly where it is 0; DoubleFree exactly where it is that of a dead
/// object; NotAnObject otherwise.
#[tactic(auto, unfolding(osc_space::specs::Header::header_in))]
pub fn header_at(tables: &Tables, marks: &Marks, pointer: u64) -> HeaderLook
    ensures { result ≡ header_in tables.now marks.now.objects pointer }
{
    if pointer == 0 {
        return HeaderLook::Zero;
    }
    let Some(SeenObject { number, fact }) = object_with(marks, pointer) else {
        return HeaderLook::NotAnObject;
    };
    match fact.state {
        ObjectState::Dead(call) => HeaderLook::DoubleFree {
            object: number,
            call,
        },
        ObjectState::Live => {
            know_tables(tables);
            let first = mapped_word(tables, pointer - 16);
            let second = mapped_word(tables, pointer - 8);
            HeaderLook::Words(first, second)
        }
    }
}

/// A header word that differs from what is kept.
#[derive(Clone, Copy, Debug, PartialEq, Eq)]
pub struct Damage {
    pub kept: u64,
    pub found: u64,
}

/// The first header word of a live object, as they were found, that differs from what is kept.
pub fn header_damage(fact: ObjectFact, first: u64, second: u64) -> Option<Damage>
    ensures { option_map damage_answer result
        ≡ first_reason (damage_reason fact.canon first ∷ damage_reason fact.size second ∷ []) }
{
    if fact.canon != first {
        return Some(Damage {
            kept: fact.canon,
            found: first,
        });
    }
    if fact.size != second {
        return Some(Damage {
            kept: fact.size,
            found: second,
        });
    }
    None
}
