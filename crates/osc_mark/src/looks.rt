//! Looks for objects in the order of their grants, in which their first pages ascend.
#![tactic(auto, using(crate::proofs::ObjectPlaces::object_places))]

ghost use Rattle.std.specs.Prelude.{◌≡◌, ◌<◌, ◌≤◌, length, IfSome, []};
ghost use Rattle.std.specs.Vec.{vec_capacity};
ghost use Rattle.osc_space.specs.Objects.{AreGranted};
ghost use Rattle.osc_mark.specs.Grants.{owner, number_at};
ghost use Rattle.osc_mark.specs.Places.{place_for};

use osc_space::ObjectFact;

/// How many objects begin at a page or before it.
fn place_for(objects: &[ObjectFact], page: u64) -> usize
    requires { AreGranted objects.now }
    ensures place { result ≡ place_for page objects.now }
    ensures within { result ≤ length objects.now }
{
    let mut low = 0;
    let mut high = objects.len();
    while low < high {
        let middle = low + (high - low) / 2;
        if objects[middle].first <= page {
            low = middle + 1;
        } else {
            high = middle;
        }
    }
    low
}

/// The place of the object that a page was granted to.
pub fn owner(objects: &[ObjectFact], page: u64) -> Option<usize>
    requires { AreGranted objects.now }
    ensures owner { result ≡ owner objects.now page }
    ensures within { IfSome result (λ i. i < length objects.now) }
{
    let place = place_for(objects, page);
    if place > 0 {
        let object = objects[place - 1];
        if page - object.first < u64::from(object.pages) {
            return Some(place - 1);
        }
    }
    None
}

/// The place of the object with an address.
pub fn object_at(objects: &[ObjectFact], user: u64) -> Option<usize>
    requires { AreGranted objects.now }
    ensures object { result ≡ number_at objects.now user }
    ensures within { IfSome result (λ i. i < length objects.now) }
{
    let place = place_for(objects, user / 4096);
    if place > 0 {
        let found = objects[place - 1].user;
        if found == user {
            return Some(place - 1);
        }
    }
    None
}

/// Copies objects to an empty list.
pub fn copy_objects(objects: &[ObjectFact], into: &mut Vec<ObjectFact>)
    requires empty { into.old.items ≡ [] }
    requires room { length objects.now ≤ vec_capacity into.old }
    ensures items { into.new.items ≡ objects.now }
    ensures capacity { vec_capacity into.old ≤ vec_capacity into.new }
{
    for object in objects {
        into.push(*object).unwrap();
    }
}
