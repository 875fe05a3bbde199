//! The grants of one process, and each change of them.

ghost use Rattle.std.specs.Prelude.{◌≡◌, ◌<◌, ◌≤◌, length, true, Some, IfOk};
ghost use Rattle.osc_space.specs.Objects.{fact, grant, kill, leaf_dead, next_object, next_page};
ghost use Rattle.osc_mark.specs.Grants.{AreMarked, left, lives, no_grants, number_at, owner};

use crate::leaves::{FIRST_LEAF, add_pages, drop_pages};
use crate::looks;
use osc_space::{ObjectFact, ObjectState};
use osc_word::address_map::FIRST_SHADOW_PAGE;
use std::alloc::{AllocError, Global};
use std::marker::Model;

/// The shadow pages of one process and the objects that they were granted to. A page is granted
/// once: nothing lowers the mark. All room is taken by `new`.
#[derive(Drop)]
pub struct Marks {
    objects: Vec<ObjectFact>,
    live: Vec<u32>,
    granted: u32,
    limit: u32,
}

impl Model for Marks {
    ghost use Rattle.std.specs.Vec.{vec_capacity};
    ghost use Rattle.osc_mark.specs.Grants.{Grants, grants_of};
    ghost use Rattle.osc_mark.specs.Leaves.{AreParts};

    ghost Value = { Grants };

    ghost view = { λ m. grants_of m.objects.items m.limit };

    ghost invariant = { λ m. AreParts m.objects.items m.limit m.live.items m.granted (vec_capacity m.objects) };
}

impl Marks {
    /// Marks that grant at most so many pages, with none granted. It takes the room for all.
    pub fn new(alloc: Global, shadows: u32) -> Result<Marks, AllocError>
        requires { shadows ≤ 16777216 }
        ensures { IfOk result (λ marks. (marks ≡ no_grants shadows) × AreMarked marks) }
    {
        Ok(Marks {
            objects: Vec::with_capacity(alloc, shadows as usize)?,
            live: vec![in alloc; 0; shadows as usize / 512 + 1]?,
            granted: 0,
            limit: shadows,
        })
    }

    /// How many more pages may be granted.
    pub fn left(&self) -> u32
        ensures left { result ≡ left self.now }
        ensures valid { AreMarked self.now }
    {
        self.limit - self.granted
    }

    /// The page that the next grant begins with.
    pub fn next_page(&self) -> u64
        ensures page { result ≡ next_page self.now.objects }
        ensures valid { AreMarked self.now }
    {
        FIRST_SHADOW_PAGE + u64::from(self.granted)
    }

    /// The number of the next object.
    pub fn next_object(&self) -> u32
        ensures number { result ≡ next_object self.now.objects }
        ensures valid { AreMarked self.now }
    {
        self.objects.len() as u32
    }

    /// Grants the next pages to a new object of so many bytes, which has the address `canon` in its
    /// block. Gives its number.
    pub fn grant(&mut self, pages: u32, size: u64, canon: u64) -> u32
        requires some { 1 ≤ pages }
        requires left { pages ≤ left self.old }
        ensures number { result ≡ next_object self.old.objects }
        ensures grants { self.new ≡ record self.old { objects = grant pages size canon self.old.objects } }
        ensures valid { AreMarked self.new }
    {
        let object = self.next_object();
        let first = self.next_page();
        let user = first * 4096 + canon % 4096;
        add_pages(&mut self.live, first, pages);
        self.objects
            .push(ObjectFact {
                first,
                pages,
                size,
                user,
                canon,
                state: ObjectState::Live,
            })
            .unwrap();
        self.granted += pages;
        object
    }

    /// The object that a page was granted to, live or dead; None exactly where the page was not
    /// granted.
    pub fn owner(&self, page: u64) -> Option<u32>
        ensures owner { result ≡ owner self.now.objects page }
        ensures valid { AreMarked self.now }
    {
        let object = looks::owner(&self.objects, page)?;
        Some(object as u32)
    }

    /// The object with a user address, live or dead; None exactly where no object has it.
    pub fn object_at(&self, user: u64) -> Option<u32>
        ensures object { result ≡ number_at self.now.objects user }
        ensures valid { AreMarked self.now }
    {
        let object = looks::object_at(&self.objects, user)?;
        Some(object as u32)
    }

    /// What is kept of an object.
    pub fn fact(&self, object: u32) -> ObjectFact
        requires { object < length self.now.objects }
        ensures fact { fact self.now.objects object ≡ Some result }
        ensures valid { AreMarked self.now }
    {
        self.objects[object as usize]
    }

    /// Makes a live object dead by the call with this place in the journal.
    pub fn kill(&mut self, object: u32, call: u32)
        requires { lives (fact self.old.objects object) ≡ true }
        ensures grants { self.new ≡ record self.old { objects = kill object call self.old.objects } }
        ensures valid { AreMarked self.new }
    {
        let ObjectFact { first, pages, .. } = self.objects[object as usize];
        drop_pages(&mut self.live, first, pages);
        self.objects[object as usize].state = ObjectState::Dead(call);
    }

    /// Whether all pages under a leaf table were granted and none has a live owner. The leaf table
    /// with number n stands over the pages from 512 n on.
    pub fn leaf_dead(&self, leaf: u64) -> bool
        ensures dead { result ≡ leaf_dead self.now.objects leaf }
        ensures valid { AreMarked self.now }
    {
        if leaf < FIRST_LEAF || leaf >= FIRST_LEAF + u64::from(self.granted) / 512 {
            return false;
        }
        self.live[(leaf - FIRST_LEAF) as usize] == 0
    }

    /// Copies all grants to the empty marks of a child.
    pub fn copy_to(&self, child: &mut Marks)
        requires { child.old ≡ no_grants self.now.limit }
        ensures child { child.new ≡ self.now }
        ensures valid { AreMarked self.now }
    {
        child.live.copy_from_slice(&self.live);
        looks::copy_objects(&self.objects, &mut child.objects);
        child.granted = self.granted;
    }
}
