//! The memory of a process: its pages of image and stack, and its objects.

ghost use Rattle.std.specs.Prelude.{◌≡◌, ◌≤◌, [], IfSome, IfOk, slice_get, unwrap_or, take, drop};
ghost use Rattle.osc_world.specs.States.{changed_at};
ghost use Rattle.osc_world.specs.Values as values;
ghost use Rattle.osc_world.specs.World as world;
ghost use Rattle.osc_world.specs.Accesses as accesses;
ghost use Rattle.osc_world.specs.Calls as calls;
ghost use Rattle.osc_values.specs.Stored.{FitsIn};

use crate::pages::Pages;
use osc_sv39::PteBits;
use osc_values::{Object, Row, value_in};
use osc_world::{Area, Byte, Place, Value};
use std::alloc::{AllocError, Global};
use std::marker::Model;

/// Where an access by a number begins, and what is allowed there.
#[derive(Clone, Copy)]
pub struct Numbered {
    pub place: Place,
    pub bits: PteBits,
}

/// A call of the heap that is done.
#[derive(Clone, Copy)]
pub enum HeapDeed {
    /// A new object of this size.
    Makes(u64),
    /// The end of this object.
    Kills(u32),
    /// The end of an object, and a new one of this size with the common bytes.
    Replaces { object: u32, size: u64 },
}

/// The memory of one process.
#[derive(Drop)]
pub struct Memory {
    pages: Pages,
    objects: Vec<Object>,
}

impl Model for Memory {
    ghost use Rattle.osc_world.specs.World.{Memory};

    ghost Value = { Memory };

    ghost view = { λ m. record { pages = m.pages; objects = m.objects.items } };
}

/// Stores a value in an object, if there is one of this number.
fn put_in_objects(objects: &mut [Object], object: u32, offset: u64, width: u8, value: Value)
    ensures { objects.new ≡ changed_at (accesses.object_overlaid offset (values.spread width value)) objects.old object }
{
    let at = object as usize;
    if at < objects.len() {
        objects[at].put(offset, width, value);
    }
}

/// Ends the life of an object, if there is one of this number.
fn kill_in(objects: &mut [Object], object: u32)
    ensures { objects.new ≡ changed_at world.killed objects.old object }
{
    let at = object as usize;
    if at < objects.len() {
        objects[at].kill();
    }
}

/// An object of another size with the common bytes of this one, of which there are none where there is no
/// object.
fn resized_of(
    alloc: Global,
    objects: &[Object],
    object: u32,
    size: u64,
) -> Result<Object, AllocError>
    ensures { IfOk result (λ made. made ≡ world.Live (calls.resized (accesses.object_bytes (slice_get objects.now object)) size)) }
{
    let at = object as usize;
    if at < objects.len() {
        objects[at].resized(alloc, size)
    } else {
        Object::zeros(alloc, size)
    }
}

/// The objects once more. An `Err` is want of memory.
fn objects_copied(alloc: Global, objects: &[Object]) -> Result<Vec<Object>, AllocError>
    ensures { IfOk result (λ copy. copy.items ≡ objects.now) }
{
    let mut copy = Vec::with_capacity(alloc, objects.len())?;
    for object in objects {
        copy.push(object.copied(alloc)?)?;
    }
    Ok(copy)
}

impl Memory {
    ghost use Rattle.std.specs.Prelude.{◌≡◌, ◌≤◌, ◌/◌, ◌%◌, ◌++◌, ◌∷◌, [], None, Some, IfOk, OnOk, IfSome, slice_get, take, drop, length};
    ghost use Rattle.osc_world.specs.Values as values;
    ghost use Rattle.osc_world.specs.World as world;
    ghost use Rattle.osc_world.specs.Accesses as accesses;
    ghost use Rattle.osc_world.specs.Calls as calls;
    ghost use Rattle.std.specs.Option.{option_map};
    ghost use Rattle.osc_values.specs.Stored.{FitsIn};
    ghost use Rattle.osc_memory.specs.Places.{numbered_shown, heap_shown};

    /// These pages, and no objects.
    pub fn new(alloc: Global, pages: Pages) -> Memory
        ensures { result ≡ record { pages = pages; objects = [] } }
    {
        Memory {
            pages,
            objects: Vec::new(alloc),
        }
    }

    /// The same memory once more. An `Err` is want of memory.
    pub fn copied(&self, alloc: Global) -> Result<Memory, AllocError>
        ensures { IfOk result (λ copy. copy ≡ self.now) }
    {
        Ok(Memory {
            pages: self.pages.copied(alloc)?,
            objects: objects_copied(alloc, &self.objects)?,
        })
    }

    /// The objects, by their numbers.
    pub fn objects(&self) -> &[Object]
        ensures { result.now ≡ self.now.objects }
    {
        &self.objects
    }

    /// Does a call of the heap. An `Err` is want of memory.
    pub fn serve(&mut self, alloc: Global, deed: HeapDeed) -> Result<(), AllocError>
        ensures { OnOk result (self.new ≡ record (self.old) { objects = calls.objects_after self.old.objects (heap_shown deed) }) }
    {
        match deed {
            HeapDeed::Makes(size) => self.objects.push(Object::zeros(alloc, size)?)?,
            HeapDeed::Kills(object) => kill_in(&mut self.objects, object),
            HeapDeed::Replaces { object, size } => {
                let made = resized_of(alloc, &self.objects, object, size)?;
                kill_in(&mut self.objects, object);
                self.objects.push(made)?;
            }
        }
        Ok(())
    }

    /// The place of an address in image or stack; None exactly where no page of them has it.
    pub fn numbered(&self, address: u64) -> Option<Numbered>
        ensures { option_map numbered_shown result ≡ accesses.numbered_in (accesses.memory_page self.now.pages (address / 4096)) None (address % 4096) }
    {
        let page = self.pages.page(address / 4096)?;
        Some(Numbered {
            place: Place {
                area: Area::Page(page.number),
                offset: address % 4096,
            },
            bits: page.bits,
        })
    }

    /// The value in the `width` bytes of a page from an offset on; a page that there is not has no bytes.
    fn value_in_page(&self, number: u32, offset: u64, width: u8) -> Option<Value>
        requires { width ≤ 8 }
        ensures fits { IfSome result (FitsIn width) }
        ensures value { result ≡ values.gather (take width (drop offset (accesses.page_bytes (accesses.memory_page self.now.pages number)))) }
    {
        match self.pages.page(u64::from(number)) {
            Some(page) => page.row.value_at(offset, width),
            None => value_in(&[], offset, width),
        }
    }

    /// The value in the `width` bytes of an object from an offset on; one that there is not has no bytes.
    fn value_in_object(&self, object: u32, offset: u64, width: u8) -> Option<Value>
        requires { width ≤ 8 }
        ensures fits { IfSome result (FitsIn width) }
        ensures value { result ≡ values.gather (take width (drop offset (accesses.object_bytes (slice_get self.now.objects object)))) }
    {
        let at = object as usize;
        if at < self.objects.len() {
            self.objects[at].value_at(offset, width)
        } else {
            value_in(&[], offset, width)
        }
    }

    /// The byte of a page at an offset; None exactly where there is none.
    fn byte_in_page(&self, number: u32, offset: u64) -> Option<Byte>
        ensures { result ≡ slice_get (accesses.page_bytes (accesses.memory_page self.now.pages number)) offset }
    {
        let page = self.pages.page(u64::from(number))?;
        page.row.byte_at(offset)
    }

    /// The byte of an object at an offset; None exactly where there is none.
    fn byte_in_object(&self, object: u32, offset: u64) -> Option<Byte>
        ensures { result ≡ slice_get (accesses.object_bytes (slice_get self.now.objects object)) offset }
    {
        let at = object as usize;
        if at < self.objects.len() {
            self.objects[at].byte_at(offset)
        } else {
            None
        }
    }

    /// The byte at a place of this memory or of the world's shared pages; None exactly where there is none.
    pub fn byte_at(&self, shared: &[Row], at: Place) -> Option<Byte>
        ensures { result ≡ slice_get (accesses.area_bytes shared.now self.now at.area) at.offset }
    {
        match at.area {
            Area::Object(object) => self.byte_in_object(object, at.offset),
            Area::Page(page) => self.byte_in_page(page, at.offset),
            Area::Shared(page) => byte_in_shared(shared, page, at.offset),
        }
    }

    /// The value in the `width` bytes from a place on, of this memory or of the world's shared pages.
    pub fn value_at(&self, shared: &[Row], at: Place, width: u8) -> Option<Value>
        requires { width ≤ 8 }
        ensures fits { IfSome result (FitsIn width) }
        ensures value { result ≡ values.gather (take width (drop at.offset (accesses.area_bytes shared.now self.now at.area))) }
    {
        match at.area {
            Area::Object(object) => self.value_in_object(object, at.offset, width),
            Area::Page(page) => self.value_in_page(page, at.offset, width),
            Area::Shared(page) => value_in_shared(shared, page, at.offset, width),
        }
    }

    /// Stores a value with this width from a place on, where the place is of this memory.
    pub fn put(&mut self, at: Place, width: u8, value: Value)
        ensures { self.new ≡ accesses.memory_overlaid self.old at.area at.offset (values.spread width value) }
    {
        match at.area {
            Area::Object(object) => {
                put_in_objects(&mut self.objects, object, at.offset, width, value);
            }
            Area::Page(page) => self.pages.put(page, at.offset, width, value),
            Area::Shared(_) => {}
        }
    }
}

/// The value in the `width` bytes of a shared page from an offset on; one that there is not has no bytes.
fn value_in_shared(shared: &[Row], page: u32, offset: u64, width: u8) -> Option<Value>
    requires { width ≤ 8 }
    ensures fits { IfSome result (FitsIn width) }
    ensures value { result ≡ values.gather (take width (drop offset (unwrap_or (slice_get shared.now page) []))) }
{
    let at = page as usize;
    if at < shared.len() {
        shared[at].value_at(offset, width)
    } else {
        value_in(&[], offset, width)
    }
}

/// The byte of a shared page at an offset; None exactly where there is none.
fn byte_in_shared(shared: &[Row], page: u32, offset: u64) -> Option<Byte>
    ensures { result ≡ slice_get (unwrap_or (slice_get shared.now page) []) offset }
{
    let at = page as usize;
    if at < shared.len() {
        shared[at].byte_at(offset)
    } else {
        None
    }
}
