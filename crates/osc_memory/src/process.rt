//! A process: its memory, its shared pages, its parent and how it ended.

ghost use Rattle.std.specs.Prelude.{◌≡◌, ◌≤◌, ◌+◌, ◌^◌, ◌++◌, OnOk, slice_get};
ghost use Rattle.std.specs.List.{range_with_len};
ghost use Rattle.osc_world.specs.Accesses as accesses;
ghost use Rattle.osc_world.specs.States as states;

use crate::memory::{HeapDeed, Memory, Numbered};
use crate::pages::lets;
use osc_sv39::{Access, PteBits};
use osc_values::{Object, Row};
use osc_word::Pid;
use osc_word::address_map::FIRST_SHARED_PAGE;
use osc_world::{Area, Byte, ObjectWhy, Place, Value};
use std::alloc::{AllocError, Global};
use std::marker::Model;

/// A process.
#[derive(Drop)]
pub struct Process {
    memory: Memory,
    shared: Vec<u32>,
    parent: Option<Pid>,
    status: Option<u8>,
}

impl Model for Process {
    ghost use Rattle.osc_world.specs.States.{Process};
    ghost use Rattle.osc_world.specs.World.{Memory};

    ghost Value = { Process Memory };

    ghost view = { λ p. record { memory = p.memory; shared = p.shared.items; parent = p.parent; status = p.status } };
}

/// The permissions of shared pages.
const READ_WRITE: PteBits = PteBits(6);

/// The number of the shared page that a process with these has at an address.
fn shared_page_at(shared: &[u32], address: u64) -> Option<u32>
    ensures { result ≡ states.shared_page_at shared.now address }
{
    let page = address / 4096;
    if page < FIRST_SHARED_PAGE {
        return None;
    }
    let at = (page - FIRST_SHARED_PAGE) as usize;
    if at < shared.len() {
        Some(shared[at])
    } else {
        None
    }
}

/// So many numbers more, from `first` on. An `Err` is want of memory.
fn add_numbers(numbers: &mut Vec<u32>, first: u32, count: u32) -> Result<(), AllocError>
    requires { first + count ≤ 2 ^ 32 }
    ensures { OnOk result (numbers.new.items ≡ numbers.old.items ++ range_with_len first count) }
{
    for number in 0..count {
        numbers.push(first + number)?;
    }
    Ok(())
}

impl Process {
    ghost use Rattle.std.specs.Prelude.{◌≡◌, ◌≤◌, ◌+◌, ◌^◌, ◌++◌, [], None, Some, IfOk, OnOk, IfSome, slice_get, take, drop};
    ghost use Rattle.std.specs.Option.{option_map};
    ghost use Rattle.std.specs.List.{range_with_len};
    ghost use Rattle.osc_world.specs.Deeds as deeds;
    ghost use Rattle.osc_world.specs.Values as values;
    ghost use Rattle.osc_world.specs.World as world;
    ghost use Rattle.osc_world.specs.Accesses as accesses;
    ghost use Rattle.osc_values.specs.Stored.{FitsIn};
    ghost use Rattle.osc_memory.specs.Places.{numbered_shown, heap_shown, with_heap, with_status, holding};

    /// A process with this memory, without shared pages.
    pub fn new(alloc: Global, memory: Memory) -> Process
        ensures { result ≡ record { memory = memory; shared = []; parent = None; status = None } }
    {
        Process {
            memory,
            shared: Vec::new(alloc),
            parent: None,
            status: None,
        }
    }

    /// A child of this process: a copy of its memory, and the same shared pages. An `Err` is want of memory.
    pub fn child(&self, alloc: Global, parent: Pid) -> Result<Process, AllocError>
        ensures { IfOk result (λ child. child ≡ record { memory = self.now.memory; shared = self.now.shared; parent = Some parent; status = None }) }
    {
        Ok(Process {
            memory: self.memory.copied(alloc)?,
            shared: Vec::from_slice(alloc, &self.shared)?,
            parent: Some(parent),
            status: None,
        })
    }

    /// Holds so many shared pages more, which have the numbers from `first` on. An `Err` is want of memory.
    pub fn hold(&mut self, first: u32, count: u32) -> Result<(), AllocError>
        requires { first + count ≤ 2 ^ 32 }
        ensures { OnOk result (self.new ≡ holding first count self.old) }
    {
        add_numbers(&mut self.shared, first, count)
    }

    /// The address of its next shared page.
    pub fn shared_next(&self) -> u64
        ensures { result ≡ deeds.shared_next self.now }
    {
        let page = FIRST_SHARED_PAGE + self.shared.len() as u64;
        page.wrapping_mul(4096)
    }

    /// The objects, by their numbers.
    pub fn objects(&self) -> &[Object]
        ensures { result.now ≡ self.now.memory.objects }
    {
        self.memory.objects()
    }

    /// Does a call of the heap. An `Err` is want of memory.
    pub fn serve(&mut self, alloc: Global, deed: HeapDeed) -> Result<(), AllocError>
        ensures { OnOk result (self.new ≡ with_heap (heap_shown deed) self.old) }
    {
        self.memory.serve(alloc, deed)
    }

    /// Its parent; None for the first process.
    pub fn parent(&self) -> Option<Pid>
        ensures { result ≡ self.now.parent }
    {
        self.parent
    }

    /// How it ended; None as long as it has not.
    pub fn status(&self) -> Option<u8>
        ensures { result ≡ self.now.status }
    {
        self.status
    }

    /// The place of an address in image, stack or a shared page, with what is allowed there.
    fn numbered_at(&self, address: u64) -> Option<Numbered>
        ensures { option_map numbered_shown result ≡ accesses.numbered_at self.now address }
    {
        if let Some(found) = self.memory.numbered(address) {
            return Some(found);
        }
        let page = shared_page_at(&self.shared, address)?;
        Some(Numbered {
            place: Place {
                area: Area::Shared(page),
                offset: address % 4096,
            },
            bits: READ_WRITE,
        })
    }

    /// How it ended is kept; None as long as it has not.
    pub fn set_status(&mut self, status: Option<u8>)
        ensures { self.new ≡ with_status status self.old }
    {
        self.status = status;
    }

    /// Where an access by a number begins.
    fn reach_number(&self, access: Access, address: u64) -> Result<Place, ObjectWhy>
        ensures { result ≡ accesses.allowed_place access (accesses.numbered_at self.now address) }
    {
        match self.numbered_at(address) {
            Some(found) if lets(found.bits, access) => Ok(found.place),
            _ => Err(ObjectWhy::Outside),
        }
    }

    /// Where an aligned access of `width` bytes begins, or why it may not be.
    #[tactic(auto, unfolding(osc_world::specs::Accesses::reached_place))]
    pub fn reach(&self, access: Access, width: u8, address: Value) -> Result<Place, ObjectWhy>
        ensures { result ≡ accesses.reached_place self.now access width address }
    {
        match address {
            Value::Num(address) => self.reach_number(access, address),
            Value::Ptr { object, offset } => reach_object(self.objects(), object, offset, width),
        }
    }

    /// The byte at a place of this process or of the world's shared pages; None exactly where there is none.
    pub fn byte_at(&self, shared: &[Row], at: Place) -> Option<Byte>
        ensures { result ≡ slice_get (accesses.area_bytes shared.now self.now.memory at.area) at.offset }
    {
        self.memory.byte_at(shared, at)
    }

    /// The value in the `width` bytes from a place on, of this process or of the world's shared pages.
    pub fn value_at(&self, shared: &[Row], at: Place, width: u8) -> Option<Value>
        requires { width ≤ 8 }
        ensures fits { IfSome result (FitsIn width) }
        ensures value { result ≡ values.gather (take width (drop at.offset (accesses.area_bytes shared.now self.now.memory at.area))) }
    {
        self.memory.value_at(shared, at, width)
    }

    /// Stores a value with this width from a place on, where the place is of this process alone.
    pub fn put(&mut self, at: Place, width: u8, value: Value)
        ensures { self.new ≡ record (self.old) { memory = accesses.memory_overlaid self.old.memory at.area at.offset (values.spread width value) } }
    {
        self.memory.put(at, width, value);
    }
}

/// Where an access of `width` bytes by a pointer begins.
fn reach_object(objects: &[Object], object: u32, offset: u64, width: u8) -> Result<Place, ObjectWhy>
    ensures { result ≡ accesses.place_in_object object offset width (slice_get objects.now object) }
{
    let at = object as usize;
    if at >= objects.len() {
        return Err(ObjectWhy::Outside);
    }
    objects[at].reach(offset, width)?;
    Ok(Place {
        area: Area::Object(object),
        offset,
    })
}
