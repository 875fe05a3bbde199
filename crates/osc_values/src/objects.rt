//! An object of a process.

ghost use Rattle.std.specs.Prelude.{◌≡◌, ◌+◌, nat_le};

use crate::gather::value_in;
use crate::row::Row;
use osc_world::{Byte, ObjectWhy, Value};
use std::alloc::{AllocError, Global};
use std::marker::Model;

/// Whether so many bytes from an offset on lie below a size.
fn is_within(offset: u64, width: u8, size: u64) -> bool
    ensures { result ≡ nat_le (offset + width) size }
{
    let width = u64::from(width);
    width <= size && offset <= size - width
}

/// What is left of an object.
#[derive(Drop)]
enum Life {
    Live(Row),
    /// Its size.
    Dead(u64),
}

/// An object: its bytes as long as it lives, and then its size.
#[derive(Drop)]
pub struct Object {
    life: Life,
}

impl Model for Object {
    ghost use Rattle.osc_world.specs.World.{Object};

    ghost Value = { Object };

    ghost use Rattle.osc_values.specs.Lives.{object_of};

    ghost view = { λ o. object_of o.life };
}

impl Object {
    ghost use Rattle.std.specs.Prelude.{◌≡◌, ◌≤◌, IfOk, IfSome, Some, slice_get, take, drop};
    ghost use Rattle.osc_world.specs.Values as values;
    ghost use Rattle.osc_world.specs.World as world;
    ghost use Rattle.osc_world.specs.Operations as operations;
    ghost use Rattle.osc_world.specs.Accesses as accesses;
    ghost use Rattle.osc_world.specs.Calls as calls;
    ghost use Rattle.osc_values.specs.Lives.{reach_of};
    ghost use Rattle.osc_values.specs.Stored.{FitsIn};

    /// A live object of so many zero bytes. An `Err` is want of memory.
    pub fn zeros(alloc: Global, size: u64) -> Result<Object, AllocError>
        ensures { IfOk result (λ object. object ≡ world.Live (calls.zeros size)) }
    {
        let row = Row::zeros(alloc, size)?;
        Ok(Object {
            life: Life::Live(row),
        })
    }

    /// The same object once more. An `Err` is want of memory.
    pub fn copied(&self, alloc: Global) -> Result<Object, AllocError>
        ensures { IfOk result (λ object. object ≡ self.now) }
    {
        let life = match &self.life {
            Life::Live(row) => Life::Live(row.copied(alloc)?),
            Life::Dead(size) => Life::Dead(*size),
        };
        Ok(Object { life })
    }

    /// A live object of another size, with the common bytes and then zeros. An `Err` is want of memory.
    pub fn resized(&self, alloc: Global, size: u64) -> Result<Object, AllocError>
        ensures { IfOk result (λ object. object ≡ world.Live (calls.resized (accesses.object_bytes (Some self.now)) size)) }
    {
        let row = match &self.life {
            Life::Live(row) => row.resized(alloc, size)?,
            Life::Dead(_) => Row::zeros(alloc, size)?,
        };
        Ok(Object {
            life: Life::Live(row),
        })
    }

    /// Whether an offset is from 0 to the size, whether the object lives or not.
    pub fn has_offset(&self, offset: u64) -> bool
        ensures { result ≡ operations.is_offset_of offset (Some self.now) }
    {
        match &self.life {
            Life::Live(row) => offset <= row.size(),
            Life::Dead(size) => offset <= *size,
        }
    }

    /// Whether the object lives and an offset is from 0 to its size.
    pub fn has_live_offset(&self, offset: u64) -> bool
        ensures { result ≡ operations.is_offset_of_live offset (Some self.now) }
    {
        match &self.life {
            Life::Live(row) => offset <= row.size(),
            Life::Dead(_) => false,
        }
    }

    /// Whether the object lives and this offset is its start.
    pub fn is_live_start(&self, offset: u64) -> bool
        ensures { result ≡ calls.is_live_start offset (Some self.now) }
    {
        matches!(self.life, Life::Live(_)) && offset == 0
    }

    /// Ends the object's life. Its bytes are gone, and its size stays; a dead object stays as it is.
    pub fn kill(&mut self)
        ensures { self.new ≡ world.killed self.old }
    {
        let size = match &self.life {
            Life::Live(row) => row.size(),
            Life::Dead(size) => *size,
        };
        self.life = Life::Dead(size);
    }

    /// Whether an access of `width` bytes may begin at an offset: the object lives, and has all the bytes. Else
    /// why not.
    pub fn reach(&self, offset: u64, width: u8) -> Result<(), ObjectWhy>
        ensures { result ≡ reach_of offset width self.now }
    {
        match &self.life {
            Life::Live(row) if is_within(offset, width, row.size()) => Ok(()),
            Life::Live(_) => Err(ObjectWhy::Outside),
            Life::Dead(_) => Err(ObjectWhy::DeadObject),
        }
    }

    /// The byte at an offset; None exactly where the object has none or is dead.
    pub fn byte_at(&self, offset: u64) -> Option<Byte>
        ensures { result ≡ slice_get (accesses.object_bytes (Some self.now)) offset }
    {
        match &self.life {
            Life::Live(row) => row.byte_at(offset),
            Life::Dead(_) => None,
        }
    }

    /// The value in the `width` bytes from an offset on, as `Row::value_at`; a dead object has no bytes.
    pub fn value_at(&self, offset: u64, width: u8) -> Option<Value>
        requires { width ≤ 8 }
        ensures fits { IfSome result (FitsIn width) }
        ensures value { result ≡ values.gather (take width (drop offset (accesses.object_bytes (Some self.now)))) }
    {
        match &self.life {
            Life::Live(row) => row.value_at(offset, width),
            Life::Dead(_) => value_in(&[], offset, width),
        }
    }

    /// Stores a value with this width from an offset on, as `Row::put`. A dead object stays as it is.
    pub fn put(&mut self, offset: u64, width: u8, value: Value)
        ensures { self.new ≡ accesses.object_overlaid offset (values.spread width value) self.old }
    {
        if let Life::Live(row) = &mut self.life {
            row.put(offset, width, value);
        }
    }
}
