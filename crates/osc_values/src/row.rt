//! A row of bytes: an object, a page, or a page of a shared region.

ghost use Rattle.std.specs.Prelude.{◌≡◌, ◌≤◌, IfOk, IfSome, length, take, drop, slice_get, map};
ghost use Rattle.osc_world.specs.declared.Byte.TheVariants.{Number};
ghost use Rattle.osc_world.specs.Values as values;
ghost use Rattle.osc_world.specs.Accesses as accesses;
ghost use Rattle.osc_world.specs.Calls as calls;
ghost use Rattle.osc_values.specs.Stored.{FitsIn};

use crate::gather::value_in;
use crate::overlay::overlay;
use osc_world::{Byte, Value};
use std::alloc::{AllocError, Global};
use std::marker::Model;

/// Bytes, some of which may be parts of stored pointers.
#[derive(Drop)]
pub struct Row {
    bytes: Vec<Byte>,
}

impl Model for Row {
    ghost use Rattle.std.specs.Prelude.{List};
    ghost use Rattle.osc_world.specs.declared.Byte.{Byte};

    ghost Value = { List Byte };

    ghost view = { λ r. r.bytes.items };
}

/// Numbers as bytes. An `Err` is want of memory.
fn as_bytes(alloc: Global, numbers: &[u8]) -> Result<Vec<Byte>, AllocError>
    ensures { IfOk result (λ bytes. bytes.items ≡ map Number numbers.now) }
{
    let mut bytes = Vec::with_capacity(alloc, numbers.len())?;
    for number in numbers {
        bytes.push(Byte::Number(*number))?;
    }
    Ok(bytes)
}

impl Row {
    /// These numbers. An `Err` is want of memory.
    pub fn of_numbers(alloc: Global, numbers: &[u8]) -> Result<Row, AllocError>
        ensures { IfOk result (λ row. row ≡ map Number numbers.now) }
    {
        let bytes = as_bytes(alloc, numbers)?;
        Ok(Row { bytes })
    }

    /// So many zero bytes. An `Err` is want of memory.
    pub fn zeros(alloc: Global, size: u64) -> Result<Row, AllocError>
        ensures { IfOk result (λ row. row ≡ calls.zeros size) }
    {
        let bytes = vec![in alloc; Byte::Number(0); size as usize]?;
        Ok(Row { bytes })
    }

    /// A row with the same bytes. An `Err` is want of memory.
    pub fn copied(&self, alloc: Global) -> Result<Row, AllocError>
        ensures { IfOk result (λ row. row ≡ self.now) }
    {
        let bytes = Vec::from_slice(alloc, &self.bytes)?;
        Ok(Row { bytes })
    }

    /// A row of another size: the common bytes, and zeros after them. An `Err` is want of memory.
    pub fn resized(&self, alloc: Global, size: u64) -> Result<Row, AllocError>
        ensures { IfOk result (λ row. row ≡ calls.resized self.now size) }
    {
        let kept = self.bytes.len().min(size as usize);
        let mut bytes = Vec::with_capacity(alloc, size as usize)?;
        bytes.extend_from_slice(&self.bytes[..kept])?;
        bytes.resize(size as usize, Byte::Number(0))?;
        Ok(Row { bytes })
    }

    /// How many bytes there are.
    pub fn size(&self) -> u64
        ensures { result ≡ length self.now }
    {
        self.bytes.len() as u64
    }

    /// The byte at an offset; None exactly where there is none.
    pub fn byte_at(&self, offset: u64) -> Option<Byte>
        ensures { result ≡ slice_get self.now offset }
    {
        if offset < self.size() {
            Some(self.bytes[offset as usize])
        } else {
            None
        }
    }

    /// The value in the `width` bytes from an offset on: a number with its lowest byte first, or the pointer of
    /// which they are the eight parts. None where they are neither. Bytes past the end are left out.
    pub fn value_at(&self, offset: u64, width: u8) -> Option<Value>
        requires { width ≤ 8 }
        ensures fits { IfSome result (FitsIn width) }
        ensures value { result ≡ values.gather (take width (drop offset self.now)) }
    {
        value_in(&self.bytes, offset, width)
    }

    /// Stores a value with this width from an offset on; a pointer is stored with all its eight parts. What
    /// has no place is left out.
    pub fn put(&mut self, offset: u64, width: u8, value: Value)
        ensures { self.new ≡ accesses.overlaid self.old offset (values.spread width value) }
    {
        overlay(&mut self.bytes, offset, width, value);
    }
}
