//! The boot of a world.

ghost use Rattle.std.specs.Prelude.{◌≡◌, ◌<◌, ◌≤◌, ◌+◌, ◌^◌, [], ◌++◌, IfOk, OnOk, IsSome, map};
ghost use Rattle.std.specs.List.{range_with_len};
ghost use Rattle.osc_word.specs.AddressMap.{first_stack_page, stack_size};
ghost use Rattle.osc_image.specs.Image.{bits_at};
ghost use Rattle.osc_world.specs.Run as run;
ghost use Rattle.osc_judge.specs.Booting.{image_pages, first_harts};

use crate::judging::World;
use osc_elf::Image;
use osc_memory::{Memory, Page, Pages, Process};
use osc_object::{Hart, State};
use osc_sv39::PteBits;
use osc_values::Row;
use osc_word::address_map::{FIRST_STACK_PAGE, STACK_PAGES};
use osc_word::{Config, Page as PageNumber};
use std::alloc::{AllocError, Global};

/// The bytes of a page.
const PAGE: usize = 4096;

/// The permissions of the stack.
const READ_WRITE: PteBits = PteBits(6);

/// A page of an image. An `Err` is want of memory.
fn page_of(alloc: Global, image: &Image, number: PageNumber) -> Result<Page, AllocError>
    requires below { number < 1048576 }
    requires mapped { IsSome (bits_at image.now number) }
    ensures { IfOk result (λ page. page ≡ run.page_of_image image.now number) }
{
    let mut bytes = vec![in alloc; 0; PAGE]?;
    image.page_bytes(number, &mut bytes);
    let bits = image.page_bits(number).unwrap_or(PteBits(0));
    let row = Row::of_numbers(alloc, &bytes)?;
    Ok(Page::new(number as u32, bits, row))
}

/// The pages of an image, ascending. An `Err` is want of memory.
fn image_pages(alloc: Global, image: &Image) -> Result<Vec<Page>, AllocError>
    ensures { IfOk result (λ pages. pages.items ≡ image_pages image.now) }
{
    let mut pages = Vec::new(alloc);
    let mut from = 0;
    while let Some(number) = image.next_page(from) {
        let page = page_of(alloc, image, number)?;
        pages.push(page)?;
        from = number + 1;
    }
    Ok(pages)
}

/// So many pages of zeros more, from a number on. An `Err` is want of memory.
fn add_zeros(alloc: Global, pages: &mut Vec<Page>, first: u32, count: u32) -> Result<(), AllocError>
    requires { first + count ≤ 2 ^ 32 }
    ensures { OnOk result (pages.new.items ≡ pages.old.items ++ map run.zero_page (range_with_len first count)) }
{
    for place in 0..count {
        let row = Row::zeros(alloc, PAGE as u64)?;
        let page = Page::new(first + place, READ_WRITE, row);
        pages.push(page)?;
    }
    Ok(())
}

/// The memory of process 0: the image's pages, and the stack of so many. An `Err` is want of memory.
fn memory_with(alloc: Global, image: &Image, first: u32, count: u32) -> Result<Memory, AllocError>
    requires stack { first ≡ first_stack_page }
    requires few { count ≤ stack_size }
    ensures { IfOk result (λ memory. memory ≡ record { pages = image_pages image.now ++ map run.zero_page (range_with_len first count); objects = [] }) }
{
    let mut list = image_pages(alloc, image)?;
    add_zeros(alloc, &mut list, first, count)?;
    let pages = Pages::new(alloc, list)?;
    Ok(Memory::new(alloc, pages))
}

/// Hart 0 at the entry, and idle ones up to so many. An `Err` is want of memory.
fn first_harts(alloc: Global, entry: u64, count: u32) -> Result<Vec<Hart>, AllocError>
    ensures { IfOk result (λ harts. harts.items ≡ first_harts entry count) }
{
    let mut harts = Vec::new(alloc);
    let first = Hart::first(alloc, entry)?;
    harts.push(first)?;
    for _ in 0..count.saturating_sub(1) {
        harts.push(Hart::idle(alloc))?;
    }
    Ok(harts)
}

impl World {
    ghost use Rattle.std.specs.Prelude.{◌≡◌, IfOk, Some};
    ghost use Rattle.osc_world.specs.Run as run;

    /// The world of an image before any event: process 0 has the image's pages and the stack, and runs on hart 0
    /// from the entry on. An `Err` is want of memory.
    pub fn boot(alloc: Global, image: &Image, config: &Config) -> Result<World, AllocError>
        ensures { IfOk result (λ world. world ≡ Some (run.begins (run.boot image.now config.now))) }
    {
        let memory = memory_with(alloc, image, FIRST_STACK_PAGE as u32, STACK_PAGES as u32)?;
        let mut processes = Vec::new(alloc);
        processes.push(Process::new(alloc, memory))?;
        let harts = first_harts(alloc, image.entry(), config.harts)?;
        Ok(World::begun(State {
            output: Vec::new(alloc),
            shared: Vec::new(alloc),
            processes,
            harts,
            threads: Vec::new(alloc),
        }))
    }
}
