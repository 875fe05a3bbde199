//! Times parts of the machine that no program reaches yet. `osc_bench PART COUNT` does the work of
//! the part COUNT times and prints a checksum of what it gave, never a time: the scripts of bench/
//! time the whole program.
#![tactic(auto)]

mod frames;
mod hart;
mod heap;
mod kernel;
mod tables;
mod words;

use anyhow::{Context, Result};
use heap::Blocks;
use kernel::Size;
use std::alloc::{AllocError, Global};
use std::env;
use tables::Order;

/// What can be timed.
#[derive(Clone, Copy)]
enum Part {
    Decode,
    Encode,
    Frames,
    Hart,
    Heap(Blocks),
    Open(Size),
    Tables(Order),
}

impl Part {
    fn named(name: &str) -> Option<Part> {
        match name {
            "decode" => Some(Part::Decode),
            "encode" => Some(Part::Encode),
            "frames" => Some(Part::Frames),
            "hart" => Some(Part::Hart),
            "heap" => Some(Part::Heap(Blocks::Mixed)),
            "heap-small" => Some(Part::Heap(Blocks::Small)),
            "heap-many" => Some(Part::Heap(Blocks::ManySmall)),
            "heap-whole" => Some(Part::Heap(Blocks::Whole)),
            "open" => Some(Part::Open(Size::Default)),
            "open-greatest" => Some(Part::Open(Size::Greatest)),
            "tables-latest" => Some(Part::Tables(Order::Latest)),
            "tables-oldest" => Some(Part::Tables(Order::Oldest)),
            _ => None,
        }
    }

    fn checksum(self, alloc: Global, count: u64) -> Result<u64, AllocError> {
        match self {
            Part::Decode => Ok(words::decoded(count)),
            Part::Encode => Ok(words::encoded(count)),
            Part::Frames => frames::paired(alloc, count),
            Part::Hart => hart::stepped(alloc, count),
            Part::Heap(blocks) => heap::paired(alloc, count, blocks),
            Part::Open(size) => kernel::opened(alloc, count, size),
            Part::Tables(order) => tables::paired(alloc, count, order),
        }
    }
}

fn main(rt: HostRuntime) -> Result<()> {
    let mut arguments = env::args(&rt)?.skip(1);
    let name = arguments.next().context("the words are PART and COUNT")?;
    let count = arguments.next().context("the words are PART and COUNT")?;
    let part = Part::named(name.as_str()).context(
        "PART is decode, encode, frames, hart, heap, heap-small, heap-many, heap-whole, open, open-greatest, tables-latest or tables-oldest",
    )?;
    let count: u64 = count.parse().context("COUNT is a number")?;
    let checksum = part.checksum(rt.alloc(), count)?;
    println!(rt; "{checksum}")?;
    Ok(())
}
