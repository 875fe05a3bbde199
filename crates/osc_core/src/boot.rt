//! How a machine begins.

ghost use Rattle.std.specs.Prelude.{ℕ, ◌≡◌, ◌<◌, ◌≤◌, Some, None, IfErr, IfOk, map};
ghost use Rattle.std.specs.List.{range_with_len};
ghost use Rattle.osc_calls.specs.Open.{image_pages, opening};
ghost use Rattle.osc_image.specs.Frames.{needed_frames};
ghost use Rattle.osc_word.specs.Limits.{first_fault};
ghost use Rattle.osc_open.specs.Laying.{pages_of};
ghost use Rattle.osc_machine.specs.Start.{first_hart, first_user};
ghost use Rattle.osc_core.specs.Boot.{Begins, IsOfFile, Refuses, start_at};

use crate::boxes::Homes;
use crate::laying::new_words;
use crate::machine::Machine;
use osc_elf::Image;
use osc_hart::UserHart;
use osc_kernel::KernelFault;
use osc_sv39::PteBits;
use osc_turns::{Hart, Kernel};
use osc_word::{Config, ConfigFault, Frame, Page, Regs, Start};
use std::alloc::{AllocError, Global};

/// A machine before its first step, and its harts.
#[derive(Drop)]
pub struct Booted {
    pub machine: Machine,
    pub harts: Vec<Hart>,
}

/// Why a machine doesn't begin.
#[derive(Clone, Copy, Debug, PartialEq, Eq)]
pub enum BootFault {
    /// The first number of the configuration that is out of its range.
    Config(ConfigFault),
    /// The pages of the image, those of the stack and the tables of both need so many frames, which are
    /// more than those of the machine.
    NoRoom { needed: u64, frames: u32 },
    /// Memory was short.
    Memory,
}

impl From<AllocError> for BootFault {
    ghost use Rattle.std.specs.Prelude.{◌≡◌};
    ghost use Rattle.osc_core.specs.declared.boot.BootFault.TheVariants.{Memory};

    ghost from_gives = { λ _ fault. fault ≡ Memory };

    fn from(_error: AllocError) -> BootFault {
        BootFault::Memory
    }
}

/// The stack's end, which x2 of the first thread holds.
const STACK_END: u64 = 0x1_0010_0000;

/// How the first thread begins, in a process whose topmost table is in this frame.
fn first_start(config: &Config, root: Frame, entry: u64) -> Start
    ensures { result ≡ start_at config.now root entry }
{
    let mut regs = Regs::new();
    regs.set(2, STACK_END);
    Start {
        pid: 0,
        root,
        regs,
        pc: entry,
        levels: config.levels,
        frames: config.frames,
    }
}

/// The guest part of a hart: the first one runs.
fn first_user(start: &Start, number: u32) -> UserHart
    requires { start.now.root < start.now.frames }
    ensures { result.hart ≡ first_user start.now number }
{
    if number == 0 {
        UserHart::begin(start)
    } else {
        UserHart::idle()
    }
}

/// All harts: the first one runs, and the others are idle.
fn new_harts(alloc: Global, config: &Config, start: &Start) -> Result<Vec<Hart>, AllocError>
    requires { start.now.root < start.now.frames }
    ensures { IfOk result (λ harts. harts.items ≡ map (first_hart config.now start.now) (range_with_len 0 config.now.harts)) }
{
    let count = config.harts;
    let mut harts = Vec::with_capacity(alloc, count as usize)?;
    for number in 0..count {
        harts.push(Hart::new(alloc, number, count, first_user(start, number))?)?;
    }
    Ok(harts)
}

/// The pages of an image, by number with R, W and X, ascending.
#[tactic(auto, using(crate::proofs::Pages::page_steps))]
fn image_pages(alloc: Global, image: &Image) -> Result<Vec<(Page, PteBits)>, AllocError>
    ensures { IfOk result (λ pages. pages_of pages.items ≡ image_pages image.now) }
{
    let mut pages = Vec::new(alloc);
    let mut from = 0;
    while let Some(page) = image.next_page(from) {
        from = page + 1;
        if let Some(bits) = image.page_bits(page) {
            pages.push((page, bits))?;
        }
    }
    Ok(pages)
}

/// The kernel of a machine with an image, before the jobs of its tables are done.
fn open_kernel(
    alloc: Global,
    image: &Image,
    pages: &[(Page, PteBits)],
    config: &Config,
) -> Result<Kernel, BootFault>
    requires image { IsOfFile image.now }
    requires pages { pages_of pages.now ≡ image_pages image.now }
    requires valid { first_fault config.now ≡ None }
    ensures opened { IfOk result (λ kernel. (needed_frames config.now.levels image.now ≤ config.now.frames)
        × (kernel.kernel ≡ opening (image_pages image.now) config.now)) }
    ensures refused { IfErr result (Refuses image.now config.now) }
{
    match Kernel::open(alloc, pages, config) {
        Ok(kernel) => Ok(kernel),
        Err(KernelFault::NoRoom { needed, frames }) => Err(BootFault::NoRoom { needed, frames }),
        Err(KernelFault::Memory) => Err(BootFault::Memory),
    }
}

impl Machine {
    ghost use Rattle.std.specs.Prelude.{IfErr, IfOk};
    ghost use Rattle.osc_core.specs.Boot.{Begins, IsOfFile, Refuses};
    ghost use Rattle.osc_core.specs.Shared.{state_of};
    ghost use Rattle.osc_core.specs.Told.{JournalTells};

    /// The machine of a configuration before its first step, with the image of a file: process 0 has the
    /// image's pages and its stack, hart 0 runs at the entry, and every other hart is idle. All memory of a
    /// run is taken here. The first fault of the configuration comes before everything else; NoRoom comes
    /// exactly where the frames are too few, unless memory is short.
    pub fn boot(alloc: Global, image: &Image, config: &Config) -> Result<Booted, BootFault>
        requires image { IsOfFile image.now }
        ensures begins { IfOk result (Begins image.now config.now) }
        ensures journal { IfOk result (λ booted. JournalTells config.now (state_of booted.machine booted.harts.items)) }
        ensures refuses { IfErr result (Refuses image.now config.now) }
    {
        if let Err(fault) = config.check() {
            return Err(BootFault::Config(fault));
        }
        let pages = image_pages(alloc, image)?;
        let mut kernel = open_kernel(alloc, image, &pages, config)?;
        let words = new_words(alloc, image, &pages, config, &mut kernel)?;
        let root = kernel.root(0).unwrap_or(0);
        let harts = new_harts(alloc, config, &first_start(config, root, image.entry()))?;
        let machine = Machine {
            words,
            gates: vec![in alloc; 0; config.frames as usize]?,
            boxes: Homes::new(alloc, config.harts)?,
            kernel: Some(kernel),
            config: *config,
        };
        Ok(Booted { machine, harts })
    }
}
