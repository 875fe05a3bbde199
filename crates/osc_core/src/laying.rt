//! The words of memory before the first step.

ghost use Rattle.std.specs.Prelude.{ℕ, Bool, List, None, OnOk, Option, ◌≡◌, ◌+◌, ◌-◌, ◌*◌, ◌%◌, ◌<◌, ◌≤◌, [], IfOk, length, option_map, replicate};
ghost use Rattle.std.specs.Option.{option_and_then};
ghost use Rattle.osc_sv39.specs.declared.entries.Mapping.{Mapping};
ghost use Rattle.osc_sv39.specs.Entries.{entry_of};
ghost use Rattle.osc_sv39.specs.Walk.{IsLevels, leaf_of, through, walk_from, word_at};
ghost use Rattle.osc_paging.specs.JobWords.{words_after, words_done, zeroed};
ghost use Rattle.osc_space.specs.WordLaws.{StaysInFrame};
ghost use Rattle.osc_calls.specs.Kernel.{KernelState};
ghost use Rattle.osc_word.specs.Limits.{first_fault};
ghost use Rattle.osc_paging.specs.KeptTables.{KeptTables};
ghost use Rattle.osc_image.specs.Frames.{needed_frames};
ghost use Rattle.osc_image.specs.Image.{NoneFrom};
ghost use Rattle.osc_open.specs.Laying.{pages_of};
ghost use Rattle.osc_calls.specs.Open.{image_pages, open_kernel, open_words, opening};
ghost use Rattle.osc_core.specs.Boot.{IsOfFile};
ghost use Rattle.osc_core.specs.Words.{CanLay, LaysImage, LaysPage, OpeningWrites, PutsPage, Writes, AllWrite, no_entry};

use crate::words::{load, store};
use byteorder::{ByteOrder, LittleEndian};
use osc_elf::Image;
use osc_sv39::{PteBits, PteEntry, read_pte};
use osc_turns::Kernel;
use osc_word::{Config, Frame, Job, Page, WordAt};
use std::alloc::{AllocError, Global};

/// The words of a frame.
const FRAME: u16 = 512;

/// The bytes of a page.
const PAGE: usize = 4096;

/// The pages below 4 GiB, of which an image has some.
const PAGE_LIMIT: Page = 1_048_576;

/// So many words of a frame, from one on, become 0.
#[tactic(auto, using(crate::proofs::Puts::zero_steps))]
fn zero(words: &mut [u64], at: WordAt, count: u16)
    requires { at.index + count ≤ 512 }
    ensures { words.new ≡ zeroed (at.frame * 512 + at.index) count words.old }
{
    for past in 0..count {
        let place = WordAt {
            frame: at.frame,
            index: at.index + past,
        };
        store(words, place, 0);
    }
}

/// Does a job that puts words.
fn do_job(words: &mut [u64], job: Job)
    requires writes { Writes job }
    requires within { StaysInFrame job }
    ensures { words.new ≡ words_done no_entry job words.old }
{
    match job {
        Job::PutWord { at, value } => store(words, at, value),
        Job::ZeroWords { at, count } => zero(words, at, count),
        _ => {}
    }
}

/// The table that an entry links.
fn next_table(words: &[u64], table: Frame, number: u64) -> Option<Frame>
    ensures { (on : ℕ → Option Mapping) → option_and_then on result ≡ through (entry_of (word_at words.now table (number % 512))) on }
{
    let at = WordAt {
        frame: table,
        index: (number % 512) as u16,
    };
    match read_pte(load(words, at)) {
        PteEntry::Table(frame) => Some(frame),
        _ => None,
    }
}

/// The frame of a page, by its entry in a table of level 0.
fn leaf_frame(words: &[u64], table: Frame, page: Page) -> Option<Frame>
    ensures { result ≡ option_map (λ (m : Mapping). m.frame) (leaf_of (entry_of (word_at words.now table (page % 512)))) }
{
    let at = WordAt {
        frame: table,
        index: (page % 512) as u16,
    };
    match read_pte(load(words, at)) {
        PteEntry::Leaf(frame, _) => Some(frame),
        _ => None,
    }
}

/// The frame of a page, by a walk from the topmost table; None where it has none.
#[tactic(auto, unfolding(osc_sv39::specs::Walk::walk_from))]
fn frame_of(words: &[u64], root: Frame, levels: u8, page: Page) -> Option<Frame>
    requires { IsLevels levels }
    ensures { result ≡ option_map (λ (m : Mapping). m.frame) (walk_from (levels - 1) words.now root page) }
{
    let table = if levels == 4 {
        next_table(words, root, page / 512 / 512 / 512)?
    } else {
        root
    };
    let table = next_table(words, table, page / 512 / 512)?;
    let table = next_table(words, table, page / 512)?;
    leaf_frame(words, table, page)
}

/// The bytes of a page stand in a frame from now on.
#[tactic(auto, using(crate::proofs::Puts::page_steps))]
fn put_page(words: &mut [u64], frame: Frame, bytes: &[u8])
    requires { length bytes.now ≡ 4096 }
    ensures { PutsPage frame bytes.now words.old words.new }
{
    for index in 0..FRAME {
        let word = LittleEndian::read_u64(&bytes[index as usize * 8..]);
        store(words, WordAt { frame, index }, word);
    }
}

/// Does the jobs with which a kernel opens, and leaves the kernel none.
fn do_jobs(words: &mut [u64], kernel: &mut Kernel)
    requires { AllWrite kernel.old.kernel.jobs }
    ensures words { words.new ≡ words_after no_entry kernel.old.kernel.jobs words.old }
    ensures kernel { kernel.new.kernel ≡ record (kernel.old.kernel) { jobs = [] } }
{
    while let Some(job) = kernel.next_job() {
        do_job(words, job);
        kernel.job_done(0);
    }
}

/// The bytes of an image's page stand in a frame from now on. `bytes` is only room for them.
fn lay_page(words: &mut [u64], frame: Frame, image: &Image, page: Page, bytes: &mut [u8])
    requires { length bytes.old ≡ 4096 }
    ensures laid { LaysPage image.now page frame words.old words.new }
    ensures room { length bytes.new ≡ 4096 }
{
    image.page_bytes(page, bytes);
    put_page(words, frame, bytes);
}

/// The jobs of an opening put words alone.
fn opening_writes()
    ensures { OpeningWrites }
{}

/// The image has no page from 4 GiB on.
fn none_above(image: &Image)
    ensures { NoneFrom image.now 1048576 }
{
    let _none = image.next_page(PAGE_LIMIT);
}

/// The bytes of all these pages of an image stand in their frames from now on. The frames are found by
/// the tables that stand in the words. `bytes` is only room for a page.
fn lay_image(
    words: &mut [u64],
    root: Frame,
    levels: u8,
    image: &Image,
    pages: &[(Page, PteBits)],
    bytes: &mut [u8],
)
    requires levels { IsLevels levels }
    requires room { length bytes.old ≡ 4096 }
    ensures { (t : KeptTables) (free : List Bool) → CanLay t free root levels (pages_of pages.now) words.old
        → LaysImage image.now t free (pages_of pages.now) words.old words.new }
{
    for (page, _bits) in pages {
        if let Some(frame) = frame_of(words, root, levels, *page) {
            lay_page(words, frame, image, *page, bytes);
        }
    }
}

/// The words of memory before the first step, of a machine whose kernel opens with these pages of an
/// image. The kernel has no job left then.
pub fn new_words(
    alloc: Global,
    image: &Image,
    pages: &[(Page, PteBits)],
    config: &Config,
    kernel: &mut Kernel,
) -> Result<Vec<u64>, AllocError>
    requires image { IsOfFile image.now }
    requires pages { pages_of pages.now ≡ image_pages image.now }
    requires valid { first_fault config.now ≡ None }
    requires enough { needed_frames config.now.levels image.now ≤ config.now.frames }
    requires kernel { kernel.old.kernel ≡ opening (image_pages image.now) config.now }
    ensures words { IfOk result (λ words. words.items ≡ open_words image.now (open_kernel image.now config.now)) }
    ensures kernel { OnOk result (kernel.new.kernel ≡ open_kernel image.now config.now) }
{
    let mut words = vec![in alloc; 0; config.frames as usize * FRAME as usize]?;
    let mut bytes = vec![in alloc; 0; PAGE]?;
    opening_writes();
    none_above(image);
    do_jobs(&mut words, kernel);
    let root = kernel.root(0).unwrap_or(0);
    lay_image(&mut words, root, config.levels, image, pages, &mut bytes);
    Ok(words)
}
