//! The plan of a write: its buffer is read through the page tables, and each word of memory that has
//! some of its bytes is to be written out.
#![tactic(auto)]

ghost use Rattle.std.specs.Prelude.{◌≡◌, ◌+◌, ◌-◌, ◌%◌, ◌^◌, ◌<◌, ◌≤◌, ◌++◌, None, length};
ghost use Rattle.osc_word.specs.JobList.{spare};
ghost use Rattle.osc_sv39.specs.declared.entries.Access.TheVariants.{Load};
ghost use Rattle.osc_sv39.specs.Walk.{frame_allowed};
ghost use Rattle.osc_paging.specs.KeptTables.{mapping_of};
ghost use Rattle.osc_calls.specs.WritePlan.{first_unreadable, is_unreadable, out_jobs};
ghost use Rattle.osc_write.specs.Writing.{writing};

use osc_sv39::{Access, allows};
use osc_tables::Tables;
use osc_word::{Answer, Frame, Job, Jobs, OUTPUT_LIMIT, Page, WordAt};

/// The bytes of a page.
const PAGE: u64 = 4096;

/// The bytes of a word.
const WORD: u64 = 8;

/// The frame of a page, where the guest may load from it.
fn load_frame(tables: &Tables, page: Page) -> Option<Frame>
    ensures { result ≡ frame_allowed Load (mapping_of tables.now page) }
{
    let mapping = tables.at(page)?;
    if allows(mapping.bits, Access::Load) {
        Some(mapping.frame)
    } else {
        None
    }
}

/// Whether the guest cannot load from an address.
fn is_unreadable(tables: &Tables, address: u64) -> bool
    ensures { result ≡ is_unreadable tables.now address }
{
    load_frame(tables, address / PAGE).is_none()
}

/// The first of so many addresses from one on that is not readable; they wrap.
fn first_unreadable(tables: &Tables, buf: u64, count: u64) -> Option<u64>
    requires { count ≤ 4194304 }
    ensures { result ≡ first_unreadable tables.now buf count }
{
    let mut done = 0;
    while done < count {
        let at = buf.wrapping_add(done);
        if is_unreadable(tables, at) {
            return Some(at);
        }
        done += PAGE - at % PAGE;
    }
    None
}

/// Pushes a job for each word that has some of the bytes, which lie in one page.
fn push_page(tables: &Tables, from: u64, count: u64, jobs: &mut Jobs)
    requires page { from % 4096 + count ≤ 4096 }
    requires end { from + count < 2 ^ 64 }
    requires room { length jobs.old.pushed + length (out_jobs tables.now from count) ≤ jobs.old.room }
    ensures pushed { jobs.new.pushed ≡ jobs.old.pushed ++ out_jobs tables.now from count }
    ensures room { jobs.new.room ≡ jobs.old.room }
{
    let frame = load_frame(tables, from / PAGE).unwrap_or(0);
    let mut at = from;
    let mut left = count;
    while left > 0 {
        let first = at % WORD;
        let bytes = left.min(WORD - first);
        jobs.push(Job::ToOut {
            at: WordAt {
                frame,
                index: (at % PAGE / WORD) as u16,
            },
            first: first as u8,
            count: bytes as u8,
        });
        at += bytes;
        left -= bytes;
    }
}

/// Pushes a job for each word that has some of the bytes.
fn push_words(tables: &Tables, buf: u64, count: u64, jobs: &mut Jobs)
    requires end { buf + count < 2 ^ 64 }
    requires room { length jobs.old.pushed + length (out_jobs tables.now buf count) ≤ jobs.old.room }
    ensures pushed { jobs.new.pushed ≡ jobs.old.pushed ++ out_jobs tables.now buf count }
    ensures room { jobs.new.room ≡ jobs.old.room }
{
    let mut at = buf;
    let mut left = count;
    while left > 0 {
        let bytes = left.min(PAGE - at % PAGE);
        push_page(tables, at, bytes, jobs);
        at += bytes;
        left -= bytes;
    }
}

/// Plans a write of `len` bytes from `buf` on, when the output has `written` bytes: it writes all, but
/// no more than the output has room for. Number, with their count, comes exactly where each of them is
/// readable, and then there is a job for each word that has some of them, ascending. Else BadBuffer comes
/// with the first address that is not readable, and nothing is pushed.
pub fn plan_write(tables: &Tables, written: u32, jobs: &mut Jobs, buf: u64, len: u64) -> Answer
    requires last { mapping_of tables.now (2 ^ 52 - 1) ≡ None }
    requires spare { 524289 ≤ spare jobs.old }
    ensures answer { result ≡ (writing tables.now written buf len jobs.old.pushed).answer }
    ensures pushed { jobs.new.pushed ≡ (writing tables.now written buf len jobs.old.pushed).jobs }
    ensures room { jobs.new.room ≡ jobs.old.room }
{
    let count = len.min(u64::from(OUTPUT_LIMIT.saturating_sub(written)));
    if let Some(address) = first_unreadable(tables, buf, count) {
        return Answer::BadBuffer { address };
    }
    push_words(tables, buf, count, jobs);
    Answer::Number(count)
}

#[cfg(test)]
mod tests;
