//! The words of a machine in a vector, frame after frame, on which tests do jobs.

ghost use Rattle.osc_sv39.specs.Walk.{IsLevels};

use osc_sv39::{Mapping, PteEntry, read_pte, split};
use osc_word::{Job, Jobs, WordAt};
use std::process::Abort;

/// What is kept of a word by so many of its bytes.
const KEPT: [u64; 8] = [
    0,
    0xff,
    0xffff,
    0xff_ffff,
    0xffff_ffff,
    0xff_ffff_ffff,
    0xffff_ffff_ffff,
    0xff_ffff_ffff_ffff,
];

/// The word that stands so many words past a place.
fn get(rt: &impl Abort, words: &[u64], at: WordAt, past: u16) -> u64 {
    let place = at.frame as usize * 512 + at.index as usize + past as usize;
    assert!(rt; place < words.len());
    words[place]
}

/// Stores the word that stands so many words past a place.
fn put(rt: &impl Abort, words: &mut [u64], at: WordAt, past: u16, value: u64) {
    let place = at.frame as usize * 512 + at.index as usize + past as usize;
    assert!(rt; place < words.len());
    words[place] = value;
}

fn zero(rt: &impl Abort, words: &mut [u64], at: WordAt, count: u16) {
    for k in 0..count {
        put(rt, words, at, k, 0);
    }
}

fn copy(rt: &impl Abort, words: &mut [u64], from: WordAt, to: WordAt, count: u16) {
    for k in 0..count {
        let value = get(rt, words, from, k);
        put(rt, words, to, k, value);
    }
}

fn copy_part(rt: &impl Abort, words: &mut [u64], from: WordAt, to: WordAt, bytes: u8) {
    assert!(rt; bytes < 8);
    let value = get(rt, words, from, 0) & KEPT[bytes as usize];
    put(rt, words, to, 0, value);
}

fn do_job(rt: &impl Abort, job: Job, words: &mut [u64]) {
    match job {
        Job::PutWord { at, value } => put(rt, words, at, 0, value),
        Job::ZeroWords { at, count } => zero(rt, words, at, count),
        Job::CopyWords { from, to, count } => copy(rt, words, from, to, count),
        Job::CopyPart { from, to, bytes } => copy_part(rt, words, from, to, bytes),
        _ => {}
    }
}

/// Does the jobs, of which there are at most 8192, and answers how many boxes they clear.
pub fn do_jobs(rt: &impl Abort, jobs: &Jobs, words: &mut [u64]) -> u32 {
    let mut cleared = 0u32;
    for i in 0..8192 {
        if let Some(job) = jobs.get(i) {
            do_job(rt, job, words);
            if matches!(job, Job::ClearBox { .. }) {
                cleared = cleared.saturating_add(1);
            }
        }
    }
    cleared
}

/// The table that an entry links.
fn next_table(words: &[u64], table: u32, index: u16) -> Option<u32> {
    let word = words.get(table as usize * 512 + index as usize)?;
    match read_pte(*word) {
        PteEntry::Table(frame) => Some(frame),
        _ => None,
    }
}

/// The mapping that a walk over the words finds, from the topmost table in frame 0 on.
pub fn walk(words: &[u64], address: u64, levels: u8) -> Option<Mapping>
    requires { IsLevels levels }
{
    let [first, second, third, fourth] = split(address, levels)?;
    let mut table = 0;
    if levels == 4 {
        table = next_table(words, table, first)?;
    }
    table = next_table(words, table, second)?;
    table = next_table(words, table, third)?;
    let word = words.get(table as usize * 512 + fourth as usize)?;
    match read_pte(*word) {
        PteEntry::Leaf(frame, bits) => Some(Mapping { frame, bits }),
        _ => None,
    }
}

/// Where the word at an address stands, by a walk.
fn place(rt: &impl Abort, words: &[u64], address: u64, levels: u8) -> WordAt
    requires { IsLevels levels }
{
    let mapping = walk(words, address, levels).expect(rt, "no page");
    WordAt {
        frame: mapping.frame,
        index: (address % 4096 / 8) as u16,
    }
}

/// The word at an address, by a walk.
pub fn word_at(rt: &impl Abort, words: &[u64], address: u64, levels: u8) -> u64
    requires { IsLevels levels }
{
    let at = place(rt, words, address, levels);
    get(rt, words, at, 0)
}

/// The byte at an address, by a walk.
pub fn byte_at(rt: &impl Abort, words: &[u64], address: u64, levels: u8) -> u8
    requires { IsLevels levels }
{
    let bytes = word_at(rt, words, address, levels).to_le_bytes();
    bytes[(address % 8) as usize]
}

/// Stores a word at an address, by a walk.
pub fn store_at(rt: &impl Abort, words: &mut [u64], address: u64, levels: u8, value: u64)
    requires { IsLevels levels }
{
    let at = place(rt, words, address, levels);
    put(rt, words, at, 0, value);
}
