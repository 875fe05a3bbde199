//! The words of a machine in a vector, frame after frame, on which tests do jobs.

ghost use Rattle.osc_sv39.specs.Walk.{IsLevels};

use osc_sv39::{Mapping, PteEntry, read_pte, split};
use osc_word::{Job, Jobs, WordAt};
use std::process::Abort;

/// Stores the word that stands so many words past a place.
fn put(rt: &impl Abort, words: &mut [u64], at: WordAt, past: u16, value: u64) {
    let place = at.frame as usize * 512 + at.index as usize + past as usize;
    assert!(rt; place < words.len());
    words[place] = value;
}

fn zero(rt: &impl Abort, words: &mut [u64], at: WordAt, count: u16) {
    for k in 0..count {
        put(rt, words, at, k, 0);
    }
}

/// Does the jobs, of which there are at most 1024.
pub fn do_jobs(rt: &impl Abort, jobs: &Jobs, words: &mut [u64]) {
    for i in 0..1024 {
        match jobs.get(i) {
            Some(Job::PutWord { at, value }) => put(rt, words, at, 0, value),
            Some(Job::ZeroWords { at, count }) => zero(rt, words, at, count),
            Some(_) => panic!(rt; "another job"),
            None => {}
        }
    }
}

/// The table that an entry links.
fn next_table(words: &[u64], table: u32, index: u16) -> Option<u32> {
    let word = words.get(table as usize * 512 + index as usize)?;
    match read_pte(*word) {
        PteEntry::Table(frame) => Some(frame),
        _ => None,
    }
}

/// The mapping that a walk over the words finds, from the topmost table in frame 0 on.
pub fn walk(words: &[u64], address: u64, levels: u8) -> Option<Mapping>
    requires { IsLevels levels }
{
    let [first, second, third, fourth] = split(address, levels)?;
    let mut table = 0;
    if levels == 4 {
        table = next_table(words, table, first)?;
    }
    table = next_table(words, table, second)?;
    table = next_table(words, table, third)?;
    let word = words.get(table as usize * 512 + fourth as usize)?;
    match read_pte(*word) {
        PteEntry::Leaf(frame, bits) => Some(Mapping { frame, bits }),
        _ => None,
    }
}
