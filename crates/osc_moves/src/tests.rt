//! Jobs that are done action by action on the words of four frames.

ghost use Rattle.std.specs.Prelude.{◌≡◌};

use crate::{HartAsk, Progress};
use osc_word::{Job, WordAt};
use std::alloc::AllocGlobal;
use std::process::Abort;
use std::test::Fail;

/// What was done on the way.
#[derive(Drop)]
struct Work {
    words: Vec<u64>,
    loads: u32,
    stores: u32,
    /// The last box that was changed.
    changed: Option<u32>,
}

fn at(frame: u32, index: u16) -> WordAt
    ensures { result ≡ record { frame = frame; index = index } }
{
    WordAt { frame, index }
}

impl Work {
    /// Each word has its place as its value, and 0x0807060504030201 times that.
    fn new(rt: &(impl Abort + AllocGlobal)) -> Result<Work, Fail> {
        let mut words = Vec::with_capacity(rt.alloc(), 2048)?;
        for place in 0..2048 {
            words.push(0x0807_0605_0403_0201 ^ place)?;
        }
        Ok(Work {
            words,
            loads: 0,
            stores: 0,
            changed: None,
        })
    }

    fn word(&self, frame: u32, index: u16) -> Option<u64> {
        self.words
            .get(frame as usize * 512 + index as usize)
            .copied()
    }

    /// Does an action, and answers what a load gave, or 0; None where there is nothing to do.
    fn act(&mut self, ask: HartAsk) -> Option<u64> {
        match ask {
            HartAsk::Load(at) => {
                self.loads = self.loads.saturating_add(1);
                self.word(at.frame, at.index)
            }
            HartAsk::Store { at, value } => {
                self.stores = self.stores.saturating_add(1);
                let place = at.frame as usize * 512 + at.index as usize;
                if place < self.words.len() {
                    self.words[place] = value;
                }
                Some(0)
            }
            HartAsk::ChangeBox(hart) => {
                self.changed = Some(hart);
                Some(0)
            }
            _ => None,
        }
    }

    /// Works on until the job is done or nothing is asked for, and answers whether it is done. The
    /// entries of a copied table are 7 times their place.
    fn run(&mut self, start: Progress) -> bool {
        let mut progress = start;
        for _ in 0..2000 {
            let entry = progress.place().map_or(0, |place| u64::from(place) * 7);
            let Some(word) = self.act(progress.ask(entry)) else {
                return false;
            };
            match progress.told(word) {
                Some(next) => progress = next,
                None => return true,
            }
        }
        false
    }
}

#[test]
fn one_word(rt: HostRuntime) -> Result<(), Fail> {
    let mut work = Work::new(&rt)?;
    let job = Job::PutWord {
        at: at(1, 511),
        value: u64::MAX,
    };
    assert_eq!(rt; Progress::begin(job).job(), job);
    assert!(rt; work.run(Progress::begin(job)));
    assert_eq!(rt; (work.loads, work.stores), (0, 1));
    assert_eq!(rt; work.word(1, 511), Some(u64::MAX));
    assert_eq!(rt; work.word(1, 510), Some(0x0807_0605_0403_0201 ^ 1022));
    assert_eq!(rt; work.word(2, 0), Some(0x0807_0605_0403_0201 ^ 1024));
    Ok(())
}

#[test]
fn runs_of_words(rt: HostRuntime) -> Result<(), Fail> {
    let mut work = Work::new(&rt)?;
    let zero = Job::ZeroWords {
        at: at(3, 509),
        count: 3,
    };
    assert!(rt; work.run(Progress::begin(zero)));
    assert_eq!(rt; (work.loads, work.stores), (0, 3));
    let copy = Job::CopyWords {
        from: at(2, 100),
        to: at(1, 0),
        count: 200,
    };
    assert!(rt; work.run(Progress::begin(copy)));
    assert_eq!(rt; (work.loads, work.stores), (200, 203));
    for (frame, index, value) in [
        (3, 508, 0x0807_0605_0403_0201 ^ 2044),
        (3, 509, 0),
        (3, 511, 0),
        (0, 511, 0x0807_0605_0403_0201 ^ 511),
        (1, 0, 0x0807_0605_0403_0201 ^ 1124),
        (1, 199, 0x0807_0605_0403_0201 ^ 1323),
        (1, 200, 0x0807_0605_0403_0201 ^ 712),
    ] {
        assert_eq!(rt; work.word(frame, index), Some(value));
    }
    Ok(())
}

#[test]
fn low_bytes_of_a_word(rt: HostRuntime) -> Result<(), Fail> {
    for (bytes, value) in [
        (0, 0),
        (1, 1),
        (3, 0x03_0201),
        (7, 0x07_0605_0403_0201),
        (8, 0x0807_0605_0403_0201),
    ] {
        let mut work = Work::new(&rt)?;
        let job = Job::CopyPart {
            from: at(0, 0),
            to: at(1, 9),
            bytes,
        };
        assert!(rt; work.run(Progress::begin(job)));
        assert_eq!(rt; (work.loads, work.stores), (1, 1));
        assert_eq!(rt; work.word(1, 9), Some(value));
    }
    Ok(())
}

#[test]
fn a_table(rt: HostRuntime) -> Result<(), Fail> {
    let mut work = Work::new(&rt)?;
    let job = Job::CopyTable { from: 0, to: 2 };
    assert!(rt; work.run(Progress::begin(job)));
    assert_eq!(rt; (work.loads, work.stores), (0, 512));
    for (frame, index, value) in [
        (1, 511, 0x0807_0605_0403_0201 ^ 1023),
        (2, 0, 0),
        (2, 1, 7),
        (2, 511, 3577),
        (3, 0, 0x0807_0605_0403_0201 ^ 1536),
    ] {
        assert_eq!(rt; work.word(frame, index), Some(value));
    }
    Ok(())
}

#[test]
fn boxes_and_output(rt: HostRuntime) -> Result<(), Fail> {
    let mut work = Work::new(&rt)?;
    for job in [Job::ClearBox { hart: 5 }, Job::Tell { hart: 5 }] {
        work.changed = None;
        assert_eq!(rt; Progress::begin(job).box_changed(), Some(5));
        assert!(rt; work.run(Progress::begin(job)));
        assert_eq!(rt; work.changed, Some(5));
    }
    let out = Job::ToOut {
        at: at(1, 3),
        first: 2,
        count: 4,
    };
    assert_eq!(rt; Progress::begin(out).ask(0), HartAsk::Load(at(1, 3)));
    assert_eq!(rt; Progress::begin(out).box_changed(), None);
    assert!(rt; work.run(Progress::begin(out)));
    assert_eq!(rt; (work.loads, work.stores), (1, 0));
    Ok(())
}

#[test]
fn no_words(rt: HostRuntime) -> Result<(), Fail> {
    let job = Job::ZeroWords {
        at: at(1, 512),
        count: 0,
    };
    assert_eq!(rt; Progress::begin(job).ask(0), HartAsk::Rest);
    assert_eq!(rt; Progress::begin(job).told(0), None);
    Ok(())
}
