ghost use Rattle.std.specs.Prelude.{◌≡◌, ◌-◌, ◌<◌, Some, length};
ghost use Rattle.osc_sv39.specs.Walk.{IsLevels};
ghost use Rattle.osc_word.specs.JobList.{no_jobs};
ghost use Rattle.osc_frames.specs.Free.{all_free, without_frame};
ghost use Rattle.osc_paging.specs.KeptTables.{closed};
ghost use Rattle.osc_paging.specs.TableChanges.{opened};
ghost use Rattle.osc_space.specs.Share.{no_regions};

use crate::{Regions, SharePlan, plan_share};
use osc_frames::Frames;
use osc_sv39::{Mapping, PteBits, PteEntry, read_pte, split};
use osc_tables::Tables;
use osc_word::{Job, Jobs};
use std::alloc::Global;
use std::process::Abort;
use std::test::Fail;

/// Plans a share in a process that has no page, in a machine of 64 frames.
fn plan_on(
    tables: &mut Tables,
    regions: &mut Regions,
    frames: &mut Frames,
    jobs: &mut Jobs,
    n: u64,
    levels: u8,
) -> SharePlan
    requires levels { IsLevels levels }
    requires tables { tables.old ≡ opened 0 (closed levels 64 128) }
    requires regions { regions.old ≡ no_regions 64 }
    requires frames { frames.old ≡ without_frame (all_free 64) (Some 0) }
    requires jobs { jobs.old ≡ no_jobs 1024 }
    ensures regions { length regions.new ≡ 64 }
{
    plan_share(tables, regions, frames, jobs, n)
}

/// Does the jobs on the words.
fn do_jobs(rt: &impl Abort, jobs: &Jobs, words: &mut [u64]) {
    for i in 0..1024 {
        match jobs.get(i) {
            Some(Job::PutWord { at, value }) => {
                let place = at.frame as usize * 512 + at.index as usize;
                assert!(rt; place < words.len());
                words[place] = value;
            }
            Some(Job::ZeroWords { at, count }) => {
                for k in 0..count as usize {
                    let place = at.frame as usize * 512 + at.index as usize + k;
                    assert!(rt; place < words.len());
                    words[place] = 0;
                }
            }
            Some(_) => panic!(rt; "another job"),
            None => {}
        }
    }
}

/// What an entry of a table says.
fn entry(words: &[u64], table: u32, index: u16) -> Option<PteEntry> {
    let word = words.get(table as usize * 512 + index as usize)?;
    Some(read_pte(*word))
}

/// The table that an entry links.
fn next_table(words: &[u64], table: u32, index: u16) -> Option<u32> {
    match entry(words, table, index)? {
        PteEntry::Table(frame) => Some(frame),
        _ => None,
    }
}

/// The mapping that a walk over the words finds.
fn walk(words: &[u64], root: u32, address: u64, levels: u8) -> Option<Mapping>
    requires { IsLevels levels }
{
    let [first, second, third, fourth] = split(address, levels)?;
    let mut table = root;
    if levels == 4 {
        table = next_table(words, table, first)?;
    }
    table = next_table(words, table, second)?;
    table = next_table(words, table, third)?;
    match entry(words, table, fourth)? {
        PteEntry::Leaf(frame, bits) => Some(Mapping { frame, bits }),
        _ => None,
    }
}

/// So many pages of the region are there, each over a frame of zeros that is held once, and no more.
fn check_pages(
    rt: &impl Abort,
    tables: &Tables,
    regions: &Regions,
    words: &[u64],
    levels: u8,
    count: u32,
)
    requires levels { IsLevels levels }
    requires regions { length regions.now ≡ 64 }
{
    assert!(rt; count < 63);
    for k in 0..count + 1 {
        let page = 0x20_0000 + u64::from(k);
        let mapping = tables.at(page);
        assert_eq!(rt; walk(words, 0, page * 4096, levels), mapping);
        if k == count {
            assert_eq!(rt; mapping, None);
        } else {
            assert_eq!(rt;
                mapping,
                Some(Mapping {
                    frame: k + 1,
                    bits: PteBits(0xd7)
                })
            );
            assert_eq!(rt; regions.holders(k + 1), 1);
            let first = (k as usize + 1) * 512;
            assert!(rt; first + 512 <= words.len());
            assert!(rt; words[first..first + 512].iter().all(|word| *word == 0));
        }
    }
}

/// A share of `n` pages answers as it should, and leaves so many frames.
fn share_on(
    rt: &impl Abort,
    alloc: Global,
    levels: u8,
    n: u64,
    plan: SharePlan,
    left: u32,
) -> Result<(), Fail>
    requires { IsLevels levels }
{
    let mut frames = Frames::new(alloc, 64)?;
    assert_eq!(rt; frames.take(), Some(0));
    let mut tables = Tables::new(alloc, 64, 128, levels)?;
    tables.open(0);
    let mut regions = Regions::new(alloc, 64)?;
    let mut jobs = Jobs::new(alloc, 1024)?;
    let answer = plan_on(&mut tables, &mut regions, &mut frames, &mut jobs, n, levels);
    assert_eq!(rt; answer, plan);
    assert_eq!(rt; frames.free_count(), left);
    let mut words = vec![in alloc; 0x5a; 32768]?;
    words[..512].fill(0);
    do_jobs(rt, &jobs, &mut words);
    let count = match plan {
        SharePlan::Given { .. } => u32::try_from(n).expect(rt, "too many"),
        _ => 0,
    };
    check_pages(rt, &tables, &regions, &words, levels, count);
    Ok(())
}

/// The largest region leaves no frame, and one page more is refused.
fn borders(rt: &impl Abort, alloc: Global, levels: u8, most: u64) -> Result<(), Fail>
    requires levels { IsLevels levels }
    requires most { most < 64 }
{
    let given = SharePlan::Given {
        address: 0x2_0000_0000,
    };
    share_on(rt, alloc, levels, 0, SharePlan::Empty, 63)?;
    share_on(rt, alloc, levels, most, given, 0)?;
    share_on(rt, alloc, levels, most + 1, SharePlan::NoFrames, 63)?;
    share_on(rt, alloc, levels, u64::MAX, SharePlan::NoFrames, 63)
}

#[test]
fn three_levels(rt: HostRuntime) -> Result<(), Fail> {
    borders(&rt, rt.alloc(), 3, 61)
}

#[test]
fn four_levels(rt: HostRuntime) -> Result<(), Fail> {
    borders(&rt, rt.alloc(), 4, 60)
}
