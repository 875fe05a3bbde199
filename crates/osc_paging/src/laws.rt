//! The laws of kept tables and of caches. Each function does nothing: what it says is proved of
//! the definitions, for any number of levels.

ghost use Rattle.osc_paging.specs.TableLaws.{
  WalkGivesMapping,
  OpeningAgrees,
  MappingKeeps,
  UnmappingKeeps,
  ReclaimingKeeps,
  GivingKeeps,
  MappingTakesNeed,
  MappingsTakeNeed,
  MappingsMapPages,
  NeedSplits,
  StoresElsewhereKeep,
  TablesStandAbove,
};
ghost use Rattle.osc_paging.specs.CacheLaws.{LookFindsLatest};
ghost use Rattle.osc_paging.specs.CopyLaws.{CopyingAgrees, JobsElsewhereKeep, TakingKeeps};
ghost use Rattle.osc_paging.specs.OtherLaws.{
  MappingKeepsOthers,
  UnmappingKeepsOthers,
  ReclaimingKeepsOthers,
  GivingKeepsOthers,
  WorkElsewhereKeeps,
};

/// Where the words of memory agree with kept tables, a walk over the words gives exactly the kept
/// mapping, for each address and access.
pub fn walk_gives_mapping()
    ensures { WalkGivesMapping }
{}

/// Words that agree with kept tables, once the pending jobs are done, agree again after the jobs
/// of each change.
pub fn changes_keep_agreement()
    ensures opening { OpeningAgrees }
    ensures mapping { MappingKeeps }
    ensures unmapping { UnmappingKeeps }
    ensures reclaiming { ReclaimingKeeps }
    ensures giving { GivingKeeps }
{}

/// Where words and tables agree, each mapped page has its leaf table, and each table below the
/// topmost one is linked: so an unmapping clears one leaf, and a reclaim one link.
pub fn tables_stand_above()
    ensures { TablesStandAbove }
{}

/// A mapping takes exactly the frames that are needed, and so do ascending mappings together. Each of
/// these pages is then mapped as asked, and no other page changes.
pub fn mapping_takes_need()
    ensures one { MappingTakesNeed }
    ensures many { MappingsTakeNeed }
    ensures split { NeedSplits }
    ensures pages { MappingsMapPages }
{}

/// Stores in frames that are no tables keep the agreement.
pub fn stores_elsewhere_keep()
    ensures { StoresElsewhereKeep }
{}

/// Jobs that write no table keep the agreement of its words, and so do frames that are taken.
pub fn work_elsewhere_keeps()
    ensures jobs { JobsElsewhereKeep }
    ensures taking { TakingKeeps }
    ensures after { WorkElsewhereKeeps }
{}

/// A change of one process's tables keeps what agrees with another's.
pub fn changes_keep_others()
    ensures mapping { MappingKeepsOthers }
    ensures unmapping { UnmappingKeepsOthers }
    ensures reclaiming { ReclaimingKeepsOthers }
    ensures giving { GivingKeepsOthers }
{}

/// Once the jobs of a copy are done, the words agree with the parent's tables and with the child's.
pub fn copying_agrees()
    ensures { CopyingAgrees }
{}

/// A cache gives only what was filled since its last clear, and the latest at a place.
pub fn look_finds_latest()
    ensures { LookFindsLatest }
{}
