//! The laws of words and of caches. Each function does nothing: what it says is proved of the
//! definitions.

ghost use Rattle.osc_caches.specs.Words.{StepsKeepWords};
ghost use Rattle.osc_caches.specs.HeapShows.{HeapPlansShow, HeapJobsShow};
ghost use Rattle.osc_caches.specs.DataFrames.{DataIsNoTable};
ghost use Rattle.osc_caches.specs.Stores.{StoresLeave, HeapCallsCopy};
ghost use Rattle.osc_caches.specs.Working.{WorkKeepsShowing};
ghost use Rattle.osc_caches.specs.Going.{PlansGo};
ghost use Rattle.osc_caches.specs.KeptShown.{KeptShown};
ghost use Rattle.osc_caches.specs.ShowSteps.{StepsKeepShowing, StoresShow};
ghost use Rattle.osc_caches.specs.StartAgrees.{StartsStand};
ghost use Rattle.osc_caches.specs.Blocks.{PlansHold};

/// Each step keeps the agreement of the machine's own words with the kept tables, once the pending work is
/// done: the kernel's steps all do, and so does a guest's store that leaves them.
pub fn words_agree()
    ensures { StepsKeepWords }
{}

/// From its plan on, refused or not, and after each of its jobs, the words show of the tables of a process
/// in a call on the heap what is kept, nothing, or what is about to go while every cache is to be cleared.
pub fn heap_calls_show()
    ensures plans { HeapPlansShow }
    ensures jobs { HeapJobsShow }
{}

/// The frame of a mapped page, and of a page that holds a block, is no table of any process that has not
/// ended: so a store through it changes no table.
pub fn data_is_no_table()
    ensures { DataIsNoTable }
{}

/// A store in a frame that is no table leaves the agreement of words and tables, whatever work is pending, as
/// long as nothing is copied into a table; and in a call on the heap nothing is.
pub fn stores_leave()
    ensures stores { StoresLeave }
    ensures copies { HeapCallsCopy }
{}

/// While a job of a call on the heap is under way the words show what they may, and will once its moves are
/// done: from its first move to its last, and through each store of another hart in a frame that is no table.
pub fn work_keeps_showing()
    ensures { WorkKeepsShowing }
{}

/// After each malloc, free and realloc a page that was mapped still is, or it is a page of an object that
/// waits or was replaced, with the frame of its page of the object's block; and what went before still does.
pub fn pages_go()
    ensures { PlansGo }
{}

/// Where no pending job writes a process's tables, their words are the kept ones: so it is of every process
/// while no job is pending, and of each but the one for which the call's jobs are.
pub fn kept_shown()
    ensures { KeptShown }
{}

/// Through each step of the machine the words show of the tables of a process in a call on the heap what
/// they may: from its plan to its last job, where a guest's store leaves that; and a store in a frame that is
/// no table does.
pub fn steps_keep_showing()
    ensures steps { StepsKeepShowing }
    ensures stores { StoresShow }
{}

/// The machine that opens with the image of a file has words that agree with the tables of its process, and
/// no call is under way.
pub fn starts_stand()
    ensures { StartsStand }
{}

/// After each malloc, free and realloc, until it has returned, the heap is one, and each object that waits
/// holds its block.
pub fn blocks_stand()
    ensures { PlansHold }
{}
