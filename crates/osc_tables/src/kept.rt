//! The tables of one process, and each change of them.
#![tactic(auto, using(crate::proofs::KeptFacts::kept_facts))]

ghost use Rattle.std.specs.Prelude.{◌≡◌, ◌≢◌, ◌+◌, ◌*◌, ◌%◌, ◌/◌, ◌^◌, ◌<◌, ◌≤◌, ◌++◌, ◌∷◌, [], ℕ, suc, List, Bool, length, if◌then◌else◌};
ghost use Rattle.std.specs.Prelude.{IfOk, is_some, IsSome, IsTrue, MatchOption, Some, None, option_map};
ghost use Rattle.osc_word.specs.JobList.{spare};
ghost use Rattle.osc_frames.specs.Free.{free_count};
ghost use Rattle.osc_sv39.specs.Entries.{word_of};
ghost use Rattle.osc_sv39.specs.Walk.{IsLevels, is_canonical, number_of};
ghost use Rattle.osc_paging.specs.Agree.{ReadsAsLeaf};
ghost use Rattle.osc_paging.specs.KeptTables.{closed, kept_word, levels_of, link_entry, mapping_of, need, page_entry};
ghost use Rattle.osc_paging.specs.KeptTables.{frame_of, mapping_at, piece_of, root_of, table_at};
ghost use Rattle.osc_word.specs.declared.job_list.Job.{Job};
ghost use Rattle.osc_paging.specs.TableChanges.{frames_given, give_leaves, link, link_all, map_page, opened, put_job, reclaim, renamed};
ghost use Rattle.osc_paging.specs.TableChanges.{table_frame, unmap_page, with_table, without_page, without_table, zero_job};
ghost use Rattle.osc_tables.specs.Calls.{AllCanonical, AllTaken, CanRename, HasTaken, IsClosed, IsEmptyLeaf, IsFresh, MapsTo, IsNextPage, IsOpen, IsOrdered, NoneFrom, changed, left};
ghost use Rattle.osc_tables.specs.Inside.{Differ, IsTop, LieWithin};
ghost use Rattle.osc_tables.specs.Places.{place_below};

use crate::needs::need_below;
use crate::numbers::{leaf_number, least_from, number_in_range, number_of, page_of, piece_over};
use crate::page_list::PageList;
use crate::table_list::{copy_tables, drop_table, frame_of, piece_of, put_table};
use osc_frames::Frames;
use osc_paging::{Piece, TableFrame, TablePlace};
use osc_sv39::{Mapping, PteEntry, leaf, table};
use osc_word::{Job, Jobs, WordAt};
use std::alloc::{AllocError, Global};
use std::marker::Model;

/// The page tables of one process, of three or four levels. They are closed, or open with a topmost table. A leaf table that
/// was given up stands aside until its frame is given back.
#[derive(Drop)]
pub struct Tables {
    /// The level of the topmost table, one less than the number of levels.
    top: u8,
    pages: PageList,
    tables: Vec<TableFrame>,
    aside: Vec<TableFrame>,
    count: u32,
}

impl Model for Tables {
    ghost use Rattle.std.specs.Prelude.{◌≤◌};
    ghost use Rattle.std.specs.Vec.{vec_capacity};
    ghost use Rattle.osc_paging.specs.KeptTables.{KeptTables};
    ghost use Rattle.osc_tables.specs.Inside.{IsKept, kept};

    ghost Value = { KeptTables };

    ghost view = { λ t. kept t.top t.pages.pages t.tables.items t.aside.items t.pages.room t.count };

    ghost invariant = { λ t. IsKept t.top t.pages.pages t.tables.items t.aside.items t.pages.room t.count
        × (t.count ≤ vec_capacity t.tables) × (t.count ≤ vec_capacity t.aside) };
}

/// The word of what may be mapped.
fn page_word(mapping: Option<Mapping>) -> u64
    ensures { result ≡ word_of (page_entry mapping) }
{
    mapping.map_or(0, |m| leaf(m.frame, m.bits))
}

/// The word of what may be linked.
fn link_word(frame: Option<u32>) -> u64
    ensures { result ≡ word_of (link_entry frame) }
{
    frame.map_or(0, |f| table(f))
}

/// The job that puts a word at the place of a number in a table.
fn put_word(table: u32, number: u64, value: u64) -> Job
    ensures { result ≡ put_job table (number % 512) value }
{
    let index = (number % 512) as u16;
    Job::PutWord {
        at: WordAt {
            frame: table,
            index,
        },
        value,
    }
}

/// How many pages a table of a level covers.
fn pages_below(level: u8) -> u64
    requires { level ≤ 3 }
    ensures { result ≡ 512 ^ suc level }
{
    match level {
        0 => 512,
        1 => 512 * 512,
        2 => 512 * 512 * 512,
        _ => 512 * 512 * 512 * 512,
    }
}

/// The place of a table.
fn place_of(piece: Piece, top: u8) -> TablePlace
    requires top { IsTop top }
    requires level { piece.level ≤ top }
    requires range { piece.number * 512 ^ suc piece.level < 512 ^ suc top }
    ensures { result ≡ place_below top piece }
{
    let first = piece.number * pages_below(piece.level);
    TablePlace {
        level: piece.level,
        first: page_of(first, top),
    }
}

/// The place of the table in a frame.
fn place_in(tables: &[TableFrame], frame: u32, top: u8) -> Option<TablePlace>
    requires top { IsTop top }
    requires tables { LieWithin (suc top) tables.now }
    ensures { result ≡ option_map (place_below top) (piece_of tables.now frame) }
{
    let piece = piece_of(tables, frame)?;
    Some(place_of(piece, top))
}

/// Gives the frames of tables back.
fn give_all(tables: &[TableFrame], frames: &mut Frames)
    requires differ { Differ tables.now }
    requires taken { AllTaken tables.now frames.old }
    ensures { frames.new ≡ frames_given tables.now frames.old }
{
    for t in tables {
        frames.give(t.frame);
    }
}

impl Tables {
    /// Closed tables of three or four levels, of a machine with so many frames, with room for so many
    /// mapped pages.
    pub fn new(alloc: Global, frames: u32, pages: u32, levels: u8) -> Result<Tables, AllocError>
        requires { IsLevels levels }
        ensures { IfOk result (λ t. t ≡ closed levels frames pages) }
    {
        Ok(Tables {
            top: levels - 1,
            pages: PageList::new(alloc, pages)?,
            tables: Vec::with_capacity(alloc, frames as usize)?,
            aside: Vec::with_capacity(alloc, frames as usize)?,
            count: frames,
        })
    }

    /// The frame of the topmost table.
    pub fn root(&self) -> u32
        requires { IsOpen self.now }
        ensures { root_of self.now ≡ Some result }
    {
        frame_of(&self.tables, self.top, 0).unwrap()
    }

    /// The mapping of a page; None exactly where it is not mapped.
    pub fn at(&self, page: u64) -> Option<Mapping>
        ensures { result ≡ mapping_of self.now page }
    {
        let number = number_in_range(page, self.top)?;
        self.pages.at(number)
    }

    /// How many more pages may be mapped.
    pub fn left(&self) -> u32
        ensures { result ≡ left self.now }
    {
        self.pages.left()
    }

    /// The place of the table in a frame; None exactly where the frame is no table of this
    /// process. A leaf aside is one.
    pub fn table_at(&self, frame: u32) -> Option<TablePlace>
        ensures { result ≡ table_at self.now frame }
    {
        match place_in(&self.tables, frame, self.top) {
            Some(place) => Some(place),
            None => place_in(&self.aside, frame, self.top),
        }
    }

    /// The word that the kept tables have in a table. A leaf aside has only words 0.
    pub fn entry(&self, frame: u32, index: u16) -> u64
        requires table { IsSome (table_at self.now frame) }
        requires index { index < 512 }
        ensures { result ≡ kept_word self.now frame index }
    {
        match piece_of(&self.tables, frame) {
            None => 0,
            Some(piece) => {
                let number = piece.number * 512 + u64::from(index);
                if piece.level == 0 {
                    page_word(self.pages.at(number))
                } else {
                    link_word(frame_of(&self.tables, piece.level - 1, number))
                }
            }
        }
    }

    /// The least mapped page at or above another; None exactly where there is none.
    pub fn next_page(&self, from: u64) -> Option<u64>
        ensures next { MatchOption result (NoneFrom self.now from) (IsNextPage self.now from) }
        ensures order { IsOrdered self.now }
    {
        let number = least_from(from, self.top)?;
        let found = self.pages.next(number)?;
        Some(page_of(found, self.top))
    }

    /// The table frames that mapping so many pages newly takes.
    pub fn need(&self, first: u64, count: u64) -> u64
        requires { AllCanonical (levels_of self.now) first count }
        ensures { result ≡ need self.now (number_of (levels_of self.now) first) count }
    {
        if count == 0 {
            return 0;
        }
        need_below(&self.tables, self.top, number_of(first, self.top), count)
    }

    /// Puts a table over a piece, and links it in its parent.
    fn add_table(&mut self, new: TableFrame, parent: u32, jobs: &mut Jobs)
        requires level { new.piece.level < levels_of self.old }
        requires range { new.piece.number * 512 ^ suc new.piece.level < 512 ^ levels_of self.old }
        requires absent { frame_of self.old.tables new.piece.level new.piece.number ≡ None }
        requires fresh { IsFresh self.old new.frame }
        requires spare { 2 ≤ spare jobs.old }
        ensures tables { self.new ≡ record self.old { tables = with_table new self.old.tables } }
        ensures pushed { jobs.new.pushed ≡ jobs.old.pushed
            ++ zero_job new.frame ∷ put_job parent (new.piece.number % 512) (word_of (PteEntry.Table new.frame)) ∷ [] }
        ensures room { jobs.new.room ≡ jobs.old.room }
    {
        put_table(&mut self.tables, new);
        jobs.push(Job::ZeroWords {
            at: WordAt {
                frame: new.frame,
                index: 0,
            },
            count: 512,
        });
        jobs.push(put_word(parent, new.piece.number, table(new.frame)));
    }

    /// Links the table of this level over a piece, where it is missing: in the least free frame.
    fn link(&mut self, level: u8, number: u64, frames: &mut Frames, jobs: &mut Jobs)
        requires level { level < self.old.top }
        requires range { number * 512 ^ suc level < 512 ^ levels_of self.old }
        requires taken { HasTaken self.old frames.old }
        requires spare { 2 ≤ spare jobs.old }
        ensures next { changed self.new frames.new jobs.new.pushed ≡ link level number (changed self.old frames.old jobs.old.pushed) }
        ensures taken { HasTaken self.new frames.new }
        ensures room { jobs.new.room ≡ jobs.old.room }
        ensures few { spare jobs.old ≤ spare jobs.new + 2 }
        ensures rest { self.new ≡ record self.old { tables = self.new.tables } }
    {
        if frame_of(&self.tables, level, number).is_some() {
            return;
        }
        if let Some(parent) = frame_of(&self.tables, level + 1, number / 512) {
            if let Some(frame) = frames.take() {
                let piece = Piece { level, number };
                self.add_table(TableFrame { piece, frame }, parent, jobs);
            }
        }
    }

    /// Links all tables over a page that are missing, from the top.
    fn link_down(&mut self, number: u64, frames: &mut Frames, jobs: &mut Jobs)
        requires range { number < 512 ^ levels_of self.old }
        requires taken { HasTaken self.old frames.old }
        requires spare { 2 * self.old.top ≤ spare jobs.old }
        ensures next { changed self.new frames.new jobs.new.pushed ≡ link_all self.old.top number (changed self.old frames.old jobs.old.pushed) }
        ensures taken { HasTaken self.new frames.new }
        ensures room { jobs.new.room ≡ jobs.old.room }
        ensures few { spare jobs.old ≤ spare jobs.new + 2 * self.old.top }
        ensures rest { self.new ≡ record self.old { tables = self.new.tables } }
    {
        let mut level = self.top;
        while level > 0 {
            let above = piece_over(level, number);
            level -= 1;
            self.link(level, above, frames, jobs);
        }
    }

    /// Maps the page of a number.
    fn map_number(&mut self, number: u64, mapping: Mapping, frames: &mut Frames, jobs: &mut Jobs)
        requires range { number < 512 ^ levels_of self.old }
        requires unmapped { mapping_at self.old.pages number ≡ None }
        requires left { 0 < left self.old }
        requires taken { HasTaken self.old frames.old }
        requires spare { 2 * self.old.top < spare jobs.old }
        ensures next { changed self.new frames.new jobs.new.pushed
            ≡ map_page number mapping (changed self.old frames.old jobs.old.pushed) }
        ensures taken { HasTaken self.new frames.new }
        ensures room { jobs.new.room ≡ jobs.old.room }
    {
        self.link_down(number, frames, jobs);
        if let Some(table) = frame_of(&self.tables, 0, number / 512) {
            self.pages.put(number, mapping);
            jobs.push(put_word(table, number, leaf(mapping.frame, mapping.bits)));
        }
    }

    /// Maps a page: the tables over it that are missing are linked, and its leaf is put.
    pub fn map(&mut self, page: u64, mapping: Mapping, frames: &mut Frames, jobs: &mut Jobs)
        requires opened { IsOpen self.old }
        requires canonical { IsTrue (is_canonical (levels_of self.old) page) }
        requires leaf { ReadsAsLeaf mapping }
        requires unmapped { mapping_of self.old page ≡ None }
        requires left { 0 < left self.old }
        requires taken { HasTaken self.old frames.old }
        requires need { need self.old (number_of (levels_of self.old) page) 1 ≤ free_count frames.old }
        requires spare { 7 ≤ spare jobs.old }

        // Tables, frames and jobs are those of the rule.
        ensures next { changed self.new frames.new jobs.new.pushed
            ≡ map_page (number_of (levels_of self.old) page) mapping (changed self.old frames.old jobs.old.pushed) }
        ensures taken { HasTaken self.new frames.new }
        ensures room { jobs.new.room ≡ jobs.old.room }

        // So the page is mapped, no other page changes, and the frames are those that were needed. The
        // topmost table and its level stay.
        ensures mapped { MapsTo page (Some mapping) self.old self.new }
        ensures root { root_of self.new ≡ root_of self.old }
        ensures top { self.new.top ≡ self.old.top }
        ensures frames { free_count frames.new + need self.old (number_of (levels_of self.old) page) 1 ≡ free_count frames.old }
    {
        let number = number_of(page, self.top);
        self.map_number(number, mapping, frames, jobs);
    }

    /// Unmaps the page of a number.
    fn unmap_number(&mut self, number: u64, jobs: &mut Jobs)
        requires spare { 1 ≤ spare jobs.old }
        ensures next { (free : List Bool) → changed self.new free jobs.new.pushed
            ≡ unmap_page number (changed self.old free jobs.old.pushed) }
        ensures pages { self.new ≡ record self.old { pages = without_page number self.old.pages } }
        ensures room { jobs.new.room ≡ jobs.old.room }
    {
        self.pages.remove(number);
        if let Some(table) = frame_of(&self.tables, 0, number / 512) {
            jobs.push(put_word(table, number, 0));
        }
    }

    /// Unmaps a page: its leaf is cleared, and its leaf table stays.
    pub fn unmap(&mut self, page: u64, jobs: &mut Jobs)
        requires mapped { IsSome (mapping_of self.old page) }
        requires spare { 1 ≤ spare jobs.old }

        // Tables and jobs are those of the rule.
        ensures next { (free : List Bool) → changed self.new free jobs.new.pushed
            ≡ unmap_page (number_of (levels_of self.old) page) (changed self.old free jobs.old.pushed) }
        ensures room { jobs.new.room ≡ jobs.old.room }

        // So the page is mapped no more, no other page changes, and the topmost table stays.
        ensures unmapped { MapsTo page None self.old self.new }
        ensures root { root_of self.new ≡ root_of self.old }
        ensures top { self.new.top ≡ self.old.top }
        ensures taken { (free : List Bool) → HasTaken self.old free → HasTaken self.new free }
    {
        let number = number_of(page, self.top);
        self.unmap_number(number, jobs);
    }

    /// Takes a leaf table out of the tables, and keeps its frame aside.
    fn set_aside(&mut self, number: u64, frame: u32)
        requires { frame_of self.old.tables 0 number ≡ Some frame }
        ensures next { self.new ≡ record self.old {
          tables = without_table 0 number self.old.tables;
          aside = self.old.aside ++ table_frame 0 number frame ∷ [];
        } }
        ensures taken { (free : List Bool) → HasTaken self.old free → HasTaken self.new free }
    {
        drop_table(&mut self.tables, 0, number);
        let piece = Piece { level: 0, number };
        self.aside.push(TableFrame { piece, frame }).unwrap();
    }

    /// Unlinks a leaf table that has no entry. Its frame stands aside until `give_leaves`.
    pub fn reclaim(&mut self, leaf: u64, jobs: &mut Jobs)
        requires leaf { IsEmptyLeaf self.old leaf }
        requires spare { 1 ≤ spare jobs.old }
        ensures next { (free : List Bool) → changed self.new free jobs.new.pushed
            ≡ reclaim (number_of self.old.top leaf) (changed self.old free jobs.old.pushed) }
        ensures root { root_of self.new ≡ root_of self.old }
        ensures top { self.new.top ≡ self.old.top }
        ensures room { jobs.new.room ≡ jobs.old.room }
        ensures taken { (free : List Bool) → HasTaken self.old free → HasTaken self.new free }
    {
        let number = leaf_number(leaf, self.top);
        if let Some(frame) = frame_of(&self.tables, 0, number) {
            if let Some(parent) = frame_of(&self.tables, 1, number / 512) {
                self.set_aside(number, frame);
                jobs.push(put_word(parent, number, 0));
            }
        }
    }

    /// Gives the frames of the leaves aside back.
    pub fn give_leaves(&mut self, frames: &mut Frames)
        requires taken { HasTaken self.old frames.old }
        ensures next { (jobs : List Job) → changed self.new frames.new jobs ≡ give_leaves (changed self.old frames.old jobs) }
        ensures root { root_of self.new ≡ root_of self.old }
        ensures top { self.new.top ≡ self.old.top }
        ensures taken { HasTaken self.new frames.new }
    {
        give_all(&self.aside, frames);
        self.aside.clear();
    }

    /// Opens closed tables with a topmost table, whose frame the caller has taken and whose words
    /// are 0.
    pub fn open(&mut self, root: u32)
        requires closed { IsClosed self.old }
        requires taken { root < self.old.count }
        ensures { self.new ≡ opened root self.old }
    {
        let piece = Piece {
            level: self.top,
            number: 0,
        };
        self.tables.push(TableFrame { piece, frame: root }).unwrap();
    }

    /// Closes open tables without a leaf aside, and gives their frames back.
    pub fn close(&mut self, frames: &mut Frames)
        requires opened { IsOpen self.old }
        requires aside { self.old.aside ≡ [] }
        requires taken { HasTaken self.old frames.old }
        ensures closed { self.new ≡ closed (levels_of self.old) self.old.count self.old.room }
        ensures given { frames.new ≡ frames_given self.old.tables frames.old }
    {
        give_all(&self.tables, frames);
        self.pages.clear();
        self.tables.clear();
        self.aside.clear();
    }

    /// Copies open tables without a leaf aside to closed ones of the same machine, with each frame
    /// under its new name.
    pub fn copy_to(&self, child: &mut Tables, names: &[u32])
        requires opened { IsOpen self.now }
        requires aside { self.now.aside ≡ [] }
        requires closed { child.old ≡ closed (levels_of self.now) self.now.count self.now.room }
        requires names { CanRename self.now names.now }
        ensures { child.new ≡ renamed names.now self.now }
    {
        self.pages.copy_to(&mut child.pages, names);
        copy_tables(&self.tables, &mut child.tables, names);
    }
}

#[cfg(test)]
impl Tables {
    /// Whether a leaf table is linked.
    pub fn is_linked(&self, leaf: u64) -> bool
        ensures { result ≡ is_some (frame_of self.now.tables 0 (number_of self.now.top leaf)) }
    {
        let number = leaf_number(leaf, self.top);
        frame_of(&self.tables, 0, number).is_some()
    }

    /// Whether `split` takes the address of a page.
    pub fn reaches(&self, page: u64) -> bool
        ensures { result ≡ is_canonical (levels_of self.now) page }
    {
        crate::numbers::is_canonical(page, self.top)
    }
}
