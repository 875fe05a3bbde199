//! The pages of blocks of whole pages, in their order, each with its frame.

ghost use Rattle.std.specs.Prelude.{◌≡◌, ◌+◌, ◌^◌, ◌<◌, ◌≤◌, ◌++◌, nat_le, filter, length, map, List, [], None, ℕ, slice_range};
ghost use Rattle.std.specs.List.{position_or_len, insert_slice, remove_range};
ghost use Rattle.std.specs.Vec.{vec_len, vec_capacity};
ghost use Rattle.osc_frames.specs.Free.{free_count};
ghost use Rattle.osc_slot.specs.declared.HeapPage.{HeapPage};
ghost use Rattle.osc_slot.specs.Ordered.{IsAscending};
ghost use Rattle.osc_slot.specs.Heap.{frame_of, back, give_back, rename, HaveFrames};
ghost use Rattle.osc_heap.specs.Layout.{in_range, out_of_range, CanGiveBack};

use osc_frames::Frames;
use osc_slot::HeapPage;

/// The frame of a page; None exactly where the page has none.
pub fn frame_of(pages: &[HeapPage], page: u64) -> Option<u32>
    requires { IsAscending (λ (p : HeapPage). p.page) pages.now }
    ensures { result ≡ frame_of pages.now page }
{
    let at = place_of(pages, page);
    if at < pages.len() {
        let found = pages[at];
        if found.page == page {
            return Some(found.frame);
        }
    }
    None
}

// The place of the first page that is not below this one, or the count of the pages where all are.
fn place_of(pages: &[HeapPage], page: u64) -> usize
    requires { IsAscending (λ (p : HeapPage). p.page) pages.now }
    ensures { result ≡ position_or_len (λ (p : HeapPage). nat_le page p.page) pages.now }
{
    let mut low = 0;
    let mut high = pages.len();
    while low < high {
        let middle = low + (high - low) / 2;
        if pages[middle].page < page {
            low = middle + 1;
        } else {
            high = middle;
        }
    }
    low
}

/// Gives `count` pages from `first` on the least free frames.
pub fn back(pages: &mut Vec<HeapPage>, frames: &mut Frames, first: u64, count: u64)
    requires fits { first + count < 2 ^ 40 }
    requires room { vec_len pages.old + count ≤ vec_capacity pages.old }
    requires ascending { IsAscending (λ (p : HeapPage). p.page) pages.old.items }
    requires fresh { (q : ℕ) → first ≤ q → q < first + count → frame_of pages.old.items q ≡ None }
    ensures pages { pages.new.items ≡ (back count first (record { pages = pages.old.items; free = frames.old })).pages }
    ensures free { frames.new ≡ (back count first (record { pages = pages.old.items; free = frames.old })).free }
    ensures room { vec_capacity pages.old ≤ vec_capacity pages.new }
{
    let at = place_of(pages, first);
    let before = pages.len();
    push_backed(pages, frames, first, count);
    move_last(pages, at, before);
}

/// Puts `count` pages from `first` on behind the others, on the least free frames.
fn push_backed(pages: &mut Vec<HeapPage>, frames: &mut Frames, first: u64, count: u64)
    requires fits { first + count < 2 ^ 40 }
    requires room { vec_len pages.old + count ≤ vec_capacity pages.old }
    ensures pages { pages.new.items ≡ pages.old.items ++ (back count first (record { pages = []; free = frames.old })).pages }
    ensures free { frames.new ≡ (back count first (record { pages = []; free = frames.old })).free }
    ensures room { vec_capacity pages.old ≤ vec_capacity pages.new }
{
    for page in first..first + count {
        match frames.take() {
            Some(frame) => pages.push(HeapPage { page, frame }).unwrap(),
            None => {}
        }
    }
}

/// Moves the pages from a place on before those from an earlier one on.
fn move_last(pages: &mut Vec<HeapPage>, at: usize, from: usize)
    requires order { at ≤ from }
    requires within { from ≤ vec_len pages.old }
    ensures pages { (front last : List HeapPage) → pages.old.items ≡ front ++ last → length front ≡ from → pages.new.items ≡ insert_slice front at last }
    ensures room { vec_capacity pages.old ≤ vec_capacity pages.new }
{
    pages[at..].rotate_left(from - at);
}

/// Gives the frames of `count` pages from `first` on back, and leaves these pages out.
pub fn give_range(pages: &mut Vec<HeapPage>, frames: &mut Frames, first: u64, count: u64)
    requires fits { first + count < 2 ^ 40 }
    requires ascending { IsAscending (λ (p : HeapPage). p.page) pages.old.items }
    requires taken { CanGiveBack frames.old (filter (in_range first count) pages.old.items) }
    ensures pages { pages.new.items ≡ filter (out_of_range first count) pages.old.items }
    ensures free { frames.new ≡ give_back (filter (in_range first count) pages.old.items) frames.old }
    ensures room { vec_capacity pages.old ≤ vec_capacity pages.new }
{
    let at = place_of(pages, first);
    let end = place_of(pages, first + count);
    give_part(pages, frames, at, end);
}

/// Gives the frames of the pages from a place up to another back, and leaves these pages out.
fn give_part(pages: &mut Vec<HeapPage>, frames: &mut Frames, at: usize, end: usize)
    requires order { at ≤ end }
    requires within { end ≤ vec_len pages.old }
    requires taken { CanGiveBack frames.old (slice_range pages.old.items at end) }
    ensures pages { pages.new.items ≡ remove_range pages.old.items at end }
    ensures free { frames.new ≡ give_back (slice_range pages.old.items at end) frames.old }
    ensures room { vec_capacity pages.old ≤ vec_capacity pages.new }
{
    give_all(&pages[at..end], frames);
    pages.drain(at..end);
}

/// Gives the frames of all pages back.
#[tactic(auto, using(crate::proofs::Scans::page_scans))]
pub fn give_all(pages: &[HeapPage], frames: &mut Frames)
    requires { CanGiveBack frames.old pages.now }
    ensures { frames.new ≡ give_back pages.now frames.old }
{
    for page in pages {
        frames.give(page.frame);
    }
}

/// Copies pages to an empty list, each with the frame that `names` has for its own.
pub fn copy_all(pages: &[HeapPage], into: &mut Vec<HeapPage>, names: &[u32])
    requires empty { into.old.items ≡ [] }
    requires room { length pages.now ≤ vec_capacity into.old }
    requires names { HaveFrames (length names.now) pages.now }
    ensures pages { into.new.items ≡ map (rename names.now) pages.now }
    ensures room { vec_capacity into.old ≤ vec_capacity into.new }
{
    for page in pages {
        into.push(HeapPage {
            page: page.page,
            frame: names[page.frame as usize],
        })
        .unwrap();
    }
}
