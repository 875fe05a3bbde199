//! Which frames of a process are to be copied, found in one walk over each of its parts.

ghost use Rattle.std.specs.Prelude.{◌≡◌, ◌+◌, ◌-◌, ◌/◌, ◌<◌, ◌≤◌, ◌^◌, ℕ, [], Some, All, MatchOption, ◌==◌, count_by, is_some, length};
ghost use Rattle.osc_paging.specs.KeptTables.{table_at};
ghost use Rattle.osc_slot.specs.Heap.{IsHeap};
ghost use Rattle.osc_space.specs.declared.ObjectFact.{ObjectFact};
ghost use Rattle.osc_space.specs.Objects.{fact};
ghost use Rattle.osc_tables.specs.Calls.{IsOrdered};
ghost use Rattle.osc_fork.specs.Names.{AreBacked, AreFound, AreMarked, IsFirst, MarksMore, frames_between, mark_all, pages_between, to_copy};

use osc_heap::CanonHeap;
use osc_mark::Marks;
use osc_paging::Mapped;
use osc_tables::Tables;
use osc_word::{Frame, Page};

/// Stands for a frame that is to be copied, until its copy is named; no frame has this number.
pub const TO_COPY: Frame = Frame::MAX;

/// Each table is to be copied, and each other frame stands for itself.
pub fn mark_tables(tables: &Tables, names: &mut [Frame])
    requires { length names.old ≤ 4096 }
    ensures { AreMarked (λ frame. is_some (table_at tables.now frame)) names.new }
{
    for (frame, name) in names.iter_mut().enumerate() {
        let frame = frame as Frame;
        let is_table = tables.table_at(frame).is_some();
        *name = if is_table { TO_COPY } else { frame };
    }
}

/// The first mapped page from one page on, below another.
fn first_between(tables: &Tables, from: Page, to: Page) -> Option<Mapped>
    requires { to ≤ 67108864 }
    ensures first { MatchOption result (pages_between from to tables.now ≡ []) (IsFirst from to tables.now) }
    ensures order { IsOrdered tables.now }
{
    match tables.next_page(from) {
        Some(page) if page < to => {
            let mapping = tables.at(page).unwrap();
            Some(Mapped {
                number: page,
                mapping,
            })
        }
        _ => None,
    }
}

/// The frames of the mapped pages from one page on, below another, are to be copied.
pub fn mark_pages(tables: &Tables, from: Page, to: Page, names: &mut [Frame])
    requires end { to ≤ 67108864 }
    requires frames { All (λ frame. frame < length names.old) (frames_between from to tables.now) }
    ensures names { names.new ≡ mark_all (frames_between from to tables.now) names.old }
    ensures order { IsOrdered tables.now }
{
    let mut from = from;
    while let Some(next) = first_between(tables, from, to) {
        names[next.mapping.frame as usize] = TO_COPY;
        from = next.number + 1;
    }
}

/// The frames of so many canonical pages from one on are to be copied, up to a page that has none.
fn mark_block(heap: &CanonHeap, first: Page, count: u32, names: &mut [Frame])
    requires first { first < 2 ^ 52 }
    requires size { length names.old ≡ heap.now.frames }
    ensures more { MarksMore heap.now.pages names.old names.new }
    ensures found { AreBacked heap.now.pages first count → AreFound heap.now.pages first count names.new }
{
    for k in 0..count {
        match heap.frame_at(first + u64::from(k)) {
            Some(frame) => names[frame as usize] = TO_COPY,
            None => return,
        }
    }
}

/// The frames of the blocks of all objects are to be copied, also of those that are dead and wait.
pub fn mark_objects(marks: &Marks, heap: &CanonHeap, names: &mut [Frame])
    requires { length names.old ≡ heap.now.frames }
    ensures more { MarksMore heap.now.pages names.old names.new }
    ensures found { (object : ℕ) (o : ObjectFact) → fact marks.now.objects object ≡ Some o
        → AreBacked heap.now.pages ((o.canon - 16) / 4096) o.pages
        → AreFound heap.now.pages ((o.canon - 16) / 4096) o.pages names.new }
    ensures valid { IsHeap heap.now }
{
    // No block lies on page 0. The look is for the proof: it says that the pages are in order.
    let _ = heap.frame_at(0);
    for object in 0..marks.next_object() {
        let fact = marks.fact(object);
        let start = fact.canon.saturating_sub(16);
        mark_block(heap, start / 4096, fact.pages, names);
    }
}

/// How many frames are to be copied.
pub fn count_marked(names: &[Frame]) -> usize
    ensures { result ≡ count_by (λ name. name == to_copy) names.now }
{
    names.iter().filter(|name| **name == TO_COPY).count()
}
