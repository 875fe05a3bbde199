//! Vectors whose room is taken at the start and filled as far as it was used. A place past the end has
//! the value that nothing has set yet.

ghost use Rattle.std.specs.Prelude.{ℕ, ◌≡◌, ◌≤◌, length, max, slice_index_or};
ghost use Rattle.std.specs.Vec.{vec_capacity};

/// The value at a place, which past the end is the one that nothing has set.
pub fn value_at<T: Copy>(items: &[T], at: usize, unset: T) -> T
    ensures { result ≡ slice_index_or items.now at unset }
{
    match items.get(at) {
        Some(value) => *value,
        None => unset,
    }
}

/// Fills a vector up to a count of places, where it has fewer, within the room that it has.
pub fn fill_up<T: Copy>(items: &mut Vec<T>, count: usize, unset: T)
    requires { count ≤ vec_capacity items.old }
    ensures same { (at : ℕ) → slice_index_or items.new.items at unset ≡ slice_index_or items.old.items at unset }
    ensures count { length items.new.items ≡ max count (length items.old.items) }
    ensures room { vec_capacity items.old ≤ vec_capacity items.new }
{
    for _at in items.len()..count {
        items.push(unset).unwrap();
    }
}
