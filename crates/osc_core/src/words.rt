//! The words of memory.

ghost use Rattle.std.specs.Prelude.{◌≡◌, ◌+◌, ◌*◌};
ghost use Rattle.osc_sv39.specs.Walk.{put_word, word_at};

use osc_word::WordAt;

/// The words of a frame.
const FRAME: usize = 512;

/// Where a word stands among those of all frames.
fn place_of(at: WordAt) -> usize
    ensures { result ≡ at.frame * 512 + at.index }
{
    at.frame as usize * FRAME + at.index as usize
}

/// A word; 0 where there is none.
#[inline(always)]
pub fn load(words: &[u64], at: WordAt) -> u64
    ensures { result ≡ word_at words.now at.frame at.index }
{
    let place = place_of(at);
    if place < words.len() { words[place] } else { 0 }
}

/// Puts a word in place of another; nothing changes where there is none.
#[inline(always)]
pub fn store(words: &mut [u64], at: WordAt, value: u64)
    ensures { words.new ≡ put_word words.old at.frame at.index value }
{
    let place = place_of(at);
    if place < words.len() {
        words[place] = value;
    }
}
