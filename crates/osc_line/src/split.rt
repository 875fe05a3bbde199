//! Texts from a byte on, and after a front.

ghost use Rattle.std.specs.Prelude.{◌≡◌, ◌≢◌, ◌++◌, ℕ, List, MatchOption};
ghost use Rattle.osc_line.specs.Parts as spec;

/// The text before the first of a byte, and the text from it on.
pub(crate) fn split(byte: u8, text: &[u8]) -> (&[u8], &[u8])
    ensures whole { text.now ≡ result.0.now ++ result.1.now }
    ensures rest { result.1.now ≡ spec.from_byte byte text.now }
{
    let mut at = 0;
    while at < text.len() {
        if text[at] == byte {
            break;
        }
        at += 1;
    }
    (&text[..at], &text[at..])
}

/// What follows a front that the text begins with.
pub(crate) fn after_front<'a>(front: &[u8], text: &'a [u8]) -> Option<&'a [u8]>
    ensures { MatchOption result ((rest : List ℕ) → text.now ≢ front.now ++ rest) (λ rest. text.now ≡ front.now ++ rest.now) }
{
    text.strip_prefix(front)
}

/// What stands before an end that the text has.
pub(crate) fn before_end<'a>(end: &[u8], text: &'a [u8]) -> Option<&'a [u8]>
    ensures { MatchOption result ((front : List ℕ) → text.now ≢ front ++ end.now) (λ front. text.now ≡ front.now ++ end.now) }
{
    text.strip_suffix(end)
}
