//! A text of at most 64 bytes.

ghost use Rattle.std.specs.Prelude.{◌≡◌, ◌+◌, ◌≤◌, ◌<◌, ◌++◌, [], length};
ghost use Rattle.std.specs.Fmt.{decimal};

use itoa::Buffer;
use std::marker::Model;

/// The bytes of a text, at most 64.
#[derive(Debug, Drop)]
pub struct TextBuf {
    bytes: [u8; 64],
    length: u8,
}

impl Model for TextBuf {
    ghost use Rattle.std.specs.Prelude.{ℕ, List, ◌≤◌, take};

    ghost Value = { List ℕ };

    ghost view = { λ buf. take buf.length buf.bytes };

    ghost invariant = { λ buf. buf.length ≤ 64 };
}

impl TextBuf {
    /// No bytes.
    pub fn new() -> TextBuf
        ensures { result ≡ [] }
    {
        TextBuf {
            bytes: [0; 64],
            length: 0,
        }
    }

    /// The bytes that it holds.
    pub fn as_bytes(&self) -> &[u8]
        ensures { result.now ≡ self.now }
    {
        &self.bytes[..self.length as usize]
    }

    /// Drops all bytes.
    pub fn clear(&mut self)
        ensures { self.new ≡ [] }
    {
        self.length = 0;
    }

    /// Appends a text.
    pub fn text(&mut self, text: &[u8])
        requires { length self.old + length text.now ≤ 64 }
        ensures after { self.new ≡ self.old ++ text.now }
        ensures length { length self.new ≡ length self.old + length text.now }
    {
        let first = self.length as usize;
        let end = first + text.len();
        self.bytes[first..end].copy_from_slice(text);
        self.length = end as u8;
    }

    /// Appends a number in decimal.
    pub fn decimal(&mut self, number: u32)
        requires { length self.old + length (decimal number) ≤ 64 }
        ensures after { self.new ≡ self.old ++ decimal number }
        ensures length { length self.new ≡ length self.old + length (decimal number) }
    {
        self.text(Buffer::new().format(number).as_bytes());
    }
}
