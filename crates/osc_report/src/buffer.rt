//! A line of at most 256 bytes.

ghost use Rattle.std.specs.Prelude.{◌≡◌, ◌+◌, ◌≤◌, ◌++◌, [], length};
ghost use Rattle.std.specs.Fmt.{decimal, signed_decimal};
ghost use Rattle.osc_calls.specs.Lines.{hexadecimal};

use crate::digits::write_hexadecimal;
use itoa::Buffer;
use std::marker::Model;

/// The bytes of a line, at most 256.
#[derive(Debug, Drop)]
pub struct LineBuf {
    bytes: [u8; 256],
    length: u16,
}

impl Model for LineBuf {
    ghost use Rattle.std.specs.Prelude.{ℕ, List, ◌≤◌, take};

    ghost Value = { List ℕ };

    ghost view = { λ line. take line.length line.bytes };

    ghost invariant = { λ line. line.length ≤ 256 };
}

impl LineBuf {
    /// No bytes.
    pub fn new() -> LineBuf
        ensures { result ≡ [] }
    {
        LineBuf {
            bytes: [0; 256],
            length: 0,
        }
    }

    /// The bytes that it holds.
    pub fn as_bytes(&self) -> &[u8]
        ensures { result.now ≡ self.now }
    {
        &self.bytes[..self.length as usize]
    }

    /// Drops all bytes.
    pub fn clear(&mut self)
        ensures { self.new ≡ [] }
    {
        self.length = 0;
    }

    /// Appends a text.
    pub fn text(&mut self, text: &[u8])
        requires { length self.old + length text.now ≤ 256 }
        ensures after { self.new ≡ self.old ++ text.now }
        ensures length { length self.new ≡ length self.old + length text.now }
    {
        let first = self.length as usize;
        let end = first + text.len();
        self.bytes[first..end].copy_from_slice(text);
        self.length = end as u16;
    }

    /// Appends a text and then a number in decimal, which has at most 20 digits.
    pub fn decimal(&mut self, before: &[u8], number: u64)
        requires { length self.old + length before.now + 20 ≤ 256 }
        ensures after { self.new ≡ self.old ++ before.now ++ decimal number }
        ensures length { length self.new ≤ length self.old + length before.now + 20 }
    {
        self.text(before);
        self.text(Buffer::new().format(number).as_bytes());
    }

    /// Appends a text and then a signed number in decimal, which has at most a sign and 19 digits.
    pub fn signed_decimal(&mut self, before: &[u8], offset: i64)
        requires { length self.old + length before.now + 20 ≤ 256 }
        ensures after { self.new ≡ self.old ++ before.now ++ signed_decimal offset }
        ensures length { length self.new ≤ length self.old + length before.now + 20 }
    {
        self.text(before);
        self.text(Buffer::new().format(offset).as_bytes());
    }

    /// Appends a text and then a number in hexadecimal, which has at most 16 digits.
    pub fn hexadecimal(&mut self, before: &[u8], number: u64)
        requires { length self.old + length before.now + 16 ≤ 256 }
        ensures after { self.new ≡ self.old ++ before.now ++ hexadecimal number }
        ensures length { length self.new ≤ length self.old + length before.now + 16 }
    {
        self.text(before);
        let mut digits = [0; 16];
        let first = write_hexadecimal(number, &mut digits);
        self.text(&digits[first..]);
    }
}
