//! A line that is put together in place.

ghost use Rattle.std.specs.Prelude.{◌≡◌, ◌+◌, ◌≤◌, ◌++◌, [], length};
ghost use Rattle.std.specs.Fmt.{decimal};

use itoa::Buffer;
use std::marker::Model;

/// A line of at most 200 bytes, of fixed size: it takes no memory. Contracts see its bytes.
#[derive(Drop)]
pub struct Line {
    bytes: [u8; 200],
    len: usize,
}

impl Model for Line {
    ghost use Rattle.std.specs.Prelude.{List, ℕ, ◌≡◌, ◌≤◌, take, length};

    ghost Value = { List ℕ };

    ghost view = { λ line. take line.len line.bytes };

    ghost invariant = { λ line. (line.len ≤ 200) × (length line.bytes ≡ 200) };
}

impl Line {
    /// The empty line.
    pub fn new() -> Self
        ensures { result ≡ [] }
    {
        Line {
            bytes: [0; 200],
            len: 0,
        }
    }

    /// The bytes of the line.
    pub fn bytes(&self) -> &[u8]
        ensures { result.now ≡ self.now }
    {
        &self.bytes[..self.len]
    }

    /// Puts a piece at the end.
    pub fn push(&mut self, piece: &[u8])
        requires { length self.old + length piece.now ≤ 200 }
        ensures { self.new ≡ self.old ++ piece.now }
    {
        let end = self.len + piece.len();
        self.bytes[self.len..end].copy_from_slice(piece);
        self.len = end;
    }

    /// Puts a number in decimal at the end.
    pub fn push_number(&mut self, number: u128)
        requires { length self.old + 40 ≤ 200 }
        ensures text { self.new ≡ self.old ++ decimal number }
        ensures short { length self.new ≤ length self.old + 40 }
    {
        let mut digits = Buffer::new();
        self.push(digits.format(number).as_bytes());
    }
}
