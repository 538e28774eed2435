//! The text of a line, put together on the stack.
ghost use Rattle.std.specs.Prelude.{◌≡◌, ◌+◌, ◌≤◌, ℕ, List, ◌++◌, length, take};
ghost use Rattle.std.specs.Fmt.{decimal};

use itoa::Buffer;
use std::marker::Model;

// The most bytes of a line: three numbers and some words.
const ROOM: usize = 128;

/// A line on the stack, of at most 128 bytes.
#[derive(Drop)]
pub struct LineText {
    bytes: [u8; ROOM],
    len: usize,
}

impl Model for LineText {
    ghost Value = { List ℕ };

    ghost view = { λ t. take t.len t.bytes };

    ghost invariant = { λ t. t.len ≤ 128 };
}

impl LineText {
    /// A line that begins like this.
    pub fn of(piece: &[u8]) -> LineText
        requires { length piece.now ≤ 128 }
        ensures { result ≡ piece.now }
    {
        let mut text = LineText {
            bytes: [0; ROOM],
            len: 0,
        };
        text.add(piece);
        text
    }

    pub fn as_slice(&self) -> &[u8]
        ensures { result.now ≡ self.now }
    {
        &self.bytes[..self.len]
    }

    pub fn add(&mut self, piece: &[u8])
        requires { length self.old + length piece.now ≤ 128 }
        ensures text { self.new ≡ self.old ++ piece.now }
        ensures len { length self.new ≡ length self.old + length piece.now }
    {
        let end = self.len + piece.len();
        self.bytes[self.len..end].copy_from_slice(piece);
        self.len = end;
    }

    /// Adds the decimal text of a number, at most 20 bytes.
    pub fn add_number(&mut self, n: u64)
        requires { length self.old + 20 ≤ 128 }
        ensures text { self.new ≡ self.old ++ decimal n }
        ensures short { length self.new ≤ length self.old + 20 }
    {
        let mut buffer = Buffer::new();
        self.add(buffer.format(n).as_bytes());
    }
}
