// The text of a line.
ghost use Rattle.std.specs.Prelude.{◌≡◌, ◌<◌, ◌++◌, ◌∷◌, [], length, ◌==◌};
ghost use Rattle.std.specs.Str.Lines.{strip_carriage_return};
ghost use Rattle.script_text.specs.Scripts.{is_passed_over};

use std::marker::Model;

// A line of the most bytes, and a carriage return.
const ROOM: usize = 257;

/// The bytes of a line, at most 257.
#[derive(Drop)]
pub struct LineText {
    bytes: [u8; ROOM],
    len: usize,
}

impl Model for LineText {
    ghost use Rattle.std.specs.Prelude.{◌≤◌, ℕ, List, take};

    ghost Value = { List ℕ };

    ghost view = { λ t. take t.len t.bytes };

    ghost invariant = { λ t. t.len ≤ 257 };
}

impl LineText {
    pub fn new() -> Self
        ensures { result ≡ [] }
    {
        LineText {
            bytes: [0; ROOM],
            len: 0,
        }
    }

    pub fn as_slice(&self) -> &[u8]
        ensures { result.now ≡ self.now }
    {
        &self.bytes[..self.len]
    }

    pub fn len(&self) -> usize
        ensures { result ≡ length self.now }
    {
        self.len
    }

    /// Whether there is no room for another byte.
    pub fn is_full(&self) -> bool
        ensures { result ≡ (length self.now == 257) }
    {
        self.len == ROOM
    }

    /// Adds a byte, for which there is room.
    pub fn push(&mut self, byte: u8)
        requires { length self.old < 257 }
        ensures { self.new ≡ self.old ++ byte ∷ [] }
    {
        self.bytes[self.len] = byte;
        self.len += 1;
    }

    /// Drops one carriage return at the end.
    pub fn drop_return(&mut self)
        ensures { self.new ≡ strip_carriage_return self.old }
    {
        if self.len > 0 && self.bytes[self.len - 1] == b'\r' {
            self.len -= 1;
        }
    }

    /// Whether a script passes the line over: it is empty, or begins with `#`.
    pub fn is_passed_over(&self) -> bool
        ensures { result ≡ is_passed_over self.now }
    {
        match self.as_slice() {
            [] => true,
            [first, ..] => *first == b'#',
        }
    }
}
