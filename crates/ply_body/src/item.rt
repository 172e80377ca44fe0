// An item of a body, and the text of a token.
ghost use Rattle.std.specs.Prelude.{◌≡◌, ◌<◌, ◌≤◌, ◌++◌, [], ◌∷◌, length, nat_le, ◌==◌};

use std::marker::Model;

/// How many bytes a token may have.
pub const MOST_TOKEN: usize = 64;

/// The text of a token, of at most 64 bytes.
#[derive(Drop)]
pub struct Text {
    bytes: [u8; MOST_TOKEN],
    len: usize,
}

impl Model for Text {
    ghost use Rattle.std.specs.Prelude.{◌≤◌, ℕ, List, take};

    ghost Value = { List ℕ };

    ghost view = { λ t. take t.len t.bytes };

    ghost invariant = { λ t. t.len ≤ 64 };
}

impl Text {
    /// A text of no bytes.
    pub fn new() -> Self
        ensures { result ≡ [] }
    {
        Text {
            bytes: [0; MOST_TOKEN],
            len: 0,
        }
    }

    /// Whether it has no bytes.
    pub fn is_empty(&self) -> bool
        ensures { result ≡ (length self.now == 0) }
    {
        self.len == 0
    }

    /// Whether it has 64 bytes.
    pub fn is_full(&self) -> bool
        ensures { result ≡ nat_le 64 (length self.now) }
    {
        self.len >= MOST_TOKEN
    }

    /// Adds a byte.
    pub fn push(&mut self, byte: u8)
        requires { length self.old < 64 }
        ensures bytes { self.new ≡ self.old ++ byte ∷ [] }
    {
        self.bytes[self.len] = byte;
        self.len += 1;
    }

    /// Its bytes.
    pub fn as_bytes(&self) -> &[u8]
        ensures bytes { result.now ≡ self.now }
        ensures few { length self.now ≤ 64 }
    {
        &self.bytes[..self.len]
    }
}

/// An item: a token, or the number that a field holds.
#[derive(Drop)]
pub enum Item {
    Token(Text),
    Field(i64),
}
