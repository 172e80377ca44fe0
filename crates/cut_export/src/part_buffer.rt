// Bytes on their way to the open part of an output.
ghost use Rattle.std.specs.Prelude.{◌≡◌, ◌≤◌, ◌+◌, ◌++◌, ◌∷◌, [], IfOk, OnOk, IsTrue, length, decimal};
ghost use Rattle.std.specs.Fmt.{signed_decimal};
ghost use Rattle.tpz_io.specs.Causes.{HasCause};
ghost use Rattle.tpz_io.specs.Told.{followed_by};

use itoa::Buffer;
use std::alloc::{AllocError, Global};
use std::marker::Model;
use tpz_io::{Failed, Out};

/// How many bytes are held at most. A part is written in pieces of about this size.
pub const ROOM: usize = 65_536;

/// How many bytes a line may have.
pub const LINE: usize = 128;

/// Bytes that follow those of the open part, and weren't given to the output yet.
#[derive(Drop)]
pub struct PartBuffer {
    bytes: Vec<u8>,
}

impl Model for PartBuffer {
    ghost use Rattle.std.specs.Prelude.{ℕ, List, ◌≤◌, vec_len, vec_capacity};
    ghost use Rattle.cut_export.specs.declared.part_buffer.TheConstants.{ROOM};

    ghost Value = { List ℕ };

    ghost view = { λ b. b.bytes.items };

    ghost invariant = { λ b. (ROOM ≤ vec_capacity b.bytes) × (vec_len b.bytes ≤ ROOM) };
}

impl PartBuffer {
    /// Takes its room at once.
    pub fn new(alloc: Global) -> Result<Self, AllocError>
        ensures { IfOk result (λ buffer. buffer ≡ []) }
    {
        Ok(PartBuffer {
            bytes: Vec::with_capacity(alloc, ROOM)?,
        })
    }

    /// Adds bytes that there is room for.
    pub fn push(&mut self, bytes: &[u8])
        requires { length self.old + length bytes.now ≤ ROOM }
        ensures bytes { self.new ≡ self.old ++ bytes.now }
        ensures len { length self.new ≡ length self.old + length bytes.now }
    {
        self.bytes.extend_from_slice(bytes).unwrap();
    }

    /// Adds the decimal digits of n.
    pub fn push_number(&mut self, n: u64)
        requires { length self.old + 40 ≤ ROOM }
        ensures bytes { self.new ≡ self.old ++ decimal n }
        ensures len { length self.new ≤ length self.old + 40 }
    {
        let mut digits = Buffer::new();
        self.push(digits.format(n).as_bytes());
    }

    /// Adds the decimal digits of n, with a minus before them where it is below 0.
    pub fn push_signed(&mut self, n: i64)
        requires { length self.old + 40 ≤ ROOM }
        ensures bytes { self.new ≡ self.old ++ signed_decimal n }
        ensures len { length self.new ≤ length self.old + 40 }
    {
        let mut digits = Buffer::new();
        self.push(digits.format(n).as_bytes());
    }

    /// Gives the bytes to the open part.
    pub fn flush<O: Out>(&mut self, out: &mut O) -> Result<(), Failed>
        requires { IsTrue (O.is_open out.old) }
        ensures opened { OnOk result (IsTrue (O.is_open out.new)) }
        ensures bytes { OnOk result (O.unfinished out.new ≡ followed_by (O.unfinished out.old) self.old) }
        ensures empty { OnOk result (self.new ≡ []) }
        ensures parts { O.parts out.new ≡ O.parts out.old }
        ensures notes { O.notes out.new ≡ O.notes out.old }
        ensures cause { HasCause (O.faults out.old) (O.faults out.new) result }
    {
        out.write(&self.bytes)?;
        self.bytes.clear();
        Ok(())
    }

    /// Sees to room for a line, by giving the bytes to the open part where there is too little.
    #[inline]
    pub fn make_room<O: Out>(&mut self, out: &mut O) -> Result<(), Failed>
        requires { IsTrue (O.is_open out.old) }
        ensures opened { OnOk result (IsTrue (O.is_open out.new)) }
        ensures bytes { OnOk result (followed_by (O.unfinished out.new) self.new ≡ followed_by (O.unfinished out.old) self.old) }
        ensures room { OnOk result (length self.new + LINE ≤ ROOM) }
        ensures parts { O.parts out.new ≡ O.parts out.old }
        ensures notes { O.notes out.new ≡ O.notes out.old }
        ensures cause { HasCause (O.faults out.old) (O.faults out.new) result }
    {
        if self.bytes.len() + LINE > ROOM {
            return self.flush(out);
        }
        Ok(())
    }
}
