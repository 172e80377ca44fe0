// Triangles of a block that were read together.
ghost use Rattle.std.specs.Prelude.{◌≡◌, ◌≤◌, ◌<◌, ◌+◌, ◌*◌, [], ℕ, Some, length, slice_get, take, IfOk, OnOk};
ghost use Rattle.std.specs.Option.{ForSome};
ghost use Rattle.tpz_io.specs.Causes.{HasCause};
ghost use Rattle.tri_stream.specs.Blocks.{piece, tri_in};

use crate::blocks::{TRI, tri_from};
use std::marker::Model;
use tpz_base::Tri;
use tpz_io::{Blob, Failed};

/// How many bytes the triangles of a block take.
const ROOM: usize = 1_008;

/// Triangles from the first of a block on, in the bytes that they have there.
#[derive(Drop)]
pub struct Buffer {
    count: u64,
    bytes: [u8; ROOM],
}

impl Model for Buffer {
    ghost use Rattle.std.specs.Prelude.{List, ◌≤◌};
    ghost use Rattle.tpz_base.specs.declared.shape.Tri.{Tri};
    ghost use Rattle.tri_stream.specs.Blocks.{tris_in};

    ghost Value = { List Tri };

    ghost view = { λ b. tris_in b.count b.bytes };

    ghost invariant = { λ b. b.count ≤ 28 };
}

// Fills the first bytes, so many, with those from an offset on.
#[inline(always)]
fn fill<B: Blob>(blob: &mut B, at: u64, into: &mut [u8], len: usize) -> Result<(), Failed>
    requires room { len ≤ length into.old }
    requires there { ForSome (B.held blob.old) (λ bytes. at + len ≤ length bytes) }
    ensures bytes { OnOk result (ForSome (B.held blob.old) (λ bytes. take len into.new ≡ piece bytes at len)) }
    ensures held { B.held blob.new ≡ B.held blob.old }
    ensures cause { HasCause (B.faults blob.old) (B.faults blob.new) result }
{
    blob.read_at(at, &mut into[..len])
}

impl Buffer {
    /// No triangle.
    pub fn new() -> Self
        ensures { result ≡ [] }
    {
        Buffer {
            count: 0,
            bytes: [0; ROOM],
        }
    }

    /// Reads so many triangles, the first of which begins at an offset.
    #[inline(always)]
    pub fn read<B: Blob>(blob: &mut B, at: u64, count: u64) -> Result<Self, Failed>
        requires count { count ≤ 28 }
        requires there { ForSome (B.held blob.old) (λ bytes. at + 36 * count ≤ length bytes) }
        ensures count { IfOk result (λ b. length b ≡ count) }
        ensures tris { IfOk result (λ b. ForSome (B.held blob.old) (λ bytes. (k : ℕ) → k < count → slice_get b k ≡ Some (tri_in (piece bytes (at + 36 * k) 36)))) }
        ensures held { B.held blob.new ≡ B.held blob.old }
        ensures cause { HasCause (B.faults blob.old) (B.faults blob.new) result }
    {
        let mut bytes = [0; ROOM];
        fill(blob, at, &mut bytes, TRI * count as usize)?;
        Ok(Buffer { count, bytes })
    }

    /// How many triangles there are.
    pub fn len(&self) -> u64
        ensures { result ≡ length self.now }
    {
        self.count
    }

    /// The triangle with this number.
    pub fn get(&self, number: u64) -> Tri
        requires { number < length self.now }
        ensures { slice_get self.now number ≡ Some result }
    {
        let bytes = &self.bytes;
        let at = TRI * number as usize;
        tri_from(&bytes[at..at + TRI])
    }
}
