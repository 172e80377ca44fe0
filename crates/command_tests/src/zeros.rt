// A work file that tells nothing, and forgets what is written from a place on.
ghost use Rattle.std.specs.Prelude.{None};

use std::alloc::{AllocError, Global};
use tpz_io::{Blob, Failed};

/// Bytes that are kept in front, and zeros behind them, whatever is written there. No call fails, and nothing is told.
#[derive(Drop)]
pub struct Zeros {
    front: Vec<u8>,
    reads: u64,
}

impl Zeros {
    /// This many bytes are kept, at first zeros.
    pub fn new(alloc: Global, kept: usize) -> Result<Zeros, AllocError> {
        Ok(Zeros {
            front: vec![in alloc; 0; kept]?,
            reads: 0,
        })
    }
}

// Fills `into` with the bytes from a place on, and zeros where there are none.
fn take(front: &[u8], at: u64, into: &mut [u8]) {
    let mut place = at;
    for byte in into.iter_mut() {
        *byte = front.get(place as usize).copied().unwrap_or(0);
        place = place.saturating_add(1);
    }
}

// Puts bytes from a place on, as far as there is room.
fn put(front: &mut [u8], at: u64, bytes: &[u8]) {
    let mut place = at;
    for byte in bytes {
        if let Some(kept) = front.get_mut(place as usize) {
            *kept = *byte;
        }
        place = place.saturating_add(1);
    }
}

impl Blob for Zeros {
    ghost held = { λ z. None };

    ghost faults = { λ z. 0 };

    ghost reads = { λ z. z.reads };

    ghost outcomes = { λ z. None };

    fn len(&mut self) -> Result<u64, Failed> {
        self.reads = self.reads.saturating_add(1);
        Ok(self.front.len() as u64)
    }

    fn read_at(&mut self, at: u64, into: &mut [u8]) -> Result<(), Failed> {
        self.reads = self.reads.saturating_add(1);
        take(&self.front, at, into);
        Ok(())
    }

    fn write_at(&mut self, at: u64, bytes: &[u8]) -> Result<(), Failed> {
        put(&mut self.front, at, bytes);
        Ok(())
    }

    fn sync(&mut self) -> Result<(), Failed> {
        Ok(())
    }
}
