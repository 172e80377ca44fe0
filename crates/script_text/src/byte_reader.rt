// Bytes of a source, read in pieces without taking memory, and taken one by one.
ghost use Rattle.std.specs.Prelude.{◌≡◌, ◌≢◌, ◌∷◌, [], IfOk, OnOk, OnErr};
ghost use Rattle.std.specs.Option.{ForSome, option_to_list};
ghost use Rattle.std.specs.declared.option.Option.TheVariants.{None};
ghost use Rattle.tpz_io.specs.Causes.{HasCause};
ghost use Rattle.tpz_io.specs.Told.{ahead};

use std::marker::Model;
use tpz_io::{Failed, Source};

// How many bytes are asked of a source at once.
const ROOM: usize = 4096;

/// Bytes that were read from a source and not yet taken. What is left of the script is these, and then what the source
/// has left.
#[derive(Drop)]
pub struct ByteReader {
    buffer: [u8; ROOM],
    at: usize,
    end: usize,
}

impl Model for ByteReader {
    ghost use Rattle.std.specs.Prelude.{◌≤◌, ℕ, List, slice_range};

    ghost Value = { List ℕ };

    ghost view = { λ r. slice_range r.buffer r.at r.end };

    ghost invariant = { λ r. (r.at ≤ r.end) × (r.end ≤ 4096) };
}

impl ByteReader {
    /// A reader that holds nothing.
    pub fn new() -> Self
        ensures { result ≡ [] }
    {
        ByteReader {
            buffer: [0; ROOM],
            at: 0,
            end: 0,
        }
    }

    /// Takes the next byte. None comes exactly at the end. After `Failed` what is left is as before.
    pub fn next<C: Source>(&mut self, src: &mut C) -> Result<Option<u8>, Failed>
        ensures taken { IfOk result (λ next. ahead self.old (C.left src.old) ≡ ahead (option_to_list next) (ahead self.new (C.left src.new))) }
        ensures end { IfOk result (λ next. next ≡ None → ForSome (ahead self.old (C.left src.old)) (λ bytes. bytes ≡ [])) }
        ensures err { OnErr result (ahead self.new (C.left src.new) ≡ ahead self.old (C.left src.old)) }
        ensures cause { HasCause (C.faults src.old) (C.faults src.new) result }
    {
        if self.at == self.end {
            self.fill(src)?;
        }
        if self.at == self.end {
            return Ok(None);
        }
        Ok(Some(self.take()))
    }

    // Takes the next byte that is held.
    fn take(&mut self) -> u8
        requires { self.old ≢ [] }
        ensures { self.old ≡ result ∷ self.new }
    {
        let next = self.buffer[self.at];
        self.at += 1;
        next
    }

    // Reads more where nothing is held.
    fn fill<C: Source>(&mut self, src: &mut C) -> Result<(), Failed>
        requires { self.old ≡ [] }
        ensures read { C.left src.old ≡ ahead self.new (C.left src.new) }
        ensures end { OnOk result (self.new ≡ [] → ForSome (C.left src.old) (λ bytes. bytes ≡ [])) }
        ensures cause { HasCause (C.faults src.old) (C.faults src.new) result }
    {
        self.at = 0;
        self.end = 0;
        self.end = src.read(&mut self.buffer)?;
        Ok(())
    }
}
