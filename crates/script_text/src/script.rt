// The lines of a script, taken from a source.
ghost use Rattle.std.specs.Prelude.{◌≡◌, ◌≤◌, ◌<◌, ◌+◌, ◌-◌, ◌++◌, ◌∷◌, [], ℕ, length, Ok, Err, IfOk, IfSome, OnOk, OnSome, IsErrOf, IsTrue};
ghost use Rattle.std.specs.Option.{ForSome, option_map};
ghost use Rattle.std.specs.declared.option.Option.TheVariants.{None, Some};
ghost use Rattle.std.specs.Str.Lines.{strip_carriage_return};
ghost use Rattle.tpz_io.specs.Causes.{HasCause, Rose};
ghost use Rattle.tpz_io.specs.Told.{ahead};
ghost use Rattle.tpz_base.specs.Texts.{Bytes};
ghost use Rattle.script_text.specs.Commands.{is_in_bounds, read_line};
ghost use Rattle.script_text.specs.Scripts.{BeginsOutside, BeginsLong, is_within, is_passed_over, lines_told, passed_over, script_left, with_lines, with_text};
ghost use Rattle.script_text.specs.declared.line.Line.{Line as Command};
ghost use Rattle.script_text.specs.declared.script.ScriptFault.TheVariants.{Bad, Input};
ghost use Rattle.script_text.specs.declared.script.LineEnd.TheVariants.{Ended, Last, TooLong};

use crate::byte_reader::ByteReader;
use crate::line_text::LineText;
use crate::{Line, read_line};
use std::marker::Model;
use tpz_io::{Failed, Source};

// How many lines a script may have.
const MOST_LINES: u64 = 1_048_576;

// How many bytes a line may have, without its end.
const MOST_BYTES: usize = 256;

/// Why a script isn't read further.
#[derive(Clone, Copy, Debug, PartialEq, Eq)]
pub enum ScriptFault {
    /// The line with this number, from 1, is outside the grammar.
    Bad { line: u64 },
    /// A read of the source failed.
    Input,
}

impl From<Failed> for ScriptFault {
    ghost from_gives = { λ _ e. e ≡ Input };

    fn from(_: Failed) -> Self {
        ScriptFault::Input
    }
}

// How the text of a line ends.
#[derive(Clone, Copy)]
enum LineEnd {
    // with a line feed, which was taken
    Ended,
    // with the script
    Last,
    // not yet, and it is longer than a line may be
    TooLong,
}

// Takes what stands before the next line feed, and that too.
fn take_line<C: Source>(
    reader: &mut ByteReader,
    src: &mut C,
    text: &mut LineText,
) -> Result<LineEnd, Failed>
    requires { text.old ≡ [] }
    ensures ended { result ≡ Ok Ended
        → lines_told (ahead reader.old (C.left src.old)) ≡ with_text (strip_carriage_return text.new) (lines_told (ahead reader.new (C.left src.new))) }
    ensures last { result ≡ Ok Last → 0 < length text.new
        → lines_told (ahead reader.old (C.left src.old)) ≡ with_text text.new (lines_told (ahead reader.new (C.left src.new))) }
    ensures end { result ≡ Ok Last → length text.new ≡ 0 → ForSome (lines_told (ahead reader.old (C.left src.old))) (λ texts. texts ≡ []) }
    ensures long { result ≡ Ok TooLong → ForSome (lines_told (ahead reader.old (C.left src.old))) BeginsLong }
    ensures cause { HasCause (C.faults src.old) (C.faults src.new) result }
{
    'bytes: loop {
        let Some(byte) = reader.next(src)? else {
            return Ok(LineEnd::Last);
        };
        if byte == b'\n' {
            return Ok(LineEnd::Ended);
        }
        if text.is_full() {
            return Ok(LineEnd::TooLong);
        }
        text.push(byte);
    }
}

/// A script that is read line by line from a source. It takes no memory. The source is lent to each call: give the same
/// one to all. After a refusal it isn't to be used again.
#[derive(Drop)]
pub struct Script {
    reader: ByteReader,
    number: u64,
}

impl Model for Script {
    ghost use Rattle.std.specs.Prelude.{◌≤◌};
    ghost use Rattle.script_text.specs.Scripts.{Place};

    ghost Value = { Place };

    ghost view = { λ s. record { held = s.reader; number = s.number } };

    ghost invariant = { λ s. s.number ≤ 1048576 };
}

impl Script {
    /// Before the first line.
    pub fn new() -> Self
        ensures { result ≡ record { held = []; number = 0 } }
    {
        Script {
            reader: ByteReader::new(),
            number: 0,
        }
    }

    /// The number of the last line that was read, from 1. It is 0 before the first.
    pub fn number(&self) -> u64
        ensures { result ≡ self.now.number }
    {
        self.number
    }

    /// Takes the next command. Lines that are empty or begin with `#` are passed over. None comes exactly at the end.
    pub fn next<C: Source>(&mut self, src: &mut C) -> Result<Option<Line>, ScriptFault>
        ensures command { (line : Command) → result ≡ Ok (Some line) → script_left read_line self.old (C.left src.old)
            ≡ option_map (with_lines (passed_over (self.new.number - self.old.number - 1) ++ Some line ∷ [])) (script_left read_line self.new (C.left src.new)) }
        ensures end { result ≡ Ok None → ForSome (script_left read_line self.old (C.left src.old))
            (λ s. s ≡ record { lines = passed_over (self.new.number - self.old.number); bad = None }) }
        ensures bad { (n : ℕ) → result ≡ Err (Bad n) → ForSome (script_left read_line self.old (C.left src.old))
            (λ s. s ≡ record { lines = passed_over (n - self.old.number - 1); bad = Some n }) }
        ensures number { IfOk result (λ found. OnSome found (self.old.number < self.new.number)) }
        ensures stays { OnOk result (self.old.number ≤ self.new.number) }
        ensures most { self.new.number ≤ 1048576 }
        ensures place { (n : ℕ) → result ≡ Err (Bad n) → self.old.number < n }
        ensures bounds { IfOk result (λ found. IfSome found (λ line. IsTrue (is_in_bounds line))) }
        ensures later { C.faults src.old ≤ C.faults src.new }
        ensures input { IsErrOf result ScriptFault.Input → Rose (C.faults src.old) (C.faults src.new) }
    {
        let Some(text) = self.next_text(src)? else {
            return Ok(None);
        };
        match read_line(text.as_slice()) {
            Some(line) => Ok(Some(line)),
            None => Err(ScriptFault::Bad { line: self.number }),
        }
    }

    // Takes the text of the next line that isn't passed over.
    fn next_text<C: Source>(&mut self, src: &mut C) -> Result<Option<LineText>, ScriptFault>
        ensures text { (text : Bytes) → result ≡ Ok (Some text) → script_left (λ t. Some t) self.old (C.left src.old)
            ≡ option_map (with_lines (passed_over (self.new.number - self.old.number - 1) ++ Some text ∷ [])) (script_left (λ t. Some t) self.new (C.left src.new)) }
        ensures end { result ≡ Ok None → ForSome (script_left (λ (t : Bytes). Some t) self.old (C.left src.old))
            (λ s. s ≡ record { lines = passed_over (self.new.number - self.old.number); bad = None }) }
        ensures bad { (n : ℕ) → result ≡ Err (Bad n) → ForSome (script_left (λ (t : Bytes). Some t) self.old (C.left src.old))
            (λ s. s ≡ record { lines = passed_over (n - self.old.number - 1); bad = Some n }) }
        ensures number { IfOk result (λ found. OnSome found (self.old.number < self.new.number)) }
        ensures place { (n : ℕ) → result ≡ Err (Bad n) → self.old.number < n }
        ensures stays { OnOk result (self.old.number ≤ self.new.number) }
        ensures most { self.new.number ≤ 1048576 }
        ensures later { C.faults src.old ≤ C.faults src.new }
        ensures input { IsErrOf result ScriptFault.Input → Rose (C.faults src.old) (C.faults src.new) }
    {
        'lines: loop {
            let Some(text) = self.next_line(src)? else {
                return Ok(None);
            };
            if !text.is_passed_over() {
                return Ok(Some(text));
            }
        }
    }

    // Takes the text of the next line.
    fn next_line<C: Source>(&mut self, src: &mut C) -> Result<Option<LineText>, ScriptFault>
        ensures text { (text : Bytes) → result ≡ Ok (Some text) → lines_told (ahead self.old.held (C.left src.old))
            ≡ with_text text (lines_told (ahead self.new.held (C.left src.new))) }
        ensures within { IfOk result (λ found. IfSome found (λ text. IsTrue (is_within self.new.number text))) }
        ensures number { IfOk result (λ found. OnSome found (self.new.number ≡ self.old.number + 1)) }
        ensures end { result ≡ Ok None → ForSome (lines_told (ahead self.old.held (C.left src.old))) (λ texts. texts ≡ []) }
        ensures stays { result ≡ Ok None → self.new.number ≡ self.old.number }
        ensures most { self.new.number ≤ 1048576 }
        ensures bad { (n : ℕ) → result ≡ Err (Bad n) → ForSome (lines_told (ahead self.old.held (C.left src.old))) (BeginsOutside n) }
        ensures place { (n : ℕ) → result ≡ Err (Bad n) → n ≡ self.old.number + 1 }
        ensures later { C.faults src.old ≤ C.faults src.new }
        ensures input { IsErrOf result ScriptFault.Input → Rose (C.faults src.old) (C.faults src.new) }
    {
        let mut text = LineText::new();
        match take_line(&mut self.reader, src, &mut text)? {
            LineEnd::Ended => text.drop_return(),
            LineEnd::Last if text.len() == 0 => return Ok(None),
            LineEnd::Last => {}
            LineEnd::TooLong => return Err(self.refused()),
        }
        if self.number == MOST_LINES || text.len() > MOST_BYTES {
            return Err(self.refused());
        }
        self.number += 1;
        Ok(Some(text))
    }

    // The next line is outside the grammar.
    fn refused(&self) -> ScriptFault
        ensures { result ≡ Bad (self.now.number + 1) }
    {
        ScriptFault::Bad {
            line: self.number + 1,
        }
    }
}
