// The header of an input.
ghost use Rattle.std.specs.Prelude.{◌≡◌, ◌≤◌, ℕ, IfOk, IsErrOf, Err};
ghost use Rattle.std.specs.Option.{ForSome};
ghost use Rattle.tpz_io.specs.Causes.{Rose};
ghost use Rattle.tpz_io.specs.Told.{ahead};
ghost use Rattle.ply_head.specs.declared.fault.HeadFault.{HeadFault};
ghost use Rattle.ply_head.specs.Headers.{default_digits, heading};
ghost use Rattle.ply_head.specs.Steps.{full_fault};
ghost use Rattle.ply_head.specs.Heads.{IsHeadOf, IsLaidOut, IsRefusal, IsSmall};

use crate::checks::has_float_coordinate;
use crate::line::{LineFault, LineReader};
use crate::seen::Seen;
use crate::step::Step;
use crate::{Element, Format, HeadFault};
use std::alloc::Global;
use std::marker::Model;
use tpz_io::{Reader, Source};

/// What the header of an input declares, and the bytes that were read past it. Contracts see the format, the elements
/// and these bytes.
#[derive(Drop)]
pub struct Head {
    format: Format,
    elements: Vec<Element>,
    reader: Reader,
}

impl Model for Head {
    ghost use Rattle.ply_head.specs.Heads.{HeadState, IsLaidOut, IsSmall};

    ghost Value = { HeadState };

    ghost view = { λ h. record { format = h.format; elements = h.elements.items; held = h.reader } };

    ghost invariant = { λ h. IsLaidOut h.elements.items × IsSmall h.elements.items };
}

/// The parts of a head.
#[derive(Drop)]
pub struct HeadParts {
    /// How the rows are written.
    pub format: Format,
    /// The elements, in order.
    pub elements: Vec<Element>,
    /// What reads on behind the header.
    pub reader: Reader,
}

impl Head {
    /// How the rows are written.
    pub fn format(&self) -> Format
        ensures { result ≡ self.now.format }
    {
        self.format
    }

    /// The elements, in order.
    pub fn elements(&self) -> &[Element]
        ensures { result.now ≡ self.now.elements }
    {
        self.elements.as_slice()
    }

    /// The digits of a number where none are asked for: 6 where a used coordinate is a float, and else 0.
    pub fn default_digits(&self) -> u8
        ensures { result ≡ default_digits self.now.elements }
    {
        if has_float_coordinate(self.elements()) {
            6
        } else {
            0
        }
    }

    /// The parts, for a reader of the rows.
    pub fn into_parts(self) -> HeadParts
        ensures format { result.format ≡ self.format }
        ensures elements { result.elements.items ≡ self.elements }
        ensures reader { result.reader ≡ self.held }
        ensures laid_out { IsLaidOut result.elements.items }
        ensures small { IsSmall result.elements.items }
    {
        HeadParts {
            format: self.format,
            elements: self.elements,
            reader: self.reader,
        }
    }
}

/// Reads the header of an input. At most 1,048,576 bytes are looked at. After a refusal the source has lost an unstated
/// number of bytes.
pub fn read_head<I: Source>(alloc: Global, src: &mut I) -> Result<Head, HeadFault>
    ensures read { IfOk result (λ head. (size : ℕ) × IsHeadOf head size (I.left src.old) (ahead head.held (I.left src.new))) }
    ensures refused { (f : HeadFault) → result ≡ Err f → IsRefusal f → ForSome (I.left src.old) (λ bytes. heading bytes ≡ Err f) }
    ensures input { IsErrOf result HeadFault.InputFault → Rose (I.faults src.old) (I.faults src.new) }
    ensures later { I.faults src.old ≤ I.faults src.new }
{
    let mut lines = LineReader::new(alloc)?;
    let mut seen = Seen::new(alloc);
    'lines: loop {
        let number = lines.number();
        let line = match lines.next(alloc, src) {
            Ok(line) => line,
            Err(LineFault::Full) => return Err(full_fault(number)),
            Err(LineFault::Input) => return Err(HeadFault::InputFault),
            Err(LineFault::Memory) => return Err(HeadFault::Memory),
        };
        match seen.take(alloc, &line)? {
            Step::More => {}
            Step::Done(elements) => {
                return Ok(Head {
                    format: seen.format.unwrap_or(Format::Ascii),
                    elements,
                    reader: lines.into_reader(),
                });
            }
            Step::Refused(fault) => return Err(fault),
        }
    }
}

// Why a line that ends past the limit is refused: the first isn't `ply`.
fn full_fault(number: u64) -> HeadFault
    ensures { result ≡ full_fault number }
{
    if number == 1 {
        HeadFault::NotPly { line: number }
    } else {
        HeadFault::TooMany { line: number }
    }
}
