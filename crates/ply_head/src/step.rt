// What one line makes of the header so far.
ghost use Rattle.std.specs.Prelude.{◌≡◌, ◌==◌, true, false, map, take, drop, IfOk, if◌then◌else◌};
ghost use Rattle.ply_head.specs.Headers.{faults, form as form_at, form_of, is_end, is_misplaced, has_too_many, with_form, with_last, declared, Passed, ElementLine};
ghost use Rattle.ply_head.specs.Forms.{seen_form};
ghost use Rattle.ply_head.specs.Steps.{IsStep, first_of};

use crate::checks::{
    behind_vertex, has_face, has_float_coordinate, has_too_many, has_vertex, has_wrong_type,
    is_binary, is_misplaced, lacks_format, rows_of,
};
use crate::form::{Form, form_of, is_end};
use crate::line::MOST_HEAD;
use crate::names::{format_of, is_word, kind_of};
use crate::seen::{Declared, Named, NamedProperties, Seen};
use crate::text::{Line, Text};
use crate::used::used_elements;
use crate::words::words_of;
use crate::{Element, HeadFault, Kind, Property, Role};
use std::alloc::{AllocError, Global};

/// What one line makes of a header.
#[derive(Drop)]
pub enum Step {
    /// It is taken, and more lines are to come.
    More,
    /// It ends the header, which declares these elements.
    Done(Vec<Element>),
    /// It is refused.
    Refused(HeadFault),
}

impl Seen {
    /// Takes the next line. Where memory runs out, what was seen is lost.
    pub fn take(&mut self, alloc: Global, line: &Line) -> Result<Step, AllocError>
        ensures { IfOk result (λ step. IsStep self.old line.now step self.new) }
    {
        let words = words_of(alloc, line.text.as_slice())?;
        let form = form_on(line.number, words.as_slice());
        if let Some(fault) = fault_before_last(self, line, form) {
            return Ok(Step::Refused(fault));
        }
        if is_end(form) {
            return self.end(alloc, line);
        }
        self.add(alloc, form)?;
        Ok(Step::More)
    }

    // Ends the header.
    fn end(&self, alloc: Global, line: &Line) -> Result<Step, AllocError>
        requires ended { is_end (form_at line.now) ≡ true }
        requires taken { first_of (take 9 (faults self.now line.now)) ≡ None }
        ensures { IfOk result (λ step. IsStep self.now line.now step self.now) }
    {
        let elements = used_elements(alloc, self.elements.as_slice())?;
        if is_binary(self.format) && has_float_coordinate(elements.as_slice()) {
            return Ok(Step::Refused(HeadFault::FloatBinary { line: line.number }));
        }
        Ok(Step::Done(elements))
    }

    // Adds what a line declares.
    fn add(&mut self, alloc: Global, form: Form<'_>) -> Result<(), AllocError>
        requires placed { is_misplaced self.old (seen_form form) ≡ false }
        requires few { has_too_many self.old (seen_form form) ≡ false }
        ensures { IfOk result (λ _. self.new ≡ with_form self.old (seen_form form.entry)) }
    {
        match form {
            Form::FormatLine { format, .. } => {
                self.format = format_of(format);
                Ok(())
            }
            Form::ElementLine { name, count } => self.add_element(alloc, name, count),
            Form::ScalarLine { kind, name } => self.add_property(alloc, name, None, kind_of(kind)),
            Form::ListLine {
                count_kind,
                kind,
                name,
            } => self.add_property(alloc, name, kind_of(count_kind), kind_of(kind)),
            Form::Passed | Form::EndLine | Form::NoForm => Ok(()),
        }
    }

    // Adds an element without properties.
    fn add_element(&mut self, alloc: Global, name: &[u8], count: &[u8]) -> Result<(), AllocError>
        requires placed { is_misplaced self.old (ElementLine name.now count.now) ≡ false }
        requires few { has_too_many self.old (ElementLine name.now count.now) ≡ false }
        ensures { IfOk result (λ _. self.new ≡ with_form self.old (ElementLine name.now count.now)) }
    {
        if let Some(count) = rows_of(count) {
            let name = Text::copy_of(alloc, name)?;
            let properties = NamedProperties::new(alloc);
            self.elements.push(Declared {
                name,
                count,
                properties,
            })?;
        }
        Ok(())
    }

    // Adds a property to the last element.
    fn add_property(
        &mut self,
        alloc: Global,
        name: &[u8],
        count_kind: Option<Kind>,
        kind: Option<Kind>,
    ) -> Result<(), AllocError>
        ensures { IfOk result (λ _. self.new ≡ record self.old { elements = with_last (declared name.now count_kind kind) self.old.elements }) }
    {
        if let Some(kind) = kind {
            let name = Text::copy_of(alloc, name)?;
            let property = Property {
                count_kind,
                kind,
                role: Role::Skip,
            };
            self.elements.push_property(Named { name, property })?;
        }
        Ok(())
    }
}

// The form of a line: nothing is read of the first.
fn form_on<'a>(number: u64, words: &[&'a [u8]]) -> Form<'a>
    ensures { seen_form result ≡ (if number == 1 then Passed else form_of (map (λ word. word.now) words.now)) }
{
    if number == 1 {
        Form::Passed
    } else {
        form_of(words)
    }
}

// The fault of the first test that holds, but for the last test.
fn fault_before_last(seen: &Seen, line: &Line, form: Form<'_>) -> Option<HeadFault>
    requires { seen_form form ≡ form_at line.now }
    ensures { result ≡ first_of (take 9 (faults seen.now line.now)) }
{
    if let Some(fault) = fault_of_bytes(seen, line) {
        return Some(fault);
    }
    if let Some(fault) = fault_of_form(seen, line, form) {
        return Some(fault);
    }
    fault_at_end(seen, line, form)
}

// The first line isn't `ply`, the line ends too late, or no line feed ends it.
fn fault_of_bytes(seen: &Seen, line: &Line) -> Option<HeadFault>
    ensures { result ≡ first_of (take 3 (faults seen.now line.now)) }
{
    let number = line.number;
    if number == 1 && !is_word(line.text.as_slice(), b"ply") {
        return Some(HeadFault::NotPly { line: number });
    }
    if line.end > MOST_HEAD {
        return Some(HeadFault::TooMany { line: number });
    }
    if !line.is_ended {
        return Some(HeadFault::Line { line: number });
    }
    None
}

// The line has no form, or may not stand here.
fn fault_of_form(seen: &Seen, line: &Line, form: Form<'_>) -> Option<HeadFault>
    requires { seen_form form ≡ form_at line.now }
    ensures { result ≡ first_of (take 4 (drop 3 (faults seen.now line.now))) }
{
    let number = line.number;
    if lacks_format(seen, form) {
        return Some(HeadFault::Format { line: number });
    }
    if is_misplaced(seen, form) {
        return Some(HeadFault::Line { line: number });
    }
    if has_wrong_type(seen, form) {
        return Some(HeadFault::TypeName { line: number });
    }
    if has_too_many(seen, form) {
        return Some(HeadFault::TooMany { line: number });
    }
    None
}

// The header ends, and lacks an element that is needed.
fn fault_at_end(seen: &Seen, line: &Line, form: Form<'_>) -> Option<HeadFault>
    requires { seen_form form ≡ form_at line.now }
    ensures { result ≡ first_of (take 2 (drop 7 (faults seen.now line.now))) }
{
    let elements = seen.elements.as_slice();
    if is_end(form) && !has_vertex(elements) {
        return Some(HeadFault::NoVertex { line: line.number });
    }
    if is_end(form) && !has_face(behind_vertex(elements)) {
        return Some(HeadFault::NoFace { line: line.number });
    }
    None
}
