// The tests of a line of a header.
ghost use Rattle.std.specs.Prelude.{◌≡◌, ◌≤◌, false, nat_le, sum_by, length, find, IsTrue};
ghost use Rattle.std.specs.List.{list_any, list_all, after_first, last_or, position_or_len};
ghost use Rattle.std.specs.Option.{option_map_or, SomeIff};
ghost use Rattle.ply_head.specs.Numbers.{is_digit, value};
ghost use Rattle.ply_head.specs.Headers.{lacks_format, is_misplaced, has_wrong_type, has_too_many, is_in_face, is_scalar, is_index_list, has_coordinates, is_vertex, is_face, Declared, has_float_coordinate, is_float_coordinate, is_binary};
ghost use Rattle.ply_head.specs.Forms.{seen_form};

use crate::form::Form;
use crate::names::{format_of, is_float, is_float_name, is_word, kind_of, names_indices};
use crate::number::{are_all_digits, value_after};
use crate::seen::{Declared, Named, Seen};
use crate::{Element, Format, Property, Role};

// The most rows of an element.
const MOST_ROWS: u128 = 2_147_483_648;

// The most elements.
const MOST_ELEMENTS: usize = 64;

// The most properties of all elements together.
const MOST_PROPERTIES: usize = 256;

/// Whether the format is due at this line, and the line names none.
pub fn lacks_format(seen: &Seen, form: Form<'_>) -> bool
    ensures { result ≡ lacks_format seen.now (seen_form form.entry) }
{
    match form {
        Form::Passed => false,
        Form::FormatLine { format, version } => {
            seen.format.is_none() && !(format_of(format).is_some() && is_word(version, b"1.0"))
        }
        _ => seen.format.is_none(),
    }
}

/// Whether a line has no form, or may not stand here, or has a count that isn't digits.
pub fn is_misplaced(seen: &Seen, form: Form<'_>) -> bool
    ensures { result ≡ is_misplaced seen.now (seen_form form.entry) }
{
    match form {
        Form::FormatLine { .. } => seen.format.is_some(),
        Form::ElementLine { count, .. } => !are_all_digits(count),
        Form::ScalarLine { .. } | Form::ListLine { .. } => seen.elements.as_slice().is_empty(),
        Form::NoForm => true,
        Form::Passed | Form::EndLine => false,
    }
}

/// Whether a type isn't known, or may not stand here.
pub fn has_wrong_type(seen: &Seen, form: Form<'_>) -> bool
    ensures { result ≡ has_wrong_type seen.now (seen_form form.entry) }
{
    match form {
        Form::ScalarLine { kind, .. } => kind_of(kind).is_none(),
        Form::ListLine {
            count_kind,
            kind,
            name,
        } => {
            kind_of(count_kind).is_none()
                || kind_of(kind).is_none()
                || is_float_name(count_kind)
                || (is_float_name(kind)
                    && names_indices(name)
                    && is_in_face(seen.elements.as_slice()))
        }
        _ => false,
    }
}

/// Whether there are too many rows, elements or properties with this line.
pub fn has_too_many(seen: &Seen, form: Form<'_>) -> bool
    requires { is_misplaced seen.now (seen_form form) ≡ false }
    ensures { result ≡ has_too_many seen.now (seen_form form.entry) }
{
    match form {
        Form::ElementLine { count, .. } => {
            rows_of(count).is_none() || seen.elements.as_slice().len() >= MOST_ELEMENTS
        }
        Form::ScalarLine { .. } | Form::ListLine { .. } => is_full(seen.elements.as_slice()),
        _ => false,
    }
}

/// How many rows digits name, if they aren't too many.
pub fn rows_of(count: &[u8]) -> Option<u64>
    requires { IsTrue (list_all is_digit count.now) }
    ensures { SomeIff result (value count.now ≤ 2147483648) (value count.now) }
{
    match value_after(0, count) {
        Some(rows) if rows <= MOST_ROWS => Some(rows as u64),
        _ => None,
    }
}

// Whether the last element is a face.
fn is_in_face(elements: &[Declared]) -> bool
    ensures { result ≡ is_in_face elements.now }
{
    match elements {
        [.., last] => is_word(last.name.as_slice(), b"face"),
        [] => false,
    }
}

// Whether the elements have as many properties as may be.
fn is_full(elements: &[Declared]) -> bool
    ensures { result ≡ nat_le 256 (sum_by (λ (e : Declared). length e.properties) elements.now) }
{
    let mut properties = 0;
    for element in elements {
        properties += element.properties.as_slice().len();
        if properties >= MOST_PROPERTIES {
            return true;
        }
    }
    false
}

/// Whether the first vertex element has the scalars x, y and z.
pub fn has_vertex(elements: &[Declared]) -> bool
    ensures { result ≡ option_map_or has_coordinates (find is_vertex elements.now) false }
{
    let at = first_vertex(elements);
    at < elements.len() && has_coordinates(&elements[at])
}

/// Whether there is a face element with a list of corners.
pub fn has_face(elements: &[Declared]) -> bool
    ensures { result ≡ list_any is_face elements.now }
{
    elements.iter().any(|e| is_face(e))
}

/// What stands behind the first vertex element.
pub fn behind_vertex(elements: &[Declared]) -> &[Declared]
    ensures { result.now ≡ after_first is_vertex elements.now }
{
    let at = first_vertex(elements);
    if at < elements.len() {
        &elements[at + 1..]
    } else {
        &[]
    }
}

/// Where the first vertex element stands, or the length.
pub fn first_vertex(elements: &[Declared]) -> usize
    ensures place { result ≡ position_or_len is_vertex elements.now }
    ensures within { result ≤ length elements.now }
{
    for (i, element) in elements.iter().enumerate() {
        if is_vertex(element) {
            return i;
        }
    }
    elements.len()
}

/// Where the first face element with a list of corners stands, or the length.
pub fn first_face(elements: &[Declared]) -> usize
    ensures place { result ≡ position_or_len is_face elements.now }
    ensures within { result ≤ length elements.now }
{
    for (i, element) in elements.iter().enumerate() {
        if is_face(element) {
            return i;
        }
    }
    elements.len()
}

fn is_vertex(element: &Declared) -> bool
    ensures { result ≡ is_vertex element.now }
{
    is_word(element.name.as_slice(), b"vertex")
}

fn is_face(element: &Declared) -> bool
    ensures { result ≡ is_face element.now }
{
    is_word(element.name.as_slice(), b"face") && has_index_list(element)
}

fn has_index_list(element: &Declared) -> bool
    ensures { result ≡ list_any is_index_list element.now.properties }
{
    element
        .properties
        .as_slice()
        .iter()
        .any(|n| is_index_list(n))
}

fn has_coordinates(element: &Declared) -> bool
    ensures { result ≡ has_coordinates element.now }
{
    has_scalar(element, b"x") && has_scalar(element, b"y") && has_scalar(element, b"z")
}

fn has_scalar(element: &Declared, name: &[u8]) -> bool
    ensures { result ≡ list_any (is_scalar name.now) element.now.properties }
{
    element
        .properties
        .as_slice()
        .iter()
        .any(|n| is_scalar(n, name))
}

/// Whether it is a scalar of this name.
pub fn is_scalar(named: &Named, name: &[u8]) -> bool
    ensures { result ≡ is_scalar name.now named.now }
{
    is_word(named.name.as_slice(), name) && named.property.count_kind.is_none()
}

/// Whether it is a list whose name says that it has the corners of a face.
pub fn is_index_list(named: &Named) -> bool
    ensures { result ≡ is_index_list named.now }
{
    names_indices(named.name.as_slice()) && named.property.count_kind.is_some()
}

/// Whether the rows are written as bytes.
pub fn is_binary(format: Option<Format>) -> bool
    ensures { result ≡ is_binary format }
{
    matches!(format, Some(Format::Little | Format::Big))
}

/// Whether a used coordinate is a float.
pub fn has_float_coordinate(elements: &[Element]) -> bool
    ensures { result ≡ has_float_coordinate elements.now }
{
    elements.iter().any(|e| has_float_property(e))
}

fn has_float_property(element: &Element) -> bool
    ensures { result ≡ list_any is_float_coordinate element.now.properties }
{
    element.properties().iter().any(|p| is_float_coordinate(p))
}

fn is_float_coordinate(property: &Property) -> bool
    ensures { result ≡ is_float_coordinate property.now }
{
    matches!(property.role, Role::X | Role::Y | Role::Z) && is_float(property.kind)
}
