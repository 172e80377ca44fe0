// The rows up to the end of the used vertex element.
ghost use Rattle.std.specs.Prelude.{◌≡◌, ◌≢◌, ◌≤◌, ◌*◌, [], ℕ, List, All, length, drop, is_some, Ok, Err, None, IfOk, OnOk, IsErrOf};
ghost use Rattle.std.specs.Option.{ForSome, option_map};
ghost use Rattle.tpz_io.specs.Causes.{Rose};
ghost use Rattle.tpz_base.specs.Cubes.{Row};
ghost use Rattle.ply_head.specs.Heads.{IsLaidOut, IsOfVertex, IsOther, IsSmall, IsVertexElement};
ghost use Rattle.ply_body.specs.declared.fault.BodyFault.{BodyFault};
ghost use Rattle.ply_body.specs.Items.{items_told};
ghost use Rattle.ply_body.specs.Bodies.{elements as input_from, no_input, row_count as row_count_of, too_wide as too_wide_of};
ghost use Rattle.ply_body.specs.Inputs.{setting_of, vertex_count};
ghost use Rattle.ply_body.specs.Spots.{row_of, HoldsRows, IsFrameOf, IsSmallFrame, IsSmallRow};
ghost use Rattle.ply_body.specs.VertexRows.{AreRead, IsOfInput, IsVertexAt, PassesElements, RefusesElements, RefusesRowAt, RefusesRows, RefusesVertex, TakesRow, TakesRows};
ghost use Rattle.ply_body.specs.Readings.{faces_from, with_spots, IsRefusal, IsRest};

use crate::fault::BodyFault;
use crate::frame::Frame;
use crate::hull::{Hull, frame_of, too_wide, widened};
use crate::item_reader::{ItemReader, fault_at};
use crate::row::{read_row, row_count};
use crate::spots::{PointBuffer, Spot};
use ply_head::{Element, Used};
use tpz_io::{Blob, Source};

/// The frame of the points, and the number of the element behind them.
#[derive(Clone, Copy)]
pub struct Loaded {
    pub frame: Frame,
    pub next: usize,
}

// Takes the items of a row of this number, and says where it is refused.
fn take_row<I: Source>(
    items: &mut ItemReader,
    element: &Element,
    number: u32,
    row: u64,
    digits: u8,
    src: &mut I,
) -> Result<Spot, BodyFault>
    requires digits { digits ≤ 9 }
    requires properties { All IsOfVertex element.now.properties }
    ensures taken { IfOk result (λ spot. TakesRow digits element.now.properties
        (items_told items.old (I.left src.old)) (row_of spot) (items_told items.new (I.left src.new))) }
    ensures small { IfOk result (λ spot. IsSmallRow (row_of spot)) }
    ensures refused { (f : BodyFault) → result ≡ Err f → IsRefusal f
        → RefusesRowAt digits element.now.properties number row (items_told items.old (I.left src.old)) f }
    ensures input { IsErrOf result BodyFault.InputFault → Rose (I.faults src.old) (I.faults src.new) }
    ensures device { (f : BodyFault) → result ≡ Err f → IsOfInput f }
    ensures later { I.faults src.old ≤ I.faults src.new }
{
    match read_row(items, element.properties(), digits, src) {
        Ok(spot) => Ok(spot),
        Err(fault) => Err(fault_at(fault, number, row)),
    }
}

// Takes the rows of an element that isn't used.
fn skip_rows<I: Source>(
    items: &mut ItemReader,
    element: &Element,
    number: u32,
    digits: u8,
    src: &mut I,
) -> Result<(), BodyFault>
    requires digits { digits ≤ 9 }
    requires element { IsOther element.now }
    ensures taken { OnOk result ((rows : List Row) × TakesRows digits number element.now
        (items_told items.old (I.left src.old)) rows (items_told items.new (I.left src.new))) }
    ensures refused { (f : BodyFault) → result ≡ Err f → IsRefusal f
        → RefusesRows digits number element.now (items_told items.old (I.left src.old)) f }
    ensures input { IsErrOf result BodyFault.InputFault → Rose (I.faults src.old) (I.faults src.new) }
    ensures device { (f : BodyFault) → result ≡ Err f → IsOfInput f }
    ensures later { I.faults src.old ≤ I.faults src.new }
{
    let count = row_count(element);
    'rows: for row in 0..count {
        take_row(items, element, number, row, digits, src)?;
    }
    Ok(())
}

// Takes the rows of elements that aren't used.
fn skip_elements<I: Source>(
    items: &mut ItemReader,
    elements: &[Element],
    digits: u8,
    src: &mut I,
) -> Result<(), BodyFault>
    requires digits { digits ≤ 9 }
    requires elements { All IsOther elements.now }
    requires few { length elements.now ≤ 64 }
    ensures passed { OnOk result (PassesElements digits elements.now
        (items_told items.old (I.left src.old)) (items_told items.new (I.left src.new))) }
    ensures refused { (f : BodyFault) → result ≡ Err f → IsRefusal f
        → RefusesElements digits elements.now (items_told items.old (I.left src.old)) f }
    ensures input { IsErrOf result BodyFault.InputFault → Rose (I.faults src.old) (I.faults src.new) }
    ensures device { (f : BodyFault) → result ≡ Err f → IsOfInput f }
    ensures later { I.faults src.old ≤ I.faults src.new }
{
    'elements: for (number, element) in elements.iter().enumerate() {
        skip_rows(items, element, number as u32, digits, src)?;
    }
    Ok(())
}

// Takes the rows of the used vertex element, and hands each to the buffer.
fn read_rows<I: Source, B: Blob>(
    items: &mut ItemReader,
    buffer: &mut PointBuffer,
    element: &Element,
    number: u32,
    digits: u8,
    src: &mut I,
    points: &mut B,
) -> Result<Option<Hull>, BodyFault>
    requires digits { digits ≤ 9 }
    requires buffer { buffer.old ≡ [] }
    requires vertex { IsVertexElement element.now }
    requires few { element.now.count ≤ 2147483648 }
    ensures rows { IfOk result (λ hull. (rows : List Row) × (length rows ≡ row_count_of element.now)
        × AreRead hull buffer.new (B.held points.new) rows
        × TakesRows digits number element.now (items_told items.old (I.left src.old)) rows (items_told items.new (I.left src.new))) }
    ensures way { OnOk result (length buffer.new ≤ 12 * row_count_of element.now) }
    ensures refused { (f : BodyFault) → result ≡ Err f → IsRefusal f
        → RefusesRows digits number element.now (items_told items.old (I.left src.old)) f }
    ensures input { IsErrOf result BodyFault.InputFault → Rose (I.faults src.old) (I.faults src.new) }
    ensures work { IsErrOf result BodyFault.WorkFault → Rose (B.faults points.old) (B.faults points.new) }
    ensures damage { (offset : ℕ) → result ≢ Err (BodyFault.WorkDamage offset) }
    ensures input_later { I.faults src.old ≤ I.faults src.new }
    ensures work_later { B.faults points.old ≤ B.faults points.new }
    ensures telling { is_some (B.held points.new) ≡ is_some (B.held points.old) }
{
    let mut hull = None;
    let count = row_count(element);
    'rows: for row in 0..count {
        let spot = take_row(items, element, number, row, digits, src)?;
        if buffer.add(points, row, spot).is_err() {
            return Err(BodyFault::WorkFault);
        }
        hull = Some(widened(hull, spot));
    }
    Ok(hull)
}

// Reads the used vertex element, and writes each point to the blob.
fn load_vertex<I: Source, B: Blob>(
    items: &mut ItemReader,
    buffer: &mut PointBuffer,
    element: &Element,
    number: u32,
    digits: u8,
    src: &mut I,
    points: &mut B,
) -> Result<Frame, BodyFault>
    requires digits { digits ≤ 9 }
    requires buffer { buffer.old ≡ [] }
    requires vertex { IsVertexElement element.now }
    requires few { element.now.count ≤ 2147483648 }
    ensures rows { IfOk result (λ frame. (rows : List Row) × IsFrameOf frame rows × (too_wide_of rows ≡ None)
        × ForSome (B.held points.new) (HoldsRows rows)
        × TakesRows digits number element.now (items_told items.old (I.left src.old)) rows (items_told items.new (I.left src.new))) }
    ensures vertices { IfOk result (λ frame. frame.vertices ≡ row_count_of element.now) }
    ensures small { IfOk result IsSmallFrame }
    ensures refused { (f : BodyFault) → result ≡ Err f → IsRefusal f → RefusesVertex digits number element.now
        (items_told items.old (I.left src.old)) (items_told items.new (I.left src.new)) f }
    ensures input { IsErrOf result BodyFault.InputFault → Rose (I.faults src.old) (I.faults src.new) }
    ensures work { IsErrOf result BodyFault.WorkFault → Rose (B.faults points.old) (B.faults points.new) }
    ensures damage { (offset : ℕ) → result ≢ Err (BodyFault.WorkDamage offset) }
    ensures input_later { I.faults src.old ≤ I.faults src.new }
    ensures work_later { B.faults points.old ≤ B.faults points.new }
    ensures telling { is_some (B.held points.new) ≡ is_some (B.held points.old) }
{
    let hull = read_rows(items, buffer, element, number, digits, src, points)?;
    let count = row_count(element);
    if buffer.flush(points, count).is_err() {
        return Err(BodyFault::WorkFault);
    }
    match too_wide(hull) {
        Some(fault) => Err(fault),
        None => Ok(frame_of(hull, count)),
    }
}

// The number of the used vertex element.
fn vertex_number(elements: &[Element]) -> usize
    requires { IsLaidOut elements.now }
    ensures { IsVertexAt result elements.now }
{
    'elements: for (number, element) in elements.iter().enumerate() {
        if element.used() == Used::Vertex {
            return number;
        }
    }
    unreachable!()
}

/// Reads to the end of the used vertex element, and writes each point to the blob.
pub fn load<I: Source, B: Blob>(
    items: &mut ItemReader,
    buffer: &mut PointBuffer,
    elements: &[Element],
    digits: u8,
    src: &mut I,
    points: &mut B,
) -> Result<Loaded, BodyFault>
    requires digits { digits ≤ 9 }
    requires buffer { buffer.old ≡ [] }
    requires laid_out { IsLaidOut elements.now }
    requires small { IsSmall elements.now }
    ensures rows { IfOk result (λ loaded. (rows : List Row) × IsFrameOf loaded.frame rows
        × (option_map (input_from (setting_of elements.now digits) 0 elements.now no_input) (items_told items.old (I.left src.old))
        ≡ option_map (λ rest. with_spots rows (faces_from (setting_of elements.now digits) loaded.next (drop loaded.next elements.now) rest))
        (items_told items.new (I.left src.new)))
        × ForSome (B.held points.new) (HoldsRows rows)) }
    ensures vertices { IfOk result (λ loaded. loaded.frame.vertices ≡ vertex_count elements.now) }
    ensures behind { IfOk result (λ loaded. IsRest (drop loaded.next elements.now)) }
    ensures small { IfOk result (λ loaded. IsSmallFrame loaded.frame) }
    ensures refused { (f : BodyFault) → result ≡ Err f → IsRefusal f
        → ForSome (items_told items.old (I.left src.old)) (λ rest. input_from (setting_of elements.now digits) 0 elements.now no_input rest ≡ Err f) }
    ensures input { IsErrOf result BodyFault.InputFault → Rose (I.faults src.old) (I.faults src.new) }
    ensures work { IsErrOf result BodyFault.WorkFault → Rose (B.faults points.old) (B.faults points.new) }
    ensures damage { (offset : ℕ) → ¬ (result ≡ Err (BodyFault.WorkDamage offset)) }
    ensures input_later { I.faults src.old ≤ I.faults src.new }
    ensures work_later { B.faults points.old ≤ B.faults points.new }
    ensures telling { is_some (B.held points.new) ≡ is_some (B.held points.old) }
{
    let number = vertex_number(elements);
    skip_elements(items, &elements[..number], digits, src)?;
    let vertex = &elements[number];
    let frame = load_vertex(items, buffer, vertex, number as u32, digits, src, points)?;
    Ok(Loaded {
        frame,
        next: number + 1,
    })
}
