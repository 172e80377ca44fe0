// The items of a row that has no corners, taken one by one.
ghost use Rattle.std.specs.Prelude.{◌≡◌, ◌≤◌, unsigned_abs, All, Err, IfOk, IsErrOf};
ghost use Rattle.tpz_io.specs.Causes.{Rose};
ghost use Rattle.ply_head.specs.Heads.{IsOfVertex};
ghost use Rattle.ply_body.specs.declared.fault.Flaw.{Flaw};
ghost use Rattle.ply_body.specs.Bodies.{row_count as rows_of, with_coordinate as with_coordinate_of};
ghost use Rattle.ply_body.specs.Items.{items_told};
ghost use Rattle.ply_body.specs.Spots.{row_of, IsSmallRow};
ghost use Rattle.ply_body.specs.VertexRows.{TakesProperty, RefusesProperty, TakesRow, RefusesRow};

use crate::item_reader::{ItemFault, ItemReader};
use crate::spots::Spot;
use crate::unused::pass;
use ply_head::{Element, Property, Role};
use tpz_io::Source;

fn with_coordinate(spot: Spot, role: Role, value: i32) -> Spot
    requires spot { IsSmallRow (row_of spot) }
    requires value { unsigned_abs value ≤ 2147483647 }
    ensures row { row_of result ≡ with_coordinate_of role value (row_of spot) }
    ensures small { IsSmallRow (row_of result) }
{
    match role {
        Role::X => Spot { x: value, ..spot },
        Role::Y => Spot { y: value, ..spot },
        Role::Z => Spot { z: value, ..spot },
        Role::Indices | Role::Skip => spot,
    }
}

// Takes the items of a property: a coordinate, or what isn't used.
fn read_property<I: Source>(
    items: &mut ItemReader,
    property: &Property,
    digits: u8,
    spot: Spot,
    src: &mut I,
) -> Result<Spot, ItemFault>
    requires digits { digits ≤ 9 }
    requires spot { IsSmallRow (row_of spot) }
    requires property { IsOfVertex property.now }
    ensures taken { IfOk result (λ after. TakesProperty digits property.now (row_of spot)
        (items_told items.old (I.left src.old)) (row_of after) (items_told items.new (I.left src.new))) }
    ensures small { IfOk result (λ after. IsSmallRow (row_of after)) }
    ensures refused { (flaw : Flaw) → result ≡ Err (ItemFault.Flaw flaw)
        → RefusesProperty digits property.now (row_of spot) (items_told items.old (I.left src.old)) flaw }
    ensures input { IsErrOf result ItemFault.Input → Rose (I.faults src.old) (I.faults src.new) }
    ensures later { I.faults src.old ≤ I.faults src.new }
{
    if property.role == Role::Skip {
        pass(items, src, property)?;
        return Ok(spot);
    }
    let value = items.coordinate(src, property.kind, digits)?;
    Ok(with_coordinate(spot, property.role, value))
}

/// Takes the items of a row: the coordinates by their roles, each 0 where none has the role, and all else skipped.
pub fn read_row<I: Source>(
    items: &mut ItemReader,
    properties: &[Property],
    digits: u8,
    src: &mut I,
) -> Result<Spot, ItemFault>
    requires digits { digits ≤ 9 }
    requires properties { All IsOfVertex properties.now }
    ensures taken { IfOk result (λ spot. TakesRow digits properties.now
        (items_told items.old (I.left src.old)) (row_of spot) (items_told items.new (I.left src.new))) }
    ensures small { IfOk result (λ spot. IsSmallRow (row_of spot)) }
    ensures refused { (flaw : Flaw) → result ≡ Err (ItemFault.Flaw flaw)
        → RefusesRow digits properties.now (items_told items.old (I.left src.old)) flaw }
    ensures input { IsErrOf result ItemFault.Input → Rose (I.faults src.old) (I.faults src.new) }
    ensures later { I.faults src.old ≤ I.faults src.new }
{
    let mut spot = Spot { x: 0, y: 0, z: 0 };
    'row: for property in properties {
        spot = read_property(items, property, digits, spot, src)?;
    }
    Ok(spot)
}

/// How many rows are read. An element without properties has no items.
pub fn row_count(element: &Element) -> u64
    ensures { result ≡ rows_of element.now }
{
    if element.properties().is_empty() {
        return 0;
    }
    element.count()
}
