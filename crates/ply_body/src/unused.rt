// The items of properties that aren't used.
ghost use Rattle.std.specs.Prelude.{◌≡◌, ◌≤◌, Err, Ok, OnOk, IsErrOf};
ghost use Rattle.std.specs.Option.{option_map};
ghost use Rattle.tpz_io.specs.Causes.{Rose};
ghost use Rattle.ply_body.specs.declared.fault.Flaw.{Flaw};
ghost use Rattle.ply_body.specs.Items.{items_told, pass_one, passed, Refuses};

use crate::item_reader::{ItemFault, ItemReader};
use ply_head::Property;
use tpz_io::Source;

/// Takes the items of a property that isn't used.
pub fn pass<I: Source>(
    items: &mut ItemReader,
    src: &mut I,
    property: &Property,
) -> Result<(), ItemFault>
    ensures taken { OnOk result (option_map (pass_one property.now) (items_told items.old (I.left src.old)) ≡ option_map Ok (items_told items.new (I.left src.new))) }
    ensures refused { (flaw : Flaw) → result ≡ Err (ItemFault.Flaw flaw) → Refuses (pass_one property.now) (items_told items.old (I.left src.old)) flaw }
    ensures input { IsErrOf result ItemFault.Input → Rose (I.faults src.old) (I.faults src.new) }
    ensures later { I.faults src.old ≤ I.faults src.new }
{
    let count_kind = match property.count_kind {
        Some(count_kind) => count_kind,
        None => return items.skip(src, property.kind, 1),
    };
    let count = items.count(src, count_kind)?;
    items.skip(src, property.kind, count)
}

/// Takes the items of properties that aren't used.
pub fn pass_all<I: Source>(
    items: &mut ItemReader,
    src: &mut I,
    properties: &[Property],
) -> Result<(), ItemFault>
    ensures taken { OnOk result (option_map (passed properties.now) (items_told items.old (I.left src.old)) ≡ option_map Ok (items_told items.new (I.left src.new))) }
    ensures refused { (flaw : Flaw) → result ≡ Err (ItemFault.Flaw flaw) → Refuses (passed properties.now) (items_told items.old (I.left src.old)) flaw }
    ensures input { IsErrOf result ItemFault.Input → Rose (I.faults src.old) (I.faults src.new) }
    ensures later { I.faults src.old ≤ I.faults src.new }
{
    'properties: for property in properties {
        pass(items, src, property)?;
    }
    Ok(())
}
