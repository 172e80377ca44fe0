// The items of a row up to the count of its list of indices.
ghost use Rattle.std.specs.Prelude.{All, ◌≡◌, ◌≤◌, ◌<◌, length, Err, Some, IfOk, IsErrOf};
ghost use Rattle.tpz_io.specs.Causes.{Rose};
ghost use Rattle.ply_head.specs.Heads.{IsSkipped};
ghost use Rattle.ply_body.specs.declared.fault.Flaw.{Flaw};
ghost use Rattle.ply_body.specs.Items.{count_of, items_told, item_as, Refuses, Takes};
ghost use Rattle.ply_body.specs.Places.{front_of, front_read, indices_kind, rest_of, IsReach, IsRowLayout};

use crate::fault::Flaw;
use crate::item_reader::{ItemFault, ItemReader};
use crate::unused::pass;
use ply_head::{Kind, Property, Role};
use tpz_io::Source;

/// What was read of a row up to the count of its list of indices: the kind of these, their count, and where the
/// properties behind the list begin. A row without such a list has no corners and was read whole.
#[derive(Clone, Copy)]
pub struct Front {
    pub kind: Kind,
    pub count: u64,
    pub behind: Option<usize>,
}

// The kind of the count, if it is the list of indices.
fn kind_of_count(property: &Property) -> Option<Kind>
    ensures { result ≡ indices_kind property.now }
{
    match property.role {
        Role::Indices => property.count_kind,
        _ => None,
    }
}

/// Takes what stands in a row up to the count of its list of indices.
pub fn read_front<I: Source>(
    items: &mut ItemReader,
    src: &mut I,
    properties: &[Property],
) -> Result<Front, ItemFault>
    requires { IsRowLayout properties.now }
    ensures taken { IfOk result (λ front. Takes (front_of properties.now) (items_told items.old (I.left src.old)) (front_read front properties.now) (items_told items.new (I.left src.new))) }
    ensures fits { IfOk result (λ front. (front.count < 9223372036854775808) × IsReach front.behind (length properties.now)) }
    ensures behind { IfOk result (λ front. All IsSkipped (rest_of front.behind properties.now)) }
    ensures plain { IfOk result (λ front. All IsSkipped properties.now → front.count ≡ 0) }
    ensures refused { (flaw : Flaw) → result ≡ Err (ItemFault.Flaw flaw) → Refuses (front_of properties.now) (items_told items.old (I.left src.old)) flaw }
    ensures input { IsErrOf result ItemFault.Input → Rose (I.faults src.old) (I.faults src.new) }
    ensures later { I.faults src.old ≤ I.faults src.new }
{
    'front: for (at, property) in properties.iter().enumerate() {
        if let Some(count_kind) = kind_of_count(property) {
            return read_list(items, src, count_kind, property.kind, at + 1);
        }
        pass(items, src, property)?;
    }
    Ok(Front {
        kind: Kind::U8,
        count: 0,
        behind: None,
    })
}

// Takes the count of the list of indices, before the properties from a place on.
fn read_list<I: Source>(
    items: &mut ItemReader,
    src: &mut I,
    count_kind: Kind,
    kind: Kind,
    behind: usize,
) -> Result<Front, ItemFault>
    ensures taken { IfOk result (λ front. (front.kind ≡ kind) × (front.behind ≡ Some behind) × Takes (item_as count_of count_kind) (items_told items.old (I.left src.old)) front.count (items_told items.new (I.left src.new))) }
    ensures fits { IfOk result (λ front. front.count < 9223372036854775808) }
    ensures refused { (flaw : Flaw) → result ≡ Err (ItemFault.Flaw flaw) → Refuses (item_as count_of count_kind) (items_told items.old (I.left src.old)) flaw }
    ensures input { IsErrOf result ItemFault.Input → Rose (I.faults src.old) (I.faults src.new) }
    ensures later { I.faults src.old ≤ I.faults src.new }
{
    let count = items.count(src, count_kind)?;
    Ok(Front {
        kind,
        count,
        behind: Some(behind),
    })
}
