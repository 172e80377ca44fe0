// Items, taken one by one from a source.
ghost use Rattle.std.specs.Prelude.{◌≡◌, ◌≤◌, ◌<◌, [], unsigned_abs, Ok, IfOk, OnOk, IsErrOf, Err};
ghost use Rattle.std.specs.Option.{ForSome, option_map};
ghost use Rattle.tpz_io.specs.Causes.{Rose};
ghost use Rattle.tpz_io.specs.Told.{ahead};
ghost use Rattle.ply_body.specs.declared.fault.Flaw.{Flaw};
ghost use Rattle.ply_body.specs.declared.item_reader.ItemFault.TheVariants as item_fault;
ghost use Rattle.ply_body.specs.Faults.{row_fault};
ghost use Rattle.ply_body.specs.Items.{MOST_BYTES, coordinate_of, count_of, index_of, item, item_as, items_told, skipped, Refuses, Takes};
ghost use Rattle.ply_body.specs.Tokens.{items_ahead};

use crate::fault::{BodyFault, Flaw};
use crate::field::next_field;
use crate::item::Item;
use crate::meaning::{coordinate_of, count_of, index_of};
use crate::token::next_token;
use ply_head::{Format, Kind};
use std::marker::Model;
use tpz_io::{Failed, Reader, Source};

// How many bytes behind the header are looked at.
const ROOM: u64 = 1 << 40;

/// Why an item isn't taken.
#[derive(Clone, Copy, Debug, PartialEq, Eq)]
pub enum ItemFault {
    /// It is refused.
    Flaw(Flaw),
    /// A read of the source failed.
    Input,
}

impl From<Failed> for ItemFault {
    ghost from_gives = { λ _ e. e ≡ item_fault.Input };

    fn from(_: Failed) -> Self {
        ItemFault::Input
    }
}

impl From<Flaw> for ItemFault {
    ghost from_gives = { λ flaw e. e ≡ item_fault.Flaw flaw };

    fn from(flaw: Flaw) -> Self {
        ItemFault::Flaw(flaw)
    }
}

/// The fault of an item in a row of this number.
pub fn fault_at(fault: ItemFault, element: u32, row: u64) -> BodyFault
    ensures { result ≡ row_fault element row fault }
{
    match fault {
        ItemFault::Flaw(Flaw::Short) => BodyFault::Short { element, row },
        ItemFault::Flaw(Flaw::Number) => BodyFault::Number { element, row },
        ItemFault::Flaw(Flaw::Range) => BodyFault::Range { element, row },
        ItemFault::Flaw(Flaw::BadIndex { index }) => BodyFault::BadIndex {
            element,
            row,
            index,
        },
        ItemFault::Flaw(Flaw::TooManyTris) => BodyFault::TooManyTris { element, row },
        ItemFault::Flaw(Flaw::TooLong) => BodyFault::TooLong { element, row },
        ItemFault::Input => BodyFault::InputFault,
    }
}

/// Takes items from a source. It looks at no more than 2^40 bytes behind the header. Contracts see the format, how many
/// bytes may still be looked at, and the bytes that were read and not yet taken.
#[derive(Drop)]
pub struct ItemReader {
    reader: Reader,
    format: Format,
    room: u64,
}

impl Model for ItemReader {
    ghost use Rattle.ply_body.specs.Items.{ItemPlace};

    ghost Value = { ItemPlace };

    ghost view = { λ r. record { format = r.format; room = r.room; held = r.reader } };
}

impl ItemReader {
    /// Reads on behind a header. Neither this nor a call takes memory: a token is kept where it is returned.
    pub fn new(format: Format, reader: Reader) -> Self
        ensures { result ≡ record { format = format; room = MOST_BYTES; held = reader } }
    {
        ItemReader {
            reader,
            format,
            room: ROOM,
        }
    }

    /// Takes a coordinate, scaled by so many digits.
    pub fn coordinate<S: Source>(
        &mut self,
        source: &mut S,
        kind: Kind,
        digits: u8,
    ) -> Result<i32, ItemFault>
        requires { digits ≤ 9 }
        ensures taken { IfOk result (λ z. Takes (item_as (coordinate_of digits) kind) (items_told self.old (S.left source.old)) z (items_told self.new (S.left source.new))) }
        ensures fits { IfOk result (λ z. unsigned_abs z ≤ 2147483647) }
        ensures refused { (flaw : Flaw) → result ≡ Err (ItemFault.Flaw flaw) → Refuses (item_as (coordinate_of digits) kind) (items_told self.old (S.left source.old)) flaw }
        ensures input { IsErrOf result ItemFault.Input → Rose (S.faults source.old) (S.faults source.new) }
        ensures later { S.faults source.old ≤ S.faults source.new }
    {
        let item = self.next_item(source, kind)?;
        Ok(coordinate_of(&item, digits)?)
    }

    /// Takes the count of a list.
    pub fn count<S: Source>(&mut self, source: &mut S, kind: Kind) -> Result<u64, ItemFault>
        ensures taken { IfOk result (λ n. Takes (item_as count_of kind) (items_told self.old (S.left source.old)) n (items_told self.new (S.left source.new))) }
        ensures fits { IfOk result (λ n. n < 9223372036854775808) }
        ensures refused { (flaw : Flaw) → result ≡ Err (ItemFault.Flaw flaw) → Refuses (item_as count_of kind) (items_told self.old (S.left source.old)) flaw }
        ensures input { IsErrOf result ItemFault.Input → Rose (S.faults source.old) (S.faults source.new) }
        ensures later { S.faults source.old ≤ S.faults source.new }
    {
        let item = self.next_item(source, kind)?;
        Ok(count_of(&item)?)
    }

    /// Takes an index of one of so many vertices.
    pub fn index<S: Source>(
        &mut self,
        source: &mut S,
        kind: Kind,
        vertices: u64,
    ) -> Result<u32, ItemFault>
        requires { vertices ≤ 2147483648 }
        ensures taken { IfOk result (λ i. Takes (item_as (index_of vertices) kind) (items_told self.old (S.left source.old)) i (items_told self.new (S.left source.new))) }
        ensures fits { IfOk result (λ i. i < vertices) }
        ensures refused { (flaw : Flaw) → result ≡ Err (ItemFault.Flaw flaw) → Refuses (item_as (index_of vertices) kind) (items_told self.old (S.left source.old)) flaw }
        ensures input { IsErrOf result ItemFault.Input → Rose (S.faults source.old) (S.faults source.new) }
        ensures later { S.faults source.old ≤ S.faults source.new }
    {
        let item = self.next_item(source, kind)?;
        Ok(index_of(&item, vertices)?)
    }

    /// Takes so many items without a look at what they mean.
    pub fn skip<S: Source>(
        &mut self,
        source: &mut S,
        kind: Kind,
        count: u64,
    ) -> Result<(), ItemFault>
        ensures taken { OnOk result (option_map (skipped kind count) (items_told self.old (S.left source.old)) ≡ option_map Ok (items_told self.new (S.left source.new))) }
        ensures refused { (flaw : Flaw) → result ≡ Err (ItemFault.Flaw flaw) → Refuses (skipped kind count) (items_told self.old (S.left source.old)) flaw }
        ensures input { IsErrOf result ItemFault.Input → Rose (S.faults source.old) (S.faults source.new) }
        ensures later { S.faults source.old ≤ S.faults source.new }
    {
        'items: for _ in 0..count {
            self.next_item(source, kind)?;
        }
        Ok(())
    }

    // Takes the next item. A token of more than 64 bytes is refused.
    fn next_item<S: Source>(&mut self, source: &mut S, kind: Kind) -> Result<Item, ItemFault>
        ensures taken { IfOk result (λ i. Takes (item kind) (items_told self.old (S.left source.old)) i (items_told self.new (S.left source.new))) }
        ensures refused { (flaw : Flaw) → result ≡ Err (ItemFault.Flaw flaw) → Refuses (item kind) (items_told self.old (S.left source.old)) flaw }
        ensures input { IsErrOf result ItemFault.Input → Rose (S.faults source.old) (S.faults source.new) }
        ensures later { S.faults source.old ≤ S.faults source.new }
    {
        take_item(&mut self.reader, source, &mut self.room, self.format, kind)
    }
}

// The same over the parts of a reader.
fn take_item<S: Source>(
    reader: &mut Reader,
    source: &mut S,
    room: &mut u64,
    format: Format,
    kind: Kind,
) -> Result<Item, ItemFault>
    ensures taken { IfOk result (λ i. Takes (item kind) (items_ahead format room.old (ahead reader.old (S.left source.old))) i
        (items_ahead format room.new (ahead reader.new (S.left source.new)))) }
    ensures refused { (flaw : Flaw) → result ≡ Err (ItemFault.Flaw flaw) → Refuses (item kind) (items_ahead format room.old (ahead reader.old (S.left source.old))) flaw }
    ensures input { IsErrOf result ItemFault.Input → Rose (S.faults source.old) (S.faults source.new) }
    ensures later { S.faults source.old ≤ S.faults source.new }
{
    if format == Format::Ascii {
        return Ok(Item::Token(next_token(reader, source, room)?));
    }
    Ok(Item::Field(next_field(reader, source, room, format, kind)?))
}
