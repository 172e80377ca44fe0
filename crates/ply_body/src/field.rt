// The fields of a source.
ghost use Rattle.std.specs.Prelude.{◌≡◌, ◌≢◌, ◌≤◌, ◌<◌, ◌+◌, ℕ, List, Bool, ℤ, pos, length, take, if◌then◌else◌, IfOk, OnOk, IsErrOf, Err};
ghost use Rattle.std.specs.Option.{ForSome};
ghost use Rattle.byteorder.specs.Endian.{twos_complement};
ghost use Rattle.tpz_io.specs.Causes.{Rose};
ghost use Rattle.tpz_io.specs.Told.{ahead};
ghost use Rattle.ply_head.specs.declared.element.Format.TheVariants.{Ascii};
ghost use Rattle.ply_body.specs.declared.fault.Flaw.{Flaw};
ghost use Rattle.ply_body.specs.declared.item.Item.TheVariants.{Field};
ghost use Rattle.ply_body.specs.Items.{field_value, is_signed, item, lack_of, size_of, Refuses, Takes};
ghost use Rattle.ply_body.specs.Tokens.{items_ahead};

use crate::fault::Flaw;
use crate::item_reader::ItemFault;
use byteorder::{BigEndian, ByteOrder, LittleEndian};
use ply_head::{Format, Kind};
use tpz_io::{Reader, Source};

// How many bytes the longest field has.
const MOST_FIELD: usize = 8;

/// Takes the next field within the room, and gives its number.
pub fn next_field<S: Source>(
    reader: &mut Reader,
    source: &mut S,
    room: &mut u64,
    format: Format,
    kind: Kind,
) -> Result<i64, ItemFault>
    requires { format ≢ Ascii }
    ensures taken { IfOk result (λ z. Takes (item kind) (items_ahead format room.old (ahead reader.old (S.left source.old))) (Field z)
        (items_ahead format room.new (ahead reader.new (S.left source.new)))) }
    ensures refused { (flaw : Flaw) → result ≡ Err (ItemFault.Flaw flaw) → Refuses (item kind) (items_ahead format room.old (ahead reader.old (S.left source.old))) flaw }
    ensures input { IsErrOf result ItemFault.Input → Rose (S.faults source.old) (S.faults source.new) }
    ensures later { S.faults source.old ≤ S.faults source.new }
{
    let mut field = [0; MOST_FIELD];
    let bytes = &mut field[..size_of(kind)];
    take_bytes(reader, source, room, bytes)?;
    Ok(field_value(format, kind, bytes))
}

// Takes as many bytes as there is place for.
fn take_bytes<S: Source>(
    reader: &mut Reader,
    source: &mut S,
    room: &mut u64,
    bytes: &mut [u8],
) -> Result<(), ItemFault>
    ensures taken { OnOk result (ahead reader.old (S.left source.old) ≡ ahead bytes.new (ahead reader.new (S.left source.new))) }
    ensures room { OnOk result (room.old ≡ length bytes.old + room.new) }
    ensures refused { (flaw : Flaw) → result ≡ Err (ItemFault.Flaw flaw)
        → ForSome (ahead reader.old (S.left source.old)) (λ rest. (length (take room.old rest) < length bytes.old) × (flaw ≡ lack_of room.old rest)) }
    ensures input { IsErrOf result ItemFault.Input → Rose (S.faults source.old) (S.faults source.new) }
    ensures later { S.faults source.old ≤ S.faults source.new }
{
    'each: for byte in bytes.iter_mut() {
        if *room == 0 {
            return Err(ItemFault::Flaw(Flaw::TooLong));
        }
        let Some(next) = reader.next(source)? else {
            return Err(ItemFault::Flaw(Flaw::Short));
        };
        *byte = next;
        *room -= 1;
    }
    Ok(())
}

// How many bytes a field has.
fn size_of(kind: Kind) -> usize
    ensures size { result ≡ size_of kind }
    ensures some { 1 ≤ result }
    ensures few { result ≤ 8 }
{
    match kind {
        Kind::I8 | Kind::U8 => 1,
        Kind::I16 | Kind::U16 => 2,
        Kind::I32 | Kind::U32 | Kind::F32 => 4,
        Kind::F64 => 8,
    }
}

// The number in the bytes of a field.
fn field_value(format: Format, kind: Kind, bytes: &[u8]) -> i64
    requires { length bytes.now ≡ size_of kind }
    ensures { result ≡ field_value format kind bytes.now }
{
    match format {
        Format::Big => ordered_value::<BigEndian>(kind, bytes),
        Format::Ascii | Format::Little => ordered_value::<LittleEndian>(kind, bytes),
    }
}

// The same in a known order of the bytes.
fn ordered_value<B: ByteOrder>(kind: Kind, bytes: &[u8]) -> i64
    requires { length bytes.now ≡ size_of kind }
    ensures { result ≡ (if is_signed kind then twos_complement (size_of kind) (B.number_of (size_of kind) bytes.now) else pos (B.number_of (size_of kind) bytes.now)) }
{
    let size = size_of(kind);
    match kind {
        Kind::U8 | Kind::U16 | Kind::U32 => B::read_uint(bytes, size) as i64,
        _ => B::read_int(bytes, size),
    }
}
