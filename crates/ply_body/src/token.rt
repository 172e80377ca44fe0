// The tokens of a source.
ghost use Rattle.std.specs.Prelude.{◌≡◌, ◌≤◌, ◌<◌, IfOk, IsErrOf, Err};
ghost use Rattle.tpz_io.specs.Causes.{HasCause, Rose};
ghost use Rattle.tpz_io.specs.Told.{ahead};
ghost use Rattle.tpz_base.specs.Texts.{Bytes};
ghost use Rattle.ply_head.specs.declared.element.Kind.{Kind};
ghost use Rattle.ply_head.specs.declared.element.Format.TheVariants.{Ascii};
ghost use Rattle.ply_body.specs.declared.fault.Flaw.{Flaw};
ghost use Rattle.ply_body.specs.declared.item.Item.TheVariants.{Token};
ghost use Rattle.ply_body.specs.Items.{is_gap, item, Refuses, Takes};
ghost use Rattle.ply_body.specs.Tokens.{IsLong, items_ahead, items_behind};

use crate::fault::Flaw;
use crate::item::Text;
use crate::item_reader::ItemFault;
use tpz_io::{Failed, Reader, Source};

/// Takes the next token within the room. A token of more than 64 bytes is taken to its end, and refused.
pub fn next_token<S: Source>(
    reader: &mut Reader,
    source: &mut S,
    room: &mut u64,
) -> Result<Text, ItemFault>
    ensures taken { IfOk result (λ text. (kind : Kind) → Takes (item kind) (items_ahead Ascii room.old (ahead reader.old (S.left source.old))) (Token text)
        (items_ahead Ascii room.new (ahead reader.new (S.left source.new)))) }
    ensures refused { (flaw : Flaw) → result ≡ Err (ItemFault.Flaw flaw) → (kind : Kind) → Refuses (item kind) (items_ahead Ascii room.old (ahead reader.old (S.left source.old))) flaw }
    ensures input { IsErrOf result ItemFault.Input → Rose (S.faults source.old) (S.faults source.new) }
    ensures later { S.faults source.old ≤ S.faults source.new }
{
    let mut text = Text::new();
    'bytes: while *room > 0 {
        let Some(byte) = reader.next(source)? else {
            if text.is_empty() {
                return Err(ItemFault::Flaw(Flaw::Short));
            }
            return Ok(text);
        };
        *room -= 1;
        if is_gap(byte) {
            if !text.is_empty() {
                return Ok(text);
            }
        } else if text.is_full() {
            return Err(ItemFault::Flaw(long_token(reader, source, room)?));
        } else {
            text.push(byte);
        }
    }
    Err(ItemFault::Flaw(Flaw::TooLong))
}

// Takes the rest of a token of more than 64 bytes, and says why it is refused.
fn long_token<S: Source>(
    reader: &mut Reader,
    source: &mut S,
    room: &mut u64,
) -> Result<Flaw, Failed>
    ensures refused { IfOk result (λ flaw. (text : Bytes) → IsLong text → (kind : Kind) → Refuses (item kind) (items_behind text room.old (ahead reader.old (S.left source.old))) flaw) }
    ensures cause { HasCause (S.faults source.old) (S.faults source.new) result }
{
    'bytes: while *room > 0 {
        match reader.next(source)? {
            Some(byte) if !is_gap(byte) => *room -= 1,
            _ => return Ok(Flaw::Number),
        }
    }
    Ok(Flaw::TooLong)
}

fn is_gap(byte: u8) -> bool
    ensures { result ≡ is_gap byte }
{
    byte == b' ' || byte == b'\t' || byte == b'\n' || byte == b'\r'
}
