// Whole numbers in text.
ghost use Rattle.std.specs.Prelude.{◌≡◌, Ok, Err, if◌then◌else◌};
ghost use Rattle.ply_head.specs.Numbers.{are_digits, signed};
ghost use Rattle.ply_body.specs.declared.fault.Flaw.TheVariants.{Number};
ghost use Rattle.ply_body.specs.declared.item.Item.TheVariants.{Token};
ghost use Rattle.ply_body.specs.Items.{fits_i64, whole_number};

use crate::fault::Flaw;
use ply_head::{are_all_digits, digits_value, is_negative, without_sign};

/// The whole number that a sign or none and 1 to 19 digits write. It has to fit an i64.
pub fn whole_number(text: &[u8]) -> Result<i64, Flaw>
    ensures { result ≡ whole_number (Token text.now) }
{
    let digits = without_sign(text);
    if !are_digits(digits) {
        return Err(Flaw::Number);
    }
    signed(is_negative(text), digits_value(digits))
}

// 1 to 19 digits, and nothing else.
fn are_digits(text: &[u8]) -> bool
    ensures { result ≡ are_digits 1 19 text.now }
{
    are_all_digits(text) && !text.is_empty() && text.len() <= 19
}

// A number with a sign, if it fits an i64.
fn signed(minus: bool, magnitude: u64) -> Result<i64, Flaw>
    ensures { result ≡ (if fits_i64 minus magnitude then Ok (signed minus magnitude) else Err Number) }
{
    if magnitude < 1 << 63 {
        let magnitude = magnitude as i64;
        return Ok(if minus { -magnitude } else { magnitude });
    }
    if minus && magnitude == 1 << 63 {
        return Ok(i64::MIN);
    }
    Err(Flaw::Number)
}
