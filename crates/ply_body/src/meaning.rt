// What an item means as a coordinate, a count or an index.
ghost use Rattle.std.specs.Prelude.{◌≡◌, ◌≤◌, ◌<◌, ◌*ℤ◌, ◌^◌, pos, nat_lt, unsigned_abs, IfOk};
ghost use Rattle.ply_head.specs.Numbers.{LIMIT};
ghost use Rattle.ply_body.specs.declared.fault.Flaw.TheVariants.{Range};
ghost use Rattle.ply_body.specs.declared.item.Item.TheVariants.{Token, Field};
ghost use Rattle.ply_body.specs.Items.{coordinate_of, count_of, index_of, unless, whole_number};

use crate::fault::Flaw;
use crate::item::Item;
use crate::whole_number;
use ply_head::{NumberFault, read_number};

// The greatest absolute value of a coordinate.
const MOST: u64 = 2_147_483_647;

/// A coordinate, scaled by so many digits.
pub fn coordinate_of(item: &Item, digits: u8) -> Result<i32, Flaw>
    requires { digits ≤ 9 }
    ensures coordinate { result ≡ coordinate_of digits item.now }
    ensures fits { IfOk result (λ z. unsigned_abs z ≤ 2147483647) }
{
    match item {
        Item::Token(text) => written(text.as_bytes(), digits),
        Item::Field(z) => scaled(*z, digits),
    }
}

/// The count of a list.
pub fn count_of(item: &Item) -> Result<u64, Flaw>
    ensures count { result ≡ count_of item.now }
    ensures fits { IfOk result (λ n. n < 2 ^ 63) }
{
    let count = whole_number_of(item)?;
    if count < 0 {
        return Err(Flaw::Number);
    }
    Ok(count as u64)
}

/// An index of one of so many vertices.
pub fn index_of(item: &Item, vertices: u64) -> Result<u32, Flaw>
    requires { vertices ≤ 2 ^ 31 }
    ensures index { result ≡ index_of vertices item.now }
    ensures fits { IfOk result (λ i. i < vertices) }
{
    let index = whole_number_of(item)?;
    if index < 0 || index as u64 >= vertices {
        return Err(Flaw::BadIndex { index });
    }
    Ok(index as u32)
}

// A whole number that needn't be scaled.
fn whole_number_of(item: &Item) -> Result<i64, Flaw>
    ensures { result ≡ whole_number item.now }
{
    match item {
        Item::Token(text) => whole_number::whole_number(text.as_bytes()),
        Item::Field(z) => Ok(*z),
    }
}

// A coordinate that a token writes.
fn written(text: &[u8], digits: u8) -> Result<i32, Flaw>
    requires { digits ≤ 9 }
    ensures coordinate { result ≡ coordinate_of digits (Token text.now) }
    ensures fits { IfOk result (λ z. unsigned_abs z ≤ 2147483647) }
{
    match read_number(text, digits) {
        Ok(z) => Ok(z as i32),
        Err(NumberFault::Range) => Err(Flaw::Range),
        Err(_) => Err(Flaw::Number),
    }
}

// A coordinate that a field holds.
fn scaled(z: i64, digits: u8) -> Result<i32, Flaw>
    requires { digits ≤ 9 }
    ensures coordinate { result ≡ coordinate_of digits (Field z) }
    ensures fits { IfOk result (λ z. unsigned_abs z ≤ 2147483647) }
{
    let power = 10_u64.pow(u32::from(digits)) as i64;
    let Some(scaled) = z.checked_mul(power) else {
        return Err(Flaw::Range);
    };
    if scaled.unsigned_abs() > MOST {
        return Err(Flaw::Range);
    }
    Ok(scaled as i32)
}
