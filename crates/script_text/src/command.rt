// Commands as text.
ghost use Rattle.std.specs.Prelude.{◌≡◌, ◌≢◌, ◌↔◌, ◌≤◌, ◌<◌, ◌^◌, ◌++◌, ◌∷◌, ℤ, ℕ, codes, decimal, unsigned_abs, string_bytes, IfOk, MatchOption};
ghost use Rattle.std.specs.Fmt.{signed_decimal};
ghost use Rattle.std.specs.declared.option.Option.TheVariants.{Some};
ghost use Rattle.tpz_base.specs.Texts.{Bytes};
ghost use Rattle.script_text.specs.Commands.{IsSpelled, read_line, spelling};
ghost use Rattle.script_text.specs.declared.line.Line.{Line as Command};

use crate::Line;
use itoa::Buffer;
use std::alloc::{AllocError, Global};
use std::str::from_utf8;

// How far from 0 a coordinate may be.
const FARTHEST: u64 = 1_099_511_627_776;

/// The command that the bytes spell, without a line end. None comes exactly where they spell none.
pub fn read_line(bytes: &[u8]) -> Option<Line>
    ensures value { result ≡ read_line bytes.now }
    ensures spelled { (line : Command) → (result ≡ Some line) ↔ IsSpelled line bytes.now }
{
    let text = from_utf8(bytes).ok()?;
    if text == "write" {
        return Some(Line::Write);
    }
    read_view(text.strip_prefix("view ")?)
}

/// The spelling of a command, without a line end.
pub fn print_line(alloc: Global, line: &Line) -> Result<String, AllocError>
    ensures { IfOk result (λ text. string_bytes text ≡ spelling line.now) }
{
    match *line {
        Line::Look { x, y, z, tol } => format!(in alloc; "view {x} {y} {z} {tol}"),
        Line::Write => format!(in alloc; "write"),
    }
}

// The view whose numbers these are.
fn read_view(numbers: &str) -> Option<Line>
    ensures { (line : Command) → (result ≡ Some line) ↔ IsSpelled line (codes "view " ++ numbers.now) }
{
    let (x, numbers) = first_coordinate(numbers)?;
    let (y, numbers) = first_coordinate(numbers)?;
    let (z, numbers) = first_coordinate(numbers)?;
    let tol = tolerance(numbers)?;
    Some(Line::Look { x, y, z, tol })
}

// The coordinate before the first space, and what stands behind that.
fn first_coordinate(numbers: &str) -> Option<(i64, &str)>
    ensures { MatchOption result
        ((z : ℤ) (rest : Bytes) → unsigned_abs z ≤ 2 ^ 40 → numbers.now ≢ signed_decimal z ++ 32 ∷ rest)
        (λ r. (numbers.now ≡ signed_decimal r.0 ++ 32 ∷ r.1.now) × (unsigned_abs r.0 ≤ 2 ^ 40)) }
{
    let (word, rest) = numbers.split_once(' ')?;
    Some((coordinate(word)?, rest))
}

// The coordinate that a word spells. A number has one spelling, so what was read is written again.
fn coordinate(word: &str) -> Option<i64>
    ensures { MatchOption result
        ((z : ℤ) → unsigned_abs z ≤ 2 ^ 40 → word.now ≢ signed_decimal z)
        (λ z. (word.now ≡ signed_decimal z) × (unsigned_abs z ≤ 2 ^ 40)) }
{
    let z = word.parse::<i64>().ok()?;
    let mut digits = Buffer::new();
    if digits.format(z) == word && z.unsigned_abs() <= FARTHEST {
        Some(z)
    } else {
        None
    }
}

// The tolerance that a word spells.
fn tolerance(word: &str) -> Option<u32>
    ensures { MatchOption result
        ((n : ℕ) → n < 2 ^ 32 → word.now ≢ decimal n)
        (λ n. word.now ≡ decimal n) }
{
    let n = word.parse::<u32>().ok()?;
    let mut digits = Buffer::new();
    if digits.format(n) == word {
        Some(n)
    } else {
        None
    }
}
