// Single steps.
use crate::closed::is_closed;
use crate::devices::{Ran, Settings};
use crate::texts::{binary_head_of, bytes_of, lines_of, mesh_of, number_of, numbers_of};
use std::alloc::{AllocError, Global};
use std::str;

/// What a step that expects something comes to.
#[derive(Drop)]
pub enum Expected {
    There,
    Other(String),
    NoStep,
}

/// Sets what a device begins the next run with, and gives what is wrong with the step.
pub fn set(
    alloc: Global,
    step: &str,
    rest: &str,
    settings: &mut Settings,
    ran: Option<&mut Ran>,
) -> Result<Option<String>, AllocError> {
    let is_set = match step {
        "input" => is_kept(&mut settings.input.bytes, Some(lines_of(alloc, rest)?)),
        "mesh" => is_kept(&mut settings.input.bytes, mesh_of(alloc, rest)?),
        "binary" => is_kept(
            &mut settings.input.bytes,
            Some(binary_head_of(alloc, rest)?),
        ),
        "more" => has_more(&mut settings.input.bytes, alloc, rest)?,
        "script" => is_kept(&mut settings.script.bytes, Some(lines_of(alloc, rest)?)),
        "store" => is_kept(&mut settings.store.bytes, bytes_of(alloc, rest)?),
        "byte" => has_byte_changed(&mut settings.store.bytes, rest)?,
        "cut" => has_been_cut(&mut settings.store.bytes, rest),
        "again" => is_kept(&mut settings.input.bytes, first_part(alloc, ran)?),
        "work_room" => is_room_set(&mut settings.work.room, rest),
        "store_room" => is_room_set(&mut settings.store.room, rest),
        "out_room" => is_room_set(&mut settings.out.room, rest),
        "input_fails" => is_kept(&mut settings.input.fails, numbers_of(alloc, rest)?),
        "script_fails" => is_kept(&mut settings.script.fails, numbers_of(alloc, rest)?),
        "work_fails" => is_kept(&mut settings.work.fails, numbers_of(alloc, rest)?),
        "store_fails" => is_kept(&mut settings.store.fails, numbers_of(alloc, rest)?),
        "out_fails" => is_kept(&mut settings.out.fails, numbers_of(alloc, rest)?),
        _ => false,
    };
    if is_set {
        Ok(None)
    } else {
        Ok(Some(String::from_str(alloc, "no step")?))
    }
}

fn is_kept<T: Drop>(list: &mut Vec<T>, given: Option<Vec<T>>) -> bool {
    match given {
        Some(given) => {
            *list = given;
            true
        }
        None => false,
    }
}

fn first_part(alloc: Global, ran: Option<&mut Ran>) -> Result<Option<Vec<u8>>, AllocError> {
    match ran {
        Some(ran) => match ran.part(0) {
            Some(part) => Ok(Some(part.to_vec(alloc)?)),
            None => Ok(None),
        },
        None => Ok(None),
    }
}

fn is_room_set(room: &mut u32, rest: &str) -> bool {
    match rest.parse::<u32>() {
        Ok(given) => {
            *room = given;
            true
        }
        Err(_) => false,
    }
}

// Changes a byte, or adds one behind the end.
fn has_byte_changed(bytes: &mut Vec<u8>, rest: &str) -> Result<bool, AllocError> {
    let Some((place, value)) = rest.split_once(' ') else {
        return Ok(false);
    };
    let (Some(place), Ok(value)) = (number_of(place), value.parse::<u8>()) else {
        return Ok(false);
    };
    match bytes.get_mut(place as usize) {
        Some(byte) => *byte = value,
        None => bytes.push(value)?,
    }
    Ok(true)
}

// Adds these bytes, each below 256.
fn has_more(bytes: &mut Vec<u8>, alloc: Global, rest: &str) -> Result<bool, AllocError> {
    let Some(numbers) = numbers_of(alloc, rest)? else {
        return Ok(false);
    };
    for number in numbers.iter() {
        match u8::try_from(*number) {
            Ok(byte) => bytes.push(byte)?,
            Err(_) => return Ok(false),
        }
    }
    Ok(true)
}

fn has_been_cut(bytes: &mut Vec<u8>, rest: &str) -> bool {
    match number_of(rest) {
        Some(length) => {
            bytes.truncate(length as usize);
            true
        }
        None => false,
    }
}

/// Whether the last run left what the step says.
pub fn expect(
    alloc: Global,
    step: &str,
    rest: &str,
    ran: &mut Ran,
) -> Result<Expected, AllocError> {
    match step {
        "line" => same(alloc, ran.line.as_bytes(), rest.as_bytes()),
        "notes" => same(alloc, ran.out.notes(), &lines_of(alloc, rest)?),
        "parts" => same_number(alloc, ran.out.part_count() as u64, rest),
        "part" | "mesh_part" | "faces" | "closed" => expect_part(alloc, step, rest, ran),
        "left" => match bytes_of(alloc, rest)? {
            Some(bytes) => same(alloc, ran.store.bytes(), &bytes),
            None => Ok(Expected::NoStep),
        },
        "left_bytes" => same_number(alloc, ran.store.bytes().len() as u64, rest),
        "unused" => same_answer(alloc, ran.is_next_failing(rest)),
        _ => Ok(Expected::NoStep),
    }
}

fn expect_part(
    alloc: Global,
    step: &str,
    rest: &str,
    ran: &mut Ran,
) -> Result<Expected, AllocError> {
    let (place, text) = rest.split_once(' ').unwrap_or((rest, ""));
    let Some(place) = number_of(place) else {
        return Ok(Expected::NoStep);
    };
    let Some(part) = ran.part(place) else {
        return Ok(Expected::Other(String::from_str(alloc, "no such part")?));
    };
    match step {
        "closed" => same_answer(alloc, is_closed(alloc, text_of(part))?),
        "faces" => {
            let line = format!(in alloc; "\nelement face {text}\n")?;
            same_answer(alloc, text_of(part).contains(line.as_str()))
        }
        "part" => same(alloc, part, &lines_of(alloc, text)?),
        _ => match mesh_of(alloc, text)? {
            Some(wanted) => same(alloc, part, &wanted),
            None => Ok(Expected::NoStep),
        },
    }
}

// The text of a part, none where its bytes are no text.
fn text_of(part: &[u8]) -> &str {
    str::from_utf8(part).unwrap_or("")
}

fn same(alloc: Global, there: &[u8], wanted: &[u8]) -> Result<Expected, AllocError> {
    if there == wanted {
        return Ok(Expected::There);
    }
    let what = match str::from_utf8(there) {
        Ok(text) => format!(in alloc; "there is {text}")?,
        Err(_) => format!(in alloc; "there is {there:?}")?,
    };
    Ok(Expected::Other(what))
}

fn same_number(alloc: Global, there: u64, wanted: &str) -> Result<Expected, AllocError> {
    if number_of(wanted) == Some(there) {
        Ok(Expected::There)
    } else {
        Ok(Expected::Other(format!(in alloc; "there are {there}")?))
    }
}

fn same_answer(alloc: Global, answer: bool) -> Result<Expected, AllocError> {
    if answer {
        Ok(Expected::There)
    } else {
        Ok(Expected::Other(String::from_str(alloc, "it isn't so")?))
    }
}
