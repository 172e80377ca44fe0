// What the texts of steps stand for.
use crate::stores::{DOUBLED, SQUARE};
use std::alloc::{AllocError, Global};

// The text with line feeds in the place of its slashes.
pub fn lines_of(alloc: Global, text: &str) -> Result<Vec<u8>, AllocError> {
    let mut bytes = text.as_bytes().to_vec(alloc)?;
    for byte in bytes.iter_mut() {
        if *byte == b'/' {
            *byte = b'\n';
        }
    }
    Ok(bytes)
}

// The number of these digits, and None where they are none.
pub fn number_of(text: &str) -> Option<u64> {
    text.parse::<u64>().ok()
}

// The numbers between blanks, and None where a word is no number.
pub fn numbers_of(alloc: Global, text: &str) -> Result<Option<Vec<u64>>, AllocError> {
    let mut numbers = Vec::new(alloc);
    for word in text.split_whitespace() {
        match number_of(word) {
            Some(number) => numbers.push(number)?,
            None => return Ok(None),
        }
    }
    Ok(Some(numbers))
}

// The bytes of these 32-bit little-endian numbers, or of the worked store of this name.
pub fn bytes_of(alloc: Global, text: &str) -> Result<Option<Vec<u8>>, AllocError> {
    let text = match text {
        "square" => SQUARE,
        "doubled" => DOUBLED,
        _ => text,
    };
    let Some(numbers) = numbers_of(alloc, text)? else {
        return Ok(None);
    };
    let mut bytes = Vec::new(alloc);
    for number in numbers.iter() {
        match u32::try_from(*number) {
            Ok(number) => bytes.extend_from_slice(&number.to_le_bytes())?,
            Err(_) => return Ok(None),
        }
    }
    Ok(Some(bytes))
}

// The ASCII text of a mesh: how many vertices and faces there are, and their lines.
pub fn mesh_of(alloc: Global, text: &str) -> Result<Option<Vec<u8>>, AllocError> {
    let (counts, lines) = text.split_once('/').unwrap_or((text, ""));
    let Some((vertices, faces)) = counts.split_once(' ') else {
        return Ok(None);
    };
    let head = format!(in alloc;
        "ply/format ascii 1.0/comment tpz digits 0/element vertex {vertices}/property int x/property int y/property int z/element face {faces}/property list uchar int vertex_indices/end_header/"
    )?;
    let mut bytes = lines_of(alloc, head.as_str())?;
    bytes.extend_from_slice(&lines_of(alloc, lines)?)?;
    Ok(Some(bytes))
}

// The header of three vertices and a triangle in binary, the bytes of numbers in this order.
pub fn binary_head_of(alloc: Global, order: &str) -> Result<Vec<u8>, AllocError> {
    let head = format!(in alloc;
        "ply/format binary_{order}_endian 1.0/element vertex 3/property int x/property int y/property int z/element face 1/property list char int vertex_indices/end_header/"
    )?;
    lines_of(alloc, head.as_str())
}
