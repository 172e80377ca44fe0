// Whether a part is closed.
use std::alloc::{AllocError, Global};

// The number before the first blank, and what stands behind that.
fn first_number(line: &str) -> Option<(u32, &str)> {
    let (word, rest) = line.split_once(' ')?;
    Some((word.parse::<u32>().ok()?, rest))
}

// The vertices in a line of a triangle; a line of a vertex, which has three words, has none.
fn corners_of(line: &str) -> Option<(u32, u32, u32)> {
    let rest = line.strip_prefix("3 ")?;
    let (a, rest) = first_number(rest)?;
    let (b, rest) = first_number(rest)?;
    Some((a, b, rest.parse::<u32>().ok()?))
}

// Adds the directed edges of a triangle.
fn add_edges(edges: &mut Vec<(u32, u32)>, a: u32, b: u32, c: u32) -> Result<(), AllocError> {
    edges.push((a, b))?;
    edges.push((b, c))?;
    edges.push((c, a))?;
    Ok(())
}

/// Whether each directed edge of the triangles of a part is there as often as the edge back. A part without a triangle isn't
/// closed.
pub fn is_closed(alloc: Global, part: &str) -> Result<bool, AllocError> {
    let Some((_, lines)) = part.split_once("end_header\n") else {
        return Ok(false);
    };
    let mut there = Vec::new(alloc);
    let mut back = Vec::new(alloc);
    for line in lines.split('\n') {
        if let Some((a, b, c)) = corners_of(line) {
            add_edges(&mut there, a, b, c)?;
            add_edges(&mut back, c, b, a)?;
        }
    }
    there.sort()?;
    back.sort()?;
    Ok(!there.is_empty() && there == back)
}
