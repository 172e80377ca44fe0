// What the elements of a header are used for.
ghost use Rattle.std.specs.Prelude.{◌≡◌, ◌≤◌, ◌++◌, length, map, take, IfOk};
ghost use Rattle.std.specs.List.{before_first, after_first, position_or_len};
ghost use Rattle.ply_head.specs.declared.element.Used.TheVariants.{Other};
ghost use Rattle.ply_head.specs.Headers.{Named, used_elements, element_of, vertex_of, face_of, from_first, is_face, is_scalar, is_index_list};
ghost use Rattle.ply_head.specs.Roles.{put_role};

use crate::checks::{first_face, first_vertex, is_index_list, is_scalar};
use crate::seen::{Declared, Named};
use crate::{Element, Property, Role, Used};
use std::alloc::{AllocError, Global};

/// The elements with what they are used for: the first vertex element, and the first face element behind it.
pub fn used_elements(alloc: Global, declared: &[Declared]) -> Result<Vec<Element>, AllocError>
    ensures { IfOk result (λ elements. elements.items ≡ used_elements declared.now) }
{
    let mut elements = Vec::new(alloc);
    let at = first_vertex(declared);
    push_others(alloc, &declared[..at], &mut elements)?;
    if at < declared.len() {
        let vertex = vertex_of(alloc, &declared[at])?;
        elements.push(vertex)?;
        push_behind(alloc, &declared[at + 1..], &mut elements)?;
    }
    Ok(elements)
}

// Adds the elements behind the used vertex element.
fn push_behind(
    alloc: Global,
    declared: &[Declared],
    elements: &mut Vec<Element>,
) -> Result<(), AllocError>
    ensures { IfOk result (λ _. elements.new.items ≡ elements.old.items ++ (map (element_of Other) (before_first is_face declared.now)
        ++ map face_of (take 1 (from_first is_face declared.now)) ++ map (element_of Other) (after_first is_face declared.now))) }
{
    let at = first_face(declared);
    push_others(alloc, &declared[..at], elements)?;
    if at < declared.len() {
        let face = face_of(alloc, &declared[at])?;
        elements.push(face)?;
        push_others(alloc, &declared[at + 1..], elements)?;
    }
    Ok(())
}

// Adds elements that aren't used.
fn push_others(
    alloc: Global,
    declared: &[Declared],
    elements: &mut Vec<Element>,
) -> Result<(), AllocError>
    ensures { IfOk result (λ _. elements.new.items ≡ elements.old.items ++ map (element_of Other) declared.now) }
{
    for element in declared {
        let other = other_of(alloc, element)?;
        elements.push(other)?;
    }
    Ok(())
}

fn other_of(alloc: Global, declared: &Declared) -> Result<Element, AllocError>
    ensures { IfOk result (λ element. element ≡ element_of Other declared.now) }
{
    let properties = properties_of(alloc, declared.properties.as_slice())?;
    Ok(Element::new(declared.count, Used::Other, properties))
}

// The first scalar of each of the names x, y and z is a coordinate.
fn vertex_of(alloc: Global, declared: &Declared) -> Result<Element, AllocError>
    ensures { IfOk result (λ element. element ≡ vertex_of declared.now) }
{
    let named = declared.properties.as_slice();
    let mut properties = properties_of(alloc, named)?;
    put_role(&mut properties, first_scalar(named, b"z"), Role::Z);
    put_role(&mut properties, first_scalar(named, b"y"), Role::Y);
    put_role(&mut properties, first_scalar(named, b"x"), Role::X);
    Ok(Element::new(declared.count, Used::Vertex, properties))
}

// The first list of vertex indices has the corners.
fn face_of(alloc: Global, declared: &Declared) -> Result<Element, AllocError>
    ensures { IfOk result (λ element. element ≡ face_of declared.now) }
{
    let named = declared.properties.as_slice();
    let mut properties = properties_of(alloc, named)?;
    put_role(&mut properties, first_index_list(named), Role::Indices);
    Ok(Element::new(declared.count, Used::Face, properties))
}

// The properties without their names.
fn properties_of(alloc: Global, named: &[Named]) -> Result<Vec<Property>, AllocError>
    ensures { IfOk result (λ properties. properties.items ≡ map (λ (n : Named). n.property) named.now) }
{
    named.iter().map(|n| n.property).collect(alloc)
}

// The property at this place, if there is one, has this role.
fn put_role(properties: &mut Vec<Property>, at: usize, role: Role)
    ensures { properties.new.items ≡ put_role at role properties.old.items }
{
    if at < properties.len() {
        properties[at].role = role;
    }
}

// Where the first scalar of this name stands, or the length.
fn first_scalar(named: &[Named], name: &[u8]) -> usize
    ensures { result ≡ position_or_len (is_scalar name.now) named.now }
{
    for (i, n) in named.iter().enumerate() {
        if is_scalar(n, name) {
            return i;
        }
    }
    named.len()
}

// Where the first list of vertex indices stands, or the length.
fn first_index_list(named: &[Named]) -> usize
    ensures { result ≡ position_or_len is_index_list named.now }
{
    for (i, n) in named.iter().enumerate() {
        if is_index_list(n) {
            return i;
        }
    }
    named.len()
}
