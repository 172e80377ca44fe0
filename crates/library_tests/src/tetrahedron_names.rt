// The worked examples, and every name of the two smallest cubes against plain bisection of tuples.
ghost use Rattle.std.specs.Prelude.{◌≡◌, ◌<◌, IfSome};
ghost use Rattle.tetra_name.specs.Names.{point_of, IsBound, IsCentre, IsName};

use std::alloc::{AllocError, Global};
use std::process::Abort;
use std::test::Fail;
use tetra_name::{
    Half, Halves, Tet, child, corners, is_centre, kids_of, level, member_count, parent, parents_of,
    root, whole_point,
};

/// A centre or a corner in half-units.
fn half(x: u32, y: u32, z: u32) -> Half {
    Half { x, y, z }
}

/// The name of a centre and a slot, where there is one.
fn name(centre: Half, slot: u8, l: u8) -> Option<Tet>
    requires { IsBound l }
    ensures name { IfSome result (λ t. IsName l t) }
    ensures centre { IfSome result (λ t. IsCentre l (point_of t.centre)) }
{
    if !is_centre(centre, l) {
        return None;
    }
    if slot >= member_count(centre, l) {
        return None;
    }
    Some(Tet { centre, slot })
}

#[test]
fn the_roots_and_their_children_have_the_worked_corners(rt: HostRuntime) {
    let t = root(0, 2);
    assert_eq!(rt; t.centre, half(4, 4, 4));
    assert_eq!(rt;
        corners(t, 2),
        [half(0, 0, 0), half(8, 0, 0), half(8, 8, 0), half(8, 8, 8)]
    );
    let first = child(t, 0, 2);
    assert_eq!(rt;
        first,
        Tet {
            centre: half(4, 4, 0),
            slot: 0
        }
    );
    assert_eq!(rt;
        corners(first, 2),
        [half(0, 0, 0), half(8, 0, 0), half(8, 8, 0), half(4, 4, 4)]
    );
    let second = child(t, 1, 2);
    assert_eq!(rt;
        second,
        Tet {
            centre: half(8, 4, 4),
            slot: 0
        }
    );
    assert_eq!(rt;
        corners(second, 2),
        [half(8, 0, 0), half(8, 8, 0), half(8, 8, 8), half(4, 4, 4)]
    );
}

#[test]
fn named_tetrahedra_have_the_worked_corners(rt: HostRuntime) {
    for (l, centre, slot, want) in [
        (
            2,
            half(4, 4, 0),
            1,
            [half(0, 0, 0), half(0, 8, 0), half(8, 8, 0), half(4, 4, 4)],
        ),
        (
            1,
            half(2, 0, 0),
            0,
            [half(0, 0, 0), half(4, 0, 0), half(2, 2, 0), half(2, 2, 2)],
        ),
        (
            1,
            half(2, 0, 0),
            1,
            [half(0, 0, 0), half(4, 0, 0), half(2, 0, 2), half(2, 2, 2)],
        ),
    ] {
        assert!(rt; l == 1 || l == 2);
        let found = name(centre, slot, l);
        assert!(rt; found.is_some());
        if let Some(t) = found {
            assert_eq!(rt; corners(t, l), want);
        }
    }
}

#[test]
fn the_second_child_of_an_edge_starts_at_its_other_end(rt: HostRuntime) {
    let found = name(half(2, 0, 0), 0, 1);
    assert!(rt; found.is_some());
    if let Some(t) = found {
        assert!(rt; level(t.centre, 1) < 3);
        let second = child(t, 1, 1);
        assert_eq!(rt;
            corners(second, 1),
            [half(4, 0, 0), half(2, 0, 0), half(2, 2, 0), half(2, 2, 2)]
        );
    }
}

#[test]
fn centres_have_the_counts_of_their_kind_and_place(rt: HostRuntime) {
    for (centre, members, parents, kids) in [
        (half(4, 4, 4), 6, 0, 6),
        (half(2, 2, 2), 6, 3, 6),
        (half(4, 4, 0), 2, 1, 4),
        (half(4, 2, 2), 4, 2, 4),
        (half(2, 4, 4), 8, 4, 8),
        (half(2, 4, 0), 4, 3, 4),
        (half(2, 0, 0), 2, 2, 2),
    ] {
        assert!(rt; is_centre(centre, 2));
        assert_eq!(rt; member_count(centre, 2), members);
        assert_eq!(rt; parents_of(centre, 2).len(), parents);
        assert!(rt; level(centre, 2) < 6);
        assert_eq!(rt; kids_of(centre, 2).len(), kids, "at {centre:?}");
    }
}

/// A tetrahedron as a tuple with a level.
#[derive(Clone, Copy)]
struct Tuple {
    level: u8,
    corners: [Half; 4],
}

fn middle(a: Half, b: Half) -> Half {
    half(
        a.x.wrapping_add(b.x) / 2,
        a.y.wrapping_add(b.y) / 2,
        a.z.wrapping_add(b.z) / 2,
    )
}

/// The midpoint of the bisected edge.
fn centre_of(t: &Tuple) -> Half {
    let [x0, x1, x2, x3] = t.corners;
    match t.level % 3 {
        0 => middle(x0, x3),
        1 => middle(x0, x2),
        _ => middle(x0, x1),
    }
}

/// A child by the rule of bisection.
fn bisected(t: &Tuple, which: u8) -> Tuple {
    let [x0, x1, x2, x3] = t.corners;
    let z = centre_of(t);
    let corners = match (t.level % 3, which) {
        (0, 0) => [x0, x1, x2, z],
        (1, 0) => [x0, x1, z, x3],
        (_, 0) => [x0, z, x2, x3],
        (0, _) => [x1, x2, x3, z],
        (1, _) => [x1, x2, z, x3],
        _ => [x1, z, x2, x3],
    };
    Tuple {
        level: t.level.wrapping_add(1),
        corners,
    }
}

/// The roots in order, and all that bisection makes of them down to level 3l.
fn all_tuples(alloc: Global, l: u8) -> Result<Vec<Tuple>, AllocError>
    requires { IsBound l }
{
    let s: u32 = 2 << l;
    let (o, x, y, z) = (half(0, 0, 0), half(s, 0, 0), half(0, s, 0), half(0, 0, s));
    let (xy, xz, yz, far) = (half(s, s, 0), half(s, 0, s), half(0, s, s), half(s, s, s));
    let mut level = Vec::new(alloc);
    for (a, b) in [(x, xy), (x, xz), (y, xy), (y, yz), (z, xz), (z, yz)] {
        level.push(Tuple {
            level: 0,
            corners: [o, a, b, far],
        })?;
    }
    let mut all = Vec::new(alloc);
    for n in 0..3 * l + 1 {
        let mut next = Vec::new(alloc);
        for t in &level {
            all.push(*t)?;
            if n < 3 * l {
                next.push(bisected(t, 0))?;
                next.push(bisected(t, 1))?;
            }
        }
        level = next;
    }
    Ok(all)
}

/// Whether the first list of corners is greater.
fn is_greater(s: &Tuple, t: &Tuple) -> bool {
    let ([a, b, c, d], [e, f, g, h]) = (s.corners, t.corners);
    (a, (b, (c, d))) > (e, (f, (g, h)))
}

/// The tuple's name: its centre, and how many tuples of that centre are greater.
fn plain_name(all: &[Tuple], t: &Tuple) -> (Half, usize) {
    let centre = centre_of(t);
    let slot = all
        .iter()
        .filter(|s| centre_of(*s) == centre && is_greater(*s, t))
        .count();
    (centre, slot)
}

/// The centres of the children of a centre's tuples.
fn plain_kids(alloc: Global, all: &[Tuple], centre: Half) -> Result<Vec<Half>, AllocError> {
    let mut found = Vec::new(alloc);
    for t in all {
        if centre_of(t) == centre {
            found.push(centre_of(&bisected(t, 0)))?;
            found.push(centre_of(&bisected(t, 1)))?;
        }
    }
    found.sort()?;
    found.dedup();
    Ok(found)
}

/// The centres of the tuples that have a child of this centre.
fn plain_parents(alloc: Global, all: &[Tuple], centre: Half) -> Result<Vec<Half>, AllocError> {
    let mut found = Vec::new(alloc);
    for t in all {
        if centre_of(&bisected(t, 0)) == centre || centre_of(&bisected(t, 1)) == centre {
            found.push(centre_of(t))?;
        }
    }
    found.sort()?;
    found.dedup();
    Ok(found)
}

/// The same centres, as a list that can be compared.
fn listed(alloc: Global, halves: &Halves) -> Result<Vec<Half>, AllocError> {
    let mut found = Vec::new(alloc);
    for i in 0..halves.len() {
        found.push(halves.at(i))?;
    }
    Ok(found)
}

/// The tuple's name answers as its tuple does.
fn check_name(rt: &impl Abort, all: &[Tuple], t: &Tuple, l: u8)
    requires { IsBound l }
{
    let (centre, slot) = plain_name(all, t);
    assert!(rt; slot < 8);
    let found = name(centre, slot as u8, l);
    assert!(rt; found.is_some());
    if let Some(n) = found {
        assert_eq!(rt; corners(n, l), t.corners);
        assert_eq!(rt; level(n.centre, l), t.level);
        if level(n.centre, l) < 3 * l {
            check_child(rt, all, t, n, 0, l);
            check_child(rt, all, t, n, 1, l);
        }
        assert_eq!(rt; parent(n, l).is_none(), t.level == 0);
    }
}

/// The child of a name is the name of the child, and leads back.
fn check_child(rt: &impl Abort, all: &[Tuple], t: &Tuple, n: Tet, which: u8, l: u8)
    requires bound { IsBound l }
    requires name { IsName l n }
    requires centre { IsCentre l (point_of n.centre) }
    requires which { which < 2 }
{
    if level(n.centre, l) < 3 * l {
        let m = child(n, which, l);
        let (centre, slot) = plain_name(all, &bisected(t, which));
        assert_eq!(rt; m.centre, centre);
        assert_eq!(rt; m.slot as usize, slot);
        assert_eq!(rt; parent(m, l), Some((n, which)));
    }
}

/// A centre answers as the tuples that have it do.
fn check_centre(
    rt: &impl Abort,
    alloc: Global,
    all: &[Tuple],
    centre: Half,
    l: u8,
) -> Result<(), AllocError>
    requires { IsBound l }
{
    assert!(rt; is_centre(centre, l));
    let count = all.iter().filter(|t| centre_of(*t) == centre).count();
    assert_eq!(rt; member_count(centre, l) as usize, count);
    let parents = plain_parents(alloc, all, centre)?;
    assert_eq!(rt; listed(alloc, &parents_of(centre, l))?, parents);
    if level(centre, l) < 3 * l {
        let kids = plain_kids(alloc, all, centre)?;
        assert_eq!(rt; listed(alloc, &kids_of(centre, l))?, kids);
    }
    Ok(())
}

#[test]
fn every_name_of_two_small_cubes_is_its_tuple(rt: HostRuntime) -> Result<(), Fail> {
    for (l, count) in [(1, 90), (2, 762)] {
        assert!(rt; l == 1 || l == 2);
        let all = all_tuples(rt.alloc(), l)?;
        assert_eq!(rt; all.len(), count);
        for t in &all {
            check_name(&rt, &all, t, l);
        }
    }
    Ok(())
}

#[test]
fn every_centre_of_two_small_cubes_has_its_members_parents_and_kids(
    rt: HostRuntime,
) -> Result<(), Fail> {
    for l in [1, 2] {
        assert!(rt; l == 1 || l == 2);
        let all = all_tuples(rt.alloc(), l)?;
        let mut centres = Vec::new(rt.alloc());
        for t in &all {
            centres.push(centre_of(t))?;
        }
        centres.sort()?;
        centres.dedup();
        for c in &centres {
            check_centre(&rt, rt.alloc(), &all, *c, l)?;
        }
    }
    Ok(())
}

#[test]
fn a_point_is_a_centre_by_its_coordinates(rt: HostRuntime) {
    for (centre, l, want) in [
        (half(4, 4, 4), 2, true),
        (half(0, 0, 0), 2, false),
        (half(8, 0, 8), 2, false),
        (half(8, 8, 4), 2, true),
        (half(1, 3, 5), 2, true),
        (half(1, 2, 3), 2, false),
        (half(2, 0, 6), 2, true),
        (half(10, 2, 2), 2, false),
    ] {
        assert!(rt; l == 2);
        assert_eq!(rt; is_centre(centre, l), want, "at {centre:?}");
    }
    assert_eq!(rt;
        whole_point(half(4, 2, 0)),
        Some(tpz_base::Point { x: 2, y: 1, z: 0 })
    );
    assert_eq!(rt; whole_point(half(4, 3, 0)), None);
}
