// Points in half-units, names of tetrahedra, and short lists of centres.
ghost use Rattle.std.specs.Prelude.{◌≡◌, ◌↔◌, ◌<◌, ◌≤◌, [], ◌∷◌, ◌++◌, length, slice_get, Some, IsSome, IfSome};
ghost use Rattle.tpz_base.specs.Points.{point_scale};
ghost use Rattle.tetra_name.specs.Names.{point_of, IsWhole};

use std::marker::Model;
use tpz_base::Point;

/// A point in half-units: each coordinate is twice that in whole scaled units. Ordered by x, then y, then z.
#[derive(Clone, Copy, Debug, PartialEq, Eq, PartialOrd, Ord)]
pub struct Half {
    pub x: u32,
    pub y: u32,
    pub z: u32,
}

/// The name of a tetrahedron: the midpoint of its bisected edge, and its place among the tetrahedra with this midpoint, counted from 0 in
/// descending order of their corners.
#[derive(Clone, Copy, Debug, PartialEq, Eq, PartialOrd, Ord)]
pub struct Tet {
    pub centre: Half,
    pub slot: u8,
}

/// At most eight centres, ascending.
#[derive(Debug, Drop)]
pub struct Halves {
    points: [Half; 8],
    count: u8,
}

impl Model for Halves {
    ghost use Rattle.std.specs.Prelude.{List, length, take, ◌≡◌, ◌≤◌};
    ghost use Rattle.tetra_name.specs.declared.shape.Half.{Half};

    ghost Value = { List Half };

    ghost view = { λ h. take h.count h.points };

    ghost invariant = { λ h. (h.count ≤ 8) × (length h.points ≡ 8) };
}

impl Halves {
    /// No centres.
    pub(crate) fn new() -> Self
        ensures { result ≡ [] }
    {
        Halves {
            points: [Half { x: 0, y: 0, z: 0 }; 8],
            count: 0,
        }
    }

    /// Adds a centre at the end.
    #[inline]
    pub(crate) fn push(&mut self, c: Half)
        requires { length self.old < 8 }
        ensures { self.new ≡ self.old ++ c ∷ [] }
    {
        self.points[self.count as usize] = c;
        self.count += 1;
    }

    /// How many centres there are.
    #[inline]
    pub fn len(&self) -> u8
        ensures len { result ≡ length self.now }
        ensures few { result ≤ 8 }
    {
        self.count
    }

    /// The centre at a place, counted from 0.
    #[inline]
    pub fn at(&self, i: u8) -> Half
        requires { i < length self.now }
        ensures { slice_get self.now i ≡ Some result }
    {
        self.points[i as usize]
    }
}

/// The same point in whole units. None comes exactly where a coordinate is odd.
#[inline]
pub fn whole_point(c: Half) -> Option<Point>
    ensures whole { IsSome result ↔ IsWhole (point_of c) }
    ensures value { IfSome result (λ p. point_of c ≡ point_scale 2 p) }
{
    if c.x % 2 == 0 && c.y % 2 == 0 && c.z % 2 == 0 {
        Some(Point {
            x: c.x / 2,
            y: c.y / 2,
            z: c.z / 2,
        })
    } else {
        None
    }
}
