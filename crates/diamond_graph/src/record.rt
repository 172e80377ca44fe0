// Records of diamonds, and centres as points.
ghost use Rattle.std.specs.Prelude.{◌≡◌};
ghost use Rattle.tetra_name.specs.Names.{point_of};
ghost use Rattle.diamond_graph.specs.Graphs.{fresh_record, halved};

use tetra_name::Half;
use tpz_base::{Cell, Point};

/// What is known of a diamond: its centre in half-units; how far its own simplification moved a vertex, and how far a vertex may be from
/// where the input had it, both in whole scaled units and in the max-norm; and a box in whole scaled units round it and its kids.
#[derive(Clone, Copy, Debug, PartialEq, Eq)]
pub struct Record {
    pub centre: Half,
    pub own: u32,
    pub err: u64,
    pub cell: Cell,
}

/// The same three numbers as a point, which has a hash. Its unit is half a whole unit.
#[inline]
pub(crate) fn key(c: Half) -> Point
    ensures { result ≡ point_of c }
{
    Point {
        x: c.x,
        y: c.y,
        z: c.z,
    }
}

/// The centre with these three numbers.
#[inline]
pub(crate) fn centre(p: Point) -> Half
    ensures { point_of result ≡ p }
{
    Half {
        x: p.x,
        y: p.y,
        z: p.z,
    }
}

/// The centre in whole units.
#[inline]
pub(crate) fn whole(c: Half) -> Point
    ensures { result ≡ halved (point_of c) }
{
    Point {
        x: c.x / 2,
        y: c.y / 2,
        z: c.z / 2,
    }
}

/// The record of a diamond that nothing is known of: no error, and its centre as box.
pub(crate) fn fresh(c: Half) -> Record
    ensures { result ≡ fresh_record (point_of c) }
{
    let at = whole(c);
    Record {
        centre: c,
        own: 0,
        err: 0,
        cell: Cell { lo: at, hi: at },
    }
}
