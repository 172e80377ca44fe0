// The least and the greatest coordinates of the rows that came, and the frame of these rows.
ghost use Rattle.std.specs.Prelude.{◌≡◌, ◌≤◌, ◌++◌, ◌∷◌, ◌-ℤ◌, [], ℤ, unsigned_abs, List, All, length, None, IfSome};
ghost use Rattle.tpz_base.specs.Cubes.{least as least_of, most, natural_of, widest, Row};
ghost use Rattle.ply_body.specs.Bodies.{too_wide as too_wide_of, wide as wide_of};
ghost use Rattle.ply_body.specs.Hulls.{level_from, lower, higher, HasHull, IsExtent, IsHullOf};
ghost use Rattle.ply_body.specs.Spots.{coordinates, row_of, IsFrameOf, IsSmallFrame, IsSmallRow};

use crate::fault::BodyFault;
use crate::frame::Frame;
use crate::spots::{Spot, side_of};

// The greatest extent on an axis.
const WIDEST: u32 = 1_073_741_824;

/// The least and the greatest coordinates of some rows.
#[derive(Clone, Copy)]
pub struct Hull {
    pub low: Spot,
    pub high: Spot,
}

fn lesser(a: Spot, b: Spot) -> Spot
    ensures { row_of result ≡ lower (row_of a) (row_of b) }
{
    Spot {
        x: a.x.min(b.x),
        y: a.y.min(b.y),
        z: a.z.min(b.z),
    }
}

fn greater(a: Spot, b: Spot) -> Spot
    ensures { row_of result ≡ higher (row_of a) (row_of b) }
{
    Spot {
        x: a.x.max(b.x),
        y: a.y.max(b.y),
        z: a.z.max(b.z),
    }
}

/// With one row more.
pub fn widened(hull: Option<Hull>, spot: Spot) -> Hull
    ensures { (rows : List Row) → IsHullOf hull rows → HasHull result (rows ++ row_of spot ∷ []) }
{
    match hull {
        Some(hull) => Hull {
            low: lesser(hull.low, spot),
            high: greater(hull.high, spot),
        },
        None => Hull {
            low: spot,
            high: spot,
        },
    }
}

fn extent(least: i32, greatest: i32) -> u32
    ensures { result ≡ natural_of (greatest -ℤ least) }
{
    (i64::from(greatest) - i64::from(least)).max(0) as u32
}

fn wide(axis: u8, least: i32, greatest: i32) -> Option<BodyFault>
    ensures wide { (values : List ℤ) → least_of values ≡ least → most values ≡ greatest → result ≡ wide_of axis values }
    ensures extent { IfSome result IsExtent }
{
    if extent(least, greatest) > WIDEST {
        return Some(BodyFault::Extent {
            axis,
            least: i64::from(least),
            greatest: i64::from(greatest),
        });
    }
    None
}

fn too_wide_hull(hull: Hull) -> Option<BodyFault>
    ensures first { (rows : List Row) → HasHull hull rows → result ≡ too_wide_of rows }
    ensures extent { IfSome result IsExtent }
{
    let Hull { low, high } = hull;
    let on_x = wide(0, low.x, high.x);
    let on_y = wide(1, low.y, high.y);
    let on_z = wide(2, low.z, high.z);
    on_x.or(on_y.or(on_z))
}

/// The first axis that is too wide.
pub fn too_wide(hull: Option<Hull>) -> Option<BodyFault>
    ensures first { (rows : List Row) → IsHullOf hull rows → result ≡ too_wide_of rows }
    ensures extent { IfSome result IsExtent }
{
    match hull {
        Some(hull) => too_wide_hull(hull),
        None => None,
    }
}

// The level of a cube of this side at least; 30 where there is none.
fn level_of(width: u32) -> u8
    ensures level { result ≡ level_from 1 30 width }
    ensures low { 1 ≤ result }
    ensures high { result ≤ 30 }
{
    'levels: for level in 1..30 {
        if width <= side_of(level) {
            return level;
        }
    }
    30
}

fn coordinates_of(spot: Spot) -> [i64; 3]
    requires { IsSmallRow (row_of spot) }
    ensures coordinates { result ≡ coordinates (row_of spot) }
    ensures small { All (λ z. unsigned_abs z ≤ 2147483647) result }
{
    [i64::from(spot.x), i64::from(spot.y), i64::from(spot.z)]
}

fn width_of(hull: Hull) -> u32
    ensures { (rows : List Row) → HasHull hull rows → result ≡ widest rows }
{
    let Hull { low, high } = hull;
    let on_x = extent(low.x, high.x);
    let on_y = extent(low.y, high.y);
    let on_z = extent(low.z, high.z);
    on_x.max(on_y.max(on_z))
}

fn frame_of_hull(hull: Hull, vertices: u64) -> Frame
    requires few { vertices ≤ 2147483648 }
    requires low { IsSmallRow (row_of hull.low) }
    ensures frame { (rows : List Row) → HasHull hull rows → length rows ≡ vertices → too_wide_of rows ≡ None
        → All IsSmallRow rows → IsFrameOf result rows }
    ensures small { IsSmallFrame result }
{
    Frame {
        l: level_of(width_of(hull)),
        low: coordinates_of(hull.low),
        vertices,
        end: 12 * vertices,
    }
}

/// The frame of rows that aren't too wide.
pub fn frame_of(hull: Option<Hull>, vertices: u64) -> Frame
    requires few { vertices ≤ 2147483648 }
    requires low { IfSome hull (λ h. IsSmallRow (row_of h.low)) }
    ensures frame { (rows : List Row) → IsHullOf hull rows → length rows ≡ vertices → too_wide_of rows ≡ None
        → All IsSmallRow rows → IsFrameOf result rows }
    ensures small { IsSmallFrame result }
{
    match hull {
        Some(hull) => frame_of_hull(hull, vertices),
        None => Frame {
            l: 1,
            low: [0; 3],
            vertices: 0,
            end: 0,
        },
    }
}
