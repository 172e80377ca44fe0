// The triangle of three corners, whose points are in the blob.
ghost use Rattle.std.specs.Prelude.{◌≡◌, ◌≤◌, ◌<◌, List, IfOk, IfErr};
ghost use Rattle.std.specs.Option.{ForSome};
ghost use Rattle.tpz_base.specs.Cubes.{Row, IsInCube, IsTriInCube};
ghost use Rattle.ply_body.specs.Inputs.{point_at, triangle_at};
ghost use Rattle.ply_body.specs.Spots.{spots_of, AreSpots, HoldsPoints, HoldsRows, IsSmallFrame};
ghost use Rattle.ply_body.specs.Places.{face_of, IsNear, IsWorkReason};

use crate::fault::BodyFault;
use crate::frame::Frame;
use crate::polygon::Corners;
use crate::spots::{PointBuffer, PointFault};
use tpz_base::{Point, Tri};
use tpz_io::Blob;

// The point of a corner.
fn point_of<B: Blob>(
    buffer: &mut PointBuffer,
    points: &mut B,
    frame: &Frame,
    number: u32,
) -> Result<Point, BodyFault>
    requires number { number < frame.now.vertices }
    requires small { IsSmallFrame frame.now }
    requires points { ForSome (B.held points.old) (HoldsPoints frame.now) }
    ensures point { IfOk result (λ p. ForSome (B.held points.old) (λ bytes. (low : Row) (rows : List Row)
        → AreSpots frame.now low rows → HoldsRows rows bytes → p ≡ point_at (spots_of low rows) number)) }
    ensures cube { IfOk result (IsInCube frame.now.l) }
    ensures failed { IfErr result (IsWorkReason (B.held points.old) (B.faults points.old) (B.faults points.new)) }
    ensures held { B.held points.new ≡ B.held points.old }
    ensures later { B.faults points.old ≤ B.faults points.new }
{
    match buffer.read_point(points, frame, number) {
        Ok(point) => Ok(point),
        Err(PointFault::Failed) => Err(BodyFault::WorkFault),
        Err(PointFault::Damage { offset }) => Err(BodyFault::WorkDamage { offset }),
    }
}

/// The triangle of three corners.
pub fn tri_of<B: Blob>(
    buffer: &mut PointBuffer,
    points: &mut B,
    frame: &Frame,
    corners: Corners,
) -> Result<Tri, BodyFault>
    requires corners { IsNear frame.now.vertices corners }
    requires small { IsSmallFrame frame.now }
    requires points { ForSome (B.held points.old) (HoldsPoints frame.now) }
    ensures tri { IfOk result (λ t. ForSome (B.held points.old) (λ bytes. (low : Row) (rows : List Row)
        → AreSpots frame.now low rows → HoldsRows rows bytes → t ≡ triangle_at (spots_of low rows) (face_of corners))) }
    ensures cube { IfOk result (IsTriInCube frame.now.l) }
    ensures failed { IfErr result (IsWorkReason (B.held points.old) (B.faults points.old) (B.faults points.new)) }
    ensures held { B.held points.new ≡ B.held points.old }
    ensures later { B.faults points.old ≤ B.faults points.new }
{
    let a = point_of(buffer, points, frame, corners.i)?;
    let b = point_of(buffer, points, frame, corners.j)?;
    let c = point_of(buffer, points, frame, corners.k)?;
    Ok(Tri { a, b, c })
}
