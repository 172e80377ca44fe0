// The points of an input in a blob: twelve bytes each, three coordinates in whole scaled units, with the lowest byte first.
ghost use Rattle.std.specs.Prelude.{◌≡◌, ◌≢◌, ◌≤◌, ◌<◌, ◌+◌, ◌*◌, ◌^◌, ◌++◌, ◌-ℤ◌, ◌≤ℤ◌, ◌<ℤ◌, pos, [], ◌∷◌, ℕ, List, length, take, unsigned_abs, vec_len, is_some, None, IfOk, IfSome, OnOk, Err};
ghost use Rattle.std.specs.Option.{ForSome};
ghost use Rattle.tpz_io.specs.Causes.{HasCause, Rose};
ghost use Rattle.tpz_base.specs.Cubes.{natural_of, Row, IsInCube};
ghost use Rattle.ply_body.specs.Inputs.{point_at};
ghost use Rattle.ply_body.specs.Spots.{coordinates, row_bytes, row_of, spots_of, AreSpots, HoldsPoints, HoldsRows, IsNear, IsPointOf, IsSmallFrame, IsSmallRow, Keeps};

use crate::frame::Frame;
use byteorder::{ByteOrder, LittleEndian};
use std::alloc::{AllocError, Global};
use std::marker::Model;
use tpz_base::Point;
use tpz_io::{Blob, Failed};

// How many bytes a row has.
const ROW: usize = 12;

// How many bytes are gathered: 5,461 rows.
const ROOM: usize = 65_532;

/// A row of the vertices, in whole scaled units: each at most 2,147,483,647 in absolute value.
#[derive(Clone, Copy)]
pub struct Spot {
    pub x: i32,
    pub y: i32,
    pub z: i32,
}

/// Why a point isn't read back: the blob failed, or what it gave isn't a point of the frame.
#[derive(Clone, Copy, Debug, PartialEq, Eq)]
pub enum PointFault {
    Failed,
    Damage { offset: u64 },
}

fn bytes_of(spot: Spot) -> [u8; ROW]
    ensures { result ≡ row_bytes (row_of spot) }
{
    let mut bytes = [0; ROW];
    LittleEndian::write_i32(&mut bytes, spot.x);
    LittleEndian::write_i32(&mut bytes[4..], spot.y);
    LittleEndian::write_i32(&mut bytes[8..], spot.z);
    bytes
}

fn spot_from(bytes: &[u8; ROW]) -> Spot
    ensures { (r : Row) → IsSmallRow r → bytes.now ≡ row_bytes r → row_of result ≡ r }
{
    Spot {
        x: LittleEndian::read_i32(bytes),
        y: LittleEndian::read_i32(&bytes[4..]),
        z: LittleEndian::read_i32(&bytes[8..]),
    }
}

// How far a coordinate is above the least one, at most so far.
fn above(value: i32, low: i64, side: u32) -> Option<u32>
    requires { unsigned_abs low ≤ 2147483647 }
    ensures distance { IfSome result (λ d. d ≡ natural_of (value -ℤ low)) }
    ensures within { IfSome result (λ d. d ≤ side) }
    ensures none { result ≡ None → low ≤ℤ value → side < natural_of (value -ℤ low) }
{
    let distance = i64::from(value) - low;
    if distance < 0 || distance > i64::from(side) {
        return None;
    }
    Some(distance as u32)
}

/// The side of the cube of a level, in whole scaled units.
pub fn side_of(level: u8) -> u32
    requires { level ≤ 30 }
    ensures { result ≡ 2 ^ level }
{
    1 << level
}

// The point of a row in the cube of a frame.
fn point_of(frame: &Frame, spot: Spot) -> Option<Point>
    requires { IsSmallFrame frame.now }
    ensures point { IfSome result (IsPointOf frame.now.l frame.now.low (row_of spot)) }
    ensures none { (low : Row) → frame.now.low ≡ coordinates low → IsNear frame.now.l low (row_of spot) → result ≢ None }
{
    let [x, y, z] = frame.low;
    let side = side_of(frame.l);
    Some(Point {
        x: above(spot.x, x, side)?,
        y: above(spot.y, y, side)?,
        z: above(spot.z, z, side)?,
    })
}

/// Rows on their way to a blob. Contracts see their bytes.
#[derive(Drop)]
pub struct PointBuffer {
    bytes: Vec<u8>,
}

impl Model for PointBuffer {
    ghost use Rattle.std.specs.Prelude.{ℕ, List, ◌≤◌, vec_len, vec_capacity};

    ghost Value = { List ℕ };

    ghost view = { λ b. b.bytes.items };

    ghost invariant = { λ b. (vec_len b.bytes ≤ 65532) × (65532 ≤ vec_capacity b.bytes) };
}

impl PointBuffer {
    /// Takes its room at once.
    pub fn new(alloc: Global) -> Result<Self, AllocError>
        ensures { IfOk result (λ buffer. buffer ≡ []) }
    {
        Ok(PointBuffer {
            bytes: Vec::with_capacity(alloc, ROOM)?,
        })
    }

    /// Adds a row behind those that came before, `count` of them, and writes these to the blob where the buffer is full.
    /// After a failure the blob holds an unstated number of them.
    pub fn add<B: Blob>(&mut self, points: &mut B, count: u64, spot: Spot) -> Result<(), Failed>
        requires few { count < 2147483648 }
        requires way { length self.old ≤ 12 * count }
        ensures way { OnOk result (length self.new ≤ 12 * (count + 1)) }
        ensures kept { OnOk result ((rows : List Row) → length rows ≡ count → Keeps rows self.old (B.held points.old)
            → Keeps (rows ++ row_of spot ∷ []) self.new (B.held points.new)) }
        ensures telling { is_some (B.held points.new) ≡ is_some (B.held points.old) }
        ensures cause { HasCause (B.faults points.old) (B.faults points.new) result }
    {
        self.make_room(points, count)?;
        self.push(spot);
        Ok(())
    }

    // Writes the rows to the blob where there is no room for one more.
    fn make_room<B: Blob>(&mut self, points: &mut B, count: u64) -> Result<(), Failed>
        requires few { count ≤ 2147483648 }
        requires way { length self.old ≤ 12 * count }
        ensures room { OnOk result (length self.new + 12 ≤ 65532) }
        ensures way { OnOk result (length self.new ≤ 12 * count) }
        ensures kept { OnOk result ((rows : List Row) → length rows ≡ count → Keeps rows self.old (B.held points.old)
            → Keeps rows self.new (B.held points.new)) }
        ensures telling { is_some (B.held points.new) ≡ is_some (B.held points.old) }
        ensures cause { HasCause (B.faults points.old) (B.faults points.new) result }
    {
        if self.bytes.len() + ROW > ROOM {
            return self.flush(points, count);
        }
        Ok(())
    }

    fn push(&mut self, spot: Spot)
        requires { length self.old + 12 ≤ 65532 }
        ensures { self.new ≡ self.old ++ row_bytes (row_of spot) }
    {
        let row = bytes_of(spot);
        self.bytes.extend_from_slice(&row).unwrap();
    }

    /// Writes the rows that were added to the blob; `count` rows came in all.
    pub fn flush<B: Blob>(&mut self, points: &mut B, count: u64) -> Result<(), Failed>
        requires few { count ≤ 2147483648 }
        requires way { length self.old ≤ 12 * count }
        ensures empty { OnOk result (self.new ≡ []) }
        ensures kept { OnOk result ((rows : List Row) → length rows ≡ count → Keeps rows self.old (B.held points.old)
            → ForSome (B.held points.new) (HoldsRows rows)) }
        ensures telling { is_some (B.held points.new) ≡ is_some (B.held points.old) }
        ensures cause { HasCause (B.faults points.old) (B.faults points.new) result }
    {
        let start = 12 * count - self.bytes.len() as u64;
        points.write_at(start, &self.bytes)?;
        self.bytes.clear();
        Ok(())
    }

    /// The point with this number, relative to `low`.
    pub fn read_point<B: Blob>(
        &mut self,
        points: &mut B,
        frame: &Frame,
        number: u32,
    ) -> Result<Point, PointFault>
        requires number { number < frame.now.vertices }
        requires small { IsSmallFrame frame.now }
        requires points { ForSome (B.held points.old) (HoldsPoints frame.now) }
        ensures point { IfOk result (λ p. ForSome (B.held points.old) (λ bytes. (low : Row) (rows : List Row)
            → AreSpots frame.now low rows → HoldsRows rows bytes → p ≡ point_at (spots_of low rows) number)) }
        ensures cube { IfOk result (IsInCube frame.now.l) }
        ensures damage { (offset : ℕ) → result ≡ Err (PointFault.Damage offset) → B.held points.old ≡ None }
        ensures held { B.held points.new ≡ B.held points.old }
        ensures later { B.faults points.old ≤ B.faults points.new }
        ensures work { result ≡ Err PointFault.Failed → Rose (B.faults points.old) (B.faults points.new) }
    {
        let offset = 12 * u64::from(number);
        let mut bytes = [0; ROW];
        if points.read_at(offset, &mut bytes).is_err() {
            return Err(PointFault::Failed);
        }
        match point_of(frame, spot_from(&bytes)) {
            Some(point) => Ok(point),
            None => Err(PointFault::Damage { offset }),
        }
    }
}
