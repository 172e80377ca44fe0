// The triangles of an input.
ghost use Rattle.std.specs.Prelude.{◌≡◌, ◌≢◌, ◌≤◌, ◌⊎◌, ◌+◌, ◌++◌, ℕ, List, All, is_some, Ok, Err, Some, None, false, IfOk, IsTrue, IsErrOf};
ghost use Rattle.std.specs.Option.{ForSome, option_map};
ghost use Rattle.tpz_io.specs.Causes.{Rose};
ghost use Rattle.tpz_base.specs.declared.shape.Tri.{Tri};
ghost use Rattle.tpz_base.specs.Cubes.{Row, IsTriInCube};
ghost use Rattle.tpz_base.specs.Meshes.{is_whole};
ghost use Rattle.tpz_base.specs.Texts.{Face};
ghost use Rattle.ply_body.specs.declared.fault.BodyFault.{BodyFault};
ghost use Rattle.ply_body.specs.declared.frame.Frame.{Frame};
ghost use Rattle.ply_body.specs.Inputs.{is_vertex_element, triangle_at, vertex_count};
ghost use Rattle.ply_body.specs.Spots.{spots_of, AreSpots, HoldsPoints, HoldsRows, IsFrameOf, IsSmallFrame};
ghost use Rattle.ply_body.specs.Readings.{coming_told, input_told, opened, with_spots, GivesFace, GivesNone, IsOpened, IsRefusal};

use crate::fault::BodyFault;
use crate::frame::Frame;
use crate::item_reader::ItemReader;
use crate::place::Place;
use crate::points::load;
use crate::spots::PointBuffer;
use crate::walk::Walk;
use ply_head::{Element, Head, Used};
use std::alloc::{AllocError, Global};
use std::marker::Model;
use tpz_base::Tri;
use tpz_io::{Blob, Source};

/// Reads the rows behind a header: first the points, which go to a blob, and then the triangles, one by one. Source and
/// blob are lent to each call: give the same ones to all. After a refusal it answers the same refusal again and calls
/// nothing.
#[derive(Drop)]
pub struct Faces {
    walk: Walk,
    digits: u8,
    frame: Option<Frame>,
    refusal: Option<BodyFault>,
    given: u64,
}

impl Model for Faces {
    ghost use Rattle.ply_body.specs.Readings.{Reading};

    ghost Value = { Reading };

    ghost use Rattle.ply_body.specs.Reader.{reading_of, IsReader};

    ghost view = { reading_of };

    ghost invariant = { IsReader };
}

// Whether it is the used vertex element.
fn is_vertices(element: &Element) -> bool
    ensures { result ≡ is_vertex_element element.now }
{
    matches!(element.used(), Used::Vertex)
}

// How many rows the used vertex element has.
fn vertices_of(elements: &[Element]) -> u64
    ensures { result ≡ vertex_count elements.now }
{
    'elements: for element in elements {
        if is_vertices(element) {
            return element.count();
        }
    }
    0
}

impl Faces {
    /// Reads on behind a header, with coordinates scaled by 10^digits. Takes all its memory at once.
    pub fn open(alloc: Global, head: Head, digits: u8) -> Result<Self, AllocError>
        requires { digits ≤ 9 }
        ensures { IfOk result (λ faces. faces ≡ opened head digits) }
    {
        let parts = head.into_parts();
        let items = ItemReader::new(parts.format, parts.reader);
        let buffer = PointBuffer::new(alloc)?;
        let vertices = vertices_of(parts.elements.as_slice());
        Ok(Faces {
            walk: Walk {
                items,
                buffer,
                elements: parts.elements,
                vertices,
                place: Place::before(0),
                dropped: 0,
            },
            digits,
            frame: None,
            refusal: None,
            given: 0,
        })
    }

    /// Reads to the end of the used vertex element, and writes each point to the blob. It is the first call.
    ///
    /// An extent is tested when the last row of that element is read.
    pub fn load_points<I: Source, B: Blob>(
        &mut self,
        src: &mut I,
        points: &mut B,
    ) -> Result<Frame, BodyFault>
        requires { IsOpened self.old }
        // The rows that were read, the frame, and the triangles that are still to come:
        ensures rows { IfOk result (λ frame. (rows : List Row) × IsFrameOf frame rows
            × (input_told self.old (I.left src.old) ≡ option_map (with_spots rows) (coming_told self.new (I.left src.new)))
            × ForSome (B.held points.new) (HoldsRows rows)) }
        ensures frame { IfOk result (λ frame. self.new.frame ≡ Some frame) }
        ensures vertices { IfOk result (λ frame. frame.vertices ≡ self.old.setting.vertices) }
        ensures opened { IfOk result (λ frame. (self.new.refusal ≡ None) × (self.new.given ≡ 0) × (self.new.dropped ≡ 0)) }
        // Each refusal has its cause, and stays.
        ensures refused { (f : BodyFault) → result ≡ Err f → IsRefusal f → ForSome (input_told self.old (I.left src.old)) (λ input. input ≡ Err f) }
        ensures kept { (f : BodyFault) → result ≡ Err f → self.new.refusal ≡ Some f }
        ensures input { IsErrOf result BodyFault.InputFault → Rose (I.faults src.old) (I.faults src.new) }
        ensures work { IsErrOf result BodyFault.WorkFault → Rose (B.faults points.old) (B.faults points.new) }
        ensures damage { (offset : ℕ) → ¬ (result ≡ Err (BodyFault.WorkDamage offset)) }
        ensures later { (I.faults src.old ≤ I.faults src.new) × (B.faults points.old ≤ B.faults points.new) }
        ensures telling { is_some (B.held points.new) ≡ is_some (B.held points.old) }
        // Whether source and blob tell their bytes or not:
        ensures small { IfOk result IsSmallFrame }
    {
        let walk = &mut self.walk;
        match load(
            &mut walk.items,
            &mut walk.buffer,
            walk.elements.as_slice(),
            self.digits,
            src,
            points,
        ) {
            Ok(loaded) => {
                self.walk.place = Place::before(loaded.next);
                self.frame = Some(loaded.frame);
                Ok(loaded.frame)
            }
            Err(refusal) => {
                self.refusal = Some(refusal);
                Err(refusal)
            }
        }
    }

    /// The next triangle that is whole, relative to `low`. None comes where all elements were read.
    ///
    /// The frame is the one that `load_points` gave, and the blob holds its points.
    pub fn next_tri<I: Source, B: Blob>(
        &mut self,
        src: &mut I,
        frame: &Frame,
        points: &mut B,
    ) -> Result<Option<Tri>, BodyFault>
        requires frame { (self.old.frame ≡ Some frame.now) ⊎ (self.old.refusal ≢ None) }
        requires points { ForSome (B.held points.old) (HoldsPoints frame.now) }
        ensures tri { (t : Tri) → result ≡ Ok (Some t) → (lost : List Face) × (face : Face)
            × GivesFace self.old self.new (I.left src.old) (I.left src.new) lost face
            × ForSome (B.held points.old) (λ bytes. (low : Row) (rows : List Row) → AreSpots frame.now low rows → HoldsRows rows bytes
            → All (λ f. is_whole (triangle_at (spots_of low rows) f) ≡ false) lost × (t ≡ triangle_at (spots_of low rows) face)) }
        ensures end { result ≡ Ok None → (lost : List Face) × GivesNone self.old self.new (I.left src.old) lost
            × ForSome (B.held points.old) (λ bytes. (low : Row) (rows : List Row) → AreSpots frame.now low rows → HoldsRows rows bytes
            → All (λ f. is_whole (triangle_at (spots_of low rows) f) ≡ false) lost) }
        ensures frame { self.new.frame ≡ self.old.frame }
        ensures opened { IfOk result (λ t. self.new.refusal ≡ None) }
        // Each refusal has its cause, and stays.
        ensures refused { (f : BodyFault) → result ≡ Err f → IsRefusal f
            → (self.old.refusal ≡ Some f) ⊎ ForSome (coming_told self.old (I.left src.old)) (λ coming. coming ≡ Err f) }
        ensures kept { (f : BodyFault) → result ≡ Err f → self.new.refusal ≡ Some f }
        ensures again { (f : BodyFault) → self.old.refusal ≡ Some f → (result ≡ Err f) × (src.new ≡ src.old) × (points.new ≡ points.old) }
        ensures input { IsErrOf result BodyFault.InputFault → (self.old.refusal ≡ Some BodyFault.InputFault) ⊎ Rose (I.faults src.old) (I.faults src.new) }
        ensures work { IsErrOf result BodyFault.WorkFault → (self.old.refusal ≡ Some BodyFault.WorkFault) ⊎ Rose (B.faults points.old) (B.faults points.new) }
        ensures damage { (offset : ℕ) → result ≡ Err (BodyFault.WorkDamage offset) → (self.old.refusal ≡ Some (BodyFault.WorkDamage offset)) ⊎ (B.held points.old ≡ None) }
        ensures later { (I.faults src.old ≤ I.faults src.new) × (B.faults points.old ≤ B.faults points.new) }
        ensures held { B.held points.new ≡ B.held points.old }
        // Whether source and blob tell their bytes or not:
        ensures whole { (t : Tri) → result ≡ Ok (Some t) → IsTrue (is_whole t) }
        ensures cube { (t : Tri) → result ≡ Ok (Some t) → IsTriInCube frame.now.l t }
        ensures few { self.new.given + self.new.dropped ≤ 2147483648 }
    {
        if let Some(fault) = self.refusal {
            return Err(fault);
        }
        match self.walk.next_whole(src, frame, points) {
            Ok(Some(tri)) => {
                self.given += 1;
                Ok(Some(tri))
            }
            Ok(None) => Ok(None),
            Err(fault) => {
                self.refusal = Some(fault);
                Err(fault)
            }
        }
    }

    /// How many triangles with two equal corners were dropped so far.
    pub fn dropped(&self) -> u64
        ensures { result ≡ self.now.dropped }
    {
        self.walk.dropped
    }
}
