// A reader of the elements behind the points: the next triangle that is whole.
ghost use Rattle.std.specs.Prelude.{◌≡◌, ◌⊎◌, ◌≤◌, ◌+◌, ◌∷◌, ◌++◌, [], ℕ, List, All, length, Err, Ok, None, Some, false, IfOk, IfErr, IfSome, IsTrue};
ghost use Rattle.std.specs.Option.{ForSome};
ghost use Rattle.tpz_base.specs.declared.shape.Tri.{Tri};
ghost use Rattle.tpz_base.specs.Cubes.{Row, IsTriInCube};
ghost use Rattle.tpz_base.specs.Meshes.{is_whole};
ghost use Rattle.tpz_base.specs.Texts.{Face};
ghost use Rattle.ply_head.specs.Heads.{IsSmall};
ghost use Rattle.ply_body.specs.Inputs.{triangle_at};
ghost use Rattle.ply_body.specs.Spots.{spots_of, AreSpots, HoldsPoints, HoldsRows, IsSmallFrame};
ghost use Rattle.ply_body.specs.Places.{found_count, tally, AreBroken, IsPlaced, Walks, WalkEnds, WalkFails, WorkFails};

use crate::corners::tri_of;
use crate::fault::BodyFault;
use crate::frame::Frame;
use crate::item_reader::ItemReader;
use crate::place::Place;
use crate::spots::PointBuffer;
use ply_head::Element;
use tpz_base::{Tri, whole};
use tpz_io::{Blob, Source};

/// A place in the elements, with what reads on from there, and how many triangles were dropped.
#[derive(Drop)]
pub struct Walk {
    pub items: ItemReader,
    pub buffer: PointBuffer,
    pub elements: Vec<Element>,
    pub vertices: u64,
    pub place: Place,
    pub dropped: u64,
}

impl Walk {
    /// The next triangle that is whole. Those before it that aren't are dropped and counted.
    pub fn next_whole<I: Source, B: Blob>(
        &mut self,
        src: &mut I,
        frame: &Frame,
        points: &mut B,
    ) -> Result<Option<Tri>, BodyFault>
        requires vertices { self.old.vertices ≤ 2147483648 }
        requires elements { IsSmall self.old.elements.items }
        requires placed { IsPlaced self.old.vertices self.old.elements.items self.old.place }
        requires dropped { self.old.dropped ≤ tally self.old.place }
        requires frame { IsSmallFrame frame.now }
        requires counts { frame.now.vertices ≡ self.old.vertices }
        requires points { ForSome (B.held points.old) (HoldsPoints frame.now) }
        ensures elements { self.new.elements ≡ self.old.elements }
        ensures vertices { self.new.vertices ≡ self.old.vertices }
        ensures tri { (t : Tri) → result ≡ Ok (Some t) → (lost : List Face) × (face : Face)
            × Walks self.old.vertices self.old.elements.items self.old.place self.old.items (I.left src.old) self.new.place self.new.items (I.left src.new) (lost ++ face ∷ [])
            × (self.new.dropped ≡ self.old.dropped + length lost)
            × ForSome (B.held points.old) (λ bytes. (low : Row) (rows : List Row) → AreSpots frame.now low rows → HoldsRows rows bytes
            → All (λ f. is_whole (triangle_at (spots_of low rows) f) ≡ false) lost × (t ≡ triangle_at (spots_of low rows) face)) }
        ensures end { result ≡ Ok None → (lost : List Face)
            × WalkEnds self.old.vertices self.old.elements.items self.old.place self.old.items (I.left src.old) lost
            × (self.new.dropped ≡ self.old.dropped + length lost)
            × AreBroken frame.now (B.held points.old) lost }
        ensures placed { IfOk result (λ t. IsPlaced self.old.vertices self.old.elements.items self.new.place) }
        ensures counts { IfOk result (λ t. tally self.new.place + self.old.dropped ≡ tally self.old.place + self.new.dropped + found_count t) }
        ensures few { (given : ℕ) → given + self.old.dropped ≤ tally self.old.place → given + self.new.dropped ≤ 2147483648 }
        ensures whole { IfOk result (λ t. IfSome t (λ tri. IsTrue (is_whole tri))) }
        ensures cube { IfOk result (λ t. IfSome t (IsTriInCube frame.now.l)) }
        ensures failed { IfErr result (λ f. WalkFails self.old.vertices self.old.elements.items self.old.place self.old.items (I.left src.old) (I.faults src.old) (I.faults src.new) f
            ⊎ WorkFails (B.held points.old) (B.faults points.old) (B.faults points.new) f) }
        ensures input_later { I.faults src.old ≤ I.faults src.new }
        ensures work_later { B.faults points.old ≤ B.faults points.new }
        ensures held { B.held points.new ≡ B.held points.old }
    {
        'dropped: loop {
            let found = self.place.next_face(
                &mut self.items,
                src,
                self.elements.as_slice(),
                self.vertices,
            )?;
            let corners = match found {
                Some(corners) => corners,
                None => return Ok(None),
            };
            let tri = tri_of(&mut self.buffer, points, frame, corners)?;
            if whole(&tri) {
                return Ok(Some(tri));
            }
            self.dropped += 1;
        }
    }
}
