// A place in the elements, and the steps from one to the next.
ghost use Rattle.std.specs.Prelude.{All, ◌≡◌, ◌≤◌, ◌<◌, ◌+◌, ◌-◌, [], ℕ, List, length, Ok, None, IfOk, IfErr, IfSome, OnOk};
ghost use Rattle.ply_head.specs.declared.element.Property.{Property};
ghost use Rattle.ply_head.specs.Heads.{IsSkipped, IsSmall};
ghost use Rattle.ply_body.specs.Faults.{row_fault};
ghost use Rattle.ply_body.specs.Places.{before, begun, current as properties_before, faces_of, tally, Fails, Goes, HasNearCorners, IsBehind, IsCounted, IsEnded, IsNear, IsPlaced, IsRowLayout, Moves, Walks, WalkEnds, WalkFails};

use crate::face_row::read_front;
use crate::fault::{BodyFault, Flaw};
use crate::item_reader::{ItemFault, ItemReader, fault_at};
use crate::polygon::{Corners, Polygon, fan_size, is_too_many};
use crate::row::row_count;
use crate::unused::pass_all;
use ply_head::{Element, Property};
use tpz_io::Source;

/// A place in an element: how many rows were begun and how many follow, the polygon of the row at hand, and where the
/// properties behind it begin, if they weren't read. `formed` triangles come from the rows before. `next` is the number
/// of the next element.
#[derive(Clone, Copy)]
pub struct Place {
    pub polygon: Polygon,
    pub behind: Option<usize>,
    pub row: u64,
    pub left: u64,
    pub formed: u64,
    pub next: usize,
}

impl Place {
    /// Before the element with this number.
    pub fn before(next: usize) -> Place
        ensures { result ≡ before next }
    {
        Place {
            polygon: Polygon::none(),
            behind: None,
            row: 0,
            left: 0,
            formed: 0,
            next,
        }
    }

    // The place of a fault in the row at hand.
    fn fault(&self, fault: ItemFault) -> BodyFault
        requires { self.now.next ≤ 64 }
        ensures { result ≡ row_fault (self.now.next - 1) (self.now.row - 1) fault }
    {
        let element = self.next.saturating_sub(1) as u32;
        let row = self.row.saturating_sub(1);
        fault_at(fault, element, row)
    }

    // Takes the next corner of the polygon.
    fn next_corner<I: Source>(
        &mut self,
        items: &mut ItemReader,
        src: &mut I,
        vertices: u64,
    ) -> Result<Option<Corners>, BodyFault>
        requires left { 0 < self.old.polygon.left }
        requires vertices { vertices ≤ 2147483648 }
        requires counted { IsCounted self.old }
        requires corners { HasNearCorners vertices self.old }
        ensures moves { IfOk result (λ found. (ps : List Property) → Moves vertices ps self.old items.old (I.left src.old) self.new items.new (I.left src.new) (faces_of found)) }
        ensures goes { IfOk result (λ found. Goes vertices self.old self.new found) }
        ensures taken { IfOk result (λ found. self.old.polygon.left ≡ self.new.polygon.left + 1) }
        ensures behind { IfOk result (λ found. self.new.behind ≡ self.old.behind) }
        ensures left { IfOk result (λ found. self.new.left ≡ self.old.left) }
        ensures failed { IfErr result (λ f. (ps : List Property) → Fails vertices ps self.old items.old (I.left src.old) (I.faults src.old) (I.faults src.new) f) }
        ensures later { I.faults src.old ≤ I.faults src.new }
    {
        let corner = match items.index(src, self.polygon.kind, vertices) {
            Ok(corner) => corner,
            Err(fault) => return Err(self.fault(fault)),
        };
        if is_too_many(self.formed, self.polygon.taken) {
            return Err(self.fault(ItemFault::Flaw(Flaw::TooManyTris)));
        }
        Ok(self.polygon.add(corner))
    }

    // Takes what is left of the row behind its polygon.
    fn end_row<I: Source>(
        &mut self,
        items: &mut ItemReader,
        src: &mut I,
        properties: &[Property],
    ) -> Result<(), BodyFault>
        requires polygon { self.old.polygon.left ≡ 0 }
        requires counted { IsCounted self.old }
        requires behind { IsBehind properties.now self.old }
        ensures moves { OnOk result ((v : ℕ) → Moves v properties.now self.old items.old (I.left src.old) self.new items.new (I.left src.new) []) }
        ensures place { OnOk result (self.new ≡ record self.old { behind = None }) }
        ensures failed { IfErr result (λ f. (v : ℕ) → Fails v properties.now self.old items.old (I.left src.old) (I.faults src.old) (I.faults src.new) f) }
        ensures later { I.faults src.old ≤ I.faults src.new }
    {
        let behind = match self.behind {
            Some(behind) => behind,
            None => return Ok(()),
        };
        match pass_all(items, src, &properties[behind..]) {
            Ok(()) => {
                self.behind = None;
                Ok(())
            }
            Err(fault) => Err(self.fault(fault)),
        }
    }

    // Goes to the next row, and takes it up to its polygon.
    fn begin_row<I: Source>(
        &mut self,
        items: &mut ItemReader,
        src: &mut I,
        properties: &[Property],
    ) -> Result<(), BodyFault>
        requires ended { IsEnded self.old }
        requires left { 0 < self.old.left }
        requires counted { IsCounted self.old }
        requires layout { IsRowLayout properties.now }
        ensures moves { OnOk result ((v : ℕ) → Moves v properties.now self.old items.old (I.left src.old) self.new items.new (I.left src.new) []) }
        ensures counted { OnOk result (IsCounted self.new) }
        ensures behind { OnOk result (IsBehind properties.now self.new) }
        ensures taken { OnOk result (self.new.polygon.taken ≡ 0) }
        ensures left { OnOk result (self.old.left ≡ self.new.left + 1) }
        ensures tally { OnOk result (tally self.new ≡ tally self.old) }
        ensures next { OnOk result (self.new.next ≡ self.old.next) }
        ensures plain { OnOk result (All IsSkipped properties.now → self.new.polygon.left ≡ 0) }
        ensures failed { IfErr result (λ f. (v : ℕ) → Fails v properties.now self.old items.old (I.left src.old) (I.faults src.old) (I.faults src.new) f) }
        ensures later { I.faults src.old ≤ I.faults src.new }
    {
        self.formed += fan_size(self.polygon.taken);
        self.polygon = Polygon::none();
        self.row += 1;
        self.left -= 1;
        match read_front(items, src, properties) {
            Ok(front) => {
                self.polygon.kind = front.kind;
                self.polygon.left = front.count;
                self.behind = front.behind;
                Ok(())
            }
            Err(fault) => Err(self.fault(fault)),
        }
    }

    // The next triangle of the row at hand. Without one the row is taken to its end.
    fn face_in_row<I: Source>(
        &mut self,
        items: &mut ItemReader,
        src: &mut I,
        properties: &[Property],
        vertices: u64,
    ) -> Result<Option<Corners>, BodyFault>
        requires vertices { vertices ≤ 2147483648 }
        requires counted { IsCounted self.old }
        requires corners { HasNearCorners vertices self.old }
        requires behind { IsBehind properties.now self.old }
        ensures moves { IfOk result (λ found. Moves vertices properties.now self.old items.old (I.left src.old) self.new items.new (I.left src.new) (faces_of found)) }
        ensures goes { IfOk result (λ found. Goes vertices self.old self.new found) }
        ensures behind { IfOk result (λ found. IsBehind properties.now self.new) }
        ensures left { IfOk result (λ found. self.new.left ≡ self.old.left) }
        ensures ended { result ≡ Ok None → IsEnded self.new }
        ensures plain { IfOk result (λ found. self.old.polygon.left ≡ 0 → found ≡ None) }
        ensures failed { IfErr result (λ f. Fails vertices properties.now self.old items.old (I.left src.old) (I.faults src.old) (I.faults src.new) f) }
        ensures later { I.faults src.old ≤ I.faults src.new }
    {
        'corners: while self.polygon.left > 0 {
            if let Some(face) = self.next_corner(items, src, vertices)? {
                return Ok(Some(face));
            }
        }
        self.end_row(items, src, properties)?;
        Ok(None)
    }

    // The next triangle of the rows that are left of the element.
    fn face_in_element<I: Source>(
        &mut self,
        items: &mut ItemReader,
        src: &mut I,
        properties: &[Property],
        vertices: u64,
    ) -> Result<Option<Corners>, BodyFault>
        requires vertices { vertices ≤ 2147483648 }
        requires counted { IsCounted self.old }
        requires corners { HasNearCorners vertices self.old }
        requires behind { IsBehind properties.now self.old }
        requires layout { 0 < self.old.left → IsRowLayout properties.now }
        ensures moves { IfOk result (λ found. Moves vertices properties.now self.old items.old (I.left src.old) self.new items.new (I.left src.new) (faces_of found)) }
        ensures goes { IfOk result (λ found. Goes vertices self.old self.new found) }
        ensures behind { IfOk result (λ found. IsBehind properties.now self.new) }
        ensures left { IfOk result (λ found. self.new.left ≤ self.old.left) }
        ensures ended { result ≡ Ok None → IsEnded self.new × (self.new.left ≡ 0) }
        ensures plain { IfOk result (λ found. (0 < self.old.left → All IsSkipped properties.now) → self.old.polygon.left ≡ 0 → found ≡ None) }
        ensures failed { IfErr result (λ f. Fails vertices properties.now self.old items.old (I.left src.old) (I.faults src.old) (I.faults src.new) f) }
        ensures later { I.faults src.old ≤ I.faults src.new }
    {
        'rows: loop {
            if let Some(face) = self.face_in_row(items, src, properties, vertices)? {
                return Ok(Some(face));
            }
            if self.left == 0 {
                return Ok(None);
            }
            self.begin_row(items, src, properties)?;
        }
    }

    // Goes to the beginning of an element.
    fn begin_element(&mut self, element: &Element)
        requires counted { IsCounted self.old }
        requires next { self.old.next < 64 }
        ensures { self.new ≡ begun self.old element.now }
    {
        self.formed += fan_size(self.polygon.taken);
        self.polygon = Polygon::none();
        self.behind = None;
        self.row = 0;
        self.left = row_count(element);
        self.next += 1;
    }

    /// The next triangle of the elements that are left.
    pub fn next_face<I: Source>(
        &mut self,
        items: &mut ItemReader,
        src: &mut I,
        elements: &[Element],
        vertices: u64,
    ) -> Result<Option<Corners>, BodyFault>
        requires vertices { vertices ≤ 2147483648 }
        requires small { IsSmall elements.now }
        requires placed { IsPlaced vertices elements.now self.old }
        ensures walks { IfOk result (λ found. Walks vertices elements.now self.old items.old (I.left src.old) self.new items.new (I.left src.new) (faces_of found)) }
        ensures placed { IfOk result (λ found. IsPlaced vertices elements.now self.new) }
        ensures tally { IfOk result (λ found. tally self.new ≡ tally self.old + length (faces_of found)) }
        ensures near { IfOk result (λ found. IfSome found (IsNear vertices)) }
        ensures out { result ≡ Ok None → WalkEnds vertices elements.now self.old items.old (I.left src.old) [] }
        ensures failed { IfErr result (λ f. WalkFails vertices elements.now self.old items.old (I.left src.old) (I.faults src.old) (I.faults src.new) f) }
        ensures later { I.faults src.old ≤ I.faults src.new }
    {
        'elements: loop {
            let properties = current(elements, self.next);
            if let Some(face) = self.face_in_element(items, src, properties, vertices)? {
                return Ok(Some(face));
            }
            if self.next == elements.len() {
                return Ok(None);
            }
            self.begin_element(&elements[self.next]);
        }
    }
}

// The properties of the element before the one with this number.
fn current(elements: &[Element], next: usize) -> &[Property]
    requires { next ≤ length elements.now }
    ensures { result.now ≡ properties_before next elements.now }
{
    if next == 0 {
        return &[];
    }
    elements[next - 1].properties()
}
