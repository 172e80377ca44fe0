// The polygon of a row, corner by corner.
ghost use Rattle.std.specs.Prelude.{◌≡◌, ◌⊎◌, ◌≤◌, ◌<◌, ◌+◌, ◌∷◌, ◌++◌, ℕ, List, length, IfSome};
ghost use Rattle.ply_body.specs.Bodies.{fan, fan_count, is_too_many as has_too_many};
ghost use Rattle.ply_body.specs.Places.{faces_of, polygon_front};

use ply_head::Kind;

// The greatest number of triangles, dropped ones counted.
const MOST_TRIS: u64 = 2_147_483_648;

/// The corners of a triangle, by the numbers of their vertices.
#[derive(Clone, Copy)]
pub struct Corners {
    pub i: u32,
    pub j: u32,
    pub k: u32,
}

/// A polygon of which some corners were read: how many, the first and the last of them, and how many are left.
#[derive(Clone, Copy)]
pub struct Polygon {
    pub kind: Kind,
    pub taken: u64,
    pub first: u32,
    pub last: u32,
    pub left: u64,
}

/// How many triangles a polygon of so many corners forms.
pub fn fan_size(corners: u64) -> u64
    ensures { result ≡ fan_count corners }
{
    corners.saturating_sub(2)
}

/// Whether the corner with this number would form a triangle too many.
pub fn is_too_many(formed: u64, taken: u64) -> bool
    requires formed { formed ≤ 2147483648 }
    requires taken { taken < 9223372036854775808 }
    ensures { result ≡ has_too_many formed taken }
{
    taken >= 2 && formed + (taken - 1) > MOST_TRIS
}

impl Polygon {
    /// A polygon without corners.
    pub fn none() -> Polygon
        ensures { result ≡ record { kind = Kind.U8; taken = 0; first = 0; last = 0; left = 0 } }
    {
        Polygon {
            kind: Kind::U8,
            taken: 0,
            first: 0,
            last: 0,
            left: 0,
        }
    }

    /// Adds the next corner. From the third on each forms a triangle with the first and the last.
    pub fn add(&mut self, corner: u32) -> Option<Corners>
        requires left { 0 < self.old.left }
        requires few { self.old.taken + self.old.left < 9223372036854775808 }
        ensures fan { (more : List ℕ) → fan (polygon_front self.old ++ corner ∷ more) ≡ faces_of result ++ fan (polygon_front self.new ++ more) }
        ensures kind { self.new.kind ≡ self.old.kind }
        ensures taken { self.new.taken ≡ self.old.taken + 1 }
        ensures left { self.old.left ≡ self.new.left + 1 }
        ensures last { self.new.last ≡ corner }
        ensures first { (self.new.first ≡ corner) ⊎ ((0 < self.old.taken) × (self.new.first ≡ self.old.first)) }
        ensures formed { fan_count self.new.taken ≡ fan_count self.old.taken + length (faces_of result) }
        ensures corners { IfSome result (λ face. (0 < self.old.taken) × (face.i ≡ self.old.first) × (face.j ≡ self.old.last) × (face.k ≡ corner)) }
    {
        let taken = self.taken;
        let first = self.first;
        let last = self.last;
        self.taken += 1;
        self.left -= 1;
        self.last = corner;
        if taken == 0 {
            self.first = corner;
            return None;
        }
        if taken == 1 {
            return None;
        }
        Some(Corners {
            i: first,
            j: last,
            k: corner,
        })
    }
}
