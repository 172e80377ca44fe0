// The root tetrahedron that a triangle is in.
ghost use Rattle.std.specs.Prelude.{◌≡◌, ◌<◌, ℕ, Some};
ghost use Rattle.tpz_base.specs.Points.{point};
ghost use Rattle.tpz_base.specs.Roots.{corner_sum, root_slot, root_of as root_entered};
ghost use Rattle.tetra_name.specs.Names.{root_at};

use crate::sum::corner_sum;
use tpz_base::Tri;

/// The slot of the root whose axis steps go by descending coordinate, ties to the lower axis first.
#[inline]
fn slot_of(x: u64, y: u64, z: u64) -> u8
    ensures slot { result ≡ root_slot (point x y z) }
    ensures few { result < 6 }
{
    if y <= x {
        if z <= y {
            0
        } else if z <= x {
            1
        } else {
            4
        }
    } else if z <= x {
        2
    } else if z <= y {
        3
    } else {
        5
    }
}

/// The slot of the root that the barycentre of t is in: the one whose axis steps go by descending coordinate, ties to the lower axis first.
pub fn root_of(t: &Tri) -> u8
    ensures slot { result ≡ root_slot (corner_sum t.now) }
    ensures few { result < 6 }
    ensures root { (L : ℕ) → root_at L result ≡ Some (root_entered L t.now) }
{
    let sum = corner_sum(t);
    slot_of(sum.x, sum.y, sum.z)
}
