// Three times the barycentre of a triangle.
ghost use Rattle.std.specs.Prelude.{◌≡◌, ◌<◌, ◌+◌, ◌*◌, ◌^◌};
ghost use Rattle.tpz_base.specs.Roots.{corner_sum};
ghost use Rattle.assign.specs.Sums.{point_at, IsSum};

use tpz_base::Tri;

/// A sum of three points. A coordinate fits 34 bits.
#[derive(Clone, Copy)]
pub(crate) struct Sum {
    pub(crate) x: u64,
    pub(crate) y: u64,
    pub(crate) z: u64,
}

/// A sum of three coordinates.
#[inline]
fn sum_of(a: u32, b: u32, c: u32) -> u64
    ensures value { result ≡ a + (b + c) }
    ensures bound { result < 3 * 2 ^ 32 }
{
    u64::from(a) + (u64::from(b) + u64::from(c))
}

/// The sum of the corners.
#[inline]
pub(crate) fn corner_sum(t: &Tri) -> Sum
    ensures value { point_at result ≡ corner_sum t.now }
    ensures small { IsSum (point_at result) }
{
    Sum {
        x: sum_of(t.a.x, t.b.x, t.c.x),
        y: sum_of(t.a.y, t.b.y, t.c.y),
        z: sum_of(t.a.z, t.b.z, t.c.z),
    }
}
