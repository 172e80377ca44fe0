// The member of a diamond that a triangle is nearest to.
ghost use Rattle.std.specs.Prelude.{ℕ, ◌≡◌, ◌<◌, ◌+◌, ◌*◌, ◌^◌, IfSome};
ghost use Rattle.tpz_base.specs.Points.{gap_of, max_dist, point_scale};
ghost use Rattle.tetra_name.specs.Names.{point_of, tetrahedron_of, IsBound, IsCentre, IsName};
ghost use Rattle.assign.specs.Leaf.{nearest as nearest_of};
ghost use Rattle.assign.specs.Near.{nearer_of};
ghost use Rattle.assign.specs.MemberSums.{member_sum as member_sum_of};
ghost use Rattle.assign.specs.Sums.{point_at, IsSum};

use crate::sum::{Sum, corner_sum};
use std::marker::Model;
use tetra_name::{Half, Tet, corners, member_count};
use tpz_base::Tri;

/// Three times a sum of four coordinates. It fits 36 bits.
#[inline]
fn tripled(a: u32, b: u32, c: u32, d: u32) -> u64
    ensures { result ≡ 3 * ((a + b) + (c + d)) }
{
    3 * ((u64::from(a) + u64::from(b)) + (u64::from(c) + u64::from(d)))
}

/// Three times the sum of the corners of a tetrahedron, in half-units: twelve times its centre.
fn member_sum(name: Tet, l: u8) -> Sum
    requires bound { IsBound l }
    requires name { IsName l name }
    ensures { IfSome (tetrahedron_of l name) (λ T. point_at result ≡ member_sum_of T) }
{
    let at = corners(name, l);
    Sum {
        x: tripled(at[0].x, at[1].x, at[2].x, at[3].x),
        y: tripled(at[0].y, at[1].y, at[2].y, at[3].y),
        z: tripled(at[0].z, at[1].z, at[2].z, at[3].z),
    }
}

/// How far, on one axis, the sum of a triangle's corners in whole units is from a member's sum: twelve times the distance of their centres in
/// half-units.
#[inline]
fn gap(sum: u64, member: u64) -> u64
    requires { sum < 3 * 2 ^ 32 }
    ensures { result ≡ gap_of (8 * sum) member }
{
    (8 * sum).abs_diff(member)
}

/// Twelve times the distance of their centres, in half-units and in the max-norm.
#[inline]
fn distance(sum: Sum, member: Sum) -> u64
    requires { IsSum (point_at sum) }
    ensures { result ≡ max_dist (point_scale 8 (point_at sum)) (point_at member) }
{
    let x = gap(sum.x, member.x);
    let y = gap(sum.y, member.y);
    let z = gap(sum.z, member.z);
    x.max(y.max(z))
}

/// A member's slot, and its distance.
#[derive(Clone, Copy)]
struct Near {
    slot: u8,
    distance: u64,
}

/// The second where it is strictly nearer, and else the first.
#[inline]
fn nearer(a: Near, b: Near) -> Near
    ensures { result ≡ nearer_of a b }
{
    if b.distance < a.distance { b } else { a }
}

/// The members of a diamond, ready to be asked which of them a triangle is nearest to. It takes no memory.
#[derive(Drop)]
pub struct Members {
    centre: Half,
    l: u8,
    count: u8,
    sums: [Sum; 24],
}

impl Model for Members {
    ghost use Rattle.assign.specs.MemberSums.{DiamondAt, HoldsMembers};

    ghost Value = { DiamondAt };

    ghost view = { λ m. record { centre = m.centre; l = m.l } };

    ghost invariant = { λ m. HoldsMembers m.l m.centre m.count m.sums };
}

impl Members {
    /// The members of the diamond with this centre.
    pub fn of(centre: Half, l: u8) -> Members
        requires bound { IsBound l }
        requires centre { IsCentre l (point_of centre) }
        ensures { result ≡ record { centre = centre; l = l } }
    {
        let count = member_count(centre, l);
        let mut sums = [Sum { x: 0, y: 0, z: 0 }; 24];
        'members: for slot in 0..count {
            sums[slot as usize] = member_sum(Tet { centre, slot }, l);
        }
        Members {
            centre,
            l,
            count,
            sums,
        }
    }

    /// The centre that `of` was given.
    #[inline]
    pub fn centre(&self) -> Half
        ensures centre { result ≡ self.now.centre }
        ensures bound { IsBound self.now.l }
        ensures within { IsCentre self.now.l (point_of self.now.centre) }
    {
        self.centre
    }

    /// The slot of the member whose centre is nearest to the barycentre of t in the max-norm, the lowest such slot.
    pub fn nearest(&self, t: &Tri) -> u8
        ensures nearest { tetrahedron_of self.now.l (record { centre = self.now.centre; slot = result }) ≡ nearest_of self.now.l (point_of self.now.centre) t.now }
        ensures name { IsName self.now.l (record { centre = self.now.centre; slot = result }) }
    {
        let sum = corner_sum(t);
        let mut best = Near {
            slot: 0,
            distance: distance(sum, self.sums[0]),
        };
        'members: for slot in 1..self.count {
            let distance = distance(sum, self.sums[slot as usize]);
            best = nearer(best, Near { slot, distance });
        }
        best.slot
    }
}

/// The slot of the member that t is nearest to, as `Members::nearest` has it, for one triangle.
pub fn nearest(centre: Half, t: &Tri, l: u8) -> u8
    requires bound { IsBound l }
    requires centre { IsCentre l (point_of centre) }
    ensures nearest { tetrahedron_of l (record { centre = centre; slot = result }) ≡ nearest_of l (point_of centre) t.now }
    ensures name { IsName l (record { centre = centre; slot = result }) }
{
    Members::of(centre, l).nearest(t)
}
