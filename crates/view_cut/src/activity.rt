// Which children of a record are active in a cut.
ghost use Rattle.std.specs.Prelude.{◌≡◌, ◌≢◌, ◌<◌, ◌*◌, ℕ, length, slice_get, Contains};
ghost use Rattle.std.specs.Int.{bit_at};
ghost use Rattle.std.specs.List.Sorted.{IsStrictlyIncreasing};
ghost use Rattle.std.specs.Option.{option_map_or, ForSome};
ghost use Rattle.tpz_base.specs.Tetrahedra.{diamond, parts};
ghost use Rattle.tpz_base.specs.Cuts.{has_diamond};
ghost use Rattle.tpz_base.specs.Diamonds.{level_of};
ghost use Rattle.tetra_name.specs.Names.{point_of, IsBound, IsCentre};
ghost use Rattle.view_cut.specs.Sets.{centres_at, parts_at, outer_bit, active_bit, IsConformingSet};

use diamond_graph::Graph;
use tetra_name::{Half, Tet, child, member_count};

/// Whether the diamond with this centre is in the set.
fn is_in(graph: &Graph, set: &[u32], centre: Half) -> bool
    requires { IsStrictlyIncreasing set.now }
    ensures { result ≡ has_diamond (centres_at graph.now.records set.now) (point_of centre) }
{
    match graph.place(centre) {
        Some(i) => set.binary_search(&i).is_ok(),
        None => false,
    }
}

/// The number with its bit at a place set.
fn with_bit(bits: u16, k: u8) -> u16
    requires { k < 16 }
    ensures set { bit_at result k ≡ 1 }
    ensures others { (j : ℕ) → j ≢ k → bit_at result j ≡ bit_at bits j }
{
    bits | 1 << k
}

/// The centre of the child with this number, members by slot, child 0 before child 1.
fn part_centre(centre: Half, k: u8, l: u8) -> Half
    requires bound { IsBound l }
    requires centre { IsCentre l (point_of centre) }
    requires level { level_of l (point_of centre) < 3 * l }
    requires within { k < length (parts l (point_of centre)) }
    ensures { ForSome (slice_get (parts l (point_of centre)) k) (λ T. diamond T ≡ point_of result) }
{
    let member = Tet {
        centre,
        slot: k / 2,
    };
    child(member, k % 2, l).centre
}

/// Which children of the members of the diamond at a place are active in the cut that a conforming set of places is. The bit 2·slot + which is set
/// exactly where the own diamond of that child isn't in the set; a diamond has at most eight members, so sixteen bits are enough. The place is one of
/// the set, so the diamond itself is in the cut.
pub fn active(graph: &Graph, set: &[u32], i: u32) -> u16
    requires set { IsConformingSet graph.now set.now }
    requires member { Contains set.now i }
    ensures bits { (k : ℕ) → bit_at result k ≡ option_map_or (outer_bit (centres_at graph.now.records set.now)) (slice_get (parts_at graph.now i) k) 0 }
    ensures active { (k : ℕ) → bit_at result k ≡ option_map_or (active_bit graph.now.l (centres_at graph.now.records set.now)) (slice_get (parts_at graph.now i) k) 0 }
{
    let l = graph.l();
    let centre = graph.centre_at(i);
    let mut bits = 0;
    'parts: for k in 0..2 * member_count(centre, l) {
        if !is_in(graph, set, part_centre(centre, k, l)) {
            bits = with_bit(bits, k);
        }
    }
    bits
}
