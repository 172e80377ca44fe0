// The error and the box of a record, from those of its kids.
ghost use Rattle.std.specs.Prelude.{◌≡◌, ◌<◌, ◌≤◌, ◌+◌, ◌*◌, ◌^◌, IsTrue, length, map, fold, max, slice_get, slice_set, IfSome};
ghost use Rattle.std.specs.Option.{option_to_list, ForSome};
ghost use Rattle.tpz_base.specs.Boxes.{hull as hull_of};
ghost use Rattle.tetra_name.specs.Names.{point_of};
ghost use Rattle.diamond_graph.specs.Closed.{CanSplit};
ghost use Rattle.diamond_graph.specs.Graphs.{centre_of, halved, IsBox, IsGraph};
ghost use Rattle.diamond_graph.specs.Saturated.{holds, records_at, kid_records, greatest_err, is_saturated};
ghost use Rattle.saturate.specs.Raised.{hull_of_all, raised, counted_with, looked_at};

use diamond_graph::{Graph, Record};
use tetra_name::{Half, kids_of};
use tpz_base::{Cell, hull as hull_of_both};

/// What was seen so far of the kids of a record: their greatest error, and the hull of their boxes and the record's own hull.
#[derive(Clone, Copy)]
struct Seen {
    err: u64,
    cell: Cell,
}

/// One more kid was looked for.
fn seen_with(seen: Seen, kid: Option<Record>) -> Seen
    ensures err { result.err ≡ fold max seen.err (map (λ r. r.err) (option_to_list kid)) }
    ensures cell { result.cell ≡ hull_of_all seen.cell (option_to_list kid) }
{
    match kid {
        Some(k) => Seen {
            err: seen.err.max(k.err),
            cell: hull_of_both(seen.cell, k.cell),
        },
        None => seen,
    }
}

/// The record with this centre.
fn record_of(graph: &mut Graph, centre: Half) -> Option<Record>
    requires { IsGraph graph.old }
    ensures record { option_to_list result ≡ records_at graph.old.records (point_of centre) }
    ensures graph { graph.new ≡ looked_at graph.old (records_at graph.old.records (point_of centre)) }
{
    match graph.place(centre) {
        Some(i) => Some(graph.record_at(i)),
        None => None,
    }
}

/// The greatest error of the kids that have a record, and the hull of a box and the boxes of these.
fn seen_kids(graph: &mut Graph, centre: Half, cell: Cell) -> Seen
    requires graph { IsGraph graph.old }
    requires can_split { CanSplit graph.old.l (point_of centre) }
    ensures err { result.err ≡ greatest_err (kid_records graph.old.l graph.old.records (point_of centre)) }
    ensures cell { result.cell ≡ hull_of_all cell (kid_records graph.old.l graph.old.records (point_of centre)) }
    ensures graph { graph.new ≡ looked_at graph.old (kid_records graph.old.l graph.old.records (point_of centre)) }
{
    let kids = kids_of(centre, graph.l());
    let mut seen = Seen { err: 0, cell };
    'kids: for i in 0..kids.len() {
        seen = seen_with(seen, record_of(graph, kids.at(i)));
    }
    seen
}

/// Sets the errors and the box of the record at a place, counted from 0: the error is its own and the greatest error of its kids' records, and the
/// box is the hull of a box round its own triangles and the boxes of these records. Lengths are in whole scaled units. The records of the kids are
/// looked at, so the count of tests rises by their number.
pub fn raise(graph: &mut Graph, i: u32, own: u32, hull: Cell)
    requires place { i < length graph.old.records }
    requires own { own ≤ 2 ^ 30 }
    requires cell { IsBox (2 ^ graph.old.l) hull }
    requires holds { IfSome (slice_get graph.old.records i) (λ r. IsTrue (holds hull (halved (centre_of r)))) }
    ensures record { ForSome (slice_get graph.old.records i) (λ r.
        graph.new.records ≡ slice_set graph.old.records i (raised r own hull (kid_records graph.old.l graph.old.records (centre_of r)))) }
    ensures saturated { IfSome (slice_get graph.new.records i) (λ r. IsTrue (is_saturated graph.new.l graph.new.records r)) }
    ensures l { graph.new.l ≡ graph.old.l }
    ensures tests { ForSome (slice_get graph.old.records i) (λ r.
        graph.new.tests ≡ fold counted_with graph.old.tests (kid_records graph.old.l graph.old.records (centre_of r))) }
{
    let seen = seen_kids(graph, graph.centre_at(i), hull);
    graph.set_record(i, own, u64::from(own) + seen.err, seen.cell);
}
