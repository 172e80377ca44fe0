// The first record of a list that can't stand in a graph.
ghost use Rattle.std.specs.Prelude.{◌≡◌, ◌<◌, ◌*◌, ◌^◌, ◌&&◌, ◌+◌, ◌==◌, length, map, fold, max, take, All};
ghost use Rattle.std.specs.List.{list_all, IsDistinct};
ghost use Rattle.std.specs.Option.{option_to_list};
ghost use Rattle.tpz_base.specs.Points.{point_eq};
ghost use Rattle.tpz_base.specs.Cuts.{has_diamond};
ghost use Rattle.tpz_base.specs.Diamonds.{record_lt};
ghost use Rattle.tetra_name.specs.Names.{point_of, IsBound, IsCentre};
ghost use Rattle.diamond_graph.specs.Closed.{CanSplit};
ghost use Rattle.diamond_graph.specs.Ranks.{rank_of};
ghost use Rattle.diamond_graph.specs.Graphs.{centre_of, IsStored, halved};
ghost use Rattle.diamond_graph.specs.Saturated.{holds as is_held, holds_cell, records_at, is_saturated as saturated_in, first_out_of_order, first_not_closed, first_not_saturated};

use crate::rank::Ranked;
use crate::record::{Record, key, whole};
use indexmap::IndexSet;
use tetra_name::{Half, Halves, kids_of, level, parents_of};
use tpz_base::{Cell, Point};

/// Why records aren't those of a graph. `rec` is the place of the first such record, counted from 0; a kind is looked for in all records before the
/// next.
#[derive(Clone, Copy, Debug, PartialEq, Eq)]
pub enum GraphFault {
    /// A record isn't after the one before it in record order.
    Order { rec: u32 },
    /// A parent of a record isn't a record.
    NotClosed { rec: u32 },
    /// A record's `err` isn't its `own` and the greatest `err` of its kids, or its box doesn't hold its centre or a kid's box.
    NotSaturated { rec: u32 },
    /// Memory ran out.
    Memory,
}

/// The centre with its level.
fn ranked(centre: Half, l: u8) -> Ranked
    requires bound { IsBound l }
    requires centre { IsCentre l (point_of centre) }
    ensures { result ≡ rank_of l (point_of centre) }
{
    Ranked {
        level: level(centre, l),
        centre,
    }
}

/// Whether a centre comes before another in record order.
fn is_before(a: Half, b: Half, l: u8) -> bool
    requires bound { IsBound l }
    requires first { IsCentre l (point_of a) }
    requires second { IsCentre l (point_of b) }
    ensures { result ≡ record_lt l (point_of a) (point_of b) }
{
    ranked(a, l) < ranked(b, l)
}

/// The first record that isn't after the one before it.
pub(crate) fn find_out_of_order(records: &[Record], l: u8) -> Option<u32>
    requires bound { IsBound l }
    requires few { length records.now < 2 ^ 32 }
    requires stored { All (IsStored l) records.now }
    ensures { result ≡ first_out_of_order l records.now }
{
    'records: for i in 1..records.len() {
        if !is_before(records[i - 1].centre, records[i].centre, l) {
            return Some(i as u32);
        }
    }
    None
}

/// Whether each of these centres is in the set.
fn has_all(centres: &IndexSet<Point>, wanted: &Halves) -> bool
    ensures { result ≡ list_all (has_diamond centres.now.keys) (map point_of wanted.now) }
{
    'wanted: for i in 0..wanted.len() {
        if !centres.contains(&key(wanted.at(i))) {
            return false;
        }
    }
    true
}

/// The first record with a parent that isn't a record.
pub(crate) fn find_not_closed(records: &[Record], centres: &IndexSet<Point>, l: u8) -> Option<u32>
    requires bound { IsBound l }
    requires few { length records.now < 2 ^ 32 }
    requires stored { All (IsStored l) records.now }
    requires keys { centres.now.keys ≡ map centre_of records.now }
    ensures { result ≡ first_not_closed l records.now }
{
    'records: for i in 0..records.len() {
        if !has_all(centres, &parents_of(records[i].centre, l)) {
            return Some(i as u32);
        }
    }
    None
}

/// Whether the box holds the point.
fn holds(cell: &Cell, p: Point) -> bool
    ensures { result ≡ is_held cell.now p }
{
    let above = cell.lo.x <= p.x && cell.lo.y <= p.y && cell.lo.z <= p.z;
    let below = p.x <= cell.hi.x && p.y <= cell.hi.y && p.z <= cell.hi.z;
    above && below
}

/// What was seen of the kids of a record: their greatest error, and whether the record's box holds what it has to.
#[derive(Clone, Copy)]
pub(crate) struct Seen {
    pub(crate) err: u64,
    pub(crate) held: bool,
}

/// One more kid was looked for.
fn seen_with(cell: &Cell, seen: Seen, kid: Option<Record>) -> Seen
    ensures err { result.err ≡ fold max seen.err (map (λ r. r.err) (option_to_list kid)) }
    ensures held { result.held ≡ seen.held && list_all (holds_cell cell.now) (option_to_list kid) }
{
    match kid {
        Some(k) => Seen {
            err: seen.err.max(k.err),
            held: seen.held && (holds(cell, k.cell.lo) && holds(cell, k.cell.hi)),
        },
        None => seen,
    }
}

/// The record with this centre.
fn record_of(records: &[Record], centres: &IndexSet<Point>, centre: Half) -> Option<Record>
    requires keys { centres.now.keys ≡ map centre_of records.now }
    requires differ { IsDistinct point_eq (map centre_of records.now) }
    ensures { option_to_list result ≡ records_at records.now (point_of centre) }
{
    match centres.get_index_of(&key(centre)) {
        Some(i) => Some(records[i]),
        None => None,
    }
}

/// Whether the error is the record's own and the greatest of its kids'.
fn is_sum(err: u64, own: u32, greatest: u64) -> bool
    ensures { result ≡ (err == own + greatest) }
{
    let own = u64::from(own);
    err >= own && err - own == greatest
}

/// Whether the record's error is its own and the greatest of its kids', and its box holds its centre and its kids' boxes.
fn is_saturated(records: &[Record], centres: &IndexSet<Point>, r: &Record, l: u8) -> bool
    requires bound { IsBound l }
    requires can_split { CanSplit l (centre_of r.now) }
    requires keys { centres.now.keys ≡ map centre_of records.now }
    requires differ { IsDistinct point_eq (map centre_of records.now) }
    ensures { result ≡ saturated_in l records.now r.now }
{
    let kids = kids_of(r.centre, l);
    let mut seen = Seen {
        err: 0,
        held: holds(&r.cell, whole(r.centre)),
    };
    'kids: for i in 0..kids.len() {
        seen = seen_with(&r.cell, seen, record_of(records, centres, kids.at(i)));
    }
    is_sum(r.err, r.own, seen.err) && seen.held
}

/// The first record that isn't saturated.
pub(crate) fn find_not_saturated(
    records: &[Record],
    centres: &IndexSet<Point>,
    l: u8,
) -> Option<u32>
    requires bound { IsBound l }
    requires few { length records.now < 2 ^ 32 }
    requires stored { All (IsStored l) records.now }
    requires keys { centres.now.keys ≡ map centre_of records.now }
    requires differ { IsDistinct point_eq (map centre_of records.now) }
    ensures { result ≡ first_not_saturated l records.now }
{
    'records: for i in 0..records.len() {
        if !is_saturated(records, centres, &records[i], l) {
            return Some(i as u32);
        }
    }
    None
}
