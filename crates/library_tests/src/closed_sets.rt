// Worked sets in two small cubes, the ancestors of one of the deepest diamonds that can be split, and graphs of records.
ghost use Rattle.std.specs.Prelude.{◌≡◌, ◌≤◌, ◌+◌, length, All, OnOk};
ghost use Rattle.diamond_graph.specs.Graphs.{IsStored};

use diamond_graph::{Closing, Graph, GraphFault, Record};
use std::alloc::{AllocError, Global};
use std::process::Abort;
use std::test::Fail;
use tetra_name::{Half, is_centre, level, parents_of};
use tpz_base::{Cell, Point};

/// A centre in half-units.
fn half(x: u32, y: u32, z: u32) -> Half {
    Half { x, y, z }
}

/// Adds a centre that a test has made.
fn add(rt: &impl Abort, closing: &mut Closing, centre: Half)
    ensures { closing.new.l ≡ closing.old.l }
{
    let l = closing.l();
    assert!(rt; is_centre(centre, l));
    assert!(rt; level(centre, l) < 3 * l);
    assert_eq!(rt; closing.add_closed(centre), Ok(()));
}

/// The centres of the records, in their order.
fn listed(alloc: Global, graph: &Graph) -> Result<Vec<Half>, AllocError> {
    let mut found = Vec::new(alloc);
    for i in 0..graph.len() {
        found.push(graph.centre_at(i))?;
    }
    Ok(found)
}

/// Each record is found at its place.
fn check_places(rt: &impl Abort, graph: &Graph) {
    for i in 0..graph.len() {
        let centre = graph.centre_at(i);
        assert_eq!(rt; graph.place(centre), Some(i));
        assert!(rt; graph.has(centre));
    }
}

/// The set that these centres and their ancestors make.
fn check_set(
    rt: &impl Abort,
    alloc: Global,
    l: u8,
    added: &[Half],
    want: &[Half],
) -> Result<(), AllocError> {
    assert!(rt; l == 1 || l == 2);
    let mut closing = Closing::new(alloc, l);
    for c in added {
        add(rt, &mut closing, *c);
        assert!(rt; closing.has(*c));
    }
    assert_eq!(rt; closing.l(), l);
    let graph = closing.seal()?;
    assert_eq!(rt; graph.l(), l);
    assert_eq!(rt; listed(alloc, &graph)?.as_slice(), want);
    check_places(rt, &graph);
    for absent in [half(4, 2, 2), half(2, 2, 1), half(0, 0, 0), half(9, 9, 9)] {
        assert_eq!(rt; graph.place(absent), None);
        assert!(rt; !graph.has(absent));
    }
    Ok(())
}

#[test]
fn worked_sets_are_closed_and_in_record_order(rt: HostRuntime) -> Result<(), Fail> {
    let alloc = rt.alloc();
    check_set(&rt, alloc, 1, &[], &[])?;
    check_set(
        &rt,
        alloc,
        2,
        &[half(4, 4, 0)],
        &[half(4, 4, 4), half(4, 4, 0)],
    )?;
    let edge = [half(2, 2, 2), half(2, 0, 2), half(2, 2, 0), half(2, 0, 0)];
    check_set(&rt, alloc, 1, &[half(2, 0, 0)], &edge)?;
    check_set(
        &rt,
        alloc,
        1,
        &[half(2, 0, 0), half(2, 2, 0), half(2, 0, 0)],
        &edge,
    )?;
    check_set(
        &rt,
        alloc,
        1,
        &[half(2, 0, 0), half(0, 2, 0), half(2, 2, 2), half(0, 2, 2)],
        &[
            half(2, 2, 2),
            half(0, 2, 2),
            half(2, 0, 2),
            half(2, 2, 0),
            half(0, 2, 0),
            half(2, 0, 0),
        ],
    )?;
    Ok(())
}

/// The parents of a record stand before it.
fn check_parents(rt: &impl Abort, graph: &Graph, i: u32) {
    assert!(rt; i < graph.len());
    let centre = graph.centre_at(i);
    let l = graph.l();
    assert!(rt; is_centre(centre, l));
    let parents = parents_of(centre, l);
    for k in 0..parents.len() {
        let place = graph.place(parents.at(k));
        assert!(rt; place.is_some_and(|j| j < i));
    }
}

#[test]
fn the_deepest_diamond_brings_its_ancestors_of_every_level(rt: HostRuntime) -> Result<(), Fail> {
    let deepest = half(715_827_882, 1_431_655_764, 286_331_152);
    let mut closing = Closing::new(rt.alloc(), 30);
    add(&rt, &mut closing, deepest);
    let graph = closing.seal()?;
    check_places(&rt, &graph);
    let mut last = 0;
    for i in 0..graph.len() {
        let centre = graph.centre_at(i);
        let l = graph.l();
        assert!(rt; l == 30 && is_centre(centre, l));
        let here = level(centre, l);
        assert!(rt; here == last || here.saturating_sub(1) == last);
        last = here;
        check_parents(&rt, &graph, i);
    }
    assert_eq!(rt; last, 89);
    assert_eq!(rt; graph.place(half(1 << 30, 1 << 30, 1 << 30)), Some(0));
    assert_eq!(rt; graph.place(deepest), Some(graph.len() - 1));
    Ok(())
}

/// A record of the cube of side 4, with the box from a corner on the bottom to the far corner of this height.
fn record(centre: Half, own: u32, err: u64, lo: u32, height: u32) -> Record {
    Record {
        centre,
        own,
        err,
        cell: Cell {
            lo: Point { x: lo, y: lo, z: 0 },
            hi: Point {
                x: 4,
                y: 4,
                z: height,
            },
        },
    }
}

/// Looks at the fields of a record that a test has made.
fn check_fields(rt: &impl Abort, r: &Record)
    ensures { IsStored 2 r.now }
{
    assert!(rt; is_centre(r.centre, 2));
    assert!(rt; level(r.centre, 2) < 6);
    assert!(rt; r.own <= 1_073_741_824);
    assert!(rt; r.err <= 96_636_764_160);
    let (lo, hi) = (r.cell.lo, r.cell.hi);
    assert!(rt; lo.x <= hi.x);
    assert!(rt; lo.y <= hi.y);
    assert!(rt; lo.z <= hi.z);
    assert!(rt; hi.x <= 4);
    assert!(rt; hi.y <= 4);
    assert!(rt; hi.z <= 4);
}

/// Adds a record that a test has made.
fn push(rt: &impl Abort, records: &mut Vec<Record>, r: Record) -> Result<(), AllocError>
    requires { All (IsStored 2) records.old.items }
    ensures stored { OnOk result (All (IsStored 2) records.new.items) }
    ensures more { length records.new.items ≤ length records.old.items + 1 }
{
    check_fields(rt, &r);
    records.push(r)?;
    Ok(())
}

/// The graph of two records in the cube of side 4.
fn graph_of(
    rt: &impl Abort,
    alloc: Global,
    first: Record,
    second: Record,
) -> Result<Result<Graph, GraphFault>, AllocError> {
    let mut records = Vec::new(alloc);
    push(rt, &mut records, first)?;
    push(rt, &mut records, second)?;
    Ok(Graph::from_records(alloc, 2, records))
}

/// The graph of the worked square, whose second record is this.
fn check_square(rt: &impl Abort, mut graph: Graph, second: Record) {
    assert_eq!(rt; graph.l(), 2);
    check_places(rt, &graph);
    assert_eq!(rt; graph.tests(), 0);
    assert!(rt; graph.len() == 2);
    assert_eq!(rt; graph.record_at(1), second);
    assert_eq!(rt; graph.tests(), 1);
}

#[test]
fn records_of_the_worked_square_make_a_graph(rt: HostRuntime) -> Result<(), Fail> {
    let top = record(half(4, 4, 4), 0, 2, 0, 2);
    let bottom = record(half(4, 4, 0), 2, 2, 0, 0);
    match graph_of(&rt, rt.alloc(), top, bottom)? {
        Ok(graph) => check_square(&rt, graph, bottom),
        Err(_) => assert!(rt; false),
    }
    Ok(())
}

#[test]
fn the_first_record_that_cannot_stand_is_named(rt: HostRuntime) -> Result<(), Fail> {
    let top = record(half(4, 4, 4), 0, 2, 0, 2);
    let bottom = record(half(4, 4, 0), 2, 2, 0, 0);
    let rows = [
        (bottom, top, GraphFault::Order { rec: 1 }),
        (top, top, GraphFault::Order { rec: 1 }),
        (
            record(half(4, 0, 4), 2, 2, 0, 2),
            bottom,
            GraphFault::NotClosed { rec: 0 },
        ),
        (
            record(half(4, 4, 4), 0, 1, 0, 2),
            bottom,
            GraphFault::NotSaturated { rec: 0 },
        ),
        (
            record(half(4, 4, 4), 0, 2, 1, 2),
            bottom,
            GraphFault::NotSaturated { rec: 0 },
        ),
        (
            record(half(4, 4, 4), 0, 2, 0, 1),
            bottom,
            GraphFault::NotSaturated { rec: 0 },
        ),
        (
            record(half(4, 4, 4), 0, 3, 0, 2),
            record(half(4, 4, 0), 2, 3, 0, 0),
            GraphFault::NotSaturated { rec: 1 },
        ),
    ];
    for (first, second, fault) in rows {
        match graph_of(&rt, rt.alloc(), first, second)? {
            Ok(_) => assert!(rt; false),
            Err(found) => assert_eq!(rt; found, fault),
        }
    }
    Ok(())
}
