// Worked views of the two records of a square, and the children that are active in their cuts.
ghost use Rattle.std.specs.Prelude.{◌≡◌, ◌≤◌, ◌+◌, unsigned_abs, length, All, IfOk, OnOk};
ghost use Rattle.tpz_base.specs.Boxes.{IsNearEye};
ghost use Rattle.diamond_graph.specs.Graphs.{IsStored};
ghost use Rattle.diamond_graph.specs.Saturated.{AreSaturated};
ghost use Rattle.view_cut.specs.Sets.{IsConformingSet};

use diamond_graph::{Graph, GraphFault, Record};
use std::alloc::{AllocError, Global};
use std::process::Abort;
use std::test::Fail;
use tetra_name::{Half, is_centre, level};
use tpz_base::{Cell, Eye, Point};
use view_cut::{Front, View, active};

/// A record of the cube of side 4 with this centre on the middle axis, and the box from the origin to the far corner of this height.
fn record(z: u32, own: u32, height: u32) -> Record {
    Record {
        centre: Half { x: 4, y: 4, z },
        own,
        err: 2,
        cell: Cell {
            lo: Point { x: 0, y: 0, z: 0 },
            hi: Point {
                x: 4,
                y: 4,
                z: height,
            },
        },
    }
}

/// Looks at the fields of a record that a test has made.
fn check_fields(rt: &impl Abort, r: &Record)
    ensures { IsStored 2 r.now }
{
    assert!(rt; is_centre(r.centre, 2));
    assert!(rt; level(r.centre, 2) < 6);
    assert!(rt; r.own <= 1_073_741_824);
    assert!(rt; r.err <= 96_636_764_160);
    let (lo, hi) = (r.cell.lo, r.cell.hi);
    assert!(rt; lo.x <= hi.x);
    assert!(rt; lo.y <= hi.y);
    assert!(rt; lo.z <= hi.z);
    assert!(rt; hi.x <= 4);
    assert!(rt; hi.y <= 4);
    assert!(rt; hi.z <= 4);
}

/// Adds a record that a test has made.
fn push(rt: &impl Abort, records: &mut Vec<Record>, r: Record) -> Result<(), AllocError>
    requires { All (IsStored 2) records.old.items }
    ensures stored { OnOk result (All (IsStored 2) records.new.items) }
    ensures more { length records.new.items ≤ length records.old.items + 1 }
{
    check_fields(rt, &r);
    records.push(r)?;
    Ok(())
}

/// The graph of the worked square: the cube's diamond, and that of its bottom.
fn square(rt: &impl Abort, alloc: Global) -> Result<Result<Graph, GraphFault>, AllocError>
    ensures { IfOk result (λ made. IfOk made (λ graph. AreSaturated graph.l graph.records)) }
{
    let mut records = Vec::new(alloc);
    push(rt, &mut records, record(4, 0, 2))?;
    push(rt, &mut records, record(0, 2, 0))?;
    Ok(Graph::from_records(alloc, 2, records))
}

/// Looks from a point, and compares the places of the records that are wanted then.
fn check_look(
    rt: &impl Abort,
    graph: &mut Graph,
    front: &mut Front,
    view: &View,
    want: &[u32],
) -> Result<(), AllocError>
    requires eye { IsNearEye view.now.eye }
    requires saturated { AreSaturated graph.old.l graph.old.records }
    requires set { IsConformingSet graph.old front.old }
    ensures saturated { AreSaturated graph.new.l graph.new.records }
    ensures set { IsConformingSet graph.new front.new }
{
    front.look(graph, view)?;
    assert_eq!(rt; front.list(), want);
    Ok(())
}

/// Compares the bits of the record at this place of the front.
fn check_active(rt: &impl Abort, graph: &Graph, front: &Front, place: usize, want: u16)
    requires { IsConformingSet graph.now front.now }
{
    let list = front.list();
    assert!(rt; place < list.len());
    assert_eq!(rt; active(graph, list, list[place]), want);
}

/// A view from this point.
fn view_from(x: i64, y: i64, z: i64, tol: u32) -> View
    requires x { unsigned_abs x ≤ 9 }
    requires y { unsigned_abs y ≤ 9 }
    requires z { unsigned_abs z ≤ 100 }
    ensures { IsNearEye result.eye }
{
    View {
        eye: Eye { x, y, z },
        tol,
    }
}

/// The views of the worked square, one after another.
fn check_views(rt: &impl Abort, alloc: Global, graph: &mut Graph) -> Result<(), AllocError>
    requires { AreSaturated graph.old.l graph.old.records }
{
    let mut front = Front::new(alloc);
    assert!(rt; front.list().is_empty());
    check_look(rt, graph, &mut front, &view_from(0, 0, 100, 65_536), &[])?;
    check_look(rt, graph, &mut front, &view_from(0, 0, 3, 65_536), &[0])?;
    check_active(rt, graph, &front, 0, 0b1111_1111_1111);
    check_look(rt, graph, &mut front, &view_from(0, 0, 2, 65_536), &[0, 1])?;
    check_active(rt, graph, &front, 0, 0b1111_1110_1110);
    check_active(rt, graph, &front, 1, 0b1111);
    check_look(rt, graph, &mut front, &view_from(9, 9, 9, 0), &[0, 1])?;
    check_look(rt, graph, &mut front, &view_from(-9, -9, -9, 65_536), &[])?;
    check_look(rt, graph, &mut front, &view_from(-2, 6, 1, 65_536), &[0, 1])?;
    assert_eq!(rt; graph.tests(), 12);
    Ok(())
}

#[test]
fn views_of_the_worked_square_pick_its_records(rt: HostRuntime) -> Result<(), Fail> {
    match square(&rt, rt.alloc())? {
        Ok(mut graph) => check_views(&rt, rt.alloc(), &mut graph)?,
        Err(_) => assert!(rt; false),
    }
    Ok(())
}
