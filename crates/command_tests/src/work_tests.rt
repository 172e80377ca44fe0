// Calls of the work file that fail, and a work file that gives back what was never written to it.
use crate::failures;
use crate::texts::mesh_of;
use crate::zeros::Zeros;
use puzzle_cli::{Status, run};
use std::test::Fail;
use tpz_io::{MemBlob, MemOut, MemSource};

const SQUARE: &str = "5 4/0 0 0/4 0 0/4 4 0/0 4 0/2 2 0/3 0 1 4/3 1 2 4/3 2 3 4/3 3 0 4/";

const WORK_CALLS: &str = "\
case build, the first call
mesh 5 4/0 0 0/4 0 0/4 4 0/0 4 0/2 2 0/3 0 1 4/3 1 2 4/3 2 3 4/3 3 0 4/
work_fails 1
run build --cap 1
line tpz: work file failed
notes
parts 0
left
case build, each call
mesh 5 4/0 0 0/4 0 0/4 4 0/0 4 0/2 2 0/3 0 1 4/3 1 2 4/3 2 3 4/3 3 0 4/
each_work build --cap 1
line
notes build tris 4 dropped 0 records 2 peak 4 budget 32768/
parts 0
unused work
left square
case build, each call, past the budget
mesh 5 4/0 0 0/4 0 0/4 4 0/0 4 0/2 2 0/3 0 1 4/3 1 2 4/3 2 3 4/3 3 0 4/
each_work build --cap 1 --budget 3
line
notes build tris 4 dropped 0 records 2 peak 0 budget 3/
parts 0
unused work
left_bytes 736
case finest, each call
mesh 5 4/0 0 0/4 0 0/4 4 0/0 4 0/2 2 0/3 0 1 4/3 1 2 4/3 2 3 4/3 3 0 4/
each_work finest --cap 1
line
notes finest tris 4 dropped 0 vertices 5/
parts 1
unused work";

#[test]
fn each_call_of_the_work_file_may_fail(rt: HostRuntime) -> Result<(), Fail> {
    assert_eq!(rt; failures(rt.alloc(), WORK_CALLS)?.as_str(), "");
    Ok(())
}

// The first 60 bytes are the points, and behind them the streams begin.
#[test]
fn zeros_behind_the_points_are_damage(rt: HostRuntime) -> Result<(), Fail> {
    let alloc = rt.alloc();
    let mut words = Vec::new(alloc);
    for word in ["build", "--cap", "1"] {
        words.push(String::from_str(alloc, word)?)?;
    }
    let bytes = mesh_of(alloc, SQUARE)?.unwrap_or(Vec::new(alloc));
    let mut input = MemSource::new(bytes, Vec::new(alloc));
    let mut script = MemSource::new(Vec::new(alloc), Vec::new(alloc));
    let mut work = Zeros::new(alloc, 60)?;
    let mut store = MemBlob::new(alloc, b"", 65_536, Vec::new(alloc))?;
    let mut out = MemOut::new(alloc, 65_536, Vec::new(alloc))?;
    let status = run(
        alloc,
        &words,
        &mut input,
        &mut script,
        &mut work,
        &mut store,
        &mut out,
    );
    match status {
        Status::WorkDamage { offset } => assert!(rt; offset >= 60),
        _ => assert!(rt; false),
    }
    Ok(())
}
