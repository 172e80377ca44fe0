// What `replay` and `tour` write.
use crate::failures;
use std::test::Fail;

const REPLAYED_VIEWS: &str = "\
case far, nearer, near and inside
store square
script # far, nearer, near, and inside/view 0 0 100 65536/write/view 0 0 3 65536/write/view 0 0 2 65536/write//view 9 9 9 0/write
input_fails 1
work_fails 1
run replay
line
parts 4
mesh_part 0 4 2/4 0 0/4 4 0/0 0 0/0 4 0/3 0 1 2/3 1 3 2/
mesh_part 1 4 2/4 0 0/4 4 0/0 0 0/0 4 0/3 0 1 2/3 1 3 2/
mesh_part 2 5 4/0 0 0/4 0 0/2 2 0/4 4 0/0 4 0/3 0 1 2/3 1 3 2/3 4 0 2/3 3 4 2/
mesh_part 3 5 4/0 0 0/4 0 0/2 2 0/4 4 0/0 4 0/3 0 1 2/3 1 3 2/3 4 0 2/3 3 4 2/
notes replay parts 4 reads 9 tests 8/
unused input
unused work";

#[test]
fn each_view_is_written_as_its_cut(rt: HostRuntime) -> Result<(), Fail> {
    assert_eq!(rt; failures(rt.alloc(), REPLAYED_VIEWS)?.as_str(), "");
    Ok(())
}

const REPLAY_TRIES: &str = "\
case two failures of one block
store square
script view 0 0 2 65536/write/
input_fails 1
work_fails 1
store_fails 5 6
run replay --tries 3
line
parts 1
mesh_part 0 5 4/0 0 0/4 0 0/2 2 0/4 4 0/0 4 0/3 0 1 2/3 1 3 2/3 4 0 2/3 3 4 2/
notes replay parts 1 reads 8 tests 2/
unused input
unused work
case three failures of one block
store square
script view 0 0 2 65536/write/
input_fails 1
work_fails 1
store_fails 5 6 7
run replay --tries 3
line tpz: store read failed at record 0
parts 0
notes
unused input
unused work";

#[test]
fn blocks_are_read_within_their_tries(rt: HostRuntime) -> Result<(), Fail> {
    assert_eq!(rt; failures(rt.alloc(), REPLAY_TRIES)?.as_str(), "");
    Ok(())
}

const BAD_SCRIPTS: &str = "\
case a word that is no command
store square
script write/# two/view 0 0 100 65536/write/jump/
input_fails 1
work_fails 1
run replay
line tpz: bad script line 5
parts 2
mesh_part 0 4 2/4 0 0/4 4 0/0 0 0/0 4 0/3 0 1 2/3 1 3 2/
mesh_part 1 4 2/4 0 0/4 4 0/0 0 0/0 4 0/3 0 1 2/3 1 3 2/
notes
unused input
unused work";

#[test]
fn a_line_outside_the_grammar_ends_a_replay(rt: HostRuntime) -> Result<(), Fail> {
    assert_eq!(rt; failures(rt.alloc(), BAD_SCRIPTS)?.as_str(), "");
    Ok(())
}

const FAILING_SCRIPTS: &str = "\
case the first read of the script
store square
script write/
input_fails 1
work_fails 1
script_fails 1
run replay
line tpz: script failed
parts 0
notes
unused input
unused work
case the first call of the output
store square
script write/
input_fails 1
work_fails 1
out_fails 1
run replay
line tpz: output failed
parts 0
notes
unused input
unused work";

#[test]
fn a_script_or_an_output_that_fails_ends_a_replay(rt: HostRuntime) -> Result<(), Fail> {
    assert_eq!(rt; failures(rt.alloc(), FAILING_SCRIPTS)?.as_str(), "");
    Ok(())
}

const TOURED_SQUARES: &str = "\
case a budget of all
mesh 5 4/0 0 0/4 0 0/4 4 0/0 4 0/2 2 0/3 0 1 4/3 1 2 4/3 2 3 4/3 3 0 4/
script write/
run tour --cap 1 --budget 4
line
parts 1
mesh_part 0 4 2/4 0 0/4 4 0/0 0 0/0 4 0/3 0 1 2/3 1 3 2/
notes build tris 4 dropped 0 records 2 peak 4 budget 4/replay parts 1 reads 4 tests 0/
case a budget of less
mesh 5 4/0 0 0/4 0 0/4 4 0/0 4 0/2 2 0/3 0 1 4/3 1 2 4/3 2 3 4/3 3 0 4/
script write/
run tour --cap 1 --budget 3
line
parts 1
mesh_part 0 5 4/0 0 0/4 0 0/2 2 0/4 4 0/0 4 0/3 0 1 2/3 1 3 2/3 4 0 2/3 3 4 2/
notes build tris 4 dropped 0 records 2 peak 0 budget 3/replay parts 1 reads 4 tests 0/
left_bytes 736";

#[test]
fn a_tour_writes_what_its_budget_has_simplified(rt: HostRuntime) -> Result<(), Fail> {
    assert_eq!(rt; failures(rt.alloc(), TOURED_SQUARES)?.as_str(), "");
    Ok(())
}

const TOURED_CUBE: &str = "\
case a closed mesh, whole and from far away
work_room 1000000
script view 128 128 128 0/write/view 100000 0 0 65536/write/
run gen --size 4
line
parts 1
closed 0
again
run tour --cap 16 --budget 64
line
parts 2
faces 0 192
closed 0
closed 1
notes build tris 192 dropped 0 records 7 peak 57 budget 64/replay parts 2 reads 11 tests 14/";

#[test]
fn a_tour_writes_closed_parts(rt: HostRuntime) -> Result<(), Fail> {
    assert_eq!(rt; failures(rt.alloc(), TOURED_CUBE)?.as_str(), "");
    Ok(())
}

// The numbers of the build and of the parts are those of the plain program. Seven blocks are read for each part that has all triangles, none
// for the others, and four calls open the store.
const LARGE_TOURS: &str = "\
case one tour
work_room 4000000
store_room 2000000
out_room 2000000
run gen --size 40
again
script view 1280 1280 1280 0/write/view 5000 1280 1280 65536/write/view 20000 1280 1280 65536/write/view -3000 -3000 -3000 4096/write/view 1280 1280 2600 256/write/
run tour --budget 16384
line
parts 5
faces 0 19200
faces 1 3694
faces 2 3694
faces 3 19200
faces 4 19200
notes build tris 19200 dropped 0 records 7 peak 7390 budget 16384/replay parts 5 reads 25 tests 35/
left_bytes 1435924
store
run tour --budget 16384
line
parts 5
faces 0 19200
faces 1 3694
faces 2 3694
faces 3 19200
faces 4 19200
notes build tris 19200 dropped 0 records 7 peak 7390 budget 16384/replay parts 5 reads 25 tests 35/
left_bytes 1435924";

#[test]
fn two_tours_over_many_triangles_write_the_same(rt: HostRuntime) -> Result<(), Fail> {
    assert_eq!(rt; failures(rt.alloc(), LARGE_TOURS)?.as_str(), "");
    Ok(())
}
