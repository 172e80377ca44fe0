// What `build` answers, and what it leaves in the store.
use crate::failures;
use std::test::Fail;

const BUILT_STORES: &str = "\
case a square
mesh 5 4/0 0 0/4 0 0/4 4 0/0 4 0/2 2 0/3 0 1 4/3 1 2 4/3 2 3 4/3 3 0 4/
script_fails 1
run build --cap 1
line
notes build tris 4 dropped 0 records 2 peak 4 budget 32768/
parts 0
unused script
left square
case a triangle that is there twice
mesh 3 2/0 0 0/2 0 0/2 2 0/3 0 1 2/3 0 1 2/
script_fails 1
run build --cap 1
line
notes build tris 2 dropped 0 records 4 peak 2 budget 32768/
parts 0
unused script
left doubled";

#[test]
fn a_store_is_built_byte_by_byte(rt: HostRuntime) -> Result<(), Fail> {
    assert_eq!(rt; failures(rt.alloc(), BUILT_STORES)?.as_str(), "");
    Ok(())
}

const TOLD_BUILDS: &str = "\
case build --cap 1
mesh 5 4/0 0 0/4 0 0/4 4 0/0 4 0/2 2 0/3 0 1 4/3 1 2 4/3 2 3 4/3 3 0 4/
script_fails 1
run build --cap 1
line
notes build tris 4 dropped 0 records 2 peak 4 budget 32768/
parts 0
unused script
run info
line
notes info level 2 digits 0 tris 4 dropped 0 cap 1 budget 32768 records 2 bytes 616/
parts 0
case build --budget=4 --cap=1
mesh 5 4/0 0 0/4 0 0/4 4 0/0 4 0/2 2 0/3 0 1 4/3 1 2 4/3 2 3 4/3 3 0 4/
script_fails 1
run build --budget=4 --cap=1
line
notes build tris 4 dropped 0 records 2 peak 4 budget 4/
parts 0
unused script
run info
line
notes info level 2 digits 0 tris 4 dropped 0 cap 1 budget 4 records 2 bytes 616/
parts 0
case build --cap 1 --budget 3
mesh 5 4/0 0 0/4 0 0/4 4 0/0 4 0/2 2 0/3 0 1 4/3 1 2 4/3 2 3 4/3 3 0 4/
script_fails 1
run build --cap 1 --budget 3
line
notes build tris 4 dropped 0 records 2 peak 0 budget 3/
parts 0
unused script
run info
line
notes info level 2 digits 0 tris 4 dropped 0 cap 1 budget 3 records 2 bytes 736/
parts 0
case build --digits 1
mesh 5 4/0 0 0/4 0 0/4 4 0/0 4 0/2 2 0/3 0 1 4/3 1 2 4/3 2 3 4/3 3 0 4/
script_fails 1
run build --digits 1
line
notes build tris 4 dropped 0 records 0 peak 0 budget 32768/
parts 0
unused script
run info
line
notes info level 6 digits 1 tris 4 dropped 0 cap 1024 budget 32768 records 0 bytes 248/
parts 0";

#[test]
fn a_build_is_told_by_its_store(rt: HostRuntime) -> Result<(), Fail> {
    assert_eq!(rt; failures(rt.alloc(), TOLD_BUILDS)?.as_str(), "");
    Ok(())
}

const STORES_IN_THE_WAY: &str = "\
case a store of one byte
mesh 5 4/0 0 0/4 0 0/4 4 0/0 4 0/2 2 0/3 0 1 4/3 1 2 4/3 2 3 4/3 3 0 4/
input_fails 1
script_fails 1
work_fails 1
out_fails 1
byte 0 84
run build
line tpz: the store is not empty: 1 bytes
unused input
unused script
unused work
unused out
left_bytes 1";

#[test]
fn a_store_that_is_not_empty_is_refused_before_the_input_is_read(
    rt: HostRuntime,
) -> Result<(), Fail> {
    assert_eq!(rt; failures(rt.alloc(), STORES_IN_THE_WAY)?.as_str(), "");
    Ok(())
}

const REFUSED_BUILDS: &str = "\
case an index past the end
mesh 3 1/0 0 0/4 0 0/0 4 0/3 0 1 3/
script_fails 1
run build
line tpz: bad input: BadIndex 3 at element 1 row 0
notes
parts 0
unused script
left";

#[test]
fn an_input_that_is_refused_leaves_the_store_empty(rt: HostRuntime) -> Result<(), Fail> {
    assert_eq!(rt; failures(rt.alloc(), REFUSED_BUILDS)?.as_str(), "");
    Ok(())
}

const STORE_CALLS: &str = "\
case call 1
mesh 5 4/0 0 0/4 0 0/4 4 0/0 4 0/2 2 0/3 0 1 4/3 1 2 4/3 2 3 4/3 3 0 4/
script_fails 1
store_fails 1
run build --cap 1
line tpz: store failed
notes
parts 0
unused script
run info
notes
case call 2
mesh 5 4/0 0 0/4 0 0/4 4 0/0 4 0/2 2 0/3 0 1 4/3 1 2 4/3 2 3 4/3 3 0 4/
script_fails 1
store_fails 2
run build --cap 1
line tpz: store failed
notes
parts 0
unused script
run info
notes
case call 3
mesh 5 4/0 0 0/4 0 0/4 4 0/0 4 0/2 2 0/3 0 1 4/3 1 2 4/3 2 3 4/3 3 0 4/
script_fails 1
store_fails 3
run build --cap 1
line tpz: store failed
notes
parts 0
unused script
run info
notes
case call 4
mesh 5 4/0 0 0/4 0 0/4 4 0/0 4 0/2 2 0/3 0 1 4/3 1 2 4/3 2 3 4/3 3 0 4/
script_fails 1
store_fails 4
run build --cap 1
line tpz: store failed
notes
parts 0
unused script
run info
notes
case call 5
mesh 5 4/0 0 0/4 0 0/4 4 0/0 4 0/2 2 0/3 0 1 4/3 1 2 4/3 2 3 4/3 3 0 4/
script_fails 1
store_fails 5
run build --cap 1
line tpz: store failed
notes
parts 0
unused script
run info
notes
case call 6
mesh 5 4/0 0 0/4 0 0/4 4 0/0 4 0/2 2 0/3 0 1 4/3 1 2 4/3 2 3 4/3 3 0 4/
script_fails 1
store_fails 6
run build --cap 1
line tpz: store failed
notes
parts 0
unused script
run info
notes
case call 7
mesh 5 4/0 0 0/4 0 0/4 4 0/0 4 0/2 2 0/3 0 1 4/3 1 2 4/3 2 3 4/3 3 0 4/
script_fails 1
store_fails 7
run build --cap 1
line tpz: store failed
notes
parts 0
unused script
run info
notes
case call 8
mesh 5 4/0 0 0/4 0 0/4 4 0/0 4 0/2 2 0/3 0 1 4/3 1 2 4/3 2 3 4/3 3 0 4/
script_fails 1
store_fails 8
run build --cap 1
line tpz: store failed
notes
parts 0
unused script
run info
notes
case call 9
mesh 5 4/0 0 0/4 0 0/4 4 0/0 4 0/2 2 0/3 0 1 4/3 1 2 4/3 2 3 4/3 3 0 4/
script_fails 1
store_fails 9
run build --cap 1
line tpz: store failed
notes
parts 0
unused script
run info
notes
case call 10
mesh 5 4/0 0 0/4 0 0/4 4 0/0 4 0/2 2 0/3 0 1 4/3 1 2 4/3 2 3 4/3 3 0 4/
script_fails 1
store_fails 10
run build --cap 1
line tpz: store failed
notes
parts 0
unused script
run info
line
notes info level 2 digits 0 tris 4 dropped 0 cap 1 budget 32768 records 2 bytes 616/
case call 11
mesh 5 4/0 0 0/4 0 0/4 4 0/0 4 0/2 2 0/3 0 1 4/3 1 2 4/3 2 3 4/3 3 0 4/
script_fails 1
store_fails 11
run build --cap 1
line
notes build tris 4 dropped 0 records 2 peak 4 budget 32768/
parts 0
unused script
left square";

#[test]
fn each_call_of_the_store_may_fail(rt: HostRuntime) -> Result<(), Fail> {
    assert_eq!(rt; failures(rt.alloc(), STORE_CALLS)?.as_str(), "");
    Ok(())
}

const FAILED_NOTES: &str = "\
case one triangle
mesh 3 1/0 0 0/4 0 0/0 4 0/3 0 1 2/
out_fails 1
run build
line tpz: output failed
out_fails 2
run info
line
notes info level 2 digits 0 tris 1 dropped 0 cap 1024 budget 32768 records 0 bytes 140/";

#[test]
fn a_note_that_fails_leaves_the_store(rt: HostRuntime) -> Result<(), Fail> {
    assert_eq!(rt; failures(rt.alloc(), FAILED_NOTES)?.as_str(), "");
    Ok(())
}
