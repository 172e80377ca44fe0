// A worked store is opened, and its blocks are read.
ghost use Rattle.std.specs.Prelude.{◌≤◌};

use crate::store_writing::SQUARE;
use patch_file::{BlockFault, OpenFault, StoreBad, StoreReader};
use std::alloc::{AllocError, Global};
use std::process::Abort;
use std::test::Fail;
use tpz_io::MemBlob;

/// The store of the square with this byte at a place.
fn changed(alloc: Global, at: usize, byte: u8) -> Result<Vec<u8>, AllocError> {
    let mut bytes = SQUARE.to_vec(alloc)?;
    if at < bytes.len() {
        bytes[at] = byte;
    }
    Ok(bytes)
}

/// A store without records: a header, and six empty patches.
fn without_records(alloc: Global) -> Result<Vec<u8>, AllocError> {
    let mut bytes = Vec::new(alloc);
    bytes.resize(104, 0)?;
    for (at, byte) in [
        (0, 84),
        (1, 80),
        (2, 90),
        (3, 49),
        (4, 1),
        (5, 1),
        (48, 1),
        (52, 1),
        (64, 80),
        (72, 104),
    ] {
        if at < bytes.len() {
            bytes[at] = byte;
        }
    }
    Ok(bytes)
}

/// Opens a store in memory whose calls with these numbers fail, and gives the number of its records.
fn open(
    alloc: Global,
    bytes: &[u8],
    fails: &[u64],
    tries: u32,
) -> Result<Result<u32, OpenFault>, Fail>
    requires some { 1 ≤ tries }
    requires few { tries ≤ 100 }
{
    let mut store = MemBlob::new(alloc, bytes, 0, fails.to_vec(alloc)?)?;
    match StoreReader::open(alloc, &mut store, tries) {
        Ok((reader, _graph)) => Ok(Ok(reader.records())),
        Err(fault) => Ok(Err(fault)),
    }
}

#[test]
fn a_store_is_opened_within_its_tries(rt: HostRuntime) -> Result<(), Fail> {
    let alloc = rt.alloc();
    let bytes = changed(alloc, 0, 84)?;
    assert_eq!(rt; open(alloc, &bytes, &[], 1)?, Ok(2));
    assert_eq!(rt; open(alloc, &bytes, &[1, 3], 2)?, Ok(2));
    assert_eq!(rt; open(alloc, &bytes, &[1, 2], 2)?, Err(OpenFault::ReadFault));
    assert_eq!(rt; open(alloc, &bytes, &[4], 1)?, Err(OpenFault::ReadFault));
    assert_eq!(rt; open(alloc, &without_records(alloc)?, &[], 1)?, Ok(0));
    Ok(())
}

/// How many calls opened the store of the square, where the calls with these numbers fail.
fn asked(alloc: Global, fails: &[u64], tries: u32) -> Result<Option<u64>, Fail>
    requires some { 1 ≤ tries }
    requires few { tries ≤ 100 }
{
    let mut store = MemBlob::new(alloc, &SQUARE, 0, fails.to_vec(alloc)?)?;
    match StoreReader::open(alloc, &mut store, tries) {
        Ok((reader, _graph)) => Ok(Some(reader.asked())),
        Err(_) => Ok(None),
    }
}

#[test]
fn each_call_that_opens_a_store_is_counted(rt: HostRuntime) -> Result<(), Fail> {
    let alloc = rt.alloc();
    assert_eq!(rt; asked(alloc, &[], 1)?, Some(4));
    assert_eq!(rt; asked(alloc, &[1, 3], 2)?, Some(6));
    assert_eq!(rt; asked(alloc, &[1, 2, 4, 6], 3)?, Some(8));
    assert_eq!(rt; asked(alloc, &[4], 1)?, None);
    Ok(())
}

/// Opens the store of the square with one byte changed.
fn check_changed(
    rt: &impl Abort,
    alloc: Global,
    at: usize,
    byte: u8,
    bad: StoreBad,
) -> Result<(), Fail> {
    let bytes = changed(alloc, at, byte)?;
    assert_eq!(rt; open(alloc, &bytes, &[], 1)?, Err(OpenFault::Bad(bad)));
    Ok(())
}

#[test]
fn a_damaged_store_is_refused_by_its_first_damage(rt: HostRuntime) -> Result<(), Fail> {
    let alloc = rt.alloc();
    let rows = [
        (0, 0, StoreBad::Magic),
        (4, 0, StoreBad::Unfinished { gate: 0 }),
        (5, 31, StoreBad::Field { offset: 5 }),
        (128, 141, StoreBad::Field { offset: 128 }),
        (152, 4, StoreBad::Order { rec: 1 }),
        (84, 0, StoreBad::NotClosed { rec: 0 }),
        (96, 1, StoreBad::NotSaturated { rec: 0 }),
        (520, 2, StoreBad::BadBlock { rec: 2, offset: 40 }),
    ];
    for (at, byte, bad) in rows {
        check_changed(&rt, alloc, at, byte, bad)?;
    }
    Ok(())
}

#[test]
fn a_store_that_is_cut_is_too_short(rt: HostRuntime) -> Result<(), Fail> {
    let alloc = rt.alloc();
    let mut bytes = changed(alloc, 0, 84)?;
    for len in [615, 104, 103, 0] {
        bytes.truncate(len);
        let bad = StoreBad::Short { len: len as u64 };
        assert_eq!(rt; open(alloc, &bytes, &[], 1)?, Err(OpenFault::Bad(bad)));
    }
    Ok(())
}

/// How many patches and moves the block of a record has, in a store whose calls with these numbers fail.
fn block(
    rt: &impl Abort,
    alloc: Global,
    bytes: &[u8],
    i: u32,
    fails: &[u64],
) -> Result<Result<(u8, usize), BlockFault>, Fail> {
    let mut store = MemBlob::new(alloc, bytes, 0, fails.to_vec(alloc)?)?;
    let Ok((reader, _graph)) = StoreReader::open(alloc, &mut store, 1) else {
        return Ok(Err(BlockFault::Memory));
    };
    assert!(rt; i < reader.records());
    match reader.read_block(alloc, &mut store, i) {
        Ok(block) => Ok(Ok((block.patch_count(), block.moves().len()))),
        Err(fault) => Ok(Err(fault)),
    }
}

#[test]
fn a_block_is_read_or_refused_at_its_first_damage(rt: HostRuntime) -> Result<(), Fail> {
    let alloc = rt.alloc();
    let bytes = changed(alloc, 0, 84)?;
    assert_eq!(rt; block(&rt, alloc, &bytes, 0, &[])?, Ok((12, 0)));
    assert_eq!(rt; block(&rt, alloc, &bytes, 1, &[])?, Ok((4, 1)));
    assert_eq!(rt;
        block(&rt, alloc, &bytes, 1, &[5])?,
        Err(BlockFault::Failed)
    );
    for (at, byte, rec, offset) in [(516, 1, 0, 124), (212, 4, 1, 4), (396, 3, 0, 76)] {
        let bytes = changed(alloc, at, byte)?;
        let bad = StoreBad::BadBlock { rec, offset };
        assert_eq!(rt;
            block(&rt, alloc, &bytes, rec, &[])?,
            Err(BlockFault::Bad(bad))
        );
    }
    Ok(())
}
