// What a blob holds of the rows that were added, and what a write that fails leaves.
use crate::spots::{PointBuffer, Spot};
use std::test::Fail;
use tpz_io::{Failed, MemBlob};

const FIRST: Spot = Spot { x: -5, y: 7, z: 0 };

#[test]
fn a_row_is_written_when_the_buffer_is_flushed(rt: HostRuntime) -> Result<(), Fail> {
    let alloc = rt.alloc();
    let mut blob = MemBlob::new(alloc, b"", 64, Vec::new(alloc))?;
    let mut buffer = PointBuffer::new(alloc)?;
    assert!(rt; buffer.add(&mut blob, 0, FIRST).is_ok());
    assert_eq!(rt; blob.bytes().len(), 0);
    assert!(rt; buffer.flush(&mut blob, 1).is_ok());
    assert_eq!(rt;
        blob.bytes(),
        [251, 255, 255, 255, 7, 0, 0, 0, 0, 0, 0, 0].as_slice()
    );
    Ok(())
}

#[test]
fn a_write_that_fails_is_told(rt: HostRuntime) -> Result<(), Fail> {
    let alloc = rt.alloc();
    let mut blob = MemBlob::new(alloc, b"", 64, [1].to_vec(alloc)?)?;
    let mut buffer = PointBuffer::new(alloc)?;
    assert!(rt; buffer.add(&mut blob, 0, FIRST).is_ok());
    assert_eq!(rt; buffer.flush(&mut blob, 1), Err(Failed));
    assert_eq!(rt; blob.bytes().len(), 0);
    Ok(())
}
