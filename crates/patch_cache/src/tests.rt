// A cache of two places: what comes to the front, what leaves, and what is found.
use crate::Cache;
use std::alloc::AllocError;
use std::process::Abort;
use std::test::Fail;
use tetra_name::Half;

/// A centre in half-units.
fn centre(x: u32) -> Half {
    Half { x, y: 2, z: 2 }
}

/// Admits a value, and compares the centre that leaves.
fn check_admit(
    rt: &impl Abort,
    cache: &mut Cache<u32>,
    x: u32,
    gone: Option<Half>,
) -> Result<(), AllocError> {
    let at = centre(x);
    assert!(rt; cache.peek(at).is_none());
    assert_eq!(rt; cache.admit(at, 10 * (x % 10))?, gone);
    assert_eq!(rt; cache.peek(at).copied(), Some(10 * (x % 10)));
    Ok(())
}

#[test]
fn the_value_that_wasnt_touched_leaves_a_full_cache(rt: HostRuntime) -> Result<(), Fail> {
    let mut cache = Cache::new(rt.alloc(), 2)?;
    assert_eq!(rt; cache.evict_last(), None);
    assert!(rt; !cache.touch(centre(1)));
    check_admit(&rt, &mut cache, 1, None)?;
    check_admit(&rt, &mut cache, 2, None)?;
    assert!(rt; cache.touch(centre(1)));
    check_admit(&rt, &mut cache, 3, Some(centre(2)))?;
    assert!(rt; !cache.touch(centre(2)));
    assert_eq!(rt; cache.evict_last(), Some(centre(1)));
    assert_eq!(rt; cache.evict_last(), Some(centre(3)));
    assert_eq!(rt; cache.evict_last(), None);
    Ok(())
}

#[test]
fn a_large_capacity_takes_no_memory(rt: HostRuntime) -> Result<(), Fail> {
    let mut cache = Cache::new(rt.alloc(), 1_048_576)?;
    check_admit(&rt, &mut cache, 1, None)?;
    Ok(())
}
