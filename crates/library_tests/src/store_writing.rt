// Stores that are written with ample memory: a square divided twice, and one without records.
ghost use Rattle.std.specs.Prelude.{◌≡◌, ◌≤◌, ◌<◌, ◌+◌, ◌*◌, ◌^◌, [], length, OnOk};
ghost use Rattle.std.specs.Option.{ForSome};
ghost use Rattle.patch_file.specs.Appended.{Stands};
ghost use Rattle.patch_file.specs.Writing.{claimed};

use diamond_graph::Record;
use patch_file::{Params, StoreWriter, WriteFault};
use std::test::Fail;
use tetra_name::Half;
use tpz_base::{Cell, Move, Point, Tri};
use tpz_io::{Blob, Failed, MemBlob};

// The corners of the square, and its middle.
const A: Point = Point { x: 0, y: 0, z: 0 };

const B: Point = Point { x: 4, y: 0, z: 0 };

const C: Point = Point { x: 4, y: 4, z: 0 };

const D: Point = Point { x: 0, y: 4, z: 0 };

const M: Point = Point { x: 2, y: 2, z: 0 };

const PARAMS: Params = Params {
    l: 2,
    digits: 0,
    low: [0, 0, 0],
    tris: 4,
    dropped: 0,
    cap: 1,
    budget: 32_768,
};

const NO_PARAMS: Params = Params {
    l: 1,
    digits: 0,
    low: [0, 0, 0],
    tris: 0,
    dropped: 0,
    cap: 1,
    budget: 1,
};

const BOTTOM: Record = Record {
    centre: Half { x: 4, y: 4, z: 0 },
    own: 2,
    err: 2,
    cell: Cell { lo: A, hi: C },
};

const TOP: Record = Record {
    centre: Half { x: 4, y: 4, z: 4 },
    own: 0,
    err: 2,
    cell: Cell {
        lo: A,
        hi: Point { x: 4, y: 4, z: 2 },
    },
};

// The store of the square: 616 bytes.
pub(crate) const SQUARE: [u8; 616] = [
    84, 80, 90, 49, 1, 2, 0, 0, 0, 0, 0, 0, 0, 0, 0, 0, 0, 0, 0, 0, 0, 0, 0, 0, 0, 0, 0, 0, 0, 0,
    0, 0, 4, 0, 0, 0, 0, 0, 0, 0, 0, 0, 0, 0, 0, 0, 0, 0, 1, 0, 0, 0, 0, 128, 0, 0, 2, 0, 0, 0, 0,
    0, 0, 0, 8, 2, 0, 0, 0, 0, 0, 0, 104, 2, 0, 0, 0, 0, 0, 0, 4, 0, 0, 0, 4, 0, 0, 0, 4, 0, 0, 0,
    0, 0, 0, 0, 2, 0, 0, 0, 0, 0, 0, 0, 0, 0, 0, 0, 0, 0, 0, 0, 0, 0, 0, 0, 4, 0, 0, 0, 4, 0, 0, 0,
    2, 0, 0, 0, 140, 1, 0, 0, 0, 0, 0, 0, 124, 0, 0, 0, 0, 0, 0, 0, 4, 0, 0, 0, 4, 0, 0, 0, 0, 0,
    0, 0, 2, 0, 0, 0, 2, 0, 0, 0, 0, 0, 0, 0, 0, 0, 0, 0, 0, 0, 0, 0, 0, 0, 0, 0, 4, 0, 0, 0, 4, 0,
    0, 0, 0, 0, 0, 0, 208, 0, 0, 0, 0, 0, 0, 0, 188, 0, 0, 0, 0, 0, 0, 0, 1, 0, 0, 0, 0, 0, 0, 0,
    0, 0, 0, 0, 0, 0, 0, 0, 4, 0, 0, 0, 0, 0, 0, 0, 0, 0, 0, 0, 2, 0, 0, 0, 2, 0, 0, 0, 0, 0, 0, 0,
    1, 0, 0, 0, 4, 0, 0, 0, 0, 0, 0, 0, 0, 0, 0, 0, 4, 0, 0, 0, 4, 0, 0, 0, 0, 0, 0, 0, 2, 0, 0, 0,
    2, 0, 0, 0, 0, 0, 0, 0, 1, 0, 0, 0, 0, 0, 0, 0, 4, 0, 0, 0, 0, 0, 0, 0, 0, 0, 0, 0, 0, 0, 0, 0,
    0, 0, 0, 0, 2, 0, 0, 0, 2, 0, 0, 0, 0, 0, 0, 0, 1, 0, 0, 0, 4, 0, 0, 0, 4, 0, 0, 0, 0, 0, 0, 0,
    0, 0, 0, 0, 4, 0, 0, 0, 0, 0, 0, 0, 2, 0, 0, 0, 2, 0, 0, 0, 0, 0, 0, 0, 1, 0, 0, 0, 2, 0, 0, 0,
    2, 0, 0, 0, 0, 0, 0, 0, 0, 0, 0, 0, 0, 0, 0, 0, 0, 0, 0, 0, 1, 0, 0, 0, 4, 0, 0, 0, 0, 0, 0, 0,
    0, 0, 0, 0, 4, 0, 0, 0, 4, 0, 0, 0, 0, 0, 0, 0, 0, 0, 0, 0, 0, 0, 0, 0, 0, 0, 0, 0, 0, 0, 0, 0,
    0, 0, 0, 0, 0, 0, 0, 0, 1, 0, 0, 0, 4, 0, 0, 0, 4, 0, 0, 0, 0, 0, 0, 0, 0, 0, 0, 0, 4, 0, 0, 0,
    0, 0, 0, 0, 0, 0, 0, 0, 0, 0, 0, 0, 0, 0, 0, 0, 0, 0, 0, 0, 0, 0, 0, 0, 0, 0, 0, 0, 0, 0, 0, 0,
    0, 0, 0, 0, 0, 0, 0, 0, 0, 0, 0, 0, 0, 0, 0, 0, 1, 0, 0, 0, 4, 0, 0, 0, 0, 0, 0, 0, 0, 0, 0, 0,
    4, 0, 0, 0, 4, 0, 0, 0, 0, 0, 0, 0, 0, 0, 0, 0, 0, 0, 0, 0, 0, 0, 0, 0, 0, 0, 0, 0, 1, 0, 0, 0,
    4, 0, 0, 0, 4, 0, 0, 0, 0, 0, 0, 0, 0, 0, 0, 0, 4, 0, 0, 0, 0, 0, 0, 0, 0, 0, 0, 0, 0, 0, 0, 0,
    0, 0, 0, 0, 0, 0, 0, 0, 0, 0, 0, 0, 0, 0, 0, 0,
];

// The header of a store without records: 80 bytes, then six counts of 0.
const NOTHING: [u8; 16] = [b'T', b'P', b'Z', b'1', 1, 1, 0, 0, 0, 0, 0, 0, 0, 0, 0, 0];

fn tri(a: Point, b: Point, c: Point) -> Option<Tri> {
    Some(Tri { a, b, c })
}

/// Writes a patch of at most one triangle.
fn patch<S: Blob>(writer: &mut StoreWriter, store: &mut S, of: Option<Tri>) -> Result<(), Failed>
    requires short { writer.old.progress.end + 40 < 2 ^ 62 }
    requires stands { ForSome (S.held store.old) (Stands writer.old.tail) }
    ensures left { OnOk result (writer.new.progress.left ≡ writer.old.progress.left) }
    ensures short { OnOk result (writer.new.progress.end ≤ writer.old.progress.end + 40) }
    ensures stands { OnOk result (ForSome (S.held store.new) (Stands writer.new.tail)) }
{
    match of {
        None => writer.patch_head(store, 0),
        Some(t) => {
            writer.patch_head(store, 1)?;
            writer.tri(store, t)
        }
    }
}

/// Writes patches of at most one triangle each.
fn patches<S: Blob>(
    writer: &mut StoreWriter,
    store: &mut S,
    of: &[Option<Tri>],
) -> Result<(), Failed>
    requires short { writer.old.progress.end + 40 * length of.now < 2 ^ 62 }
    requires stands { ForSome (S.held store.old) (Stands writer.old.tail) }
    ensures left { OnOk result (writer.new.progress.left ≡ writer.old.progress.left) }
    ensures short { OnOk result (writer.new.progress.end ≤ writer.old.progress.end + 40 * length of.now) }
    ensures stands { OnOk result (ForSome (S.held store.new) (Stands writer.new.tail)) }
{
    for one in of {
        patch(writer, store, *one)?;
    }
    Ok(())
}

/// Writes the store of the square.
fn square<S: Blob>(mut writer: StoreWriter, store: &mut S) -> Result<(), Failed>
    requires claimed { writer ≡ claimed }
    requires empty { ForSome (S.held store.old) (λ bytes. bytes ≡ []) }
{
    writer.begin(store, 2)?;
    patches(
        &mut writer,
        store,
        &[tri(A, B, M), tri(B, C, M), tri(D, A, M), tri(C, D, M)],
    )?;
    writer.moves(store, &[Move { from: M, to: A }])?;
    writer.end_block(store, &BOTTOM)?;
    patches(
        &mut writer,
        store,
        &[
            tri(B, C, A),
            None,
            None,
            None,
            tri(C, D, A),
            None,
            None,
            None,
            None,
            None,
            None,
            None,
        ],
    )?;
    writer.moves(store, &[])?;
    writer.end_block(store, &TOP)?;
    writer.start_base();
    patches(
        &mut writer,
        store,
        &[tri(B, C, A), None, tri(C, D, A), None, None, None],
    )?;
    writer.finish(store, &PARAMS)
}

/// Writes a store without records.
fn nothing<S: Blob>(mut writer: StoreWriter, store: &mut S) -> Result<(), Failed>
    requires claimed { writer ≡ claimed }
    requires empty { ForSome (S.held store.old) (λ bytes. bytes ≡ []) }
{
    writer.begin(store, 0)?;
    writer.start_base();
    patches(&mut writer, store, &[None, None, None, None, None, None])?;
    writer.finish(store, &NO_PARAMS)
}

/// Claims a store and writes the square's into it.
fn claim_and_write<S: Blob>(store: &mut S) -> Result<(), WriteFault> {
    let writer = StoreWriter::claim(store)?;
    square(writer, store).map_err(|_| WriteFault::StoreFault)
}

#[test]
fn a_square_is_written_byte_by_byte(rt: HostRuntime) -> Result<(), Fail> {
    let alloc = rt.alloc();
    let mut store = MemBlob::new(alloc, b"", 1024, Vec::new(alloc))?;
    assert_eq!(rt; claim_and_write(&mut store), Ok(()));
    assert_eq!(rt; store.bytes(), SQUARE.as_slice());
    assert_eq!(rt;
        claim_and_write(&mut store),
        Err(WriteFault::NotEmpty { len: 616 })
    );
    Ok(())
}

#[test]
fn a_store_without_records_is_its_header_and_base(rt: HostRuntime) -> Result<(), Fail> {
    let alloc = rt.alloc();
    let mut store = MemBlob::new(alloc, b"", 1024, Vec::new(alloc))?;
    let Ok(writer) = StoreWriter::claim(&mut store) else {
        return Ok(());
    };
    assert_eq!(rt; nothing(writer, &mut store), Ok(()));
    assert_eq!(rt; store.bytes().len(), 104);
    assert_eq!(rt; &store.bytes()[..16], NOTHING.as_slice());
    Ok(())
}

// The length, eight bytes, a sync, two records, what was gathered, the header, a sync, the gate, a sync.
#[test]
fn each_of_ten_calls_may_fail(rt: HostRuntime) -> Result<(), Fail> {
    let alloc = rt.alloc();
    for (call, len) in [
        (1, 0),
        (2, 0),
        (3, 8),
        (4, 8),
        (5, 208),
        (6, 208),
        (7, 616),
        (8, 616),
        (9, 616),
        (10, 616),
    ] {
        let mut store = MemBlob::new(alloc, b"", 1024, [call].to_vec(alloc)?)?;
        assert_eq!(rt;
            claim_and_write(&mut store),
            Err(WriteFault::StoreFault),
            "at {call}"
        );
        assert_eq!(rt; store.bytes().len(), len, "at {call}");
        assert_eq!(rt; store.bytes() == SQUARE.as_slice(), call == 10, "at {call}");
    }
    let mut store = MemBlob::new(alloc, b"", 1024, [11].to_vec(alloc)?)?;
    assert_eq!(rt; claim_and_write(&mut store), Ok(()));
    Ok(())
}
