// The blocks of a cut's records, and the patches that they show.
ghost use Rattle.std.specs.Prelude.{◌≡◌, ◌==◌, ◌≤◌, ◌<◌, ◌⊎◌, ℕ, None, Some, Ok, Err, [], ◌++◌, true, All, Contains, length, flat_map, slice_get, IfOk, IfErr, OnOk, is_ok};
ghost use Rattle.std.specs.Int.{bit_at};
ghost use Rattle.std.specs.Option.{ForSome};
ghost use Rattle.tetra_name.specs.Names.{point_of, IsBound};
ghost use Rattle.diamond_graph.specs.Closed.{CanSplit};
ghost use Rattle.patch_view.specs.Views.{mesh_of};
ghost use Rattle.patch_file.specs.declared.shape.StoreBad.{StoreBad};
ghost use Rattle.patch_file.specs.Allowed.{is_right_block};
ghost use Rattle.patch_file.specs.Asking.{HasAsked};
ghost use Rattle.patch_file.specs.Patches.{joined};
ghost use Rattle.patch_file.specs.Reading.{patches_of, IsBlockOf, IsRightBase};
ghost use Rattle.view_cut.specs.Sets.{centres_at, IsConformingSet};
ghost use Rattle.run_status.specs.declared.status.Status.{Status};
ghost use Rattle.run_status.specs.declared.status.ReadAt.{ReadAt};
ghost use Rattle.cut_blocks.specs.WrongBlocks.{first_wrong, wrong_at};
ghost use Rattle.cut_blocks.specs.Shown.{all_patches, bit_picked, is_unread, outer_patches_at, shown_patches, stored_in, AreCounted, IsNamed, IsOpen};

use diamond_graph::Graph;
use patch_file::{Block, BlockFault, StoreReader};
use patch_view::PatchView;
use run_status::{ReadAt, Status};
use std::alloc::{AllocError, Global};
use tetra_name::{Half, Tet, child, root};
use tpz_io::Blob;
use view_cut::active;

/// The block of a record of a cut, with the centre of the record, and the patches that the cut shows: that of the child
/// `which` of the member `slot` where the bit 2·slot + which is 1.
#[derive(Drop)]
pub struct Shown {
    pub centre: Half,
    pub bits: u16,
    pub block: Block,
}

/// Reads the block of a record, up to so many times. Each read is counted.
pub fn read_with_tries<S: Blob>(
    alloc: Global,
    reader: &StoreReader,
    store: &mut S,
    i: u32,
    tries: u32,
    reads: &mut u64,
) -> Result<Block, Status>
    requires place { i < length reader.now.places }
    requires length { ForSome (S.held store.old) (λ bs. length bs ≡ reader.now.bytes) }
    ensures table { IfOk result (λ block. ForSome (S.held store.old) (λ bs. IsBlockOf bs reader.now i (Ok block))) }
    ensures right { IfOk result (λ block. ForSome (slice_get reader.now.places i) (λ place. is_right_block reader.now.params.l (patches_of reader.now.params.l place) block ≡ true)) }
    ensures bad { (bad : StoreBad) → result ≡ Err (Status.BadStore bad) → (offset : ℕ) × (bad ≡ StoreBad.BadBlock i offset)
        × ForSome (S.held store.old) (λ bs. IsBlockOf bs reader.now i (Err offset)) }
    ensures status { IfErr result (λ status. (status ≡ Status.Memory) ⊎ ((status ≡ Status.ReadFault (ReadAt.Record i)) ⊎ ((bad : StoreBad) × (status ≡ Status.BadStore bad)))) }
    ensures held { S.held store.new ≡ S.held store.old }
    ensures asked { HasAsked tries 1 (is_ok result) (is_unread result) (S.faults store.old) (S.faults store.new) (S.reads store.old) (S.reads store.new) (S.outcomes store.old) (S.outcomes store.new) }
    ensures counted { OnOk result (AreCounted reads.old reads.new (S.reads store.old) (S.reads store.new)) }
{
    'tries: for _ in 0..tries {
        *reads = reads.saturating_add(1);
        match reader.read_block(alloc, store, i) {
            Ok(block) => return Ok(block),
            Err(BlockFault::Failed) => continue,
            Err(BlockFault::Bad(bad)) => return Err(Status::BadStore(bad)),
            Err(BlockFault::Memory) => return Err(Status::Memory),
        }
    }
    Err(Status::ReadFault {
        at: ReadAt::Record { rec: i },
    })
}

// Reads what a cut shows of one of its records.
fn read_shown<S: Blob>(
    alloc: Global,
    reader: &StoreReader,
    graph: &Graph,
    set: &[u32],
    i: u32,
    store: &mut S,
    tries: u32,
    reads: &mut u64,
) -> Result<Shown, Status>
    requires open { IsOpen (S.held store.old) reader.now graph.now }
    requires set { IsConformingSet graph.now set.now }
    requires member { Contains set.now i }
    ensures patches { IfOk result (λ shown. ForSome (S.held store.old) (λ bs. shown_patches shown ≡ outer_patches_at (stored_in reader.now bs).0 (centres_at graph.now.records set.now) i)) }
    ensures right { OnOk result (ForSome (S.held store.old) (λ bs. wrong_at (stored_in reader.now bs).0 i ≡ None)) }
    ensures named { IfOk result (IsNamed graph.now.l) }
    ensures bad { (bad : StoreBad) → result ≡ Err (Status.BadStore bad) → (offset : ℕ) × (bad ≡ StoreBad.BadBlock i offset)
        × ForSome (S.held store.old) (λ bs. wrong_at (stored_in reader.now bs).0 i ≡ Some (i, offset)) }
    ensures status { IfErr result (λ status. (status ≡ Status.Memory) ⊎ ((status ≡ Status.ReadFault (ReadAt.Record i)) ⊎ ((bad : StoreBad) × (status ≡ Status.BadStore bad)))) }
    ensures held { S.held store.new ≡ S.held store.old }
    ensures asked { HasAsked tries 1 (is_ok result) (is_unread result) (S.faults store.old) (S.faults store.new) (S.reads store.old) (S.reads store.new) (S.outcomes store.old) (S.outcomes store.new) }
    ensures counted { OnOk result (AreCounted reads.old reads.new (S.reads store.old) (S.reads store.new)) }
{
    let bits = active(graph, set, i);
    let block = match read_with_tries(alloc, reader, store, i, tries, reads) {
        Ok(block) => block,
        Err(status) => return Err(status),
    };
    let centre = graph.centre_at(i);
    Ok(Shown {
        centre,
        bits,
        block,
    })
}

/// Reads what a cut shows of its records: their blocks in record order, each up to so many times. Each read is counted.
pub fn read_cut<S: Blob>(
    alloc: Global,
    reader: &StoreReader,
    graph: &Graph,
    set: &[u32],
    store: &mut S,
    tries: u32,
    reads: &mut u64,
) -> Result<Vec<Shown>, Status>
    requires open { IsOpen (S.held store.old) reader.now graph.now }
    requires set { IsConformingSet graph.now set.now }
    ensures patches { IfOk result (λ shown. ForSome (S.held store.old) (λ bs.
        flat_map shown_patches shown.items ≡ flat_map (outer_patches_at (stored_in reader.now bs).0 (centres_at graph.now.records set.now)) set.now)) }
    ensures count { IfOk result (λ shown. length shown.items ≡ length set.now) }
    ensures right { OnOk result (ForSome (S.held store.old) (λ bs. first_wrong (stored_in reader.now bs).0 set.now ≡ None)) }
    ensures named { IfOk result (λ shown. All (IsNamed graph.now.l) shown.items) }
    ensures bad { (bad : StoreBad) → result ≡ Err (Status.BadStore bad) → (i offset : ℕ) × (bad ≡ StoreBad.BadBlock i offset)
        × ForSome (S.held store.old) (λ bs. first_wrong (stored_in reader.now bs).0 set.now ≡ Some (i, offset)) }
    ensures status { IfErr result (λ status. (status ≡ Status.Memory) ⊎ (((i : ℕ) × (status ≡ Status.ReadFault (ReadAt.Record i)) × Contains set.now i) ⊎ ((bad : StoreBad) × (status ≡ Status.BadStore bad)))) }
    ensures held { S.held store.new ≡ S.held store.old }
    ensures asked { HasAsked tries (length set.now) (is_ok result) (is_unread result) (S.faults store.old) (S.faults store.new) (S.reads store.old) (S.reads store.new) (S.outcomes store.old) (S.outcomes store.new) }
    ensures counted { OnOk result (AreCounted reads.old reads.new (S.reads store.old) (S.reads store.new)) }
{
    let mut shown = Vec::new(alloc);
    'records: for i in set {
        match read_shown(alloc, reader, graph, set, *i, store, tries, reads) {
            Ok(one) => shown.push(one)?,
            Err(status) => return Err(status),
        }
    }
    Ok(shown)
}

// Whether the bit of a number at a place is 1.
fn is_set(bits: u16, k: u8) -> bool
    requires { k < 16 }
    ensures { result ≡ (bit_at bits k == 1) }
{
    bits >> k & 1 == 1
}

// Adds views of the patches that are shown of a block.
fn add_shown<'a>(shown: &'a Shown, l: u8, into: &mut Vec<PatchView<'a>>) -> Result<(), AllocError>
    requires bound { IsBound l }
    requires named { IsNamed l shown.now }
    ensures { OnOk result (mesh_of into.new.items ≡ mesh_of into.old.items ++ joined (shown_patches shown.now)) }
{
    'parts: for k in 0..shown.block.patch_count() {
        if is_set(shown.bits, k) {
            let member = Tet {
                centre: shown.centre,
                slot: k / 2,
            };
            into.push(PatchView {
                tet: child(member, k % 2, l),
                tris: shown.block.patch(k),
            })?;
        }
    }
    Ok(())
}

// Adds views of the roots' patches.
fn add_roots<'a>(base: &'a Block, l: u8, into: &mut Vec<PatchView<'a>>) -> Result<(), AllocError>
    requires bound { IsBound l }
    requires base { IsRightBase l base.now }
    ensures { OnOk result (mesh_of into.new.items ≡ mesh_of into.old.items ++ joined base.now.patches) }
{
    'roots: for slot in 0..base.patch_count() {
        into.push(PatchView {
            tet: root(slot, l),
            tris: base.patch(slot),
        })?;
    }
    Ok(())
}

// Adds views of the patches that are shown of blocks, one after another.
fn add_all_shown<'a>(
    shown: &'a [Shown],
    l: u8,
    into: &mut Vec<PatchView<'a>>,
) -> Result<(), AllocError>
    requires bound { IsBound l }
    requires named { All (IsNamed l) shown.now }
    ensures { OnOk result (mesh_of into.new.items ≡ mesh_of into.old.items ++ joined (flat_map shown_patches shown.now)) }
{
    'all: for one in shown {
        add_shown(one, l, into)?;
    }
    Ok(())
}

/// Views of what a cut shows: the roots' patches where it has no record, and else the patches of its records' blocks.
pub fn views_of<'a>(
    alloc: Global,
    base: &'a Block,
    l: u8,
    shown: &'a [Shown],
) -> Result<Vec<PatchView<'a>>, AllocError>
    requires bound { IsBound l }
    requires base { IsRightBase l base.now }
    requires named { All (IsNamed l) shown.now }
    ensures { IfOk result (λ views. mesh_of views.items ≡ joined (all_patches base.now.patches shown.now)) }
{
    let mut views = Vec::new(alloc);
    if shown.is_empty() {
        add_roots(base, l, &mut views)?;
    } else {
        add_all_shown(shown, l, &mut views)?;
    }
    Ok(views)
}
