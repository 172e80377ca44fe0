// The stream of a name.
ghost use Rattle.std.specs.Prelude.{◌≡◌, Some, IfOk, ℕ, List};
ghost use Rattle.std.specs.FinMap as map;
ghost use Rattle.tri_stream.specs.declared.names.StreamId.{StreamId};
ghost use Rattle.tri_stream.specs.Streams.{IsLive, Stands};
ghost use Rattle.assign.specs.Naming.{Names};

use crate::leaves::Leaves;
use std::alloc::AllocError;
use tetra_name::Tet;
use tri_stream::{StreamId, Streams};

/// The stream of a name. Where it has none, a new one without triangles becomes its stream; the stream that it had must be live.
pub fn stream_of(
    streams: &mut Streams,
    leaves: &mut Leaves,
    leaf: Tet,
) -> Result<StreamId, AllocError>
    requires { (id : StreamId) → map.get leaves.old leaf ≡ Some id → IsLive streams.old id }
    ensures stream { IfOk result (λ id. Names leaf id leaves.old leaves.new streams.old streams.new) }
    ensures base { streams.new.base ≡ streams.old.base }
    ensures l { streams.new.l ≡ streams.old.l }
    ensures stands { (bytes : List ℕ) → Stands streams.old bytes → Stands streams.new bytes }
{
    if let Some(id) = leaves.stream(leaf) {
        return Ok(id);
    }
    let id = streams.make()?;
    leaves.set(leaf, id)?;
    Ok(id)
}
