// How far a diamond's own simplification moved a vertex.
ghost use Rattle.std.specs.Prelude.{◌≡◌};
ghost use Rattle.saturate.specs.Raised.{greatest_length};

use tpz_base::{Move, max_dist};

/// The greatest length of a move in the max-norm, in whole scaled units, and 0 where there is no move.
pub fn own_error(moves: &[Move]) -> u32
    ensures { result ≡ greatest_length moves.now }
{
    let mut own = 0;
    for m in moves {
        own = own.max(max_dist(m.from, m.to));
    }
    own
}
