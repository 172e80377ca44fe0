//! Names of the tetrahedra of longest-edge bisection.
//!
//! A name is the midpoint of the bisected edge, in half-units, with a slot among the tetrahedra that share that midpoint. Corners, children,
//! parents and the diamonds beside a diamond are computed from the powers of two in the coordinates: a point is first counted in the greatest
//! unit in which it is whole, and a tetrahedron there is a pair of directions along the axes.
#![tactic(auto)]

mod adjacent;
mod ascent;
mod centre;
mod descent;
mod direction;
mod shape;
mod slot;
mod state;
mod tuple;

pub use adjacent::{kids_of, parents_of};
pub use ascent::parent;
pub use centre::{is_centre, level};
pub use descent::child;
pub use shape::{Half, Halves, Tet, whole_point};
pub use slot::member_count;
pub use tuple::{corners, root};
