//! The way of a triangle down the hierarchy of tetrahedra.
//!
//! A triangle goes where its barycentre is: to a root by the order of its coordinates, and from a tetrahedron to one of its two children by the
//! side of the bisecting plane. A triangle in a plane goes to child 0, so it has exactly one path.
#![tactic(auto)]

mod leaf;
mod leaves;
mod naming;
mod near;
mod plane;
mod root;
mod sum;

pub use leaf::leaf_of;
pub use leaves::{Leaves, Split};
pub use naming::stream_of;
pub use near::{Members, nearest};
pub use plane::{Plane, side};
pub use root::root_of;
