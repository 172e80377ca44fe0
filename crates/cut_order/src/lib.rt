//! The order of a mesh's finest cut: its triangles leaf by leaf, or root by root where nothing is split, with their vertices numbered.
#![tactic(auto)]

mod numbering;
mod order;

pub use numbering::number_by_roots;
pub use order::number_leaves;
