//! Sets of diamonds that hold the parents of each of their members, and their records in record order.
//!
//! A set is made by adding one diamond after another, each with its ancestors. Sealed, it becomes a graph: a list of records by level, then by
//! centre, in which a record is found by its centre.
#![tactic(auto)]

mod ancestors;
mod closing;
mod fault;
mod graph;
mod rank;
mod record;

pub use ancestors::ClosingFault;
pub use closing::Closing;
pub use fault::GraphFault;
pub use graph::Graph;
pub use record::Record;
