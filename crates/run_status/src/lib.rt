//! What a run ends with: its status, the exit status and the line of each, and what a fault of each library is told as.
#![tactic(auto)]

mod status;

pub use status::{
    InputKind, Place, ReadAt, Status, status_of_body, status_of_build, status_of_claim,
    status_of_export, status_of_head, status_of_open, status_of_script, status_of_split,
};
