//! What the devices of a run say before and after it: definitions alone, in which what holds of a run is stated.
#![tactic(auto)]
