//! Tests of the libraries: worked rows, and calls with ample memory. They stand here, since a crate with tests is proved twice.
#![tactic(auto)]

#[cfg(test)]
mod closed_sets;
#[cfg(test)]
mod collapses;
#[cfg(test)]
mod headers;
#[cfg(test)]
mod leaves;
#[cfg(test)]
mod parts;
#[cfg(test)]
mod scripts;
#[cfg(test)]
mod splits;
#[cfg(test)]
mod store_reading;
#[cfg(test)]
mod store_writing;
#[cfg(test)]
mod tetrahedron_names;
#[cfg(test)]
mod views;
