// What a search for legal pairs keeps.
use crate::keys::Key;
use crate::star::StarFace;
use collapse_queue::Queue;

/// The entries of the vertices by their numbers, which of these are outer, and room for the triangles at one of them and for the vertices near a
/// collapse.
#[derive(Drop)]
pub struct Search {
    pub queue: Queue<Key>,
    pub outer: Vec<bool>,
    pub faces: Vec<StarFace>,
    pub near: Vec<u32>,
}
