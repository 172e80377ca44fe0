// A collapse by the numbers of its ends.

/// The vertex that moved and the one in whose place it was put, by their numbers in the list.
#[derive(Clone, Copy)]
pub struct Pair {
    pub from: u32,
    pub to: u32,
}
