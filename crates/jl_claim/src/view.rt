use std::collections::LinkedList;

/// What the rule of a board knows of a seat. It stands in proofs alone: no value of it is made.
pub struct View {
    pub bound: u64,
    pub drawn: LinkedList<u64>,
    pub lowered: LinkedList<u64>,
    pub seen: u64,
    pub seats: u64,
    pub room: u64,
}
