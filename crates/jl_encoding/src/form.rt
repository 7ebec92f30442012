//! In which form items are written.

/// The forms in which items are written: triples, or quads.
#[derive(Clone, Copy, Debug, PartialEq, Eq)]
pub enum Form {
    Triples,
    Quads,
}
