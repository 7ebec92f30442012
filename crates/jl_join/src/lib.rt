//! Items of several files as items of one file.
//!
//! Blank labels belong to their file: where files are joined, each label is renamed by its file's number, and where
//! some file has graphs, the triples of the others become quads of the default graph. It promises that an item is
//! changed in exactly this, and that no label of one file becomes a label of another. It stands on jl_base and itoa.
#![tactic(auto)]

mod laws;
mod relabelling;
mod widening;

pub use laws::{files_are_merged, items_stay_apart, labels_stay_apart, parts_are_the_items};
pub use relabelling::relabel;
pub use widening::widen;
