//! Blocks of runs in shared cells, and the way from one run to another through them.
//!
//! It promises that a published value sums the rows of its runs, whoever made it; how many blocks so many runs have; and,
//! as laws, that the walk from one run to another takes the longest block each time and is short, that no two blocks
//! share a cell, and that what is at hand costs nothing again. It stands on jl_compose, whose blocks it publishes, on
//! jl_sym, and on jl_cells.
#![tactic(auto)]

mod block;
mod file;
pub mod laws;
mod numbers;
mod published;
mod reaching;
mod scan;
mod summing;
mod threads;

pub use file::File;
pub use numbers::blocks;
pub use published::{Published, Scanned};
pub use scan::Scan;

#[cfg(test)]
mod tests;
