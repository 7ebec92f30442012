//! Cells that are written once and for good, and the passes in which callers keep what they know of them.
//!
//! It promises that a value which a pass knows is its cell's value for good, that two passes which know one cell know
//! one value, and that a look finds nothing only where its pass knew nothing. Only `new` and `pass` take memory, and
//! nothing waits. It stands on `once_cell`, and needs nothing of jl_base so far.
#![tactic(auto)]

mod cells;
mod pass;
mod row;
mod sight;
mod threads;

pub use cells::Cells;
pub use pass::Pass;

#[cfg(test)]
mod tests;
