//! Two summaries in one, and blocks of them: what runs of rows, one after another, do to a state that isn't known yet.
//!
//! It promises that two summaries in one, or two blocks, do on every settled state what the first one does and then the
//! second, so that they sum the rows of both; that they keep what a summary keeps; that no number of an id can run over,
//! whatever the runs; and that the size of a block has a bound, however long its runs. It stands on jl_apply, jl_compact
//! and jl_sym, and on the laws of summaries, jl_sym_laws.
#![tactic(auto)]

mod block;
mod composing;
mod demands;
mod flat;
mod later;
pub mod laws;
mod shared;
mod size;
#[cfg(test)]
mod tests;
mod threads;
mod writes;

pub use block::Block;
pub use composing::{append, compose, unit};
pub use shared::Shared;
