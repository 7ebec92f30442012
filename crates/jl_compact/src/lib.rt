//! A summary without what nothing can see, so that its size has a bound however long its run is.
//!
//! It promises that a compacted summary does what the whole one does, on every state with tables of the file's sizes, and
//! that it holds at most 14 writes and 4 demands for each slot of these tables, and 8 demands more. It stands on jl_sym,
//! and on the laws of summaries, jl_sym_laws.
#![tactic(auto)]

mod compacting;
mod cutting;
mod demands;
#[cfg(test)]
mod tests;
mod unseen;
mod writes;

pub use compacting::{compact, size};
