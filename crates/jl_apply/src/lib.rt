//! A summary of a run acts on a state, in place: so it becomes the state after the run's rows.
//!
//! It promises that the state afterwards is the one that the summary leads to, or that the fault is the first one of the
//! run, and that what a state keeps of itself stays. No memory is taken but for triple terms. It stands on jl_sym, whose
//! summaries it plays, and on jl_state.
#![tactic(auto)]

mod acting;
mod incoming;
mod log;
mod lookup;
mod new_terms;
#[cfg(test)]
mod tests;

pub use acting::{Halt, Outcome, apply, apply_in};
