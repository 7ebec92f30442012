//! What a run of rows does to a state that isn't known yet: a summary, and the laws by which two of them compose.
//!
//! It promises that the summary of a run, on each state, does what the decoder's steps do, first faults included, and
//! that a composed summary does what its two parts do one after the other. There is no code in it beyond the laws: it
//! stands on jl_state, whose states and steps the laws speak of.
#![tactic(auto)]

pub mod laws;
