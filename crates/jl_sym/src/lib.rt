//! What a run of rows does to a state that isn't known yet: its summary, made from a tape.
//!
//! It promises that a summary leads from each state that stands for some rows to what the decoder finds after these in
//! the run, the first fault included, and that it keeps what the laws of summaries ask of one. It stands on jl_tape, and
//! on those laws, jl_sym_laws.
#![tactic(auto)]

mod asker;
mod demand;
mod entry;
mod growing;
mod id_word;
mod keeping;
mod marks;
mod of_run;
mod position;
mod putting;
mod relative_id;
mod rows;
mod slots;
mod steps;
mod summary;
mod summing;
#[cfg(test)]
mod tests;
mod words;

pub use demand::{Demand, Kept, Need};
pub use marks::Marks;
pub use of_run::summarise;
pub use relative_id::{Refs, RelativeId, is_reference_in, size_of};
pub use steps::Steps;
pub use summary::{Left, Summary, Write};
pub use summing::summarise_tape;
