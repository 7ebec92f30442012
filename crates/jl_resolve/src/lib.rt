//! The items of a run of frames, owned, from the state before it: for users of the library, who take a file's items
//! run by run, in whichever order the states before them are known.
//!
//! It promises the decoder's items and first fault from any state that stands for the rows before, and the state after
//! the run where it has no fault. What is made of a run's items is a `Maker`'s to say. It stands on jl_tape and
//! jl_state, and on jl_text for lines.
#![tactic(auto)]

mod items;
mod maker;
mod resolving;
mod terms;
#[cfg(test)]
mod tests;

pub use maker::{LineMaker, Maker};
pub use resolving::{End, Resolved, resolve, resolve_tape};
