//! The rows of a run of frames, read once and kept: a tape, which may then be gone over as often as is wanted.
//!
//! It promises that a tape has exactly the rows of the run's frames at their places, up to their first fault, which is
//! answered, and, as laws, that the rows of runs one after another are those of the file. It stands on jl_frames and
//! jl_rows.
#![tactic(auto)]

pub mod laws;
mod read;
mod tape;
#[cfg(test)]
mod tests;

pub use read::{read_frame, read_run};
pub use tape::{PlacedRow, Tape};
