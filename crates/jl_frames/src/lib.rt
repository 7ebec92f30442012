//! The frames of a file and how they are shared out: the index of all frames, runs of frames, and waves of runs.
//!
//! It promises that the index has exactly the file's frames and the fault behind them, and that a plan's runs cover the
//! frames in order, each once. It stands on jl_rows.
#![tactic(auto)]

mod feed;
mod frames;
pub mod laws;
mod plan;
mod walk;

pub use feed::{Feed, Window};
pub use frames::{Frames, index};
pub use plan::Plan;

#[cfg(test)]
mod tests;
