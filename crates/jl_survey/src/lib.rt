//! What a Jelly file has in it, without what its rows mean, and the reports of that.
//!
//! It promises that a survey, which takes the frames of one window after another, has exactly the numbers of the file's
//! frames, metadata and rows of each sort, or else is exactly the first fault that keeps its rows from being read; and
//! that the reports are their layouts, byte for byte. It stands on jl_frames, jl_rows, jl_text, jl_wire, jl_base and
//! itoa.
#![tactic(auto)]

mod first_row;
mod metadata;
mod numbers;
mod report;
#[cfg(test)]
mod tests;
mod walk;
mod windows;

pub use numbers::Survey;
pub use report::{report_inspect, report_valid};
pub use walk::survey;
pub use windows::{Unsurveyed, survey_source};
