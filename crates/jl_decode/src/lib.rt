//! Whole files, wave by wave: the N-Quads lines of a file's items into a sink, or how many items it has.
//!
//! It promises that what it gives a sink is a prefix of the decoder's lines: all of them where nothing failed, those before
//! the first fault where there is one; and that it counts the decoder's items. A wave is decoded straight from the bytes, or
//! by several workers, who make a page of each run; either way has the same contract, so nothing above knows of it. It
//! stands on jl_lines, on jl_wave for several workers, on jl_frames and on jl_rows.
#![tactic(auto)]

mod count;
mod crew;
mod driven;
mod file;
mod nowhere;
mod piece;
#[cfg(test)]
mod tests;
mod waves;
mod write;

pub use count::count_items;
pub use file::Tally;
pub use piece::{LineTools, LineWork, Written};
pub use write::{Ended, write_lines};
