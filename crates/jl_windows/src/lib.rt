//! Sources of any length, window by window: what is written of a file's items into a sink, or how many items it has.
//!
//! It promises that what it gives a sink is a prefix of the lines of the file, which is what was read and what the source
//! tells that it has left: all of them where nothing failed, those before the first fault where there is one, and exactly
//! those of the whole windows where the source failed or is too long. It stands on jl_lines, jl_frames and jl_rows.
#![tactic(auto)]

mod counting;
mod nowhere;
mod reading;
mod seek;
mod source;
mod stopped;
#[cfg(test)]
mod tests;
mod window;

pub use counting::count_source;
pub use source::decode_source;
pub use stopped::{Stopped, Streamed};
