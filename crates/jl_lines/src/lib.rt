//! The N-Quads lines of the items of a stretch of frames, written straight from the bytes while the rows are read, or how
//! many items there are; and the same of a run's rows from their tape.
//!
//! It promises that what a decoding comes to in the end, its lines, counts and fault, stays what it was, however far it
//! goes and whatever follows; and that what it gives a sink is a prefix of these lines: all of them where nothing failed,
//! those before the first fault where there is one. It stands on jl_tape, jl_state, jl_rows and jl_text.
#![tactic(auto)]

mod decoding;
mod frame;
mod giving;
mod known;
mod line;
mod page;
mod placing;
mod statement;
mod stretch;
mod taped;
#[cfg(test)]
mod tests;
mod writing;

pub use decoding::{Counts, Decoding, Refused};
pub use giving::Broken;
pub use page::Page;
pub use writing::Writing;
