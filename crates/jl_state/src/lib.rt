//! The state that a decoder keeps while it goes through the rows of a file, and what one row does to it.
//!
//! It promises that a step is exactly the one of the definitions, and its laws that a state which stands for the rows
//! so far stands, after a step, for these and the next row. It stands on jl_rows, and on jl_text for what an entry's
//! text needs once it is written.
#![tactic(auto)]

mod carry;
mod copy;
mod extent;
mod known;
pub mod laws;
mod look;
mod position;
mod state;
mod step;
mod stop;
mod tables;
mod tag;
#[cfg(test)]
mod tests;

pub use carry::bring_texts;
pub use extent::Extent;
pub use known::{Known, KnownTail, KnownThree};
pub use position::{Position, stands_strictly};
pub use state::State;
pub use step::Stated;
pub use stop::Stop;
pub use tables::{LastIds, Tables};
pub use tag::is_tag;
