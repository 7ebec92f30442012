//! Workers that share out numbered runs among them: they draw the numbers from a board, each keeps things of its own from
//! run to run, and what they make comes back in the order of the runs.
//!
//! It promises that there is one piece of each run, in order and made as the work's own contract says: of all runs where
//! none has a fault, and else of those up to and with the first that has one, whose fault is answered. This holds in
//! every schedule. Runs after a fault are left out, or made for nothing. What a run is and what is made of it, the trait
//! `Work` tells. It stands on jl_claim for the board, and on jl_base for the fault.
#![tactic(auto)]

mod driving;
mod gather;
mod jobs;
mod order;
mod piece;
mod worker;
mod working;

pub use driving::{Drove, drive};
pub use piece::Piece;
pub use working::{Gate, Work};

#[cfg(test)]
mod tests;
