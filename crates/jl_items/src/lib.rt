//! A wave of a file's runs, shared out to workers who make something of each run's items: for users of the library, who
//! have a scan of some runs and the state before them.
//!
//! It promises that what is made of a run is a `Maker`'s answer to exactly the items that the run's rows state before
//! their first fault; that the pieces come in the order of their runs, up to and with the first that has a fault; and
//! that without one the state after the wave is answered. It stands on jl_wave for the workers, and on jl_resolve for the
//! items.
#![tactic(auto)]

mod driving;
mod making;
#[cfg(test)]
mod tests;
mod workers;

pub use driving::{Driven, drive_items};
pub use making::MakerWork;
