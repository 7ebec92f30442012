//! A wave of a file's runs, shared out to workers: each reads the runs that it draws onto a tape, gives the others what
//! they do, finds the state before them by what the others gave, and makes something of their rows.
//!
//! It promises that there is one piece of each run, in order and made from the very state that the decoder's steps over
//! all rows before it lead to; that of several faults the first one is answered, and the pieces end with its run; and
//! that otherwise the state after the wave is that of the decoder after all its rows. Nothing of this depends on how many
//! workers there are, or on which of them draws what. What is made of a run, the trait `Making` tells. It stands on
//! jl_drive for the workers, on jl_scan for the way from run to run, and on jl_tape.
#![tactic(auto)]

mod bench;
mod driving;
mod going;
mod making;
mod refilling;
mod seating;
mod threads;
mod wave;

pub use bench::Kept;
pub use driving::{Waved, drive_wave};
pub use making::Making;
