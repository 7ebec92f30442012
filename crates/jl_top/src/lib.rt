//! The program: the goal of each command, and `serve`, which does what the words of a command line ask for: it reads the
//! inputs, writes the output and the line for standard error, and answers the exit status.
//!
//! It promises, of that one call, that status 0 comes with exactly the decoder's lines written, status 1 with the lines
//! before the first fault and that fault's line, and every other status with its cause. It stands on jl_words for the
//! job, jl_decode for the lines, jl_survey for the reports, jl_text for the notices and jl_base for the devices.
#![tactic(auto)]

mod gather;
mod run;
mod top;

pub use jl_drive::Gate;
pub use jl_words::{Command, Job, files, job, output};
pub use top::serve;

#[cfg(test)]
mod tests;
