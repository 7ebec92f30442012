//! The words of a command line, and the job that they ask for.
//!
//! All that the program takes stands in one table, `table.rt`: each command with its options and how many files it has,
//! and each option with its values. The parser reads the words by that table and knows no command and no option beside
//! it. Nothing here takes memory.
#![tactic(auto)]

mod command;
mod laws;
mod number;
mod options;
mod table;
mod words;

pub use command::{Command, Job};
pub use laws::worked_words;
pub use words::{files, job, output};

#[cfg(test)]
mod tests;
