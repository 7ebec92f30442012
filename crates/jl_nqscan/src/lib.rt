//! A text of N-Quads, scanned: how many statements it has, whether one of them has a graph, and where its first bad
//! line stands.
//!
//! It promises that the counts are those of reading the text, in specs/Reading.antt, for any number of workers. It stands
//! on jl_nqread, jl_wire and jl_base.
#![tactic(auto)]

mod line_scan;
mod parts;
mod piece;

pub use line_scan::LineScan;
pub use parts::scan_lines;

#[cfg(test)]
mod tests;
