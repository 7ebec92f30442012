//! The board from which workers draw the numbers of their runs, and on which they note the least faulty one.
//!
//! It promises that each number below the one to be drawn next was drawn once, by one seat, in every schedule; that the
//! number noted is the least of the bound and of all numbers that were lowered; and that what a seat saw there is never
//! below what the board ends with. Each call is one atomic step. Only `new` takes memory, and nothing waits. It stands
//! on `atomic_table`, and needs nothing of jl_base so far.
#![tactic(auto)]

mod board;
mod seat;
mod table;
mod threads;
mod view;

pub use board::Board;
pub use seat::Seat;

#[cfg(test)]
mod tests;
