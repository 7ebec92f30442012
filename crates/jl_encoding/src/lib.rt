//! The file of a list of items: which rows an item has behind the rows before it, and how they stand in frames.
//!
//! It is definitions and laws: the rows of items state these items, and the file of proper items is decoded to them
//! without a fault. It stands on jl_spell, for the bytes, and on jl_rows, for what rows mean.
#![tactic(auto)]

mod form;
mod laws;
#[cfg(test)]
mod tests;

pub use form::Form;
pub use laws::{encodings_decode, frames_are_handed, items_are_stated, worked_rows};
