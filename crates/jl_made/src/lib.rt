//! Made items: for each number a list of items that is always the same, in all sorts that a file of triples has.
//!
//! It promises what each item is. It stands on jl_base and itoa.
#![tactic(auto)]

mod made;
mod refilling;
#[cfg(test)]
mod tests;

pub use made::Made;
