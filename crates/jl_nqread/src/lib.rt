//! Lines of N-Quads by their grammar: what shape a line has, what a statement says, and whether a text is
//! one term.
//!
//! It promises that each answer is exactly the definition's, in specs/Lines.antt, which is the public grammar with this
//! project's own labels, triple terms and general positions, and in specs/Meaning.antt, which says what a statement's
//! item is. It stands on jl_wire and jl_base.
#![tactic(auto)]

mod escape;
mod line;
mod line_shape;
mod missing;
mod quoted;
mod reading;
mod take;
mod terms;
mod unescape;

pub use line::{shape, term_ok};
pub use line_shape::Shape;
pub use reading::{item, term};

#[cfg(test)]
mod tests;
