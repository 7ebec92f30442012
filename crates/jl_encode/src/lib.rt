//! Items to a Jelly file: an encoder that is handed items one by one and gives a sink their file in frames.
//!
//! It promises the bytes that jl_encoding defines. It stands on jl_encoding, for what these bytes are, on jl_spell, for
//! how they are spelled, and on indexmap, for its tables.
#![tactic(auto)]

mod count;
mod desk;
mod encoder;
mod items;
mod lasts;
mod laws;
mod list;
mod refusal;
mod spelling;
#[cfg(test)]
mod spelling_tests;
mod split;
mod stated;
mod stop;
mod terms;
#[cfg(test)]
mod tests;
mod texts;

pub use encoder::Encoder;
pub use jl_encoding::Form;
pub use laws::steps_are_rows;
pub use list::encode;
pub use stop::Stop;
