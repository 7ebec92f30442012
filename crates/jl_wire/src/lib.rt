//! The Protocol Buffers wire format: varints, fields and UTF-8, each read in place and without memory.
//!
//! It promises that each reader is exactly its definition, and that a place it answers lies behind the one it was
//! given. It stands on jl_base.
#![tactic(auto)]

mod field;
mod number;
#[cfg(test)]
mod tests;
mod text;

pub use field::{Field, Value, next_field};
pub use number::{varint, varint_refusals};
pub use text::utf8;
