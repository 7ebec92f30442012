//! The bytes of numbers, fields, messages, rows and frames of a Jelly file, as short as they can be.
//!
//! It promises that each writer appends exactly the defined bytes, and as laws that a reader finds in such bytes what was
//! spelled: varints, fields, messages, whole rows, the rows of a frame, frames. Its specs are the definitions of these
//! bytes, over the table of messages that the reader has. It stands on jl_rows.
#![tactic(auto)]

mod field;
mod laws;
mod message;
mod number;
#[cfg(test)]
mod tests;

pub use field::{front_size, number_size, push_bytes, push_front, push_number};
pub use laws::{
    bodies_read_back, fields_read_back, frames_read_back, messages_read_back, rows_read_back,
    varints_read_back,
};
pub use message::{
    iri_size, push_entry, push_iri, push_simple_literal, push_tagged_literal, push_typed_literal,
};
pub use number::{push_varint, varint, varint_len};
