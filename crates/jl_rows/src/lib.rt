//! Frames, messages and rows of a Jelly file, read in place: what a row says, by ids and by where its texts lie.
//!
//! It promises that the next frame, the next row, the terms of a triple term and the head of a file are exactly the
//! definitions, with the first fault in the order of the bytes, without memory. Its specs are the definitions of the
//! whole format: of messages, rows, histories and the decoder. It stands on jl_wire and jl_base.
#![tactic(auto)]

mod carry;
mod first_row;
mod frame;
mod frame_rows;
mod in_space;
mod message;
mod options;
mod parts;
mod read;
mod read_row;
mod row;
mod short_fields;
#[cfg(test)]
mod tests;
mod triple_terms;
mod usual_positions;
mod usual_rows;
mod usual_terms;
#[cfg(test)]
mod usual_tests;

pub use first_row::{Head, file_head, head_in};
pub use frame::next_frame;
pub use frame_rows::{next_row_at, next_row_into};
pub use in_space::{head, head_at, next_row, triple_term};
pub use message::{Known, Message, Shape};
pub use options::{GRAPHS, Options, Physical, QUADS, TRIPLES};
pub use row::{RawIri, RawQuad, RawTail, RawTerm, RawTriple, Row, Table};
pub use triple_terms::{triple_term_at, triple_terms_again};
