//! What every crate of jellyp stands on: places in a file, the kinds of faults, lists that contracts see as lists,
//! the bytes of the inputs, and the traits of the outside. The devices that have these traits stand in `jl_io`.
//!
//! It asks of a device that its own count of faults stays where all went well, that it rose where a failure is told,
//! and that what the device took or gave is a prefix of what it was asked. It stands on the standard library, and on
//! `sqlite_items` for a box that contracts see as its value.
#![tactic(auto)]

mod failed;
mod kind;
mod place;
mod room;
mod seq;
mod sink;
mod source;
mod space;
mod term;
mod text;

pub use failed::Failed;
pub use kind::{Kind, kind_name};
pub use place::{Fault, Place, Run, Span};
pub use seq::Seq;
pub use sink::{Shelf, Sink, write_all};
pub use source::Source;
pub use space::{FillFault, Space};
pub use term::{Item, Items, Tail, Term, Three};
pub use text::Text;

// The box of a triple term's three terms.
pub use sqlite_items::Boxed;

#[cfg(test)]
mod tests;
