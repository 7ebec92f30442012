//! Summaries.
use crate::demand::Demand;
use crate::relative_id::{Refs, RelativeId};
use jl_rows::{RawTerm, Table};
use jl_state::Extent;

/// After so many rows of the run, this text went into the slot of this id.
#[derive(Clone, Copy, Debug)]
pub struct Write {
    pub moment: u32,
    pub table: Table,
    pub id: RelativeId,
    pub text: Extent,
}

/// What a run leaves of a thing that is kept: the incoming one, nothing, or a term as a row wrote it, with the last ids
/// before it and the moment at which its texts are read.
#[derive(Clone, Copy, Debug, PartialEq, Eq)]
pub enum Left {
    Incoming,
    Cleared,
    Set {
        moment: u32,
        before: Refs,
        term: RawTerm,
    },
}

/// What a run does to whatever state comes before it. A moment is how many rows of the run were read. Texts are places of
/// the run's bytes.
#[derive(Debug, Drop)]
pub struct Summary {
    pub rows: u32,
    /// Entries of the lookup tables, in their order.
    pub writes: Vec<Write>,
    /// What the run asks of the state, in the order of its checks.
    pub demands: Vec<Demand>,
    /// The last entry of each table.
    pub name_entry: RelativeId,
    pub prefix_entry: RelativeId,
    pub datatype_entry: RelativeId,
    /// The ids of the last IRI.
    pub ids: Refs,
    pub subject: Left,
    pub predicate: Left,
    pub object: Left,
    pub graph: Left,
    pub open_graph: Left,
}
