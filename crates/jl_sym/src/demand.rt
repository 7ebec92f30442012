//! What a run asks of the state before it.
use crate::relative_id::RelativeId;
use jl_base::Fault;
use jl_rows::Table;
use jl_state::Position;

/// What a state keeps by value: the last term at a position, and the open graph.
#[derive(Clone, Copy, Debug, PartialEq, Eq)]
pub enum Kept {
    LastAt(Position),
    OpenGraph,
}

/// What must hold of the incoming state.
#[derive(Clone, Copy, Debug, PartialEq, Eq)]
pub enum Need {
    Fits(Table, RelativeId),
    Filled(Table, RelativeId),
    Has(Kept),
    Lacks(Kept),
    Never,
}

/// A need after so many rows of the run, and the fault that it is where it isn't met.
#[derive(Clone, Copy, Debug, PartialEq, Eq)]
pub struct Demand {
    pub fault: Fault,
    pub need: Need,
    pub moment: u32,
}
