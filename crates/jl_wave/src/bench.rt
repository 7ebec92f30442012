//! What a worker has to itself.
use jl_cells::Pass;
use jl_scan::{Published, Scanned};
use jl_state::State;
use jl_tape::Tape;

/// A worker's things in a wave.
#[derive(Drop)]
pub struct Bench<F: Scanned, T: Drop> {
    /// The run before which the state stands, unless a fault lies before it.
    pub at: u64,
    pub state: State,
    /// A run before which a fault lies, once one was found. Then the state is of no use.
    pub dead: Option<u64>,
    pub tape: Tape,
    pub tools: T,
    pub pass: Pass<Published<F>>,
}

/// What is kept of a worker's things from wave to wave: memory that is used again. The state may be any.
#[derive(Drop)]
pub struct Kept<T: Drop> {
    pub state: State,
    pub tape: Tape,
    pub tools: T,
}
