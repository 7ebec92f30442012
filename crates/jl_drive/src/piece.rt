use jl_base::Fault;

/// What was made of a run, by which worker, and the run's fault where it has one. The run counts from the first of those
/// that were shared out, and the worker is the place of its own things.
#[derive(Drop)]
pub struct Piece<T> {
    pub run: u64,
    pub worker: u32,
    pub made: T,
    pub fault: Option<Fault>,
}
