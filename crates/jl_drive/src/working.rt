//! What is done with runs, and who sees it.
ghost use Rattle.std.specs.Prelude.{◌≡◌, ℕ, ◌+◌, ◌^◌, ◌<◌, IfOk, OnOk, MatchOption};
ghost use Rattle.jl_base.specs.declared.place.Fault.{Fault};
ghost use Rattle.jl_drive.specs.Pieces.{Skipped, EndsSo};

use jl_base::Fault;
use std::alloc::AllocError;

/// Sees what the workers do. It changes nothing.
pub trait Gate: Sync {
    /// A worker drew a run, and is about to decode it unless a fault lies before it. The run counts from the file's first
    /// one.
    fn enter(&self, worker: u32, run: u64);
}

/// What is done with each of some runs, by a worker that keeps things of its own from run to run. Runs count from 0.
pub trait Work: Sync {
    /// What a worker has to itself.
    type Own: Drop + Send;

    /// What is made of a run.
    type Made: Drop + Send;

    /// How many runs there are.
    ghost count: { Self → ℕ };

    /// How many of the file's runs stand before them.
    ghost start: { Self → ℕ };

    /// The worker's own things are of this work.
    ghost fits: { Self → Self.Own → Type 0 };

    /// The worker knows all that lies on the way to this run.
    ghost knows: { Self → Self.Own → ℕ → Type 0 };

    /// This is made of the run.
    ghost makes: { Self → ℕ → Self.Made → Type 0 };

    /// Neither the run nor one before it has a fault.
    ghost fine: { Self → ℕ → Type 0 };

    /// The run has this fault, and none before it has one.
    ghost faulty: { Self → ℕ → Fault → Type 0 };

    fn runs(&self) -> u64
        ensures { result ≡ count self.now };

    /// The number of run 0 among all runs of the file, which is what a gate is told of.
    fn first(&self) -> u64
        ensures exact { result ≡ start self.now }
        ensures room { result + count self.now < 2 ^ 64 };

    /// What is made of a run, and its fault. The answer is None where a run before it has a fault, as far as the worker
    /// can tell: then the run may be left out. What a worker knew it knows still.
    fn work(
        &self,
        own: &mut Self::Own,
        run: u64,
    ) -> Result<Option<(Self::Made, Option<Fault>)>, AllocError>
        requires fits { fits self.now own.old }
        requires within { run < count self.now }
        ensures fits { OnOk result (fits self.now own.new) }
        ensures keeps { OnOk result ((k : ℕ) → knows self.now own.old k → knows self.now own.new k) }
        ensures made { IfOk result (λ r. MatchOption r (Skipped (fine self.now) run) (λ y. makes self.now run y.0 × EndsSo (fine self.now) (faulty self.now) run y.1 × knows self.now own.new run)) };
}
