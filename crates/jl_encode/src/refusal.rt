//! Why an item wasn't put.
ghost use Rattle.std.specs.Prelude.{◌≡◌};
ghost use Rattle.jl_encode.specs.declared.refusal.Refusal.TheVariants.{NoMemory};

use std::alloc::{AllocError, AllocFailed};

/// Why an item wasn't put. The tables are of no use then.
#[derive(Clone, Copy, Debug)]
pub enum Refusal {
    TooWide,
    NoMemory,
}

impl From<AllocError> for Refusal {
    ghost from_gives = { λ _ refusal. refusal ≡ NoMemory };

    fn from(_error: AllocError) -> Refusal {
        Refusal::NoMemory
    }
}

impl<T: Drop> From<AllocFailed<T>> for Refusal {
    ghost from_gives = { λ _ refusal. refusal ≡ NoMemory };

    fn from(_error: AllocFailed<T>) -> Refusal {
        Refusal::NoMemory
    }
}
