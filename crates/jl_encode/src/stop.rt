//! Why an encoder takes no more items.
ghost use Rattle.std.specs.Prelude.{◌≡◌};
ghost use Rattle.jl_encode.specs.declared.stop.Stop.TheVariants.{NoMemory};

use std::alloc::{AllocError, AllocFailed};

/// Why an encoder takes no more items.
#[derive(Clone, Copy, Debug)]
pub enum Stop {
    /// The sink failed. It was given a front of the file.
    WriteFault,
    /// The item of this number, from 1, asks a table for more texts than it has slots, or takes more than 2^26 bytes.
    TooWide(u64),
    /// The encoder stopped before, or its file is finished.
    Spent,
    /// Memory wasn't found.
    NoMemory,
}

impl From<AllocError> for Stop {
    ghost from_gives = { λ _ stop. stop ≡ NoMemory };

    fn from(_error: AllocError) -> Stop {
        Stop::NoMemory
    }
}

impl<T: Drop> From<AllocFailed<T>> for Stop {
    ghost from_gives = { λ _ stop. stop ≡ NoMemory };

    fn from(_error: AllocFailed<T>) -> Stop {
        Stop::NoMemory
    }
}
