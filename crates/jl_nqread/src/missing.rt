//! Why a part of a line wasn't read.
ghost use Rattle.std.specs.Prelude.{◌≡◌};
ghost use Rattle.jl_nqread.specs.declared.missing.Missing.TheVariants.{Memory};

use std::alloc::{AllocError, AllocFailed};

/// The part doesn't stand there, or memory wasn't found.
#[derive(Clone, Copy, Debug)]
pub enum Missing {
    Part,
    Memory,
}

impl From<AllocError> for Missing {
    ghost from_gives = { λ _ missing. missing ≡ Memory };

    fn from(_error: AllocError) -> Missing {
        Missing::Memory
    }
}

impl<T: Drop> From<AllocFailed<T>> for Missing {
    ghost from_gives = { λ _ missing. missing ≡ Memory };

    fn from(_error: AllocFailed<T>) -> Missing {
        Missing::Memory
    }
}
