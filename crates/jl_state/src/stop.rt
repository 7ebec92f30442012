//! Why a step wasn't made.
ghost use Rattle.std.specs.Prelude.{◌≡◌};
ghost use Rattle.jl_state.specs.declared.stop.Stop.TheVariants.{Fault, NoMemory};

use jl_base::Kind;
use std::alloc::{AllocError, AllocFailed};

/// A row has a fault, or memory wasn't found. The state is of no use then.
#[derive(Clone, Copy, Debug)]
pub enum Stop {
    Fault(Kind),
    NoMemory,
}

impl From<Kind> for Stop {
    ghost from_gives = { λ kind stop. stop ≡ Fault kind };

    fn from(kind: Kind) -> Stop {
        Stop::Fault(kind)
    }
}

impl From<AllocError> for Stop {
    ghost from_gives = { λ _ stop. stop ≡ NoMemory };

    fn from(_error: AllocError) -> Stop {
        Stop::NoMemory
    }
}

impl<T: Drop> From<AllocFailed<T>> for Stop {
    ghost from_gives = { λ _ stop. stop ≡ NoMemory };

    fn from(_error: AllocFailed<T>) -> Stop {
        Stop::NoMemory
    }
}
