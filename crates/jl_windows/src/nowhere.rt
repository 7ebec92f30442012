//! A sink for those who write nothing.
ghost use Rattle.std.specs.Prelude.{None};
ghost use Rattle.jl_base.specs.Causes.{HasCause};
ghost use Rattle.jl_base.specs.Sinks.{Adds, TakesSome};
ghost use Rattle.jl_base.specs.Sources.{moved};

use jl_base::{Failed, Sink};

/// Takes each piece whole, keeps nothing and never fails.
#[derive(Clone, Copy, Debug)]
pub struct Nowhere;

impl Sink for Nowhere {
    ghost held = { λ s. None };

    ghost faults = { λ s. 0 };

    fn write(&mut self, piece: &[u8]) -> Result<usize, Failed> {
        Ok(piece.len())
    }
}
