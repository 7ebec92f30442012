ghost use Rattle.std.specs.Prelude.{ℕ, Option};
ghost use Rattle.jl_base.specs.Causes.{HasCause};
ghost use Rattle.jl_base.specs.Sources.{moved};
ghost use Rattle.jl_base.specs.Sinks.{Held, Adds, AddsFront, TakesSome, Turns};

use crate::Failed;

/// Something that bytes are written to.
pub trait Sink {
    /// What it was given, where it tells that.
    ghost held: { Self → Option Held };

    /// How often it has failed.
    ghost faults: { Self → ℕ };

    /// Takes the first bytes of the piece, and answers how many.
    fn write(&mut self, piece: &[u8]) -> Result<usize, Failed>
        ensures bound { TakesSome result piece.now }
        ensures adds { Adds (held self.old) (held self.new) (moved result piece.now) }
        ensures cause { HasCause (faults self.old) (faults self.new) result };
}

/// A sink whose bytes are cut into parts.
pub trait Shelf: Sink {
    /// Finishes the part under way, and begins an empty one.
    fn turn(&mut self) -> Result<(), Failed>
        ensures turns { Turns (Self.held self.old) (Self.held self.new) result }
        ensures cause { HasCause (Self.faults self.old) (Self.faults self.new) result };
}

/// Writes the whole piece. Takes no memory.
pub fn write_all<K: Sink>(sink: &mut K, piece: &[u8]) -> Result<(), Failed>
    ensures adds { AddsFront (K.held sink.old) (K.held sink.new) piece.now result }
    ensures cause { HasCause (K.faults sink.old) (K.faults sink.new) result }
{
    let mut rest = piece;
    while !rest.is_empty() {
        let taken = sink.write(rest)?;
        rest = &rest[taken..];
    }
    Ok(())
}
