ghost use Rattle.std.specs.Prelude.{◌≡◌, ◌<◌, length};
ghost use Rattle.std.specs.Io.{ReadsAtMost};
ghost use Rattle.std.specs.Io.KnownBytes.{IsAtEnd};
ghost use Rattle.jl_base.specs.Causes.{HasCause};
ghost use Rattle.jl_base.specs.Sources.{Told, Reads, moved};

use crate::Failed;

/// Something that bytes are read from.
pub trait Source {
    /// What it has left, where it tells that, how many bytes it has given, and how often it has failed.
    ghost told: { Self → Told };

    /// Reads some bytes into the front of the buffer, and answers how many. No byte, and room for some, is the end.
    fn read(&mut self, buf: &mut [u8]) -> Result<usize, Failed>
        ensures bound { ReadsAtMost result buf.new }
        ensures read { Reads (told self.old) (told self.new) (moved result buf.new) }
        ensures end { result ≡ Ok 0 → 0 < length buf.new → IsAtEnd (told self.new).left }
        ensures cause { HasCause (told self.old).faults (told self.new).faults result };
}
