//! How the decoding of a source ends.
ghost use Rattle.std.specs.Prelude.{◌≡◌};
ghost use Rattle.jl_windows.specs.Sources.{unread};
ghost use Rattle.jl_windows.specs.Steps.{broken_off};

use jl_base::{Fault, FillFault};
use jl_lines::{Broken, Counts};

/// How many frames a source has, and how many items of each sort.
#[derive(Clone, Copy, Debug, PartialEq, Eq)]
pub struct Streamed {
    pub frames: u64,
    pub counts: Counts,
}

/// Why a source wasn't decoded to its end.
#[derive(Clone, Copy, Debug)]
pub enum Stopped {
    /// The file's first fault. The lines before it were given, and the source needn't have been read to its end.
    Malformed(Fault),
    /// The source failed. The lines of its whole windows were given, and no others.
    ReadFault,
    /// The source gave more bytes than might be read. The lines of the whole windows of those that might were given, and
    /// no others.
    TooLong,
    /// The sink failed. It was given a prefix of the lines.
    WriteFault,
    /// Memory wasn't found. The sink was given a prefix of the lines.
    NoMemory,
}

/// Why a window wasn't read.
pub(crate) fn why_unread(fault: FillFault) -> Stopped
    ensures { result ≡ unread fault }
{
    match fault {
        FillFault::ReadFault => Stopped::ReadFault,
        FillFault::TooLong => Stopped::TooLong,
        FillFault::NoMemory => Stopped::NoMemory,
    }
}

/// Why the decoding of a window was broken off.
pub(crate) fn why_broken_off(why: Broken) -> Stopped
    ensures { result ≡ broken_off why }
{
    match why {
        Broken::Malformed(fault) => Stopped::Malformed(fault),
        Broken::WriteFault => Stopped::WriteFault,
        Broken::NoMemory => Stopped::NoMemory,
    }
}
