//! Stream options.
ghost use Rattle.std.specs.Prelude.{◌≡◌};
ghost use Rattle.std.specs.Str.{bytes_eq};
ghost use Rattle.jl_base.specs.Spans.{IsInside, text_of};
ghost use Rattle.jl_rows.specs.Decoder.{is_same};
ghost use Rattle.jl_rows.specs.Seen.{HasForm, number_of, options_seen};

use jl_base::Span;

/// The stream options of a row, nine values. The stream's name is where its bytes lie; absent values are 0, false and
/// empty.
#[derive(Clone, Copy, Debug)]
pub struct Options {
    pub stream_name: Span,
    /// The physical type: `TRIPLES`, `QUADS` or `GRAPHS`, once the first row was checked.
    pub physical: u32,
    pub generalized: bool,
    pub star: bool,
    /// The most entries of the name table.
    pub names: u32,
    pub prefixes: u32,
    pub datatypes: u32,
    pub logical: u32,
    pub version: u32,
    /// What the file declares is checked. No message says this.
    pub strict: bool,
}

/// The physical types as numbers, as options have them.
pub const TRIPLES: u32 = 1;

pub const QUADS: u32 = 2;

pub const GRAPHS: u32 = 3;

/// What a file's rows make: triples, quads, or triples in graphs.
#[derive(Clone, Copy, Debug, PartialEq, Eq)]
pub enum Physical {
    Triples,
    Quads,
    Graphs,
}

impl Options {
    /// The physical type.
    pub fn form(&self) -> Physical
        requires { HasForm self.now }
        ensures { number_of result ≡ self.now.physical }
    {
        match self.physical {
            TRIPLES => Physical::Triples,
            QUADS => Physical::Quads,
            _ => Physical::Graphs,
        }
    }

    /// Whether all nine values are the same; the names of the streams by their bytes.
    pub fn same(&self, bytes: &[u8], other: &Options) -> bool
        requires here { IsInside bytes.now self.now.stream_name }
        requires there { IsInside bytes.now other.now.stream_name }
        ensures { result ≡ is_same (options_seen bytes.now self.now) (options_seen bytes.now other.now) }
    {
        same_text(bytes, self.stream_name, other.stream_name)
            && self.physical == other.physical
            && self.generalized == other.generalized
            && self.star == other.star
            && self.names == other.names
            && self.prefixes == other.prefixes
            && self.datatypes == other.datatypes
            && self.logical == other.logical
            && self.version == other.version
    }
}

// Whether two spans have the same bytes.
fn same_text(bytes: &[u8], a: Span, b: Span) -> bool
    requires here { IsInside bytes.now a }
    requires there { IsInside bytes.now b }
    ensures { result ≡ bytes_eq (text_of bytes.now a) (text_of bytes.now b) }
{
    let a_at = a.at as usize;
    let b_at = b.at as usize;
    bytes[a_at..a_at + a.len as usize] == bytes[b_at..b_at + b.len as usize]
}
