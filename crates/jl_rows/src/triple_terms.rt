//! Triple terms, which a row leaves where they lie.
ghost use Rattle.std.specs.Prelude.{◌≡◌};
ghost use Rattle.jl_base.specs.Spans.{IsInside, text_of};
ghost use Rattle.jl_rows.specs.Seen.{HasTriple, ReadsAgain, nested_at, nested_seen};

use crate::message::Message;
use crate::parts::Found;
use crate::read::read;
use crate::row::RawTriple;
use jl_base::Span;

/// How many triple terms may stand in a triple term of a row, one in another.
const MOST_INSIDE: u32 = 31;

/// The terms of a triple term, by where its message lies. A row that was read has read it whole, and it says here what
/// it said there (`triple_terms_again`).
pub fn triple_term_at(bytes: &[u8], inner: Span) -> RawTriple
    requires { IsInside bytes.now inner }
    ensures exact { nested_seen bytes.now result ≡ nested_at (text_of bytes.now inner) }
    ensures inside { HasTriple bytes.now result }
{
    let at = inner.at as usize;
    let end = at + inner.len as usize;
    let Ok(parts) = read(bytes, at, end, Message::Triple, MOST_INSIDE) else {
        return RawTriple {
            s: None,
            p: None,
            o: None,
        };
    };
    let found = Found { bytes, parts };
    RawTriple {
        s: found.term(0),
        p: found.term(1),
        o: found.term(2),
    }
}

/// A law of the definitions, and no work: a triple term which was read whole is read again without a fault, and says
/// the same, however many others it stood in.
pub fn triple_terms_again()
    ensures { ReadsAgain }
{}
