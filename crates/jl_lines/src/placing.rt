//! The text of a term of usual shape, placed on a page: its texts are short, and none has escapes.
ghost use Rattle.std.specs.Prelude.{◌+◌, ◌++◌, ◌≤◌, IfSome, length};
ghost use Rattle.jl_text.specs.Line.{iri_text, string_text, term_text, tail_text};
ghost use Rattle.jl_text.specs.Places.{Places};
ghost use Rattle.jl_state.specs.Extents.{text_in, IsHeld, IsSound};
ghost use Rattle.jl_state.specs.KnownTerms.{known_value, tail_value, HasKnown, HasTail};

use jl_state::{Extent, Known, KnownTail};
use jl_text::{place_datatype, place_iri, place_label, place_string, place_tag};

// The room that the end of a literal takes at most, in bytes.
const TAIL_ROOM: usize = 68;

/// The room in bytes that is asked for a term, and for the end of the line behind it.
pub(crate) const TERM_ROOM: usize = 136;

/// The room that a space and the end of a line take, in bytes.
pub(crate) const END_ROOM: usize = 3;

// Places what follows a literal's string.
#[inline(always)]
#[tactic(auto, unfolding(jl_text::specs::Line::tail_text))]
fn place_tail(page: &mut [u8], at: usize, bytes: &[u8], tail: KnownTail) -> Option<usize>
    requires room { at + TAIL_ROOM ≤ length page.old }
    requires has { HasTail bytes.now tail }
    ensures placed { Places page.old page.new at (tail_text (tail_value bytes.now tail)) result }
    ensures room { IfSome result (λ end. end ≤ at + TAIL_ROOM) }
{
    match tail {
        KnownTail::Simple => Some(at),
        KnownTail::Lang(tag) => place_tag(page, at, bytes, tag.span()),
        KnownTail::Typed(datatype) => {
            if datatype.is_xsd_string() {
                return Some(at);
            }
            if !datatype.is_clean() {
                return None;
            }
            place_datatype(page, at, bytes, datatype.span())
        }
    }
}

// Places a literal.
#[inline(always)]
#[tactic(auto, unfolding(jl_text::specs::Line::term_text))]
fn place_literal(
    page: &mut [u8],
    at: usize,
    bytes: &[u8],
    lex: Extent,
    tail: KnownTail,
) -> Option<usize>
    requires room { at + TERM_ROOM ≤ length page.old }
    requires lex { IsHeld bytes.now lex }
    requires tail { HasTail bytes.now tail }
    ensures placed { Places page.old page.new at (string_text (text_in bytes.now lex) ++ tail_text (tail_value bytes.now tail)) result }
    ensures room { IfSome result (λ end. end + END_ROOM ≤ length page.new) }
{
    let behind = place_string(page, at, bytes, lex.span(), TAIL_ROOM + END_ROOM)?;
    place_tail(page, behind, bytes, tail)
}

// Places an IRI whose texts are short and as they are.
#[inline(always)]
fn place_plain(
    page: &mut [u8],
    at: usize,
    bytes: &[u8],
    prefix: Extent,
    name: Extent,
) -> Option<usize>
    requires room { at + TERM_ROOM ≤ length page.old }
    requires prefix { IsSound bytes.now prefix }
    requires name { IsSound bytes.now name }
    ensures placed { Places page.old page.new at (iri_text (text_in bytes.now prefix ++ text_in bytes.now name)) result }
    ensures room { IfSome result (λ end. end + END_ROOM ≤ length page.new) }
{
    if !(prefix.is_plain() && name.is_plain()) {
        return None;
    }
    place_iri(page, at, bytes, prefix.span(), name.span())
}

/// Places an IRI's text, where it has the usual shape, and no other term's.
#[inline(always)]
#[tactic(auto, unfolding(jl_text::specs::Line::term_text))]
pub(crate) fn place_name(page: &mut [u8], at: usize, bytes: &[u8], term: &Known) -> Option<usize>
    requires room { at + TERM_ROOM ≤ length page.old }
    requires has { HasKnown bytes.now term.now }
    ensures placed { Places page.old page.new at (term_text (known_value bytes.now term.now)) result }
    ensures room { IfSome result (λ end. end + END_ROOM ≤ length page.new) }
{
    match term {
        Known::Iri { prefix, name } => place_plain(page, at, bytes, *prefix, *name),
        Known::Bnode(_) => None,
        Known::Literal { .. } => None,
        Known::Triple(_) => None,
        Known::Default => None,
    }
}

/// Places a term's text, where the term has the usual shape; the default graph has no text.
#[inline(always)]
#[tactic(auto, unfolding(jl_text::specs::Line::term_text))]
pub(crate) fn place_known(page: &mut [u8], at: usize, bytes: &[u8], term: &Known) -> Option<usize>
    requires room { at + TERM_ROOM ≤ length page.old }
    requires has { HasKnown bytes.now term.now }
    ensures placed { Places page.old page.new at (term_text (known_value bytes.now term.now)) result }
    ensures room { IfSome result (λ end. end + END_ROOM ≤ length page.new) }
{
    match term {
        Known::Iri { prefix, name } => place_plain(page, at, bytes, *prefix, *name),
        Known::Bnode(label) => place_label(page, at, bytes, label.span()),
        Known::Literal { lex, tail } => place_literal(page, at, bytes, *lex, *tail),
        Known::Triple(_) => None,
        Known::Default => Some(at),
    }
}
