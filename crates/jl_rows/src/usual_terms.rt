//! Terms of usual shape: their fields stand once and in the order of their numbers. None says nothing of the bytes.
ghost use Rattle.std.specs.Prelude.{◌≡◌, ◌+◌, ◌<◌, ◌≤◌, IfSome, Ok, length, slice_index};
ghost use Rattle.jl_base.specs.Spans.{text_of};
ghost use Rattle.jl_rows.specs.Reading as reading;
ghost use Rattle.jl_rows.specs.Seen.{ids_seen, term_seen, HasTerm};
ghost use Rattle.jl_rows.specs.Usual.{IsEnding};

use crate::row::{RawIri, RawTail, RawTerm};
use crate::short_fields::{behind, counted, is_text, number};
use jl_base::Span;

// An IRI by its ids.
#[inline(always)]
pub fn iri(bytes: &[u8], span: Span) -> Option<RawIri>
    requires { span.at + span.len + 8 ≤ length bytes.now }
    ensures { IfSome result (λ i. reading.iri (text_of bytes.now span) ≡ Ok (ids_seen i)) }
{
    let at = span.at as usize;
    let end = behind(span);
    let (prefix, place) = number(bytes, at, 1)?;
    let (name, next) = number(bytes, place, 2)?;
    if next != end {
        return None;
    }
    Some(RawIri {
        prefix: prefix.unwrap_or(0),
        name: name.unwrap_or(0),
    })
}

// A literal's language tag, up to the end of its message.
#[inline(always)]
fn tag(bytes: &[u8], at: usize, end: usize) -> Option<RawTail>
    requires inside { end + 8 ≤ length bytes.now }
    requires start { at ≤ end }
    requires tag { slice_index bytes.now at ≡ 18 }
    ensures { IfSome result (IsEnding bytes.now at end) }
{
    let tag = counted(bytes, at, end)?;
    if behind(tag) != end {
        return None;
    }
    if !is_text(bytes, tag) {
        return None;
    }
    Some(RawTail::Lang(tag))
}

// A literal's datatype, up to the end of its message.
#[inline(always)]
fn datatype(bytes: &[u8], at: usize, end: usize) -> Option<RawTail>
    requires inside { end + 8 ≤ length bytes.now }
    requires start { at ≤ end }
    ensures { IfSome result (IsEnding bytes.now at end) }
{
    let (id, next) = number(bytes, at, 3)?;
    let id = id?;
    if next != end {
        return None;
    }
    Some(RawTail::Typed(id))
}

// What follows a literal's lexical form.
#[inline(always)]
fn ending(bytes: &[u8], at: usize, end: usize) -> Option<RawTail>
    requires inside { end + 8 ≤ length bytes.now }
    requires start { at ≤ end }
    ensures { IfSome result (IsEnding bytes.now at end) }
{
    if at == end {
        return Some(RawTail::Simple);
    }
    if bytes[at] == 18 {
        return tag(bytes, at, end);
    }
    datatype(bytes, at, end)
}

// A literal with a lexical form.
#[inline(always)]
pub fn literal(bytes: &[u8], span: Span) -> Option<RawTerm>
    requires { span.at + span.len + 8 ≤ length bytes.now }
    ensures exact { IfSome result (λ t. reading.literal (text_of bytes.now span) ≡ Ok (term_seen bytes.now t)) }
    ensures inside { IfSome result (HasTerm bytes.now) }
{
    let at = span.at as usize;
    let end = behind(span);
    if bytes[at] != 10 {
        return None;
    }
    let lex = counted(bytes, at, end)?;
    if !is_text(bytes, lex) {
        return None;
    }
    let tail = ending(bytes, behind(lex), end)?;
    Some(RawTerm::Literal { lex, tail })
}
