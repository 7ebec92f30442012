//! The positions of a statement, where the fields stand in the order of their numbers: each puts the term that stands in
//! front, where one stands there, and answers the place after it. None says nothing of the bytes, nor of what was put.
ghost use Rattle.std.specs.Prelude.{◌≡◌, ◌+◌, ◌*◌, ◌<◌, ◌≤◌, IfSome, length, slice_index};
ghost use Rattle.jl_rows.specs.Usual.{IsPosition};

use crate::row::RawTerm;
use crate::short_fields::{behind, counted, is_text};
use crate::usual_terms::{iri, literal};

#[inline(always)]
fn iri_at(
    bytes: &[u8],
    at: usize,
    end: usize,
    group: u8,
    term: &mut Option<RawTerm>,
) -> Option<usize>
    requires inside { end + 16 ≤ length bytes.now }
    requires start { at ≤ end }
    requires group { group < 4 }
    requires tag { slice_index bytes.now at ≡ group * 32 + 10 }
    ensures { IfSome result (λ next. IsPosition bytes.now at end group (term.new, next)) }
{
    let span = counted(bytes, at, end)?;
    *term = Some(RawTerm::Iri(iri(bytes, span)?));
    Some(behind(span))
}

#[inline(always)]
fn label_at(
    bytes: &[u8],
    at: usize,
    end: usize,
    group: u8,
    term: &mut Option<RawTerm>,
) -> Option<usize>
    requires inside { end + 16 ≤ length bytes.now }
    requires start { at ≤ end }
    requires group { group < 4 }
    requires tag { slice_index bytes.now at ≡ group * 32 + 18 }
    ensures { IfSome result (λ next. IsPosition bytes.now at end group (term.new, next)) }
{
    let span = counted(bytes, at, end)?;
    if !is_text(bytes, span) {
        return None;
    }
    *term = Some(RawTerm::Bnode(span));
    Some(behind(span))
}

#[inline(always)]
fn literal_at(
    bytes: &[u8],
    at: usize,
    end: usize,
    group: u8,
    term: &mut Option<RawTerm>,
) -> Option<usize>
    requires inside { end + 16 ≤ length bytes.now }
    requires start { at ≤ end }
    requires group { group < 3 }
    requires tag { slice_index bytes.now at ≡ group * 32 + 26 }
    ensures { IfSome result (λ next. IsPosition bytes.now at end group (term.new, next)) }
{
    let span = counted(bytes, at, end)?;
    *term = Some(literal(bytes, span)?);
    Some(behind(span))
}

// The default graph, whose message is empty.
#[inline(always)]
fn default_at(bytes: &[u8], at: usize, end: usize, term: &mut Option<RawTerm>) -> Option<usize>
    requires inside { end + 16 ≤ length bytes.now }
    requires start { at ≤ end }
    requires tag { slice_index bytes.now at ≡ 0x7A }
    ensures { IfSome result (λ next. IsPosition bytes.now at end 3 (term.new, next)) }
{
    let span = counted(bytes, at, end)?;
    if span.len != 0 {
        return None;
    }
    *term = Some(RawTerm::Default);
    Some(behind(span))
}

// Forgets a term. Where none is held nothing is written: in a row that repeats a term, none was held in the row before
// either, mostly.
#[inline(always)]
fn clear(term: &mut Option<RawTerm>)
    ensures { term.new ≡ None }
{
    if term.is_some() {
        *term = None;
    }
}

/// A subject, a predicate or an object, which are the groups 0, 1 and 2.
#[inline(always)]
pub fn position(
    bytes: &[u8],
    at: usize,
    end: usize,
    group: u8,
    term: &mut Option<RawTerm>,
) -> Option<usize>
    requires inside { end + 16 ≤ length bytes.now }
    requires start { at ≤ end }
    requires group { group < 3 }
    ensures { IfSome result (λ next. IsPosition bytes.now at end group (term.new, next)) }
{
    let first = group * 32 + 10;
    if at < end {
        let tag = bytes[at];
        if tag == first {
            return iri_at(bytes, at, end, group, term);
        }
        if tag == first + 8 {
            return label_at(bytes, at, end, group, term);
        }
        if tag == first + 16 {
            return literal_at(bytes, at, end, group, term);
        }
    }
    clear(term);
    Some(at)
}

/// The graph of a quad, which is the group 3. One that is a literal isn't usual.
#[inline(always)]
pub fn graph(bytes: &[u8], at: usize, end: usize, term: &mut Option<RawTerm>) -> Option<usize>
    requires inside { end + 16 ≤ length bytes.now }
    requires start { at ≤ end }
    ensures { IfSome result (λ next. IsPosition bytes.now at end 3 (term.new, next)) }
{
    if at < end {
        let tag = bytes[at];
        if tag == 0x6A {
            return iri_at(bytes, at, end, 3, term);
        }
        if tag == 0x72 {
            return label_at(bytes, at, end, 3, term);
        }
        if tag == 0x7A {
            return default_at(bytes, at, end, term);
        }
    }
    clear(term);
    Some(at)
}
