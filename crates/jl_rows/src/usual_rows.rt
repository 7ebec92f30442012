//! Rows of usual shape: a frame's field whose one field fills it. They are written where the caller keeps its row, since
//! a row is large to copy. None says nothing of what stands there, and then the row there is whatever was written.
ghost use Rattle.std.specs.Prelude.{◌≡◌, ◌+◌, ◌≤◌, IfSome, IsTrue, Ok, Some, length, slice_index, slice_range, false};
ghost use Rattle.jl_base.specs.Spans.{text_of};
ghost use Rattle.jl_rows.specs.Files.{row_end};
ghost use Rattle.jl_rows.specs.Rows as rows;
ghost use Rattle.jl_rows.specs.declared.row.Row.TheVariants.{Quad, Triple};
ghost use Rattle.jl_rows.specs.Seen.{row_seen, HasRow, IsNextRow, IsRowWithin};
ghost use Rattle.jl_rows.specs.Usual.{IsKind, IsRowOf, IsTableOf};

use crate::row::{RawQuad, RawTriple, Row, Table};
use crate::short_fields::{behind, counted, is_text, number};
use crate::usual_positions::{graph, position};
use jl_base::Span;

// The terms of a triple.
#[inline(always)]
fn three_terms(bytes: &[u8], span: Span, t: &mut RawTriple) -> bool
    requires { span.at + span.len + 16 ≤ length bytes.now }
    ensures { IsTrue result → IsRowOf bytes.now (rows.triple (text_of bytes.now span)) (Triple t.new) }
{
    let end = behind(span);
    let Some(place) = position(bytes, span.at as usize, end, 0, &mut t.s) else {
        return false;
    };
    let Some(place) = position(bytes, place, end, 1, &mut t.p) else {
        return false;
    };
    let Some(place) = position(bytes, place, end, 2, &mut t.o) else {
        return false;
    };
    place == end
}

// The terms of a quad.
#[inline(always)]
fn four_terms(bytes: &[u8], span: Span, t: &mut RawQuad) -> bool
    requires { span.at + span.len + 16 ≤ length bytes.now }
    ensures { IsTrue result → IsRowOf bytes.now (rows.quad (text_of bytes.now span)) (Quad t.new) }
{
    let end = behind(span);
    let Some(place) = position(bytes, span.at as usize, end, 0, &mut t.s) else {
        return false;
    };
    let Some(place) = position(bytes, place, end, 1, &mut t.p) else {
        return false;
    };
    let Some(place) = position(bytes, place, end, 2, &mut t.o) else {
        return false;
    };
    let Some(last) = graph(bytes, place, end, &mut t.g) else {
        return false;
    };
    last == end
}

const NO_TERMS: RawTriple = RawTriple {
    s: None,
    p: None,
    o: None,
};

#[inline(always)]
fn is_triple(row: &Row) -> bool {
    matches!(row, Row::Triple(_))
}

// A triple.
#[inline(always)]
fn triple(bytes: &[u8], span: Span, row: &mut Row) -> bool
    requires { span.at + span.len + 16 ≤ length bytes.now }
    ensures { IsTrue result → IsRowOf bytes.now (rows.triple (text_of bytes.now span)) row.new }
{
    if !is_triple(row) {
        *row = Row::Triple(NO_TERMS);
    }
    match row {
        Row::Triple(t) => three_terms(bytes, span, t),
        _ => false,
    }
}

const NO_FOUR_TERMS: RawQuad = RawQuad {
    s: None,
    p: None,
    o: None,
    g: None,
};

#[inline(always)]
fn is_quad(row: &Row) -> bool {
    matches!(row, Row::Quad(_))
}

// A quad.
#[inline(always)]
fn quad(bytes: &[u8], span: Span, row: &mut Row) -> bool
    requires { span.at + span.len + 16 ≤ length bytes.now }
    ensures { IsTrue result → IsRowOf bytes.now (rows.quad (text_of bytes.now span)) row.new }
{
    if !is_quad(row) {
        *row = Row::Quad(NO_FOUR_TERMS);
    }
    match row {
        Row::Quad(t) => four_terms(bytes, span, t),
        _ => false,
    }
}

// The table of an entry, by its tag.
#[inline(always)]
fn table_of(tag: u8) -> Option<Table>
    ensures { IfSome result (IsTableOf tag) }
{
    match tag {
        0x4A => Some(Table::Name),
        0x52 => Some(Table::Prefix),
        0x5A => Some(Table::Datatype),
        _ => None,
    }
}

// An entry of a table, with a text.
#[inline(always)]
fn entry(bytes: &[u8], tag: u8, span: Span, row: &mut Row) -> bool
    requires { span.at + span.len + 16 ≤ length bytes.now }
    ensures { IsTrue result → IsKind bytes.now tag (text_of bytes.now span) row.new }
{
    let end = behind(span);
    let Some((id, place)) = number(bytes, span.at as usize, 1) else {
        return false;
    };
    if bytes[place] != 18 {
        return false;
    }
    let Some(text) = counted(bytes, place, end) else {
        return false;
    };
    if behind(text) != end {
        return false;
    }
    if !is_text(bytes, text) {
        return false;
    }
    let Some(table) = table_of(tag) else {
        return false;
    };
    *row = Row::Entry {
        table,
        id: id.unwrap_or(0),
        text,
    };
    true
}

// What the field of a row says, by its tag.
#[inline(always)]
fn kind(bytes: &[u8], tag: u8, span: Span, row: &mut Row) -> bool
    requires { span.at + span.len + 16 ≤ length bytes.now }
    ensures { IsTrue result → IsKind bytes.now tag (text_of bytes.now span) row.new }
{
    if tag == 0x12 {
        return triple(bytes, span, row);
    }
    if tag == 0x1A {
        return quad(bytes, span, row);
    }
    entry(bytes, tag, span, row)
}

// A row's message.
#[inline(always)]
fn message(bytes: &[u8], span: Span, row: &mut Row) -> bool
    requires { span.at + span.len + 16 ≤ length bytes.now }
    ensures { IsTrue result → IsRowOf bytes.now (rows.row (text_of bytes.now span)) row.new }
{
    let at = span.at as usize;
    let Some(inner) = counted(bytes, at, behind(span)) else {
        return false;
    };
    if behind(inner) != behind(span) {
        return false;
    }
    kind(bytes, bytes[at], inner, row)
}

/// The row in front, where it is of usual shape, is written; the answer is the place behind it.
#[inline(never)]
pub fn usual_row(bytes: &[u8], at: usize, end: usize, row: &mut Row) -> Option<usize>
    requires start { at ≤ end }
    requires inside { end ≤ length bytes.now }
    ensures exact { IfSome result (λ next. IsNextRow bytes.now at end (Ok (Some (row.new, next)))) }
    ensures within { IfSome result (λ next. IsRowWithin bytes.now at end (row.new, next)) }
    ensures wide { IfSome result (λ next. at + 2 ≤ next) }
    ensures place { IfSome result (λ next. next ≡ at + row_end (slice_range bytes.now at end)) }
{
    if bytes.len() - end < 16 {
        return None;
    }
    if bytes[at] != 10 {
        return None;
    }
    let span = counted(bytes, at, end)?;
    if message(bytes, span, row) {
        Some(behind(span))
    } else {
        None
    }
}
