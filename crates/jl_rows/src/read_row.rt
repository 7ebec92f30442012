//! The reader of rows: a row's one known field, and what its message says.
ghost use Rattle.std.specs.Prelude.{◌≡◌, OnOk, ◌+◌, ◌-◌, ◌<◌, ◌≤◌, ◌^◌, IfOk, IfSome, length, slice_range, None};
ghost use Rattle.std.specs.Option.{option_map};
ghost use Rattle.jl_base.specs.Results.{Gives};
ghost use Rattle.jl_base.specs.Spans.{IsInside, text_of};
ghost use Rattle.jl_wire.specs.Seen.{content_seen};
ghost use Rattle.jl_rows.specs.Messages as table;
ghost use Rattle.jl_rows.specs.Reading as reading;
ghost use Rattle.jl_rows.specs.Files as files;
ghost use Rattle.jl_rows.specs.Rows as spec;
ghost use Rattle.jl_rows.specs.Seen.{parts_seen, options_seen, row_seen, HasMaybeRow, HasParts, HasRow, HasValue, IsNextRow, IsRowWithin, TakesRow};

use crate::Options;
use crate::message::{Message, Sort, sort_of};
use crate::parts::{Found, Parts};
use crate::read::{empty, read};
use crate::row::{RawQuad, RawTriple, Row, Table};
use jl_base::{Kind, Span};
use jl_wire::{Field, Value, next_field};

/// How many triple terms may stand one in another.
const MOST_NESTED: u32 = 32;

// The groups of a message of a row.
#[tactic(auto, unfolding(crate::specs::Reading::message))]
fn message(bytes: &[u8], span: Span, m: Message) -> Result<Parts, Kind>
    requires { IsInside bytes.now span }
    ensures exact { Gives (parts_seen bytes.now) result (reading.message m (text_of bytes.now span)) }
    ensures inside { IfOk result (HasParts bytes.now) }
{
    let at = span.at as usize;
    read(bytes, at, at + span.len as usize, m, MOST_NESTED)
}

#[tactic(auto, unfolding(crate::specs::Rows::options))]
fn options(bytes: &[u8], span: Span) -> Result<Options, Kind>
    requires { IsInside bytes.now span }
    ensures exact { Gives (options_seen bytes.now) result (spec.options (text_of bytes.now span)) }
    ensures inside { IfOk result (λ o. IsInside bytes.now o.stream_name) }
{
    let parts = message(bytes, span, Message::Options)?;
    let found = Found { bytes, parts };
    Ok(Options {
        stream_name: found.text(0),
        physical: found.number(1),
        generalized: found.flag(2),
        star: found.flag(3),
        names: found.number(4),
        prefixes: found.number(5),
        datatypes: found.number(6),
        logical: found.number(7),
        version: found.number(8),
        strict: false,
    })
}

#[tactic(auto, unfolding(crate::specs::Rows::triple))]
fn triple(bytes: &[u8], span: Span) -> Result<Row, Kind>
    requires { IsInside bytes.now span }
    ensures exact { Gives (row_seen bytes.now) result (spec.triple (text_of bytes.now span)) }
    ensures inside { IfOk result (HasRow bytes.now) }
{
    let parts = message(bytes, span, Message::Triple)?;
    let found = Found { bytes, parts };
    Ok(Row::Triple(RawTriple {
        s: found.term(0),
        p: found.term(1),
        o: found.term(2),
    }))
}

#[tactic(auto, unfolding(crate::specs::Rows::quad))]
fn quad(bytes: &[u8], span: Span) -> Result<Row, Kind>
    requires { IsInside bytes.now span }
    ensures exact { Gives (row_seen bytes.now) result (spec.quad (text_of bytes.now span)) }
    ensures inside { IfOk result (HasRow bytes.now) }
{
    let parts = message(bytes, span, Message::Quad)?;
    let found = Found { bytes, parts };
    Ok(Row::Quad(RawQuad {
        s: found.term(0),
        p: found.term(1),
        o: found.term(2),
        g: found.term(3),
    }))
}

#[tactic(auto, unfolding(crate::specs::Rows::graph_start))]
fn graph_start(bytes: &[u8], span: Span) -> Result<Row, Kind>
    requires { IsInside bytes.now span }
    ensures exact { Gives (row_seen bytes.now) result (spec.graph_start (text_of bytes.now span)) }
    ensures inside { IfOk result (HasRow bytes.now) }
{
    let parts = message(bytes, span, Message::GraphStart)?;
    let found = Found { bytes, parts };
    Ok(Row::GraphStart(found.term(0)))
}

#[tactic(auto, unfolding(crate::specs::Rows::namespace))]
fn namespace(bytes: &[u8], span: Span) -> Result<Row, Kind>
    requires { IsInside bytes.now span }
    ensures exact { Gives (row_seen bytes.now) result (spec.namespace (text_of bytes.now span)) }
    ensures inside { IfOk result (HasRow bytes.now) }
{
    let parts = message(bytes, span, Message::Namespace)?;
    let found = Found { bytes, parts };
    Ok(Row::Namespace {
        name: found.text(0),
        iri: found.ids(1),
    })
}

#[tactic(auto, unfolding(crate::specs::Rows::entry))]
fn entry(bytes: &[u8], table: Table, span: Span) -> Result<Row, Kind>
    requires { IsInside bytes.now span }
    ensures exact { Gives (row_seen bytes.now) result (spec.entry table (text_of bytes.now span)) }
    ensures inside { IfOk result (HasRow bytes.now) }
{
    let parts = message(bytes, span, Message::Entry)?;
    let found = Found { bytes, parts };
    Ok(Row::Entry {
        table,
        id: found.number(0),
        text: found.text(1),
    })
}

// What a row of a kind says.
fn said_by(bytes: &[u8], sort: Sort, span: Span) -> Result<Row, Kind>
    requires { IsInside bytes.now span }
    ensures exact { Gives (row_seen bytes.now) result (spec.said_by sort (text_of bytes.now span)) }
    ensures inside { IfOk result (HasRow bytes.now) }
{
    match sort {
        Sort::Options => Ok(Row::Options(options(bytes, span)?)),
        Sort::Triple => triple(bytes, span),
        Sort::Quad => quad(bytes, span),
        Sort::GraphStart => graph_start(bytes, span),
        Sort::GraphEnd => {
            empty(bytes, span)?;
            Ok(Row::GraphEnd)
        }
        Sort::Namespace => namespace(bytes, span),
        Sort::Entry(table) => entry(bytes, table, span),
    }
}

// One field of a row.
fn take(bytes: &[u8], field: Field, row: &mut Option<Row>) -> Result<(), Kind>
    requires value { HasValue bytes.now field.value }
    requires row { HasMaybeRow bytes.now row.old }
    ensures exact { TakesRow bytes.now (spec.row_taken_if_known (table.sort_of field.number)
        (content_seen bytes.now field.value) (option_map (row_seen bytes.now) row.old)) row.new result }
    ensures inside { OnOk result (HasMaybeRow bytes.now row.new) }
{
    let Some(sort) = sort_of(field.number) else {
        return Ok(());
    };
    let Value::Bytes(span) = field.value else {
        return Err(Kind::WrongWire);
    };
    if row.is_some() {
        return Err(Kind::Twice);
    }
    *row = Some(said_by(bytes, sort, span)?);
    Ok(())
}

/// A row's message.
#[tactic(auto, unfolding(crate::specs::Rows::row))]
fn row(bytes: &[u8], span: Span) -> Result<Row, Kind>
    requires { IsInside bytes.now span }
    ensures exact { Gives (row_seen bytes.now) result (spec.row (text_of bytes.now span)) }
    ensures inside { IfOk result (HasRow bytes.now) }
{
    let at = span.at as usize;
    let found = row_among(bytes, at, at + span.len as usize)?;
    found.ok_or(Kind::EmptyRow)
}

// The row that a message's fields make, up to `end`, where one of them makes one.
fn row_among(bytes: &[u8], at: usize, end: usize) -> Result<Option<Row>, Kind>
    requires start { at ≤ end }
    requires inside { end ≤ length bytes.now }
    requires short { end - at < 2 ^ 32 }
    ensures exact { Gives (option_map (row_seen bytes.now)) result (spec.row_on None (slice_range bytes.now at end)) }
    ensures inside { IfOk result (HasMaybeRow bytes.now) }
{
    let mut found = None;
    let mut place = at;
    'fields: while let Some(field) = next_field(bytes, place, end)? {
        take(bytes, field, &mut found)?;
        place = field.next;
    }
    Ok(found)
}

// What a field of a frame says: a row, or nothing.
fn said_in_frame(bytes: &[u8], field: Field) -> Result<Option<Row>, Kind>
    requires { HasValue bytes.now field.value }
    ensures exact { Gives (option_map (row_seen bytes.now)) result (files.said_in_frame field.number (content_seen bytes.now field.value)) }
    ensures inside { IfOk result (HasMaybeRow bytes.now) }
{
    if field.number != 1 && field.number != 15 {
        return Ok(None);
    }
    let Value::Bytes(span) = field.value else {
        return Err(Kind::WrongWire);
    };
    if field.number != 1 {
        return Ok(None);
    }
    Ok(Some(row(bytes, span)?))
}

/// The next row of a frame that ends at `end`, whatever its shape, and the place behind it.
pub fn any_row_at(bytes: &[u8], at: usize, end: usize) -> Result<Option<(Row, usize)>, Kind>
    requires start { at ≤ end }
    requires inside { end ≤ length bytes.now }
    requires short { end - at < 2 ^ 32 }
    ensures exact { IsNextRow bytes.now at end result }
    ensures within { IfOk result (λ found. IfSome found (IsRowWithin bytes.now at end)) }
    ensures wide { IfOk result (λ found. IfSome found (λ r. at + 2 ≤ r.1)) }
    ensures place { IfOk result (λ found. IfSome found (λ r. r.1 ≡ at + files.row_end (slice_range bytes.now at end))) }
{
    let mut place = at;
    'fields: while let Some(field) = next_field(bytes, place, end)? {
        if let Some(row) = said_in_frame(bytes, field)? {
            return Ok(Some((row, field.next)));
        }
        place = field.next;
    }
    Ok(None)
}
