//! The reader of messages: one walk over a message's fields, for all messages of the table.
ghost use Rattle.std.specs.Prelude.{◌≡◌, ℕ, List, ◌+◌, ◌-◌, ◌*◌, ◌<◌, ◌≤◌, ◌^◌, IfOk, OnOk, length, slice_index_or, slice_range};
ghost use Rattle.std.specs.Option.{option_map};
ghost use Rattle.jl_base.specs.Results.{Gives};
ghost use Rattle.jl_base.specs.Spans.{IsInside, text_of};
ghost use Rattle.jl_wire.specs.Seen.{content_seen};
ghost use Rattle.jl_rows.specs.Messages as table;
ghost use Rattle.jl_rows.specs.Reading as spec;
ghost use Rattle.jl_rows.specs.Seen.{ids_seen, term_seen, part_seen, maybe_seen, parts_seen, position_seen, ending_seen, HasTail, HasTerm, HasValue, HasPart, HasParts, HasMaybe, HasPosition, IsFree, Takes, nested_span};

use crate::message::{Known, Message, Shape};
use crate::parts::{Found, GROUPS, Part, Parts};
use crate::row::{RawIri, RawTerm};
use jl_base::{Kind, Span};
use jl_wire::{Field, Value, next_field, utf8};

// The content has another wire type than the shape's.
fn is_wrong_wire(shape: Shape, value: Value) -> bool
    ensures { (bytes : List ℕ) → result ≡ spec.is_wrong_wire shape (content_seen bytes value) }
{
    match value {
        Value::Varint(_) => shape != Shape::Number,
        Value::Bytes(_) => shape == Shape::Number,
        Value::Fixed64(_) => true,
        Value::Fixed32(_) => true,
    }
}

// A string is UTF-8.
fn string(bytes: &[u8], span: Span) -> Result<Span, Kind>
    requires { IsInside bytes.now span }
    ensures exact { Gives (text_of bytes.now) result (spec.string (text_of bytes.now span)) }
    ensures inside { IfOk result (IsInside bytes.now) }
{
    match utf8(bytes, span) {
        Ok(()) => Ok(span),
        Err(_) => Err(Kind::BadUtf8),
    }
}

// The content of a number or a text.
fn plain(bytes: &[u8], shape: Shape, value: Value) -> Result<Part, Kind>
    requires { HasValue bytes.now value }
    ensures exact { Gives (part_seen bytes.now) result (spec.plain shape (content_seen bytes.now value)) }
    ensures inside { IfOk result (HasPart bytes.now) }
{
    match value {
        Value::Varint(n) => match shape {
            Shape::Number => Ok(Part::Number(n)),
            _ => Err(Kind::WrongWire),
        },
        Value::Bytes(span) => match shape {
            Shape::Text => Ok(Part::Text(string(bytes, span)?)),
            _ => Err(Kind::WrongWire),
        },
        Value::Fixed64(_) => Err(Kind::WrongWire),
        Value::Fixed32(_) => Err(Kind::WrongWire),
    }
}

// The group of a known field, where the field may stand: its wire type is its shape's, and its group is free.
fn free_group(known: Known, value: Value, found: &Parts) -> Result<usize, Kind>
    requires count { length found.now ≡ table.groups }
    requires group { known.group < table.groups }
    ensures { (bytes : List ℕ) → IsFree bytes known value found.now result }
{
    if is_wrong_wire(known.shape, value) {
        return Err(Kind::WrongWire);
    }
    if found[known.group].is_some() {
        return Err(Kind::Twice);
    }
    Ok(known.group)
}

// One field of a message of numbers and texts.
fn take_plain(bytes: &[u8], m: Message, field: Field, found: &mut Parts) -> Result<(), Kind>
    requires value { HasValue bytes.now field.value }
    requires parts { HasParts bytes.now found.old }
    ensures exact { Takes bytes.now (spec.taken_if_known spec.plain (table.known_as m field.number)
        (content_seen bytes.now field.value) (parts_seen bytes.now found.old)) found.new result }
    ensures parts { OnOk result (HasParts bytes.now found.new) }
{
    let Some(known) = m.known_as(field.number) else {
        return Ok(());
    };
    let group = free_group(known, field.value, found)?;
    let part = plain(bytes, known.shape, field.value)?;
    found[group] = Some(part);
    Ok(())
}

// The groups of a message of numbers and texts, which lies up to `end`.
fn read_plain(bytes: &[u8], at: usize, end: usize, m: Message) -> Result<Parts, Kind>
    requires start { at ≤ end }
    requires inside { end ≤ length bytes.now }
    requires short { end - at < 2 ^ 32 }
    ensures exact { Gives (parts_seen bytes.now) result (spec.read spec.plain m (slice_range bytes.now at end)) }
    ensures inside { IfOk result (HasParts bytes.now) }
{
    let mut found = [None; GROUPS];
    let mut place = at;
    'fields: while let Some(field) = next_field(bytes, place, end)? {
        take_plain(bytes, m, field, &mut found)?;
        place = field.next;
    }
    Ok(found)
}

// An IRI's message.
#[tactic(auto, unfolding(crate::specs::Reading::iri))]
fn iri(bytes: &[u8], span: Span) -> Result<RawIri, Kind>
    requires { IsInside bytes.now span }
    ensures { Gives ids_seen result (spec.iri (text_of bytes.now span)) }
{
    let at = span.at as usize;
    let parts = read_plain(bytes, at, at + span.len as usize, Message::Iri)?;
    let found = Found { bytes, parts };
    Ok(RawIri {
        prefix: found.number(0),
        name: found.number(1),
    })
}

// A literal's message.
#[tactic(auto, unfolding(crate::specs::Reading::literal))]
fn literal(bytes: &[u8], span: Span) -> Result<RawTerm, Kind>
    requires { IsInside bytes.now span }
    ensures exact { Gives (term_seen bytes.now) result (spec.literal (text_of bytes.now span)) }
    ensures inside { IfOk result (HasTerm bytes.now) }
{
    let at = span.at as usize;
    let parts = read_plain(bytes, at, at + span.len as usize, Message::Literal)?;
    let found = Found { bytes, parts };
    Ok(RawTerm::Literal {
        lex: found.text(0),
        tail: found.ending(1),
    })
}

// A message without known fields.
#[tactic(auto, unfolding(crate::specs::Reading::empty))]
pub fn empty(bytes: &[u8], span: Span) -> Result<RawTerm, Kind>
    requires { IsInside bytes.now span }
    ensures exact { Gives (term_seen bytes.now) result (spec.empty (text_of bytes.now span)) }
    ensures inside { IfOk result (HasTerm bytes.now) }
{
    let at = span.at as usize;
    read_plain(bytes, at, at + span.len as usize, Message::Empty)?;
    Ok(RawTerm::Default)
}

// The content of a number, a text, or a term that isn't a triple term.
fn shallow(bytes: &[u8], shape: Shape, value: Value) -> Result<Part, Kind>
    requires { HasValue bytes.now value }
    ensures exact { Gives (part_seen bytes.now) result (spec.shallow shape (content_seen bytes.now value)) }
    ensures inside { IfOk result (HasPart bytes.now) }
{
    let Value::Bytes(span) = value else {
        return plain(bytes, shape, value);
    };
    match shape {
        Shape::Iri => Ok(Part::Said(RawTerm::Iri(iri(bytes, span)?))),
        Shape::Label => Ok(Part::Said(RawTerm::Bnode(string(bytes, span)?))),
        Shape::Literal => Ok(Part::Said(literal(bytes, span)?)),
        Shape::Default => Ok(Part::Said(empty(bytes, span)?)),
        _ => plain(bytes, shape, value),
    }
}

// Where a triple term's message lies, where the field is one.
fn nested_span(shape: Shape, value: Value) -> Option<Span>
    ensures { result ≡ nested_span shape value }
{
    match value {
        Value::Bytes(span) => match shape {
            Shape::Nested => Some(span),
            _ => None,
        },
        _ => None,
    }
}

// The content of a known field, where so many triple terms may stand one in another.
#[cycle(reader)]
fn content(bytes: &[u8], shape: Shape, value: Value, depth: u32) -> Result<Part, Kind>
    requires value { HasValue bytes.now value }
    requires depth { depth ≤ spec.most_nested }
    ensures exact { Gives (part_seen bytes.now) result (spec.content_said depth shape (content_seen bytes.now value)) }
    ensures inside { IfOk result (HasPart bytes.now) }
{
    let Some(span) = nested_span(shape, value) else {
        return shallow(bytes, shape, value);
    };
    if depth == 0 {
        return Err(Kind::TooDeep);
    }
    let at = span.at as usize;
    read(
        bytes,
        at,
        at + span.len as usize,
        Message::Triple,
        depth - 1,
    )?;
    Ok(Part::Said(RawTerm::Triple(span)))
}

// One field of a message.
#[cycle(reader)]
fn take(bytes: &[u8], m: Message, field: Field, depth: u32, found: &mut Parts) -> Result<(), Kind>
    requires value { HasValue bytes.now field.value }
    requires depth { depth ≤ spec.most_nested }
    requires parts { HasParts bytes.now found.old }
    ensures exact { Takes bytes.now (spec.taken_if_known (spec.content_said depth) (table.known_as m field.number)
        (content_seen bytes.now field.value) (parts_seen bytes.now found.old)) found.new result }
    ensures parts { OnOk result (HasParts bytes.now found.new) }
{
    let Some(known) = m.known_as(field.number) else {
        return Ok(());
    };
    let group = free_group(known, field.value, found)?;
    let part = content(bytes, known.shape, field.value, depth)?;
    found[group] = Some(part);
    Ok(())
}

/// The groups of a message that lies up to `end`, where so many triple terms may stand one in another.
#[cycle(reader)]
pub fn read(bytes: &[u8], at: usize, end: usize, m: Message, depth: u32) -> Result<Parts, Kind>
    requires start { at ≤ end }
    requires inside { end ≤ length bytes.now }
    requires short { end - at < 2 ^ 32 }
    requires depth { depth ≤ spec.most_nested }
    ensures exact { Gives (parts_seen bytes.now) result (spec.read (spec.content_said depth) m (slice_range bytes.now at end)) }
    ensures inside { IfOk result (HasParts bytes.now) }
{
    let mut found = [None; GROUPS];
    let mut place = at;
    'fields: while let Some(field) = next_field(bytes, place, end)? {
        take(bytes, m, field, depth, &mut found)?;
        place = field.next;
    }
    Ok(found)
}
