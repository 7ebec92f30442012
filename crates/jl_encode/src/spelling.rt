//! Rows from an item's terms, straight behind a frame's other rows: first how many bytes they take, and then these.
ghost use Rattle.std.specs.Prelude.{◌≡◌, ◌<◌, ◌≤◌, ◌^◌, [], ◌∷◌, ◌++◌, length, Some, OnErr, OnOk};
ghost use Rattle.jl_encoding.specs.Limits.{most_item_bytes};
ghost use Rattle.jl_base.specs.Items.{value_of, tail_of};
ghost use Rattle.jl_rows.specs.Written.{Row};
ghost use Rattle.jl_spell.specs.Fields.{Bytes, field_of, front_of};
ghost use Rattle.jl_spell.specs.Frames.{body_of};
ghost use Rattle.jl_spell.specs.Messages.{unless_empty};
ghost use Rattle.jl_spell.specs.Rows.{literal_of};
ghost use Rattle.jl_encoding.specs.Encoding.{first_row};
ghost use Rattle.jl_encode.specs.Putting.{PutsRow};
ghost use Rattle.jl_encode.specs.Spelling.{limited, joint, in_field, ending_bytes, term_bytes, three_bytes, graph_bytes, AddsFronts};
ghost use Rattle.jl_encode.specs.Stated.{ending_stated, ids_stated, stated};

use crate::refusal::Refusal;
use crate::stated::{IriIds, Stated, StatedThree};
use jl_base::{Tail, Term, Three};
use jl_encoding::Form;
use jl_spell::{
    front_size, iri_size, number_size, push_bytes, push_front, push_iri, push_number,
    push_simple_literal, push_tagged_literal, push_typed_literal,
};
use std::alloc::AllocError;

// No item's row takes more bytes.
pub(crate) const LIMIT: usize = 1 << 26;

// A number of bytes, unless it is above the limit.
#[inline]
fn limit(size: usize) -> Option<usize>
    ensures { result ≡ limited size }
{
    if size > LIMIT {
        return None;
    }
    Some(size)
}

// How many bytes two stretches take.
#[inline]
fn sum(first: Option<usize>, second: Option<usize>) -> Option<usize>
    ensures { result ≡ joint first second }
{
    limit(first?.checked_add(second?)?)
}

// How many bytes a field takes that holds so many.
#[inline]
fn field_size(field: u32, len: Option<usize>) -> Option<usize>
    ensures { result ≡ in_field field len }
{
    let len = len?;
    limit(len.checked_add(front_size(field, len))?)
}

// How many bytes a field takes that holds a text.
#[inline]
fn text_size(field: u32, text: &[u8]) -> Option<usize>
    ensures { result ≡ limited (length (field_of field (Bytes text.now))) }
{
    field_size(field, limit(text.len()))
}

// How many bytes a text takes that is in no 'one of'.
#[inline]
fn lone_text_size(field: u32, text: &[u8]) -> Option<usize>
    ensures { result ≡ limited (length (unless_empty field text.now)) }
{
    if text.is_empty() {
        return Some(0);
    }
    text_size(field, text)
}

// How many bytes the end of a literal takes.
#[inline]
fn ending_size(tail: &Tail, said: &Stated) -> Option<usize>
    ensures { result ≡ limited (length (ending_bytes (ending_stated (tail_of tail.now) said.now))) }
{
    match (tail, said) {
        (Tail::Typed(_), Stated::Typed(id)) => limit(number_size(3, *id)),
        (Tail::Lang(tag), Stated::Texts) => text_size(2, tag.bytes()),
        _ => Some(0),
    }
}

// How many bytes a literal's message takes.
fn literal_size(lex: &[u8], tail: &Tail, said: &Stated) -> Option<usize>
    ensures { result ≡ limited (length (literal_of lex.now (ending_stated (tail_of tail.now) said.now))) }
{
    sum(lone_text_size(1, lex), ending_size(tail, said))
}

// How many bytes a term's fields take at a position, whose first field is the one after the base.
#[cycle(term_size)]
fn term_size(base: u32, term: &Term, said: &Stated) -> Option<usize>
    requires { base ≤ 8 }
    ensures { result ≡ limited (length (term_bytes base (stated (value_of term.now) said.now))) }
{
    match (term, said) {
        (Term::Iri(_), Stated::Iri(ids)) => {
            field_size(base + 1, limit(iri_size(ids.prefix, ids.name)))
        }
        (Term::Bnode(label), Stated::Texts) => text_size(base + 2, label.bytes()),
        (Term::Literal { lex, tail }, Stated::Texts) => {
            field_size(base + 3, literal_size(lex.bytes(), tail, said))
        }
        (Term::Literal { lex, tail }, Stated::Typed(_)) => {
            field_size(base + 3, literal_size(lex.bytes(), tail, said))
        }
        (Term::Triple(three), Stated::Triple(held)) => {
            field_size(base + 4, three_size(three.get(), held.get()))
        }
        _ => Some(0),
    }
}

// How many bytes the three terms of a triple term take.
#[cycle(term_size)]
fn three_size(three: &Three, held: &StatedThree) -> Option<usize>
    ensures { result ≡ limited (length (three_bytes (stated (value_of three.now.s) held.now.s) (stated (value_of three.now.p) held.now.p) (stated (value_of three.now.o) held.now.o))) }
{
    let rest = sum(
        term_size(4, &three.p, &held.p),
        term_size(8, &three.o, &held.o),
    );
    sum(term_size(0, &three.s, &held.s), rest)
}

// Appends a text that is in no 'one of'.
#[inline]
fn push_lone_text(out: &mut Vec<u8>, field: u32, text: &[u8]) -> Result<(), AllocError>
    ensures { OnOk result (out.new.items ≡ out.old.items ++ unless_empty field text.now) }
{
    if text.is_empty() {
        return Ok(());
    }
    push_bytes(out, field, text)
}

// Appends a field that holds a literal.
fn push_literal(
    out: &mut Vec<u8>,
    field: u32,
    lex: &[u8],
    tail: &Tail,
    said: &Stated,
) -> Result<(), AllocError>
    requires { length (literal_of lex.now (ending_stated (tail_of tail.now) said.now)) ≤ most_item_bytes }
    ensures { OnOk result (out.new.items ≡ out.old.items ++ field_of field (Bytes (literal_of lex.now (ending_stated (tail_of tail.now) said.now)))) }
{
    match (tail, said) {
        (Tail::Typed(_), Stated::Typed(id)) => push_typed_literal(out, field, lex, *id),
        (Tail::Lang(tag), Stated::Texts) => push_tagged_literal(out, field, lex, tag.bytes()),
        _ => push_simple_literal(out, field, lex),
    }
}

// Appends a term's fields at a position, whose first field is the one after the base.
#[cycle(push_term)]
fn push_term(out: &mut Vec<u8>, base: u32, term: &Term, said: &Stated) -> Result<(), AllocError>
    requires base { base ≤ 8 }
    requires short { length (term_bytes base (stated (value_of term.now) said.now)) ≤ most_item_bytes }
    ensures { OnOk result (out.new.items ≡ out.old.items ++ term_bytes base (stated (value_of term.now) said.now)) }
{
    match (term, said) {
        (Term::Iri(_), Stated::Iri(ids)) => push_iri(out, base + 1, ids.prefix, ids.name),
        (Term::Bnode(label), Stated::Texts) => push_bytes(out, base + 2, label.bytes()),
        (Term::Literal { lex, tail }, Stated::Texts) => {
            push_literal(out, base + 3, lex.bytes(), tail, said)
        }
        (Term::Literal { lex, tail }, Stated::Typed(_)) => {
            push_literal(out, base + 3, lex.bytes(), tail, said)
        }
        (Term::Triple(three), Stated::Triple(held)) => {
            push_three(out, base + 4, three.get(), held.get())
        }
        _ => Ok(()),
    }
}

// Appends a field that holds a triple term.
#[cycle(push_term)]
fn push_three(
    out: &mut Vec<u8>,
    field: u32,
    three: &Three,
    held: &StatedThree,
) -> Result<(), AllocError>
    requires short { length (three_bytes (stated (value_of three.now.s) held.now.s) (stated (value_of three.now.p) held.now.p) (stated (value_of three.now.o) held.now.o)) ≤ most_item_bytes }
    ensures { OnOk result (out.new.items ≡ out.old.items ++ field_of field (Bytes (three_bytes (stated (value_of three.now.s) held.now.s) (stated (value_of three.now.p) held.now.p) (stated (value_of three.now.o) held.now.o)))) }
{
    // It is within the limit.
    let size = three_size(three, held).unwrap_or(0);
    push_front(out, field, size)?;
    push_term(out, 0, &three.s, &held.s)?;
    push_term(out, 4, &three.p, &held.p)?;
    push_term(out, 8, &three.o, &held.o)
}

// Appends what stands before a row's message, unless the row is above the limit.
#[inline]
fn push_fronts(out: &mut Vec<u8>, field: u32, message: Option<usize>) -> Result<(), Refusal>
    ensures { (m : _) → message ≡ limited (length m) → AddsFronts result field out.old.items out.new.items m }
{
    let row = field_size(field, message);
    let Some(size) = field_size(1, row) else {
        return Err(Refusal::TooWide);
    };
    out.reserve(size)?;
    push_front(out, 1, row.unwrap_or(0))?;
    push_front(out, field, message.unwrap_or(0))?;
    Ok(())
}

/// Appends the options row.
pub(crate) fn push_options_row(out: &mut Vec<u8>, form: Form) -> Result<(), AllocError>
    ensures ok { OnOk result (out.new.items ≡ out.old.items ++ body_of (first_row form ∷ [])) }
    ensures err { OnErr result (out.new.items ≡ out.old.items) }
{
    match form {
        Form::Triples => out.extend_from_slice(
            b"\x0A\x12\x0A\x10\x10\x01\x18\x01\x20\x01\x48\xA0\x1F\x50\x96\x01\x58\x20\x78\x02",
        ),
        Form::Quads => out.extend_from_slice(
            b"\x0A\x12\x0A\x10\x10\x02\x18\x01\x20\x01\x48\xA0\x1F\x50\x96\x01\x58\x20\x78\x02",
        ),
    }
}

/// Appends the row of a namespace, unless it is above the limit.
pub(crate) fn push_namespace_row(out: &mut Vec<u8>, name: &[u8], iri: IriIds) -> Result<(), Refusal>
    ensures { PutsRow (Row.Namespace name.now (Some (ids_stated iri))) out.old.items out.new.items result }
{
    let held = field_size(2, limit(iri_size(iri.prefix, iri.name)));
    push_fronts(out, 6, sum(lone_text_size(1, name), held))?;
    push_lone_text(out, 1, name)?;
    push_iri(out, 2, iri.prefix, iri.name)?;
    Ok(())
}

// How many bytes the subject, the predicate and the object of a statement take.
#[inline]
fn triple_size(s: &Term, p: &Term, o: &Term, stands: &StatedThree) -> Option<usize>
    ensures { result ≡ limited (length (three_bytes (stated (value_of s.now) stands.now.s) (stated (value_of p.now) stands.now.p) (stated (value_of o.now) stands.now.o))) }
{
    let rest = sum(term_size(4, p, &stands.p), term_size(8, o, &stands.o));
    sum(term_size(0, s, &stands.s), rest)
}

// Appends the subject, the predicate and the object of a statement.
#[inline]
fn push_triple(
    out: &mut Vec<u8>,
    s: &Term,
    p: &Term,
    o: &Term,
    stands: &StatedThree,
) -> Result<(), AllocError>
    requires short { length (three_bytes (stated (value_of s.now) stands.now.s) (stated (value_of p.now) stands.now.p) (stated (value_of o.now) stands.now.o)) ≤ most_item_bytes }
    ensures { OnOk result (out.new.items ≡ out.old.items ++ (three_bytes (stated (value_of s.now) stands.now.s) (stated (value_of p.now) stands.now.p) (stated (value_of o.now) stands.now.o))) }
{
    push_term(out, 0, s, &stands.s)?;
    push_term(out, 4, p, &stands.p)?;
    push_term(out, 8, o, &stands.o)
}

// How many bytes the fields of a quad's graph take.
#[inline]
fn graph_size(term: &Term, said: &Stated) -> Option<usize>
    ensures { result ≡ limited (length (graph_bytes (stated (value_of term.now) said.now))) }
{
    match (term, said) {
        (Term::Iri(_), Stated::Iri(ids)) => field_size(13, limit(iri_size(ids.prefix, ids.name))),
        (Term::Bnode(label), Stated::Texts) => text_size(14, label.bytes()),
        (Term::Default, Stated::Texts) => text_size(15, b""),
        (Term::Literal { lex, tail }, Stated::Texts) => {
            field_size(16, literal_size(lex.bytes(), tail, said))
        }
        (Term::Literal { lex, tail }, Stated::Typed(_)) => {
            field_size(16, literal_size(lex.bytes(), tail, said))
        }
        _ => Some(0),
    }
}

// Appends the fields of a quad's graph.
#[inline]
fn push_graph(out: &mut Vec<u8>, term: &Term, said: &Stated) -> Result<(), AllocError>
    requires short { length (graph_bytes (stated (value_of term.now) said.now)) ≤ most_item_bytes }
    ensures { OnOk result (out.new.items ≡ out.old.items ++ graph_bytes (stated (value_of term.now) said.now)) }
{
    match (term, said) {
        (Term::Iri(_), Stated::Iri(ids)) => push_iri(out, 13, ids.prefix, ids.name),
        (Term::Bnode(label), Stated::Texts) => push_bytes(out, 14, label.bytes()),
        (Term::Default, Stated::Texts) => push_front(out, 15, 0),
        (Term::Literal { lex, tail }, Stated::Texts) => {
            push_literal(out, 16, lex.bytes(), tail, said)
        }
        (Term::Literal { lex, tail }, Stated::Typed(_)) => {
            push_literal(out, 16, lex.bytes(), tail, said)
        }
        _ => Ok(()),
    }
}

/// Appends the row of a triple, unless it is above the limit.
pub(crate) fn push_triple_row(
    out: &mut Vec<u8>,
    s: &Term,
    p: &Term,
    o: &Term,
    stands: &StatedThree,
) -> Result<(), Refusal>
    ensures { PutsRow (Row.Triple (stated (value_of s.now) stands.now.s) (stated (value_of p.now) stands.now.p) (stated (value_of o.now) stands.now.o)) out.old.items out.new.items result }
{
    push_fronts(out, 2, triple_size(s, p, o, stands))?;
    push_triple(out, s, p, o, stands)?;
    Ok(())
}

/// Appends the row of a quad, unless it is above the limit.
pub(crate) fn push_quad_row(
    out: &mut Vec<u8>,
    s: &Term,
    p: &Term,
    o: &Term,
    g: &Term,
    stands: &StatedThree,
    graph: &Stated,
) -> Result<(), Refusal>
    ensures { PutsRow (Row.Quad (stated (value_of s.now) stands.now.s) (stated (value_of p.now) stands.now.p) (stated (value_of o.now) stands.now.o) (stated (value_of g.now) graph.now)) out.old.items out.new.items result }
{
    let size = sum(triple_size(s, p, o, stands), graph_size(g, graph));
    push_fronts(out, 3, size)?;
    push_triple(out, s, p, o, stands)?;
    push_graph(out, g, graph)?;
    Ok(())
}
