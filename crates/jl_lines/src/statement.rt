//! The line of a statement, from the last terms of a state. It is written behind the first bytes of a page: each term is
//! placed where it has the usual shape, and is else written aside first.
ghost use Rattle.std.specs.Prelude.{◌≡◌, ◌+◌, ◌≤◌, ◌++◌, codes, length, slice_range, take, vec_len, IfOk, IsTrue};
ghost use Rattle.jl_text.specs.Line.{line, graph_texts, term_text};
ghost use Rattle.jl_lines.specs.Pages.{IsOrdered, IsStill};
ghost use Rattle.jl_lines.specs.Spaces.{graph_around, is_default, with_spaces};
ghost use Rattle.jl_state.specs.KnownTerms.{known_value, HasKnown};
ghost use Rattle.jl_rows.specs.Seen.{options_seen};
ghost use Rattle.jl_state.specs.Lawful.{state_seen, maybe_value, value_or_default, statement_of, HasMaybe, IsLawful};

use crate::known::push_known;
use crate::line::{Line, Repeats};
use crate::placing::{END_ROOM, TERM_ROOM, place_known, place_name};
use jl_rows::{GRAPHS, QUADS};
use jl_state::{Known, State};
use jl_text::{AGAIN, place_again, place_byte, place_pair};
use std::alloc::AllocError;

// How much room is made at once, in bytes.
const SPARE: usize = 1 << 16;

// Fills a page up where it has too little room behind a place for the end of a line.
fn make_room(page: &mut Vec<u8>, end: usize) -> Result<(), AllocError>
    ensures room { IfOk result (λ _. end + END_ROOM ≤ vec_len page.new) }
    ensures kept { take (vec_len page.old) page.new.items ≡ page.old.items }
    ensures longer { vec_len page.old ≤ vec_len page.new }
{
    if page.len() >= END_ROOM && page.len() - END_ROOM >= end {
        return Ok(());
    }
    let Some(least) = end.checked_add(SPARE) else {
        return Err(AllocError);
    };
    page.resize(least, 0)
}

/// Writes what stands aside behind the first bytes of a page.
pub(crate) fn put_aside(page: &mut Vec<u8>, at: usize, aside: &[u8]) -> Result<usize, AllocError>
    requires { at ≤ vec_len page.old }
    ensures text { IfOk result (λ end. take end page.new.items ≡ take at page.old.items ++ aside.now) }
    ensures room { IfOk result (λ end. end + END_ROOM ≤ vec_len page.new) }
    ensures longer { vec_len page.old ≤ vec_len page.new }
{
    let end = at + aside.len();
    make_room(page, end)?;
    page[at..end].copy_from_slice(aside);
    Ok(end)
}

// Writes any term's text, and a space.
#[inline(never)]
fn put_unusual(
    page: &mut Vec<u8>,
    aside: &mut Vec<u8>,
    at: usize,
    bytes: &[u8],
    term: &Known,
) -> Result<usize, AllocError>
    requires inside { at ≤ vec_len page.old }
    requires has { HasKnown bytes.now term.now }
    ensures text { IfOk result (λ end. take end page.new.items ≡ take at page.old.items ++ (term_text (known_value bytes.now term.now) ++ codes " ")) }
    ensures room { IfOk result (λ end. end + END_ROOM ≤ vec_len page.new) }
    ensures longer { vec_len page.old ≤ vec_len page.new }
{
    aside.clear();
    push_known(aside, bytes, term)?;
    aside.push(b' ')?;
    put_aside(page, at, aside)
}

// Writes a term's text, and a space.
#[inline(always)]
fn put_known(
    page: &mut Vec<u8>,
    aside: &mut Vec<u8>,
    at: usize,
    bytes: &[u8],
    term: &Known,
) -> Result<usize, AllocError>
    requires inside { at ≤ vec_len page.old }
    requires has { HasKnown bytes.now term.now }
    ensures text { IfOk result (λ end. take end page.new.items ≡ take at page.old.items ++ (term_text (known_value bytes.now term.now) ++ codes " ")) }
    ensures room { IfOk result (λ end. end + 2 ≤ vec_len page.new) }
    ensures longer { vec_len page.old ≤ vec_len page.new }
{
    if page.len() - at >= TERM_ROOM {
        let page = page.as_mut_slice();
        if let Some(end) = place_known(page, at, bytes, term) {
            return Ok(place_byte(page, end, b' '));
        }
    }
    put_unusual(page, aside, at, bytes, term)
}

// The same, apart from the loop over rows.
#[inline(never)]
fn put_apart(
    page: &mut Vec<u8>,
    aside: &mut Vec<u8>,
    at: usize,
    bytes: &[u8],
    term: &Known,
) -> Result<usize, AllocError>
    requires inside { at ≤ vec_len page.old }
    requires has { HasKnown bytes.now term.now }
    ensures text { IfOk result (λ end. take end page.new.items ≡ take at page.old.items ++ (term_text (known_value bytes.now term.now) ++ codes " ")) }
    ensures room { IfOk result (λ end. end + 2 ≤ vec_len page.new) }
    ensures longer { vec_len page.old ≤ vec_len page.new }
{
    put_known(page, aside, at, bytes, term)
}

// Writes a term's text, and a space, at a position that has an IRI nearly always: only this is placed here.
#[inline(always)]
fn put_name(
    page: &mut Vec<u8>,
    aside: &mut Vec<u8>,
    at: usize,
    bytes: &[u8],
    term: &Known,
) -> Result<usize, AllocError>
    requires inside { at ≤ vec_len page.old }
    requires has { HasKnown bytes.now term.now }
    ensures text { IfOk result (λ end. take end page.new.items ≡ take at page.old.items ++ (term_text (known_value bytes.now term.now) ++ codes " ")) }
    ensures room { IfOk result (λ end. end + 2 ≤ vec_len page.new) }
    ensures longer { vec_len page.old ≤ vec_len page.new }
{
    if TERM_ROOM <= page.len() - at {
        let page = page.as_mut_slice();
        if let Some(end) = place_name(page, at, bytes, term) {
            return Ok(place_byte(page, end, b' '));
        }
    }
    put_apart(page, aside, at, bytes, term)
}

// Writes the text of a subject or a predicate, and a space.
#[inline(always)]
#[tactic(auto, unfolding(jl_text::specs::Line::term_text))]
fn put_position(
    page: &mut Vec<u8>,
    aside: &mut Vec<u8>,
    at: usize,
    bytes: &[u8],
    term: &Option<Known>,
) -> Result<usize, AllocError>
    requires inside { at ≤ vec_len page.old }
    requires has { HasMaybe bytes.now term.now }
    ensures text { IfOk result (λ end. take end page.new.items ≡ take at page.old.items ++ (term_text (value_or_default (maybe_value bytes.now term.now)) ++ codes " ")) }
    ensures room { IfOk result (λ end. end + 2 ≤ vec_len page.new) }
    ensures longer { vec_len page.old ≤ vec_len page.new }
{
    match term {
        Some(known) => put_name(page, aside, at, bytes, known),
        None => put_unusual(page, aside, at, bytes, &Known::Default),
    }
}

// Writes the text of an object, and a space.
#[inline(always)]
#[tactic(auto, unfolding(jl_text::specs::Line::term_text))]
fn put_object(
    page: &mut Vec<u8>,
    aside: &mut Vec<u8>,
    at: usize,
    bytes: &[u8],
    term: &Option<Known>,
) -> Result<usize, AllocError>
    requires inside { at ≤ vec_len page.old }
    requires has { HasMaybe bytes.now term.now }
    ensures text { IfOk result (λ end. take end page.new.items ≡ take at page.old.items ++ (term_text (value_or_default (maybe_value bytes.now term.now)) ++ codes " ")) }
    ensures room { IfOk result (λ end. end + 2 ≤ vec_len page.new) }
    ensures longer { vec_len page.old ≤ vec_len page.new }
{
    match term {
        Some(known) => put_known(page, aside, at, bytes, known),
        None => put_unusual(page, aside, at, bytes, &Known::Default),
    }
}

// What a position had in the last line: where it lies on the page, and whether the term is the same.
#[derive(Clone, Copy)]
struct Before {
    is_same: bool,
    from: usize,
    end: usize,
}

// Writes the text of a subject or a predicate, and a space. Where the last line has the same, it is written again.
#[inline(always)]
fn put_again(
    page: &mut Vec<u8>,
    aside: &mut Vec<u8>,
    at: usize,
    bytes: &[u8],
    term: &Option<Known>,
    before: Before,
) -> Result<usize, AllocError>
    requires inside { at ≤ vec_len page.old }
    requires order { (before.from ≤ before.end) × (before.end ≤ at) }
    requires has { HasMaybe bytes.now term.now }
    requires same { IsTrue before.is_same → IsStill (slice_range page.old.items before.from before.end) (maybe_value bytes.now term.now) }
    ensures text { IfOk result (λ end. take end page.new.items ≡ take at page.old.items ++ (term_text (value_or_default (maybe_value bytes.now term.now)) ++ codes " ")) }
    ensures room { IfOk result (λ end. end + 2 ≤ vec_len page.new) }
    ensures longer { vec_len page.old ≤ vec_len page.new }
{
    if before.is_same {
        let len = before.end - before.from;
        if len > 0 && len <= AGAIN && page.len() - at >= TERM_ROOM {
            return Ok(place_again(page.as_mut_slice(), at, before.from, len));
        }
    }
    put_position(page, aside, at, bytes, term)
}

// The same of an object.
#[inline(always)]
fn put_object_again(
    page: &mut Vec<u8>,
    aside: &mut Vec<u8>,
    at: usize,
    bytes: &[u8],
    term: &Option<Known>,
    before: Before,
) -> Result<usize, AllocError>
    requires inside { at ≤ vec_len page.old }
    requires order { (before.from ≤ before.end) × (before.end ≤ at) }
    requires has { HasMaybe bytes.now term.now }
    requires same { IsTrue before.is_same → IsStill (slice_range page.old.items before.from before.end) (maybe_value bytes.now term.now) }
    ensures text { IfOk result (λ end. take end page.new.items ≡ take at page.old.items ++ (term_text (value_or_default (maybe_value bytes.now term.now)) ++ codes " ")) }
    ensures room { IfOk result (λ end. end + 2 ≤ vec_len page.new) }
    ensures longer { vec_len page.old ≤ vec_len page.new }
{
    if before.is_same {
        let len = before.end - before.from;
        if len > 0 && len <= AGAIN && page.len() - at >= TERM_ROOM {
            return Ok(place_again(page.as_mut_slice(), at, before.from, len));
        }
    }
    put_object(page, aside, at, bytes, term)
}

// The term is the default graph.
#[inline]
fn is_default(bytes: &[u8], term: &Known) -> bool
    ensures { result ≡ is_default (known_value bytes.now term.now) }
{
    match term {
        Known::Iri { .. } => false,
        Known::Bnode(_) => false,
        Known::Literal { .. } => false,
        Known::Triple(_) => false,
        Known::Default => true,
    }
}

// Writes the graph's text, and a space behind it; the default graph has neither.
#[inline(never)]
fn put_graph(
    page: &mut Vec<u8>,
    aside: &mut Vec<u8>,
    at: usize,
    bytes: &[u8],
    graph: &Option<Known>,
) -> Result<usize, AllocError>
    requires room { at + 2 ≤ vec_len page.old }
    requires has { HasMaybe bytes.now graph.now }
    ensures text { IfOk result (λ end. take end page.new.items ≡ take at page.old.items ++ with_spaces (graph_texts (value_or_default (maybe_value bytes.now graph.now)))) }
    ensures room { IfOk result (λ end. end + 2 ≤ vec_len page.new) }
    ensures longer { vec_len page.old ≤ vec_len page.new }
{
    let Some(known) = graph else {
        return Ok(at);
    };
    if is_default(bytes, known) {
        return Ok(at);
    }
    put_name(page, aside, at, bytes, known)
}

// Writes the graph that a statement stands in, and a space behind it.
#[inline(always)]
fn put_graph_around(
    page: &mut Vec<u8>,
    aside: &mut Vec<u8>,
    at: usize,
    bytes: &[u8],
    state: &State,
) -> Result<usize, AllocError>
    requires room { at + 2 ≤ vec_len page.old }
    requires lawful { IsLawful bytes.now state.now }
    ensures text { IfOk result (λ end. take end page.new.items ≡ take at page.old.items ++ with_spaces (graph_around (options_seen bytes.now state.now.options) (state_seen bytes.now state.now))) }
    ensures room { IfOk result (λ end. end + 2 ≤ vec_len page.new) }
    ensures longer { vec_len page.old ≤ vec_len page.new }
{
    if state.options.physical == QUADS {
        return put_graph(page, aside, at, bytes, &state.graph);
    }
    if state.options.physical == GRAPHS {
        return put_graph(page, aside, at, bytes, &state.open_graph);
    }
    Ok(at)
}

// Ends a line.
#[inline]
fn put_end(page: &mut Vec<u8>, at: usize) -> usize
    requires { at + 2 ≤ vec_len page.old }
    ensures text { take result page.new.items ≡ take at page.old.items ++ codes ".\n" }
    ensures room { result ≤ vec_len page.new }
    ensures longer { vec_len page.new ≡ vec_len page.old }
{
    place_pair(page.as_mut_slice(), at, b'.', b'\n')
}

/// Writes the line of the state's last terms behind the last line.
#[inline(always)]
pub(crate) fn put_statement(
    page: &mut Vec<u8>,
    aside: &mut Vec<u8>,
    last: Line,
    bytes: &[u8],
    state: &State,
    repeats: Repeats,
) -> Result<Line, AllocError>
    requires ordered { IsOrdered last (vec_len page.old) }
    requires lawful { IsLawful bytes.now state.now }
    requires subject { IsTrue repeats.subject → IsStill (slice_range page.old.items last.start last.subject) (maybe_value bytes.now state.now.subject) }
    requires predicate { IsTrue repeats.predicate → IsStill (slice_range page.old.items last.subject last.predicate) (maybe_value bytes.now state.now.predicate) }
    requires object { IsTrue repeats.object → IsStill (slice_range page.old.items last.predicate last.object) (maybe_value bytes.now state.now.object) }
    ensures text { IfOk result (λ l. take l.end page.new.items ≡ take last.end page.old.items ++ line (statement_of (options_seen bytes.now state.now.options) (state_seen bytes.now state.now))) }
    ensures ordered { IfOk result (λ l. IsOrdered l (vec_len page.new)) }
    ensures subject { IfOk result (λ l. slice_range page.new.items l.start l.subject ≡ term_text (value_or_default (maybe_value bytes.now state.now.subject)) ++ codes " ") }
    ensures predicate { IfOk result (λ l. slice_range page.new.items l.subject l.predicate ≡ term_text (value_or_default (maybe_value bytes.now state.now.predicate)) ++ codes " ") }
    ensures object { IfOk result (λ l. slice_range page.new.items l.predicate l.object ≡ term_text (value_or_default (maybe_value bytes.now state.now.object)) ++ codes " ") }
    ensures longer { vec_len page.old ≤ vec_len page.new }
{
    let first = Before {
        is_same: repeats.subject,
        from: last.start,
        end: last.subject,
    };
    let subject = put_again(page, aside, last.end, bytes, &state.subject, first)?;
    let second = Before {
        is_same: repeats.predicate,
        from: last.subject,
        end: last.predicate,
    };
    let predicate = put_again(page, aside, subject, bytes, &state.predicate, second)?;
    let third = Before {
        is_same: repeats.object,
        from: last.predicate,
        end: last.object,
    };
    let object = put_object_again(page, aside, predicate, bytes, &state.object, third)?;
    let behind = put_graph_around(page, aside, object, bytes, state)?;
    Ok(Line {
        start: last.end,
        subject,
        predicate,
        object,
        end: put_end(page, behind),
    })
}
