//! What a line says, as an item of its own texts, and a term.
ghost use Rattle.std.specs.Prelude.{◌≡◌, ◌⊎◌, IfOk, IsTrue, drop};
ghost use Rattle.jl_base.specs.Items.{item_of, tail_of, value_of};
ghost use Rattle.jl_nqread.specs.Grammar as grammar;
ghost use Rattle.jl_nqread.specs.Lines as lines;
ghost use Rattle.jl_nqread.specs.Meaning as spec;
ghost use Rattle.jl_base.specs.Terms.{Lang};
ghost use Rattle.jl_nqread.specs.Finding.{three_of, Finds, FindsItem};
ghost use Rattle.jl_nqread.specs.declared.line_shape.Shape.TheVariants as shapes;

use crate::Shape;
use crate::line::ended;
use crate::missing::Missing;
use crate::quoted::{iri, string};
use crate::take::{blanks, byte, stands, twice};
use crate::terms::{MOST_NESTED, blank_node, tag};
use crate::unescape::unescaped;
use jl_base::{Boxed, Item, Tail, Term, Text, Three};
use std::alloc::{AllocError, Global};

#[tactic(auto, unfolding(crate::specs::Meaning::iri_text))]
fn read_iri(alloc: Global, bytes: &[u8], at: usize) -> Result<(Text, usize), Missing>
    ensures { Finds (λ t. t) bytes.now (grammar.iri (drop at bytes.now)) (spec.iri_text (drop at bytes.now)) result }
{
    let Some(end) = iri(bytes, at) else {
        return Err(Missing::Part);
    };
    let text = unescaped(alloc, &bytes[at + 1..end - 1])?;
    Ok((text, end))
}

#[tactic(auto, unfolding(crate::specs::Meaning::string_text))]
fn read_string(alloc: Global, bytes: &[u8], at: usize) -> Result<(Text, usize), Missing>
    ensures { Finds (λ t. t) bytes.now (grammar.string (drop at bytes.now)) (spec.string_text (drop at bytes.now)) result }
{
    let Some(end) = string(bytes, at) else {
        return Err(Missing::Part);
    };
    let text = unescaped(alloc, &bytes[at + 1..end - 1])?;
    Ok((text, end))
}

fn read_tag(alloc: Global, bytes: &[u8], at: usize) -> Result<(Tail, usize), Missing>
    ensures { Finds tail_of bytes.now (grammar.tag (drop at bytes.now)) (Lang (spec.part (drop at bytes.now) (spec.left (grammar.tag (drop at bytes.now))))) result }
{
    let Some(end) = tag(bytes, at) else {
        return Err(Missing::Part);
    };
    let tag = Text::from_bytes(alloc, &bytes[at..end])?;
    Ok((Tail::Lang(tag), end))
}

// The end of a literal.
#[tactic(auto, unfolding(crate::specs::Grammar::literal_tail, crate::specs::Meaning::tail_said))]
fn read_tail(alloc: Global, bytes: &[u8], at: usize) -> Result<(Tail, usize), Missing>
    ensures { Finds tail_of bytes.now (grammar.literal_tail (drop at bytes.now)) (spec.tail_said (drop at bytes.now)) result }
{
    if let Some(inside) = byte(bytes, at, b'@') {
        return read_tag(alloc, bytes, inside);
    }
    if let Some(inside) = twice(bytes, at, b'^') {
        let (datatype, end) = read_iri(alloc, bytes, inside)?;
        return Ok((Tail::Typed(datatype), end));
    }
    Ok((Tail::Simple, at))
}

#[tactic(auto, unfolding(crate::specs::Grammar::literal, crate::specs::Meaning::literal_said))]
fn read_literal(alloc: Global, bytes: &[u8], at: usize) -> Result<(Term, usize), Missing>
    ensures { Finds value_of bytes.now (grammar.literal (drop at bytes.now)) (spec.literal_said (drop at bytes.now)) result }
{
    let (lex, inside) = read_string(alloc, bytes, at)?;
    let (tail, end) = read_tail(alloc, bytes, inside)?;
    Ok((Term::Literal { lex, tail }, end))
}

#[tactic(auto, unfolding(crate::specs::Meaning::blank_node_said))]
fn read_blank_node(alloc: Global, bytes: &[u8], at: usize) -> Result<(Term, usize), Missing>
    ensures { Finds value_of bytes.now (grammar.blank_node (drop at bytes.now)) (spec.blank_node_said (drop at bytes.now)) result }
{
    let Some(end) = blank_node(bytes, at) else {
        return Err(Missing::Part);
    };
    let label = Text::from_bytes(alloc, &bytes[at + 2..end])?;
    Ok((Term::Bnode(label), end))
}

// A term that is no triple term.
#[tactic(auto, unfolding(crate::specs::Grammar::plain_term, crate::specs::Meaning::plain_said))]
fn read_plain(alloc: Global, bytes: &[u8], at: usize) -> Result<(Term, usize), Missing>
    ensures { Finds value_of bytes.now (grammar.plain_term (drop at bytes.now)) (spec.plain_said (drop at bytes.now)) result }
{
    if stands(bytes, at, b'<') {
        let (iri, end) = read_iri(alloc, bytes, at)?;
        return Ok((Term::Iri(iri), end));
    }
    if stands(bytes, at, b'"') {
        return read_literal(alloc, bytes, at);
    }
    read_blank_node(alloc, bytes, at)
}

// Takes a box for the three terms.
#[tactic(auto, using(crate::proofs::MeaningLaws::nested_value))]
fn triple_term(alloc: Global, three: Three) -> Result<Term, AllocError>
    ensures { IfOk result (λ term. value_of term ≡ three_of three) }
{
    Ok(Term::Triple(Boxed::new(alloc, three)?))
}

// A term in which at most so many triple terms stand one in another.
#[cycle(read_terms)]
fn read_term(alloc: Global, bytes: &[u8], at: usize, depth: u32) -> Result<(Term, usize), Missing>
    ensures { Finds value_of bytes.now (grammar.term depth (drop at bytes.now)) (spec.said depth (drop at bytes.now)) result }
{
    if depth == 0 {
        return read_plain(alloc, bytes, at);
    }
    match twice(bytes, at, b'<') {
        Some(inside) => read_three(alloc, bytes, inside, depth - 1),
        None => read_plain(alloc, bytes, at),
    }
}

// A triple term, from the place after its '<<'.
#[cycle(read_terms)]
#[tactic(auto, unfolding(crate::specs::Grammar::three_terms, crate::specs::Meaning::three_said))]
fn read_three(alloc: Global, bytes: &[u8], at: usize, depth: u32) -> Result<(Term, usize), Missing>
    ensures { Finds value_of bytes.now (grammar.three_terms (grammar.term depth) (drop at bytes.now)) (spec.three_said (grammar.term depth) (spec.said depth) (drop at bytes.now)) result }
{
    let (s, s_end) = read_term(alloc, bytes, blanks(bytes, at), depth)?;
    let (p, p_end) = read_term(alloc, bytes, blanks(bytes, s_end), depth)?;
    let (o, o_end) = read_term(alloc, bytes, blanks(bytes, p_end), depth)?;
    let Some(end) = twice(bytes, blanks(bytes, o_end), b'>') else {
        return Err(Missing::Part);
    };
    Ok((triple_term(alloc, Three { s, p, o })?, end))
}

// The item of three terms, from what stands after them.
#[tactic(auto, unfolding(crate::specs::Lines::after_object, crate::specs::Meaning::item_with))]
fn read_end(
    alloc: Global,
    bytes: &[u8],
    at: usize,
    s: Term,
    p: Term,
    o: Term,
) -> Result<Item, Missing>
    ensures { FindsItem (lines.after_object (drop at bytes.now)) (spec.item_with (value_of s) (value_of p) (value_of o) (drop at bytes.now)) result }
{
    if stands(bytes, at, b'.') {
        let Some(_) = ended(Shape::Triple, bytes, at) else {
            return Err(Missing::Part);
        };
        return Ok(Item::Triple(s, p, o));
    }
    let (g, end) = read_plain(alloc, bytes, at)?;
    let Some(_) = ended(Shape::Quad, bytes, blanks(bytes, end)) else {
        return Err(Missing::Part);
    };
    Ok(Item::Quad(s, p, o, g))
}

#[tactic(auto, unfolding(crate::specs::Lines::statement, crate::specs::Meaning::statement_said))]
fn read_statement(alloc: Global, bytes: &[u8], at: usize) -> Result<Item, Missing>
    ensures { FindsItem (lines.statement (drop at bytes.now)) (spec.statement_said (drop at bytes.now)) result }
{
    let (s, s_end) = read_term(alloc, bytes, at, MOST_NESTED)?;
    let (p, p_end) = read_term(alloc, bytes, blanks(bytes, s_end), MOST_NESTED)?;
    let (o, o_end) = read_term(alloc, bytes, blanks(bytes, p_end), MOST_NESTED)?;
    read_end(alloc, bytes, blanks(bytes, o_end), s, p, o)
}

/// The item of a line that is a statement: a `Triple` where it has no graph, else a `Quad`. Takes memory for each text,
/// and a box for each triple term.
#[tactic(auto, unfolding(crate::specs::Meaning::item_said))]
pub fn item(alloc: Global, line: &[u8]) -> Result<Item, AllocError>
    requires { (lines.shape_of line.now ≡ shapes.Triple) ⊎ (lines.shape_of line.now ≡ shapes.Quad) }
    ensures { IfOk result (λ item. item_of item ≡ spec.item_said line.now) }
{
    match read_statement(alloc, line, blanks(line, 0)) {
        Ok(item) => Ok(item),
        Err(Missing::Part) => unreachable!(),
        Err(Missing::Memory) => Err(AllocError),
    }
}

/// The term that a text is. Takes memory for each text, and a box for each triple term.
pub fn term(alloc: Global, text: &[u8]) -> Result<Term, AllocError>
    requires { IsTrue (lines.is_term text.now) }
    ensures { IfOk result (λ term. value_of term ≡ spec.said grammar.most_nested text.now) }
{
    match read_term(alloc, text, 0, MOST_NESTED) {
        Ok((term, _)) => Ok(term),
        Err(Missing::Part) => unreachable!(),
        Err(Missing::Memory) => Err(AllocError),
    }
}
