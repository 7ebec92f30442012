//! Lines, and texts that are one term.
ghost use Rattle.std.specs.Prelude.{◌≡◌, drop};
ghost use Rattle.std.specs.Str.{is_utf8};
ghost use Rattle.jl_nqread.specs.Lines as spec;

use crate::Shape;
use crate::take::{blanks, byte, stands};
use crate::terms::{MOST_NESTED, plain_term, term};

fn is_utf8(text: &[u8]) -> bool
    ensures { result ≡ is_utf8 text.now }
{
    simdutf8::is_utf8(text)
}

// Whether nothing but perhaps a comment stands from a place on.
fn is_done(bytes: &[u8], at: usize) -> bool
    ensures { result ≡ spec.is_done (drop at bytes.now) }
{
    at >= bytes.len() || bytes[at] == b'#'
}

/// This shape, where a full stop ends the statement at a place.
#[tactic(auto, unfolding(crate::specs::Lines::ended))]
pub fn ended(shape: Shape, bytes: &[u8], at: usize) -> Option<Shape>
    ensures { result ≡ spec.ended shape (drop at bytes.now) }
{
    let rest = byte(bytes, at, b'.')?;
    if is_done(bytes, blanks(bytes, rest)) {
        return Some(shape);
    }
    None
}

#[tactic(auto, unfolding(crate::specs::Lines::after_object))]
fn after_object(bytes: &[u8], at: usize) -> Option<Shape>
    ensures { result ≡ spec.after_object (drop at bytes.now) }
{
    if stands(bytes, at, b'.') {
        return ended(Shape::Triple, bytes, at);
    }
    let graph = plain_term(bytes, at)?;
    ended(Shape::Quad, bytes, blanks(bytes, graph))
}

#[tactic(auto, unfolding(crate::specs::Lines::statement))]
fn statement(bytes: &[u8], at: usize) -> Option<Shape>
    ensures { result ≡ spec.statement (drop at bytes.now) }
{
    let s = term(bytes, at, MOST_NESTED)?;
    let p = term(bytes, blanks(bytes, s), MOST_NESTED)?;
    let o = term(bytes, blanks(bytes, p), MOST_NESTED)?;
    after_object(bytes, blanks(bytes, o))
}

#[tactic(auto, unfolding(crate::specs::Lines::shape_after_blanks))]
fn shape_after_blanks(bytes: &[u8], at: usize) -> Shape
    ensures { result ≡ spec.shape_after_blanks (drop at bytes.now) }
{
    if is_done(bytes, at) {
        return Shape::Blank;
    }
    match statement(bytes, at) {
        Some(shape) => shape,
        None => Shape::Bad,
    }
}

/// The shape of a line, which is given without the line feed or carriage return that ends it. A line that isn't UTF-8 is
/// Bad. It takes no memory.
#[tactic(auto, unfolding(crate::specs::Lines::shape_of))]
pub fn shape(line: &[u8]) -> Shape
    ensures { result ≡ spec.shape_of line.now }
{
    if !is_utf8(line) {
        return Shape::Bad;
    }
    shape_after_blanks(line, blanks(line, 0))
}

// Whether nothing stands from a place on.
fn is_over(text: &[u8], at: usize) -> bool
    ensures { result ≡ spec.is_over (drop at text.now) }
{
    if at < text.len() {
        return false;
    }
    true
}

/// Whether a text is one term of a line, with no blank before it or after it. It takes no memory.
#[tactic(auto, unfolding(crate::specs::Lines::is_term))]
pub fn term_ok(text: &[u8]) -> bool
    ensures { result ≡ spec.is_term text.now }
{
    if !is_utf8(text) {
        return false;
    }
    match term(text, 0, MOST_NESTED) {
        Some(end) => is_over(text, end),
        None => false,
    }
}
