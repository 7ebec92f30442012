//! Terms.
ghost use Rattle.std.specs.Prelude.{◌≡◌, ◌+◌, ◌<◌, ◌≤◌, ◌==◌, IfSome, IsTrue, length, drop, slice_index, if◌then◌else◌};
ghost use Rattle.std.specs.Char.{is_ascii_alphabetic, is_ascii_alphanumeric};
ghost use Rattle.jl_nqread.specs.Taking as taking;
ghost use Rattle.jl_nqread.specs.Grammar as spec;
ghost use Rattle.jl_nqread.specs.Seen.{Leaves};

use crate::quoted::{iri, is_one_of, string};
use crate::take::{blanks, byte, stands, twice};

/// How many triple terms may stand one in another.
pub const MOST_NESTED: u32 = 32;

fn is_letter_at(bytes: &[u8], at: usize) -> bool
    ensures exact { result ≡ taking.starts is_ascii_alphabetic (drop at bytes.now) }
    ensures inside { IsTrue result → at < length bytes.now }
{
    at < bytes.len() && bytes[at].is_ascii_alphabetic()
}

fn is_alphanumeric_at(bytes: &[u8], at: usize) -> bool
    ensures exact { result ≡ taking.starts is_ascii_alphanumeric (drop at bytes.now) }
    ensures inside { IsTrue result → at < length bytes.now }
{
    at < bytes.len() && bytes[at].is_ascii_alphanumeric()
}

// Whether a tag goes on at a place: with a letter, a digit, or a hyphen that one of these comes after.
fn goes_on_tag(bytes: &[u8], at: usize) -> bool
    ensures exact { result ≡ spec.goes_on_tag (drop at bytes.now) }
    ensures inside { IsTrue result → at < length bytes.now }
{
    if at >= bytes.len() {
        return false;
    }
    bytes[at].is_ascii_alphanumeric() || (bytes[at] == b'-' && is_alphanumeric_at(bytes, at + 1))
}

fn letters(bytes: &[u8], from: usize) -> usize
    requires { from ≤ length bytes.now }
    ensures exact { drop result bytes.now ≡ taking.past (taking.starts is_ascii_alphabetic) (drop from bytes.now) }
    ensures inside { (from ≤ result) × (result ≤ length bytes.now) }
{
    let mut at = from;
    'run: while is_letter_at(bytes, at) {
        at += 1;
    }
    at
}

fn groups(bytes: &[u8], from: usize) -> usize
    requires { from ≤ length bytes.now }
    ensures exact { drop result bytes.now ≡ taking.past spec.goes_on_tag (drop from bytes.now) }
    ensures inside { (from ≤ result) × (result ≤ length bytes.now) }
{
    let mut at = from;
    'run: while goes_on_tag(bytes, at) {
        at += 1;
    }
    at
}

#[tactic(auto, unfolding(crate::specs::Grammar::tag_groups))]
fn tag_groups(bytes: &[u8], at: usize) -> usize
    requires { at ≤ length bytes.now }
    ensures exact { drop result bytes.now ≡ spec.tag_groups (drop at bytes.now) }
    ensures inside { (at ≤ result) × (result ≤ length bytes.now) }
{
    if stands(bytes, at, b'-') {
        return groups(bytes, at);
    }
    at
}

/// The place after a language tag, from the one after its '@'.
#[tactic(auto, unfolding(crate::specs::Grammar::tag))]
pub fn tag(bytes: &[u8], at: usize) -> Option<usize>
    ensures exact { Leaves bytes.now result (spec.tag (drop at bytes.now)) }
    ensures inside { IfSome result (λ end. (at ≤ end) × (end ≤ length bytes.now)) }
{
    if !is_letter_at(bytes, at) {
        return None;
    }
    Some(tag_groups(bytes, letters(bytes, at)))
}

// The place after a tag or a datatype, or after nothing.
#[tactic(auto, unfolding(crate::specs::Grammar::literal_tail))]
fn literal_tail(bytes: &[u8], at: usize) -> Option<usize>
    ensures { Leaves bytes.now result (spec.literal_tail (drop at bytes.now)) }
{
    if let Some(inside) = byte(bytes, at, b'@') {
        return tag(bytes, inside);
    }
    if let Some(inside) = twice(bytes, at, b'^') {
        return iri(bytes, inside);
    }
    Some(at)
}

#[tactic(auto, unfolding(crate::specs::Grammar::literal))]
fn literal(bytes: &[u8], at: usize) -> Option<usize>
    ensures { Leaves bytes.now result (spec.literal (drop at bytes.now)) }
{
    let tail = string(bytes, at)?;
    literal_tail(bytes, tail)
}

fn is_label_byte(byte: u8) -> bool
    ensures { result ≡ spec.is_label_byte byte }
{
    byte.is_ascii_alphanumeric() || is_one_of(b"_-:.", byte) || byte > 127
}

fn is_label_start(byte: u8) -> bool
    ensures { result ≡ spec.is_label_start byte }
{
    is_label_byte(byte) && !is_one_of(b"-.", byte)
}

fn is_label_at(bytes: &[u8], at: usize) -> bool
    ensures exact { result ≡ taking.starts spec.is_label_byte (drop at bytes.now) }
    ensures inside { IsTrue result → at < length bytes.now }
{
    at < bytes.len() && is_label_byte(bytes[at])
}

// The end of a label with the byte at a place, which was its end before it: no full stop counts till another byte comes.
fn end_with(bytes: &[u8], at: usize, end: usize) -> usize
    requires inside { at < length bytes.now }
    requires order { end ≤ at }
    ensures exact { result ≡ if slice_index bytes.now at == 46 then end else at + 1 }
    ensures order { (end ≤ result) × (result ≤ at + 1) }
{
    if bytes[at] == b'.' { end } else { at + 1 }
}

// The place after a label whose first byte stands before a place.
fn label_end(bytes: &[u8], from: usize) -> usize
    requires { from ≤ length bytes.now }
    ensures exact { drop result bytes.now ≡ spec.label_end (drop from bytes.now) (drop from bytes.now) }
    ensures inside { (from ≤ result) × (result ≤ length bytes.now) }
{
    let mut end = from;
    let mut at = from;
    'run: while is_label_at(bytes, at) {
        end = end_with(bytes, at, end);
        at += 1;
    }
    end
}

#[tactic(auto, unfolding(crate::specs::Grammar::label))]
fn label(bytes: &[u8], at: usize) -> Option<usize>
    ensures exact { Leaves bytes.now result (spec.label (drop at bytes.now)) }
    ensures inside { IfSome result (λ end. (at ≤ end) × (end ≤ length bytes.now)) }
{
    if at < bytes.len() && is_label_start(bytes[at]) {
        return Some(label_end(bytes, at + 1));
    }
    None
}

/// The place after a blank node.
#[tactic(auto, unfolding(crate::specs::Grammar::blank_node))]
pub fn blank_node(bytes: &[u8], at: usize) -> Option<usize>
    ensures exact { Leaves bytes.now result (spec.blank_node (drop at bytes.now)) }
    ensures inside { IfSome result (λ end. (at + 2 ≤ end) × (end ≤ length bytes.now)) }
{
    let colon = byte(bytes, at, b'_')?;
    let start = byte(bytes, colon, b':')?;
    label(bytes, start)
}

/// The place after a term that is no triple term.
#[tactic(auto, unfolding(crate::specs::Grammar::plain_term))]
pub fn plain_term(bytes: &[u8], at: usize) -> Option<usize>
    ensures { Leaves bytes.now result (spec.plain_term (drop at bytes.now)) }
{
    if stands(bytes, at, b'<') {
        return iri(bytes, at);
    }
    if stands(bytes, at, b'"') {
        return literal(bytes, at);
    }
    blank_node(bytes, at)
}

/// The place after a term, in which at most so many triple terms stand one in another.
#[cycle(terms)]
pub fn term(bytes: &[u8], at: usize, depth: u32) -> Option<usize>
    ensures { Leaves bytes.now result (spec.term depth (drop at bytes.now)) }
{
    if depth == 0 {
        return plain_term(bytes, at);
    }
    match twice(bytes, at, b'<') {
        Some(inside) => three_terms(bytes, inside, depth - 1),
        None => plain_term(bytes, at),
    }
}

// The place after three terms and the end of their triple term.
#[cycle(terms)]
#[tactic(auto, unfolding(crate::specs::Grammar::three_terms))]
fn three_terms(bytes: &[u8], at: usize, depth: u32) -> Option<usize>
    ensures { Leaves bytes.now result (spec.three_terms (spec.term depth) (drop at bytes.now)) }
{
    let s = term(bytes, blanks(bytes, at), depth)?;
    let p = term(bytes, blanks(bytes, s), depth)?;
    let o = term(bytes, blanks(bytes, p), depth)?;
    twice(bytes, blanks(bytes, o), b'>')
}
