//! The parts of a line at their places in a file, placed on a page. A text is written as one block of 16, 32 or 64 bytes,
//! which the file nearly always has from its place on, and its first bytes count. A string is written as many. Another
//! part that is longer, or has escapes, isn't placed: the writers of whole texts append it.
ghost use Rattle.std.specs.Prelude.{◌≡◌, ℕ, ◌+◌, ◌*◌, ◌<◌, ◌≤◌, ◌++◌, length, codes, IfSome, IsSome, IsTrue};
ghost use Rattle.jl_base.specs.Spans.{text_of, IsInside};
ghost use Rattle.jl_text.specs.Escapes.{AreRaw};
ghost use Rattle.jl_text.specs.Line.{iri_escaped, iri_text, string_escaped, string_text, label_written};
ghost use Rattle.jl_text.specs.Places.{Placed, Places};

use crate::escape::{Terminal, place_escaped};
use crate::lanes::{LANES, SHORT, is_raw_label_front, is_raw_short_label, is_raw_string_front};
use crate::place::{place_block, place_byte, place_pair};
use jl_base::Span;

// The bytes that are written for a part of an IRI at most.
const LONG: usize = 64;

/// The room that an IRI takes at most, in bytes.
pub const IRI_ROOM: usize = 130;

/// The room that a literal's short string takes at most, in bytes.
pub const STRING_ROOM: usize = 34;

/// The room that a blank node takes at most, in bytes.
pub const LABEL_ROOM: usize = 34;

/// The room that a literal's language tag takes at most, in bytes.
pub const TAG_ROOM: usize = 33;

/// The room that a literal's datatype takes at most, in bytes.
pub const DATATYPE_ROOM: usize = 68;

// Whether the file has the bytes that are read for the text.
#[inline(always)]
fn is_within(bytes: &[u8], span: Span, width: usize) -> bool
    requires { IsInside bytes.now span }
    ensures within { IsTrue result → (span.len ≤ width) × (span.at + width ≤ length bytes.now) }
    ensures where_within { span.len ≤ width → span.at + width ≤ length bytes.now → IsTrue result }
{
    span.len as usize <= width && bytes.len() - span.at as usize >= width
}

#[inline(always)]
fn place_short(page: &mut [u8], at: usize, bytes: &[u8], span: Span) -> usize
    requires short { span.len ≤ SHORT }
    requires inside { span.at + SHORT ≤ length bytes.now }
    requires room { at + SHORT ≤ length page.old }
    ensures placed { Placed page.old page.new at (text_of bytes.now span) result }
    ensures end { result ≡ at + span.len }
{
    place_block::<SHORT>(page, at, bytes, span.at as usize, span.len as usize)
}

#[inline(always)]
fn place_long(page: &mut [u8], at: usize, bytes: &[u8], span: Span) -> usize
    requires long { span.len ≤ LONG }
    requires inside { span.at + LONG ≤ length bytes.now }
    requires room { at + LONG ≤ length page.old }
    ensures placed { Placed page.old page.new at (text_of bytes.now span) result }
    ensures end { result ≡ at + span.len }
{
    if span.len as usize <= SHORT {
        return place_short(page, at, bytes, span);
    }
    place_block::<LONG>(page, at, bytes, span.at as usize, span.len as usize)
}

#[inline(always)]
fn later(a: u64, b: u64) -> u64
    ensures first { a ≤ result }
    ensures second { b ≤ result }
    ensures least { (c : ℕ) → a ≤ c → b ≤ c → result ≤ c }
{
    if a < b { b } else { a }
}

// Whether the file has the bytes that are read for a prefix and a name. One test serves both places.
#[inline(always)]
fn are_within(bytes: &[u8], prefix: Span, name: Span) -> bool
    requires prefix { IsInside bytes.now prefix }
    requires name { IsInside bytes.now name }
    ensures prefix { IsTrue result → (prefix.len ≤ LONG) × (prefix.at + LONG ≤ length bytes.now) }
    ensures name { IsTrue result → (name.len ≤ LONG) × (name.at + LONG ≤ length bytes.now) }
    ensures where_within { prefix.len ≤ LONG → name.len ≤ LONG → prefix.at + LONG ≤ length bytes.now → name.at + LONG ≤ length bytes.now → IsTrue result }
{
    let last = later(prefix.at, name.at) as usize;
    prefix.len as usize <= LONG && name.len as usize <= LONG && bytes.len() - last >= LONG
}

/// Places the IRI whose text is a prefix and a name that an IRI has as they are.
#[inline(always)]
pub fn place_iri(
    page: &mut [u8],
    at: usize,
    bytes: &[u8],
    prefix: Span,
    name: Span,
) -> Option<usize>
    requires room { at + IRI_ROOM ≤ length page.old }
    requires prefix_inside { IsInside bytes.now prefix }
    requires name_inside { IsInside bytes.now name }
    requires prefix_clean { iri_escaped (text_of bytes.now prefix) ≡ text_of bytes.now prefix }
    requires name_clean { iri_escaped (text_of bytes.now name) ≡ text_of bytes.now name }
    ensures placed { Places page.old page.new at (iri_text (text_of bytes.now prefix ++ text_of bytes.now name)) result }
    ensures room { IfSome result (λ end. end ≤ at + IRI_ROOM) }
    ensures where_placed { prefix.len ≤ LONG → name.len ≤ LONG → prefix.at + LONG ≤ length bytes.now → name.at + LONG ≤ length bytes.now → IsSome result }
{
    if !are_within(bytes, prefix, name) {
        return None;
    }
    let begin = place_byte(page, at, b'<');
    let middle = place_long(page, begin, bytes, prefix);
    let end = place_long(page, middle, bytes, name);
    Some(place_byte(page, end, b'>'))
}

// A short literal without escapes.
#[tactic(auto, using(crate::proofs::WideLemmas::clean_string_at))]
#[inline(always)]
fn is_plain_string(bytes: &[u8], lex: Span) -> bool
    requires { IsInside bytes.now lex }
    ensures short { IsTrue result → (lex.len ≤ SHORT) × (lex.at + SHORT ≤ length bytes.now) }
    ensures clean { IsTrue result → string_escaped (text_of bytes.now lex) ≡ text_of bytes.now lex }
{
    is_within(bytes, lex, SHORT) && is_raw_string_front(bytes, lex.at as usize, lex.len as usize)
}

// Places a string of any length, escapes and all. Each of its bytes may take six.
#[inline(never)]
fn place_long_string(
    page: &mut [u8],
    at: usize,
    bytes: &[u8],
    lex: Span,
    behind: usize,
) -> Option<usize>
    requires room { at + STRING_ROOM + behind ≤ length page.old }
    requires inside { IsInside bytes.now lex }
    ensures placed { Places page.old page.new at (string_text (text_of bytes.now lex)) result }
    ensures room { IfSome result (λ end. end + behind ≤ length page.new) }
    ensures where_placed { lex.at + lex.len + LANES ≤ length bytes.now → at + behind + 6 * lex.len + 2 + LANES ≤ length page.old → IsSome result }
{
    let from = lex.at as usize;
    let len = lex.len as usize;
    if bytes.len() - from - len < LANES || page.len() - at - behind < 6 * len + 2 + LANES {
        return None;
    }
    let begin = place_byte(page, at, b'"');
    let end = place_escaped(page, begin, bytes, from, from + len);
    Some(place_byte(page, end, b'"'))
}

/// Places a literal's string, in its quotes, and leaves so much room behind it. None: the file has fewer than 16 bytes
/// behind the string, or the page may not have room for it, at six bytes for each of its bytes.
#[inline]
pub fn place_string(
    page: &mut [u8],
    at: usize,
    bytes: &[u8],
    lex: Span,
    behind: usize,
) -> Option<usize>
    requires room { at + STRING_ROOM + behind ≤ length page.old }
    requires inside { IsInside bytes.now lex }
    ensures placed { Places page.old page.new at (string_text (text_of bytes.now lex)) result }
    ensures room { IfSome result (λ end. end + behind ≤ length page.new) }
    ensures where_placed { lex.at + lex.len + LANES ≤ length bytes.now → at + behind + 6 * lex.len + 2 + LANES ≤ length page.old → IsSome result }
{
    if !is_plain_string(bytes, lex) {
        return place_long_string(page, at, bytes, lex, behind);
    }
    let begin = place_byte(page, at, b'"');
    let end = place_short(page, begin, bytes, lex);
    Some(place_byte(page, end, b'"'))
}

// A short label without escapes.
#[tactic(auto, using(crate::proofs::WideLemmas::clean_label_at))]
#[inline(always)]
fn is_plain_label(bytes: &[u8], label: Span) -> bool
    requires { IsInside bytes.now label }
    ensures short { IsTrue result → (label.len ≤ SHORT) × (label.at + SHORT ≤ length bytes.now) }
    ensures clean { IsTrue result → label_written (text_of bytes.now label) ≡ text_of bytes.now label }
    ensures where_plain { 0 < label.len → label.len ≤ SHORT → label.at + SHORT ≤ length bytes.now → AreRaw Terminal.BlankNodeLabel bytes.now label.at (label.at + label.len) → IsTrue result }
{
    label.len > 0
        && is_within(bytes, label, SHORT)
        && is_raw_label_front(bytes, label.at as usize, label.len as usize)
}

// A label without escapes that is shorter still, as most are.
#[tactic(auto, using(crate::proofs::WideLemmas::clean_label_at))]
#[inline(always)]
fn is_plain_short_label(bytes: &[u8], label: Span) -> bool
    requires { IsInside bytes.now label }
    ensures short { IsTrue result → (label.len ≤ LANES) × (label.at + LANES ≤ length bytes.now) }
    ensures clean { IsTrue result → label_written (text_of bytes.now label) ≡ text_of bytes.now label }
{
    label.len > 0
        && is_within(bytes, label, LANES)
        && is_raw_short_label(bytes, label.at as usize, label.len as usize)
}

/// Places a blank node by its label.
#[inline]
pub fn place_label(page: &mut [u8], at: usize, bytes: &[u8], label: Span) -> Option<usize>
    requires room { at + LABEL_ROOM ≤ length page.old }
    requires inside { IsInside bytes.now label }
    ensures placed { Places page.old page.new at (codes "_:" ++ label_written (text_of bytes.now label)) result }
    ensures room { IfSome result (λ end. end ≤ at + LABEL_ROOM) }
    ensures where_placed { 0 < label.len → label.len ≤ SHORT → label.at + SHORT ≤ length bytes.now → AreRaw Terminal.BlankNodeLabel bytes.now label.at (label.at + label.len) → IsSome result }
{
    if is_plain_short_label(bytes, label) {
        let begin = place_pair(page, at, b'_', b':');
        let from = label.at as usize;
        return Some(place_block::<LANES>(page, begin, bytes, from, label.len as usize));
    }
    if !is_plain_label(bytes, label) {
        return None;
    }
    let begin = place_pair(page, at, b'_', b':');
    Some(place_short(page, begin, bytes, label))
}

/// Places a literal's language tag.
#[inline]
pub fn place_tag(page: &mut [u8], at: usize, bytes: &[u8], tag: Span) -> Option<usize>
    requires room { at + TAG_ROOM ≤ length page.old }
    requires inside { IsInside bytes.now tag }
    ensures placed { Places page.old page.new at (codes "@" ++ text_of bytes.now tag) result }
    ensures room { IfSome result (λ end. end ≤ at + TAG_ROOM) }
    ensures where_placed { tag.len ≤ SHORT → tag.at + SHORT ≤ length bytes.now → IsSome result }
{
    if !is_within(bytes, tag, SHORT) {
        return None;
    }
    let begin = place_byte(page, at, b'@');
    Some(place_short(page, begin, bytes, tag))
}

/// Places a literal's datatype, which an IRI has as it is.
#[inline]
pub fn place_datatype(page: &mut [u8], at: usize, bytes: &[u8], datatype: Span) -> Option<usize>
    requires room { at + DATATYPE_ROOM ≤ length page.old }
    requires inside { IsInside bytes.now datatype }
    requires clean { iri_escaped (text_of bytes.now datatype) ≡ text_of bytes.now datatype }
    ensures placed { Places page.old page.new at (codes "^^" ++ iri_text (text_of bytes.now datatype)) result }
    ensures room { IfSome result (λ end. end ≤ at + DATATYPE_ROOM) }
    ensures where_placed { datatype.len ≤ LONG → datatype.at + LONG ≤ length bytes.now → IsSome result }
{
    if !is_within(bytes, datatype, LONG) {
        return None;
    }
    let middle = place_pair(page, at, b'^', b'^');
    let begin = place_byte(page, middle, b'<');
    let end = place_long(page, begin, bytes, datatype);
    Some(place_byte(page, end, b'>'))
}
