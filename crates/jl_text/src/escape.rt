//! The bytes that are written otherwise, in each terminal of the grammar whose text is free.
ghost use Rattle.std.specs.Prelude.{◌≡◌, ◌+◌, ◌-◌, ◌*◌, ◌<◌, ◌≤◌, ◌++◌, true, false, length, slice_range, OnOk, IsTrue};
ghost use Rattle.std.specs.Fmt.{digit_glyph};
ghost use Rattle.std.specs.List.{list_all};
ghost use Rattle.jl_text.specs.Line.{unicode_escape, label_escape, string_byte, string_escaped};
ghost use Rattle.jl_text.specs.Escapes.{byte_text, is_raw, escaped, RawUpTo, RawRun};
ghost use Rattle.jl_text.specs.Places.{Placed};

use crate::lanes::{LANES, WIDE_LANES, past_string_blocks, raw_front, raw_wide_front};
use crate::place::{place_block, place_pair};
use std::alloc::AllocError;

/// The terminals in which some bytes are escaped.
#[derive(Clone, Copy)]
pub(crate) enum Terminal {
    IriRef,
    StringLiteral,
    BlankNodeLabel,
}

// The terminals in which a byte stands for itself: 1 for IriRef, 2 for StringLiteral, 4 for BlankNodeLabel.
static RAW: [u8; 256] = [
    0, 0, 0, 0, 0, 0, 0, 0, 0, 0, 0, 0, 0, 0, 0, 0, 0, 0, 0, 0, 0, 0, 0, 0, 0, 0, 0, 0, 0, 0, 0, 0,
    2, 3, 0, 3, 3, 3, 3, 3, 3, 3, 3, 3, 3, 3, 3, 3, 7, 7, 7, 7, 7, 7, 7, 7, 7, 7, 3, 3, 2, 3, 2, 3,
    3, 7, 7, 7, 7, 7, 7, 7, 7, 7, 7, 7, 7, 7, 7, 7, 7, 7, 7, 7, 7, 7, 7, 7, 3, 7, 7, 3, 0, 3, 2, 3,
    2, 7, 7, 7, 7, 7, 7, 7, 7, 7, 7, 7, 7, 7, 7, 7, 7, 7, 7, 7, 7, 7, 7, 7, 7, 7, 7, 2, 2, 2, 3, 1,
    3, 3, 3, 3, 3, 3, 3, 3, 3, 3, 3, 3, 3, 3, 3, 3, 3, 3, 3, 3, 3, 3, 3, 3, 3, 3, 3, 3, 3, 3, 3, 3,
    3, 3, 3, 3, 3, 3, 3, 3, 3, 3, 3, 3, 3, 3, 3, 3, 3, 3, 3, 3, 3, 3, 3, 3, 3, 3, 3, 3, 3, 3, 3, 3,
    3, 3, 3, 3, 3, 3, 3, 3, 3, 3, 3, 3, 3, 3, 3, 3, 3, 3, 3, 3, 3, 3, 3, 3, 3, 3, 3, 3, 3, 3, 3, 3,
    3, 3, 3, 3, 3, 3, 3, 3, 3, 3, 3, 3, 3, 3, 3, 3, 3, 3, 3, 3, 3, 3, 3, 3, 3, 3, 3, 3, 3, 3, 3, 3,
];

// What stands behind the backslash in the ECHAR of a byte; 0 for a byte that has none.
static LETTERS: [u8; 256] = [
    0, 0, 0, 0, 0, 0, 0, 0, 98, 116, 110, 0, 102, 114, 0, 0, 0, 0, 0, 0, 0, 0, 0, 0, 0, 0, 0, 0, 0,
    0, 0, 0, 0, 0, 34, 0, 0, 0, 0, 0, 0, 0, 0, 0, 0, 0, 0, 0, 0, 0, 0, 0, 0, 0, 0, 0, 0, 0, 0, 0,
    0, 0, 0, 0, 0, 0, 0, 0, 0, 0, 0, 0, 0, 0, 0, 0, 0, 0, 0, 0, 0, 0, 0, 0, 0, 0, 0, 0, 0, 0, 0, 0,
    92, 0, 0, 0, 0, 0, 0, 0, 0, 0, 0, 0, 0, 0, 0, 0, 0, 0, 0, 0, 0, 0, 0, 0, 0, 0, 0, 0, 0, 0, 0,
    0, 0, 0, 0, 0, 0, 0, 0, 0, 0, 0, 0, 0, 0, 0, 0, 0, 0, 0, 0, 0, 0, 0, 0, 0, 0, 0, 0, 0, 0, 0, 0,
    0, 0, 0, 0, 0, 0, 0, 0, 0, 0, 0, 0, 0, 0, 0, 0, 0, 0, 0, 0, 0, 0, 0, 0, 0, 0, 0, 0, 0, 0, 0, 0,
    0, 0, 0, 0, 0, 0, 0, 0, 0, 0, 0, 0, 0, 0, 0, 0, 0, 0, 0, 0, 0, 0, 0, 0, 0, 0, 0, 0, 0, 0, 0, 0,
    0, 0, 0, 0, 0, 0, 0, 0, 0, 0, 0, 0, 0, 0, 0, 0, 0, 0, 0, 0, 0, 0, 0, 0, 0, 0, 0, 0, 0, 0, 0, 0,
    0, 0, 0, 0, 0,
];

#[tactic(auto, using(crate::proofs::EscapeLemmas::table_of_iris, crate::proofs::EscapeLemmas::table_of_strings, crate::proofs::EscapeLemmas::table_of_labels))]
#[inline(always)]
pub(crate) fn is_raw(terminal: Terminal, b: u8) -> bool
    ensures { result ≡ is_raw terminal b }
{
    let terminals = RAW[b as usize];
    match terminal {
        Terminal::IriRef => terminals & 1 != 0,
        Terminal::StringLiteral => terminals & 2 != 0,
        Terminal::BlankNodeLabel => terminals & 4 != 0,
    }
}

/// Whether each byte stands for itself.
#[inline]
pub(crate) fn is_clean(terminal: Terminal, text: &[u8]) -> bool
    ensures { result ≡ list_all (is_raw terminal) text.now }
{
    let mut all = true;
    for b in text {
        all &= is_raw(terminal, *b);
    }
    all
}

#[inline]
fn hexadecimal_digit(d: u8) -> u8
    requires { d < 16 }
    ensures { result ≡ digit_glyph true d }
{
    if d < 10 { b'0' + d } else { b'A' + (d - 10) }
}

fn push_unicode_escape(out: &mut Vec<u8>, b: u8) -> Result<(), AllocError>
    ensures { OnOk result (out.new.items ≡ out.old.items ++ unicode_escape b) }
{
    let high = hexadecimal_digit(b / 16);
    let low = hexadecimal_digit(b % 16);
    out.extend_from_slice(&[b'\\', b'u', b'0', b'0', high, low])
}

fn push_label_escape(out: &mut Vec<u8>, b: u8) -> Result<(), AllocError>
    ensures { OnOk result (out.new.items ≡ out.old.items ++ label_escape b) }
{
    let high = hexadecimal_digit(b / 16);
    let low = hexadecimal_digit(b % 16);
    out.extend_from_slice(&[b'X', high, low])
}

#[tactic(auto, unfolding(crate::specs::Line::string_byte))]
fn push_string_escape(out: &mut Vec<u8>, b: u8) -> Result<(), AllocError>
    requires { is_raw Terminal.StringLiteral b ≡ false }
    ensures { OnOk result (out.new.items ≡ out.old.items ++ string_byte b) }
{
    match b {
        0x09 => out.extend_from_slice(b"\\t"),
        0x08 => out.extend_from_slice(b"\\b"),
        0x0A => out.extend_from_slice(b"\\n"),
        0x0D => out.extend_from_slice(b"\\r"),
        0x0C => out.extend_from_slice(b"\\f"),
        0x22 => out.extend_from_slice(b"\\\""),
        0x5C => out.extend_from_slice(b"\\\\"),
        _ => push_unicode_escape(out, b),
    }
}

// Appends the escape of a byte that doesn't stand for itself.
#[tactic(auto, using(crate::proofs::EscapeLemmas::escape_of_iri, crate::proofs::EscapeLemmas::escape_of_label))]
fn push_escape(out: &mut Vec<u8>, terminal: Terminal, b: u8) -> Result<(), AllocError>
    requires { is_raw terminal b ≡ false }
    ensures { OnOk result (out.new.items ≡ out.old.items ++ byte_text terminal b) }
{
    match terminal {
        Terminal::IriRef => push_unicode_escape(out, b),
        Terminal::StringLiteral => push_string_escape(out, b),
        Terminal::BlankNodeLabel => push_label_escape(out, b),
    }
}

// The strings of a file are long or many, so they are passed over in blocks.
#[inline]
fn past_blocks(terminal: Terminal, text: &[u8], at: usize) -> usize
    requires { at ≤ length text.now }
    ensures { RawUpTo terminal text.now at result }
{
    match terminal {
        Terminal::IriRef => at,
        Terminal::StringLiteral => past_string_blocks(text, at),
        Terminal::BlankNodeLabel => at,
    }
}

// The place of the first byte from `at` on that doesn't stand for itself, or the end.
#[inline]
fn raw_end(terminal: Terminal, text: &[u8], at: usize) -> usize
    requires { at ≤ length text.now }
    ensures { RawRun terminal text.now at result }
{
    let mut end = past_blocks(terminal, text, at);
    while end < text.len() && is_raw(terminal, text[end]) {
        end += 1;
    }
    end
}

/// Appends the text, whole stretches at a time.
pub(crate) fn push_escaped(
    out: &mut Vec<u8>,
    terminal: Terminal,
    text: &[u8],
) -> Result<(), AllocError>
    ensures { OnOk result (out.new.items ≡ out.old.items ++ escaped terminal text.now) }
{
    let mut at = 0;
    'stretches: while at < text.len() {
        let end = raw_end(terminal, text, at);
        out.extend_from_slice(&text[at..end])?;
        if end == text.len() {
            return Ok(());
        }
        push_escape(out, terminal, text[end])?;
        at = end + 1;
    }
    Ok(())
}

fn place_unicode_escape(page: &mut [u8], at: usize, b: u8) -> usize
    requires { at + 6 ≤ length page.old }
    ensures placed { Placed page.old page.new at (unicode_escape b) result }
    ensures end { result ≡ at + 6 }
{
    let sign = place_pair(page, at, b'\\', b'u');
    let zeros = place_pair(page, sign, b'0', b'0');
    let high = hexadecimal_digit(b / 16);
    let low = hexadecimal_digit(b % 16);
    place_pair(page, zeros, high, low)
}

// Writes the escape of a byte. A table has no branch on which of the ECHARs it is.
#[inline]
fn place_string_escape(page: &mut [u8], at: usize, b: u8) -> usize
    requires escaped { is_raw Terminal.StringLiteral b ≡ false }
    requires room { at + 6 ≤ length page.old }
    ensures placed { Placed page.old page.new at (string_byte b) result }
    ensures end { result ≤ at + 6 }
{
    let letter = LETTERS[b as usize];
    if letter == 0 {
        return place_unicode_escape(page, at, b);
    }
    place_pair(page, at, b'\\', letter)
}

// Writes a part of some bytes at a place of a page, as a string has it: as blocks, of which the bytes up to the first
// that is escaped count.
fn place_escaped_end(page: &mut [u8], at: usize, bytes: &[u8], from: usize, end: usize) -> usize
    requires order { from ≤ end }
    requires inside { end + LANES ≤ length bytes.now }
    requires room { at + 6 * (end - from) + LANES ≤ length page.old }
    ensures placed { Placed page.old page.new at (string_escaped (slice_range bytes.now from end)) result }
    ensures end { result ≤ at + 6 * (end - from) }
{
    let mut place = at;
    let mut next = from;
    'by_front: loop {
        let front = raw_front(bytes, next);
        if front >= end - next {
            return place_block::<LANES>(page, place, bytes, next, end - next);
        }
        if front == LANES {
            place = place_block::<LANES>(page, place, bytes, next, LANES);
            next += LANES;
            continue 'by_front;
        }
        let stop = place_block::<LANES>(page, place, bytes, next, front);
        place = place_string_escape(page, stop, bytes[next + front]);
        next = next + front + 1;
    }
}

/// The same in wide blocks, as far as there is room for them.
pub(crate) fn place_escaped(
    page: &mut [u8],
    at: usize,
    bytes: &[u8],
    from: usize,
    end: usize,
) -> usize
    requires order { from ≤ end }
    requires inside { end + LANES ≤ length bytes.now }
    requires room { at + 6 * (end - from) + LANES ≤ length page.old }
    ensures placed { Placed page.old page.new at (string_escaped (slice_range bytes.now from end)) result }
    ensures end { result ≤ at + 6 * (end - from) }
{
    let mut place = at;
    let mut next = from;
    'by_wide_front: while bytes.len() - next >= WIDE_LANES && page.len() - place >= WIDE_LANES {
        let raw = raw_wide_front(bytes, next);
        if raw >= end - next {
            return place_block::<WIDE_LANES>(page, place, bytes, next, end - next);
        }
        if raw == WIDE_LANES {
            place = place_block::<WIDE_LANES>(page, place, bytes, next, WIDE_LANES);
            next += WIDE_LANES;
            continue 'by_wide_front;
        }
        let stop = place_block::<WIDE_LANES>(page, place, bytes, next, raw);
        place = place_string_escape(page, stop, bytes[next + raw]);
        next = next + raw + 1;
    }
    place_escaped_end(page, place, bytes, next, end)
}
