//! IRIs and strings: characters up to a closing byte.
ghost use Rattle.std.specs.Prelude.{◌≡◌, ◌+◌, ◌<◌, ◌≤◌, IfSome, codes, length, drop};
ghost use Rattle.jl_nqread.specs.Taking as taking;
ghost use Rattle.jl_nqread.specs.Grammar as spec;
ghost use Rattle.jl_nqread.specs.Seen.{Leaves};

use crate::escape::uchar;
use crate::take::{byte, stands};

/// Whether a byte is one of these.
pub fn is_one_of(these: &[u8], byte: u8) -> bool
    ensures { result ≡ spec.is_one_of these.now byte }
{
    these.iter().any(|b| byte == *b)
}

fn is_iri_byte(byte: u8) -> bool
    ensures { result ≡ spec.is_iri_byte byte }
{
    byte > 32 && !is_one_of(b"<>\"{}|^`\\", byte)
}

// How many bytes the character of an IRI at a place takes.
#[tactic(auto, unfolding(crate::specs::Grammar::iri_char))]
fn iri_char(bytes: &[u8], at: usize) -> Option<usize>
    ensures exact { result ≡ spec.iri_char (drop at bytes.now) }
    ensures within { IfSome result (λ n. (0 < n) × (at + n ≤ length bytes.now)) }
{
    if at >= bytes.len() {
        return None;
    }
    if bytes[at] == b'\\' {
        return uchar(bytes, at + 1);
    }
    if is_iri_byte(bytes[at]) {
        Some(1)
    } else {
        None
    }
}

fn iri_end(bytes: &[u8], from: usize) -> Option<usize>
    ensures inside { IfSome result (λ end. (from < end) × (end ≤ length bytes.now)) }
    ensures exact { Leaves bytes.now result (taking.closed spec.iri_char 62 0 (drop from bytes.now)) }
{
    let mut at = from;
    'chars: loop {
        if stands(bytes, at, b'>') {
            return Some(at + 1);
        }
        let size = iri_char(bytes, at)?;
        at += size;
    }
}

/// The place after an IRI with its brackets.
#[tactic(auto, unfolding(crate::specs::Grammar::iri))]
pub fn iri(bytes: &[u8], at: usize) -> Option<usize>
    ensures exact { Leaves bytes.now result (spec.iri (drop at bytes.now)) }
    ensures inside { IfSome result (λ end. (at + 2 ≤ end) × (end ≤ length bytes.now)) }
{
    let inside = byte(bytes, at, b'<')?;
    iri_end(bytes, inside)
}

fn is_string_byte(byte: u8) -> bool
    ensures { result ≡ spec.is_string_byte byte }
{
    !is_one_of(b"\n\r\"\\", byte)
}

// How many bytes the escape of a string takes, whose backslash stands before a place.
#[tactic(auto, unfolding(crate::specs::Grammar::string_escape))]
fn string_escape(bytes: &[u8], at: usize) -> Option<usize>
    ensures exact { result ≡ spec.string_escape (drop at bytes.now) }
    ensures within { IfSome result (λ n. (1 < n) × (at + n ≤ length bytes.now + 1)) }
{
    if at < bytes.len() && is_one_of(b"tbnrf\"'\\", bytes[at]) {
        return Some(2);
    }
    uchar(bytes, at)
}

// How many bytes the character of a string at a place takes.
#[tactic(auto, unfolding(crate::specs::Grammar::string_char))]
fn string_char(bytes: &[u8], at: usize) -> Option<usize>
    ensures exact { result ≡ spec.string_char (drop at bytes.now) }
    ensures within { IfSome result (λ n. (0 < n) × (at + n ≤ length bytes.now)) }
{
    if at >= bytes.len() {
        return None;
    }
    if bytes[at] == b'\\' {
        return string_escape(bytes, at + 1);
    }
    if is_string_byte(bytes[at]) {
        Some(1)
    } else {
        None
    }
}

fn string_end(bytes: &[u8], from: usize) -> Option<usize>
    ensures inside { IfSome result (λ end. (from < end) × (end ≤ length bytes.now)) }
    ensures exact { Leaves bytes.now result (taking.closed spec.string_char 34 0 (drop from bytes.now)) }
{
    let mut at = from;
    'chars: loop {
        if stands(bytes, at, b'"') {
            return Some(at + 1);
        }
        let size = string_char(bytes, at)?;
        at += size;
    }
}

/// The place after a string with its quotes.
#[tactic(auto, unfolding(crate::specs::Grammar::string))]
pub fn string(bytes: &[u8], at: usize) -> Option<usize>
    ensures exact { Leaves bytes.now result (spec.string (drop at bytes.now)) }
    ensures inside { IfSome result (λ end. (at + 2 ≤ end) × (end ≤ length bytes.now)) }
{
    let inside = byte(bytes, at, b'"')?;
    string_end(bytes, inside)
}
