//! Many bytes at once: whether they all stand for themselves.
ghost use Rattle.std.specs.Prelude.{◌≡◌, ◌+◌, ◌<◌, ◌≤◌, false, length, slice_index, IsTrue};
ghost use Rattle.jl_text.specs.Escapes.{is_raw, AreRaw, RawUpTo};

use crate::escape::{Terminal, is_clean};
use std::simd::prelude::*;

/// The bytes that are tested at once of a long string.
pub(crate) const WIDE_LANES: usize = 64;

/// The bytes that are tested for a label that is shorter still.
pub(crate) const LANES: usize = 16;

const HALF_LANES: usize = 8;

/// The bytes that are read for a short text.
pub(crate) const SHORT: usize = 32;

#[inline(always)]
fn is_raw_wide_block(text: &[u8], at: usize) -> bool
    requires { at + WIDE_LANES ≤ length text.now }
    ensures { IsTrue result → AreRaw Terminal.StringLiteral text.now at (at + WIDE_LANES) }
{
    let v = u8x64::from_slice(&text[at..]);
    let is_control = v.simd_lt(u8x64::splat(b' ')) | v.simd_eq(u8x64::splat(0x7f));
    let is_echar = v.simd_eq(u8x64::splat(b'"')) | v.simd_eq(u8x64::splat(b'\\'));
    (is_control | is_echar).to_bitmask() == 0
}

#[inline(always)]
fn is_raw_block(text: &[u8], at: usize) -> bool
    requires { at + LANES ≤ length text.now }
    ensures { IsTrue result → AreRaw Terminal.StringLiteral text.now at (at + LANES) }
{
    let v = u8x16::from_slice(&text[at..]);
    let is_control = v.simd_lt(u8x16::splat(b' ')) | v.simd_eq(u8x16::splat(0x7f));
    let is_echar = v.simd_eq(u8x16::splat(b'"')) | v.simd_eq(u8x16::splat(b'\\'));
    (is_control | is_echar).to_bitmask() == 0
}

/// How many bytes of a block stand for themselves before the first that doesn't.
#[inline(always)]
pub(crate) fn raw_front(text: &[u8], at: usize) -> usize
    requires { at + LANES ≤ length text.now }
    ensures size { result ≤ LANES }
    ensures raw { AreRaw Terminal.StringLiteral text.now at (at + result) }
    ensures stops { result < LANES → is_raw Terminal.StringLiteral (slice_index text.now (at + result)) ≡ false }
{
    let v = u8x16::from_slice(&text[at..]);
    let is_control = v.simd_lt(u8x16::splat(b' ')) | v.simd_eq(u8x16::splat(0x7f));
    let is_quoted = v.simd_eq(u8x16::splat(b'\\')) | v.simd_eq(u8x16::splat(b'"'));
    let stops = (is_control | is_quoted).to_bitmask();
    let first = stops.trailing_zeros() as usize;
    if first > LANES {
        return LANES;
    }
    first
}

/// The same of a wide block.
#[inline(always)]
pub(crate) fn raw_wide_front(text: &[u8], at: usize) -> usize
    requires { at + WIDE_LANES ≤ length text.now }
    ensures size { result ≤ WIDE_LANES }
    ensures raw { AreRaw Terminal.StringLiteral text.now at (at + result) }
    ensures stops { result < WIDE_LANES → is_raw Terminal.StringLiteral (slice_index text.now (at + result)) ≡ false }
{
    let v = u8x64::from_slice(&text[at..]);
    let is_control = v.simd_lt(u8x64::splat(b' ')) | v.simd_eq(u8x64::splat(0x7f));
    let is_quoted = v.simd_eq(u8x64::splat(b'\\')) | v.simd_eq(u8x64::splat(b'"'));
    (is_control | is_quoted).to_bitmask().trailing_zeros() as usize
}

#[inline(always)]
fn is_raw_half_block(text: &[u8], at: usize) -> bool
    requires { at + HALF_LANES ≤ length text.now }
    ensures { IsTrue result → AreRaw Terminal.StringLiteral text.now at (at + HALF_LANES) }
{
    let v = u8x8::from_slice(&text[at..]);
    let is_control = v.simd_lt(u8x8::splat(b' ')) | v.simd_eq(u8x8::splat(0x7f));
    let is_echar = v.simd_eq(u8x8::splat(b'"')) | v.simd_eq(u8x8::splat(b'\\'));
    (is_control | is_echar).to_bitmask() == 0
}

/// Whether the first bytes of a block stand for themselves in a string.
#[inline(always)]
pub(crate) fn is_raw_string_front(text: &[u8], at: usize, len: usize) -> bool
    requires room { at + SHORT ≤ length text.now }
    requires within { len ≤ SHORT }
    ensures { IsTrue result → AreRaw Terminal.StringLiteral text.now at (at + len) }
{
    let v = u8x32::from_slice(&text[at..]);
    let is_control = v.simd_lt(u8x32::splat(b' ')) | v.simd_eq(u8x32::splat(0x7f));
    let is_echar = v.simd_eq(u8x32::splat(b'"')) | v.simd_eq(u8x32::splat(b'\\'));
    let stops = (is_control | is_echar).to_bitmask();
    stops.trailing_zeros() as usize >= len
}

/// Whether the first bytes of a block stand for themselves in a label.
#[inline(always)]
pub(crate) fn is_raw_label_front(text: &[u8], at: usize, len: usize) -> bool
    requires room { at + SHORT ≤ length text.now }
    requires within { len ≤ SHORT }
    ensures raw { IsTrue result → AreRaw Terminal.BlankNodeLabel text.now at (at + len) }
    ensures where_raw { AreRaw Terminal.BlankNodeLabel text.now at (at + len) → IsTrue result }
{
    let v = u8x32::from_slice(&text[at..]);
    let from_a = (v | u8x32::splat(0x20)) - u8x32::splat(b'a');
    let from_zero = v - u8x32::splat(b'0');
    let is_other = from_a.simd_ge(u8x32::splat(26)) & from_zero.simd_ge(u8x32::splat(10));
    let stops = (is_other | v.simd_eq(u8x32::splat(b'X'))).to_bitmask();
    stops.trailing_zeros() as usize >= len
}

/// The same of half a block, which most labels have room in.
#[inline(always)]
pub(crate) fn is_raw_short_label(text: &[u8], at: usize, len: usize) -> bool
    requires room { at + LANES ≤ length text.now }
    requires within { len ≤ LANES }
    ensures { IsTrue result → AreRaw Terminal.BlankNodeLabel text.now at (at + len) }
{
    let v = u8x16::from_slice(&text[at..]);
    let from_a = (v | u8x16::splat(0x20)) - u8x16::splat(b'a');
    let from_zero = v - u8x16::splat(b'0');
    let is_other = from_a.simd_ge(u8x16::splat(26)) & from_zero.simd_ge(u8x16::splat(10));
    let stops = (is_other | v.simd_eq(u8x16::splat(b'X'))).to_bitmask();
    stops.trailing_zeros() as usize >= len
}

// Passes over whole wide blocks of raw bytes.
fn past_wide_string_blocks(text: &[u8], at: usize) -> usize
    requires { at ≤ length text.now }
    ensures { RawUpTo Terminal.StringLiteral text.now at result }
{
    let mut end = at;
    'by_wide_block: while text.len() - end >= WIDE_LANES && is_raw_wide_block(text, end) {
        end += WIDE_LANES;
    }
    end
}

/// Passes over whole blocks of raw bytes.
pub(crate) fn past_string_blocks(text: &[u8], at: usize) -> usize
    requires { at ≤ length text.now }
    ensures { RawUpTo Terminal.StringLiteral text.now at result }
{
    let mut end = past_wide_string_blocks(text, at);
    'by_block: while text.len() - end >= LANES && is_raw_block(text, end) {
        end += LANES;
    }
    past_last_string_block(text, end)
}

// Passes over the rest, which is shorter than a block, where the text's last block is raw.
#[inline(always)]
fn past_string_end(text: &[u8], at: usize) -> usize
    requires within { at ≤ length text.now }
    requires short { length text.now < at + LANES }
    ensures { RawUpTo Terminal.StringLiteral text.now at result }
{
    let len = text.len();
    if len >= LANES && is_raw_block(text, len - LANES) {
        return len;
    }
    at
}

// Passes over the raw bytes at the front of the next block, or over a raw rest.
#[inline(always)]
fn past_last_string_block(text: &[u8], at: usize) -> usize
    requires { at ≤ length text.now }
    ensures { RawUpTo Terminal.StringLiteral text.now at result }
{
    if text.len() - at < LANES {
        return past_string_end(text, at);
    }
    at + raw_front(text, at)
}

/// Whether all bytes stand for themselves. The last block may overlap the one before.
#[inline]
pub(crate) fn is_clean_string(text: &[u8]) -> bool
    ensures { IsTrue result → AreRaw Terminal.StringLiteral text.now 0 (length text.now) }
{
    let len = text.len();
    if len < HALF_LANES {
        return is_clean(Terminal::StringLiteral, text);
    }
    if len < LANES {
        return is_raw_half_block(text, 0) && is_raw_half_block(text, len - HALF_LANES);
    }
    past_string_blocks(text, 0) + LANES >= len && is_raw_block(text, len - LANES)
}
