ghost use Rattle.std.specs.Prelude.{ℕ, ◌≡◌, ◌+◌, ◌<◌, ◌≤◌, ◌↔◌, EachIndex, IfErr, IsTrue, length, nat_lt, slice_index, slice_range};
ghost use Rattle.std.specs.List.{position_or_len};
ghost use Rattle.std.specs.Result.{is_ok};
ghost use Rattle.std.specs.Str.{is_utf8};
ghost use Rattle.jl_base.specs.Spans.{IsInside, text_of};

use jl_base::{Kind, Span};
use std::simd::prelude::*;

/// Whether the bytes of a span are UTF-8: BadUtf8 where they aren't. A short text without a byte above 127 is found by
/// one look at sixteen bytes.
#[inline(always)]
pub fn utf8(bytes: &[u8], span: Span) -> Result<(), Kind>
    requires { IsInside bytes.now span }
    ensures exact { is_ok result ≡ is_utf8 (text_of bytes.now span) }
    ensures kind { IfErr result (λ k. k ≡ Kind.BadUtf8) }
{
    let at = span.at as usize;
    let len = span.len as usize;
    if len <= 16 && bytes.len() - at >= 16 && ascii_run(bytes, at) >= len {
        return Ok(());
    }
    long_utf8(&bytes[at..at + len])
}

// The same, for a text of any length and any bytes.
#[inline(never)]
fn long_utf8(text: &[u8]) -> Result<(), Kind>
    ensures exact { is_ok result ≡ is_utf8 text.now }
    ensures kind { IfErr result (λ k. k ≡ Kind.BadUtf8) }
{
    if is_ascii(text) {
        return Ok(());
    }
    if simdutf8::is_utf8(text) {
        Ok(())
    } else {
        Err(Kind::BadUtf8)
    }
}

// How many of the sixteen bytes at a place come before the first one above 127.
#[inline(always)]
fn ascii_run(bytes: &[u8], at: usize) -> usize
    requires { at + 16 ≤ length bytes.now }
    ensures { result ≡ position_or_len (λ b. nat_lt 127 b) (slice_range bytes.now at (at + 16)) }
{
    let high = u8x16::from_slice(&bytes[at..])
        .simd_ge(u8x16::splat(128))
        .to_bitmask();
    if high == 0 {
        return 16;
    }
    high.trailing_zeros() as usize
}

// Whether none of the 64 bytes at a place is above 127.
#[inline(always)]
fn is_ascii_block(text: &[u8], at: usize) -> bool
    requires { at + 64 ≤ length text.now }
    ensures { IsTrue result → 64 ≡ position_or_len (λ b. nat_lt 127 b) (slice_range text.now at (at + 64)) }
{
    u8x64::from_slice(&text[at..])
        .simd_ge(u8x64::splat(128))
        .to_bitmask()
        == 0
}

// The place behind blocks without a byte above 127.
fn past_ascii_blocks(text: &[u8]) -> usize
    ensures { (k : ℕ) → k < result → slice_index text.now k < 128 }
{
    let mut end = 0;
    'by_block: while text.len() - end >= 64 && is_ascii_block(text, end) {
        end += 64;
    }
    end
}

// Whether no byte is above 127: whole blocks, and then sixteen at a time.
fn is_ascii(text: &[u8]) -> bool
    ensures { IsTrue result ↔ EachIndex text.now (λ k. slice_index text.now k < 128) }
{
    if text.len() < 16 {
        return text.iter().all(|b| *b < 128);
    }
    let last = text.len() - 16;
    let mut at = past_ascii_blocks(text);
    while at < last {
        if ascii_run(text, at) < 16 {
            return false;
        }
        at += 16;
    }
    ascii_run(text, last) == 16
}
