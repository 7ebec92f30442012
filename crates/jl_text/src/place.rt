//! Writing at a place of a page that has room. What stands on the page from the place on may change, and the place
//! behind what was written is answered.
ghost use Rattle.std.specs.Prelude.{◌≡◌, ◌+◌, ◌<◌, ◌≤◌, ◌++◌, [], ◌∷◌, length, slice_range, take};
ghost use Rattle.jl_text.specs.Places.{Placed};

use crate::lanes::SHORT;
use std::simd::Simd;

/// How long a text may be that is written again, in bytes.
pub const AGAIN: usize = 64;

/// Writes a byte.
#[inline(always)]
pub fn place_byte(page: &mut [u8], at: usize, byte: u8) -> usize
    requires { at < length page.old }
    ensures placed { Placed page.old page.new at (byte ∷ []) result }
    ensures end { result ≡ at + 1 }
{
    page[at] = byte;
    at + 1
}

/// Writes two bytes.
#[inline(always)]
pub fn place_pair(page: &mut [u8], at: usize, first: u8, second: u8) -> usize
    requires { at + 1 < length page.old }
    ensures placed { Placed page.old page.new at (first ∷ second ∷ []) result }
    ensures end { result ≡ at + 2 }
{
    page[at] = first;
    page[at + 1] = second;
    at + 2
}

/// Writes a part of some bytes, as one block of N bytes. A write of one size has no branch on the text's length.
#[inline(always)]
pub(crate) fn place_block<const N: usize>(
    page: &mut [u8],
    at: usize,
    bytes: &[u8],
    from: usize,
    len: usize,
) -> usize
    requires counted { len ≤ N }
    requires inside { from + N ≤ length bytes.now }
    requires room { at + N ≤ length page.old }
    ensures placed { Placed page.old page.new at (slice_range bytes.now from (from + len)) result }
    ensures end { result ≡ at + len }
{
    Simd::<u8, N>::from_slice(&bytes[from..]).copy_to_slice(&mut page[at..]);
    at + len
}

// Writes again what stands on the page, as one block of N bytes.
#[inline(always)]
fn place_block_again<const N: usize>(page: &mut [u8], at: usize, from: usize, len: usize) -> usize
    requires counted { len ≤ N }
    requires inside { from + N ≤ length page.old }
    requires room { at + N ≤ length page.old }
    ensures placed { Placed page.old page.new at (slice_range page.old from (from + len)) result }
    ensures end { result ≡ at + len }
{
    let block = Simd::<u8, N>::from_slice(&page[from..]);
    block.copy_to_slice(&mut page[at..]);
    at + len
}

/// Writes again what stands on the page.
#[inline(always)]
pub fn place_again(page: &mut [u8], at: usize, from: usize, len: usize) -> usize
    requires counted { len ≤ AGAIN }
    requires inside { from + AGAIN ≤ length page.old }
    requires room { at + AGAIN ≤ length page.old }
    ensures placed { Placed page.old page.new at (slice_range page.old from (from + len)) result }
    ensures end { result ≡ at + len }
{
    if len <= SHORT {
        return place_block_again::<SHORT>(page, at, from, len);
    }
    place_block_again::<AGAIN>(page, at, from, len)
}
