//! The readers over the bytes of an input.
ghost use Rattle.std.specs.Prelude.{◌≡◌, ◌+◌, ◌≤◌, ◌^◌, None, false, length, slice_range, IfOk, IfSome};
ghost use Rattle.jl_base.specs.Results.{Reading};
ghost use Rattle.jl_base.specs.Spans.{IsInside, text_of};
ghost use Rattle.jl_base.specs.declared.place.Fault as faults;
ghost use Rattle.jl_rows.specs.Decoder as spec;
ghost use Rattle.jl_rows.specs.Files.{Placed, frames, row_end, rows_then};
ghost use Rattle.jl_rows.specs.Heads.{BeginsWith, HasHead, head_seen};
ghost use Rattle.jl_rows.specs.Seen.{HasTriple, IsNextRow, IsRowWithin, nested_at, nested_seen};

use crate::first_row::{Head, file_head, head_in};
use crate::frame_rows::next_row_at;
use crate::row::{RawTriple, Row};
use crate::triple_terms::triple_term_at;
use jl_base::{Kind, Space, Span};

/// The next row of a frame from a place in it on, and the place behind it; None where the rest of the frame has no row
/// and no fault. A refusal is the frame's fault that comes before any row there.
pub fn next_row(space: &Space, frame: Span, at: u64) -> Result<Option<(Row, u64)>, Kind>
    requires inside { IsInside space.now frame }
    requires start { frame.at ≤ at }
    requires end { at ≤ frame.at + frame.len }
    ensures exact { IsNextRow space.now at (frame.at + frame.len) result }
    ensures within { IfOk result (λ found. IfSome found (IsRowWithin space.now at (frame.at + frame.len))) }
    ensures wide { IfOk result (λ found. IfSome found (λ r. at + 2 ≤ r.1)) }
    ensures place { IfOk result (λ found. IfSome found (λ r. r.1 ≡ at + row_end (slice_range space.now at (frame.at + frame.len)))) }
{
    let bytes = space.bytes();
    let end = frame.at as usize + frame.len as usize;
    match next_row_at(bytes, at as usize, end)? {
        Some((row, next)) => Ok(Some((row, next as u64))),
        None => Ok(None),
    }
}

/// The terms of a triple term, by where its message lies, as `RawTerm::Triple` says.
pub fn triple_term(space: &Space, inner: Span) -> RawTriple
    requires { IsInside space.now inner }
    ensures exact { nested_seen space.now result ≡ nested_at (text_of space.now inner) }
    ensures inside { HasTriple space.now result }
{
    triple_term_at(space.bytes(), inner)
}

/// The head of a file with these bytes. It is found without reading further than the first row.
pub fn head(space: &Space) -> Head
    ensures exact { head_seen space.now result ≡ spec.head false space.now }
    ensures passed { HasHead space.now result }
{
    file_head(space.bytes())
}

/// What the whole frames from `at` to `end` begin with, the first of which has the number `first_frame`, whatever
/// follows them. Empty says that they have no rows. It is found without reading further than the first row, and takes
/// no memory.
pub fn head_at(space: &Space, at: u64, end: u64, first_frame: u64) -> Head
    requires start { at ≤ end }
    requires inside { end ≤ length space.now }
    requires whole { (frames (slice_range space.now at end)).fault ≡ None }
    requires numbers { first_frame ≤ 2 ^ 62 + 1 }
    ensures exact { (B : Reading Placed faults.Fault) → BeginsWith space.now (rows_then first_frame (frames (slice_range space.now at end)).items B) B result }
    ensures passed { HasHead space.now result }
{
    head_in(space.bytes(), at as usize, end as usize, first_frame)
}
