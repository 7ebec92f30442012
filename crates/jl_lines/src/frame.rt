//! The decoding of a frame's rows.
ghost use Rattle.std.specs.Prelude.{◌≡◌, ◌+◌, ◌-◌, ◌<◌, ◌≤◌, ◌^◌, IfOk, IfSome, OnOk, length};
ghost use Rattle.jl_base.specs.Limits.{most_bytes};
ghost use Rattle.jl_base.specs.Results.{Reading};
ghost use Rattle.jl_base.specs.declared.place.Fault as faults;
ghost use Rattle.jl_rows.specs.Files as files;
ghost use Rattle.jl_rows.specs.Files.{Placed};
ghost use Rattle.jl_lines.specs.Kept.{Keeps};
ghost use Rattle.jl_lines.specs.Going.{Comes, counted, outcome};
ghost use Rattle.jl_lines.specs.Stretches.{rest_of};

use crate::decoding::{Decoding, Refused};
use jl_base::{Fault, Kind, Place};
use jl_rows::{Row, next_row_into};
use jl_state::Stop;
use std::alloc::Global;

/// A frame's number, counted from 1, and where its body ends among the bytes.
#[derive(Clone, Copy, Debug)]
pub struct Frame {
    pub number: u64,
    pub end: usize,
}

// A fault of a row of the frame, before which so many rows stood.
fn malformed(frame: Frame, before: u32, kind: Kind) -> Refused
    requires { before < 2 ^ 32 - 1 }
    ensures { result ≡ Refused.Malformed (files.fault_at frame.number (before + 1) kind) }
{
    Refused::Malformed(Fault {
        place: Place {
            frame: frame.number,
            row: before + 1,
        },
        kind,
    })
}

impl Decoding {
    // The next row of a frame from a place in it on, after so many rows: the place after the row, or None where the
    // frame has none.
    fn next(
        &mut self,
        alloc: Global,
        bytes: &[u8],
        at: usize,
        frame: Frame,
        before: u32,
        row: &mut Row,
    ) -> Result<Option<usize>, Refused>
        requires kept { Keeps bytes.now self.old }
        requires short { length bytes.now ≤ most_bytes }
        requires start { at ≤ frame.end }
        requires inside { frame.end ≤ length bytes.now }
        requires rows { before < 2 ^ 32 - 1 }
        requires few { counted self.old < 2 ^ 63 }
        ensures comes { (B : Reading Placed faults.Fault) → Comes (outcome bytes.now self.old (rest_of bytes.now frame before at B)) (λ next. outcome bytes.now self.new (rest_of bytes.now frame (before + 1) next B)) (outcome bytes.now self.new B) self.new result }
        ensures within { IfOk result (λ found. IfSome found (λ next. (at < next) × (next ≤ frame.end) × (counted self.new ≤ counted self.old + 1))) }
        ensures few { OnOk result (counted self.new + at ≤ counted self.old + frame.end) }
        ensures kept { OnOk result (Keeps bytes.now self.new) }
        ensures options { self.new.state.options ≡ self.old.state.options }
        ensures writing { self.new.writing ≡ self.old.writing }
    {
        let next = match next_row_into(bytes, at, frame.end, row) {
            Ok(Some(next)) => next,
            Ok(None) => return Ok(None),
            Err(kind) => return Err(malformed(frame, before, kind)),
        };
        match self.row(alloc, bytes, row) {
            Ok(()) => Ok(Some(next)),
            Err(Stop::Fault(kind)) => Err(malformed(frame, before, kind)),
            Err(Stop::NoMemory) => Err(Refused::NoMemory),
        }
    }

    // The rows of a frame from a place in it on, after so many rows: the place where the page became long and how many
    // rows stand before it, or None at the frame's end. It stands apart, so that the loop over rows has the registers to
    // itself whoever calls it.
    #[inline(never)]
    pub(crate) fn rows(
        &mut self,
        alloc: Global,
        bytes: &[u8],
        at: usize,
        frame: Frame,
        before: u32,
    ) -> Result<Option<(usize, u32)>, Refused>
        requires kept { Keeps bytes.now self.old }
        requires short { length bytes.now ≤ most_bytes }
        requires start { at ≤ frame.end }
        requires inside { frame.end ≤ length bytes.now }
        requires counted { before ≤ at }
        requires few { counted self.old + frame.end < 2 ^ 63 + at }
        ensures comes { (B : Reading Placed faults.Fault) → Comes (outcome bytes.now self.old (rest_of bytes.now frame before at B)) (λ r. outcome bytes.now self.new (rest_of bytes.now frame r.1 r.0 B)) (outcome bytes.now self.new B) self.new result }
        ensures within { IfOk result (λ found. IfSome found (λ r. (at < r.0) × (r.0 ≤ frame.end) × (r.1 + at ≤ before + r.0) × (counted self.new + at ≤ counted self.old + r.0))) }
        ensures few { OnOk result (counted self.new + at ≤ counted self.old + frame.end) }
        ensures kept { OnOk result (Keeps bytes.now self.new) }
        ensures options { self.new.state.options ≡ self.old.state.options }
        ensures writing { self.new.writing ≡ self.old.writing }
    {
        let mut place = at;
        let mut count = before;
        let mut row = Row::GraphEnd;
        'by_row: while let Some(next) = self.next(alloc, bytes, place, frame, count, &mut row)? {
            place = next;
            count += 1;
            if self.is_long() {
                return Ok(Some((place, count)));
            }
        }
        Ok(None)
    }
}
