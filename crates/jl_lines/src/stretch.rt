//! The decoding of a stretch of frames, whatever follows it: the seam between the decoding of rows, which knows neither
//! sinks nor where a file ends, and those who share out frames and give away what was written.
ghost use Rattle.std.specs.Prelude.{◌≡◌, ℕ, ◌+◌, ◌<◌, ◌≤◌, ◌^◌, IfOk, IfSome, OnOk, length};
ghost use Rattle.jl_base.specs.Limits.{most_bytes};
ghost use Rattle.jl_base.specs.Results.{Reading};
ghost use Rattle.jl_base.specs.declared.place.Fault as faults;
ghost use Rattle.jl_frames.specs.Index.{AreLaid};
ghost use Rattle.jl_rows.specs.Files.{Placed};
ghost use Rattle.jl_lines.specs.Kept.{Keeps};
ghost use Rattle.jl_lines.specs.Going.{Comes, counted, outcome};
ghost use Rattle.jl_lines.specs.Stretches.{IsStand, left_from, reach_of, reached_by, stand_at};

use crate::decoding::{Decoding, Refused};
use crate::frame::Frame;
use jl_frames::Frames;
use std::alloc::Global;

/// A place among the frames of an index: how many frames stand before, a place in the next one's body, and how many of its
/// rows stand before that.
#[derive(Clone, Copy, Debug)]
pub struct Stand {
    pub frame: u64,
    pub place: usize,
    pub before: u32,
}

impl Stand {
    /// The beginning of the frame that has so many before it.
    pub fn at(frame: u64) -> Stand
        ensures { result ≡ stand_at frame }
    {
        Stand {
            frame,
            place: 0,
            before: 0,
        }
    }
}

impl Decoding {
    /// The items from a stand on and up to the first `end` frames: None, or the stand where the page became long, from
    /// which to go on once its lines were given.
    pub(crate) fn stretch(
        &mut self,
        alloc: Global,
        bytes: &[u8],
        frames: &Frames,
        from: Stand,
        end: u64,
    ) -> Result<Option<Stand>, Refused>
        requires kept { Keeps bytes.now self.old }
        requires short { length bytes.now ≤ most_bytes }
        requires laid { (last : ℕ) × AreLaid frames.now.lo frames.now.bodies last × (last ≤ length bytes.now) }
        requires end { end ≤ length frames.now.bodies }
        requires stand { IsStand frames.now from end }
        requires few { counted self.old ≤ 2 ^ 62 }
        ensures comes { (B : Reading Placed faults.Fault) → Comes (outcome bytes.now self.old (left_from bytes.now frames.now from end B)) (λ stand. outcome bytes.now self.new (left_from bytes.now frames.now stand end B)) (outcome bytes.now self.new B) self.new result }
        ensures stand { IfOk result (λ found. IfSome found (λ stand. IsStand frames.now stand end × (reach_of frames.now from < reach_of frames.now stand))) }
        ensures few { IfOk result (λ found. counted self.new + reach_of frames.now from ≤ counted self.old + reached_by frames.now end found) }
        ensures kept { OnOk result (Keeps bytes.now self.new) }
        ensures options { self.new.state.options ≡ self.old.state.options }
        ensures writing { self.new.writing ≡ self.old.writing }
    {
        let mut stand = from;
        'by_frame: while stand.frame < end {
            let body = frames.frame(stand.frame);
            let start = body.at as usize;
            let frame = Frame {
                number: frames.first() + stand.frame,
                end: start + body.len as usize,
            };
            let at = start + stand.place;
            match self.rows(alloc, bytes, at, frame, stand.before)? {
                Some((next, before)) => {
                    return Ok(Some(Stand {
                        frame: stand.frame,
                        place: next - start,
                        before,
                    }));
                }
                None => stand = Stand::at(stand.frame + 1),
            }
        }
        Ok(None)
    }
}
