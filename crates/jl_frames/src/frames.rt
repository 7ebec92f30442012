//! The index of a file's frames.
ghost use Rattle.std.specs.Prelude.{◌≡◌, ◌+◌, ◌<◌, ◌≤◌, ◌^◌, IfOk, length, slice_get};
ghost use Rattle.jl_rows.specs.Files.{ends_at};
ghost use Rattle.jl_frames.specs.Index.{IsIndex, AreFit, AreLaid, bytes_of, end_of};
ghost use Rattle.jl_frames.specs.Windows.{kept_if};

use crate::walk::Walked;
use jl_base::{Fault, Kind, Place, Space, Span};
use jl_rows::next_frame;
use std::alloc::{AllocError, Global};
use std::marker::Model;

/// Where the bodies of some frames lie, and the fault of what stands after them. It takes 16 bytes a frame.
#[derive(Debug, Drop)]
pub struct Frames {
    bodies: Vec<Span>,
    tail: Option<Fault>,
    lo: u64,
    first: u64,
    ghost numbered: { first ≤ 2 ^ 62 + 1 },
    ghost fit: { AreFit bodies.items },
}

impl Model for Frames {
    ghost use Rattle.jl_frames.specs.Index.{Index};

    ghost Value = { Index };

    ghost view = { λ f. record { bodies = f.bodies.items; tail = f.tail; lo = f.lo; first = f.first } };
}

impl Frames {
    /// How many frames there are.
    pub fn count(&self) -> u64
        ensures exact { result ≡ length self.now.bodies }
        ensures few { result < 2 ^ 63 }
    {
        self.bodies.len() as u64
    }

    /// The number of the first frame, counted from 1; where there is none, the one that it would have.
    pub fn first(&self) -> u64
        ensures exact { result ≡ self.now.first }
        ensures few { result ≤ 2 ^ 62 + 1 }
    {
        self.first
    }

    // The frames of a whole file.
    fn of_file(bodies: Vec<Span>, tail: Option<Fault>) -> Frames
        requires { AreFit bodies.items }
        ensures { result ≡ record { bodies = bodies.items; tail = tail; lo = 0; first = 1 } }
    {
        Frames {
            bodies,
            tail,
            lo: 0,
            first: 1,
        }
    }

    // The frames of a window, of which only the last has the fault of what stands after its frames.
    pub(crate) fn of_window(walked: Walked, lo: u64, first: u64, last: bool) -> Frames
        requires laid { AreLaid lo walked.bodies.items walked.end }
        requires few { first ≤ 2 ^ 62 + 1 }
        requires fits { walked.end < 2 ^ 64 }
        ensures bodies { result.bodies ≡ walked.bodies.items }
        ensures tail { result.tail ≡ ends_at (first + length walked.bodies.items) 0 (kept_if last walked.fault) }
        ensures lo { result.lo ≡ lo }
        ensures first { result.first ≡ first }
    {
        let frame = first + walked.bodies.len() as u64;
        let tail = tail_of(frame, walked.fault, last);
        Frames {
            bodies: walked.bodies,
            tail,
            lo,
            first,
        }
    }

    // The place of the first frame's length.
    pub(crate) fn lo(&self) -> u64
        ensures { result ≡ self.now.lo }
    {
        self.lo
    }

    /// The body of the frame that has `i` frames before it.
    pub fn frame(&self, i: u64) -> Span
        requires { i < length self.now.bodies }
        ensures { slice_get self.now.bodies i ≡ Some result }
    {
        self.bodies[i as usize]
    }

    // The place behind the body of the frame that has `i` frames before it.
    pub(crate) fn end(&self, i: u64) -> u64
        requires { i < length self.now.bodies }
        ensures { (body : Span) × (slice_get self.now.bodies i ≡ Some body) × (result ≡ end_of body) }
    {
        let body = self.bodies[i as usize];
        body.at + u64::from(body.len)
    }

    /// How many bytes the frames have, with their lengths.
    pub fn bytes(&self) -> u64
        ensures exact { result ≡ bytes_of self.now }
    {
        let count = self.count();
        if count == 0 {
            return 0;
        }
        self.end(count - 1).saturating_sub(self.lo)
    }

    /// The fault after the last frame, in place of a further one. Its row is 0.
    pub fn tail(&self) -> Option<Fault>
        ensures { result ≡ self.now.tail }
    {
        self.tail
    }
}

// The fault in place of the frame of a number, which only the last window has.
fn tail_of(frame: u64, fault: Option<Kind>, last: bool) -> Option<Fault>
    ensures { result ≡ ends_at frame 0 (kept_if last fault) }
{
    if !last {
        return None;
    }
    let kind = fault?;
    Some(Fault {
        place: Place { frame, row: 0 },
        kind,
    })
}

/// The index of a file. Takes memory for the frames' places.
pub fn index(alloc: Global, space: &Space) -> Result<Frames, AllocError>
    ensures { IfOk result (IsIndex space.now) }
{
    let bytes = space.bytes();
    let mut bodies: Vec<Span> = Vec::new(alloc);
    let mut at = 0;
    'by_frame: loop {
        match next_frame(bytes, at, bytes.len()) {
            Ok(Some((start, end))) => {
                bodies.push(Span {
                    at: start as u64,
                    len: (end - start) as u32,
                })?;
                at = end;
            }
            Ok(None) => return Ok(Frames::of_file(bodies, None)),
            Err(kind) => {
                let place = Place {
                    frame: bodies.len() as u64 + 1,
                    row: 0,
                };
                return Ok(Frames::of_file(bodies, Some(Fault { place, kind })));
            }
        }
    }
}
