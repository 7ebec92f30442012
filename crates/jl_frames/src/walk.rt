//! The frames of some bytes, one after another.
ghost use Rattle.std.specs.Prelude.{◌≡◌, ◌≤◌, ◌||◌, IfOk, length};
ghost use Rattle.jl_frames.specs.Feeding.{IsWalk};
ghost use Rattle.jl_frames.specs.Windows.{is_lasting};

use jl_base::{Kind, Span};
use jl_rows::next_frame;
use std::alloc::{AllocError, Global};

/// Where the bodies of frames lie, the place after them, and the fault of what stands there.
#[derive(Debug, Drop)]
pub(crate) struct Walked {
    pub bodies: Vec<Span>,
    pub end: usize,
    pub fault: Option<Kind>,
}

impl Walked {
    // No further bytes make the fault good.
    fn is_lasting(&self) -> bool
        ensures { result ≡ is_lasting self.now.fault }
    {
        match self.fault {
            None => false,
            Some(kind) => lasts(kind),
        }
    }

    /// They are the last ones, where the source ended after them or no further bytes make the fault good.
    pub fn are_last(&self, at_end: bool) -> bool
        ensures { result ≡ (at_end || is_lasting self.now.fault) }
    {
        at_end || self.is_lasting()
    }
}

// No further bytes make this fault good.
fn lasts(kind: Kind) -> bool
    ensures { result ≡ Rattle.jl_frames.specs.Windows.lasts kind }
{
    match kind {
        Kind::Truncated => false,
        _ => true,
    }
}

/// All frames from a place on.
pub(crate) fn walk(alloc: Global, bytes: &[u8], start: usize) -> Result<Walked, AllocError>
    requires { start ≤ length bytes.now }
    ensures { IfOk result (λ w. IsWalk bytes.now start w.bodies.items w.end w.fault) }
{
    let mut bodies: Vec<Span> = Vec::new(alloc);
    let mut end = start;
    'by_frame: loop {
        match next_frame(bytes, end, bytes.len()) {
            Ok(Some((at, next))) => {
                bodies.push(Span {
                    at: at as u64,
                    len: (next - at) as u32,
                })?;
                end = next;
            }
            Ok(None) => {
                return Ok(Walked {
                    bodies,
                    end,
                    fault: None,
                });
            }
            Err(kind) => {
                return Ok(Walked {
                    bodies,
                    end,
                    fault: Some(kind),
                });
            }
        }
    }
}
