//! The rows of frames onto a tape.
ghost use Rattle.std.specs.Prelude.{◌≡◌, ℕ, ◌+◌, ◌*◌, ◌-◌, ◌<◌, ◌≤◌, ◌^◌, None, IfOk, length, slice_range, take};
ghost use Rattle.jl_base.specs.Results.{joined};
ghost use Rattle.jl_frames.specs.Index.{AreLaid, behind};
ghost use Rattle.jl_rows.specs.Files.{frame_rows};
ghost use Rattle.jl_tape.specs.Runs.{IsRunIn, run_begin, run_end, run_rows};
ghost use Rattle.jl_tape.specs.Tapes.{HasRows, reading_of};

use crate::tape::Tape;
use jl_base::{Fault, Place, Run};
use jl_frames::Frames;
use std::alloc::AllocError;

/// Reads the rows of a frame onto a tape, after those that it has, up to the frame's first fault, which it answers. Of
/// the frame's bytes each row takes two at least. Where memory isn't found, some of the rows stand on the tape.
pub fn read_frame(
    tape: &mut Tape,
    bytes: &[u8],
    number: u64,
    at: usize,
    end: usize,
) -> Result<Option<Fault>, AllocError>
    requires start { at ≤ end }
    requires inside { end ≤ length bytes.now }
    requires short { end - at < 2 ^ 32 }
    requires has { HasRows bytes.now tape.old }
    ensures read { IfOk result (λ fault. reading_of bytes.now tape.new fault ≡ joined (reading_of bytes.now tape.old None) (frame_rows number (slice_range bytes.now at end))) }
    ensures kept { take (length tape.old) tape.new ≡ tape.old }
    ensures few { at + 2 * length tape.new ≤ end + 2 * length tape.old }
    ensures has { HasRows bytes.now tape.new }
{
    let mut place = at;
    let mut count: u32 = 0;
    'by_row: loop {
        let found = Place {
            frame: number,
            row: count + 1,
        };
        match tape.read_next(bytes, place, end, found)? {
            Ok(Some(next)) => {
                place = next;
                count += 1;
            }
            Ok(None) => return Ok(None),
            Err(kind) => return Ok(Some(Fault { place: found, kind })),
        }
    }
}

/// Reads the rows of a run onto a tape, in place of those that it had, up to the run's first fault, which it answers. Of
/// the run's bytes each row takes two at least. Where memory isn't found, some of the rows stand on the tape.
pub fn read_run(
    tape: &mut Tape,
    bytes: &[u8],
    frames: &Frames,
    run: Run,
) -> Result<Option<Fault>, AllocError>
    requires laid { (last : ℕ) × AreLaid frames.now.lo frames.now.bodies last × (last ≤ length bytes.now) }
    requires run { IsRunIn frames.now run }
    ensures read { IfOk result (λ fault. reading_of bytes.now tape.new fault ≡ run_rows bytes.now frames.now run) }
    ensures few { behind frames.now (run_begin frames.now run) + 2 * length tape.new ≤ behind frames.now (run_end frames.now run) }
    ensures has { HasRows bytes.now tape.new }
{
    tape.clear();
    let first = frames.first();
    let begin = run.first_frame - first;
    for i in begin..begin + run.frames {
        let body = frames.frame(i);
        let at = body.at as usize;
        let end = at + body.len as usize;
        if let Some(fault) = read_frame(tape, bytes, first + i, at, end)? {
            return Ok(Some(fault));
        }
    }
    Ok(None)
}
