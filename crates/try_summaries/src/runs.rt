//! The runs of a file and their summaries.
ghost use Rattle.std.specs.Prelude.{◌≡◌, ◌<◌, ◌≤◌, ◌+◌, ◌-◌, ◌^◌, length, IfOk};
ghost use Rattle.jl_base.specs.Limits.{most_bytes};
ghost use Rattle.jl_frames.specs.Index.{IsIndex};
ghost use Rattle.jl_rows.specs.Heads.{ArePassed};
ghost use Rattle.jl_rows.specs.Seen.{options_seen};
ghost use Rattle.jl_sym.specs.Lawful.{IsLawful};
ghost use Rattle.jl_tape.specs.Tapes.{HasRows};
ghost use Rattle.try_summaries.specs.Given.{IsFile, IsRun};

use jl_base::{Fault, Run};
use jl_frames::Frames;
use jl_rows::Options;
use jl_sym::{Marks, Summary, summarise_tape};
use jl_tape::{Tape, read_run};
use std::alloc::{AllocError, Global};

/// A file by its bytes, its frames, the options of its first row, and how many frames a run has.
#[derive(Clone, Copy)]
pub struct Given<'a> {
    pub bytes: &'a [u8],
    pub frames: &'a Frames,
    pub options: &'a Options,
    pub per: u64,
}

/// What is used again from run to run.
#[derive(Debug, Drop)]
pub struct Room {
    pub tape: Tape,
    pub marks: Marks,
}

impl Room {
    pub fn new(alloc: Global) -> Room {
        Room {
            tape: Tape::new(alloc),
            marks: Marks::new(alloc),
        }
    }
}

/// The run of so many frames after so many others, or of as many as there are.
pub fn run_at(frames: &Frames, before: u64, per: u64) -> Run
    requires before { before < length frames.now.bodies }
    requires per { 0 < per }
    ensures run { IsRun frames.now result }
    ensures some { 0 < result.frames }
    ensures end { before + result.frames ≤ length frames.now.bodies }
{
    let count = frames.count();
    Run {
        lo: 0,
        hi: 0,
        first_frame: frames.first() + before,
        frames: per.min(count - before),
    }
}

/// The rows of a run onto the tape, and the fault that ends them.
pub fn read(given: &Given<'_>, tape: &mut Tape, run: Run) -> Result<Option<Fault>, AllocError>
    requires file { IsFile given.now }
    requires run { IsRun given.now.frames.now run }
    ensures has { HasRows given.now.bytes.now tape.new }
    ensures few { IfOk result (λ fault. length tape.new ≤ 2 ^ 30) }
{
    let fault = read_run(tape, given.bytes, given.frames, run)?;
    if tape.len() > 1 << 30 {
        return Err(AllocError);
    }
    Ok(fault)
}

/// The summary of a run.
pub fn summary(
    alloc: Global,
    given: &Given<'_>,
    room: &mut Room,
    run: Run,
) -> Result<Summary, AllocError>
    requires file { IsFile given.now }
    requires run { IsRun given.now.frames.now run }
    ensures lawful { IfOk result (IsLawful (options_seen given.now.bytes.now given.now.options.now) given.now.bytes.now) }
    ensures few { IfOk result (λ m. m.rows ≤ 2 ^ 30) }
{
    let fault = read(given, &mut room.tape, run)?;
    let (bytes, options) = (given.bytes, given.options);
    summarise_tape(alloc, bytes, options, &room.tape, fault, &mut room.marks)
}
