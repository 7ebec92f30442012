//! The summary of a run by itself.
ghost use Rattle.std.specs.Prelude.{◌≡◌, ℕ, ◌+◌, ◌*◌, ◌≤◌, ◌^◌, IfOk, length};
ghost use Rattle.jl_base.specs.Limits.{most_bytes};
ghost use Rattle.jl_frames.specs.Index.{AreLaid, behind};
ghost use Rattle.jl_rows.specs.Heads.{ArePassed};
ghost use Rattle.jl_rows.specs.Seen.{options_seen};
ghost use Rattle.jl_sym_laws.specs.Runs.{Summarises};
ghost use Rattle.jl_tape.specs.Runs.{IsRunIn, run_begin, run_end, run_rows};
ghost use Rattle.jl_sym.specs.Lawful.{IsLawful};
ghost use Rattle.jl_sym.specs.Seen.{summary_seen};
ghost use Rattle.jl_sym.specs.Sums.{SumsOn};

use crate::marks::Marks;
use crate::steps::Steps;
use crate::summary::Summary;
use crate::summing::summarise_tape;
use jl_base::{Run, Space};
use jl_frames::Frames;
use jl_rows::Options;
use jl_tape::{Tape, read_run};
use std::alloc::{AllocError, Global};
use std::sync::ledger::Ledger;

// A step for each frame.
fn tick_all<L: Ledger>(steps: &mut Steps<L>, frames: u64)
    requires { steps.old + frames ≤ 2 ^ 63 }
    ensures { steps.new ≡ steps.old + frames }
{
    for _i in 0..frames {
        steps.tick();
    }
}

/// What a run's rows, and the fault that ends them, do to whatever state comes before them. The run's frames are read once,
/// onto a tape that is let go afterwards: 248 bytes a row. A step is counted for each frame, also where memory isn't found.
pub fn summarise<L: Ledger>(
    alloc: Global,
    space: &Space,
    frames: &Frames,
    options: &Options,
    run: Run,
    steps: &mut Steps<L>,
) -> Result<Summary, AllocError>
    requires options { ArePassed space.now options.now }
    requires short { length space.now ≤ most_bytes }
    requires laid { (last : ℕ) × AreLaid frames.now.lo frames.now.bodies last × (last ≤ length space.now) }
    requires run { IsRunIn frames.now run }
    requires steps { steps.old + run.frames ≤ 2 ^ 63 }
    ensures sums { IfOk result (λ m. Summarises (options_seen space.now options.now) (run_rows space.now frames.now run) (summary_seen space.now m)) }
    ensures acts { IfOk result (λ m. SumsOn (options_seen space.now options.now) (run_rows space.now frames.now run) (summary_seen space.now m)) }
    ensures lawful { IfOk result (IsLawful (options_seen space.now options.now) space.now) }
    ensures rows { IfOk result (λ m. behind frames.now (run_begin frames.now run) + 2 * m.rows ≤ behind frames.now (run_end frames.now run)) }
    ensures ticks { steps.new ≡ steps.old + run.frames }
{
    tick_all(steps, run.frames);
    let bytes = space.bytes();
    let mut tape = Tape::new(alloc);
    let fault = read_run(&mut tape, bytes, frames, run)?;
    let mut marks = Marks::new(alloc);
    summarise_tape(alloc, bytes, options, &tape, fault, &mut marks)
}
