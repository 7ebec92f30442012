//! The runs of a file's frames, and the waves of runs.
ghost use Rattle.std.specs.Prelude.{◌≡◌, ◌+◌, ◌<◌, IfOk, length, slice_get};
ghost use Rattle.jl_frames.specs.Runs.{run_of, groups_of, runs_per_wave, wave_of, IsCut, Cover};

use crate::Frames;
use jl_base::Run;
use std::alloc::{AllocError, Global};
use std::marker::Model;

/// How many runs are decoded before their output is written.
const RUNS_PER_WAVE: u64 = 64;

/// The frames of an index, cut into runs. It takes 32 bytes a run.
#[derive(Debug, Drop)]
pub struct Plan {
    runs: Vec<Run>,
}

impl Model for Plan {
    ghost use Rattle.std.specs.Prelude.{List};
    ghost use Rattle.jl_base.specs.declared.place.Run.{Run};

    ghost Value = { List Run };

    ghost view = { λ p. p.runs.items };
}

impl Plan {
    /// Runs of `per` frames each, the last one perhaps of fewer. Takes memory for the runs.
    pub fn cut(alloc: Global, frames: &Frames, per: u32) -> Result<Plan, AllocError>
        requires { 0 < per }
        ensures cut { IfOk result (IsCut frames.now per) }
        ensures cover { IfOk result (λ runs. Cover frames.now 0 runs (length frames.now.bodies)) }
    {
        let mut runs = Vec::new(alloc);
        let count = frames.count();
        let mut before = 0;
        let mut lo = frames.lo();
        'by_run: while before < count {
            let n = u64::from(per).min(count - before);
            let hi = frames.end(before + n - 1);
            runs.push(Run {
                lo,
                hi,
                first_frame: frames.first() + before,
                frames: n,
            })?;
            before += n;
            lo = hi;
        }
        Ok(Plan { runs })
    }

    /// How many runs there are.
    pub fn runs(&self) -> u64
        ensures { result ≡ length self.now }
    {
        self.runs.len() as u64
    }

    /// The run that has `i` runs before it.
    pub fn run(&self, i: u64) -> Run
        requires { i < length self.now }
        ensures { slice_get self.now i ≡ Some result }
    {
        self.runs[i as usize]
    }

    /// How many waves of 64 runs there are, the last one perhaps of fewer.
    pub fn waves(&self) -> u64
        ensures { result ≡ groups_of runs_per_wave (length self.now) }
    {
        self.runs().div_ceil(RUNS_PER_WAVE)
    }

    /// The first run of the wave that has `w` waves before it, and the run behind its last.
    pub fn wave(&self, w: u64) -> (u64, u64)
        requires { w < groups_of runs_per_wave (length self.now) }
        ensures { result ≡ wave_of self.now w }
    {
        let runs = self.runs();
        let first = w.saturating_mul(RUNS_PER_WAVE);
        let behind = (w + 1).saturating_mul(RUNS_PER_WAVE);
        (runs.min(first), runs.min(behind))
    }
}
