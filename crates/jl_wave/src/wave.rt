//! A wave's runs as work that can be shared out.
ghost use Rattle.std.specs.Prelude.{◌≡◌, ℕ, ◌+◌, ◌^◌, ◌<◌, IfOk, OnOk, MatchOption};
ghost use Rattle.jl_base.specs.declared.place.Fault.{Fault};
ghost use Rattle.jl_drive.specs.Pieces.{Skipped, EndsSo};
ghost use Rattle.jl_scan.specs.Fields.{IsStateOf, seen};
ghost use Rattle.jl_scan.specs.Files.{IsFile};
ghost use Rattle.jl_wave.specs.Benches.{IsBench, KnowsWay};
ghost use Rattle.jl_wave.specs.Waves.{IsFaulty, IsFine, IsMade};

use crate::Making;
use crate::bench::Bench;
use crate::going::{go_to, is_dead, make_at, read_run};
use jl_base::Fault;
use jl_drive::Work;
use jl_scan::{Scan, Scanned};
use jl_state::State;
use std::alloc::{AllocError, Global};
use std::marker::Brand;
use std::sync::ledger::Blank;

/// The runs of a scan, the state before them, and what is made of them.
#[derive(Drop)]
pub struct Wave<'s, 'a, F: Scanned, M: Making> {
    pub alloc: Global,
    pub scan: &'s Scan<'a, F>,
    pub from: &'s State,
    pub maker: &'s M,
}

impl<'s, 'a, F: Scanned + Send + Sync, M: Making + Sync> Work for Wave<'s, 'a, F, M>
where
    M::Tools: Send,
    M::Made: Send,
{
    type Own = Bench<F, M::Tools>;

    type Made = M::Made;

    ghost count = { λ w. w.scan.now.runs };

    ghost start = { λ w. w.scan.now.lo };

    ghost fits = { λ w b. IsFile w.scan.now.file × IsStateOf F.field w.from.now × IsBench F.field (seen F.field w.from.now) w.scan.now.runs w.scan.now.cells b };

    ghost knows = { λ w b k. KnowsWay w.scan.now.runs b k };

    ghost makes = { λ w k m. IsMade F.field (seen F.field w.from.now) (M.makes w.maker.now) k m };

    ghost fine = { λ w k. IsFine F.field (seen F.field w.from.now) k };

    ghost faulty = { λ w k f. IsFaulty F.field (seen F.field w.from.now) k f };

    fn runs(&self) -> u64 {
        self.scan.runs
    }

    fn first(&self) -> u64 {
        let scan = self.scan;
        let _runs = scan.file.plan.runs();
        scan.lo
    }

    fn work(
        &self,
        own: &mut Bench<F, M::Tools>,
        run: u64,
    ) -> Result<Option<(M::Made, Option<Fault>)>, AllocError> {
        if is_dead(own.dead, run) {
            return Ok(None);
        }
        let fault = read_run(self.alloc, self.scan, own, run)?;
        if !go_to::<F, M::Tools, Brand>(
            self.alloc,
            self.scan,
            self.from,
            own,
            run,
            Blank::new(1),
        )? {
            return Ok(None);
        }
        let (made, fault) = make_at(
            self.alloc, self.scan, self.from, self.maker, own, run, fault,
        )?;
        Ok(Some((made, fault)))
    }
}
