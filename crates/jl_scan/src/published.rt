//! What some runs do, as callers share it.
ghost use Rattle.std.specs.Prelude.{◌≡◌, ◌+◌, ◌<◌, ◌≤◌, ◌^◌, length, IfOk, OnOk};
ghost use Rattle.jl_apply.specs.Applying.{Applies};
ghost use Rattle.jl_scan.specs.Fields.{Field, HoldsRun, IsStateOf, after, frames_of, is_of, no_field, seen};
ghost use Rattle.jl_scan.specs.Files.{IsFile, field_of};

use crate::File;
use jl_apply::Halt;
use jl_base::Fault;
use jl_compose::Block;
use jl_state::State;
use jl_sym::Steps;
use jl_tape::Tape;
use std::alloc::{AllocError, Global};
use std::marker::{Brand, Model, PhantomData};
use std::sync::ledger::Ledger;

/// What a scan is of: some runs of one file, by its bytes, its first row's options, its frames and their runs. Published
/// values and cells have it in their type, so that none is ever read where another file's are looked for: no value's
/// bytes need be compared. Who makes cells is generic in it, and is called with `Brand`.
pub trait Scanned {
    ghost field: { Field };
}

impl Scanned for Brand {
    ghost field = { no_field };
}

/// What some runs, one after another, do to whatever state comes before them: it sums their rows, and its size has a
/// bound, however long they are. Contracts see it as the first run and the one after the last, counted from the field's
/// first run.
#[derive(Drop)]
pub struct Published<F: Scanned> {
    first: u64,
    end: u64,
    block: Block,
    of: PhantomData<F>,
}

impl<F: Scanned> Model for Published<F> {
    ghost use Rattle.std.specs.Prelude.{ℕ};
    ghost use Rattle.jl_scan.specs.Fields.{Sums};

    ghost Value = { ℕ × ℕ };

    ghost view = { λ p. (p.first, p.end) };

    ghost invariant = { λ p. Sums F.field p.first p.end p.block.leaves.items };
}

impl<F: Scanned> Published<F> {
    /// Of one run. A step is counted for each of its frames, also where memory isn't found.
    pub fn of<L: Ledger>(
        alloc: Global,
        file: &File<'_>,
        lo: u64,
        k: u64,
        steps: &mut Steps<L>,
    ) -> Result<Published<F>, AllocError>
        requires file { IsFile file.now }
        requires field { F.field ≡ field_of file.now lo }
        requires within { lo + k < length file.now.plan.now }
        requires steps { steps.old + frames_of F.field k ≤ 2 ^ 63 }
        ensures is { IfOk result (λ p. p ≡ (k, k + 1)) }
        ensures ticks { steps.new ≡ steps.old + frames_of F.field k }
    {
        let _runs = file.plan.runs();
        let block = crate::summing::of_run(alloc, file, lo, k, steps)?;
        Ok(Published {
            first: k,
            end: k + 1,
            block,
            of: PhantomData,
        })
    }

    /// Of one run whose rows a tape holds, up to the fault that ends them if there is one. No step is counted: whoever
    /// read the tape has seen the frames.
    pub fn of_tape(
        alloc: Global,
        file: &File<'_>,
        k: u64,
        tape: &Tape,
        fault: Option<Fault>,
    ) -> Result<Published<F>, AllocError>
        requires file { IsFile file.now }
        requires field { F.field ≡ field_of file.now F.field.lo }
        requires within { F.field.lo + k < length file.now.plan.now }
        requires tape { HoldsRun F.field k tape.now fault }
        ensures is { IfOk result (λ p. p ≡ (k, k + 1)) }
    {
        let _runs = file.plan.runs();
        let block = crate::summing::of_tape(alloc, file, tape, fault)?;
        Ok(Published {
            first: k,
            end: k + 1,
            block,
            of: PhantomData,
        })
    }

    /// Of two that come one after the other.
    pub fn both(
        alloc: Global,
        file: &File<'_>,
        a: &Published<F>,
        b: &Published<F>,
    ) -> Result<Published<F>, AllocError>
        requires file { IsFile file.now }
        requires field { F.field ≡ field_of file.now F.field.lo }
        requires after { a.now.1 ≡ b.now.0 }
        ensures is { IfOk result (λ p. p ≡ (a.now.0, b.now.1)) }
    {
        let block = crate::summing::of_both(
            alloc,
            file,
            (a.first, a.end, b.end),
            &a.block,
            &b.block,
        )?;
        Ok(Published {
            first: a.first,
            end: b.end,
            block,
            of: PhantomData,
        })
    }

    /// Whether it is of the runs from one to another.
    pub fn is_of(&self, first: u64, end: u64) -> bool
        ensures { result ≡ is_of first end self.now }
    {
        self.first == first && self.end == end
    }

    /// Brings a state over the runs, in place: what their rows do to it, or their first fault. Only a triple term that is
    /// left takes memory. What stops it leaves the state of no use.
    pub fn apply_in(&self, alloc: Global, file: &File<'_>, state: &mut State) -> Result<(), Halt>
        requires file { IsFile file.now }
        requires field { F.field ≡ field_of file.now F.field.lo }
        requires state { IsStateOf F.field state.old }
        ensures exact { Applies F.field.bytes (after F.field self.now.0 self.now.1 (seen F.field state.old)) state.new result }
        ensures state { OnOk result (IsStateOf F.field state.new) }
    {
        self.block.apply_in(alloc, file.space.bytes(), state)
    }
}
