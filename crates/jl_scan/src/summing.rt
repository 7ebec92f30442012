// Blocks of runs of a file.
ghost use Rattle.std.specs.Prelude.{◌≡◌, ℕ, ◌+◌, ◌<◌, ◌≤◌, ◌^◌, length, IfOk};
ghost use Rattle.jl_scan.specs.Fields.{HoldsRun, Sums, frames_of};
ghost use Rattle.jl_scan.specs.Files.{IsFile, field_of};

use crate::File;
use jl_base::Fault;
use jl_compose::{Block, laws};
use jl_sym::{Marks, Steps, summarise, summarise_tape};
use jl_tape::Tape;
use std::alloc::{AllocError, Global};
use std::sync::ledger::Ledger;

// What one run does.
pub(crate) fn of_run<L: Ledger>(
    alloc: Global,
    file: &File<'_>,
    lo: u64,
    k: u64,
    steps: &mut Steps<L>,
) -> Result<Block, AllocError>
    requires file { IsFile file.now }
    requires within { lo + k < length file.now.plan.now }
    requires steps { steps.old + frames_of (field_of file.now lo) k ≤ 2 ^ 63 }
    ensures sums { IfOk result (λ b. Sums (field_of file.now lo) k (k + 1) b.leaves.items) }
    ensures ticks { steps.new ≡ steps.old + frames_of (field_of file.now lo) k }
{
    jl_tape::laws::planned_runs();
    laws::sums_lead();
    let _runs = file.plan.runs();
    let run = file.plan.run(lo + k);
    let summary = summarise(alloc, file.space, file.frames, file.options, run, steps)?;
    let block = Block::of(alloc, file.space.bytes(), file.options, summary)?;
    Ok(block)
}

// What one run does, whose rows were read already.
pub(crate) fn of_tape(
    alloc: Global,
    file: &File<'_>,
    tape: &Tape,
    fault: Option<Fault>,
) -> Result<Block, AllocError>
    requires file { IsFile file.now }
    requires run { (lo : ℕ) × (k : ℕ) × HoldsRun (field_of file.now lo) k tape.now fault }
    ensures sums { (lo k : ℕ) → lo + k < length file.now.plan.now → HoldsRun (field_of file.now lo) k tape.now fault
        → IfOk result (λ b. Sums (field_of file.now lo) k (k + 1) b.leaves.items) }
{
    laws::sums_lead();
    let bytes = file.space.bytes();
    let mut marks = Marks::new(alloc);
    let summary = summarise_tape(alloc, bytes, file.options, tape, fault, &mut marks)?;
    let block = Block::of(alloc, bytes, file.options, summary)?;
    Ok(block)
}

// What two blocks do, of the runs from the first number to the second, and from there to the third.
pub(crate) fn of_both(
    alloc: Global,
    file: &File<'_>,
    _runs: (u64, u64, u64),
    a: &Block,
    b: &Block,
) -> Result<Block, AllocError>
    requires file { IsFile file.now }
    requires sums { (lo : ℕ) × Sums (field_of file.now lo) _runs.0 _runs.1 a.now.leaves.items × Sums (field_of file.now lo) _runs.1 _runs.2 b.now.leaves.items }
    ensures sums { (lo : ℕ) → Sums (field_of file.now lo) _runs.0 _runs.1 a.now.leaves.items → Sums (field_of file.now lo) _runs.1 _runs.2 b.now.leaves.items
        → IfOk result (λ c. Sums (field_of file.now lo) _runs.0 _runs.2 c.leaves.items) }
{
    laws::both_sum();
    laws::leaves();
    let block = Block::both(alloc, file.space.bytes(), file.options, a, b)?;
    Ok(block)
}
