// The way over blocks.
ghost use Rattle.std.specs.Prelude.{◌≡◌, ◌+◌, ◌≤◌, ◌<◌, ◌^◌, All, IfOk, OnOk, MatchOption, Ok, Err};
ghost use Rattle.jl_cells.specs.Knowledge.{Keeps};
ghost use Rattle.jl_scan.specs.Blocks.{begin_of, end_of};
ghost use Rattle.jl_scan.specs.Costs.{cost, cost_of, through, weight};
ghost use Rattle.jl_scan.specs.Fields.{IsStateOf, after, frames_of, seen};
ghost use Rattle.jl_scan.specs.Files.{IsFile, field_of};
ghost use Rattle.jl_scan.specs.Reaching.{IsKnown, block_of, is_at_hand};
ghost use Rattle.jl_scan.specs.Walk.{walk};

use crate::block::{block, cell, give};
use crate::numbers::{At, block_at, edge_after};
use crate::{File, Published, Scan, Scanned};
use jl_apply::Halt;
use jl_base::Fault;
use jl_cells::Pass;
use jl_state::State;
use jl_sym::Steps;
use std::alloc::{AllocError, Global};
use std::sync::ledger::Ledger;

// Brings a state over a value's runs.
fn bring<F: Scanned>(
    alloc: Global,
    file: &File<'_>,
    value: &Published<F>,
    state: &mut State,
) -> Result<Option<Fault>, AllocError>
    requires file { IsFile file.now }
    requires field { F.field ≡ field_of file.now F.field.lo }
    requires state { IsStateOf F.field state.old }
    ensures { IfOk result (λ r. MatchOption r
        (IsStateOf F.field state.new × (after F.field value.now.0 value.now.1 (seen F.field state.old) ≡ Ok (seen F.field state.new)))
        (λ f. after F.field value.now.0 value.now.1 (seen F.field state.old) ≡ Err f)) }
{
    match value.apply_in(alloc, file, state) {
        Ok(()) => Ok(None),
        Err(Halt::Fault(fault)) => Ok(Some(fault)),
        Err(Halt::NoMemory) => Err(AllocError),
    }
}

// A block's cell is known afterwards: where it isn't, the block is found or built, and put where it wasn't there.
pub(crate) fn know_block<F: Scanned, L: Ledger>(
    alloc: Global,
    scan: &Scan<'_, F>,
    pass: &mut Pass<Published<F>>,
    steps: &mut Steps<L>,
    at: At,
) -> Result<(), AllocError>
    requires file { IsFile scan.now.file }
    requires cells { pass.old.cells ≡ scan.now.cells }
    requires level { at.level < 33 }
    requires within { end_of (block_of at) ≤ scan.now.runs }
    requires room { steps.old + weight (frames_of F.field) at.level at.k ≤ 2 ^ 63 }
    ensures known { OnOk result (IsKnown scan.now.runs pass.new.known (block_of at)) }
    ensures kept { Keeps pass.old pass.new }
    ensures cells { pass.new.cells ≡ pass.old.cells }
    ensures ticks { steps.new ≤ steps.old + cost (is_at_hand scan.now.runs pass.old.known) (frames_of F.field) at.level at.k }
{
    let i = cell(scan, at.level, at.k);
    if pass.knows(i) {
        return Ok(());
    }
    let found = block(alloc, scan, pass, steps, at.level, at.k)?;
    give(&scan.cells, pass, i, found);
    Ok(())
}

// Each block of a walk in turn.
pub(crate) fn know_walk<F: Scanned, L: Ledger>(
    alloc: Global,
    scan: &Scan<'_, F>,
    pass: &mut Pass<Published<F>>,
    steps: &mut Steps<L>,
    from: u64,
    to: u64,
) -> Result<(), AllocError>
    requires file { IsFile scan.now.file }
    requires cells { pass.old.cells ≡ scan.now.cells }
    requires order { from ≤ to }
    requires within { to ≤ scan.now.runs }
    requires room { steps.old + through (frames_of F.field) to ≤ 2 ^ 63 + through (frames_of F.field) from }
    ensures known { OnOk result (All (IsKnown scan.now.runs pass.new.known) (walk from to)) }
    ensures kept { Keeps pass.old pass.new }
    ensures cells { pass.new.cells ≡ pass.old.cells }
    ensures ticks { steps.new ≤ steps.old + cost_of (is_at_hand scan.now.runs pass.old.known) (frames_of F.field) (walk from to) }
    ensures within { steps.new + through (frames_of F.field) from ≤ steps.old + through (frames_of F.field) to }
{
    let mut a = from;
    'by_block: while a < to {
        let at = block_at(a, to);
        know_block(alloc, scan, pass, steps, at)?;
        a = edge_after(at);
    }
    Ok(())
}

// Over one block: it is found or built, applied, and put where it wasn't there.
pub(crate) fn over<F: Scanned, L: Ledger>(
    alloc: Global,
    scan: &Scan<'_, F>,
    pass: &mut Pass<Published<F>>,
    steps: &mut Steps<L>,
    state: &mut State,
    at: At,
) -> Result<Option<Fault>, AllocError>
    requires file { IsFile scan.now.file }
    requires cells { pass.old.cells ≡ scan.now.cells }
    requires level { at.level < 33 }
    requires within { end_of (block_of at) ≤ scan.now.runs }
    requires state { IsStateOf F.field state.old }
    requires room { steps.old + weight (frames_of F.field) at.level at.k ≤ 2 ^ 63 }
    ensures leads { IfOk result (λ r. MatchOption r
        (IsStateOf F.field state.new × (after F.field (begin_of (block_of at)) (end_of (block_of at)) (seen F.field state.old) ≡ Ok (seen F.field state.new)))
        (λ f. after F.field (begin_of (block_of at)) (end_of (block_of at)) (seen F.field state.old) ≡ Err f)) }
    ensures known { OnOk result (IsKnown scan.now.runs pass.new.known (block_of at)) }
    ensures kept { Keeps pass.old pass.new }
    ensures cells { pass.new.cells ≡ pass.old.cells }
    ensures ticks { steps.new ≤ steps.old + cost (is_at_hand scan.now.runs pass.old.known) (frames_of F.field) at.level at.k }
{
    let found = block(alloc, scan, pass, steps, at.level, at.k)?;
    let fault = bring(alloc, &scan.file, found.get(), state)?;
    give(&scan.cells, pass, cell(scan, at.level, at.k), found);
    Ok(fault)
}
