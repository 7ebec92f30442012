//! Some runs of a file, with a cell for each block of them.
ghost use Rattle.std.specs.Prelude.{◌≡◌, ◌+◌, ◌<◌, ◌≤◌, ◌^◌, length, All, IfOk, OnOk};
ghost use Rattle.std.specs.FinMap.{contains_key, empty};
ghost use Rattle.jl_cells.specs.Knowledge.{Keeps};
ghost use Rattle.jl_state.specs.States.{opening};
ghost use Rattle.jl_scan.specs.Blocks.{blocks, cell_of, edge};
ghost use Rattle.jl_scan.specs.Costs.{cost_of, through};
ghost use Rattle.jl_scan.specs.Fields.{HoldsRun, IsStateOf, frames_of, seen};
ghost use Rattle.jl_scan.specs.Files.{IsFile, field_of};
ghost use Rattle.jl_scan.specs.Reaching.{IsKnown, Reaches, is_at_hand};
ghost use Rattle.jl_scan.specs.Walk.{walk};

use crate::block::{cell, look_at};
use crate::numbers::{block_at, edge_after};
use crate::reaching::{know_walk, over};
use crate::{File, Published, Scanned};
use jl_base::Fault;
use jl_cells::{Cells, Pass};
use jl_state::State;
use jl_sym::Steps;
use jl_tape::{Tape, read_run};
use std::alloc::{AllocError, Global};
use std::sync::ledger::Ledger;

/// Some runs of a file, one after another, and a cell for each aligned block of them, in which callers share what the
/// block's runs do. Runs are counted from the scan's first one.
#[derive(Drop)]
pub struct Scan<'a, F: Scanned> {
    pub file: File<'a>,
    /// How many of the file's runs stand before the scan's first one.
    pub lo: u64,
    pub runs: u64,
    /// Those of one run first, then those of two, and so on, each kind in order.
    pub cells: Cells<Published<F>>,
    ghost field: { F.field ≡ field_of file lo },
    ghost few: { runs ≤ 2 ^ 32 },
    ghost within: { lo + runs ≤ length file.plan.now },
    ghost count: { length cells ≡ blocks runs },
}

impl<'a, F: Scanned> Scan<'a, F> {
    /// Takes no memory.
    pub fn new(file: File<'a>, lo: u64, runs: u64, cells: Cells<Published<F>>) -> Scan<'a, F>
        requires field { F.field ≡ field_of file lo }
        requires few { runs ≤ 2 ^ 32 }
        requires within { lo + runs ≤ length file.plan.now }
        requires count { length cells ≡ blocks runs }
        ensures file { result.file ≡ file.entry }
        ensures bounds { (result.lo ≡ lo) × (result.runs ≡ runs) }
        ensures cells { result.cells ≡ cells }
    {
        Scan {
            file,
            lo,
            runs,
            cells,
        }
    }

    /// A pass over the scan's cells that knows none of them. It takes a byte for each.
    pub fn pass(&self, alloc: Global) -> Result<Pass<Published<F>>, AllocError>
        ensures { IfOk result (λ pass. pass ≡ record { cells = self.now.cells; known = empty }) }
    {
        self.cells.pass(alloc)
    }

    /// Whether the pass knows a value of the cell of block k of a level.
    pub fn known(&self, pass: &Pass<Published<F>>, level: u32, k: u64) -> bool
        requires cells { pass.now.cells ≡ self.now.cells }
        requires level { level < 33 }
        requires within { edge level (k + 1) ≤ self.now.runs }
        ensures { result ≡ contains_key pass.now.known (cell_of self.now.runs level k) }
    {
        pass.knows(cell(self, level, k))
    }

    /// The state before the file's first row. It takes eight bytes for each slot that the options allow.
    pub fn opening(&self, alloc: Global) -> Result<State, AllocError>
        requires file { IsFile self.now.file }
        ensures state { IfOk result (IsStateOf F.field) }
        ensures exact { IfOk result (λ s. seen F.field s ≡ opening F.field.options) }
    {
        jl_sym_laws::laws::ids_settle();
        let state = State::opening(alloc, self.file.space.bytes(), self.file.options)?;
        Ok(state)
    }

    /// Brings a state from one run to another, in place, block by block of the walk between them: what the runs' rows do
    /// to it, or their first fault, whatever others put into the cells. A block that isn't found is built from its halves,
    /// down to single runs, each of which counts a step for each of its frames, and is given to the others. After a fault
    /// and after want of memory the state is of no use; the pass knows what it knew, and more.
    pub fn reach<L: Ledger>(
        &self,
        alloc: Global,
        pass: &mut Pass<Published<F>>,
        steps: &mut Steps<L>,
        from: u64,
        to: u64,
        state: &mut State,
    ) -> Result<Option<Fault>, AllocError>
        requires file { IsFile self.now.file }
        requires cells { pass.old.cells ≡ self.now.cells }
        requires order { from ≤ to }
        requires within { to ≤ self.now.runs }
        requires state { IsStateOf F.field state.old }
        requires room { steps.old + through (frames_of F.field) to ≤ 2 ^ 63 + through (frames_of F.field) from }
        ensures reaches { IfOk result (Reaches F.field self.now.runs pass.new.known from to state.old state.new) }
        ensures kept { Keeps pass.old pass.new }
        ensures cells { pass.new.cells ≡ pass.old.cells }
        ensures ticks { steps.new ≤ steps.old + cost_of (is_at_hand self.now.runs pass.old.known) (frames_of F.field) (walk from to) }
        ensures within { steps.new + through (frames_of F.field) from ≤ steps.old + through (frames_of F.field) to }
    {
        let mut a = from;
        'by_block: while a < to {
            let at = block_at(a, to);
            if let Some(fault) = over(alloc, self, pass, steps, state, at)? {
                return Ok(Some(fault));
            }
            a = edge_after(at);
        }
        Ok(None)
    }

    /// Reads the rows of a run onto a tape, in place of those that it had, up to the run's first fault, which it answers.
    /// No step is counted.
    pub fn read(&self, tape: &mut Tape, k: u64) -> Result<Option<Fault>, AllocError>
        requires file { IsFile self.now.file }
        requires within { k < self.now.runs }
        ensures holds { IfOk result (HoldsRun F.field k tape.new) }
    {
        jl_tape::laws::planned_runs();
        let file = &self.file;
        let _runs = file.plan.runs();
        let run = file.plan.run(self.lo + k);
        let fault = read_run(tape, file.space.bytes(), file.frames, run)?;
        Ok(fault)
    }

    /// Gives the others what a run does, by its rows, which the caller has read onto a tape: from then on the run is in
    /// its cell. Where the cell has it already, nothing is made. It counts no step, since the frames were read elsewhere.
    pub fn publish(
        &self,
        alloc: Global,
        pass: &mut Pass<Published<F>>,
        k: u64,
        tape: &Tape,
        fault: Option<Fault>,
    ) -> Result<(), AllocError>
        requires file { IsFile self.now.file }
        requires cells { pass.old.cells ≡ self.now.cells }
        requires within { k < self.now.runs }
        requires tape { HoldsRun F.field k tape.now fault }
        ensures known { OnOk result (IsKnown self.now.runs pass.new.known (record { level = 0; k = k })) }
        ensures kept { Keeps pass.old pass.new }
        ensures cells { pass.new.cells ≡ pass.old.cells }
    {
        if look_at(self, pass, 0, k).is_some() {
            return Ok(());
        }
        let value = Published::of_tape(alloc, &self.file, k, tape, fault)?;
        let value = Box::new(alloc, value)?;
        self.cells.put(pass, cell(self, 0, k), value);
        Ok(())
    }

    /// Makes the walk from the scan's first run to another one known to the pass: each of its blocks is looked up, or
    /// built as `reach` builds it and given to the others. Blocks whose cells the pass knows already take next to no time.
    pub fn know<L: Ledger>(
        &self,
        alloc: Global,
        pass: &mut Pass<Published<F>>,
        steps: &mut Steps<L>,
        to: u64,
    ) -> Result<(), AllocError>
        requires file { IsFile self.now.file }
        requires cells { pass.old.cells ≡ self.now.cells }
        requires within { to ≤ self.now.runs }
        requires room { steps.old + through (frames_of F.field) to ≤ 2 ^ 63 }
        ensures known { OnOk result (All (IsKnown self.now.runs pass.new.known) (walk 0 to)) }
        ensures kept { Keeps pass.old pass.new }
        ensures cells { pass.new.cells ≡ pass.old.cells }
        ensures ticks { steps.new ≤ steps.old + cost_of (is_at_hand self.now.runs pass.old.known) (frames_of F.field) (walk 0 to) }
        ensures within { steps.new ≤ steps.old + through (frames_of F.field) to }
    {
        know_walk(alloc, self, pass, steps, 0, to)
    }
}
