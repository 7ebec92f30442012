// One block: found in its cell, or built from its halves.
ghost use Rattle.std.specs.Prelude.{◌≡◌, ℕ, ◌+◌, ◌*◌, ◌-◌, ◌≤◌, ◌<◌, ◌^◌, true, false, length, IfOk, IsSome, MatchOption, ⊤};
ghost use Rattle.std.specs.FinMap.{get};
ghost use Rattle.jl_cells.specs.Knowledge.{Keeps};
ghost use Rattle.jl_scan.specs.Blocks.{cell_of, edge};
ghost use Rattle.jl_scan.specs.Costs.{cost, weight};
ghost use Rattle.jl_scan.specs.Fields.{frames_of};
ghost use Rattle.jl_scan.specs.Files.{IsFile};
ghost use Rattle.jl_scan.specs.Founds.{held, is_shared};
ghost use Rattle.jl_scan.specs.Reaching.{is_at_hand};

use crate::numbers::{bounds, cells_before, halves};
use crate::{Published, Scan, Scanned};
use jl_cells::{Cells, Pass};
use jl_sym::Steps;
use std::alloc::{AllocError, Global};
use std::hint::spin_loop;
use std::sync::ledger::Ledger;

/// How often a run's summary is looked for again before it is made.
const LOOKS: u32 = 1000;

/// What a block does: its cell's value, or the caller's own, which isn't put yet.
#[derive(Drop)]
pub(crate) enum Found<'s, T> {
    Shared(&'s T),
    Own(Box<T>),
}

impl<'s, T> Found<'s, T> {
    pub(crate) fn get(&self) -> &T
        ensures { result.now ≡ held self.now }
    {
        match self {
            Found::Shared(value) => value,
            Found::Own(value) => value,
        }
    }
}

// Puts what isn't put yet. It waits for its use: the cell may have another caller's value by then, and building anew
// would count steps again.
pub(crate) fn give<T: Drop>(cells: &Cells<T>, pass: &mut Pass<T>, i: u64, found: Found<'_, T>)
    requires cells { pass.old.cells ≡ cells.now }
    requires within { i < length cells.now }
    requires known { is_shared found ≡ true → IsSome (get pass.old.known i) }
    ensures known { IsSome (get pass.new.known i) }
    ensures kept { Keeps pass.old pass.new }
    ensures cells { pass.new.cells ≡ pass.old.cells }
{
    if let Found::Own(value) = found {
        cells.put(pass, i, value);
    }
}

// The number of a block's cell.
pub(crate) fn cell<F: Scanned>(scan: &Scan<'_, F>, level: u32, k: u64) -> u64
    requires level { level < 33 }
    requires within { edge level (k + 1) ≤ scan.now.runs }
    ensures is { result ≡ cell_of scan.now.runs level k }
    ensures within { result < length scan.now.cells }
{
    cells_before(level, scan.runs) + k
}

// What is in the block's cell, where it is of the block's runs.
pub(crate) fn look_at<'s, 'a, F: Scanned>(
    scan: &'s Scan<'a, F>,
    pass: &mut Pass<Published<F>>,
    level: u32,
    k: u64,
) -> Option<&'s Published<F>>
    requires cells { pass.old.cells ≡ scan.now.cells }
    requires level { level < 33 }
    requires within { edge level (k + 1) ≤ scan.now.runs }
    ensures found { MatchOption result
        (is_at_hand scan.now.runs pass.old.known level k ≡ false)
        (λ m. (m.now ≡ (edge level k, edge level (k + 1))) × IsSome (get pass.new.known (cell_of scan.now.runs level k))) }
    ensures kept { Keeps pass.old pass.new }
    ensures cells { pass.new.cells ≡ pass.old.cells }
{
    let found = scan.cells.look(pass, cell(scan, level, k))?;
    let (first, end) = bounds(level, k);
    if found.is_of(first, end) {
        Some(found)
    } else {
        None
    }
}

// A run's summary, by a few more looks. Another caller may be about to give it, and to make it takes longer than these.
fn look_again<'s, 'a, F: Scanned>(
    scan: &'s Scan<'a, F>,
    pass: &mut Pass<Published<F>>,
    k: u64,
) -> Option<&'s Published<F>>
    requires cells { pass.old.cells ≡ scan.now.cells }
    requires within { edge 0 (k + 1) ≤ scan.now.runs }
    ensures found { MatchOption result ⊤
        (λ m. (m.now ≡ (edge 0 k, edge 0 (k + 1))) × IsSome (get pass.new.known (cell_of scan.now.runs 0 k))) }
    ensures kept { Keeps pass.old pass.new }
    ensures cells { pass.new.cells ≡ pass.old.cells }
{
    for _i in 0..LOOKS {
        spin_loop();
        if let Some(found) = look_at(scan, pass, 0, k) {
            return Some(found);
        }
    }
    None
}

// What a block does, where it is there. A run's summary is looked for more than once.
pub(crate) fn at_hand<'s, 'a, F: Scanned>(
    scan: &'s Scan<'a, F>,
    pass: &mut Pass<Published<F>>,
    level: u32,
    k: u64,
) -> Option<&'s Published<F>>
    requires cells { pass.old.cells ≡ scan.now.cells }
    requires level { level < 33 }
    requires within { edge level (k + 1) ≤ scan.now.runs }
    ensures found { MatchOption result
        (is_at_hand scan.now.runs pass.old.known level k ≡ false)
        (λ m. (m.now ≡ (edge level k, edge level (k + 1))) × IsSome (get pass.new.known (cell_of scan.now.runs level k))) }
    ensures kept { Keeps pass.old pass.new }
    ensures cells { pass.new.cells ≡ pass.old.cells }
{
    if let Some(found) = look_at(scan, pass, level, k) {
        return Some(found);
    }
    if level > 0 {
        return None;
    }
    look_again(scan, pass, k)
}

pub(crate) fn block<'s, 'a, F: Scanned, L: Ledger>(
    alloc: Global,
    scan: &'s Scan<'a, F>,
    pass: &mut Pass<Published<F>>,
    steps: &mut Steps<L>,
    level: u32,
    k: u64,
) -> Result<Found<'s, Published<F>>, AllocError>
    requires file { IsFile scan.now.file }
    requires cells { pass.old.cells ≡ scan.now.cells }
    requires level { level < 33 }
    requires within { edge level (k + 1) ≤ scan.now.runs }
    requires room { steps.old + weight (frames_of F.field) level k ≤ 2 ^ 63 }
    ensures sums { IfOk result (λ found. held found ≡ (edge level k, edge level (k + 1))) }
    ensures known { IfOk result (λ found. is_shared found ≡ true → IsSome (get pass.new.known (cell_of scan.now.runs level k))) }
    ensures kept { Keeps pass.old pass.new }
    ensures cells { pass.new.cells ≡ pass.old.cells }
    ensures ticks { steps.new ≤ steps.old + cost (is_at_hand scan.now.runs pass.old.known) (frames_of F.field) level k }
{
    if let Some(found) = at_hand(scan, pass, level, k) {
        return Ok(Found::Shared(found));
    }
    if level == 0 {
        let sum = Published::of(alloc, &scan.file, scan.lo, k, steps)?;
        return Ok(Found::Own(Box::new(alloc, sum)?));
    }
    let (first, second) = halves(level, k, scan.runs);
    let left = block(alloc, scan, pass, steps, level - 1, first)?;
    let right = block(alloc, scan, pass, steps, level - 1, second)?;
    let both = Published::both(alloc, &scan.file, left.get(), right.get())?;
    give(&scan.cells, pass, cell(scan, level - 1, first), left);
    give(&scan.cells, pass, cell(scan, level - 1, second), right);
    Ok(Found::Own(Box::new(alloc, both)?))
}
