//! A wave from end to end.
ghost use Rattle.std.specs.Prelude.{◌≡◌, ℕ, ◌<◌, ◌≤◌, All, IfOk, OnOk, vec_len};
ghost use Rattle.jl_base.specs.declared.place.Fault.{Fault};
ghost use Rattle.jl_drive.specs.Pieces.{IsDriven};
ghost use Rattle.jl_scan.specs.Fields.{IsStateOf, seen};
ghost use Rattle.jl_scan.specs.Files.{IsFile};
ghost use Rattle.jl_wave.specs.Benches.{IsBench, KnowsWay, Ran};
ghost use Rattle.jl_wave.specs.Waves.{AreMade, IsFaulty, IsFine, IsMade, Leaves};

use crate::bench::Bench;
use crate::going::reach;
use crate::seating::{kept_of, seated};
use crate::wave::Wave;
use crate::{Kept, Making};
use jl_base::Fault;
use jl_drive::{Drove, Gate, Piece, drive};
use jl_scan::{Scan, Scanned};
use jl_state::State;
use jl_sym::Steps;
use std::alloc::{AllocError, Global};
use std::marker::Brand;
use std::mem;
use std::sync::ledger::{Blank, Ledger};
use std::thread::Threads;

/// What was made of a wave.
#[derive(Drop)]
pub struct Waved<T: Drop, O: Drop> {
    /// In the order of their runs, up to and with the first that has a fault.
    pub pieces: Vec<Piece<O>>,
    /// What the workers keep, in the order in which they had it.
    pub kept: Vec<Kept<T>>,
    pub fault: Option<Fault>,
}

// All workers at once.
fn share_out<'s, 'a, R: Threads + Sync, F: Scanned + Send + Sync, M: Making + Sync, G: Gate>(
    rt: &R,
    alloc: Global,
    scan: &'s Scan<'a, F>,
    from: &'s State,
    maker: &'s M,
    benches: Vec<Bench<F, M::Tools>>,
    gate: &G,
) -> Result<Drove<Bench<F, M::Tools>, M::Made>, AllocError>
where
    M::Tools: Send,
    M::Made: Send,
    requires file { IsFile scan.now.file }
    requires from { IsStateOf F.field from.now }
    requires workers { (0 < vec_len benches) × (vec_len benches ≤ 64) }
    requires benches { All (IsBench F.field (seen F.field from.now) scan.now.runs scan.now.cells) benches.items }
    ensures { IfOk result (λ d. IsDriven
        (λ b. IsFile scan.now.file × IsStateOf F.field from.now × IsBench F.field (seen F.field from.now) scan.now.runs scan.now.cells b)
        (λ b k. KnowsWay scan.now.runs b k)
        (λ k m. IsMade F.field (seen F.field from.now) (M.makes maker.now) k m)
        (λ k. IsFine F.field (seen F.field from.now) k)
        (λ k f. IsFaulty F.field (seen F.field from.now) k f)
        scan.now.runs (vec_len benches) d.owns.items d.pieces.items d.fault) }
{
    let wave = Wave {
        alloc,
        scan,
        from,
        maker,
    };
    drive(rt, alloc, &wave, benches, gate)
}

// The place of a bench that stands at the wave's end, or else the first one.
fn place_at<F: Scanned, T: Drop>(benches: &Vec<Bench<F, T>>, end: u64) -> usize
    requires { 0 < vec_len benches.now }
    ensures { result < vec_len benches.now }
{
    for (i, bench) in benches.iter().enumerate() {
        if bench.at == end && bench.dead.is_none() {
            return i;
        }
    }
    0
}

// Where the wave has no fault, the state becomes that after it. Most often a bench stands there already.
fn go_on<F: Scanned, T: Drop, L: Ledger>(
    alloc: Global,
    scan: &Scan<'_, F>,
    state: &mut State,
    benches: &mut Vec<Bench<F, T>>,
    fault: Option<Fault>,
    blank: Blank,
) -> Result<(), AllocError>
    requires name { blank.name ≡ L.name }
    requires parts { blank.parts ≡ L.parts }
    requires some { 0 < blank.parts }
    requires file { IsFile scan.now.file }
    requires state { IsStateOf F.field state.old }
    requires workers { 0 < vec_len benches.old }
    requires benches { All (IsBench F.field (seen F.field state.old) scan.now.runs scan.now.cells) benches.old.items }
    requires ran { Ran F.field (seen F.field state.old) scan.now.runs fault }
    ensures leaves { OnOk result (Leaves F.field scan.now.runs state.old state.new fault) }
    ensures len { vec_len benches.new ≡ vec_len benches.old }
{
    if fault.is_some() {
        return Ok(());
    }
    let mut steps = Steps::<L>::new(blank);
    let place = place_at(benches, scan.runs);
    let bench = &mut benches[place];
    if !reach(alloc, scan, state, bench, scan.runs, &mut steps)? {
        unreachable!()
    }
    mem::swap(state, &mut bench.state);
    Ok(())
}

/// Makes something of each of the scan's runs, with as many workers as there are of `kept`, from the state before them,
/// which becomes the state after them where no run has a fault. A worker's number is its place in `kept`, at the end as at
/// the start. No thread is made for a worker that is alone. After want of memory the state is of no use.
pub fn drive_wave<R: Threads + Sync, F: Scanned + Send + Sync, M: Making + Sync, G: Gate>(
    rt: &R,
    alloc: Global,
    scan: &Scan<'_, F>,
    state: &mut State,
    maker: &M,
    kept: Vec<Kept<M::Tools>>,
    gate: &G,
) -> Result<Waved<M::Tools, M::Made>, AllocError>
where
    M::Tools: Send,
    M::Made: Send,
    requires file { IsFile scan.now.file }
    requires state { IsStateOf F.field state.old }
    requires workers { (0 < vec_len kept) × (vec_len kept ≤ 64) }
    ensures made { IfOk result (λ d. AreMade F.field (seen F.field state.old) (M.makes maker.now) scan.now.runs (vec_len kept) d.pieces.items d.fault) }
    ensures leaves { IfOk result (λ d. Leaves F.field scan.now.runs state.old state.new d.fault) }
    ensures kept { IfOk result (λ d. vec_len d.kept ≡ vec_len kept) }
{
    let benches = seated(alloc, scan, state, kept)?;
    let Drove {
        pieces,
        mut owns,
        fault,
    } = share_out(rt, alloc, &*scan, &*state, &*maker, benches, gate)?;
    go_on::<F, M::Tools, Brand>(alloc, scan, state, &mut owns, fault, Blank::new(1))?;
    let kept = kept_of(alloc, owns)?;
    Ok(Waved {
        pieces,
        kept,
        fault,
    })
}
