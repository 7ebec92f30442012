//! How a worker goes on from run to run.
ghost use Rattle.std.specs.Prelude.{◌≡◌, ◌+◌, ◌<◌, ◌≤◌, ◌^◌, IfOk, OnOk, MatchBool, None};
ghost use Rattle.jl_base.specs.Limits.{most_bytes};
ghost use Rattle.jl_cells.specs.Knowledge.{Keeps};
ghost use Rattle.jl_drive.specs.Pieces.{EndsSo};
ghost use Rattle.jl_scan.specs.Fields.{HoldsRun, IsStateOf, seen};
ghost use Rattle.jl_scan.specs.Files.{IsFile};
ghost use Rattle.jl_wave.specs.Benches.{IsBench, KnowsWay, dead_after, is_dead};
ghost use Rattle.jl_wave.specs.Waves.{IsDead, IsFaulty, IsFine, IsMade};

use crate::Making;
use crate::bench::Bench;
use crate::refilling::refill;
use jl_base::Fault;
use jl_scan::{Scan, Scanned};
use jl_state::State;
use jl_sym::Steps;
use std::alloc::{AllocError, Global};
use std::sync::ledger::{Blank, Ledger};

/// Whether a fault is known to lie before the run.
pub(crate) fn is_dead(dead: Option<u64>, run: u64) -> bool
    ensures { result ≡ is_dead dead run }
{
    match dead {
        Some(d) => d <= run,
        None => false,
    }
}

fn dead_after(run: u64, fault: Option<Fault>) -> Option<u64>
    requires { run < 2 ^ 32 }
    ensures { result ≡ dead_after run fault }
{
    match fault {
        Some(_) => Some(run + 1),
        None => None,
    }
}

/// Reads a run's rows onto the bench's tape, and gives the others what they do. Nobody needs that of the wave's last run.
pub(crate) fn read_run<F: Scanned, T: Drop>(
    alloc: Global,
    scan: &Scan<'_, F>,
    bench: &mut Bench<F, T>,
    run: u64,
) -> Result<Option<Fault>, AllocError>
    requires file { IsFile scan.now.file }
    requires cells { bench.old.pass.cells ≡ scan.now.cells }
    requires within { run < scan.now.runs }
    ensures holds { IfOk result (HoldsRun F.field run bench.new.tape) }
    ensures kept { Keeps bench.old.pass bench.new.pass }
    ensures cells { bench.new.pass.cells ≡ bench.old.pass.cells }
    ensures at { bench.new.at ≡ bench.old.at }
    ensures state { bench.new.state ≡ bench.old.state }
    ensures dead { bench.new.dead ≡ bench.old.dead }
{
    let fault = scan.read(&mut bench.tape, run)?;
    if run + 1 < scan.runs {
        scan.publish(alloc, &mut bench.pass, run, &bench.tape, fault)?;
    }
    Ok(fault)
}

// The state before the wave again, where the bench's own stands after the run or is of no use.
fn go_back<F: Scanned, T: Drop>(
    alloc: Global,
    scan: &Scan<'_, F>,
    from: &State,
    bench: &mut Bench<F, T>,
    run: u64,
) -> Result<(), AllocError>
    requires from { IsStateOf F.field from.now }
    requires bench { IsBench F.field (seen F.field from.now) scan.now.runs scan.now.cells bench.old }
    ensures bench { OnOk result (IsBench F.field (seen F.field from.now) scan.now.runs scan.now.cells bench.new) }
    ensures here { OnOk result ((bench.new.at ≤ run) × (bench.new.dead ≡ None)) }
    ensures pass { bench.new.pass ≡ bench.old.pass }
    ensures tape { bench.new.tape ≡ bench.old.tape }
{
    if bench.at <= run && bench.dead.is_none() {
        return Ok(());
    }
    refill(alloc, &mut bench.state, from)?;
    bench.at = 0;
    bench.dead = None;
    Ok(())
}

/// Brings the bench's state to a run, by what the workers gave to each other; false where a fault lies before the run.
pub(crate) fn reach<F: Scanned, T: Drop, L: Ledger>(
    alloc: Global,
    scan: &Scan<'_, F>,
    from: &State,
    bench: &mut Bench<F, T>,
    run: u64,
    steps: &mut Steps<L>,
) -> Result<bool, AllocError>
    requires file { IsFile scan.now.file }
    requires from { IsStateOf F.field from.now }
    requires bench { IsBench F.field (seen F.field from.now) scan.now.runs scan.now.cells bench.old }
    requires within { run ≤ scan.now.runs }
    requires steps { steps.old ≡ 0 }
    ensures bench { OnOk result (IsBench F.field (seen F.field from.now) scan.now.runs scan.now.cells bench.new) }
    ensures there { IfOk result (λ b. MatchBool b ((bench.new.at ≡ run) × (bench.new.dead ≡ None)) (IsDead F.field (seen F.field from.now) run)) }
    ensures kept { Keeps bench.old.pass bench.new.pass }
    ensures tape { bench.new.tape ≡ bench.old.tape }
    ensures steps { steps.new ≤ most_bytes }
{
    if is_dead(bench.dead, run) {
        return Ok(false);
    }
    go_back(alloc, scan, from, bench, run)?;
    let fault = scan.reach(
        alloc,
        &mut bench.pass,
        steps,
        bench.at,
        run,
        &mut bench.state,
    )?;
    if fault.is_some() {
        bench.dead = Some(run);
        return Ok(false);
    }
    bench.at = run;
    Ok(true)
}

/// Brings the bench to a run, and makes the way there known to its pass; false where a fault lies before the run.
pub(crate) fn go_to<F: Scanned, T: Drop, L: Ledger>(
    alloc: Global,
    scan: &Scan<'_, F>,
    from: &State,
    bench: &mut Bench<F, T>,
    run: u64,
    blank: Blank,
) -> Result<bool, AllocError>
    requires name { blank.name ≡ L.name }
    requires parts { blank.parts ≡ L.parts }
    requires some { 0 < blank.parts }
    requires file { IsFile scan.now.file }
    requires from { IsStateOf F.field from.now }
    requires bench { IsBench F.field (seen F.field from.now) scan.now.runs scan.now.cells bench.old }
    requires within { run ≤ scan.now.runs }
    ensures bench { OnOk result (IsBench F.field (seen F.field from.now) scan.now.runs scan.now.cells bench.new) }
    ensures there { IfOk result (λ b. MatchBool b ((bench.new.at ≡ run) × (bench.new.dead ≡ None) × KnowsWay scan.now.runs bench.new run) (IsDead F.field (seen F.field from.now) run)) }
    ensures kept { Keeps bench.old.pass bench.new.pass }
    ensures tape { bench.new.tape ≡ bench.old.tape }
{
    let mut steps = Steps::<L>::new(blank);
    if !reach(alloc, scan, from, bench, run, &mut steps)? {
        return Ok(false);
    }
    scan.know(alloc, &mut bench.pass, &mut steps, run)?;
    Ok(true)
}

/// Makes something of the run at which the bench stands, whose rows its tape has.
pub(crate) fn make_at<F: Scanned, M: Making>(
    alloc: Global,
    scan: &Scan<'_, F>,
    _from: &State,
    maker: &M,
    bench: &mut Bench<F, M::Tools>,
    run: u64,
    fault: Option<Fault>,
) -> Result<(M::Made, Option<Fault>), AllocError>
    requires file { IsFile scan.now.file }
    requires bench { IsBench F.field (seen F.field _from.now) scan.now.runs scan.now.cells bench.old }
    requires there { (bench.old.at ≡ run) × (bench.old.dead ≡ None) }
    requires within { run < scan.now.runs }
    requires holds { HoldsRun F.field run bench.old.tape fault }
    ensures bench { OnOk result (IsBench F.field (seen F.field _from.now) scan.now.runs scan.now.cells bench.new) }
    ensures made { IfOk result (λ r. IsMade F.field (seen F.field _from.now) (M.makes maker.now) run r.0) }
    ensures ends { IfOk result (λ r. EndsSo (IsFine F.field (seen F.field _from.now)) (IsFaulty F.field (seen F.field _from.now)) run r.1) }
    ensures pass { bench.new.pass ≡ bench.old.pass }
{
    let bytes = scan.file.space.bytes();
    let (made, fault) = maker.make(
        alloc,
        bytes,
        &bench.tape,
        fault,
        &mut bench.tools,
        &mut bench.state,
    )?;
    bench.at = run + 1;
    bench.dead = dead_after(run, fault);
    Ok((made, fault))
}
