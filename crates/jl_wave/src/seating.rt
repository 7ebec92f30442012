//! What workers have at the start of a wave, and what they keep at its end.
ghost use Rattle.std.specs.Prelude.{◌≡◌, All, IfOk, vec_len};
ghost use Rattle.jl_scan.specs.Fields.{IsStateOf, seen};
ghost use Rattle.jl_wave.specs.Benches.{IsBench};

use crate::Kept;
use crate::bench::Bench;
use crate::refilling::refill;
use jl_scan::{Scan, Scanned};
use jl_state::State;
use std::alloc::{AllocError, Global};

// A worker's things at the start of a wave.
fn seat<F: Scanned, T: Drop>(
    alloc: Global,
    scan: &Scan<'_, F>,
    from: &State,
    kept: Kept<T>,
) -> Result<Bench<F, T>, AllocError>
    requires from { IsStateOf F.field from.now }
    ensures { IfOk result (IsBench F.field (seen F.field from.now) scan.now.runs scan.now.cells) }
{
    let Kept {
        mut state,
        tape,
        tools,
    } = kept;
    refill(alloc, &mut state, from)?;
    let pass = scan.pass(alloc)?;
    Ok(Bench {
        at: 0,
        state,
        dead: None,
        tape,
        tools,
        pass,
    })
}

/// All workers' things at the start of a wave, each in its place.
pub(crate) fn seated<F: Scanned, T: Drop>(
    alloc: Global,
    scan: &Scan<'_, F>,
    from: &State,
    mut kept: Vec<Kept<T>>,
) -> Result<Vec<Bench<F, T>>, AllocError>
    requires from { IsStateOf F.field from.now }
    ensures count { IfOk result (λ benches. vec_len benches ≡ vec_len kept) }
    ensures each { IfOk result (λ benches. All (IsBench F.field (seen F.field from.now) scan.now.runs scan.now.cells) benches.items) }
{
    let mut benches = Vec::new(alloc);
    kept.reverse();
    while let Some(next) = kept.pop() {
        benches.push(seat(alloc, scan, from, next)?)?;
    }
    Ok(benches)
}

/// What is kept of them, each in its place.
pub(crate) fn kept_of<F: Scanned, T: Drop>(
    alloc: Global,
    mut benches: Vec<Bench<F, T>>,
) -> Result<Vec<Kept<T>>, AllocError>
    ensures { IfOk result (λ kept. vec_len kept ≡ vec_len benches) }
{
    let mut kept = Vec::new(alloc);
    benches.reverse();
    while let Some(next) = benches.pop() {
        let Bench {
            at: _,
            state,
            dead: _,
            tape,
            tools,
            pass: _,
        } = next;
        kept.push(Kept { state, tape, tools })?;
    }
    Ok(kept)
}
