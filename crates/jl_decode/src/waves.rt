//! The decoding of all frames by waves of runs: what is written of a wave is given to a sink before the next one begins.
ghost use Rattle.std.specs.Prelude.{◌≡◌, ℕ, [], ◌+◌, ◌-◌, ◌<◌, ◌≤◌, ◌^◌, IfOk, OnOk, length, vec_len};
ghost use Rattle.jl_base.specs.Limits.{most_bytes};
ghost use Rattle.jl_base.specs.Results.{Reading};
ghost use Rattle.jl_base.specs.declared.place.Fault as faults;
ghost use Rattle.jl_frames.specs.Index.{AreLaid, IsIndex, behind};
ghost use Rattle.jl_frames.specs.Runs.{Cover};
ghost use Rattle.jl_frames.specs.Stretches.{between};
ghost use Rattle.jl_rows.specs.Files.{Placed, all_rows};
ghost use Rattle.jl_scan.specs.Fields.{IsStateOf, before};
ghost use Rattle.jl_scan.specs.Files.{IsFile, field_of};
ghost use Rattle.jl_lines.specs.Kept.{Keeps};
ghost use Rattle.jl_lines.specs.Going.{at_end, counted, outcome};
ghost use Rattle.jl_lines.specs.Giving.{Delivers, outlet};

use crate::crew::crew;
use crate::driven::deliver_wave;
use crate::piece::LineTools;
use jl_base::Sink;
use jl_cells::Cells;
use jl_drive::Gate;
use jl_frames::{Frames, Plan};
use jl_lines::{Broken, Counts, Decoding};
use jl_scan::{File, Scan, Scanned, blocks};
use jl_wave::Kept;
use std::alloc::Global;
use std::marker::Brand;
use std::thread::Threads;

/// How many workers there may be.
const MOST_WORKERS: u32 = 64;

/// How many runs are shared out at once at most: what is kept of a run beside its text is then small against a wave.
const MOST_RUNS: u64 = 256;

/// How many runs are shared out at once for each worker at least, where so many are left.
const RUNS_EACH: u64 = 4;

/// How many bytes are shared out at once, where runs are small. What is kept of them until all are decoded is their text,
/// and what they do: fewer take less memory, and more make workers wait less for one another.
const WAVE_BYTES: u64 = 1 << 23;

// The items of all frames, wave by wave.
fn decode_waves<K: Sink>(
    decoding: &mut Decoding,
    alloc: Global,
    bytes: &[u8],
    frames: &Frames,
    plan: &Plan,
    out: &mut K,
) -> Result<(), Broken>
    requires kept { Keeps bytes.now decoding.old }
    requires short { length bytes.now ≤ most_bytes }
    requires laid { (last : ℕ) × AreLaid frames.now.lo frames.now.bodies last × (last ≤ length bytes.now) }
    requires cover { Cover frames.now 0 plan.now (length frames.now.bodies) }
    requires empty { decoding.old.page.lines ≡ [] }
    requires few { counted decoding.old ≤ 2 ^ 60 }
    ensures comes { (B : Reading Placed faults.Fault) → Delivers (outcome bytes.now decoding.old (between bytes.now frames.now 0 (length frames.now.bodies) B)) (outlet K.held K.faults out.old) (outlet K.held K.faults out.new) (λ _. outcome bytes.now decoding.new B) result }
    ensures empty { OnOk result (decoding.new.page.lines ≡ []) }
{
    let mut done = 0;
    for w in 0..plan.waves() {
        let (_, next) = plan.wave(w);
        let last = plan.run(next - 1);
        let end = last.first_frame - frames.first() + last.frames;
        decoding.deliver(alloc, bytes, frames, done, end, out)?;
        done = end;
    }
    Ok(())
}

// The items of a wave's runs by several workers. Whoever makes a scan is generic in what it is of.
fn share_wave<R: Threads + Sync, F: Scanned + Send + Sync, K: Sink, G: Gate>(
    rt: &R,
    alloc: Global,
    file: &File<'_>,
    lo: u64,
    runs: u64,
    decoding: &mut Decoding,
    kept: Vec<Kept<LineTools>>,
    gate: &G,
    out: &mut K,
) -> Result<Vec<Kept<LineTools>>, Broken>
    requires file { IsFile file.now }
    requires field { F.field ≡ field_of file.now lo }
    requires runs { runs ≤ 2 ^ 32 }
    requires within { lo + runs ≤ length file.now.plan.now }
    requires state { IsStateOf F.field decoding.old.state }
    requires workers { (0 < vec_len kept) × (vec_len kept ≤ 64) }
    requires empty { decoding.old.page.lines ≡ [] }
    requires few { counted decoding.old ≤ 2 ^ 61 }
    ensures comes { (B : Reading Placed faults.Fault) → Delivers (outcome F.field.bytes decoding.old (between F.field.bytes F.field.index (before F.field 0) (before F.field runs) B)) (outlet K.held K.faults out.old) (outlet K.held K.faults out.new) (λ _. outcome F.field.bytes decoding.new B) result }
    ensures empty { OnOk result (decoding.new.page.lines ≡ []) }
    ensures few { OnOk result (counted decoding.new + behind F.field.index (before F.field 0) ≤ counted decoding.old + behind F.field.index (before F.field runs)) }
    ensures kept { OnOk result (Keeps F.field.bytes decoding.new) }
    ensures state { OnOk result (IsStateOf F.field decoding.new.state) }
    ensures workers { IfOk result (λ k. vec_len k ≡ vec_len kept) }
{
    let Ok(cells) = Cells::new(alloc, blocks(runs)) else {
        return Err(Broken::NoMemory);
    };
    let scan: Scan<'_, F> = Scan::new(*file, lo, runs, cells);
    deliver_wave(rt, alloc, &scan, decoding, kept, gate, out)
}

// There are no more workers than runs.
fn keep_as_many(kept: &mut Vec<Kept<LineTools>>, runs: u64)
    requires workers { (0 < vec_len kept.old) × (vec_len kept.old ≤ 64) }
    requires some { 0 < runs }
    ensures { (0 < vec_len kept.new) × (vec_len kept.new ≤ 64) }
{
    if runs < kept.len() as u64 {
        kept.truncate(runs as usize);
    }
}

// How many runs are shared out at once, of those that are left, where a run has so many bytes.
fn portion(workers: u64, left: u64, run_bytes: u64) -> u64
    requires workers { workers ≤ 64 }
    ensures within { result ≤ left }
    ensures some { 0 < workers → 0 < left → 0 < result }
    ensures few { result ≤ 2 ^ 32 }
{
    let wanted = (WAVE_BYTES / run_bytes.max(1)).max(RUNS_EACH * workers);
    left.min(MOST_RUNS).min(wanted)
}

// The items of all frames, portion by portion, each by several workers.
fn share_waves<R: Threads + Sync, K: Sink, G: Gate>(
    rt: &R,
    alloc: Global,
    file: &File<'_>,
    decoding: &mut Decoding,
    kept: Vec<Kept<LineTools>>,
    gate: &G,
    out: &mut K,
) -> Result<(), Broken>
    requires file { IsFile file.now }
    requires state { IsStateOf (field_of file.now 0) decoding.old.state }
    requires workers { (0 < vec_len kept) × (vec_len kept ≤ 64) }
    requires empty { decoding.old.page.lines ≡ [] }
    requires few { counted decoding.old ≤ 2 ^ 60 }
    ensures comes { (B : Reading Placed faults.Fault) → Delivers (outcome file.now.space.now decoding.old (between file.now.space.now file.now.frames.now 0 (length file.now.frames.now.bodies) B)) (outlet K.held K.faults out.old) (outlet K.held K.faults out.new) (λ _. outcome file.now.space.now decoding.new B) result }
    ensures empty { OnOk result (decoding.new.page.lines ≡ []) }
{
    let mut kept = kept;
    let all = file.plan.runs();
    let run_bytes = file.space.bytes().len() as u64 / all.max(1);
    let mut done = 0;
    'by_portion: while done < all {
        let runs = portion(kept.len() as u64, all - done, run_bytes);
        // Only the last portion may have few runs.
        keep_as_many(&mut kept, runs);
        kept = share_wave::<R, Brand, K, G>(
            rt, alloc, file, done, runs, decoding, kept, gate, out,
        )?;
        done += runs;
    }
    Ok(())
}

// The items of all frames, by as many workers as are wanted, at most 64.
fn all_waves<R: Threads + Sync, K: Sink, G: Gate>(
    rt: &R,
    alloc: Global,
    file: &File<'_>,
    workers: u32,
    decoding: &mut Decoding,
    gate: &G,
    out: &mut K,
) -> Result<(), Broken>
    requires file { IsFile file.now }
    requires kept { Keeps file.now.space.now decoding.old }
    requires state { IsStateOf (field_of file.now 0) decoding.old.state }
    requires empty { decoding.old.page.lines ≡ [] }
    requires few { counted decoding.old ≤ 2 ^ 60 }
    ensures comes { (B : Reading Placed faults.Fault) → Delivers (outcome file.now.space.now decoding.old (between file.now.space.now file.now.frames.now 0 (length file.now.frames.now.bodies) B)) (outlet K.held K.faults out.old) (outlet K.held K.faults out.new) (λ _. outcome file.now.space.now decoding.new B) result }
    ensures empty { OnOk result (decoding.new.page.lines ≡ []) }
{
    let bytes = file.space.bytes();
    if workers < 2 || file.plan.runs() < 2 {
        return decode_waves(decoding, alloc, bytes, file.frames, file.plan, out);
    }
    let workers = workers.min(MOST_WORKERS);
    let Ok(kept) = crew(alloc, bytes, file.options, decoding.writing, workers) else {
        return Err(Broken::NoMemory);
    };
    share_waves(rt, alloc, file, decoding, kept, gate, out)
}

/// The items of a file, by as many workers as are wanted, at most 64: how many items there are, where no fault stands after
/// its last frame.
pub(crate) fn decode_frames<R: Threads + Sync, K: Sink, G: Gate>(
    rt: &R,
    alloc: Global,
    file: &File<'_>,
    workers: u32,
    decoding: &mut Decoding,
    gate: &G,
    out: &mut K,
) -> Result<Counts, Broken>
    requires file { IsFile file.now }
    requires indexed { IsIndex file.now.space.now file.now.frames.now }
    requires kept { Keeps file.now.space.now decoding.old }
    requires state { IsStateOf (field_of file.now 0) decoding.old.state }
    requires empty { decoding.old.page.lines ≡ [] }
    requires few { counted decoding.old ≤ 2 ^ 60 }
    ensures { Delivers (outcome file.now.space.now decoding.old (all_rows file.now.space.now)) (outlet K.held K.faults out.old) (outlet K.held K.faults out.new) (λ counts. at_end counts) result }
{
    all_waves(rt, alloc, file, workers, decoding, gate, out)?;
    match file.frames.tail() {
        Some(fault) => Err(Broken::Malformed(fault)),
        None => Ok(decoding.counts),
    }
}
