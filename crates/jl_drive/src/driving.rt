//! All workers at once, and what comes of it.
ghost use Rattle.std.specs.Prelude.{◌≡◌, ℕ, ◌+◌, ◌^◌, ◌<◌, ◌≤◌, All, IfOk, length, vec_len};
ghost use Rattle.jl_base.specs.declared.place.Fault.{Fault};
ghost use Rattle.jl_drive.specs.Pieces.{IsDriven};
ghost use Rattle.jl_drive.specs.Working.{AtEach, IsDone, IsGathered, IsJob};

use crate::gather::{Gathered, together};
use crate::jobs::{Done, Job, jobs};
use crate::order::{Ordered, in_order};
use crate::worker::run_worker;
use crate::{Gate, Piece, Work};
use jl_base::Fault;
use jl_claim::Board;
use std::alloc::{AllocError, Global};
use std::thread;
use std::thread::Threads;

/// What was made of some runs.
#[derive(Drop)]
pub struct Drove<O, T> {
    /// In the order of their runs, up to and with the first that has a fault.
    pub pieces: Vec<Piece<T>>,
    /// What the workers had to themselves, each in the place of its worker's number.
    pub owns: Vec<O>,
    pub fault: Option<Fault>,
}

/// Shares the runs out to workers, one for each of `owns`, whose places are the workers' numbers. No thread is made for a
/// worker that is alone. Want of memory, in any worker, ends it with all that was made.
pub fn drive<R: Threads + Sync, W: Work, G: Gate>(
    rt: &R,
    alloc: Global,
    work: &W,
    owns: Vec<W::Own>,
    gate: &G,
) -> Result<Drove<W::Own, W::Made>, AllocError>
    requires workers { (0 < vec_len owns) × (vec_len owns ≤ 64) }
    requires fits { All (W.fits work.now) owns.items }
    requires runs { W.count work.now ≤ 2 ^ 40 }
    requires apart { (k : ℕ) (f : Fault) → W.fine work.now k → W.faulty work.now k f → ⊥ }
    ensures { IfOk result (λ d. IsDriven (W.fits work.now) (W.knows work.now) (W.makes work.now) (W.fine work.now) (W.faulty work.now) (W.count work.now) (vec_len owns) d.owns.items d.pieces.items d.fault) }
{
    let workers = owns.len() as u64;
    let runs = work.runs();
    let (board, first) = Board::new(alloc, runs)?;
    let jobs = jobs(alloc, work, &board, first, owns)?;
    let done = all_done(rt, alloc, work, &board, gate, workers, jobs)?;
    let all = together(alloc, work, &board, workers, done)?;
    finish(alloc, work, board, workers, all)
}

// Each worker does its job, in a thread of its own. It stands by itself since `map_vec` alone in a function proves with no
// answer.
fn all_done<R: Threads + Sync, W: Work, G: Gate>(
    rt: &R,
    alloc: Global,
    work: &W,
    board: &Board,
    gate: &G,
    workers: u64,
    jobs: Vec<Job<W::Own>>,
) -> Result<Vec<Result<Done<W::Own, W::Made>, AllocError>>, AllocError>
    requires count { vec_len jobs ≡ workers }
    requires each { All (IsJob (W.fits work.now) (W.count work.now) workers board.now) jobs.items }
    requires numbers { AtEach (λ i job. job.number + i + 1 ≡ workers) jobs.items }
    ensures count { IfOk result (λ done. vec_len done ≡ workers) }
    ensures each { IfOk result (λ done. All (λ r. IfOk r (λ d. IsDone (W.fits work.now) (W.knows work.now) (W.makes work.now) (W.fine work.now) (W.faulty work.now) (W.count work.now) workers board.now d)) done.items) }
    ensures numbers { IfOk result (λ done. AtEach (λ i r. IfOk r (λ d. d.number + i + 1 ≡ workers)) done.items) }
{
    thread::map_vec(
        rt,
        jobs,
        &|job: Job<W::Own>| -> Result<Done<W::Own, W::Made>, AllocError>
            requires { IsJob (W.fits work.now) (W.count work.now) workers board.now job }
            ensures { IfOk result (λ d. IsDone (W.fits work.entry.now) (W.knows work.entry.now) (W.makes work.entry.now) (W.fine work.entry.now) (W.faulty work.entry.now) (W.count work.entry.now) workers board.entry.now d × (d.number ≡ job.number)) }
        { run_worker(alloc, work, board, gate, workers, job) },
    )
}

// The pieces of all workers in their order. What the closed board says goes into no value: it is what the proof needs.
fn finish<W: Work>(
    alloc: Global,
    work: &W,
    board: Board,
    workers: u64,
    all: Gathered<W::Own, W::Made>,
) -> Result<Drove<W::Own, W::Made>, AllocError>
    requires workers { workers ≤ 64 }
    requires all { IsGathered (W.fits work.now) (W.knows work.now) (W.makes work.now) (W.fine work.now) (W.faulty work.now) (W.count work.now) workers board workers all }
    requires apart { (k : ℕ) (f : Fault) → W.fine work.now k → W.faulty work.now k f → ⊥ }
    ensures { IfOk result (λ d. IsDriven (W.fits work.now) (W.knows work.now) (W.makes work.now) (W.fine work.now) (W.faulty work.now) (W.count work.now) workers d.owns.items d.pieces.items d.fault) }
{
    let Gathered { seat, owns, pieces } = all;
    board.close(seat);
    let Ordered { pieces, fault } = in_order(alloc, work, &owns, pieces, work.runs())?;
    Ok(Drove {
        pieces,
        owns,
        fault,
    })
}
