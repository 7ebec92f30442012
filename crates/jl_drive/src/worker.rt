//! A worker's turns.
ghost use Rattle.std.specs.Prelude.{◌≡◌, ℕ, ◌+◌, ◌^◌, ◌<◌, ◌≤◌, ◌++◌, ◌∷◌, [], All, Contains, IfOk, OnOk, Option, Some, None};
ghost use Rattle.jl_drive.specs.Pieces.{EndsSo};
ghost use Rattle.jl_drive.specs.Working.{IsDone, IsFaulty, IsJob, IsMine, IsWorked, lowered_by};

use crate::jobs::{Done, Job};
use crate::{Gate, Piece, Work};
use jl_base::Fault;
use jl_claim::{Board, Seat};
use std::alloc::{AllocError, Global};

// Lowers the run's number where the run has a fault.
fn note(board: &Board, seat: &mut Seat, run: u64, fault: Option<Fault>)
    requires board { seat.old.board ≡ board.now }
    requires within { run < seat.old.bound }
    requires drawn { Contains seat.old.drawn run }
    ensures { seat.new ≡ record seat.old { lowered = seat.old.lowered ++ lowered_by run fault } }
{
    if fault.is_some() {
        board.lower(seat, run);
    }
}

// Draws a run, and does what is to be done with it: nothing where there are no more runs, or where one before it is known
// to have a fault.
fn turn<W: Work, G: Gate>(
    work: &W,
    board: &Board,
    gate: &G,
    number: u32,
    seat: &mut Seat,
    own: &mut W::Own,
    pieces: &mut Vec<Piece<W::Made>>,
) -> Result<u64, AllocError>
    requires board { seat.old.board ≡ board.now }
    requires bound { seat.old.bound ≡ W.count work.now }
    requires below { All (λ x. x < seat.old.bound) seat.old.drawn }
    requires fits { W.fits work.now own.old }
    requires worked { IsWorked (W.makes work.now) (W.fine work.now) (W.faulty work.now) (W.count work.now) seat.old.drawn seat.old.lowered seat.old.seen pieces.old.items }
    requires mine { All (IsMine (W.knows work.now) number own.old) pieces.old.items }
    ensures drew { IfOk result (λ k. seat.new.drawn ≡ seat.old.drawn ++ k ∷ []) }
    ensures above { IfOk result (λ k. All (λ x. x < k) seat.old.drawn) }
    ensures board { seat.new.board ≡ seat.old.board }
    ensures bound { seat.new.bound ≡ seat.old.bound }
    ensures seats { seat.new.seats ≡ seat.old.seats }
    ensures room { seat.new.room ≡ seat.old.room }
    ensures fits { OnOk result (W.fits work.now own.new) }
    ensures worked { OnOk result (IsWorked (W.makes work.now) (W.fine work.now) (W.faulty work.now) (W.count work.now) seat.new.drawn seat.new.lowered seat.new.seen pieces.new.items) }
    ensures mine { OnOk result (All (IsMine (W.knows work.now) number own.new) pieces.new.items) }
{
    let run = board.claim(seat);
    if run >= work.runs() {
        return Ok(run);
    }
    gate.enter(number, work.first() + run);
    if board.least(seat) < run {
        return Ok(run);
    }
    let Some((made, fault)) = work.work(own, run)? else {
        return Ok(run);
    };
    note(board, seat, run, fault);
    pieces.push(Piece {
        run,
        worker: number,
        made,
        fault,
    })?;
    Ok(run)
}

/// All turns of a worker, up to the first number that is no run's.
pub(crate) fn run_worker<W: Work, G: Gate>(
    alloc: Global,
    work: &W,
    board: &Board,
    gate: &G,
    workers: u64,
    job: Job<W::Own>,
) -> Result<Done<W::Own, W::Made>, AllocError>
    requires { IsJob (W.fits work.now) (W.count work.now) workers board.now job }
    ensures done { IfOk result (λ d. IsDone (W.fits work.now) (W.knows work.now) (W.makes work.now) (W.fine work.now) (W.faulty work.now) (W.count work.now) workers board.now d) }
    ensures number { IfOk result (λ d. d.number ≡ job.number) }
{
    let Job {
        number,
        mut seat,
        mut own,
    } = job;
    let mut pieces = Vec::new(alloc);
    let runs = work.runs();
    let mut passed = 0;
    'draws: loop {
        let run = turn(work, board, gate, number, &mut seat, &mut own, &mut pieces)?;
        if run >= runs {
            return Ok(Done {
                number,
                seat,
                own,
                pieces,
            });
        }
        passed = run + 1;
    }
}
