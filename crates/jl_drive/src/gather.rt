//! What all workers have done, together.
ghost use Rattle.std.specs.Prelude.{◌≡◌, ℕ, ◌+◌, ◌-◌, ◌<◌, ◌≤◌, All, IfOk, length, vec_len, slice_index_or};
ghost use Rattle.jl_drive.specs.Working.{AtEach, IsDone, IsGathered};

use crate::jobs::Done;
use crate::{Piece, Work};
use jl_claim::{Board, Seat};
use std::alloc::{AllocError, Global};

/// What some workers have done: their seats as one, and their own things in the order of their numbers.
#[derive(Drop)]
pub(crate) struct Gathered<O, T> {
    pub(crate) seat: Seat,
    pub(crate) owns: Vec<O>,
    pub(crate) pieces: Vec<Piece<T>>,
}

// All workers after the first, each joined to those before it.
fn gather<W: Work>(
    work: &W,
    board: &Board,
    workers: u64,
    mut all: Gathered<W::Own, W::Made>,
    mut rest: Vec<Result<Done<W::Own, W::Made>, AllocError>>,
) -> Result<Gathered<W::Own, W::Made>, AllocError>
    requires workers { vec_len rest + 1 ≡ workers }
    requires all { IsGathered (W.fits work.now) (W.knows work.now) (W.makes work.now) (W.fine work.now) (W.faulty work.now) (W.count work.now) workers board.now 1 all }
    requires each { All (λ r. IfOk r (λ d. IsDone (W.fits work.now) (W.knows work.now) (W.makes work.now) (W.fine work.now) (W.faulty work.now) (W.count work.now) workers board.now d)) rest.items }
    requires numbers { AtEach (λ i r. IfOk r (λ d. d.number + i + 1 ≡ workers)) rest.items }
    ensures { IfOk result (λ all. IsGathered (W.fits work.now) (W.knows work.now) (W.makes work.now) (W.fine work.now) (W.faulty work.now) (W.count work.now) workers board.now workers all) }
{
    while let Some(next) = rest.pop() {
        let Done {
            number: _,
            seat,
            own,
            mut pieces,
        } = next?;
        board.join(&mut all.seat, seat);
        all.owns.push(own)?;
        all.pieces.append(&mut pieces)?;
    }
    Ok(all)
}

// What the first worker has done.
fn start<W: Work>(
    alloc: Global,
    work: &W,
    board: &Board,
    workers: u64,
    done: Done<W::Own, W::Made>,
) -> Result<Gathered<W::Own, W::Made>, AllocError>
    requires done { IsDone (W.fits work.now) (W.knows work.now) (W.makes work.now) (W.fine work.now) (W.faulty work.now) (W.count work.now) workers board.now done }
    requires first { done.number ≡ 0 }
    ensures { IfOk result (λ all. IsGathered (W.fits work.now) (W.knows work.now) (W.makes work.now) (W.fine work.now) (W.faulty work.now) (W.count work.now) workers board.now 1 all) }
{
    let Done {
        number: _,
        seat,
        own,
        pieces,
    } = done;
    let mut owns = Vec::new(alloc);
    owns.push(own)?;
    Ok(Gathered { seat, owns, pieces })
}

/// What all workers have done. They stand in the list with number 0 last, so that popping meets them in order.
pub(crate) fn together<W: Work>(
    alloc: Global,
    work: &W,
    board: &Board,
    workers: u64,
    mut done: Vec<Result<Done<W::Own, W::Made>, AllocError>>,
) -> Result<Gathered<W::Own, W::Made>, AllocError>
    requires some { 0 < workers }
    requires count { vec_len done ≡ workers }
    requires each { All (λ r. IfOk r (λ d. IsDone (W.fits work.now) (W.knows work.now) (W.makes work.now) (W.fine work.now) (W.faulty work.now) (W.count work.now) workers board.now d)) done.items }
    requires numbers { AtEach (λ i r. IfOk r (λ d. d.number + i + 1 ≡ workers)) done.items }
    ensures { IfOk result (λ all. IsGathered (W.fits work.now) (W.knows work.now) (W.makes work.now) (W.fine work.now) (W.faulty work.now) (W.count work.now) workers board.now workers all) }
{
    let Some(first) = done.pop() else {
        unreachable!()
    };
    let all = start(alloc, work, board, workers, first?)?;
    gather(work, board, workers, all, done)
}
