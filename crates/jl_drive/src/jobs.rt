//! What each worker is given, and what it gives back.
ghost use Rattle.std.specs.Prelude.{◌≡◌, ℕ, ◌+◌, ◌-◌, ◌^◌, ◌<◌, ◌≤◌, All, IfOk, length, vec_len, slice_index_or};
ghost use Rattle.jl_claim.specs.Standing.{new_seat};
ghost use Rattle.jl_drive.specs.Working.{AtEach, IsJob};

use crate::{Piece, Work};
use jl_claim::{Board, Seat};
use std::alloc::{AllocError, Global};

/// A worker's number, its seat at the board and its own things.
#[derive(Drop)]
pub(crate) struct Job<O> {
    pub(crate) number: u32,
    pub(crate) seat: Seat,
    pub(crate) own: O,
}

/// A worker's job when it is done, with the pieces that it made.
#[derive(Drop)]
pub(crate) struct Done<O, T> {
    pub(crate) number: u32,
    pub(crate) seat: Seat,
    pub(crate) own: O,
    pub(crate) pieces: Vec<Piece<T>>,
}

/// A job for each worker, whose number is the place of its own things. Number 0 stands last in the list: it keeps the
/// board's first seat, from which all others are split.
pub(crate) fn jobs<W: Work>(
    alloc: Global,
    work: &W,
    board: &Board,
    first: Seat,
    mut owns: Vec<W::Own>,
) -> Result<Vec<Job<W::Own>>, AllocError>
    requires workers { (0 < vec_len owns) × (vec_len owns ≤ 64) }
    requires first { first ≡ new_seat board.now (W.count work.now) 63 }
    requires owns { All (W.fits work.now) owns.items }
    ensures count { IfOk result (λ jobs. vec_len jobs ≡ vec_len owns) }
    ensures each { IfOk result (λ jobs. All (IsJob (W.fits work.now) (W.count work.now) (vec_len owns) board.now) jobs.items) }
    ensures numbers { IfOk result (λ jobs. AtEach (λ i job. job.number + i + 1 ≡ vec_len owns) jobs.items) }
{
    let mut seat = first;
    let mut jobs = Vec::new(alloc);
    'by_worker: while owns.len() > 1 {
        let Some(own) = owns.pop() else {
            unreachable!()
        };
        let number = owns.len() as u32;
        jobs.push(Job {
            number,
            seat: board.split(&mut seat),
            own,
        })?;
    }
    let Some(own) = owns.pop() else {
        unreachable!()
    };
    jobs.push(Job {
        number: 0,
        seat,
        own,
    })?;
    Ok(jobs)
}
