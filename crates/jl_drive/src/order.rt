//! Pieces in the order of their runs. No order of draws is needed for it: each piece goes to the place of its run, and
//! the places are gone through up to the first fault.
ghost use Rattle.std.specs.Prelude.{◌≡◌, ℕ, ◌+◌, ◌-◌, ◌<◌, ◌≤◌, ◌⊎◌, All, IfOk, IfSome, OnOk, IsTrue, Contains, length, vec_len, slice_index_or, is_some};
ghost use Rattle.jl_drive.specs.Pieces.{AreInOrder, IsOf, IsPiece, Skipped, runs_of};
ghost use Rattle.jl_drive.specs.Placing.{IsPlaced, IsRight, IsCovered};

use crate::{Piece, Work};
use jl_base::Fault;
use std::alloc::{AllocError, Global};

/// Pieces up to the first fault, with that fault.
#[derive(Drop)]
pub(crate) struct Ordered<T> {
    pub(crate) pieces: Vec<Piece<T>>,
    pub(crate) fault: Option<Fault>,
}

// Each piece in the place of its run.
fn placed<W: Work>(
    alloc: Global,
    work: &W,
    owns: &Vec<W::Own>,
    mut pieces: Vec<Piece<W::Made>>,
    runs: u64,
) -> Result<Vec<Option<Piece<W::Made>>>, AllocError>
    requires runs { runs ≡ W.count work.now }
    requires each { All (IsPiece (W.makes work.now) (W.fine work.now) (W.faulty work.now)) pieces.items }
    requires of { All (IsOf (W.knows work.now) owns.now.items) pieces.items }
    requires within { All (λ p. p.run < runs) pieces.items }
    requires covered { (k : ℕ) → k < runs → Contains (runs_of pieces.items) k ⊎ Skipped (W.fine work.now) k }
    ensures count { IfOk result (λ slots. vec_len slots ≡ runs) }
    ensures right { IfOk result (λ slots. IsRight (IsPlaced (W.knows work.now) (W.makes work.now) (W.fine work.now) (W.faulty work.now) owns.now.items) slots.items) }
    ensures covered { IfOk result (λ slots. IsCovered (W.fine work.now) runs slots.items) }
{
    let mut slots = Vec::new(alloc);
    for _ in 0..runs {
        slots.push(None)?;
    }
    while let Some(piece) = pieces.pop() {
        let at = piece.run as usize;
        slots[at] = Some(piece);
    }
    Ok(slots)
}

// The pieces up to and with the first that has a fault. There is no gap before it, since only runs after a fault are left
// out.
fn taken<W: Work>(
    alloc: Global,
    work: &W,
    owns: &Vec<W::Own>,
    mut slots: Vec<Option<Piece<W::Made>>>,
    runs: u64,
) -> Result<Ordered<W::Made>, AllocError>
    requires count { vec_len slots ≡ runs }
    requires right { IsRight (IsPlaced (W.knows work.now) (W.makes work.now) (W.fine work.now) (W.faulty work.now) owns.now.items) slots.items }
    requires covered { IsCovered (W.fine work.now) runs slots.items }
    ensures order { IfOk result (λ r. AreInOrder runs r.pieces.items r.fault) }
    ensures each { IfOk result (λ r. All (IsPiece (W.makes work.now) (W.fine work.now) (W.faulty work.now)) r.pieces.items) }
    ensures of { IfOk result (λ r. All (IsOf (W.knows work.now) owns.now.items) r.pieces.items) }
{
    let mut pieces = Vec::new(alloc);
    for k in 0..runs {
        let Some(piece) = slots[k as usize].take() else {
            unreachable!()
        };
        let fault = piece.fault;
        pieces.push(piece)?;
        if fault.is_some() {
            return Ok(Ordered { pieces, fault });
        }
    }
    Ok(Ordered {
        pieces,
        fault: None,
    })
}

/// The pieces in order, without those after the first fault.
pub(crate) fn in_order<W: Work>(
    alloc: Global,
    work: &W,
    owns: &Vec<W::Own>,
    pieces: Vec<Piece<W::Made>>,
    runs: u64,
) -> Result<Ordered<W::Made>, AllocError>
    requires runs { runs ≡ W.count work.now }
    requires each { All (IsPiece (W.makes work.now) (W.fine work.now) (W.faulty work.now)) pieces.items }
    requires of { All (IsOf (W.knows work.now) owns.now.items) pieces.items }
    requires within { All (λ p. p.run < runs) pieces.items }
    requires covered { (k : ℕ) → k < runs → Contains (runs_of pieces.items) k ⊎ Skipped (W.fine work.now) k }
    ensures order { IfOk result (λ r. AreInOrder runs r.pieces.items r.fault) }
    ensures each { IfOk result (λ r. All (IsPiece (W.makes work.now) (W.fine work.now) (W.faulty work.now)) r.pieces.items) }
    ensures of { IfOk result (λ r. All (IsOf (W.knows work.now) owns.now.items) r.pieces.items) }
{
    let slots = placed(alloc, work, owns, pieces, runs)?;
    taken(alloc, work, owns, slots, runs)
}
