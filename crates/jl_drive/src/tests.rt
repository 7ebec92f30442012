// Work that makes of each run its number, shared out to many workers and to one.
ghost use Rattle.std.specs.Prelude.{◌≡◌, ℕ, ◌+◌, ◌^◌, IfOk, vec_len};

use crate::{Gate, Piece, Work, drive};
use jl_base::{Fault, Kind, Place};
use std::alloc::{AllocError, Global};
use std::sync::atomic::AtomicU64;
use std::sync::atomic::Ordering::SeqCst;
use std::test::Fail;

// So many runs, of which one has a fault, if there is such a run.
#[derive(Drop)]
struct Numbers {
    runs: u32,
    bad: u64,
}

impl Work for Numbers {
    type Own = u64;

    type Made = u64;

    ghost use Rattle.std.specs.Prelude.{◌≡◌, ℕ};

    ghost count = { λ w. w.runs };

    ghost start = { λ w. 100 };

    ghost fits = { λ w o. Unit {0} };

    ghost knows = { λ w o k. Unit {0} };

    ghost makes = { λ w k m. m ≡ k };

    ghost fine = { λ w k. k ≡ w.bad → ⊥ };

    ghost faulty = { λ w k f. k ≡ w.bad };

    fn runs(&self) -> u64 {
        self.runs as u64
    }

    fn first(&self) -> u64 {
        let _runs = self.runs;
        100
    }

    fn work(&self, own: &mut u64, run: u64) -> Result<Option<(u64, Option<Fault>)>, AllocError> {
        *own = run;
        let fault = if run == self.bad {
            Some(Fault {
                place: Place { frame: run, row: 0 },
                kind: Kind::Truncated,
            })
        } else {
            None
        };
        Ok(Some((run, fault)))
    }
}

// The highest run that was entered.
#[derive(Drop)]
struct Highest {
    run: AtomicU64,
}

impl Gate for Highest {
    fn enter(&self, _worker: u32, run: u64) {
        self.run.fetch_max(run, SeqCst);
    }
}

// The things of so many workers.
fn owns(alloc: Global, count: u64) -> Result<Vec<u64>, AllocError>
    ensures { IfOk result (λ owns. vec_len owns ≡ count) }
{
    let mut owns = Vec::new(alloc);
    for _ in 0..count {
        owns.push(0)?;
    }
    Ok(owns)
}

// Whether there is a piece of each run in order.
fn are_in_order(pieces: &Vec<Piece<u64>>) -> bool {
    for (i, piece) in pieces.iter().enumerate() {
        if piece.run != i as u64 || piece.made != i as u64 {
            return false;
        }
    }
    true
}

#[test]
fn pieces_up_to_the_fault(rt: HostRuntime) -> Result<(), Fail> {
    let numbers = Numbers { runs: 64, bad: 40 };
    let gate = Highest {
        run: AtomicU64::new(0),
    };
    let drove = drive(&rt, rt.alloc(), &numbers, owns(rt.alloc(), 64)?, &gate)?;
    assert_eq!(rt; drove.pieces.len(), 41);
    assert_eq!(rt; drove.owns.len(), 64);
    assert!(rt; drove.fault.is_some());
    assert!(rt; are_in_order(&drove.pieces));
    assert!(rt; gate.run.load(SeqCst) >= 140);
    Ok(())
}

#[test]
fn one_worker_draws_all_runs(rt: HostRuntime) -> Result<(), Fail> {
    let numbers = Numbers { runs: 5, bad: 5 };
    let gate = Highest {
        run: AtomicU64::new(0),
    };
    let drove = drive(&rt, rt.alloc(), &numbers, owns(rt.alloc(), 1)?, &gate)?;
    assert_eq!(rt; drove.pieces.len(), 5);
    assert_eq!(rt; drove.owns[0], 4);
    assert!(rt; drove.fault.is_none());
    assert!(rt; are_in_order(&drove.pieces));
    assert_eq!(rt; gate.run.load(SeqCst), 104);
    Ok(())
}
