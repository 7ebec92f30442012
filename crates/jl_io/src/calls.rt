ghost use Rattle.std.specs.Prelude.{◌≡◌, IfOk};
ghost use Rattle.jl_io.specs.Schedules.{is_to_fail, after_call};

use std::alloc::{AllocError, Global};
use std::marker::Model;

/// The calls of a device in memory, and which of them are to fail.
#[derive(Debug, Drop)]
pub struct Calls {
    fails: Vec<u64>,
    made: u64,
}

impl Model for Calls {
    ghost use Rattle.std.specs.Prelude.{ℕ, ◌<◌, ◌^◌, slice_index};
    ghost use Rattle.jl_io.specs.Schedules.{Schedule};

    ghost Value = { Schedule };

    ghost view = { λ c. record { fails = c.fails.items; made = c.made } };

    ghost invariant = { λ c. (i : ℕ) → slice_index c.fails.items i < 2 ^ 64 };
}

impl Calls {
    /// No call was made. Those with these numbers, counted from 1, are to fail.
    pub fn new(alloc: Global, fails: &[u64]) -> Result<Calls, AllocError>
        ensures { IfOk result (λ c. c ≡ record { fails = fails.now; made = 0 }) }
    {
        let fails = Vec::from_slice(alloc, fails)?;
        Ok(Calls { fails, made: 0 })
    }

    /// Counts one more call, and answers whether it is to fail. The count stands still at 2^64 - 1, and no call after
    /// that is to fail.
    pub fn is_next_to_fail(&mut self) -> bool
        ensures answer { result ≡ is_to_fail self.old }
        ensures counted { self.new ≡ after_call self.old }
    {
        let Some(number) = self.made.checked_add(1) else {
            return false;
        };
        self.made = number;
        self.fails.contains(&number)
    }
}
