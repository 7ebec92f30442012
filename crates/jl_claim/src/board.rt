ghost use Rattle.std.specs.Prelude.{◌≡◌, ℕ, ◌+◌, ◌-◌, ◌^◌, ◌<◌, ◌≤◌, [], ◌∷◌, ◌++◌, All, Contains, IfOk};
ghost use Rattle.jl_claim.specs.Numbers.{times, once_below, least_of};
ghost use Rattle.jl_claim.specs.Standing.{joined, new_seat};

use crate::seat::Seat;
use crate::table::{Draws, draw, end, lower_to, read_least, split_off, take_in};
use crate::view::View;
use atomic_table::Table;
use std::alloc::{AllocError, Global};
use std::marker::Model;

/// The next number to be drawn, and the least number that was lowered. Contracts see which board it is.
#[derive(Drop)]
pub struct Board {
    table: Table<u8, View, u64, Draws, Global>,
}

impl Model for Board {
    ghost use Rattle.std.specs.Prelude.{◌≡◌, ◌^◌, ◌≤◌};
    ghost use Rattle.atomic_table.specs.Seated.{TableId, table_id_coded};

    ghost Value = { TableId };

    ghost coded = { table_id_coded };

    ghost view = { λ b. b.table.shared.table_id };

    ghost invariant = { λ b. (b.table.shared.table_id.words ≡ 2)
        × (b.table.shared.table_id.slots ≡ 0)
        × (b.table.shared.key ≤ 2 ^ 40) };
}

impl Board {
    /// A board from which nothing was drawn, and its first seat. It takes sixteen bytes.
    pub fn new(alloc: Global, bound: u64) -> Result<(Board, Seat), AllocError>
        requires { bound ≤ 2 ^ 40 }
        ensures { IfOk result (λ r. r.1 ≡ new_seat r.0 bound 63) }
    {
        let (table, inner) = Table::of_words(alloc, &[0, bound], &bound)?;
        Ok((Board { table }, Seat { inner }))
    }

    /// The next number, which is given to no other call. A seat may ask until it drew one that isn't below the bound.
    pub fn claim(&self, seat: &mut Seat) -> u64
        requires board { seat.old.board ≡ self.now }
        requires below { All (λ x. x < seat.old.bound) seat.old.drawn }
        ensures drawn { seat.new ≡ record seat.old { drawn = seat.old.drawn ++ result ∷ [] } }
        ensures above { All (λ x. x < result) seat.old.drawn }
    {
        draw(&self.table.shared, &mut seat.inner)
    }

    /// The least of the bound and of all numbers that were lowered so far, by any seat. It is kept as what the seat saw.
    pub fn least(&self, seat: &mut Seat) -> u64
        requires board { seat.old.board ≡ self.now }
        ensures seen { seat.new ≡ record seat.old { seen = result } }
        ensures within { result ≤ seat.old.bound }
        ensures falling { result ≤ seat.old.seen }
        ensures below { All (λ x. result ≤ x) seat.old.lowered }
    {
        read_least(&self.table.shared, &mut seat.inner)
    }

    /// Notes a number that the seat drew, such as that of a faulty run.
    pub fn lower(&self, seat: &mut Seat, run: u64)
        requires board { seat.old.board ≡ self.now }
        requires within { run < seat.old.bound }
        requires drawn { Contains seat.old.drawn run }
        ensures { seat.new ≡ record seat.old { lowered = seat.old.lowered ++ run ∷ [] } }
    {
        lower_to(&self.table.shared, &mut seat.inner, run);
    }

    /// A seat for another worker. The first seat has room for 63 of them.
    pub fn split(&self, seat: &mut Seat) -> Seat
        requires board { seat.old.board ≡ self.now }
        requires room { 0 < seat.old.room }
        ensures old { seat.new ≡ record seat.old { room = seat.old.room - 1 } }
        ensures new { result ≡ new_seat self.now seat.old.bound 0 }
    {
        let inner = split_off(&self.table.shared, &mut seat.inner);
        Seat { inner }
    }

    /// What the other seat drew and lowered is now the seat's.
    pub fn join(&self, seat: &mut Seat, other: Seat)
        requires board { seat.old.board ≡ self.now }
        requires other { other.board ≡ self.now }
        ensures { seat.new ≡ joined seat.old other }
    {
        take_in(&self.table.shared, &mut seat.inner, other.inner);
    }

    /// The number that would be drawn next, and the least of the bound and of all that was lowered. The seat is the only
    /// one left.
    pub fn close(self, seat: Seat) -> (u64, u64)
        requires board { seat.board ≡ self }
        requires alone { seat.seats + seat.room ≡ 64 }

        // The seat's draws, with those of all that it took in, are the numbers below the first word, each once.
        ensures drawn { (x : ℕ) → times x seat.drawn ≡ once_below x result.0 }
        ensures least { result.1 ≡ least_of seat.bound seat.lowered }
        ensures seen { result.1 ≤ seat.seen }
    {
        end(self.table, seat.inner)
    }
}
