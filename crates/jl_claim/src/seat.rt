use crate::view::View;
use std::marker::Model;

/// A worker's seat at a board. It has no bytes. Contracts see what it drew, lowered and saw.
#[derive(Drop)]
pub struct Seat {
    pub(crate) inner: atomic_table::Seat<u8, View>,
}

impl Model for Seat {
    ghost use Rattle.std.specs.Prelude.{◌≡◌, ◌≤◌, []};
    ghost use Rattle.jl_claim.specs.Standing.{Standing, standing, standing_coded};

    ghost Value = { Standing };

    ghost coded = { standing_coded };

    ghost view = { λ s. standing s.inner.table_id s.inner.me.0 };

    ghost invariant = { λ s. (s.inner.me.1 ≡ []) × (1 ≤ s.inner.me.0.seats) };
}
