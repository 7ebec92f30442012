// The words and views that stand for a board, and one atomic step for each of its calls.
ghost use Rattle.std.specs.Prelude.{◌≡◌, ℕ, ◌+◌, ◌^◌, ◌<◌, ◌≤◌, [], All, Contains};
ghost use Rattle.jl_claim.specs.Numbers.{times, once_below, least_of};
ghost use Rattle.jl_claim.specs.Rule.{Holds, Claims, Sees, Lowers, with_drawn, with_seen, with_lowered, new_view, left_of, both_of, spent};

use crate::view::View;
use atomic_table::{Join, Play, Seat, Shared, Split, Table, TableRule};
use std::alloc::Global;

/// The rule of a board, which its table keeps between any two steps. It has no slots, and its key is the bound.
pub(crate) struct Draws;

impl TableRule<u8, View, u64> for Draws {
    ghost holds = { λ bound s. Holds bound s };

    ghost first = { λ bound. new_view bound 63 };
}

pub(crate) struct Claim;

impl Play<u8, View> for Claim {
    ghost then = { Claims };
}

pub(crate) struct Least;

impl Play<u8, View> for Least {
    ghost then = { Sees };
}

pub(crate) struct Lower;

impl Play<u8, View> for Lower {
    ghost then = { Lowers };
}

pub(crate) struct Cut;

impl Split<View> for Cut {
    ghost left = { left_of };

    ghost right = { λ v. new_view v.bound 0 };
}

pub(crate) struct Together;

impl Join<View> for Together {
    ghost both = { both_of };

    ghost spent = { spent };
}

/// Adds one to the first word.
pub(crate) fn draw(shared: &Shared<u8, View, u64, Draws>, seat: &mut Seat<u8, View>) -> u64
    requires table { (seat.old.table_id ≡ shared.now.table_id) × (shared.now.table_id.words ≡ 2) }
    requires small { shared.now.key ≤ 2 ^ 40 }
    requires seated { 1 ≤ seat.old.me.0.seats }
    requires below { All (λ x. x < seat.old.me.0.bound) seat.old.me.0.drawn }
    ensures table { seat.new.table_id ≡ seat.old.table_id }
    ensures drawn { seat.new.me ≡ (with_drawn seat.old.me.0 result, seat.old.me.1) }
    ensures above { All (λ x. x < result) seat.old.me.0.drawn }
{
    shared.fetch_add::<Claim>(seat, 0, 1)
}

/// Reads the second word.
pub(crate) fn read_least(shared: &Shared<u8, View, u64, Draws>, seat: &mut Seat<u8, View>) -> u64
    requires table { (seat.old.table_id ≡ shared.now.table_id) × (shared.now.table_id.words ≡ 2) }
    requires seated { 1 ≤ seat.old.me.0.seats }
    ensures table { seat.new.table_id ≡ seat.old.table_id }
    ensures seen { seat.new.me ≡ (with_seen seat.old.me.0 result, seat.old.me.1) }
    ensures within { result ≤ seat.old.me.0.bound }
    ensures falling { result ≤ seat.old.me.0.seen }
    ensures below { All (λ x. result ≤ x) seat.old.me.0.lowered }
{
    shared.load::<Least>(seat, 1)
}

/// Lowers the second word to the number, unless it is as low already.
pub(crate) fn lower_to(shared: &Shared<u8, View, u64, Draws>, seat: &mut Seat<u8, View>, run: u64)
    requires table { (seat.old.table_id ≡ shared.now.table_id) × (shared.now.table_id.words ≡ 2) }
    requires seated { 1 ≤ seat.old.me.0.seats }
    requires within { run < seat.old.me.0.bound }
    requires drawn { Contains seat.old.me.0.drawn run }
    ensures table { seat.new.table_id ≡ seat.old.table_id }
    ensures lowered { seat.new.me ≡ (with_lowered seat.old.me.0 run, seat.old.me.1) }
{
    shared.fetch_min::<Lower>(seat, 1, run);
}

/// Reads the first word, and cuts a seat off.
pub(crate) fn split_off(
    shared: &Shared<u8, View, u64, Draws>,
    seat: &mut Seat<u8, View>,
) -> Seat<u8, View>
    requires table { (seat.old.table_id ≡ shared.now.table_id) × (shared.now.table_id.words ≡ 2) }
    requires seated { 1 ≤ seat.old.me.0.seats }
    requires room { 0 < seat.old.me.0.room }
    ensures table { (seat.new.table_id ≡ seat.old.table_id) × (result.table_id ≡ seat.old.table_id) }
    ensures old { seat.new.me ≡ (left_of seat.old.me.0, seat.old.me.1) }
    ensures new { result.me ≡ (new_view seat.old.me.0.bound 0, []) }
{
    shared.split_seat::<Cut>(seat)
}

/// Reads the first word, and takes in another seat.
pub(crate) fn take_in(
    shared: &Shared<u8, View, u64, Draws>,
    seat: &mut Seat<u8, View>,
    other: Seat<u8, View>,
)
    requires table { (seat.old.table_id ≡ shared.now.table_id)
        × (other.table_id ≡ shared.now.table_id)
        × (shared.now.table_id.words ≡ 2) }
    requires seated { (1 ≤ seat.old.me.0.seats) × (1 ≤ other.me.0.seats) × (other.me.1 ≡ []) }
    ensures table { seat.new.table_id ≡ seat.old.table_id }
    ensures both { seat.new.me ≡ (both_of seat.old.me.0 other.me.0, seat.old.me.1) }
{
    shared.join_seat::<Together>(seat, other);
}

/// Both words at the end, where no other seat is left.
pub(crate) fn end(table: Table<u8, View, u64, Draws, Global>, seat: Seat<u8, View>) -> (u64, u64)
    requires table { (seat.table_id ≡ table.shared.table_id)
        × (table.shared.table_id.words ≡ 2)
        × (table.shared.table_id.slots ≡ 0) }
    requires seated { 1 ≤ seat.me.0.seats }
    requires alone { seat.me.0.seats + seat.me.0.room ≡ 64 }
    ensures drawn { (x : ℕ) → times x seat.me.0.drawn ≡ once_below x result.0 }
    ensures least { result.1 ≡ least_of seat.me.0.bound seat.me.0.lowered }
    ensures seen { result.1 ≤ seat.me.0.seen }
{
    let closed = table.close_with(seat);
    let next = closed.word(0);
    let low = closed.word(1);
    closed.free();
    (next, low)
}
