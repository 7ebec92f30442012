//! Ids and terms of a run that comes after another one.
ghost use Rattle.std.specs.Prelude.{◌≡◌, ◌+◌, ◌<◌, ◌^◌, ℕ, List};
ghost use Rattle.jl_sym_laws.specs.Composing.{IsLeftWithin};
ghost use Rattle.jl_sym_laws.specs.RelativeIds as ids;
ghost use Rattle.jl_sym_laws.specs.Summaries as sums;
ghost use Rattle.jl_sym.specs.Held.{HasLeft};
ghost use Rattle.jl_sym.specs.Seen.{id_seen, refs_seen, kept_seen, left_seen, summary_seen};
ghost use Rattle.jl_compose.specs.Appending.{left_later};
ghost use Rattle.jl_compose.specs.Narrowing.{narrow, narrow_refs};

use jl_rows::Table;
use jl_state::Position;
use jl_sym::{Kept, Left, Refs, RelativeId, Summary};

/// An id of the second run, as it counts on from the first one's. A sum that is too large for a number is the largest
/// one, of which no table has an entry either.
#[inline]
pub(crate) fn later_id(first: RelativeId, id: RelativeId) -> RelativeId
    ensures { id_seen result ≡ narrow (ids.following (id_seen first) (id_seen id)) }
{
    match id {
        RelativeId::Given(n) => RelativeId::Given(n),
        RelativeId::After(k) => match first {
            RelativeId::Given(n) => RelativeId::Given(n.saturating_add(k)),
            RelativeId::After(j) => RelativeId::After(j.saturating_add(k)),
        },
    }
}

#[inline]
pub(crate) fn later_refs(first: Refs, refs: Refs) -> Refs
    ensures { refs_seen result ≡ narrow_refs (ids.refs_following (refs_seen first) (refs_seen refs)) }
{
    Refs {
        prefix: later_id(first.prefix, refs.prefix),
        name: later_id(first.name, refs.name),
    }
}

/// The last entry of a table.
#[inline]
pub(crate) fn entry_of(first: &Summary, table: Table) -> RelativeId
    ensures { (bytes : List ℕ) → id_seen result ≡ sums.entry_in (summary_seen bytes first.now) table }
{
    match table {
        Table::Name => first.name_entry,
        Table::Prefix => first.prefix_entry,
        Table::Datatype => first.datatype_entry,
    }
}

/// The last id of a table that a reference can count on from; a datatype's never does.
#[inline]
pub(crate) fn last_of(first: &Summary, table: Table) -> RelativeId
    ensures { (bytes : List ℕ) → id_seen result ≡ sums.last_in (summary_seen bytes first.now).ids table }
{
    match table {
        Table::Name => first.ids.name,
        Table::Prefix => first.ids.prefix,
        Table::Datatype => RelativeId::Given(0),
    }
}

/// What a run leaves of a thing that is kept.
#[inline]
pub(crate) fn left_of(first: &Summary, kept: Kept) -> &Left
    ensures { (bytes : List ℕ) → left_seen bytes result.now ≡ sums.left_in (summary_seen bytes first.now) (kept_seen kept) }
{
    match kept {
        Kept::LastAt(Position::Subject) => &first.subject,
        Kept::LastAt(Position::Predicate) => &first.predicate,
        Kept::LastAt(Position::Object) => &first.object,
        Kept::LastAt(Position::Graph) => &first.graph,
        Kept::OpenGraph => &first.open_graph,
    }
}

/// How many rows a run has, and its last ids.
#[derive(Clone, Copy)]
pub(crate) struct First {
    pub rows: u32,
    pub ids: Refs,
}

/// What both runs leave of a thing that is kept.
#[inline]
pub(crate) fn later_left(bytes: &[u8], first: First, left: Left, rows: u32, later: Left) -> Left
    requires few { first.rows + rows < 2 ^ 32 }
    requires within { IsLeftWithin rows (left_seen bytes.now later) }
    ensures seen { left_seen bytes.now result ≡ left_later bytes.now first.rows (refs_seen first.ids) left later }
    ensures held { HasLeft bytes.now left → HasLeft bytes.now later → HasLeft bytes.now result }
{
    match later {
        Left::Incoming => left,
        Left::Cleared => Left::Cleared,
        Left::Set {
            moment,
            before,
            term,
        } => Left::Set {
            moment: first.rows + moment,
            before: later_refs(first.ids, before),
            term,
        },
    }
}
