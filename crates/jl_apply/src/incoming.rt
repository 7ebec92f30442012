//! What stays of the incoming state while the log is played into its tables.
ghost use Rattle.std.specs.Prelude.{◌≡◌, ◌≤◌, ◌^◌, ℕ, List, length, is_some};
ghost use Rattle.jl_rows.specs.Decoder.{most_entries};
ghost use Rattle.jl_rows.specs.Seen.{options_seen};
ghost use Rattle.jl_state.specs.Lawful.{state_seen, IsLawful};
ghost use Rattle.jl_state.specs.Seen.{tables_seen, AreTables};
ghost use Rattle.jl_state.specs.States as states;
ghost use Rattle.jl_sym_laws.specs.Acting.{kept_of};
ghost use Rattle.jl_sym_laws.specs.RelativeIds as relative;
ghost use Rattle.jl_sym_laws.specs.Staying.{IsSettled};
ghost use Rattle.jl_sym_laws.specs.Summaries as sums;
ghost use Rattle.jl_sym.specs.Seen.{id_seen, kept_seen, need_seen};
ghost use Rattle.jl_apply.specs.Incoming.{IsSmall, IsIncoming, need_met, last_of};

use crate::lookup::Lookup;
use jl_rows::Table;
use jl_state::{LastIds, Position, State, Tables};
use jl_sym::{Kept, Need, RelativeId};

/// The last ids of a state, and which of the things that it keeps by value it has.
#[derive(Clone, Copy, Debug)]
pub(crate) struct Incoming {
    pub name_entry: u64,
    pub prefix_entry: u64,
    pub datatype_entry: u64,
    pub last: LastIds,
    pub has_subject: bool,
    pub has_predicate: bool,
    pub has_object: bool,
    pub has_graph: bool,
    pub has_open_graph: bool,
}

/// The number of an id, once the incoming last one is known.
#[inline]
pub(crate) fn real(id: RelativeId, last: u64) -> u64
    requires { last ≤ 2 ^ 32 }
    ensures { result ≡ relative.real (id_seen id) last }
{
    match id {
        RelativeId::Given(n) => u64::from(n),
        RelativeId::After(k) => last + u64::from(k),
    }
}

#[inline]
fn size(tables: &Tables, table: Table) -> usize
    ensures { (bytes : List ℕ) → result ≡ length (states.table_in (tables_seen bytes tables.now) table) }
{
    match table {
        Table::Name => tables.names.len(),
        Table::Prefix => tables.prefixes.len(),
        Table::Datatype => tables.datatypes.len(),
    }
}

impl Incoming {
    /// What stays of this state.
    pub fn of(bytes: &[u8], state: &State) -> Incoming
        requires lawful { IsLawful bytes.now state.now }
        requires settled { IsSettled (options_seen bytes.now state.now.options) (state_seen bytes.now state.now) }
        ensures small { IsSmall result }
        ensures is { IsIncoming result (state_seen bytes.now state.now) }
    {
        Incoming {
            name_entry: state.name_entry,
            prefix_entry: state.prefix_entry,
            datatype_entry: state.datatype_entry,
            last: state.last,
            has_subject: state.subject.is_some(),
            has_predicate: state.predicate.is_some(),
            has_object: state.object.is_some(),
            has_graph: state.graph.is_some(),
            has_open_graph: state.open_graph.is_some(),
        }
    }

    /// The id of the last entry of a table.
    #[inline]
    pub fn entry(&self, table: Table) -> u64
        ensures { result ≡ last_of self.now table }
    {
        match table {
            Table::Name => self.name_entry,
            Table::Prefix => self.prefix_entry,
            Table::Datatype => self.datatype_entry,
        }
    }

    fn has(&self, kept: Kept) -> bool
        ensures { (s : states.State) → IsIncoming self.now s → result ≡ is_some (kept_of s (kept_seen kept)) }
    {
        match kept {
            Kept::LastAt(Position::Subject) => self.has_subject,
            Kept::LastAt(Position::Predicate) => self.has_predicate,
            Kept::LastAt(Position::Object) => self.has_object,
            Kept::LastAt(Position::Graph) => self.has_graph,
            Kept::OpenGraph => self.has_open_graph,
        }
    }

    // The slot of a reference is filled; the prefix of id 0 is the empty one.
    #[inline(always)]
    fn is_filled(&self, lookup: &Lookup<'_>, table: Table, id: RelativeId) -> bool
        requires small { IsSmall self.now }
        requires tables { AreTables lookup.now.bytes.now lookup.now.tables.now }
        ensures { (s : states.State) → IsIncoming self.now s → result ≡ need_met s (tables_seen lookup.now.bytes.now lookup.now.tables.now) (sums.Filled table (id_seen id)) }
    {
        match table {
            Table::Name => lookup
                .filled(&lookup.tables.names, real(id, self.last.name))
                .is_ok(),
            Table::Prefix => lookup.prefix(real(id, self.last.prefix)).is_ok(),
            Table::Datatype => lookup.filled(&lookup.tables.datatypes, real(id, 0)).is_ok(),
        }
    }

    /// Whether a need is met, where the log has been played so far.
    #[inline(always)]
    pub fn meets(&self, lookup: &Lookup<'_>, need: Need) -> bool
        requires small { IsSmall self.now }
        requires tables { AreTables lookup.now.bytes.now lookup.now.tables.now }
        ensures { (s : states.State) → IsIncoming self.now s → result ≡ need_met s (tables_seen lookup.now.bytes.now lookup.now.tables.now) (need_seen need) }
    {
        match need {
            Need::Fits(table, id) => {
                real(id, self.entry(table)) < size(lookup.tables, table) as u64
            }
            Need::Filled(table, id) => self.is_filled(lookup, table, id),
            Need::Has(kept) => self.has(kept),
            Need::Lacks(kept) => !self.has(kept),
            Need::Never => false,
        }
    }
}
