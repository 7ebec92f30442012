//! Ids of a run before which it isn't known what stands.
ghost use Rattle.std.specs.Prelude.{◌≡◌, ℕ, List};
ghost use Rattle.jl_rows.specs.Decoder as decoder;
ghost use Rattle.jl_rows.specs.Seen as rows;
ghost use Rattle.jl_sym_laws.specs.Cutting as cutting;
ghost use Rattle.jl_sym_laws.specs.RelativeIds as ids;
ghost use Rattle.jl_sym.specs.Seen.{id_seen, IsSmall};

use jl_rows::{Options, Table};

/// An id: the number itself, or so many after the incoming last one.
#[derive(Clone, Copy, Debug, PartialEq, Eq)]
pub enum RelativeId {
    Given(u32),
    After(u32),
}

/// The last ids: those of the last IRI before a term, or of the last one of a run.
#[derive(Clone, Copy, Debug, PartialEq, Eq)]
pub struct Refs {
    pub prefix: RelativeId,
    pub name: RelativeId,
}

impl RelativeId {
    /// The next id.
    #[inline]
    pub(crate) fn next(self) -> RelativeId
        requires { IsSmall self }
        ensures { id_seen result ≡ ids.following (id_seen self) (ids.After 1) }
    {
        match self {
            RelativeId::Given(n) => RelativeId::Given(n + 1),
            RelativeId::After(k) => RelativeId::After(k + 1),
        }
    }

    /// The id of an entry after this last one, by the rule for 0.
    #[inline]
    pub(crate) fn entry(self, written: u32) -> RelativeId
        requires { IsSmall self }
        ensures { id_seen result ≡ ids.following (id_seen self) (ids.entry_written written) }
    {
        if written == 0 {
            self.next()
        } else {
            RelativeId::Given(written)
        }
    }

    /// Whether it is an id of a table of this size, or at most so far after the last one.
    #[inline]
    pub fn is_in(self, size: u32) -> bool
        ensures { result ≡ cutting.is_id_in size (id_seen self) }
    {
        match self {
            RelativeId::Given(n) => 0 < n && n <= size,
            RelativeId::After(k) => 0 < k && k <= size,
        }
    }
}

/// How many entries a table may have.
#[inline]
pub fn size_of(options: &Options, table: Table) -> u32
    ensures { (bytes : List ℕ) → result ≡ decoder.size_of (rows.options_seen bytes options.now) table }
{
    match table {
        Table::Name => options.names,
        Table::Prefix => options.prefixes,
        Table::Datatype => options.datatypes,
    }
}

/// Whether a reference can be one to these tables.
#[inline]
pub fn is_reference_in(options: &Options, table: Table, id: RelativeId) -> bool
    ensures { (bytes : List ℕ) → result ≡ cutting.is_reference_in (rows.options_seen bytes options.now) table (id_seen id) }
{
    match table {
        Table::Name => id.is_in(options.names),
        Table::Prefix => match id {
            RelativeId::Given(_) => id.is_in(options.prefixes),
            RelativeId::After(k) => k == 0,
        },
        Table::Datatype => match id {
            RelativeId::Given(_) => id.is_in(options.datatypes),
            RelativeId::After(_) => false,
        },
    }
}
