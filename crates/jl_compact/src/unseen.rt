//! Which writes nothing can see: a pass from the last one to the first, with a mark for each address.
ghost use Rattle.std.specs.Prelude.{◌≡◌, ℕ, ◌<◌, ◌^◌, ◌-◌, length, slice_index};
ghost use Rattle.jl_sym_laws.specs.Composing.{AreBefore};
ghost use Rattle.jl_sym.specs.Seen.{id_seen};
ghost use Rattle.jl_compact.specs.Marks.{address_number, AreMarkable, AreFlags, AreUpTo, is_hidden_by};
ghost use Rattle.jl_compact.specs.Parts.{writes_seen};

use jl_rows::Table;
use jl_sym::{RelativeId, Write};

/// Where the mark of an address lies.
#[inline]
pub fn address(table: Table, id: RelativeId) -> usize
    ensures exact { result ≡ address_number table (id_seen id) }
    ensures small { result < 2 ^ 40 }
{
    let table = match table {
        Table::Name => 0,
        Table::Prefix => 1,
        Table::Datatype => 2,
    };
    match id {
        RelativeId::Given(n) => 6 * n as usize + table,
        RelativeId::After(k) => 6 * k as usize + 3 + table,
    }
}

// Whether no text that is read at these moments tells of a write, where the next one to its address comes at a later
// moment.
fn is_unseen(moment: u32, later: u32, moments: &[u32]) -> bool
    ensures { result ≡ is_hidden_by moment later moments.now }
{
    let mut rest = moments;
    'by_moment: while let Some((k, others)) = rest.split_first() {
        if moment < *k && later >= *k {
            return false;
        }
        rest = others;
    }
    true
}

/// Finds which writes are unseen. A mark is the moment of the next write to its address.
pub fn find_unseen(
    bytes: &[u8],
    writes: &[Write],
    moments: &[u32],
    marks: &mut [u32],
    flags: &mut [bool],
)
    requires room { AreMarkable (length marks.old) 0 (writes_seen bytes.now writes.now) }
    requires early { AreBefore (2 ^ 32 - 1) (writes_seen bytes.now writes.now) }
    requires moments { AreUpTo (2 ^ 32 - 1) moments.now }
    requires fresh { (c : ℕ) → c < length marks.old → slice_index marks.old c ≡ 2 ^ 32 - 1 }
    requires many { length flags.old ≡ length writes.now }
    ensures { AreFlags moments.now (writes_seen bytes.now writes.now) flags.new }
{
    let mut left = writes.len();
    'backward: while left > 0 {
        left -= 1;
        let write = writes[left];
        let at = address(write.table, write.id);
        flags[left] = is_unseen(write.moment, marks[at], moments);
        marks[at] = write.moment;
    }
}
