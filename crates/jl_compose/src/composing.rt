//! Two summaries in one.
ghost use Rattle.std.specs.Prelude.{◌≡◌, ◌+◌, ◌<◌, ◌^◌, ℕ, List, IfOk, OnOk};
ghost use Rattle.jl_rows.specs.Written.{StreamOptions};
ghost use Rattle.jl_sym_laws.specs.Cutting.{IsMade};
ghost use Rattle.jl_sym_laws.specs.Summaries as sums;
ghost use Rattle.jl_sym.specs.Held.{HasSummary};
ghost use Rattle.jl_sym.specs.Lawful.{IsLawful};
ghost use Rattle.jl_sym.specs.Seen.{summary_seen};
ghost use Rattle.jl_compose.specs.Appending.{appended};
ghost use Rattle.jl_compose.specs.Turns.{StaysLawful, Turns};

use crate::demands::push_demands;
use crate::later::{First, later_id, later_left, later_refs};
use crate::writes::push_writes;
use jl_sym::{Left, Refs, RelativeId, Summary};
use std::alloc::{AllocError, Global};
use std::mem;

/// The summary of no rows, which leaves every state as it is. It takes no memory.
pub fn unit(alloc: Global) -> Summary
    ensures none { (bytes : List ℕ) → summary_seen bytes result ≡ sums.unit }
    ensures lawful { (o : StreamOptions) (bytes : List ℕ) → IsLawful o bytes result }
    ensures rows { result.rows ≡ 0 }
{
    let last = RelativeId::After(0);
    Summary {
        rows: 0,
        writes: Vec::new(alloc),
        demands: Vec::new(alloc),
        name_entry: last,
        prefix_entry: last,
        datatype_entry: last,
        ids: Refs {
            prefix: last,
            name: last,
        },
        subject: Left::Incoming,
        predicate: Left::Incoming,
        object: Left::Incoming,
        graph: Left::Incoming,
        open_graph: Left::Incoming,
    }
}

// The second summary's data after the first one's.
fn put_after(
    alloc: Global,
    bytes: &[u8],
    first: &mut Summary,
    second: &Summary,
) -> Result<(), AllocError>
    requires made { IsMade (summary_seen bytes.now second.now) }
    requires few { first.old.rows + second.now.rows < 2 ^ 32 }
    ensures seen { OnOk result (summary_seen bytes.now first.new ≡ appended bytes.now first.old second.now) }
    ensures held { OnOk result (HasSummary bytes.now first.old → HasSummary bytes.now second.now → HasSummary bytes.now first.new) }
    ensures rows { OnOk result (first.new.rows ≡ first.old.rows + second.now.rows) }
{
    let mut writes = mem::replace(&mut first.writes, Vec::new(alloc));
    let mut demands = mem::replace(&mut first.demands, Vec::new(alloc));
    push_writes(bytes, &mut writes, first, second.rows, &second.writes)?;
    push_demands(&mut demands, first, second.rows, &second.demands)?;
    first.writes = writes;
    first.demands = demands;
    let rows = second.rows;
    let before = First {
        rows: first.rows,
        ids: first.ids,
    };
    first.subject = later_left(bytes, before, first.subject, rows, second.subject);
    first.predicate = later_left(bytes, before, first.predicate, rows, second.predicate);
    first.object = later_left(bytes, before, first.object, rows, second.object);
    first.graph = later_left(bytes, before, first.graph, rows, second.graph);
    first.open_graph = later_left(bytes, before, first.open_graph, rows, second.open_graph);
    first.name_entry = later_id(first.name_entry, second.name_entry);
    first.prefix_entry = later_id(first.prefix_entry, second.prefix_entry);
    first.datatype_entry = later_id(first.datatype_entry, second.datatype_entry);
    first.ids = later_refs(before.ids, second.ids);
    first.rows = before.rows + rows;
    Ok(())
}

/// The second summary after the first, in place: both speak of the same bytes. Want of memory leaves the first one of
/// no use.
pub fn append(
    alloc: Global,
    bytes: &[u8],
    first: &mut Summary,
    second: &Summary,
) -> Result<(), AllocError>
    requires made { IsMade (summary_seen bytes.now second.now) }
    requires few { first.old.rows + second.now.rows < 2 ^ 32 }
    ensures acts { OnOk result (Turns bytes.now first.old second.now first.new) }
    ensures lawful { OnOk result (StaysLawful bytes.now first.old second.now first.new) }
    ensures rows { OnOk result (first.new.rows ≡ first.old.rows + second.now.rows) }
{
    put_after(alloc, bytes, first, second)?;
    Ok(())
}

/// Two summaries in one, both of which stay as they are. It takes memory for the writes and demands of both.
pub fn compose(
    alloc: Global,
    bytes: &[u8],
    first: &Summary,
    second: &Summary,
) -> Result<Summary, AllocError>
    requires first { IsMade (summary_seen bytes.now first.now) }
    requires second { IsMade (summary_seen bytes.now second.now) }
    requires few { first.now.rows + second.now.rows < 2 ^ 32 }
    ensures acts { IfOk result (Turns bytes.now first.now second.now) }
    ensures lawful { IfOk result (StaysLawful bytes.now first.now second.now) }
    ensures rows { IfOk result (λ c. c.rows ≡ first.now.rows + second.now.rows) }
{
    let mut both = unit(alloc);
    append(alloc, bytes, &mut both, first)?;
    append(alloc, bytes, &mut both, second)?;
    Ok(both)
}
