//! The writes of a run that comes after another one.
ghost use Rattle.std.specs.Prelude.{◌≡◌, ◌+◌, ◌<◌, ◌^◌, ◌++◌, OnOk, map};
ghost use Rattle.jl_sym_laws.specs.Composing.{AreBefore};
ghost use Rattle.jl_sym.specs.Held.{AreTexts};
ghost use Rattle.jl_sym.specs.Seen.{write_seen, summary_seen};
ghost use Rattle.jl_compose.specs.Appending.{later_writes};

use crate::later::{entry_of, later_id};
use jl_sym::{Summary, Write};
use std::alloc::AllocError;

/// The second run's writes after the first one's.
pub(crate) fn push_writes(
    bytes: &[u8],
    out: &mut Vec<Write>,
    first: &Summary,
    rows: u32,
    writes: &[Write],
) -> Result<(), AllocError>
    requires few { first.now.rows + rows < 2 ^ 32 }
    requires before { AreBefore rows (map (write_seen bytes.now) writes.now) }
    ensures seen { OnOk result (map (write_seen bytes.now) out.new.items ≡ map (write_seen bytes.now) out.old.items ++ later_writes (summary_seen bytes.now first.now) (map (write_seen bytes.now) writes.now)) }
    ensures held { OnOk result (AreTexts bytes.now out.old.items → AreTexts bytes.now writes.now → AreTexts bytes.now out.new.items) }
{
    let mut rest = writes;
    'writes: while let Some((write, others)) = rest.split_first() {
        out.push(Write {
            moment: first.rows + write.moment,
            table: write.table,
            id: later_id(entry_of(first, write.table), write.id),
            text: write.text,
        })?;
        rest = others;
    }
    Ok(())
}
