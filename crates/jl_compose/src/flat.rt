//! Leaves in one summary.
ghost use Rattle.std.specs.Prelude.{◌≡◌, ◌+◌, ◌<◌, ◌^◌, IfOk, OnOk};
ghost use Rattle.jl_rows.specs.Heads.{ArePassed};
ghost use Rattle.jl_rows.specs.Seen.{options_seen};
ghost use Rattle.jl_sym_laws.specs.Cutting.{IsSmall};
ghost use Rattle.jl_sym.specs.Lawful.{IsLawful};
ghost use Rattle.jl_sym.specs.Seen.{summary_seen};
ghost use Rattle.jl_compose.specs.Blocks.{all_rows, seen_all, AreLawful, AreMade, StaysLawfulAll, TurnsAll};
ghost use Rattle.jl_compose.specs.Turns.{seen_act, ActsInTurn};

use crate::composing::{append, unit};
use crate::shared::Shared;
use jl_compact::compact;
use jl_rows::Options;
use jl_sym::Summary;
use std::alloc::{AllocError, Global};

// Leaves after a summary, in place.
fn append_all(
    alloc: Global,
    bytes: &[u8],
    whole: &mut Summary,
    leaves: &[Shared<Summary>],
) -> Result<(), AllocError>
    requires made { AreMade bytes.now leaves.now }
    requires few { whole.old.rows + all_rows leaves.now < 2 ^ 32 }
    ensures acts { OnOk result (TurnsAll bytes.now whole.old leaves.now whole.new) }
    ensures lawful { OnOk result (StaysLawfulAll bytes.now whole.old leaves.now whole.new) }
    ensures rows { OnOk result (whole.new.rows ≡ whole.old.rows + all_rows leaves.now) }
{
    let mut rest = leaves;
    'appending: while let Some((leaf, others)) = rest.split_first() {
        append(alloc, bytes, whole, leaf.get())?;
        rest = others;
    }
    Ok(())
}

/// The leaves of both in one summary, compacted.
pub(crate) fn flat(
    alloc: Global,
    bytes: &[u8],
    options: &Options,
    first: &[Shared<Summary>],
    second: &[Shared<Summary>],
) -> Result<Summary, AllocError>
    requires options { ArePassed bytes.now options.now }
    requires first { AreLawful (options_seen bytes.now options.now) bytes.now first.now }
    requires second { AreLawful (options_seen bytes.now options.now) bytes.now second.now }
    requires few { all_rows first.now + all_rows second.now < 2 ^ 32 }
    ensures acts { IfOk result (λ m. ActsInTurn (options_seen bytes.now options.now) (seen_all bytes.now first.now) (seen_all bytes.now second.now) (seen_act bytes.now m)) }
    ensures lawful { IfOk result (IsLawful (options_seen bytes.now options.now) bytes.now) }
    ensures small { IfOk result (λ m. IsSmall (options_seen bytes.now options.now) (summary_seen bytes.now m)) }
    ensures rows { IfOk result (λ m. m.rows ≡ all_rows first.now + all_rows second.now) }
{
    let mut whole = unit(alloc);
    append_all(alloc, bytes, &mut whole, first)?;
    append_all(alloc, bytes, &mut whole, second)?;
    compact(alloc, bytes, options, &mut whole)?;
    Ok(whole)
}
