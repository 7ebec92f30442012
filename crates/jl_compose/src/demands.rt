//! The demands of a run that comes after another one.
ghost use Rattle.std.specs.Prelude.{◌≡◌, ◌+◌, ◌<◌, ◌^◌, ◌++◌, ℕ, List, OnOk};
ghost use Rattle.std.specs.Option.{option_map};
ghost use Rattle.jl_sym_laws.specs.Composing.{AreWithin, earlier_need};
ghost use Rattle.jl_sym.specs.Seen.{need_seen, demands_seen, summary_seen};
ghost use Rattle.jl_compose.specs.Appending.{narrow_later};
ghost use Rattle.jl_compose.specs.Narrowing.{narrow_need};

use crate::later::{entry_of, last_of, later_id, left_of};
use jl_sym::{Demand, Left, Need, Summary};
use std::alloc::AllocError;

/// What the second run needs of the state before the first; None where it is met already.
#[inline]
pub(crate) fn earlier(first: &Summary, need: Need) -> Option<Need>
    ensures { (bytes : List ℕ) → option_map need_seen result ≡ option_map narrow_need (earlier_need (summary_seen bytes first.now) (need_seen need)) }
{
    match need {
        Need::Fits(table, id) => Some(Need::Fits(table, later_id(entry_of(first, table), id))),
        Need::Filled(table, id) => Some(Need::Filled(table, later_id(last_of(first, table), id))),
        Need::Has(kept) => match left_of(first, kept) {
            Left::Incoming => Some(Need::Has(kept)),
            Left::Cleared => Some(Need::Never),
            Left::Set { .. } => None,
        },
        Need::Lacks(kept) => match left_of(first, kept) {
            Left::Incoming => Some(Need::Lacks(kept)),
            Left::Cleared => None,
            Left::Set { .. } => Some(Need::Never),
        },
        Need::Never => Some(Need::Never),
    }
}

/// The second run's demands after the first one's.
pub(crate) fn push_demands(
    out: &mut Vec<Demand>,
    first: &Summary,
    rows: u32,
    demands: &[Demand],
) -> Result<(), AllocError>
    requires few { first.now.rows + rows < 2 ^ 32 }
    requires within { AreWithin rows (demands_seen demands.now) }
    ensures { OnOk result ((bytes : List ℕ) → demands_seen out.new.items ≡ demands_seen out.old.items ++ narrow_later (summary_seen bytes first.now) (demands_seen demands.now)) }
{
    let mut rest = demands;
    'demands: while let Some((demand, others)) = rest.split_first() {
        rest = others;
        let Some(need) = earlier(first, demand.need) else {
            continue;
        };
        out.push(Demand {
            moment: first.rows + demand.moment,
            fault: demand.fault,
            need,
        })?;
    }
    Ok(())
}
