//! The demands that stay.
ghost use Rattle.std.specs.Prelude.{◌≡◌, ℕ, [], ◌<◌, ◌^◌, false, length, IfOk, OnOk, slice_index_or};
ghost use Rattle.jl_sym_laws.specs.Compacting.{kept_demands};
ghost use Rattle.jl_sym.specs.Seen.{kept_seen, need_seen, demands_seen};
ghost use Rattle.jl_compact.specs.Marks.{kept_number, need_number, AreAskable};

use crate::unseen::address;
use jl_state::Position;
use jl_sym::{Demand, Kept, Need};
use std::alloc::{AllocError, Global};

fn number(kept: Kept) -> usize
    ensures { result ≡ kept_number (kept_seen kept) }
{
    match kept {
        Kept::LastAt(Position::Subject) => 0,
        Kept::LastAt(Position::Predicate) => 1,
        Kept::LastAt(Position::Object) => 2,
        Kept::LastAt(Position::Graph) => 3,
        Kept::OpenGraph => 4,
    }
}

// Where the mark of a need lies.
fn place_of(need: Need) -> usize
    ensures exact { result ≡ need_number (need_seen need) }
    ensures small { result < 2 ^ 42 }
{
    match need {
        Need::Has(kept) => number(kept),
        Need::Lacks(kept) => 5 + number(kept),
        Need::Never => 10,
        Need::Fits(table, id) => 11 + 2 * address(table, id),
        Need::Filled(table, id) => 12 + 2 * address(table, id),
    }
}

// Keeps of each need the first demand.
fn keep(demands: &[Demand], asked: &mut [bool], kept: &mut Vec<Demand>) -> Result<(), AllocError>
    requires room { AreAskable (length asked.old) 0 (demands_seen demands.now) }
    requires fresh { (c : ℕ) → c < length asked.old → slice_index_or asked.old c false ≡ false }
    requires none { kept.old.items ≡ [] }
    ensures { OnOk result (demands_seen kept.new.items ≡ kept_demands [] (demands_seen demands.now)) }
{
    let mut rest = demands;
    'by_demand: while let Some((demand, later)) = rest.split_first() {
        let at = place_of(demand.need);
        rest = later;
        if asked[at] {
            continue;
        }
        kept.push(*demand)?;
        asked[at] = true;
    }
    Ok(())
}

/// The demands that no earlier one makes. So many marks have one for each need.
pub fn first_demands(
    alloc: Global,
    demands: &[Demand],
    room: usize,
) -> Result<Vec<Demand>, AllocError>
    requires room { AreAskable room 0 (demands_seen demands.now) }
    ensures { IfOk result (λ ds. demands_seen ds.items ≡ kept_demands [] (demands_seen demands.now)) }
{
    let mut asked = vec![in alloc; false; room]?;
    let mut kept = Vec::new(alloc);
    keep(demands, &mut asked, &mut kept)?;
    Ok(kept)
}
