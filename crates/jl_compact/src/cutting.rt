//! What lies outside of the tables.
ghost use Rattle.std.specs.Prelude.{◌≡◌, ℕ, List, ◌≤◌, ◌<◌, ◌^◌, IfOk};
ghost use Rattle.jl_rows.specs.declared.row.Table as tables;
ghost use Rattle.jl_rows.specs.Decoder as decoder;
ghost use Rattle.jl_rows.specs.Seen.{options_seen};
ghost use Rattle.jl_sym_laws.specs.Cutting.{is_need_in, cut_writes, cut_demands};
ghost use Rattle.jl_sym.specs.Held.{AreTexts};
ghost use Rattle.jl_sym.specs.Seen.{need_seen, demands_seen};
ghost use Rattle.jl_compact.specs.Parts.{writes_seen};

use jl_rows::Options;
use jl_sym::{Demand, Kept, Need, Write, is_reference_in, size_of};
use std::alloc::{AllocError, Global};

/// The size of the largest table.
pub fn largest_size(options: &Options) -> usize
    ensures largest { (bytes : List ℕ) (t : tables.Table) → decoder.size_of (options_seen bytes options.now) t ≤ result }
    ensures small { result < 2 ^ 32 }
{
    options.names.max(options.prefixes).max(options.datatypes) as usize
}

// Whether some state with tables of these sizes may meet a need.
fn may_be_met(options: &Options, need: Need) -> bool
    ensures { (bytes : List ℕ) → result ≡ is_need_in (options_seen bytes options.now) (need_seen need) }
{
    match need {
        Need::Fits(table, id) => id.is_in(size_of(options, table)),
        Need::Filled(table, id) => is_reference_in(options, table, id),
        Need::Has(_) => true,
        Need::Lacks(Kept::LastAt(_)) => false,
        Need::Lacks(Kept::OpenGraph) => true,
        Need::Never => true,
    }
}

/// The writes to slots of the tables.
pub fn writes_inside(
    alloc: Global,
    bytes: &[u8],
    options: &Options,
    writes: &[Write],
) -> Result<Vec<Write>, AllocError>
    requires texts { AreTexts bytes.now writes.now }
    ensures texts { IfOk result (λ ws. AreTexts bytes.now ws.items) }
    ensures exact { IfOk result (λ ws. writes_seen bytes.now ws.items ≡ cut_writes (options_seen bytes.now options.now) (writes_seen bytes.now writes.now)) }
{
    let mut inside = Vec::new(alloc);
    let mut rest = writes;
    'by_write: while let Some((write, later)) = rest.split_first() {
        rest = later;
        if !write.id.is_in(size_of(options, write.table)) {
            continue;
        }
        inside.push(*write)?;
    }
    Ok(inside)
}

/// The demands up to the first one that no state meets, which is made one that is never met: so it needs no mark of its
/// own.
pub fn demands_inside(
    alloc: Global,
    options: &Options,
    demands: &[Demand],
) -> Result<Vec<Demand>, AllocError>
    ensures { IfOk result (λ ds. (bytes : List ℕ) → demands_seen ds.items ≡ cut_demands (options_seen bytes options.now) (demands_seen demands.now)) }
{
    let mut inside = Vec::new(alloc);
    let mut rest = demands;
    'by_demand: while let Some((demand, later)) = rest.split_first() {
        rest = later;
        if !may_be_met(options, demand.need) {
            inside.push(Demand {
                need: Need::Never,
                ..*demand
            })?;
            return Ok(inside);
        }
        inside.push(*demand)?;
    }
    Ok(inside)
}
