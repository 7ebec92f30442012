//! A summary without what nothing can see.
ghost use Rattle.std.specs.Prelude.{◌≡◌, ◌<◌, ◌^◌, ℕ, List, ◌++◌, length, OnOk, OnErr, IfOk};
ghost use Rattle.jl_rows.specs.Seen.{options_seen};
ghost use Rattle.jl_state.specs.States as states;
ghost use Rattle.jl_sym_laws.specs.Acting.{act};
ghost use Rattle.jl_sym_laws.specs.Compacting.{moments_of, moments};
ghost use Rattle.jl_sym_laws.specs.Cutting.{fitted, IsMade, IsSmall, Sized};
ghost use Rattle.jl_sym.specs.Held.{AreTexts};
ghost use Rattle.jl_sym.specs.Lawful.{IsLawful};
ghost use Rattle.jl_sym.specs.Seen.{left_seen, demands_seen, summary_seen};
ghost use Rattle.jl_compact.specs.Marks.{HasRoom};
ghost use Rattle.jl_compact.specs.Parts.{writes_seen, KeepsLefts};

use crate::cutting::{demands_inside, largest_size, writes_inside};
use crate::demands::first_demands;
use crate::writes::needed_writes;
use jl_rows::Options;
use jl_sym::{Demand, Left, Summary, Write};
use std::alloc::{AllocError, Global};

fn push_moment(moments: &mut Vec<u32>, left: &Left) -> Result<(), AllocError>
    ensures { OnOk result ((bytes : List ℕ) → moments.new.items ≡ moments.old.items ++ moments_of (left_seen bytes left.now)) }
{
    match left {
        Left::Incoming => {}
        Left::Cleared => {}
        Left::Set { moment, .. } => moments.push(*moment)?,
    }
    Ok(())
}

// The moments at which texts are read.
fn moments_read(alloc: Global, summary: &Summary) -> Result<Vec<u32>, AllocError>
    ensures { IfOk result (λ ks. (bytes : List ℕ) → ks.items ≡ moments (summary_seen bytes summary.now)) }
{
    let mut moments = Vec::with_capacity(alloc, 6)?;
    moments.push(summary.rows)?;
    push_moment(&mut moments, &summary.subject)?;
    push_moment(&mut moments, &summary.predicate)?;
    push_moment(&mut moments, &summary.object)?;
    push_moment(&mut moments, &summary.graph)?;
    push_moment(&mut moments, &summary.open_graph)?;
    Ok(moments)
}

fn rows_of(summary: &Summary) -> u32
    ensures { result ≡ summary.now.rows }
{
    summary.rows
}

// So many marks have one for each address of the tables.
fn room_for(options: &Options) -> usize
    ensures room { (bytes : List ℕ) → HasRoom (options_seen bytes options.now) result }
    ensures small { result < 2 ^ 36 }
{
    6 * largest_size(options) + 6
}

// The writes of the tables' slots that something may see.
fn fitted_writes(
    alloc: Global,
    bytes: &[u8],
    options: &Options,
    summary: &Summary,
) -> Result<Vec<Write>, AllocError>
    requires made { IsMade (summary_seen bytes.now summary.now) }
    requires texts { AreTexts bytes.now summary.now.writes.items }
    ensures texts { IfOk result (λ ws. AreTexts bytes.now ws.items) }
    ensures exact { IfOk result (λ ws. writes_seen bytes.now ws.items ≡ (fitted (options_seen bytes.now options.now) (summary_seen bytes.now summary.now)).writes) }
{
    let _rows = rows_of(summary);
    let moments = moments_read(alloc, summary)?;
    let writes = writes_inside(alloc, bytes, options, &summary.writes)?;
    let room = room_for(options);
    needed_writes(alloc, bytes, &writes, &moments, room)
}

// The demands up to the first one that no state meets, once each.
fn fitted_demands(
    alloc: Global,
    bytes: &[u8],
    options: &Options,
    summary: &Summary,
) -> Result<Vec<Demand>, AllocError>
    requires made { IsMade (summary_seen bytes.now summary.now) }
    ensures { IfOk result (λ ds. demands_seen ds.items ≡ (fitted (options_seen bytes.now options.now) (summary_seen bytes.now summary.now)).demands) }
{
    let demands = demands_inside(alloc, options, &summary.demands)?;
    let room = room_for(options);
    first_demands(alloc, &demands, 12 + 2 * room)
}

/// Cuts and compacts as the definition does.
pub fn shrink(
    alloc: Global,
    bytes: &[u8],
    options: &Options,
    summary: &mut Summary,
) -> Result<(), AllocError>
    requires made { IsMade (summary_seen bytes.now summary.old) }
    requires texts { AreTexts bytes.now summary.old.writes.items }
    ensures texts { OnOk result (AreTexts bytes.now summary.new.writes.items) }
    ensures lefts { OnOk result (KeepsLefts summary.old summary.new) }
    ensures exact { OnOk result (summary_seen bytes.now summary.new ≡ fitted (options_seen bytes.now options.now) (summary_seen bytes.now summary.old)) }
    ensures same { OnErr result (summary.new ≡ summary.old) }
{
    let writes = fitted_writes(alloc, bytes, options, summary)?;
    let demands = fitted_demands(alloc, bytes, options, summary)?;
    summary.writes = writes;
    summary.demands = demands;
    Ok(())
}

/// Cuts off what lies outside of the tables and drops what nothing can see: writes to slots that were filled before and
/// that no text tells of which is read, demands that were made before, and all that comes after a certain fault. It goes
/// over the lists a few times. Beside copies of them it takes some 30 bytes for each entry that the largest table may
/// have, and gives these back. Where memory isn't found, the summary is unchanged.
pub fn compact(
    alloc: Global,
    bytes: &[u8],
    options: &Options,
    summary: &mut Summary,
) -> Result<(), AllocError>
    requires lawful { IsLawful (options_seen bytes.now options.now) bytes.now summary.old }
    ensures acts { OnOk result ((s : states.State) → Sized (options_seen bytes.now options.now) s → act (summary_seen bytes.now summary.new) s ≡ act (summary_seen bytes.now summary.old) s) }
    ensures small { OnOk result (IsSmall (options_seen bytes.now options.now) (summary_seen bytes.now summary.new)) }
    ensures rows { OnOk result (summary.new.rows ≡ summary.old.rows) }
    ensures same { OnErr result (summary_seen bytes.now summary.new ≡ summary_seen bytes.now summary.old) }
    ensures lawful { IsLawful (options_seen bytes.now options.now) bytes.now summary.new }
{
    shrink(alloc, bytes, options, summary)
}

/// How many writes a summary has, and how many demands. It takes no memory.
pub fn size(summary: &Summary) -> (u64, u64)
    ensures { result ≡ (length summary.now.writes.items, length summary.now.demands.items) }
{
    (summary.writes.len() as u64, summary.demands.len() as u64)
}
