//! The log of a summary, played in order into the tables of a state.
ghost use Rattle.std.specs.Prelude.{◌≡◌, ℕ, List, ◌≤◌, length, map, slice_set, Some, IfOk};
ghost use Rattle.jl_state.specs.Extents.{text_in, slot_seen, IsSound, AreSound, IsFilled};
ghost use Rattle.jl_state.specs.Seen.{tables_seen, AreTables};
ghost use Rattle.jl_state.specs.States as states;
ghost use Rattle.jl_sym_laws.specs.Acting.{filled_in, unmet};
ghost use Rattle.jl_sym_laws.specs.Composing.{AreWithin};
ghost use Rattle.jl_sym_laws.specs.Cutting.{AreMadeWrites, AreMadeDemands};
ghost use Rattle.jl_sym_laws.specs.Summaries as sums;
ghost use Rattle.jl_sym.specs.Held.{AreTexts};
ghost use Rattle.jl_sym.specs.Seen.{demands_seen};
ghost use Rattle.jl_apply.specs.Incoming.{IsSmall, IsIncoming, last_of};
ghost use Rattle.jl_apply.specs.Playing.{writes_seen, KeepsTables, Advances, Passes};

use crate::incoming::{Incoming, real};
use crate::lookup::Lookup;
use jl_base::Fault;
use jl_rows::Table;
use jl_state::{Extent, Tables};
use jl_sym::{Demand, Write};

/// What is left of a summary's log.
#[derive(Clone, Copy)]
pub(crate) struct Rest<'a> {
    pub writes: &'a [Write],
    pub demands: &'a [Demand],
}

// A text into a slot. One that no table has is let go.
#[inline]
fn fill_slot(slots: &mut Vec<Extent>, bytes: &[u8], id: u64, text: Extent)
    requires held { IsSound bytes.now text }
    requires filled { IsFilled text }
    requires sound { AreSound bytes.now slots.old.items }
    ensures exact { map (slot_seen bytes.now) slots.new.items ≡ slice_set (map (slot_seen bytes.now) slots.old.items) id (Some (text_in bytes.now text)) }
    ensures sound { AreSound bytes.now slots.new.items }
    ensures same { length slots.new.items ≡ length slots.old.items }
{
    if id < slots.len() as u64 {
        slots[id as usize] = text;
    }
}

// A text into a slot of a table.
#[inline]
fn fill(tables: &mut Tables, bytes: &[u8], table: Table, id: u64, text: Extent)
    requires held { IsSound bytes.now text }
    requires filled { IsFilled text }
    requires tables { AreTables bytes.now tables.old }
    ensures exact { tables_seen bytes.now tables.new ≡ filled_in (tables_seen bytes.now tables.old) table id (text_in bytes.now text) }
    ensures kept { KeepsTables bytes.now tables.old tables.new }
{
    match table {
        Table::Name => fill_slot(&mut tables.names, bytes, id, text),
        Table::Prefix => fill_slot(&mut tables.prefixes, bytes, id, text),
        Table::Datatype => fill_slot(&mut tables.datatypes, bytes, id, text),
    }
}

/// Makes the writes before a moment, and answers those that are left.
pub(crate) fn play<'a>(
    tables: &mut Tables,
    bytes: &[u8],
    incoming: Incoming,
    writes: &'a [Write],
    moment: u32,
) -> &'a [Write]
    requires small { IsSmall incoming }
    requires tables { AreTables bytes.now tables.old }
    requires held { AreTexts bytes.now writes.now }
    requires rises { AreMadeWrites 0 (writes_seen bytes.now writes.now) }
    ensures advances { Advances (last_of incoming) (tables_seen bytes.now tables.old) (writes_seen bytes.now writes.now) moment (tables_seen bytes.now tables.new) (writes_seen bytes.now result.now) }
    ensures kept { KeepsTables bytes.now tables.old tables.new }
    ensures held { AreTexts bytes.now result.now }
{
    let mut rest = writes;
    'log: while let Some((write, later)) = rest.split_first() {
        if write.moment >= moment {
            return rest;
        }
        let id = real(write.id, incoming.entry(write.table));
        fill(tables, bytes, write.table, id, write.text);
        rest = later;
    }
    rest
}

/// Goes on to a moment: all demands up to it are met, and all writes before it are made. Or the first demand that isn't
/// met.
pub(crate) fn go_to<'a>(
    tables: &mut Tables,
    bytes: &[u8],
    incoming: Incoming,
    rest: Rest<'a>,
    moment: u32,
) -> Result<Rest<'a>, Fault>
    requires small { IsSmall incoming }
    requires tables { AreTables bytes.now tables.old }
    requires held { AreTexts bytes.now rest.writes.now }
    requires rises { AreMadeWrites 0 (writes_seen bytes.now rest.writes.now) }
    ensures passes { (s : states.State) (ws : List sums.Written) (k : ℕ) → IsIncoming incoming s → Advances (last_of incoming) s.tables ws k (tables_seen bytes.now tables.old) (writes_seen bytes.now rest.entry.writes.now)
        → AreMadeDemands k (demands_seen rest.entry.demands.now) → k ≤ moment
        → Passes bytes.now incoming s ws (demands_seen rest.entry.demands.now) moment tables.new result }
    ensures kept { KeepsTables bytes.now tables.old tables.new }
    ensures held { IfOk result (λ r. AreTexts bytes.now r.writes.now) }
    ensures rises { IfOk result (λ r. AreMadeWrites 0 (writes_seen bytes.now r.writes.now)) }
{
    let mut writes = rest.writes;
    let mut demands = rest.demands;
    'demands: while let Some((demand, later)) = demands.split_first() {
        if demand.moment > moment {
            break;
        }
        writes = play(tables, bytes, incoming, writes, demand.moment);
        if !incoming.meets(&Lookup { bytes, tables }, demand.need) {
            return Err(demand.fault);
        }
        demands = later;
    }
    let writes = play(tables, bytes, incoming, writes, moment);
    Ok(Rest { writes, demands })
}

/// The demands from the first one on that the incoming state doesn't meet by itself: what is filled stays filled.
pub(crate) fn open<'a>(
    lookup: &Lookup<'_>,
    incoming: Incoming,
    demands: &'a [Demand],
) -> &'a [Demand]
    requires small { IsSmall incoming }
    requires tables { AreTables lookup.now.bytes.now lookup.now.tables.now }
    ensures faults { (s : states.State) (ws : List sums.Written) → IsIncoming incoming s → s.tables ≡ tables_seen lookup.now.bytes.now lookup.now.tables.now
        → unmet s ws (demands_seen demands.now) ≡ unmet s ws (demands_seen result.now) }
    ensures made { AreMadeDemands 0 (demands_seen demands.now) → AreMadeDemands 0 (demands_seen result.now) }
    ensures within { (n : ℕ) → AreWithin n (demands_seen demands.now) → AreWithin n (demands_seen result.now) }
{
    let mut rest = demands;
    'demands: while let Some((demand, later)) = rest.split_first() {
        if !incoming.meets(lookup, demand.need) {
            return rest;
        }
        rest = later;
    }
    rest
}
