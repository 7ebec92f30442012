//! The state of a decoder: the tables, the last ids, the last terms and the open graph.
ghost use Rattle.std.specs.Prelude.{◌≡◌, ◌+◌, ◌<◌, ◌≤◌, IfOk, OnOk, length, map};
ghost use Rattle.jl_base.specs.Limits.{most_bytes};
ghost use Rattle.jl_base.specs.Spans.{IsInside, text_of};
ghost use Rattle.jl_rows.specs.Decoder as decoder;
ghost use Rattle.jl_rows.specs.Seen as rows;
ghost use Rattle.jl_state.specs.States as states;
ghost use Rattle.jl_state.specs.Steps as steps;
ghost use Rattle.jl_state.specs.Extents.{slot_seen, AreSound};
ghost use Rattle.jl_state.specs.Lawful.{state_seen, IsLawful};
ghost use Rattle.jl_state.specs.Seen.{Enters, IsUnfilled};

use crate::extent::UNFILLED;
use crate::{Extent, Known, LastIds, Tables};
use jl_base::{Kind, Span};
use jl_rows::Options;
use std::alloc::{AllocError, Global};

/// What a decoder keeps while it goes through the rows of a file: eight bytes for each slot that the options allow, and
/// the last terms by where their texts lie.
#[derive(Debug, Drop)]
pub struct State {
    pub options: Options,
    pub tables: Tables,
    /// The id of the last entry of each table, 0 before the first.
    pub name_entry: u64,
    pub prefix_entry: u64,
    pub datatype_entry: u64,
    pub last: LastIds,
    pub subject: Option<Known>,
    pub predicate: Option<Known>,
    pub object: Option<Known>,
    pub graph: Option<Known>,
    pub open_graph: Option<Known>,
}

// The id of an entry, by the rule for 0.
#[inline]
fn id_after(written: u32, last: u64) -> u64
    requires { last ≤ decoder.most_entries }
    ensures { result ≡ steps.id_after written last }
{
    if written == 0 {
        last + 1
    } else {
        u64::from(written)
    }
}

// An entry of a table: its slot, and its id as the last one.
#[inline(never)]
pub(crate) fn enter(
    slots: &mut Vec<Extent>,
    last: &mut u64,
    bytes: &[u8],
    id: u32,
    text: Span,
) -> Result<(), Kind>
    requires inside { IsInside bytes.now text }
    requires short { length bytes.now ≤ most_bytes }
    requires small { last.old ≤ decoder.most_entries }
    requires few { length slots.old.items ≤ decoder.most_entries + 1 }
    requires sound { AreSound bytes.now slots.old.items }
    ensures exact { Enters bytes.now (steps.id_after id last.old) (text_of bytes.now text) slots.old.items slots.new.items last.new result }
    ensures sound { AreSound bytes.now slots.new.items }
    ensures small { OnOk result (last.new ≤ decoder.most_entries) }
{
    let id = id_after(id, *last);
    if id >= slots.len() as u64 {
        return Err(Kind::BadEntry);
    }
    slots[id as usize] = Extent::marked(bytes, text);
    *last = id;
    Ok(())
}

// A table of this many entries, all of them unfilled.
fn unfilled(alloc: Global, size: u32) -> Result<Vec<Extent>, AllocError>
    requires { size ≤ decoder.most_entries }
    ensures { IfOk result (λ slots. IsUnfilled size slots.items) }
{
    vec![in alloc; UNFILLED; size as usize + 1]
}

impl State {
    /// The state before the first row, under options that passed the checks of a first row.
    pub fn opening(alloc: Global, bytes: &[u8], options: &Options) -> Result<State, AllocError>
        requires inside { IsInside bytes.now options.now.stream_name }
        requires names { options.now.names ≤ decoder.most_entries }
        requires prefixes { options.now.prefixes ≤ decoder.most_entries }
        requires datatypes { options.now.datatypes ≤ decoder.most_entries }
        ensures exact { IfOk result (λ s. state_seen bytes.now s ≡ states.opening (rows.options_seen bytes.now options.now)) }
        ensures lawful { IfOk result (IsLawful bytes.now) }
        ensures options { IfOk result (λ s. s.options ≡ options.now) }
    {
        let names = unfilled(alloc, options.names)?;
        let prefixes = unfilled(alloc, options.prefixes)?;
        let datatypes = unfilled(alloc, options.datatypes)?;
        Ok(State {
            options: *options,
            tables: Tables {
                names,
                prefixes,
                datatypes,
            },
            name_entry: 0,
            prefix_entry: 0,
            datatype_entry: 0,
            last: LastIds { prefix: 0, name: 0 },
            subject: None,
            predicate: None,
            object: None,
            graph: None,
            open_graph: None,
        })
    }
}
