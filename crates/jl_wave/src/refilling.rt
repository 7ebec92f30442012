//! A state made equal to another one, in the memory that it has.
ghost use Rattle.std.specs.Prelude.{◌≡◌, ℕ, List, IfOk, OnOk};
ghost use Rattle.jl_state.specs.Lawful.{state_seen, IsLawful};

use jl_state::{Extent, Known, State};
use std::alloc::{AllocError, Global};

fn refill_slots(slots: &mut Vec<Extent>, from: &Vec<Extent>) -> Result<(), AllocError>
    ensures { OnOk result (slots.new.items ≡ from.now.items) }
{
    slots.clear();
    slots.extend_from_slice(from)
}

fn copied(alloc: Global, term: &Option<Known>) -> Result<Option<Known>, AllocError>
    ensures { IfOk result (λ copy. copy ≡ term.now) }
{
    match term {
        Some(term) => Ok(Some(term.copy(alloc)?)),
        None => Ok(None),
    }
}

/// Takes memory for triple terms alone, where the tables have as many slots as the others.
pub(crate) fn refill(alloc: Global, state: &mut State, from: &State) -> Result<(), AllocError>
    ensures seen { OnOk result ((bytes : List ℕ) → state_seen bytes state.new ≡ state_seen bytes from.now) }
    ensures lawful { OnOk result ((bytes : List ℕ) → IsLawful bytes from.now → IsLawful bytes state.new) }
    ensures options { OnOk result (state.new.options ≡ from.now.options) }
{
    refill_slots(&mut state.tables.names, &from.tables.names)?;
    refill_slots(&mut state.tables.prefixes, &from.tables.prefixes)?;
    refill_slots(&mut state.tables.datatypes, &from.tables.datatypes)?;
    state.options = from.options;
    state.name_entry = from.name_entry;
    state.prefix_entry = from.prefix_entry;
    state.datatype_entry = from.datatype_entry;
    state.last = from.last;
    state.subject = copied(alloc, &from.subject)?;
    state.predicate = copied(alloc, &from.predicate)?;
    state.object = copied(alloc, &from.object)?;
    state.graph = copied(alloc, &from.graph)?;
    state.open_graph = copied(alloc, &from.open_graph)?;
    Ok(())
}
