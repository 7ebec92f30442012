//! Terms that a run leaves, read at their moments.
ghost use Rattle.std.specs.Prelude.{◌≡◌, ℕ, List, ◌+◌, ◌≤◌, Some, IfErr, IfOk, IfSome, OnOk, length, true};
ghost use Rattle.jl_base.specs.Limits.{most_bytes};
ghost use Rattle.jl_state.specs.Lawful.{maybe_value, HasMaybe};
ghost use Rattle.jl_state.specs.Seen.{tables_seen, AreTables};
ghost use Rattle.jl_state.specs.States as states;
ghost use Rattle.jl_sym_laws.specs.Acting.{tables_at};
ghost use Rattle.jl_sym_laws.specs.Composing.{IsLeftWithin};
ghost use Rattle.jl_sym_laws.specs.Cutting.{IsMade};
ghost use Rattle.jl_sym_laws.specs.Summaries as sums;
ghost use Rattle.jl_sym.specs.Held.{HasLeft, HasSummary};
ghost use Rattle.jl_sym.specs.Seen.{left_seen, summary_seen};
ghost use Rattle.jl_apply.specs.Applying.{is_triple_left, leaves_triple_term, AreRead, HasNewTerms, IsStop};
ghost use Rattle.jl_apply.specs.Incoming.{IsIncoming, IsSmall};
ghost use Rattle.jl_apply.specs.Playing.{IsDueBy, IsReadBefore};

use crate::incoming::{Incoming, real};
use crate::lookup::Lookup;
use jl_state::{Known, LastIds};
use jl_sym::{Left, Summary};
use std::alloc::{AllocError, Global};

/// The terms that a run leaves, as far as they have been read.
#[derive(Debug, Drop)]
pub(crate) struct NewTerms {
    pub subject: Option<Known>,
    pub predicate: Option<Known>,
    pub object: Option<Known>,
    pub graph: Option<Known>,
    pub open_graph: Option<Known>,
}

// Reads a term that is set at this moment.
fn read(
    alloc: Global,
    lookup: &Lookup<'_>,
    incoming: Incoming,
    left: &Left,
    moment: u32,
    value: &mut Option<Known>,
) -> Result<(), AllocError>
    requires small { IsSmall incoming }
    requires tables { AreTables lookup.now.bytes.now lookup.now.tables.now }
    requires short { length lookup.now.bytes.now ≤ most_bytes }
    requires held { HasLeft lookup.now.bytes.now left.now }
    requires value { HasMaybe lookup.now.bytes.now value.old }
    ensures read { (s : states.State) (ws : List sums.Written) (from : ℕ) → IsIncoming incoming s → tables_at s ws moment ≡ tables_seen lookup.now.bytes.now lookup.now.tables.now
        → IsDueBy from (left_seen lookup.now.bytes.now left.now) (Some moment)
        → IsReadBefore s ws from (left_seen lookup.now.bytes.now left.now) (maybe_value lookup.now.bytes.now value.old)
        → OnOk result (IsReadBefore s ws (moment + 1) (left_seen lookup.now.bytes.now left.now) (maybe_value lookup.now.bytes.now value.new)) }
    ensures sound { OnOk result (HasMaybe lookup.now.bytes.now value.new) }
    ensures memory { IfErr result (λ _. is_triple_left lookup.now.bytes.now left.now ≡ true) }
{
    let Left::Set {
        moment: set,
        before,
        term,
    } = left
    else {
        return Ok(());
    };
    if *set != moment {
        return Ok(());
    }
    let mut last = LastIds {
        prefix: real(before.prefix, incoming.last.prefix),
        name: real(before.name, incoming.last.name),
    };
    *value = Some(lookup.term(alloc, &mut last, term)?);
    Ok(())
}

// The sooner of a moment that was found and the moment from `from` on at which a term is read.
fn sooner(left: &Left, from: u64, found: Option<u32>) -> Option<u32>
    requires { IfSome found (λ k. from ≤ k) }
    ensures due { (bytes : List ℕ) → IsDueBy from (left_seen bytes left.now) result }
    ensures still { (l : sums.Left) → IsDueBy from l found → IsDueBy from l result }
    ensures from { IfSome result (λ k. from ≤ k) }
    ensures within { (bytes : List ℕ) (n : ℕ) → IsLeftWithin n (left_seen bytes left.now) → IfSome found (λ k. k ≤ n) → IfSome result (λ k. k ≤ n) }
{
    let Left::Set { moment, .. } = left else {
        return found;
    };
    if u64::from(*moment) < from {
        return found;
    }
    let Some(before) = found else {
        return Some(*moment);
    };
    if before < *moment {
        Some(before)
    } else {
        Some(*moment)
    }
}

/// The next moment from this one on at which terms are read.
pub(crate) fn next_stop(summary: &Summary, from: u64) -> Option<u32>
    ensures stop { (bytes : List ℕ) → IsStop (summary_seen bytes summary.now) from result }
    ensures from { IfSome result (λ k. from ≤ k) }
    ensures within { (bytes : List ℕ) → IsMade (summary_seen bytes summary.now) → IfSome result (λ k. k ≤ summary.now.rows) }
{
    let found = sooner(&summary.subject, from, None);
    let found = sooner(&summary.predicate, from, found);
    let found = sooner(&summary.object, from, found);
    let found = sooner(&summary.graph, from, found);
    sooner(&summary.open_graph, from, found)
}

impl NewTerms {
    pub fn none() -> NewTerms
        ensures { (bytes : List ℕ) → HasNewTerms bytes result }
    {
        NewTerms {
            subject: None,
            predicate: None,
            object: None,
            graph: None,
            open_graph: None,
        }
    }

    /// Reads the terms of this moment.
    pub fn read_at(
        &mut self,
        alloc: Global,
        lookup: &Lookup<'_>,
        incoming: Incoming,
        summary: &Summary,
        moment: u32,
    ) -> Result<(), AllocError>
        requires held { HasSummary lookup.now.bytes.now summary.now }
        requires small { IsSmall incoming }
        requires tables { AreTables lookup.now.bytes.now lookup.now.tables.now }
        requires short { length lookup.now.bytes.now ≤ most_bytes }
        requires has { HasNewTerms lookup.now.bytes.now self.old }
        ensures read { (s : states.State) (from : ℕ) → IsIncoming incoming s → tables_at s (summary_seen lookup.now.bytes.now summary.now).writes moment ≡ tables_seen lookup.now.bytes.now lookup.now.tables.now
            → IsStop (summary_seen lookup.now.bytes.now summary.now) from (Some moment)
            → AreRead lookup.now.bytes.now s (summary_seen lookup.now.bytes.now summary.now) from self.old
            → OnOk result (AreRead lookup.now.bytes.now s (summary_seen lookup.now.bytes.now summary.now) (moment + 1) self.new) }
        ensures has { OnOk result (HasNewTerms lookup.now.bytes.now self.new) }
        ensures memory { IfErr result (λ _. leaves_triple_term lookup.now.bytes.now summary.now ≡ true) }
    {
        let (left, term) = (&summary.subject, &mut self.subject);
        read(alloc, lookup, incoming, left, moment, term)?;
        let (left, term) = (&summary.predicate, &mut self.predicate);
        read(alloc, lookup, incoming, left, moment, term)?;
        let (left, term) = (&summary.object, &mut self.object);
        read(alloc, lookup, incoming, left, moment, term)?;
        let (left, term) = (&summary.graph, &mut self.graph);
        read(alloc, lookup, incoming, left, moment, term)?;
        let (left, term) = (&summary.open_graph, &mut self.open_graph);
        read(alloc, lookup, incoming, left, moment, term)?;
        Ok(())
    }
}
