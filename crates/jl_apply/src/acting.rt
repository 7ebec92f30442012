//! A summary acts on a state.
ghost use Rattle.std.specs.Prelude.{◌≡◌, ◌≤◌, length, IfErr, IfOk, OnOk};
ghost use Rattle.jl_base.specs.Limits.{most_bytes};
ghost use Rattle.jl_rows.specs.Seen.{options_seen};
ghost use Rattle.jl_state.specs.Lawful as states_lawful;
ghost use Rattle.jl_state.specs.Lawful.{state_seen};
ghost use Rattle.jl_state.specs.Seen.{tables_seen, AreTables};
ghost use Rattle.jl_state.specs.States as states;
ghost use Rattle.jl_sym_laws.specs.Acting.{act};
ghost use Rattle.jl_sym_laws.specs.Cutting.{IsMade};
ghost use Rattle.jl_sym_laws.specs.Staying.{IsSettled};
ghost use Rattle.jl_sym.specs.Held.{HasSummary};
ghost use Rattle.jl_sym.specs.Lawful.{IsLawful};
ghost use Rattle.jl_sym.specs.Seen.{summary_seen};
ghost use Rattle.jl_apply.specs.Applying.{Applies, IsOutcome, HasAfter, HasNewTerms, Plays, WantsFor, leaves_triple_term, put_left};
ghost use Rattle.jl_apply.specs.Incoming.{IsIncoming, IsSmall};
ghost use Rattle.jl_apply.specs.Playing.{KeepsTables};
ghost use Rattle.jl_apply.specs.declared.acting.Halt.TheVariants as halts;

use crate::incoming::{Incoming, real};
use crate::log::{Rest, go_to, open};
use crate::lookup::Lookup;
use crate::new_terms::{NewTerms, next_stop};
use jl_base::Fault;
use jl_state::{Known, LastIds, State, Tables};
use jl_sym::{Left, Summary};
use std::alloc::{AllocError, Global};

/// Why a state wasn't brought over a run: the first fault of the run's rows, or memory wasn't found. The state is of no
/// use then.
#[derive(Clone, Copy, Debug)]
pub enum Halt {
    Fault(Fault),
    NoMemory,
}

/// What comes of a run: the state after it, or its first fault.
#[derive(Debug, Drop)]
pub enum Outcome {
    After(State),
    Faulted(Fault),
}

impl From<Fault> for Halt {
    ghost from_gives = { λ fault halt. halt ≡ halts.Fault fault };

    fn from(fault: Fault) -> Halt {
        Halt::Fault(fault)
    }
}

impl From<AllocError> for Halt {
    ghost from_gives = { λ _ halt. halt ≡ halts.NoMemory };

    fn from(_error: AllocError) -> Halt {
        Halt::NoMemory
    }
}

// What a run leaves of a thing that is kept takes its place.
fn put(left: &Left, kept: &mut Option<Known>, value: Option<Known>)
    ensures { kept.new ≡ put_left left.now kept.old value }
{
    match left {
        Left::Incoming => {}
        Left::Cleared => *kept = None,
        Left::Set { .. } => *kept = value,
    }
}

// Plays the log into the tables, and reads each term at its moment.
fn play_all(
    alloc: Global,
    summary: &Summary,
    bytes: &[u8],
    tables: &mut Tables,
    incoming: Incoming,
) -> Result<NewTerms, Halt>
    requires made { IsMade (summary_seen bytes.now summary.now) }
    requires held { HasSummary bytes.now summary.now }
    requires small { IsSmall incoming }
    requires tables { AreTables bytes.now tables.old }
    requires short { length bytes.now ≤ most_bytes }
    ensures plays { (s : states.State) → IsIncoming incoming s → s.tables ≡ tables_seen bytes.now tables.old → Plays bytes.now s (summary_seen bytes.now summary.now) tables.new result }
    ensures kept { KeepsTables bytes.now tables.old tables.new }
    ensures has { IfOk result (HasNewTerms bytes.now) }
    ensures memory { IfErr result (WantsFor (leaves_triple_term bytes.now summary.now)) }
{
    let demands = open(&Lookup { bytes, tables }, incoming, &summary.demands);
    let mut rest = Rest {
        writes: &summary.writes,
        demands,
    };
    let mut terms = NewTerms::none();
    let mut from = 0;
    'stops: while let Some(moment) = next_stop(summary, from) {
        rest = go_to(tables, bytes, incoming, rest, moment)?;
        let lookup = Lookup { bytes, tables };
        terms.read_at(alloc, &lookup, incoming, summary, moment)?;
        from = u64::from(moment) + 1;
    }
    go_to(tables, bytes, incoming, rest, summary.rows)?;
    Ok(terms)
}

/// Brings a state over a run, in place: what the run's rows do to it, or their first fault. Only a triple term that is
/// left takes memory. Time goes with the summary's writes and demands, and not with the state's size.
pub fn apply_in(
    alloc: Global,
    summary: &Summary,
    bytes: &[u8],
    state: &mut State,
) -> Result<(), Halt>
    requires lawful { IsLawful (options_seen bytes.now state.old.options) bytes.now summary.now }
    requires state { states_lawful.IsLawful bytes.now state.old }
    requires settled { IsSettled (options_seen bytes.now state.old.options) (state_seen bytes.now state.old) }
    requires short { length bytes.now ≤ most_bytes }
    ensures exact { Applies bytes.now (act (summary_seen bytes.now summary.now) (state_seen bytes.now state.old)) state.new result }
    ensures state { OnOk result (states_lawful.IsLawful bytes.now state.new) }
    ensures settled { OnOk result (IsSettled (options_seen bytes.now state.new.options) (state_seen bytes.now state.new)) }
    ensures options { state.new.options ≡ state.old.options }
    ensures memory { IfErr result (WantsFor (leaves_triple_term bytes.now summary.now)) }
{
    let incoming = Incoming::of(bytes, state);
    let terms = play_all(alloc, summary, bytes, &mut state.tables, incoming)?;
    state.name_entry = real(summary.name_entry, incoming.name_entry);
    state.prefix_entry = real(summary.prefix_entry, incoming.prefix_entry);
    state.datatype_entry = real(summary.datatype_entry, incoming.datatype_entry);
    state.last = LastIds {
        prefix: real(summary.ids.prefix, incoming.last.prefix),
        name: real(summary.ids.name, incoming.last.name),
    };
    put(&summary.subject, &mut state.subject, terms.subject);
    put(&summary.predicate, &mut state.predicate, terms.predicate);
    put(&summary.object, &mut state.object, terms.object);
    put(&summary.graph, &mut state.graph, terms.graph);
    put(&summary.open_graph, &mut state.open_graph, terms.open_graph);
    Ok(())
}

/// What comes of a state over a run, in memory of its own: as much as a copy of the state takes, and a box for each
/// triple term that is left. The state stays as it is.
pub fn apply(
    alloc: Global,
    summary: &Summary,
    bytes: &[u8],
    state: &State,
) -> Result<Outcome, AllocError>
    requires lawful { IsLawful (options_seen bytes.now state.now.options) bytes.now summary.now }
    requires state { states_lawful.IsLawful bytes.now state.now }
    requires settled { IsSettled (options_seen bytes.now state.now.options) (state_seen bytes.now state.now) }
    requires short { length bytes.now ≤ most_bytes }
    ensures exact { IfOk result (IsOutcome bytes.now (act (summary_seen bytes.now summary.now) (state_seen bytes.now state.now))) }
    ensures after { IfOk result (HasAfter bytes.now state.now.options) }
{
    let mut after = state.copy(alloc)?;
    match apply_in(alloc, summary, bytes, &mut after) {
        Ok(()) => Ok(Outcome::After(after)),
        Err(Halt::Fault(fault)) => Ok(Outcome::Faulted(fault)),
        Err(Halt::NoMemory) => Err(AllocError),
    }
}
