//! What holds of summaries, for all of them: laws, each the contract of a function that does nothing.
ghost use Rattle.jl_sym_laws.specs.Cutting.{MadeStays, ReadingsMade, StandsSized, CutKeeps, CutIsIn, FittedSummarises, FittedIsSmall, FittedIsMade};
ghost use Rattle.jl_sym_laws.specs.Laws.{Decodes, AfterIsRun, SmallStepsSum, RowsSum, Composes, StaysTimed, UnitDoesNothing, UnitBefore, UnitAfter, GroupsAlike, ReadingsSum, ReadingsTimed, JoinedSum, RowSums, FaultSums, SumsSummarise, JoinedSummarise};
ghost use Rattle.jl_sym_laws.specs.Compacting.{SlotIsLastWrite, DropsWrite, DropsDemand, CompactingKeeps};
ghost use Rattle.jl_sym_laws.specs.Meeting.{DropsWritten};
ghost use Rattle.jl_sym_laws.specs.Sizes.{CompactedFits};
ghost use Rattle.jl_sym_laws.specs.Staying.{OpeningSettled, RowsSettle, SumsSettle};
ghost use Rattle.jl_sym_laws.specs.WorkedRows.{ThreeAtOpening, ThreeAfterTwo, ThreeAfterEight, ImpliedIdsAcrossRuns, NothingToRepeat, WrongRowAfter, RepeatedTermKeepsItsText, PreviousPrefixAfterRewrite, TripleAfterGraphEnd, NestedTermWithoutEntry};

/// From a state that stands for a history, the decoder's steps over further rows lead to what the definitions say of
/// these rows after that history: the first fault at its place, or a state that stands for the longer history. Items
/// aside, these are the steps of the decoder's own run.
pub fn decodes()
    ensures leads { Decodes }
    ensures run { AfterIsRun }
{}

/// On every state, the summary of a small step does what the step does, and the summary of a row what the decoder's
/// step of that row does, its fault included. A certain fault is a demand that no state meets.
pub fn steps_sum()
    ensures small { SmallStepsSum }
    ensures row { RowsSum }
{}

/// On every state, two summaries composed do what the first does and then the second, first faults included. What is
/// asked of the first, that none of its moments lies after its rows, holds again of the composed one.
pub fn composes()
    ensures acts { Composes }
    ensures timed { StaysTimed }
{}

/// The summary of no rows does nothing, also before another one and after it.
pub fn unit_is_neutral()
    ensures alone { UnitDoesNothing }
    ensures before { UnitBefore }
    ensures after { UnitAfter }
{}

/// Three summaries act alike in both groupings, on every state.
pub fn groups_alike()
    ensures { GroupsAlike }
{}

/// The summary of a reading, made by composing row by row, does on every state what the decoder's steps over these
/// rows do, and then the fault that ends the reading; two summaries composed do what the two readings joined do. The
/// least readings are one row, and a fault alone.
pub fn runs_sum()
    ensures reading { ReadingsSum }
    ensures timed { ReadingsTimed }
    ensures joined { JoinedSum }
    ensures row { RowSums }
    ensures fault { FaultSums }
{}

/// A summary that does what the decoder's steps do leads, from each state that stands for a history, to what the
/// decoder finds in the reading after that history; and two such summaries composed lead to what it finds in both.
pub fn summarises()
    ensures reading { SumsSummarise }
    ensures joined { JoinedSummarise }
{}

/// A slot at a moment of a run is the text of the last write to that slot before the moment, or else what the incoming
/// state has there.
pub fn slots_are_last_writes()
    ensures { SlotIsLastWrite }
{}

/// What may be left out of a summary, which then acts on every state as before: a write to an address that was written
/// to before, where no text that is read is its own; and a demand that was made before. Texts are read at six moments
/// at most. A demand of a slot that the run itself wrote before, by its own id, may be left out on the states of a file.
pub fn what_may_be_dropped()
    ensures write { DropsWrite }
    ensures demand { DropsDemand }
    ensures written { DropsWritten }
{}

/// A compacted summary, from which all this is left out, acts on every state as the whole one. Where ids are inside of
/// the tables and moments don't fall, it has at most 14 writes for each slot that the tables have, and at most 4
/// demands for each, and 8 more, however long the run is.
pub fn compacting_keeps()
    ensures acts { CompactingKeeps }
    ensures size { CompactedFits }
{}

/// What summaries of rows keep: moments that don't fall and don't lie after the rows, and ids that count from 1. It holds
/// of the summary of any reading, again when two are composed, and when one is cut and compacted.
pub fn summaries_of_rows()
    ensures reading { ReadingsMade }
    ensures composed { MadeStays }
    ensures fitted { FittedIsMade }
{}

/// Certain faults. A state that stands for some rows has tables of the options' sizes; on such a state a demand of an id
/// outside of them is never met, so that it may be made the last one, and a write there fills no slot. What is left has
/// ids inside of the tables alone.
pub fn certain_faults()
    ensures sized { StandsSized }
    ensures acts { CutKeeps }
    ensures inside { CutIsIn }
{}

/// Cut and compacted, a summary still summarises its reading, and its size has a bound that knows only the tables' sizes:
/// at most 14 writes for each slot, and at most 4 demands for each and 8 more.
pub fn summaries_stay_small()
    ensures acts { FittedSummarises }
    ensures size { FittedIsSmall }
{}

/// Last ids are those of slots, or 0, in tables of the options' sizes. It holds of the opening state, and again after any
/// rows without a fault; so it does after a summary that acts as the steps over some rows.
pub fn ids_settle()
    ensures opening { OpeningSettled }
    ensures rows { RowsSettle }
    ensures summary { SumsSettle }
{}

/// Runs of rows and what their summaries do to states, worked by hand: ids left out, terms and prefixes that were set
/// in an earlier run, graphs, triple terms, and the first fault of each of several kinds.
pub fn worked_rows()
    ensures three_at_opening { ThreeAtOpening }
    ensures three_after_two { ThreeAfterTwo }
    ensures three_after_eight { ThreeAfterEight }
    ensures implied_ids_across_runs { ImpliedIdsAcrossRuns }
    ensures nothing_to_repeat { NothingToRepeat }
    ensures wrong_row_after { WrongRowAfter }
    ensures repeated_term_keeps_its_text { RepeatedTermKeepsItsText }
    ensures previous_prefix_after_rewrite { PreviousPrefixAfterRewrite }
    ensures triple_after_graph_end { TripleAfterGraphEnd }
    ensures nested_term_without_entry { NestedTermWithoutEntry }
{}
