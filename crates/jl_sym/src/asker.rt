//! What a row asks of the state before the run.
ghost use Rattle.std.specs.Prelude.{◌≡◌, ◌≤◌, ◌++◌, ◌∷◌, [], true, Ok, OnOk, OnErr, length};
ghost use Rattle.jl_base.specs.Limits.{most_bytes};
ghost use Rattle.jl_rows.specs.Decoder.{size_of};
ghost use Rattle.jl_rows.specs.Seen as rows;
ghost use Rattle.jl_rows.specs.Written as written;
ghost use Rattle.jl_state.specs.Positions.{inner_under, position_of, IsPlain, MayStand};
ghost use Rattle.jl_state.specs.Seen.{IsLeaf};
ghost use Rattle.jl_sym_laws.specs.Cutting as cutting;
ghost use Rattle.jl_sym_laws.specs.RelativeIds.{incoming, refs_after};
ghost use Rattle.jl_sym_laws.specs.SmallSteps as small;
ghost use Rattle.jl_sym_laws.specs.Summaries as sums;
ghost use Rattle.jl_sym.specs.Asking.{Asks, place_demands};
ghost use Rattle.jl_sym.specs.Checked.{checked, earlier_of, options_of, IsHere};
ghost use Rattle.jl_sym.specs.declared.marks.Marks.{Marks};
ghost use Rattle.jl_sym.specs.Lays.{laid};
ghost use Rattle.jl_sym.specs.Marking.{AreAsked};
ghost use Rattle.jl_sym.specs.Seen.{id_seen, words_seen, need_seen, last_seen, demands_seen, HasLast};

use crate::demand::{Demand, Kept, Need};
use crate::growing::Last;
use crate::id_word::RefWords;
use crate::marks::Marks;
use crate::relative_id::{RelativeId, size_of};
use crate::summary::Write;
use jl_base::{Fault, Kind, Place};
use jl_rows::{Options, RawIri, RawTail, RawTerm, RawTriple, Table, triple_term_at};
use jl_state::{Position, Stop, is_tag};
use std::alloc::AllocError;

/// Where a row stands, with what its checks need.
#[derive(Clone, Copy)]
pub(crate) struct Here<'a> {
    pub bytes: &'a [u8],
    pub options: &'a Options,
    pub place: &'a Place,
}

/// A row of a run, after so many others and what they wrote.
#[derive(Clone, Copy)]
pub(crate) struct Asker<'a, 'b> {
    pub here: &'a Here<'a>,
    pub moment: u32,
    pub writes: &'b Vec<Write>,
}

impl Asker<'_, '_> {
    /// One more demand.
    #[inline]
    pub fn push(&self, demands: &mut Vec<Demand>, kind: Kind, need: Need) -> Result<(), AllocError>
        ensures demands { OnOk result (demands_seen demands.new.items ≡ demands_seen demands.old.items
            ++ record { moment = self.now.moment; fault = record { place = self.now.here.now.place.now; kind = kind }; need = need_seen need } ∷ []) }
        ensures kept { OnErr result (demands.new.items ≡ demands.old.items) }
    {
        let fault = Fault {
            place: *self.here.place,
            kind,
        };
        demands.push(Demand {
            moment: self.moment,
            fault,
            need,
        })?;
        Ok(())
    }

    /// Asks for what isn't marked.
    #[inline(never)]
    pub fn ask_first(
        &self,
        demands: &mut Vec<Demand>,
        marks: &mut Marks,
        kind: Kind,
        need: Need,
    ) -> Result<(), Stop>
        requires good { AreAsked (earlier_of self.now) (demands_seen demands.old.items) marks.old }
        requires made { cutting.IsMadeNeed (need_seen need) }
        ensures asks { Asks (options_of self.now.here.now) (earlier_of self.now) self.now.here.now.place.now (demands_seen demands.old.items)
            (small.demand self.now.here.now.place.now kind (need_seen need) ∷ []) (demands_seen demands.new.items) result }
        ensures good { AreAsked (earlier_of self.now) (demands_seen demands.new.items) marks.new }
    {
        self.push(demands, kind, need)?;
        marks.mark(need);
        Ok(())
    }

    /// Asks for what no options decide, unless it is marked.
    #[inline]
    pub fn ask(
        &self,
        demands: &mut Vec<Demand>,
        marks: &mut Marks,
        kind: Kind,
        need: Need,
    ) -> Result<(), Stop>
        requires good { AreAsked (earlier_of self.now) (demands_seen demands.old.items) marks.old }
        requires made { cutting.IsMadeNeed (need_seen need) }
        requires open { cutting.is_need_in (options_of self.now.here.now) (need_seen need) ≡ true }
        ensures asks { Asks (options_of self.now.here.now) (earlier_of self.now) self.now.here.now.place.now (demands_seen demands.old.items)
            (small.demand self.now.here.now.place.now kind (need_seen need) ∷ []) (demands_seen demands.new.items) result }
        ensures good { AreAsked (earlier_of self.now) (demands_seen demands.new.items) marks.new }
    {
        if marks.has(need) {
            return Ok(());
        }
        self.ask_first(demands, marks, kind, need)
    }

    // Whether an entry of this id can be one of its table.
    #[inline]
    fn is_entry(&self, table: Table, id: RelativeId) -> bool
        ensures { result ≡ cutting.is_id_in (size_of (options_of self.now.here.now) table) (id_seen id) }
    {
        id.is_in(size_of(self.here.options, table))
    }

    /// The id of an entry must be one of its table. That of a known one is so on every state; others are asked for each time.
    #[inline]
    pub fn fits(&self, demands: &mut Vec<Demand>, table: Table, id: RelativeId) -> Result<(), Stop>
        requires made { cutting.IsNext (id_seen id) }
        ensures asks { Asks (options_of self.now.here.now) (earlier_of self.now) self.now.here.now.place.now (demands_seen demands.old.items)
            (small.demand self.now.here.now.place.now Kind.BadEntry (sums.Fits table (id_seen id)) ∷ []) (demands_seen demands.new.items) result }
        ensures good { (marks : Marks) → AreAsked (earlier_of self.now) (demands_seen demands.old.items) marks → AreAsked (earlier_of self.now) (demands_seen demands.new.items) marks }
        ensures fits { OnOk result (cutting.is_id_in (size_of (options_of self.now.here.now) table) (id_seen id) ≡ true) }
    {
        if !self.is_entry(table, id) {
            return Err(Stop::Fault(Kind::BadEntry));
        }
        if let RelativeId::Given(_) = id {
            return Ok(());
        }
        self.push(demands, Kind::BadEntry, Need::Fits(table, id))?;
        Ok(())
    }

    /// An IRI, whose ids become the last ones.
    #[inline(always)]
    pub fn iri(
        &self,
        demands: &mut Vec<Demand>,
        marks: &mut Marks,
        last: &mut RefWords,
        iri: RawIri,
    ) -> Result<(), Stop>
        requires here { IsHere self.now.here.now }
        requires good { AreAsked (earlier_of self.now) (demands_seen demands.old.items) marks.old }
        requires last { HasLast last.old }
        ensures asks { Asks (options_of self.now.here.now) (earlier_of self.now) self.now.here.now.place.now (demands_seen demands.old.items)
            (small.term_demands self.now.here.now.place.now (words_seen last.old) (written.Iri (rows.ids_seen iri))) (demands_seen demands.new.items) result }
        ensures ids { OnOk result (words_seen last.new ≡ refs_after (written.Iri (rows.ids_seen iri)) (words_seen last.old)) }
        ensures good { AreAsked (earlier_of self.now) (demands_seen demands.new.items) marks.new }
        ensures last { OnOk result (HasLast last.new) }
    {
        let ids = last.after(iri);
        self.filled(demands, marks, Table::Prefix, ids.prefix.id())?;
        self.filled(demands, marks, Table::Name, ids.name.id())?;
        *last = ids;
        Ok(())
    }

    // The end of a literal.
    #[inline(always)]
    fn tail(&self, demands: &mut Vec<Demand>, marks: &mut Marks, tail: RawTail) -> Result<(), Stop>
        requires here { IsHere self.now.here.now }
        requires good { AreAsked (earlier_of self.now) (demands_seen demands.old.items) marks.old }
        requires inside { rows.HasTail self.now.here.now.bytes.now tail }
        ensures asks { Asks (options_of self.now.here.now) (earlier_of self.now) self.now.here.now.place.now (demands_seen demands.old.items)
            (small.tail_demands self.now.here.now.place.now (rows.ending_seen self.now.here.now.bytes.now tail)) (demands_seen demands.new.items) result }
        ensures good { AreAsked (earlier_of self.now) (demands_seen demands.new.items) marks.new }
    {
        match tail {
            RawTail::Simple => Ok(()),
            RawTail::Lang(span) => {
                let at = span.at as usize;
                if is_tag(&self.here.bytes[at..at + span.len as usize]) {
                    Ok(())
                } else {
                    Err(Stop::Fault(Kind::BadLangtag))
                }
            }
            RawTail::Typed(id) => {
                self.filled(demands, marks, Table::Datatype, RelativeId::Given(id))
            }
        }
    }

    // A term that is no triple term, wherever it stands.
    #[inline(always)]
    fn leaf(
        &self,
        demands: &mut Vec<Demand>,
        marks: &mut Marks,
        last: &mut RefWords,
        raw: &RawTerm,
    ) -> Result<(), Stop>
        requires here { IsHere self.now.here.now }
        requires good { AreAsked (earlier_of self.now) (demands_seen demands.old.items) marks.old }
        requires inside { rows.HasTerm self.now.here.now.bytes.now raw.now }
        requires last { HasLast last.old }
        requires leaf { IsLeaf raw.now }
        ensures asks { Asks (options_of self.now.here.now) (earlier_of self.now) self.now.here.now.place.now (demands_seen demands.old.items)
            (small.term_demands self.now.here.now.place.now (words_seen last.old) (rows.term_seen self.now.here.now.bytes.now raw.now)) (demands_seen demands.new.items) result }
        ensures ids { OnOk result (words_seen last.new ≡ refs_after (rows.term_seen self.now.here.now.bytes.now raw.now) (words_seen last.old)) }
        ensures good { AreAsked (earlier_of self.now) (demands_seen demands.new.items) marks.new }
        ensures last { OnOk result (HasLast last.new) }
    {
        if let RawTerm::Iri(iri) = raw {
            return self.iri(demands, marks, last, *iri);
        }
        if let RawTerm::Literal { lex: _, tail } = raw {
            return self.tail(demands, marks, *tail);
        }
        Ok(())
    }

    /// A term that must be set, with the last ids after it.
    #[inline(always)]
    pub fn term(
        &self,
        demands: &mut Vec<Demand>,
        marks: &mut Marks,
        last: &mut RefWords,
        x: Position,
        raw: &RawTerm,
    ) -> Result<(), Stop>
        requires here { IsHere self.now.here.now }
        requires good { AreAsked (earlier_of self.now) (demands_seen demands.old.items) marks.old }
        requires inside { rows.HasTerm self.now.here.now.bytes.now raw.now }
        requires last { HasLast last.old }
        ensures asks { Asks (options_of self.now.here.now) (earlier_of self.now) self.now.here.now.place.now (demands_seen demands.old.items)
            (small.term_demands self.now.here.now.place.now (words_seen last.old) (checked (options_of self.now.here.now) (position_of x) (rows.term_seen self.now.here.now.bytes.now raw.now))) (demands_seen demands.new.items) result }
        ensures same { OnOk result (checked (options_of self.now.here.now) (position_of x) (rows.term_seen self.now.here.now.bytes.now raw.now) ≡ rows.term_seen self.now.here.now.bytes.now raw.now) }
        ensures ids { OnOk result (words_seen last.new ≡ refs_after (rows.term_seen self.now.here.now.bytes.now raw.now) (words_seen last.old)) }
        ensures good { AreAsked (earlier_of self.now) (demands_seen demands.new.items) marks.new }
        ensures last { OnOk result (HasLast last.new) }
    {
        if let RawTerm::Triple(_) = raw {
            // Copies go on, so that for all other terms these stay in registers.
            let (asker, mut ids) = (*self, *last);
            asker.any_term(demands, marks, &mut ids, x, raw)?;
            *last = ids;
            return Ok(());
        }
        self.stands(x, raw)?;
        self.leaf(demands, marks, last, raw)
    }

    // The same, wherever it stands.
    #[cycle(ask)]
    fn any_term(
        &self,
        demands: &mut Vec<Demand>,
        marks: &mut Marks,
        last: &mut RefWords,
        x: Position,
        raw: &RawTerm,
    ) -> Result<(), Stop>
        requires here { IsHere self.now.here.now }
        requires good { AreAsked (earlier_of self.now) (demands_seen demands.old.items) marks.old }
        requires inside { rows.HasTerm self.now.here.now.bytes.now raw.now }
        requires last { HasLast last.old }
        ensures asks { Asks (options_of self.now.here.now) (earlier_of self.now) self.now.here.now.place.now (demands_seen demands.old.items)
            (small.term_demands self.now.here.now.place.now (words_seen last.old) (checked (options_of self.now.here.now) (position_of x) (rows.term_seen self.now.here.now.bytes.now raw.now))) (demands_seen demands.new.items) result }
        ensures same { OnOk result (checked (options_of self.now.here.now) (position_of x) (rows.term_seen self.now.here.now.bytes.now raw.now) ≡ rows.term_seen self.now.here.now.bytes.now raw.now) }
        ensures ids { OnOk result (words_seen last.new ≡ refs_after (rows.term_seen self.now.here.now.bytes.now raw.now) (words_seen last.old)) }
        ensures good { AreAsked (earlier_of self.now) (demands_seen demands.new.items) marks.new }
        ensures last { OnOk result (HasLast last.new) }
    {
        self.stands(x, raw)?;
        let RawTerm::Triple(span) = raw else {
            return self.leaf(demands, marks, last, raw);
        };
        self.three(
            demands,
            marks,
            last,
            &triple_term_at(self.here.bytes, *span),
        )
    }

    // The terms of a triple term that may stand where it does.
    #[cycle(ask)]
    fn three(
        &self,
        demands: &mut Vec<Demand>,
        marks: &mut Marks,
        last: &mut RefWords,
        terms: &RawTriple,
    ) -> Result<(), Stop>
        requires here { IsHere self.now.here.now }
        requires good { AreAsked (earlier_of self.now) (demands_seen demands.old.items) marks.old }
        requires inside { rows.HasTriple self.now.here.now.bytes.now terms.now }
        requires last { HasLast last.old }
        ensures asks { Asks (options_of self.now.here.now) (earlier_of self.now) self.now.here.now.place.now (demands_seen demands.old.items)
            (small.term_demands self.now.here.now.place.now (words_seen last.old) (inner_under self.now.here.now.options.now.strict (options_of self.now.here.now) (rows.nested_seen self.now.here.now.bytes.now terms.now))) (demands_seen demands.new.items) result }
        ensures same { OnOk result (inner_under self.now.here.now.options.now.strict (options_of self.now.here.now) (rows.nested_seen self.now.here.now.bytes.now terms.now) ≡ rows.nested_seen self.now.here.now.bytes.now terms.now) }
        ensures ids { OnOk result (words_seen last.new ≡ refs_after (rows.nested_seen self.now.here.now.bytes.now terms.now) (words_seen last.old)) }
        ensures good { AreAsked (earlier_of self.now) (demands_seen demands.new.items) marks.new }
        ensures last { OnOk result (HasLast last.new) }
    {
        self.inner(demands, marks, last, Position::Subject, &terms.s)?;
        self.inner(demands, marks, last, Position::Predicate, &terms.p)?;
        self.inner(demands, marks, last, Position::Object, &terms.o)
    }

    // A term inside a triple term, which must be set.
    #[cycle(ask)]
    fn inner(
        &self,
        demands: &mut Vec<Demand>,
        marks: &mut Marks,
        last: &mut RefWords,
        x: Position,
        raw: &Option<RawTerm>,
    ) -> Result<(), Stop>
        requires here { IsHere self.now.here.now }
        requires good { AreAsked (earlier_of self.now) (demands_seen demands.old.items) marks.old }
        requires inside { rows.HasPosition self.now.here.now.bytes.now raw.now }
        requires last { HasLast last.old }
        ensures asks { Asks (options_of self.now.here.now) (earlier_of self.now) self.now.here.now.place.now (demands_seen demands.old.items)
            (small.term_demands self.now.here.now.place.now (words_seen last.old) (checked (options_of self.now.here.now) (position_of x) (rows.position_seen self.now.here.now.bytes.now raw.now))) (demands_seen demands.new.items) result }
        ensures same { OnOk result (checked (options_of self.now.here.now) (position_of x) (rows.position_seen self.now.here.now.bytes.now raw.now) ≡ rows.position_seen self.now.here.now.bytes.now raw.now) }
        ensures ids { OnOk result (words_seen last.new ≡ refs_after (rows.position_seen self.now.here.now.bytes.now raw.now) (words_seen last.old)) }
        ensures good { AreAsked (earlier_of self.now) (demands_seen demands.new.items) marks.new }
        ensures last { OnOk result (HasLast last.new) }
    {
        let Some(raw) = raw else {
            return Err(Stop::Fault(Kind::NoTerm));
        };
        self.any_term(demands, marks, last, x, raw)
    }
}
