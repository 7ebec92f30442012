//! What a row asks of the things that a state keeps, and what it leaves of them.
ghost use Rattle.std.specs.Prelude.{◌≡◌, ◌++◌, OnOk, OnErr};
ghost use Rattle.jl_rows.specs.Seen as rows;
ghost use Rattle.jl_rows.specs.Values as values;
ghost use Rattle.jl_state.specs.Positions.{position_of};
ghost use Rattle.jl_sym_laws.specs.Composing.{has_left, lacks_left};
ghost use Rattle.jl_sym_laws.specs.RelativeIds.{refs_after};
ghost use Rattle.jl_sym_laws.specs.SmallSteps as small;
ghost use Rattle.jl_sym_laws.specs.Summaries as sums;
ghost use Rattle.jl_sym.specs.Asking.{Asks, perhaps, place_demands};
ghost use Rattle.jl_sym.specs.Checked.{checked, earlier_of, options_of, IsHere};
ghost use Rattle.jl_sym.specs.Held.{HasKept};
ghost use Rattle.jl_sym.specs.Lays.{laid, set_left};
ghost use Rattle.jl_sym.specs.Marking.{AreAsked};
ghost use Rattle.jl_sym.specs.Seen.{words_seen, kept_seen, last_seen, demands_seen, HasLast};

use crate::asker::Asker;
use crate::demand::{Demand, Kept, Need};
use crate::growing::Last;
use crate::id_word::RefWords;
use crate::marks::Marks;
use jl_base::Kind;
use jl_rows::RawTerm;
use jl_state::{Position, Stop};

impl Asker<'_, '_> {
    /// What is kept must be there, unless the run set it.
    #[inline]
    pub fn has<'a>(
        &self,
        demands: &mut Vec<Demand>,
        marks: &mut Marks,
        kind: Kind,
        kept: Kept,
        left: &Last<'a>,
    ) -> Result<(), Stop>
        requires good { AreAsked (earlier_of self.now) (demands_seen demands.old.items) marks.old }
        ensures asks { Asks (options_of self.now.here.now) (earlier_of self.now) self.now.here.now.place.now (demands_seen demands.old.items)
            (perhaps self.now.here.now.place.now kind (has_left (kept_seen kept) (last_seen self.now.here.now.bytes.now left.now))) (demands_seen demands.new.items) result }
        ensures good { AreAsked (earlier_of self.now) (demands_seen demands.new.items) marks.new }
    {
        match left {
            Last::Incoming => {
                let asker = *self;
                asker.ask(demands, marks, kind, Need::Has(kept))
            }
            Last::Cleared => Err(Stop::Fault(kind)),
            Last::Set { .. } => Ok(()),
        }
    }

    // No graph may be open.
    #[inline]
    fn lacks_graph<'a>(
        &self,
        demands: &mut Vec<Demand>,
        marks: &mut Marks,
        left: &Last<'a>,
    ) -> Result<(), Stop>
        requires good { AreAsked (earlier_of self.now) (demands_seen demands.old.items) marks.old }
        ensures asks { Asks (options_of self.now.here.now) (earlier_of self.now) self.now.here.now.place.now (demands_seen demands.old.items)
            (perhaps self.now.here.now.place.now Kind.GraphOpen (lacks_left sums.OpenGraph (last_seen self.now.here.now.bytes.now left.now))) (demands_seen demands.new.items) result }
        ensures good { AreAsked (earlier_of self.now) (demands_seen demands.new.items) marks.new }
    {
        match left {
            Last::Incoming => self.ask(
                demands,
                marks,
                Kind::GraphOpen,
                Need::Lacks(Kept::OpenGraph),
            ),
            Last::Cleared => Ok(()),
            Last::Set { .. } => Err(Stop::Fault(Kind::GraphOpen)),
        }
    }

    // A term that is set where a run leaves it, with the last ids after it.
    #[inline(always)]
    fn set<'a>(
        &self,
        demands: &mut Vec<Demand>,
        marks: &mut Marks,
        last: &mut RefWords,
        x: Position,
        left: &mut Last<'a>,
        raw: &'a RawTerm,
    ) -> Result<(), Stop>
        requires here { IsHere self.now.here.now }
        requires good { AreAsked (earlier_of self.now) (demands_seen demands.old.items) marks.old }
        requires inside { rows.HasTerm self.now.here.now.bytes.now raw.now }
        requires last { HasLast last.old }
        ensures asks { Asks (options_of self.now.here.now) (earlier_of self.now) self.now.here.now.place.now (demands_seen demands.old.items)
            (small.term_demands self.now.here.now.place.now (words_seen last.old) (checked (options_of self.now.here.now) (position_of x) (rows.term_seen self.now.here.now.bytes.now raw.now))) (demands_seen demands.new.items) result }
        ensures ids { OnOk result (words_seen last.new ≡ refs_after (checked (options_of self.now.here.now) (position_of x) (rows.term_seen self.now.here.now.bytes.now raw.now)) (words_seen last.old)) }
        ensures left { OnOk result (last_seen self.now.here.now.bytes.now left.new ≡ set_left self.now.moment (words_seen last.old) (checked (options_of self.now.here.now) (position_of x) (rows.term_seen self.now.here.now.bytes.now raw.now))) }
        ensures plain { OnOk result (checked (options_of self.now.here.now) (position_of x) (rows.term_seen self.now.here.now.bytes.now raw.now) ≡ rows.term_seen self.now.here.now.bytes.now raw.now) }
        ensures same { OnErr result ((last.new ≡ last.old) × (left.new ≡ left.old)) }
        ensures good { AreAsked (earlier_of self.now) (demands_seen demands.new.items) marks.new }
        ensures held { OnOk result (HasKept self.now.here.now.bytes.now left.new) }
        ensures last { OnOk result (HasLast last.new) }
    {
        let mut ids = *last;
        self.term(demands, marks, &mut ids, x, raw)?;
        *left = Last::Set {
            moment: self.moment,
            before: *last,
            term: raw,
        };
        *last = ids;
        Ok(())
    }

    /// A term at a position: the row's own, or the last one there again.
    #[inline(always)]
    pub fn place<'a>(
        &self,
        demands: &mut Vec<Demand>,
        marks: &mut Marks,
        last: &mut RefWords,
        x: Position,
        left: &mut Last<'a>,
        raw: &'a Option<RawTerm>,
    ) -> Result<(), Stop>
        requires here { IsHere self.now.here.now }
        requires good { AreAsked (earlier_of self.now) (demands_seen demands.old.items) marks.old }
        requires inside { rows.HasPosition self.now.here.now.bytes.now raw.now }
        requires held { HasKept self.now.here.now.bytes.now left.old }
        requires last { HasLast last.old }
        ensures asks { Asks (options_of self.now.here.now) (earlier_of self.now) self.now.here.now.place.now (demands_seen demands.old.items)
            (place_demands self.now.here.now.place.now (sums.LastAt (position_of x)) (last_seen self.now.here.now.bytes.now left.old) (words_seen last.old) (checked (options_of self.now.here.now) (position_of x) (rows.position_seen self.now.here.now.bytes.now raw.now))) (demands_seen demands.new.items) result }
        ensures ids { OnOk result (words_seen last.new ≡ refs_after (checked (options_of self.now.here.now) (position_of x) (rows.position_seen self.now.here.now.bytes.now raw.now)) (words_seen last.old)) }
        ensures left { OnOk result (last_seen self.now.here.now.bytes.now left.new ≡ laid self.now.moment (words_seen last.old) (checked (options_of self.now.here.now) (position_of x) (rows.position_seen self.now.here.now.bytes.now raw.now)) (last_seen self.now.here.now.bytes.now left.old)) }
        ensures same { OnErr result ((last.new ≡ last.old) × (left.new ≡ left.old)) }
        ensures good { AreAsked (earlier_of self.now) (demands_seen demands.new.items) marks.new }
        ensures held { OnOk result (HasKept self.now.here.now.bytes.now left.new) }
        ensures last { OnOk result (HasLast last.new) }
    {
        let Some(raw) = raw else {
            return self.has(demands, marks, Kind::NoTerm, Kept::LastAt(x), left);
        };
        self.set(demands, marks, last, x, left, raw)
    }

    /// A graph that is started.
    #[inline]
    pub fn start<'a>(
        &self,
        demands: &mut Vec<Demand>,
        marks: &mut Marks,
        last: &mut RefWords,
        left: &mut Last<'a>,
        raw: &'a Option<RawTerm>,
    ) -> Result<(), Stop>
        requires here { IsHere self.now.here.now }
        requires good { AreAsked (earlier_of self.now) (demands_seen demands.old.items) marks.old }
        requires inside { rows.HasPosition self.now.here.now.bytes.now raw.now }
        requires last { HasLast last.old }
        ensures asks { Asks (options_of self.now.here.now) (earlier_of self.now) self.now.here.now.place.now (demands_seen demands.old.items)
            (perhaps self.now.here.now.place.now Kind.GraphOpen (lacks_left sums.OpenGraph (last_seen self.now.here.now.bytes.now left.old))
            ++ small.term_demands self.now.here.now.place.now (words_seen last.old) (checked (options_of self.now.here.now) values.Graph (rows.position_seen self.now.here.now.bytes.now raw.now))) (demands_seen demands.new.items) result }
        ensures ids { OnOk result (words_seen last.new ≡ refs_after (checked (options_of self.now.here.now) values.Graph (rows.position_seen self.now.here.now.bytes.now raw.now)) (words_seen last.old)) }
        ensures left { OnOk result (last_seen self.now.here.now.bytes.now left.new ≡ set_left self.now.moment (words_seen last.old) (checked (options_of self.now.here.now) values.Graph (rows.position_seen self.now.here.now.bytes.now raw.now))) }
        ensures same { OnErr result ((last.new ≡ last.old) × (left.new ≡ left.old)) }
        ensures good { AreAsked (earlier_of self.now) (demands_seen demands.new.items) marks.new }
        ensures held { OnOk result (HasKept self.now.here.now.bytes.now left.new) }
        ensures last { OnOk result (HasLast last.new) }
    {
        self.lacks_graph(demands, marks, left)?;
        let Some(raw) = raw else {
            return Err(Stop::Fault(Kind::NoTerm));
        };
        self.set(demands, marks, last, Position::Graph, left, raw)
    }
}
