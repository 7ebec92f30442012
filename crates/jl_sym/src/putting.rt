//! The terms of a statement in a summary that is being made.
ghost use Rattle.std.specs.Prelude.{◌≡◌};
ghost use Rattle.jl_rows.specs.Seen as rows;
ghost use Rattle.jl_rows.specs.Values as values;
ghost use Rattle.jl_sym.specs.Asking.{Grows};
ghost use Rattle.jl_sym.specs.Checked.{options_of, IsHere};
ghost use Rattle.jl_sym.specs.Growth.{IsFit};
ghost use Rattle.jl_sym.specs.RowSteps.{puts};
ghost use Rattle.jl_sym.specs.Seen.{growing_seen};

use crate::asker::{Asker, Here};
use crate::growing::{Growing, Last};
use crate::marks::Marks;
use jl_rows::RawTerm;
use jl_state::{Position, Stop};

// Whether a term takes a way of its own: a triple term, or one that no row of the run wrote at this position. All others are
// quicker with that way apart.
#[inline(always)]
fn is_rare(left: &Last<'_>, raw: &Option<RawTerm>) -> bool {
    match raw {
        Some(RawTerm::Triple(_)) => true,
        Some(_) => false,
        None => match left {
            Last::Set { .. } => false,
            _ => true,
        },
    }
}

impl<'a> Growing<'a> {
    // Any subject; it stands apart, for the rare ones.
    #[inline(never)]
    fn put_subject_later(
        &mut self,
        here: &Here<'a>,
        marks: &mut Marks,
        raw: &'a Option<RawTerm>,
    ) -> Result<(), Stop>
        requires here { IsHere here.now }
        requires fit { IsFit here.now.bytes.now self.old marks.old }
        requires inside { rows.HasPosition here.now.bytes.now raw.now }
        ensures grows { Grows (options_of here.now) here.now.place.now (puts (options_of here.now) values.Subject (rows.position_seen here.now.bytes.now raw.now)) (growing_seen here.now.bytes.now self.old) (growing_seen here.now.bytes.now self.new) result }
        ensures fit { IsFit here.now.bytes.now self.new marks.new }
        ensures rows { self.new.rows ≡ self.old.rows }
    {
        let asker = Asker {
            here,
            moment: self.rows,
            writes: &self.writes,
        };
        let (demands, ids) = (&mut self.demands, &mut self.ids);
        asker.place(
            demands,
            marks,
            ids,
            Position::Subject,
            &mut self.subject,
            raw,
        )
    }

    /// The subject of a statement.
    #[inline(always)]
    pub fn put_subject(
        &mut self,
        here: &Here<'a>,
        marks: &mut Marks,
        raw: &'a Option<RawTerm>,
    ) -> Result<(), Stop>
        requires here { IsHere here.now }
        requires fit { IsFit here.now.bytes.now self.old marks.old }
        requires inside { rows.HasPosition here.now.bytes.now raw.now }
        ensures grows { Grows (options_of here.now) here.now.place.now (puts (options_of here.now) values.Subject (rows.position_seen here.now.bytes.now raw.now)) (growing_seen here.now.bytes.now self.old) (growing_seen here.now.bytes.now self.new) result }
        ensures fit { IsFit here.now.bytes.now self.new marks.new }
        ensures rows { self.new.rows ≡ self.old.rows }
    {
        if is_rare(&self.subject, raw) {
            return self.put_subject_later(here, marks, raw);
        }
        let asker = Asker {
            here,
            moment: self.rows,
            writes: &self.writes,
        };
        let (demands, ids) = (&mut self.demands, &mut self.ids);
        asker.place(
            demands,
            marks,
            ids,
            Position::Subject,
            &mut self.subject,
            raw,
        )
    }

    // Any predicate; it stands apart, for the rare ones.
    #[inline(never)]
    fn put_predicate_later(
        &mut self,
        here: &Here<'a>,
        marks: &mut Marks,
        raw: &'a Option<RawTerm>,
    ) -> Result<(), Stop>
        requires here { IsHere here.now }
        requires fit { IsFit here.now.bytes.now self.old marks.old }
        requires inside { rows.HasPosition here.now.bytes.now raw.now }
        ensures grows { Grows (options_of here.now) here.now.place.now (puts (options_of here.now) values.Predicate (rows.position_seen here.now.bytes.now raw.now)) (growing_seen here.now.bytes.now self.old) (growing_seen here.now.bytes.now self.new) result }
        ensures fit { IsFit here.now.bytes.now self.new marks.new }
        ensures rows { self.new.rows ≡ self.old.rows }
    {
        let asker = Asker {
            here,
            moment: self.rows,
            writes: &self.writes,
        };
        let (demands, ids) = (&mut self.demands, &mut self.ids);
        asker.place(
            demands,
            marks,
            ids,
            Position::Predicate,
            &mut self.predicate,
            raw,
        )
    }

    /// Its predicate.
    #[inline(always)]
    pub fn put_predicate(
        &mut self,
        here: &Here<'a>,
        marks: &mut Marks,
        raw: &'a Option<RawTerm>,
    ) -> Result<(), Stop>
        requires here { IsHere here.now }
        requires fit { IsFit here.now.bytes.now self.old marks.old }
        requires inside { rows.HasPosition here.now.bytes.now raw.now }
        ensures grows { Grows (options_of here.now) here.now.place.now (puts (options_of here.now) values.Predicate (rows.position_seen here.now.bytes.now raw.now)) (growing_seen here.now.bytes.now self.old) (growing_seen here.now.bytes.now self.new) result }
        ensures fit { IsFit here.now.bytes.now self.new marks.new }
        ensures rows { self.new.rows ≡ self.old.rows }
    {
        if is_rare(&self.predicate, raw) {
            return self.put_predicate_later(here, marks, raw);
        }
        let asker = Asker {
            here,
            moment: self.rows,
            writes: &self.writes,
        };
        let (demands, ids) = (&mut self.demands, &mut self.ids);
        asker.place(
            demands,
            marks,
            ids,
            Position::Predicate,
            &mut self.predicate,
            raw,
        )
    }

    // Any object; it stands apart, for the rare ones.
    #[inline(never)]
    fn put_object_later(
        &mut self,
        here: &Here<'a>,
        marks: &mut Marks,
        raw: &'a Option<RawTerm>,
    ) -> Result<(), Stop>
        requires here { IsHere here.now }
        requires fit { IsFit here.now.bytes.now self.old marks.old }
        requires inside { rows.HasPosition here.now.bytes.now raw.now }
        ensures grows { Grows (options_of here.now) here.now.place.now (puts (options_of here.now) values.Object (rows.position_seen here.now.bytes.now raw.now)) (growing_seen here.now.bytes.now self.old) (growing_seen here.now.bytes.now self.new) result }
        ensures fit { IsFit here.now.bytes.now self.new marks.new }
        ensures rows { self.new.rows ≡ self.old.rows }
    {
        let asker = Asker {
            here,
            moment: self.rows,
            writes: &self.writes,
        };
        let (demands, ids) = (&mut self.demands, &mut self.ids);
        asker.place(demands, marks, ids, Position::Object, &mut self.object, raw)
    }

    /// Its object.
    #[inline(always)]
    pub fn put_object(
        &mut self,
        here: &Here<'a>,
        marks: &mut Marks,
        raw: &'a Option<RawTerm>,
    ) -> Result<(), Stop>
        requires here { IsHere here.now }
        requires fit { IsFit here.now.bytes.now self.old marks.old }
        requires inside { rows.HasPosition here.now.bytes.now raw.now }
        ensures grows { Grows (options_of here.now) here.now.place.now (puts (options_of here.now) values.Object (rows.position_seen here.now.bytes.now raw.now)) (growing_seen here.now.bytes.now self.old) (growing_seen here.now.bytes.now self.new) result }
        ensures fit { IsFit here.now.bytes.now self.new marks.new }
        ensures rows { self.new.rows ≡ self.old.rows }
    {
        if is_rare(&self.object, raw) {
            return self.put_object_later(here, marks, raw);
        }
        let asker = Asker {
            here,
            moment: self.rows,
            writes: &self.writes,
        };
        let (demands, ids) = (&mut self.demands, &mut self.ids);
        asker.place(demands, marks, ids, Position::Object, &mut self.object, raw)
    }

    // Any graph; it stands apart, for the rare ones.
    #[inline(never)]
    fn put_graph_later(
        &mut self,
        here: &Here<'a>,
        marks: &mut Marks,
        raw: &'a Option<RawTerm>,
    ) -> Result<(), Stop>
        requires here { IsHere here.now }
        requires fit { IsFit here.now.bytes.now self.old marks.old }
        requires inside { rows.HasPosition here.now.bytes.now raw.now }
        ensures grows { Grows (options_of here.now) here.now.place.now (puts (options_of here.now) values.Graph (rows.position_seen here.now.bytes.now raw.now)) (growing_seen here.now.bytes.now self.old) (growing_seen here.now.bytes.now self.new) result }
        ensures fit { IsFit here.now.bytes.now self.new marks.new }
        ensures rows { self.new.rows ≡ self.old.rows }
    {
        let asker = Asker {
            here,
            moment: self.rows,
            writes: &self.writes,
        };
        let (demands, ids) = (&mut self.demands, &mut self.ids);
        asker.place(demands, marks, ids, Position::Graph, &mut self.graph, raw)
    }

    /// The graph of a quad.
    #[inline(always)]
    pub fn put_graph(
        &mut self,
        here: &Here<'a>,
        marks: &mut Marks,
        raw: &'a Option<RawTerm>,
    ) -> Result<(), Stop>
        requires here { IsHere here.now }
        requires fit { IsFit here.now.bytes.now self.old marks.old }
        requires inside { rows.HasPosition here.now.bytes.now raw.now }
        ensures grows { Grows (options_of here.now) here.now.place.now (puts (options_of here.now) values.Graph (rows.position_seen here.now.bytes.now raw.now)) (growing_seen here.now.bytes.now self.old) (growing_seen here.now.bytes.now self.new) result }
        ensures fit { IsFit here.now.bytes.now self.new marks.new }
        ensures rows { self.new.rows ≡ self.old.rows }
    {
        if is_rare(&self.graph, raw) {
            return self.put_graph_later(here, marks, raw);
        }
        let asker = Asker {
            here,
            moment: self.rows,
            writes: &self.writes,
        };
        let (demands, ids) = (&mut self.demands, &mut self.ids);
        asker.place(demands, marks, ids, Position::Graph, &mut self.graph, raw)
    }
}
