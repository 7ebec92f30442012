//! Summaries that are being made: what each small step of a row does to them.
ghost use Rattle.std.specs.Prelude.{◌≡◌, ◌+◌, ◌<◌, ◌^◌, ℕ, List, [], Ok, OnOk, false};
ghost use Rattle.jl_rows.specs.Seen as rows;
ghost use Rattle.jl_rows.specs.Values as values;
ghost use Rattle.jl_sym_laws.specs.Cutting.{IsMade};
ghost use Rattle.jl_sym_laws.specs.SmallSteps as small;
ghost use Rattle.jl_sym_laws.specs.Summaries as sums;
ghost use Rattle.jl_sym.specs.Asking.{Grows};
ghost use Rattle.jl_sym.specs.Checked.{checked, options_of, IsHere};
ghost use Rattle.jl_sym.specs.declared.marks.Marks.{Marks};
ghost use Rattle.jl_sym.specs.Growth.{with_never, IsFit};
ghost use Rattle.jl_sym.specs.Held.{HasGrowing, HasKept, HasLeft, HasSummary};
ghost use Rattle.jl_sym.specs.Marking.{is_marked};
ghost use Rattle.jl_sym.specs.Seen.{left_seen, last_seen, growing_seen, summary_seen};

use crate::asker::{Asker, Here};
use crate::demand::{Demand, Kept, Need};
use crate::id_word::RefWords;
use crate::marks::Marks;
use crate::relative_id::RelativeId;
use crate::summary::{Left, Summary, Write};
use jl_base::{Fault, Kind};
use jl_rows::{RawIri, RawTerm};
use jl_state::Stop;
use std::alloc::{AllocError, Global};

/// What the rows so far leave of a thing that is kept: a term stays where its row lies.
#[derive(Clone, Copy, Debug)]
pub(crate) enum Last<'a> {
    Incoming,
    Cleared,
    Set {
        moment: u32,
        before: RefWords,
        term: &'a RawTerm,
    },
}

impl Last<'_> {
    // What a summary keeps of it.
    #[inline]
    fn left(self) -> Left
        ensures seen { (bytes : List ℕ) → left_seen bytes result ≡ last_seen bytes self.entry }
        ensures held { (bytes : List ℕ) → HasKept bytes self.entry → HasLeft bytes result }
    {
        match self {
            Last::Incoming => Left::Incoming,
            Last::Cleared => Left::Cleared,
            Last::Set {
                moment,
                before,
                term,
            } => Left::Set {
                moment,
                before: before.refs(),
                term: *term,
            },
        }
    }
}

// A list with room for so many, where memory is found for that.
fn list_for<T>(alloc: Global, room: usize) -> Vec<T>
    ensures { result.items ≡ [] }
{
    match Vec::with_capacity(alloc, room) {
        Ok(list) => list,
        Err(_) => Vec::new(alloc),
    }
}

/// The summary of the rows so far.
#[derive(Debug, Drop)]
pub(crate) struct Growing<'a> {
    pub rows: u32,
    pub writes: Vec<Write>,
    pub demands: Vec<Demand>,
    pub name_entry: RelativeId,
    pub prefix_entry: RelativeId,
    pub datatype_entry: RelativeId,
    pub ids: RefWords,
    pub subject: Last<'a>,
    pub predicate: Last<'a>,
    pub object: Last<'a>,
    pub graph: Last<'a>,
    pub open_graph: Last<'a>,
}

impl<'a> Growing<'a> {
    /// The summary of no rows, with room for what so many rows are likely to ask and write.
    pub fn new(alloc: Global, rows: usize) -> Growing<'a>
        ensures none { (bytes : List ℕ) → growing_seen bytes result ≡ sums.unit }
        ensures fit { (bytes : List ℕ) → (marks : Marks) → ((need : sums.Need) → is_marked need marks ≡ false) → IsFit bytes result marks }
    {
        Growing {
            rows: 0,
            writes: list_for(alloc, rows / 2),
            demands: list_for(alloc, rows),
            name_entry: RelativeId::After(0),
            prefix_entry: RelativeId::After(0),
            datatype_entry: RelativeId::After(0),
            ids: RefWords::incoming(),
            subject: Last::Incoming,
            predicate: Last::Incoming,
            object: Last::Incoming,
            graph: Last::Incoming,
            open_graph: Last::Incoming,
        }
    }

    /// An IRI that is read for its ids.
    pub fn reads(&mut self, here: &Here<'a>, marks: &mut Marks, iri: RawIri) -> Result<(), Stop>
        requires here { IsHere here.now }
        requires fit { IsFit here.now.bytes.now self.old marks.old }
        ensures grows { Grows (options_of here.now) here.now.place.now (small.small_step (small.Reads (rows.ids_seen iri)))
            (growing_seen here.now.bytes.now self.old) (growing_seen here.now.bytes.now self.new) result }
        ensures fit { IsFit here.now.bytes.now self.new marks.new }
        ensures rows { self.new.rows ≡ self.old.rows }
    {
        let asker = Asker {
            here,
            moment: self.rows,
            writes: &self.writes,
        };
        let mut ids = self.ids;
        asker.iri(&mut self.demands, marks, &mut ids, iri)?;
        self.ids = ids;
        Ok(())
    }

    /// A triple of a GRAPHS file, which stands in a graph.
    pub fn in_graph(&mut self, here: &Here<'a>, marks: &mut Marks) -> Result<(), Stop>
        requires here { IsHere here.now }
        requires fit { IsFit here.now.bytes.now self.old marks.old }
        ensures grows { Grows (options_of here.now) here.now.place.now (small.small_step small.IsInGraph)
            (growing_seen here.now.bytes.now self.old) (growing_seen here.now.bytes.now self.new) result }
        ensures fit { IsFit here.now.bytes.now self.new marks.new }
        ensures rows { self.new.rows ≡ self.old.rows }
    {
        let asker = Asker {
            here,
            moment: self.rows,
            writes: &self.writes,
        };
        asker.has(
            &mut self.demands,
            marks,
            Kind::NoGraph,
            Kept::OpenGraph,
            &self.open_graph,
        )
    }

    /// A graph that is started.
    pub fn opens(
        &mut self,
        here: &Here<'a>,
        marks: &mut Marks,
        raw: &'a Option<RawTerm>,
    ) -> Result<(), Stop>
        requires here { IsHere here.now }
        requires fit { IsFit here.now.bytes.now self.old marks.old }
        requires inside { rows.HasPosition here.now.bytes.now raw.now }
        ensures grows { Grows (options_of here.now) here.now.place.now (small.small_step (small.Opens (checked (options_of here.now) values.Graph (rows.position_seen here.now.bytes.now raw.now))))
            (growing_seen here.now.bytes.now self.old) (growing_seen here.now.bytes.now self.new) result }
        ensures fit { IsFit here.now.bytes.now self.new marks.new }
        ensures rows { self.new.rows ≡ self.old.rows }
    {
        let asker = Asker {
            here,
            moment: self.rows,
            writes: &self.writes,
        };
        asker.start(
            &mut self.demands,
            marks,
            &mut self.ids,
            &mut self.open_graph,
            raw,
        )
    }

    /// A graph that is ended.
    pub fn closes(&mut self, here: &Here<'a>, marks: &mut Marks) -> Result<(), Stop>
        requires here { IsHere here.now }
        requires fit { IsFit here.now.bytes.now self.old marks.old }
        ensures grows { Grows (options_of here.now) here.now.place.now (small.small_step small.Closes)
            (growing_seen here.now.bytes.now self.old) (growing_seen here.now.bytes.now self.new) result }
        ensures fit { IsFit here.now.bytes.now self.new marks.new }
        ensures rows { self.new.rows ≡ self.old.rows }
    {
        let asker = Asker {
            here,
            moment: self.rows,
            writes: &self.writes,
        };
        asker.has(
            &mut self.demands,
            marks,
            Kind::NoGraph,
            Kept::OpenGraph,
            &self.open_graph,
        )?;
        self.open_graph = Last::Cleared;
        Ok(())
    }

    /// The end of a row that is no entry.
    #[inline]
    pub fn end_row(&mut self, here: &Here<'a>, marks: &Marks)
        requires fit { IsFit here.now.bytes.now self.old marks.now }
        requires rows { self.old.rows < 2 ^ 31 }
        ensures grows { Grows (options_of here.now) here.now.place.now (small.small_step small.Ends) (growing_seen here.now.bytes.now self.old) (growing_seen here.now.bytes.now self.new) (Ok tt) }
        ensures fit { IsFit here.now.bytes.now self.new marks.now }
        ensures rows { self.new.rows ≡ self.old.rows + 1 }
    {
        self.rows += 1;
    }

    /// A certain fault after the rows.
    pub fn refuse(&mut self, bytes: &[u8], fault: Fault) -> Result<(), AllocError>
        requires made { IsMade (growing_seen bytes.now self.old) }
        requires held { HasGrowing bytes.now self.old }
        ensures never { OnOk result (growing_seen bytes.now self.new ≡ with_never (growing_seen bytes.now self.old) fault) }
        ensures made { OnOk result (IsMade (growing_seen bytes.now self.new)) }
        ensures held { OnOk result (HasGrowing bytes.now self.new) }
        ensures rows { self.new.rows ≡ self.old.rows }
    {
        self.demands.push(Demand {
            moment: self.rows,
            fault,
            need: Need::Never,
        })?;
        Ok(())
    }

    /// The summary of all rows.
    pub fn finish(self) -> Summary
        ensures seen { (bytes : List ℕ) → summary_seen bytes result ≡ growing_seen bytes self.entry }
        ensures held { (bytes : List ℕ) → HasGrowing bytes self.entry → HasSummary bytes result }
        ensures rows { result.rows ≡ self.entry.rows }
    {
        Summary {
            rows: self.rows,
            writes: self.writes,
            demands: self.demands,
            name_entry: self.name_entry,
            prefix_entry: self.prefix_entry,
            datatype_entry: self.datatype_entry,
            ids: self.ids.refs(),
            subject: self.subject.left(),
            predicate: self.predicate.left(),
            object: self.object.left(),
            graph: self.graph.left(),
            open_graph: self.open_graph.left(),
        }
    }
}
