//! Rows in a summary, each by its small steps.
ghost use Rattle.std.specs.Prelude.{◌≡◌, ◌+◌, ◌<◌, ◌≤◌, ◌^◌, ℕ, List, true, false};
ghost use Rattle.std.specs.Option.{option_map};
ghost use Rattle.jl_base.specs.Spans.{IsInside};
ghost use Rattle.jl_rows.specs.Decoder as decoder;
ghost use Rattle.jl_rows.specs.Seen as rows;
ghost use Rattle.jl_rows.specs.Written as written;
ghost use Rattle.jl_state.specs.Steps.{step};
ghost use Rattle.jl_state.specs.Running.{state_of};
ghost use Rattle.jl_sym.specs.Asking.{Grows};
ghost use Rattle.jl_sym.specs.Checked.{options_of, IsHere};
ghost use Rattle.jl_sym.specs.Growth.{IsFit};
ghost use Rattle.jl_sym.specs.RowSteps.{three_on, inside_on, four_on, start_on, end_on};
ghost use Rattle.jl_sym.specs.Seen.{growing_seen};

use crate::asker::Here;
use crate::growing::Growing;
use crate::marks::Marks;
use jl_base::Kind;
use jl_rows::{GRAPHS, Options, QUADS, RawIri, RawQuad, RawTerm, RawTriple, Row};
use jl_state::Stop;

// The file's physical type doesn't have the row.
fn is_wrong_row(bytes: &[u8], options: &Options, row: &Row) -> bool
    ensures { result ≡ decoder.is_wrong_row (rows.options_seen bytes.now options.now) (rows.row_seen bytes.now row.now) }
{
    match row {
        Row::Triple(_) => options.physical == QUADS,
        Row::Quad(_) => options.physical != QUADS,
        Row::GraphStart(_) => options.physical != GRAPHS,
        Row::GraphEnd => options.physical != GRAPHS,
        Row::Options(_) => false,
        Row::Namespace { .. } => false,
        Row::Entry { .. } => false,
    }
}

impl<'a> Growing<'a> {
    // A triple outside of graphs.
    #[inline(always)]
    fn triple(&mut self, here: &Here<'a>, marks: &mut Marks, t: &'a RawTriple) -> Result<(), Stop>
        requires here { IsHere here.now }
        requires fit { IsFit here.now.bytes.now self.old marks.old }
        requires rows { self.old.rows < 2 ^ 31 }
        requires inside { rows.HasTriple here.now.bytes.now t.now }
        ensures grows { Grows (options_of here.now) here.now.place.now (three_on (options_of here.now) (rows.position_seen here.now.bytes.now t.now.s) (rows.position_seen here.now.bytes.now t.now.p) (rows.position_seen here.now.bytes.now t.now.o))
            (growing_seen here.now.bytes.now self.old) (growing_seen here.now.bytes.now self.new) result }
        ensures fit { IsFit here.now.bytes.now self.new marks.new }
        ensures rows { self.new.rows ≤ self.old.rows + 1 }
    {
        self.put_subject(here, marks, &t.s)?;
        self.put_predicate(here, marks, &t.p)?;
        self.put_object(here, marks, &t.o)?;
        self.end_row(here, marks);
        Ok(())
    }

    // A triple of a GRAPHS file.
    fn triple_inside(
        &mut self,
        here: &Here<'a>,
        marks: &mut Marks,
        t: &'a RawTriple,
    ) -> Result<(), Stop>
        requires here { IsHere here.now }
        requires fit { IsFit here.now.bytes.now self.old marks.old }
        requires rows { self.old.rows < 2 ^ 31 }
        requires inside { rows.HasTriple here.now.bytes.now t.now }
        ensures grows { Grows (options_of here.now) here.now.place.now (inside_on (options_of here.now) (rows.position_seen here.now.bytes.now t.now.s) (rows.position_seen here.now.bytes.now t.now.p) (rows.position_seen here.now.bytes.now t.now.o))
            (growing_seen here.now.bytes.now self.old) (growing_seen here.now.bytes.now self.new) result }
        ensures fit { IsFit here.now.bytes.now self.new marks.new }
        ensures rows { self.new.rows ≤ self.old.rows + 1 }
    {
        self.in_graph(here, marks)?;
        self.triple(here, marks, t)
    }

    fn quad(&mut self, here: &Here<'a>, marks: &mut Marks, t: &'a RawQuad) -> Result<(), Stop>
        requires here { IsHere here.now }
        requires fit { IsFit here.now.bytes.now self.old marks.old }
        requires rows { self.old.rows < 2 ^ 31 }
        requires inside { rows.HasRow here.now.bytes.now (Row.Quad t.now) }
        ensures grows { Grows (options_of here.now) here.now.place.now (four_on (options_of here.now) (rows.position_seen here.now.bytes.now t.now.s) (rows.position_seen here.now.bytes.now t.now.p) (rows.position_seen here.now.bytes.now t.now.o) (rows.position_seen here.now.bytes.now t.now.g))
            (growing_seen here.now.bytes.now self.old) (growing_seen here.now.bytes.now self.new) result }
        ensures fit { IsFit here.now.bytes.now self.new marks.new }
        ensures rows { self.new.rows ≤ self.old.rows + 1 }
    {
        self.put_subject(here, marks, &t.s)?;
        self.put_predicate(here, marks, &t.p)?;
        self.put_object(here, marks, &t.o)?;
        self.put_graph(here, marks, &t.g)?;
        self.end_row(here, marks);
        Ok(())
    }

    fn graph_start(
        &mut self,
        here: &Here<'a>,
        marks: &mut Marks,
        g: &'a Option<RawTerm>,
    ) -> Result<(), Stop>
        requires here { IsHere here.now }
        requires fit { IsFit here.now.bytes.now self.old marks.old }
        requires rows { self.old.rows < 2 ^ 31 }
        requires inside { rows.HasPosition here.now.bytes.now g.now }
        ensures grows { Grows (options_of here.now) here.now.place.now (start_on (options_of here.now) (rows.position_seen here.now.bytes.now g.now))
            (growing_seen here.now.bytes.now self.old) (growing_seen here.now.bytes.now self.new) result }
        ensures fit { IsFit here.now.bytes.now self.new marks.new }
        ensures rows { self.new.rows ≤ self.old.rows + 1 }
    {
        self.opens(here, marks, g)?;
        self.end_row(here, marks);
        Ok(())
    }

    fn graph_end(&mut self, here: &Here<'a>, marks: &mut Marks) -> Result<(), Stop>
        requires here { IsHere here.now }
        requires fit { IsFit here.now.bytes.now self.old marks.old }
        requires rows { self.old.rows < 2 ^ 31 }
        ensures grows { Grows (options_of here.now) here.now.place.now end_on (growing_seen here.now.bytes.now self.old) (growing_seen here.now.bytes.now self.new) result }
        ensures fit { IsFit here.now.bytes.now self.new marks.new }
        ensures rows { self.new.rows ≤ self.old.rows + 1 }
    {
        self.closes(here, marks)?;
        self.end_row(here, marks);
        Ok(())
    }

    // The declaration of a namespace.
    fn namespace(
        &mut self,
        here: &Here<'a>,
        marks: &mut Marks,
        iri: Option<RawIri>,
    ) -> Result<(), Stop>
        requires here { IsHere here.now }
        requires fit { IsFit here.now.bytes.now self.old marks.old }
        requires rows { self.old.rows < 2 ^ 31 }
        ensures grows { (name : List ℕ) → Grows (options_of here.now) here.now.place.now (λ s. state_of (step (options_of here.now) (written.Namespace name (option_map rows.ids_seen iri)) s))
            (growing_seen here.now.bytes.now self.old) (growing_seen here.now.bytes.now self.new) result }
        ensures fit { IsFit here.now.bytes.now self.new marks.new }
        ensures rows { self.new.rows ≤ self.old.rows + 1 }
    {
        if here.options.strict && here.options.version == 1 {
            return Err(Stop::Fault(Kind::EarlyNamespace));
        }
        let Some(iri) = iri else {
            return Err(Stop::Fault(Kind::NoTerm));
        };
        self.reads(here, marks, iri)?;
        self.end_row(here, marks);
        Ok(())
    }

    // A later options row.
    fn options_row(&mut self, here: &Here<'a>, marks: &Marks, found: &Options) -> Result<(), Stop>
        requires here { IsHere here.now }
        requires fit { IsFit here.now.bytes.now self.old marks.now }
        requires rows { self.old.rows < 2 ^ 31 }
        requires inside { IsInside here.now.bytes.now found.now.stream_name }
        ensures grows { Grows (options_of here.now) here.now.place.now (λ s. state_of (step (options_of here.now) (written.Options (rows.options_seen here.now.bytes.now found.now)) s))
            (growing_seen here.now.bytes.now self.old) (growing_seen here.now.bytes.now self.new) result }
        ensures fit { IsFit here.now.bytes.now self.new marks.now }
        ensures rows { self.new.rows ≤ self.old.rows + 1 }
    {
        if !here.options.same(here.bytes, found) {
            return Err(Stop::Fault(Kind::OptionsDiffer));
        }
        self.end_row(here, marks);
        Ok(())
    }

    /// One more row.
    pub fn row(&mut self, here: &Here<'a>, marks: &mut Marks, row: &'a Row) -> Result<(), Stop>
        requires here { IsHere here.now }
        requires fit { IsFit here.now.bytes.now self.old marks.old }
        requires rows { self.old.rows < 2 ^ 31 }
        requires inside { rows.HasRow here.now.bytes.now row.now }
        ensures grows { Grows (options_of here.now) here.now.place.now (λ s. state_of (step (options_of here.now) (rows.row_seen here.now.bytes.now row.now) s))
            (growing_seen here.now.bytes.now self.old) (growing_seen here.now.bytes.now self.new) result }
        ensures fit { IsFit here.now.bytes.now self.new marks.new }
        ensures rows { self.new.rows ≤ self.old.rows + 1 }
    {
        if is_wrong_row(here.bytes, here.options, row) {
            return Err(Stop::Fault(Kind::WrongRow));
        }
        match row {
            Row::Options(found) => self.options_row(here, marks, found),
            Row::Triple(t) => {
                if here.options.physical == GRAPHS {
                    return self.triple_inside(here, marks, t);
                }
                self.triple(here, marks, t)
            }
            Row::Quad(t) => self.quad(here, marks, t),
            Row::GraphStart(g) => self.graph_start(here, marks, g),
            Row::GraphEnd => self.graph_end(here, marks),
            Row::Namespace { name: _, iri } => self.namespace(here, marks, *iri),
            Row::Entry { table, id, text } => self.entry(here, marks, *table, *id, *text),
        }
    }
}
