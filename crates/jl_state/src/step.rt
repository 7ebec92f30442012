//! One row's step from a state.
ghost use Rattle.std.specs.Prelude.{◌≡◌, ◌≤◌, IfErr, IfOk, OnOk, length, true, false, ◌==◌, ◌&&◌, is_none};
ghost use Rattle.std.specs.Option.{option_map};
ghost use Rattle.jl_base.specs.Limits.{most_bytes};
ghost use Rattle.jl_base.specs.Spans.{IsInside, text_of};
ghost use Rattle.jl_rows.specs.Decoder as decoder;
ghost use Rattle.jl_rows.specs.Seen as rows;
ghost use Rattle.jl_rows.specs.Written as written;
ghost use Rattle.jl_state.specs.Steps as steps;
ghost use Rattle.jl_state.specs.Answers.{WantsFor};
ghost use Rattle.jl_state.specs.Lawful.{state_seen, IsLawful, Steps, HasStated};
ghost use Rattle.jl_state.specs.Positions.{has_triple_term, row_under};

use crate::position::Position;
use crate::state::enter;
use crate::tables::Lookup;
use crate::{Extent, State, Stop};
use jl_base::{Kind, Span};
use jl_rows::{GRAPHS, QUADS, RawIri, RawQuad, RawTerm, RawTriple, Row, Table};
use std::alloc::Global;

/// What a row states. A statement's terms are the state's last ones, with its open graph where the file has graphs.
#[derive(Clone, Copy, Debug)]
pub enum Stated {
    Nothing,
    Statement,
    Namespace {
        name: Span,
        prefix: Extent,
        iri: Extent,
    },
}

impl State {
    // An entry of a table.
    #[inline(always)]
    fn enter(&mut self, bytes: &[u8], table: Table, id: u32, text: Span) -> Result<Stated, Stop>
        requires lawful { IsLawful bytes.now self.old }
        requires inside { IsInside bytes.now text }
        requires short { length bytes.now ≤ most_bytes }
        ensures exact { Steps bytes.now (rows.options_seen bytes.now self.old.options)
            (steps.row_step (rows.options_seen bytes.now self.old.options) (written.Entry table id (text_of bytes.now text)) (state_seen bytes.now self.old)) self.new result }
        ensures lawful { OnOk result (IsLawful bytes.now self.new) }
        ensures options { self.new.options ≡ self.old.options }
        ensures stated { IfOk result (HasStated bytes.now) }
        ensures memory { IfErr result (WantsFor false) }
    {
        match table {
            Table::Name => enter(
                &mut self.tables.names,
                &mut self.name_entry,
                bytes,
                id,
                text,
            )?,
            Table::Prefix => enter(
                &mut self.tables.prefixes,
                &mut self.prefix_entry,
                bytes,
                id,
                text,
            )?,
            Table::Datatype => enter(
                &mut self.tables.datatypes,
                &mut self.datatype_entry,
                bytes,
                id,
                text,
            )?,
        }
        Ok(Stated::Nothing)
    }

    // A triple of a GRAPHS file has no graph to stand in.
    fn lacks_graph(&self) -> bool
        ensures { result ≡ ((self.now.options.physical == 3) && is_none self.now.open_graph) }
    {
        self.options.physical == GRAPHS && self.open_graph.is_none()
    }

    // Where STRICT, each term is checked at its position. Rows with terms are compiled twice for it, so that other files
    // have one test a row.
    #[inline(always)]
    fn triple<const STRICT: bool>(
        &mut self,
        alloc: Global,
        bytes: &[u8],
        t: &RawTriple,
    ) -> Result<Stated, Stop>
        requires lawful { IsLawful bytes.now self.old }
        requires inside { rows.HasTriple bytes.now t.now }
        requires form { decoder.is_quads (rows.options_seen bytes.now self.old.options) ≡ false }
        requires short { length bytes.now ≤ most_bytes }
        ensures exact { Steps bytes.now (rows.options_seen bytes.now self.old.options)
            (steps.row_step (rows.options_seen bytes.now self.old.options) (row_under STRICT (rows.options_seen bytes.now self.old.options) (rows.row_seen bytes.now (Row.Triple t.now))) (state_seen bytes.now self.old)) self.new result }
        ensures lawful { OnOk result (IsLawful bytes.now self.new) }
        ensures options { self.new.options ≡ self.old.options }
        ensures stated { IfOk result (HasStated bytes.now) }
        ensures memory { IfErr result (WantsFor (has_triple_term (rows.row_seen bytes.now (Row.Triple t.now)))) }
    {
        if self.lacks_graph() {
            return Err(Stop::Fault(Kind::NoGraph));
        }
        let lookup = Lookup {
            bytes,
            tables: &self.tables,
            options: &self.options,
        };
        lookup.place::<STRICT>(
            alloc,
            Position::Subject,
            &mut self.last,
            &mut self.subject,
            &t.s,
        )?;
        lookup.place::<STRICT>(
            alloc,
            Position::Predicate,
            &mut self.last,
            &mut self.predicate,
            &t.p,
        )?;
        lookup.place::<STRICT>(
            alloc,
            Position::Object,
            &mut self.last,
            &mut self.object,
            &t.o,
        )?;
        Ok(Stated::Statement)
    }

    #[inline(always)]
    fn quad<const STRICT: bool>(
        &mut self,
        alloc: Global,
        bytes: &[u8],
        t: &RawQuad,
    ) -> Result<Stated, Stop>
        requires lawful { IsLawful bytes.now self.old }
        requires inside { rows.HasRow bytes.now (Row.Quad t.now) }
        requires form { decoder.is_quads (rows.options_seen bytes.now self.old.options) ≡ true }
        requires short { length bytes.now ≤ most_bytes }
        ensures exact { Steps bytes.now (rows.options_seen bytes.now self.old.options)
            (steps.row_step (rows.options_seen bytes.now self.old.options) (row_under STRICT (rows.options_seen bytes.now self.old.options) (rows.row_seen bytes.now (Row.Quad t.now))) (state_seen bytes.now self.old)) self.new result }
        ensures lawful { OnOk result (IsLawful bytes.now self.new) }
        ensures options { self.new.options ≡ self.old.options }
        ensures stated { IfOk result (HasStated bytes.now) }
        ensures memory { IfErr result (WantsFor (has_triple_term (rows.row_seen bytes.now (Row.Quad t.now)))) }
    {
        let lookup = Lookup {
            bytes,
            tables: &self.tables,
            options: &self.options,
        };
        lookup.place::<STRICT>(
            alloc,
            Position::Subject,
            &mut self.last,
            &mut self.subject,
            &t.s,
        )?;
        lookup.place::<STRICT>(
            alloc,
            Position::Predicate,
            &mut self.last,
            &mut self.predicate,
            &t.p,
        )?;
        lookup.place::<STRICT>(
            alloc,
            Position::Object,
            &mut self.last,
            &mut self.object,
            &t.o,
        )?;
        lookup.place::<STRICT>(
            alloc,
            Position::Graph,
            &mut self.last,
            &mut self.graph,
            &t.g,
        )?;
        Ok(Stated::Statement)
    }

    fn graph_start<const STRICT: bool>(
        &mut self,
        alloc: Global,
        bytes: &[u8],
        g: Option<RawTerm>,
    ) -> Result<Stated, Stop>
        requires lawful { IsLawful bytes.now self.old }
        requires inside { rows.HasPosition bytes.now g }
        requires short { length bytes.now ≤ most_bytes }
        ensures exact { Steps bytes.now (rows.options_seen bytes.now self.old.options)
            (steps.row_step (rows.options_seen bytes.now self.old.options) (row_under STRICT (rows.options_seen bytes.now self.old.options) (rows.row_seen bytes.now (Row.GraphStart g))) (state_seen bytes.now self.old)) self.new result }
        ensures lawful { OnOk result (IsLawful bytes.now self.new) }
        ensures options { self.new.options ≡ self.old.options }
        ensures stated { IfOk result (HasStated bytes.now) }
        ensures memory { IfErr result (WantsFor (has_triple_term (rows.row_seen bytes.now (Row.GraphStart g)))) }
    {
        if self.open_graph.is_some() {
            return Err(Stop::Fault(Kind::GraphOpen));
        }
        let Some(g) = g else {
            return Err(Stop::Fault(Kind::NoTerm));
        };
        let lookup = Lookup {
            bytes,
            tables: &self.tables,
            options: &self.options,
        };
        let graph = lookup.term::<STRICT>(alloc, Position::Graph, &mut self.last, g)?;
        self.open_graph = Some(graph);
        Ok(Stated::Nothing)
    }

    fn graph_end(&mut self, bytes: &[u8]) -> Result<Stated, Stop>
        requires lawful { IsLawful bytes.now self.old }
        requires short { length bytes.now ≤ most_bytes }
        ensures exact { Steps bytes.now (rows.options_seen bytes.now self.old.options)
            (steps.row_step (rows.options_seen bytes.now self.old.options) written.GraphEnd (state_seen bytes.now self.old)) self.new result }
        ensures lawful { OnOk result (IsLawful bytes.now self.new) }
        ensures options { self.new.options ≡ self.old.options }
        ensures stated { IfOk result (HasStated bytes.now) }
        ensures memory { IfErr result (WantsFor false) }
    {
        if self.open_graph.is_none() {
            return Err(Stop::Fault(Kind::NoGraph));
        }
        self.open_graph = None;
        Ok(Stated::Nothing)
    }

    fn namespace(&mut self, bytes: &[u8], name: Span, iri: Option<RawIri>) -> Result<Stated, Stop>
        requires lawful { IsLawful bytes.now self.old }
        requires inside { IsInside bytes.now name }
        requires short { length bytes.now ≤ most_bytes }
        ensures exact { Steps bytes.now (rows.options_seen bytes.now self.old.options)
            (steps.row_step (rows.options_seen bytes.now self.old.options) (written.Namespace (text_of bytes.now name) (option_map rows.ids_seen iri)) (state_seen bytes.now self.old)) self.new result }
        ensures lawful { OnOk result (IsLawful bytes.now self.new) }
        ensures options { self.new.options ≡ self.old.options }
        ensures stated { IfOk result (HasStated bytes.now) }
        ensures memory { IfErr result (WantsFor false) }
    {
        if self.options.strict && self.options.version == 1 {
            return Err(Stop::Fault(Kind::EarlyNamespace));
        }
        let Some(iri) = iri else {
            return Err(Stop::Fault(Kind::NoTerm));
        };
        let lookup = Lookup {
            bytes,
            tables: &self.tables,
            options: &self.options,
        };
        let ids = self.last.after(iri);
        let (prefix, iri) = lookup.iri(ids)?;
        self.last = ids;
        Ok(Stated::Namespace { name, prefix, iri })
    }

    // The file's physical type doesn't have the row.
    fn is_wrong_row(&self, bytes: &[u8], row: &Row) -> bool
        ensures { result ≡ decoder.is_wrong_row (rows.options_seen bytes.now self.now.options) (rows.row_seen bytes.now row.now) }
    {
        match row {
            Row::Triple(_) => self.options.physical == QUADS,
            Row::Quad(_) => self.options.physical != QUADS,
            Row::GraphStart(_) => self.options.physical != GRAPHS,
            Row::GraphEnd => self.options.physical != GRAPHS,
            Row::Options(_) => false,
            Row::Namespace { .. } => false,
            Row::Entry { .. } => false,
        }
    }

    // Takes one row of any kind.
    #[inline(never)]
    fn step_apart(&mut self, alloc: Global, bytes: &[u8], row: &Row) -> Result<Stated, Stop>
        requires lawful { IsLawful bytes.now self.old }
        requires inside { rows.HasRow bytes.now row.now }
        requires short { length bytes.now ≤ most_bytes }
        ensures exact { Steps bytes.now (rows.options_seen bytes.now self.old.options)
            (steps.step (rows.options_seen bytes.now self.old.options) (rows.row_seen bytes.now row.now) (state_seen bytes.now self.old)) self.new result }
        ensures lawful { OnOk result (IsLawful bytes.now self.new) }
        ensures options { self.new.options ≡ self.old.options }
        ensures stated { IfOk result (HasStated bytes.now) }
        ensures memory { IfErr result (WantsFor (has_triple_term (rows.row_seen bytes.now row.now))) }
    {
        if self.is_wrong_row(bytes, row) {
            return Err(Stop::Fault(Kind::WrongRow));
        }
        match row {
            Row::Options(options) => {
                if self.options.same(bytes, options) {
                    Ok(Stated::Nothing)
                } else {
                    Err(Stop::Fault(Kind::OptionsDiffer))
                }
            }
            Row::Triple(t) if self.options.strict => self.triple::<true>(alloc, bytes, t),
            Row::Triple(t) => self.triple::<false>(alloc, bytes, t),
            Row::Quad(t) if self.options.strict => self.quad::<true>(alloc, bytes, t),
            Row::Quad(t) => self.quad::<false>(alloc, bytes, t),
            Row::GraphStart(g) if self.options.strict => self.graph_start::<true>(alloc, bytes, *g),
            Row::GraphStart(g) => self.graph_start::<false>(alloc, bytes, *g),
            Row::GraphEnd => self.graph_end(bytes),
            Row::Namespace { name, iri } => self.namespace(bytes, *name, *iri),
            Row::Entry { table, id, text } => self.enter(bytes, *table, *id, *text),
        }
    }

    /// Takes one row: what it states, and the state behind it. Only a triple term takes memory, a box for its terms.
    #[inline(always)]
    pub fn step(&mut self, alloc: Global, bytes: &[u8], row: &Row) -> Result<Stated, Stop>
        requires lawful { IsLawful bytes.now self.old }
        requires inside { rows.HasRow bytes.now row.now }
        requires short { length bytes.now ≤ most_bytes }
        ensures exact { Steps bytes.now (rows.options_seen bytes.now self.old.options)
            (steps.step (rows.options_seen bytes.now self.old.options) (rows.row_seen bytes.now row.now) (state_seen bytes.now self.old)) self.new result }
        ensures lawful { OnOk result (IsLawful bytes.now self.new) }
        ensures options { self.new.options ≡ self.old.options }
        ensures stated { IfOk result (HasStated bytes.now) }
        ensures memory { IfErr result (WantsFor (has_triple_term (rows.row_seen bytes.now row.now))) }
    {
        match row {
            Row::Triple(triple) if self.options.physical != QUADS && !self.options.strict => {
                self.triple::<false>(alloc, bytes, triple)
            }
            Row::Quad(quad) if self.options.physical == QUADS && !self.options.strict => {
                self.quad::<false>(alloc, bytes, quad)
            }
            Row::Entry { table, id, text } => self.enter(bytes, *table, *id, *text),
            _ => {
                let stated = self.step_apart(alloc, bytes, row)?;
                Ok(stated)
            }
        }
    }
}
