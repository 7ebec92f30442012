//! The lines that were written and not given yet.
ghost use Rattle.std.specs.Prelude.{◌≡◌, [], ◌++◌, IsTrue, OnOk, length};
ghost use Rattle.jl_base.specs.Spans.{IsInside, text_of};
ghost use Rattle.jl_base.specs.Terms.{Namespace};
ghost use Rattle.jl_text.specs.Line.{line};
ghost use Rattle.jl_rows.specs.Seen.{options_seen};
ghost use Rattle.jl_state.specs.Extents.{text_in, IsSound};
ghost use Rattle.jl_state.specs.Lawful.{maybe_value, state_seen, statement_of, IsLawful};
ghost use Rattle.jl_lines.specs.Pages.{IsStill, KeepsNone};

use crate::line::{Line, Repeats};
use crate::statement::{put_aside, put_statement};
use jl_base::Span;
use jl_state::{Extent, State};
use jl_text::push_namespace;
use std::alloc::{AllocError, Global};
use std::marker::Model;

/// Lines, and behind them room that was filled ahead, so that a term is placed with one test.
#[derive(Debug, Drop)]
pub struct Page {
    bytes: Vec<u8>,
    last: Line,
    // What isn't placed is written here first.
    aside: Vec<u8>,
}

impl Model for Page {
    ghost use Rattle.std.specs.Prelude.{length, slice_range, take};
    ghost use Rattle.jl_lines.specs.Pages.{Paged, paged_coded, IsOrdered};

    ghost Value = { Paged };

    ghost coded = { paged_coded };

    ghost view = { λ p. record { lines = take p.last.end p.bytes.items; subject = slice_range p.bytes.items p.last.start p.last.subject; predicate = slice_range p.bytes.items p.last.subject p.last.predicate; object = slice_range p.bytes.items p.last.predicate p.last.object } };

    ghost invariant = { λ p. IsOrdered p.last (length p.bytes.items) };
}

// The end of a line of which nothing is kept.
#[inline]
fn nothing_at(end: usize) -> Line
    ensures { result ≡ record { start = end; subject = end; predicate = end; object = end; end = end } }
{
    Line {
        start: end,
        subject: end,
        predicate: end,
        object: end,
        end,
    }
}

impl Page {
    /// A page without lines. Takes no memory yet.
    pub fn new(alloc: Global) -> Page
        ensures lines { result.lines ≡ [] }
        ensures kept { KeepsNone result }
    {
        Page {
            bytes: Vec::new(alloc),
            last: nothing_at(0),
            aside: Vec::new(alloc),
        }
    }

    /// The lines.
    pub fn lines(&self) -> &[u8]
        ensures { result.now ≡ self.now.lines }
    {
        &self.bytes[..self.last.end]
    }

    /// How many bytes the lines have.
    #[inline]
    pub fn len(&self) -> usize
        ensures { result ≡ length self.now.lines }
    {
        self.last.end
    }

    /// Forgets the lines, and keeps the room.
    pub fn clear(&mut self)
        ensures lines { self.new.lines ≡ [] }
        ensures kept { KeepsNone self.new }
    {
        self.last = nothing_at(0);
    }

    /// Forgets what is kept of the last line.
    #[inline]
    pub(crate) fn forget(&mut self)
        ensures lines { self.new.lines ≡ self.old.lines }
        ensures kept { KeepsNone self.new }
    {
        self.last = nothing_at(self.last.end);
    }

    /// Appends the line of the state's last terms. What these repeat of the last line is told.
    #[inline(always)]
    pub(crate) fn statement(
        &mut self,
        bytes: &[u8],
        state: &State,
        repeats: Repeats,
    ) -> Result<(), AllocError>
        requires lawful { IsLawful bytes.now state.now }
        requires subject { IsTrue repeats.subject → IsStill self.old.subject (maybe_value bytes.now state.now.subject) }
        requires predicate { IsTrue repeats.predicate → IsStill self.old.predicate (maybe_value bytes.now state.now.predicate) }
        requires object { IsTrue repeats.object → IsStill self.old.object (maybe_value bytes.now state.now.object) }
        ensures line { OnOk result (self.new.lines ≡ self.old.lines ++ line (statement_of (options_seen bytes.now state.now.options) (state_seen bytes.now state.now))) }
        ensures subject { OnOk result (IsStill self.new.subject (maybe_value bytes.now state.now.subject)) }
        ensures predicate { OnOk result (IsStill self.new.predicate (maybe_value bytes.now state.now.predicate)) }
        ensures object { OnOk result (IsStill self.new.object (maybe_value bytes.now state.now.object)) }
    {
        self.last = put_statement(
            &mut self.bytes,
            &mut self.aside,
            self.last,
            bytes,
            state,
            repeats,
        )?;
        Ok(())
    }

    /// Appends the line of a namespace's declaration, by where its name lies and the two parts of its IRI.
    pub(crate) fn namespace(
        &mut self,
        bytes: &[u8],
        name: Span,
        prefix: Extent,
        iri: Extent,
    ) -> Result<(), AllocError>
        requires name { IsInside bytes.now name }
        requires prefix { IsSound bytes.now prefix }
        requires iri { IsSound bytes.now iri }
        ensures line { OnOk result (self.new.lines ≡ self.old.lines ++ line (Namespace (text_of bytes.now name) (text_in bytes.now prefix ++ text_in bytes.now iri))) }
        ensures kept { OnOk result (KeepsNone self.new) }
    {
        let at = name.at as usize;
        let label = &bytes[at..at + name.len as usize];
        self.aside.clear();
        push_namespace(&mut self.aside, label, prefix.text(bytes), iri.text(bytes))?;
        let end = put_aside(&mut self.bytes, self.last.end, &self.aside)?;
        self.last = nothing_at(end);
        Ok(())
    }
}
