//! What is written of each item of a file: its line, or nothing.
ghost use Rattle.std.specs.Prelude.{◌≡◌, ◌++◌, IsTrue, OnOk};
ghost use Rattle.jl_base.specs.Terms.{Namespace};
ghost use Rattle.jl_base.specs.Spans.{IsInside, text_of};
ghost use Rattle.jl_rows.specs.Seen.{options_seen};
ghost use Rattle.jl_state.specs.Extents.{text_in, IsSound};
ghost use Rattle.jl_state.specs.Lawful.{maybe_value, state_seen, statement_of, IsLawful};
ghost use Rattle.jl_lines.specs.Pages.{IsStill, KeepsNone};
ghost use Rattle.jl_lines.specs.Writings.{written};

use crate::line::Repeats;
use crate::page::Page;
use jl_base::Span;
use jl_state::{Extent, State};
use std::alloc::AllocError;

/// What is written of an item. It is told at run time, so that there is one loop over rows, which the compiler makes one
/// with all that is done for a row.
#[derive(Clone, Copy, Debug, PartialEq, Eq)]
pub enum Writing {
    /// Its line.
    Lines,
    /// Nothing, for those who only count.
    Nothing,
}

impl Writing {
    // Appends what is written of the statement that a state's last terms are.
    #[inline(always)]
    pub(crate) fn statement(
        self,
        page: &mut Page,
        bytes: &[u8],
        state: &State,
        repeats: Repeats,
    ) -> Result<(), AllocError>
        requires lawful { IsLawful bytes.now state.now }
        requires subject { IsTrue repeats.subject → IsStill page.old.subject (maybe_value bytes.now state.now.subject) }
        requires predicate { IsTrue repeats.predicate → IsStill page.old.predicate (maybe_value bytes.now state.now.predicate) }
        requires object { IsTrue repeats.object → IsStill page.old.object (maybe_value bytes.now state.now.object) }
        ensures subject { OnOk result (IsStill page.new.subject (maybe_value bytes.now state.now.subject)) }
        ensures predicate { OnOk result (IsStill page.new.predicate (maybe_value bytes.now state.now.predicate)) }
        ensures object { OnOk result (IsStill page.new.object (maybe_value bytes.now state.now.object)) }
        ensures text { OnOk result (page.new.lines ≡ page.old.lines ++ written self (statement_of (options_seen bytes.now state.now.options) (state_seen bytes.now state.now))) }
    {
        match self {
            Writing::Lines => page.statement(bytes, state, repeats),
            Writing::Nothing => {
                page.forget();
                Ok(())
            }
        }
    }

    // Appends what is written of a namespace's declaration, by where its name lies and the two parts of its IRI.
    pub(crate) fn namespace(
        self,
        page: &mut Page,
        bytes: &[u8],
        name: Span,
        prefix: Extent,
        iri: Extent,
    ) -> Result<(), AllocError>
        requires name { IsInside bytes.now name }
        requires prefix { IsSound bytes.now prefix }
        requires iri { IsSound bytes.now iri }
        ensures kept { OnOk result (KeepsNone page.new) }
        ensures text { OnOk result (page.new.lines ≡ page.old.lines ++ written self (Namespace (text_of bytes.now name) (text_in bytes.now prefix ++ text_in bytes.now iri))) }
    {
        match self {
            Writing::Lines => page.namespace(bytes, name, prefix, iri),
            Writing::Nothing => {
                page.forget();
                Ok(())
            }
        }
    }
}
