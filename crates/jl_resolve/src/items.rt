//! Owned items, from the state after their row.
ghost use Rattle.std.specs.Prelude.{◌≡◌, ◌++◌, IfOk};
ghost use Rattle.jl_base.specs.Items.{item_of, value_of};
ghost use Rattle.jl_base.specs.Spans.{text_of, IsInside};
ghost use Rattle.jl_base.specs.Terms.{Namespace};
ghost use Rattle.jl_rows.specs.Seen.{options_seen};
ghost use Rattle.jl_state.specs.Extents.{text_in, IsSound};
ghost use Rattle.jl_state.specs.Lawful.{maybe_value, state_seen, statement_of, value_or_default, HasMaybe, IsLawful};

use crate::terms::{iri, term};
use jl_base::{Item, Span, Term, Text};
use jl_rows::{GRAPHS, QUADS};
use jl_state::{Extent, Known, State};
use std::alloc::{AllocError, Global};

// The term of a position.
fn at_position(alloc: Global, bytes: &[u8], held: &Option<Known>) -> Result<Term, AllocError>
    requires { HasMaybe bytes.now held.now }
    ensures { IfOk result (λ t. value_of t ≡ value_or_default (maybe_value bytes.now held.now)) }
{
    match held {
        Some(known) => term(alloc, bytes, known),
        None => Ok(Term::Default),
    }
}

/// The statement of a state's last terms.
pub(crate) fn statement(alloc: Global, bytes: &[u8], state: &State) -> Result<Item, AllocError>
    requires { IsLawful bytes.now state.now }
    ensures { IfOk result (λ item. item_of item ≡ statement_of (options_seen bytes.now state.now.options) (state_seen bytes.now state.now)) }
{
    let s = at_position(alloc, bytes, &state.subject)?;
    let p = at_position(alloc, bytes, &state.predicate)?;
    let o = at_position(alloc, bytes, &state.object)?;
    if state.options.physical == QUADS {
        let g = at_position(alloc, bytes, &state.graph)?;
        return Ok(Item::Quad(s, p, o, g));
    }
    if state.options.physical == GRAPHS {
        let g = at_position(alloc, bytes, &state.open_graph)?;
        return Ok(Item::Quad(s, p, o, g));
    }
    Ok(Item::Triple(s, p, o))
}

/// The declaration of a namespace, from where its name lies and the two parts of its IRI.
pub(crate) fn namespace(
    alloc: Global,
    bytes: &[u8],
    name: Span,
    prefix: Extent,
    last: Extent,
) -> Result<Item, AllocError>
    requires name { IsInside bytes.now name }
    requires prefix { IsSound bytes.now prefix }
    requires last { IsSound bytes.now last }
    ensures { IfOk result (λ item. item_of item ≡ Namespace (text_of bytes.now name) (text_in bytes.now prefix ++ text_in bytes.now last)) }
{
    let at = name.at as usize;
    Ok(Item::Namespace {
        name: Text::from_bytes(alloc, &bytes[at..at + name.len as usize])?,
        iri: iri(alloc, bytes, prefix, last)?,
    })
}
