//! Triples as quads.
ghost use Rattle.std.specs.Prelude.{◌≡◌, IfOk};
ghost use Rattle.jl_base.specs.Items.{item_of};
ghost use Rattle.jl_join.specs.Relabelling.{widened};

use jl_base::{Item, Term};
use std::alloc::{AllocError, Global};

/// A triple as a quad of the default graph, and a copy of any other item. Takes memory for the item and for each text
/// of it.
#[tactic(auto, unfolding(crate::specs::Relabelling::widened))]
pub fn widen(alloc: Global, item: &Item) -> Result<Item, AllocError>
    ensures { IfOk result (λ made. item_of made ≡ widened (item_of item.now)) }
{
    match item {
        Item::Triple(s, p, o) => Ok(Item::Quad(
            s.copy(alloc)?,
            p.copy(alloc)?,
            o.copy(alloc)?,
            Term::Default,
        )),
        Item::Quad(_, _, _, _) => item.copy(alloc),
        Item::Namespace { .. } => item.copy(alloc),
    }
}
