//! Blank labels that name their file.
ghost use Rattle.std.specs.Prelude.{◌≡◌, IfOk};
ghost use Rattle.jl_base.specs.Terms as said;
ghost use Rattle.jl_base.specs.Items.{value_of, item_of};
ghost use Rattle.jl_join.specs.Relabelling.{relabelled_label, relabelled_term, relabelled};

use jl_base::{Boxed, Item, Term, Text, Three};
use std::alloc::{AllocError, Global};

#[tactic(auto, unfolding(crate::specs::Relabelling::relabelled_label))]
fn relabel_label(alloc: Global, k: u32, label: &Text) -> Result<Text, AllocError>
    ensures { IfOk result (λ made. made ≡ relabelled_label k label.now) }
{
    let mut digits = itoa::Buffer::new();
    let mut made = Text::from_bytes(alloc, b"m")?;
    made.append(digits.format(k).as_bytes())?;
    made.append(b"_")?;
    made.append(label.bytes())?;
    Ok(made)
}

#[cycle(relabel)]
#[tactic(auto, unfolding(crate::specs::Relabelling::relabelled_term), using(crate::proofs::TermLemmas::nested_value))]
fn relabel_term(alloc: Global, k: u32, term: &Term) -> Result<Term, AllocError>
    ensures { IfOk result (λ made. value_of made ≡ relabelled_term k (value_of term.now)) }
{
    match term {
        Term::Iri(iri) => Ok(Term::Iri(iri.copy()?)),
        Term::Bnode(label) => Ok(Term::Bnode(relabel_label(alloc, k, label)?)),
        Term::Literal { lex, tail } => Ok(Term::Literal {
            lex: lex.copy()?,
            tail: tail.copy()?,
        }),
        Term::Triple(three) => Ok(Term::Triple(Boxed::new(
            alloc,
            relabel_three(alloc, k, three.get())?,
        )?)),
        Term::Default => Ok(Term::Default),
    }
}

#[cycle(relabel)]
#[tactic(auto, unfolding(crate::specs::Relabelling::relabelled_term))]
fn relabel_three(alloc: Global, k: u32, three: &Three) -> Result<Three, AllocError>
    ensures { IfOk result (λ made. said.Nested (value_of made.s) (value_of made.p) (value_of made.o) ≡ relabelled_term k (said.Nested (value_of three.now.s) (value_of three.now.p) (value_of three.now.o))) }
{
    Ok(Three {
        s: relabel_term(alloc, k, &three.s)?,
        p: relabel_term(alloc, k, &three.p)?,
        o: relabel_term(alloc, k, &three.o)?,
    })
}

/// The item of file k, with each blank label renamed to `m`, k in decimal, `_` and the label, also inside triple terms
/// and in the graph. Takes memory for the item and for each text of it.
#[tactic(auto, unfolding(crate::specs::Relabelling::relabelled))]
pub fn relabel(alloc: Global, k: u32, item: &Item) -> Result<Item, AllocError>
    ensures { IfOk result (λ made. item_of made ≡ relabelled k (item_of item.now)) }
{
    match item {
        Item::Triple(s, p, o) => Ok(Item::Triple(
            relabel_term(alloc, k, s)?,
            relabel_term(alloc, k, p)?,
            relabel_term(alloc, k, o)?,
        )),
        Item::Quad(s, p, o, g) => Ok(Item::Quad(
            relabel_term(alloc, k, s)?,
            relabel_term(alloc, k, p)?,
            relabel_term(alloc, k, o)?,
            relabel_term(alloc, k, g)?,
        )),
        Item::Namespace { name, iri } => Ok(Item::Namespace {
            name: name.copy()?,
            iri: iri.copy()?,
        }),
    }
}
