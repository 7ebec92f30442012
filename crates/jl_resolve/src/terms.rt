//! Owned terms, from where their texts lie.
ghost use Rattle.std.specs.Prelude.{◌≡◌, ◌++◌, IfOk};
ghost use Rattle.jl_base.specs.Items.{tail_of, value_of};
ghost use Rattle.jl_state.specs.Extents.{text_in, IsHeld, IsSound};
ghost use Rattle.jl_state.specs.KnownTerms.{known_value, tail_value, AreParts, HasKnown, HasTail};

use jl_base::{Boxed, Tail, Term, Text, Three};
use jl_state::{Extent, Known, KnownTail, KnownThree};
use std::alloc::{AllocError, Global};

fn text(alloc: Global, bytes: &[u8], extent: Extent) -> Result<Text, AllocError>
    requires { IsHeld bytes.now extent }
    ensures { IfOk result (λ t. t ≡ text_in bytes.now extent) }
{
    Text::from_bytes(alloc, extent.text(bytes))
}

/// An IRI's text, from its prefix and its name.
pub(crate) fn iri(
    alloc: Global,
    bytes: &[u8],
    prefix: Extent,
    name: Extent,
) -> Result<Text, AllocError>
    requires prefix { IsSound bytes.now prefix }
    requires name { IsSound bytes.now name }
    ensures { IfOk result (λ t. t ≡ text_in bytes.now prefix ++ text_in bytes.now name) }
{
    let mut iri = text(alloc, bytes, prefix)?;
    iri.append(name.text(bytes))?;
    Ok(iri)
}

fn tail(alloc: Global, bytes: &[u8], tail: KnownTail) -> Result<Tail, AllocError>
    requires { HasTail bytes.now tail }
    ensures { IfOk result (λ t. tail_of t ≡ tail_value bytes.now tail) }
{
    match tail {
        KnownTail::Simple => Ok(Tail::Simple),
        KnownTail::Lang(tag) => Ok(Tail::Lang(text(alloc, bytes, tag)?)),
        KnownTail::Typed(datatype) => Ok(Tail::Typed(text(alloc, bytes, datatype)?)),
    }
}

/// A term of its own texts. A triple term takes a box besides.
#[cycle(own)]
pub(crate) fn term(alloc: Global, bytes: &[u8], known: &Known) -> Result<Term, AllocError>
    requires { HasKnown bytes.now known.now }
    ensures { IfOk result (λ t. value_of t ≡ known_value bytes.now known.now) }
{
    match known {
        Known::Iri { prefix, name } => Ok(Term::Iri(iri(alloc, bytes, *prefix, *name)?)),
        Known::Bnode(label) => Ok(Term::Bnode(text(alloc, bytes, *label)?)),
        Known::Literal { lex, tail: ending } => Ok(Term::Literal {
            lex: text(alloc, bytes, *lex)?,
            tail: tail(alloc, bytes, *ending)?,
        }),
        Known::Triple(held) => triple_term(alloc, bytes, known, held.get()),
        Known::Default => Ok(Term::Default),
    }
}

// A triple term, whose three these are.
#[cycle(own)]
fn triple_term(
    alloc: Global,
    bytes: &[u8],
    whole: &Known,
    held: &KnownThree,
) -> Result<Term, AllocError>
    requires has { HasKnown bytes.now whole.now }
    requires parts { AreParts bytes.now whole.now held.now }
    ensures { IfOk result (λ t. value_of t ≡ known_value bytes.now whole.now) }
{
    let three = Three {
        s: term(alloc, bytes, &held.s)?,
        p: term(alloc, bytes, &held.p)?,
        o: term(alloc, bytes, &held.o)?,
    };
    Ok(Term::Triple(Boxed::new(alloc, three)?))
}
