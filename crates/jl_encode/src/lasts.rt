//! The terms of the last statement.
ghost use Rattle.std.specs.Prelude.{◌≡◌, Some, None, Option, IsTrue, OnOk};
ghost use Rattle.std.specs.Option.{option_map};
ghost use Rattle.jl_base.specs.Items.{value_of};
ghost use Rattle.jl_encoding.specs.Sameness.{is_value};
ghost use Rattle.jl_encode.specs.Lasts.{lasts_of};
ghost use Rattle.jl_encode.specs.Putting.{Puts, put_unless};
ghost use Rattle.jl_encode.specs.Stated.{stated};

use crate::desk::Desk;
use crate::refusal::Refusal;
use crate::stated::Stated;
use jl_base::{Tail, Term, Text};
use std::alloc::{AllocError, Global};

/// The last term at each position, where a statement came before.
#[derive(Debug, Drop)]
pub(crate) struct Lasts {
    pub subject: Option<Term>,
    pub predicate: Option<Term>,
    pub object: Option<Term>,
    pub graph: Option<Term>,
}

impl Lasts {
    pub fn new() -> Lasts
        ensures { lasts_of result ≡ record { subject = None; predicate = None; object = None; graph = None } }
    {
        Lasts {
            subject: None,
            predicate: None,
            object: None,
            graph: None,
        }
    }
}

// Whether the term is the last one.
fn is_last(last: &Option<Term>, term: &Term) -> bool
    ensures is { result ≡ is_value (value_of term.now) (option_map value_of last.now) }
    ensures same { IsTrue result → option_map value_of last.now ≡ Some (value_of term.now) }
{
    match last {
        Some(held) => held.same(term),
        None => false,
    }
}

// Makes a text say what another says, in the memory that it has.
#[inline]
fn assign(text: &mut Text, other: &Text) -> Result<(), AllocError>
    ensures { OnOk result (text.new ≡ other.now) }
{
    text.truncate(0);
    text.append(other.bytes())
}

fn keep_tail(end: &mut Tail, tail: &Tail) -> Result<(), AllocError>
    ensures { OnOk result (end.new ≡ tail.now) }
{
    match tail {
        Tail::Lang(tag) => {
            if let Tail::Lang(held) = end {
                return assign(held, tag);
            }
        }
        Tail::Typed(iri) => {
            if let Tail::Typed(held) = end {
                return assign(held, iri);
            }
        }
        Tail::Simple => {}
    }
    *end = tail.copy()?;
    Ok(())
}

// Makes a term say what another says, where it can in the memory that it has.
fn keep_in(alloc: Global, held: &mut Term, term: &Term) -> Result<(), AllocError>
    ensures { OnOk result (held.new ≡ term.now) }
{
    match term {
        Term::Iri(iri) => {
            if let Term::Iri(held) = held {
                return assign(held, iri);
            }
        }
        Term::Bnode(label) => {
            if let Term::Bnode(held) = held {
                return assign(held, label);
            }
        }
        Term::Literal { lex, tail } => {
            if let Term::Literal {
                lex: held,
                tail: end,
            } = held
            {
                assign(held, lex)?;
                return keep_tail(end, tail);
            }
        }
        _ => {}
    }
    *held = term.copy(alloc)?;
    Ok(())
}

// Keeps a term as the last one.
fn keep(alloc: Global, last: &mut Option<Term>, term: &Term) -> Result<(), AllocError>
    ensures { OnOk result (last.new ≡ Some term.now) }
{
    if let Some(held) = last {
        return keep_in(alloc, held, term);
    }
    *last = Some(term.copy(alloc)?);
    Ok(())
}

/// Puts a term at a position, where it isn't the last one there, and keeps it as the last one.
pub(crate) fn put_at(
    alloc: Global,
    desk: &mut Desk,
    out: &mut Vec<u8>,
    last: &mut Option<Term>,
    term: &Term,
) -> Result<Stated, Refusal>
    ensures puts { Puts (put_unless (option_map value_of last.old) (value_of term.now) desk.old) (λ x. stated (value_of term.now) x) out.old.items out.new.items desk.new result }
    ensures kept { OnOk result (option_map value_of last.new ≡ Some (value_of term.now)) }
{
    if is_last(last, term) {
        return Ok(Stated::Unset);
    }
    let stated = desk.put_term(out, term)?;
    keep(alloc, last, term)?;
    Ok(stated)
}
