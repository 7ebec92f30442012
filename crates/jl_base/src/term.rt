ghost use Rattle.std.specs.Prelude.{◌≡◌, ◌↔◌, IfOk, IsTrue};

use crate::{Seq, Text};
use sqlite_items::Boxed;
use std::alloc::{AllocError, Global};

/// An RDF term. An IRI's text is the whole IRI. `Default` is the default graph, and stands only as a graph.
#[derive(Debug, Drop)]
#[cycle(term)]
pub enum Term {
    Iri(Text),
    Bnode(Text),
    Literal { lex: Text, tail: Tail },
    Triple(Boxed<Three>),
    Default,
}

/// The end of a literal: nothing, a language tag, or the IRI of a datatype.
#[derive(Debug, Drop)]
pub enum Tail {
    Simple,
    Lang(Text),
    Typed(Text),
}

/// The terms of a triple term.
#[derive(Debug, Drop)]
#[cycle(term)]
pub struct Three {
    pub s: Term,
    pub p: Term,
    pub o: Term,
}

/// What a file says: a statement, or the declaration of a namespace's name. Those of a file of triples are `Triple`,
/// those of the other files `Quad`.
#[derive(Debug, Drop)]
pub enum Item {
    Triple(Term, Term, Term),
    Quad(Term, Term, Term, Term),
    Namespace { name: Text, iri: Text },
}

pub type Items = Seq<Item>;

impl Tail {
    pub fn copy(&self) -> Result<Tail, AllocError>
        ensures { IfOk result (λ t. t ≡ self.now) }
    {
        match self {
            Tail::Simple => Ok(Tail::Simple),
            Tail::Lang(tag) => Ok(Tail::Lang(tag.copy()?)),
            Tail::Typed(iri) => Ok(Tail::Typed(iri.copy()?)),
        }
    }

    pub fn same(&self, other: &Tail) -> bool
        ensures { IsTrue result ↔ (self.now ≡ other.now) }
    {
        match (self, other) {
            (Tail::Simple, Tail::Simple) => true,
            (Tail::Lang(tag), Tail::Lang(other)) => tag.same(other),
            (Tail::Typed(iri), Tail::Typed(other)) => iri.same(other),
            _ => false,
        }
    }
}

impl Term {
    #[cycle(copy_term)]
    pub fn copy(&self, alloc: Global) -> Result<Term, AllocError>
        ensures { IfOk result (λ t. t ≡ self.now) }
    {
        match self {
            Term::Iri(iri) => Ok(Term::Iri(iri.copy()?)),
            Term::Bnode(label) => Ok(Term::Bnode(label.copy()?)),
            Term::Literal { lex, tail } => Ok(Term::Literal {
                lex: lex.copy()?,
                tail: tail.copy()?,
            }),
            Term::Triple(three) => Ok(Term::Triple(Boxed::new(alloc, three.get().copy(alloc)?)?)),
            Term::Default => Ok(Term::Default),
        }
    }

    #[cycle(same_term)]
    pub fn same(&self, other: &Term) -> bool
        ensures { IsTrue result ↔ (self.now ≡ other.now) }
    {
        match (self, other) {
            (Term::Iri(iri), Term::Iri(other)) => iri.same(other),
            (Term::Bnode(label), Term::Bnode(other)) => label.same(other),
            (
                Term::Literal { lex, tail },
                Term::Literal {
                    lex: other,
                    tail: end,
                },
            ) => lex.same(other) && tail.same(end),
            (Term::Triple(three), Term::Triple(other)) => three.get().same(other.get()),
            (Term::Default, Term::Default) => true,
            _ => false,
        }
    }
}

impl Three {
    #[cycle(copy_term)]
    pub fn copy(&self, alloc: Global) -> Result<Three, AllocError>
        ensures { IfOk result (λ t. t ≡ self.now) }
    {
        Ok(Three {
            s: self.s.copy(alloc)?,
            p: self.p.copy(alloc)?,
            o: self.o.copy(alloc)?,
        })
    }

    #[cycle(same_term)]
    pub fn same(&self, other: &Three) -> bool
        ensures { IsTrue result ↔ (self.now ≡ other.now) }
    {
        self.s.same(&other.s) && self.p.same(&other.p) && self.o.same(&other.o)
    }
}

impl Item {
    pub fn copy(&self, alloc: Global) -> Result<Item, AllocError>
        ensures { IfOk result (λ i. i ≡ self.now) }
    {
        match self {
            Item::Triple(s, p, o) => Ok(Item::Triple(
                s.copy(alloc)?,
                p.copy(alloc)?,
                o.copy(alloc)?,
            )),
            Item::Quad(s, p, o, g) => Ok(Item::Quad(
                s.copy(alloc)?,
                p.copy(alloc)?,
                o.copy(alloc)?,
                g.copy(alloc)?,
            )),
            Item::Namespace { name, iri } => Ok(Item::Namespace {
                name: name.copy()?,
                iri: iri.copy()?,
            }),
        }
    }
    /// Whether the other says the same, text for text.
    pub fn same(&self, other: &Item) -> bool
        ensures { IsTrue result ↔ (self.now ≡ other.now) }
    {
        match (self, other) {
            (Item::Triple(s, p, o), Item::Triple(other_s, other_p, other_o)) => {
                s.same(other_s) && p.same(other_p) && o.same(other_o)
            }
            (Item::Quad(s, p, o, g), Item::Quad(other_s, other_p, other_o, other_g)) => {
                s.same(other_s) && p.same(other_p) && o.same(other_o) && g.same(other_g)
            }
            (
                Item::Namespace { name, iri },
                Item::Namespace {
                    name: other_name,
                    iri: other_iri,
                },
            ) => name.same(other_name) && iri.same(other_iri),
            _ => false,
        }
    }
}
