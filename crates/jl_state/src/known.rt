use crate::Extent;
use sqlite_items::Boxed;

/// A term by where its texts lie. An IRI is its prefix and its name.
#[derive(Debug, Drop)]
#[cycle(known)]
pub enum Known {
    Iri { prefix: Extent, name: Extent },
    Bnode(Extent),
    Literal { lex: Extent, tail: KnownTail },
    Triple(Boxed<KnownThree>),
    Default,
}

/// The end of a literal: nothing, a language tag, or the IRI of a datatype.
#[derive(Clone, Copy, Debug)]
pub enum KnownTail {
    Simple,
    Lang(Extent),
    Typed(Extent),
}

/// The terms of a triple term.
#[derive(Debug, Drop)]
#[cycle(known)]
pub struct KnownThree {
    pub s: Known,
    pub p: Known,
    pub o: Known,
}
