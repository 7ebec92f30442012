//! What a row states of a term.

use sqlite_items::Boxed;

/// The ids of an IRI as a row writes them: 0 where the rule for 0 gives them.
#[derive(Clone, Copy, Debug)]
pub(crate) struct IriIds {
    pub prefix: u64,
    pub name: u64,
}

/// What a row states of a term beside the term's own texts.
#[derive(Debug, Drop)]
#[cycle(stated)]
pub(crate) enum Stated {
    /// Nothing: the term is repeated.
    Unset,
    /// The term's texts alone.
    Texts,
    Iri(IriIds),
    /// The id of a literal's datatype.
    Typed(u64),
    Triple(Boxed<StatedThree>),
}

/// What a row states of the terms of a triple term.
#[derive(Debug, Drop)]
#[cycle(stated)]
pub(crate) struct StatedThree {
    pub s: Stated,
    pub p: Stated,
    pub o: Stated,
}
