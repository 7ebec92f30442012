//! Rows as they were read: ids as they stand, and texts as places.
use crate::Options;
use jl_base::Span;

/// A lookup table.
#[derive(Clone, Copy, Debug, PartialEq, Eq)]
pub enum Table {
    Name,
    Prefix,
    Datatype,
}

/// An IRI by the ids of its prefix and its name; 0 leaves one to the rule for 0.
#[derive(Clone, Copy, Debug, PartialEq, Eq)]
pub struct RawIri {
    pub prefix: u32,
    pub name: u32,
}

/// What follows a literal's lexical form: nothing, a language tag, or the id of a datatype.
#[derive(Clone, Copy, Debug, PartialEq, Eq)]
pub enum RawTail {
    Simple,
    Lang(Span),
    Typed(u32),
}

/// A term as a row has it. A triple term is where its message lies: `triple_term` reads it.
#[derive(Clone, Copy, Debug, PartialEq, Eq)]
pub enum RawTerm {
    Iri(RawIri),
    Bnode(Span),
    Literal { lex: Span, tail: RawTail },
    Triple(Span),
    Default,
}

/// The terms of a triple, or of a triple term; None repeats the last one there.
#[derive(Clone, Copy, Debug)]
pub struct RawTriple {
    pub s: Option<RawTerm>,
    pub p: Option<RawTerm>,
    pub o: Option<RawTerm>,
}

/// The terms of a quad; None repeats the last one there.
#[derive(Clone, Copy, Debug)]
pub struct RawQuad {
    pub s: Option<RawTerm>,
    pub p: Option<RawTerm>,
    pub o: Option<RawTerm>,
    pub g: Option<RawTerm>,
}

/// A row of a frame.
#[derive(Clone, Copy, Debug)]
pub enum Row {
    Options(Options),
    Triple(RawTriple),
    Quad(RawQuad),
    GraphStart(Option<RawTerm>),
    GraphEnd,
    Namespace { name: Span, iri: Option<RawIri> },
    Entry { table: Table, id: u32, text: Span },
}
