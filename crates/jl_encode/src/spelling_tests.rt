use crate::refusal::Refusal;
use crate::spelling::{push_namespace_row, push_options_row, push_quad_row, push_triple_row};
use crate::stated::{IriIds, Stated, StatedThree};
use jl_base::{Boxed, Tail, Term, Text, Three};
use jl_encoding::Form;
use std::alloc::Global;
use std::test::Fail;

fn iri(prefix: u64, name: u64) -> Stated {
    Stated::Iri(IriIds { prefix, name })
}

fn text(alloc: Global, letters: &[u8]) -> Result<Text, Fail> {
    Ok(Text::from_bytes(alloc, letters)?)
}

fn options_row(out: &mut Vec<u8>) -> Result<(), Fail> {
    Ok(push_options_row(out, Form::Triples)?)
}

fn namespace_row(out: &mut Vec<u8>, name: &[u8]) -> Result<(), Refusal> {
    push_namespace_row(out, name, IriIds { prefix: 1, name: 0 })
}

fn triple_row(out: &mut Vec<u8>, three: &Three, stands: &StatedThree) -> Result<(), Fail> {
    Ok(push_triple_row(out, &three.s, &three.p, &three.o, stands)?)
}

// A quad of blank nodes whose graph alone is stated.
fn graph_row(out: &mut Vec<u8>, graph: &Term, said: &Stated) -> Result<(), Fail> {
    let term = Term::Bnode(Text::new(*out.allocator()));
    let stands = StatedThree {
        s: Stated::Unset,
        p: Stated::Unset,
        o: Stated::Unset,
    };
    Ok(push_quad_row(out, &term, &term, &term, graph, &stands, said)?)
}

fn made_three(alloc: Global) -> Result<Three, Fail> {
    Ok(Three {
        s: Term::Iri(text(alloc, b"http://example.org/v129/n2458")?),
        p: Term::Iri(text(alloc, b"http://example.org/p/26")?),
        o: Term::Literal {
            lex: text(alloc, b"text 531564")?,
            tail: Tail::Lang(text(alloc, b"en")?),
        },
    })
}

// The frame's body that two made items have, without their entries.
#[test]
fn options_namespaces_and_triples(rt: HostRuntime) -> Result<(), Fail> {
    let wanted = b"\x0A\x12\x0A\x10\x10\x01\x18\x01\x20\x01\x48\xA0\x1F\x50\x96\x01\x58\x20\x78\x02\
        \x0A\x0A\x32\x08\x0A\x02p0\x12\x02\x08\x01\
        \x0A\x1D\x12\x1B\x0A\x02\x08\x02\x2A\x02\x08\x03\x5A\x11\x0A\x0Btext 531564\x12\x02en";
    let mut out = Vec::new(rt.alloc());
    options_row(&mut out)?;
    namespace_row(&mut out, b"p0")?;
    let stands = StatedThree {
        s: iri(2, 0),
        p: iri(3, 0),
        o: Stated::Texts,
    };
    triple_row(&mut out, &made_three(rt.alloc())?, &stands)?;
    assert_eq!(rt; out.as_slice(), wanted.as_slice());
    Ok(())
}

// A triple term in the place of the predicate, and its own predicate alone stated.
fn nested_three(alloc: Global) -> Result<Three, Fail> {
    let three = Three {
        s: Term::Bnode(Text::new(alloc)),
        p: Term::Iri(Text::new(alloc)),
        o: Term::Default,
    };
    Ok(Three {
        s: Term::Bnode(Text::new(alloc)),
        p: Term::Triple(Boxed::new(alloc, three)?),
        o: Term::Iri(Text::new(alloc)),
    })
}

fn nested_stated(alloc: Global) -> Result<StatedThree, Fail> {
    let held = StatedThree {
        s: Stated::Unset,
        p: iri(0, 5),
        o: Stated::Unset,
    };
    Ok(StatedThree {
        s: Stated::Texts,
        p: Stated::Triple(Boxed::new(alloc, held)?),
        o: iri(0, 0),
    })
}

#[test]
fn triple_terms(rt: HostRuntime) -> Result<(), Fail> {
    let wanted = b"\x0A\x0C\x12\x0A\x12\x00\x42\x04\x2A\x02\x10\x05\x4A\x00";
    let mut out = Vec::new(rt.alloc());
    let three = nested_three(rt.alloc())?;
    triple_row(&mut out, &three, &nested_stated(rt.alloc())?)?;
    assert_eq!(rt; out.as_slice(), wanted.as_slice());
    Ok(())
}

// A datatype's id that is 0, and the default graph.
#[test]
fn graphs(rt: HostRuntime) -> Result<(), Fail> {
    let wanted = b"\x0A\x0A\x1A\x08\x82\x01\x05\x0A\x01a\x18\x00\x0A\x04\x1A\x02\x7A\x00";
    let mut out = Vec::new(rt.alloc());
    let graph = Term::Literal {
        lex: text(rt.alloc(), b"a")?,
        tail: Tail::Typed(Text::new(rt.alloc())),
    };
    graph_row(&mut out, &graph, &Stated::Typed(0))?;
    graph_row(&mut out, &Term::Default, &Stated::Texts)?;
    assert_eq!(rt; out.as_slice(), wanted.as_slice());
    Ok(())
}

fn letters(alloc: Global, len: usize) -> Result<Vec<u8>, Fail> {
    let mut name = Vec::new(alloc);
    name.resize(len, b'n')?;
    Ok(name)
}

// With a name of 2^26 - 18 bytes the row is one byte too long, and with one byte less it isn't.
#[test]
fn long_rows(rt: HostRuntime) -> Result<(), Fail> {
    let mut out = Vec::new(rt.alloc());
    let mut name = letters(rt.alloc(), (1 << 26) - 18)?;
    let answer = namespace_row(&mut out, &name);
    assert!(rt; matches!(answer, Err(Refusal::TooWide)));
    assert!(rt; out.is_empty());
    name.truncate((1 << 26) - 19);
    namespace_row(&mut out, &name)?;
    assert_eq!(rt; out.len(), 1 << 26);
    Ok(())
}
