use super::*;
use jl_base::{Item, Tail, Term, Text};
use std::alloc::{AllocError, Global};
use std::test::Fail;

fn text(alloc: Global, bytes: &[u8]) -> Result<Text, AllocError> {
    Text::from_bytes(alloc, bytes)
}

// Lines, each of which is a statement without a graph.
const TRIPLES: &str = concat!(
    "<a> <b> <c> .\n",
    "<a><b>\"c\".\n",
    "<a> <b> _:c.d.\n",
    "<a> <b> _:\u{e9}:1 .\n",
    "<> <b> <c> .\n",
    "<a\\u00e9> <b> <c> .\n",
    "<a\\U0001F600> <b> <c> .\n",
    "<a> <b> \"\\uE000\" .\n",
    "<a> <b> \"\\U0010FFFF\" .\n",
    "<a> <b> \"\\t\\b\\n\\r\\f\\\"\\'\\\\\" .\n",
    "<a> <b> \"c\"@en-GB-1 .\n",
    "<a> <b> \"c\"^^<d> .\n",
    "<<<a><b><c>>> <b> << _:a <b> <<<c> <d> \"e\">> >> .",
);

// Lines, each of which is a statement with a graph.
const QUADS: &str = concat!(
    "<a> <b> <c> <g> .\n",
    "<a> <b> \"x\"@en <g> . # c\n",
    "_:a \"b\" \"c\" \"d\".",
);

// Lines, each of which is not in the grammar.
const BAD: &str = concat!(
    "<a> <b> _:c.d..\n",
    "<a> <b> _:-c .\n",
    "<a> <b> _:.c .\n",
    "<a> <b> _: .\n",
    "<a> <b> .\n",
    "<a> <b> <c>\n",
    "<a> <b> <c> . .\n",
    "<a> <b> <c> . <d>\n",
    "<a> <b> <c> <g> <h> .\n",
    "@prefix a: <b> .\n",
    "a <b> <c> .\n",
    "<a b> <b> <c> .\n",
    "<a\u{1}> <b> <c> .\n",
    "<a\"> <b> <c> .\n",
    "<a\\n> <b> <c> .\n",
    "<a\\u00e> <b> <c> .\n",
    "<a\\UD800> <b> <c> .\n",
    "<a> <b> \"\\uD800\" .\n",
    "<a> <b> \"\\uDFFF\" .\n",
    "<a> <b> \"\\U00110000\" .\n",
    "<a> <b> \"\\a\" .\n",
    "<a> <b> \"c\\\" .\n",
    "<a> <b> \"c .\n",
    "<a> <b> 'c' .\n",
    "<a> <b> \"c\"@1 .\n",
    "<a> <b> \"c\"@en- .\n",
    "<a> <b> \"c\"@e1 .\n",
    "<a> <b> \"c\"^<d> .\n",
    "<a> <b> \"c\"^^d .\n",
    "<< <a> <b> >> <b> <c> .\n",
    "<a> <b> <c> << <a> <b> <c> >> .",
);

#[test]
fn shapes_of_lines(rt: HostRuntime) -> Result<(), Fail> {
    for line in ["", " \t", "# <a> <b> <c> .", "\t# \u{e9}"] {
        assert_eq!(rt; shape(line.as_bytes()), Shape::Blank);
    }
    for line in TRIPLES.as_bytes().split(|b| *b == b'\n') {
        assert_eq!(rt; shape(line), Shape::Triple);
    }
    for line in QUADS.as_bytes().split(|b| *b == b'\n') {
        assert_eq!(rt; shape(line), Shape::Quad);
    }
    for line in BAD.as_bytes().split(|b| *b == b'\n') {
        assert_eq!(rt; shape(line), Shape::Bad);
    }
    assert_eq!(rt; shape(b"\t<a> <b>  _:c .# d"), Shape::Triple);
    assert_eq!(rt; shape(b"<a> <b> <c> . # \xff"), Shape::Bad);
    Ok(())
}

#[test]
fn escapes_of_strings(rt: HostRuntime) -> Result<(), Fail> {
    let alloc = rt.alloc();
    let rows: [(&str, &[u8]); 7] = [
        ("\"\"", b""),
        ("\"a b\"", b"a b"),
        ("\"\\t\\b\\n\\r\\f\\\"\\'\\\\\"", b"\t\x08\n\r\x0c\"'\\"),
        ("\"a\\u00e9b\"", b"a\xc3\xa9b"),
        ("\"\\u20AC\\\\u\"", b"\xe2\x82\xac\\u"),
        ("\"\\U0001F600\"", b"\xf0\x9f\x98\x80"),
        ("\"x\\u0000y\"", b"x\0y"),
    ];
    for (line, lex) in rows {
        assert!(rt; term_ok(line.as_bytes()));
        let wanted = Term::Literal {
            lex: text(alloc, lex)?,
            tail: Tail::Simple,
        };
        assert!(rt; term(alloc, line.as_bytes())?.same(&wanted));
    }
    Ok(())
}

#[test]
fn item_of_a_line(rt: HostRuntime) -> Result<(), Fail> {
    let alloc = rt.alloc();
    let line = b"<a\\u003E> _:b.c \"x\"@en-GB <g>. # c";
    assert!(rt; shape(line) == Shape::Quad);
    let wanted = Item::Quad(
        Term::Iri(text(alloc, b"a>")?),
        Term::Bnode(text(alloc, b"b.c")?),
        Term::Literal {
            lex: text(alloc, b"x")?,
            tail: Tail::Lang(text(alloc, b"en-GB")?),
        },
        Term::Iri(text(alloc, b"g")?),
    );
    assert!(rt; item(alloc, line)?.same(&wanted));
    Ok(())
}
