use crate::{RawTail, RawTerm, Row, Table, next_row_at, next_row_into};
use jl_base::Span;
use std::process::Abort;

// Two entries, a triple with a tag and one with a datatype, a quad in the default graph, and two triples in other shapes;
// then sixteen bytes more.
const ROWS: &[u8] = b"\
    \x0A\x09\x4A\x07\x12\x05n2458\
    \x0A\x0A\x52\x08\x08\xE8\x07\x12\x03a/b\
    \x0A\x18\x12\x16\x0A\x02\x08\x05\x2A\x04\x08\x03\x10\x09\x5A\x0A\x0A\x04text\x12\x02en\
    \x0A\x0A\x12\x08\x5A\x06\x0A\x017\x18\x84\x02\
    \x0A\x08\x1A\x06\x52\x02b1\x7A\0\
    \x0A\x0A\x12\x08\x4A\x02\x08\x05\x0A\x02\x08\x03\
    \x0A\x08\x12\x06\x0A\x04\x08\x05\x18\x03\
    0123456789012345";

fn of_span(span: Span) -> u64 {
    span.at % 1000 * 1000 + u64::from(span.len) % 1000
}

fn of_term(term: Option<RawTerm>) -> (u64, u64) {
    match term {
        Some(RawTerm::Iri(ids)) => (u64::from(ids.prefix), u64::from(ids.name)),
        Some(RawTerm::Bnode(label)) => (1, of_span(label)),
        Some(RawTerm::Literal { lex, tail }) => match tail {
            RawTail::Simple => (2, of_span(lex)),
            RawTail::Lang(tag) => (of_span(tag), of_span(lex)),
            RawTail::Typed(id) => (u64::from(id), of_span(lex)),
        },
        Some(RawTerm::Triple(inner)) => (3, of_span(inner)),
        Some(RawTerm::Default) => (4, 0),
        None => (0, 0),
    }
}

// What a row says, in three pairs.
fn said(row: &Row) -> [(u64, u64); 3] {
    match row {
        Row::Entry { table, id, text } => [
            (if *table == Table::Name { 9 } else { 10 }, 0),
            (u64::from(*id), 0),
            (0, of_span(*text)),
        ],
        Row::Triple(t) => [of_term(t.s), of_term(t.p), of_term(t.o)],
        Row::Quad(t) => [of_term(t.s), of_term(t.o), of_term(t.g)],
        _ => [(7, 7); 3],
    }
}

// The row at a place, read in both ways: with bytes behind it, and without.
fn reads(rt: &impl Abort, at: usize, wanted: [(u64, u64); 3]) -> usize {
    let end = ROWS.len() - 16;
    assert!(rt; at <= end);
    let mut row = Row::GraphEnd;
    let Ok(Some(next)) = next_row_into(ROWS, at, end, &mut row) else {
        assert!(rt; false);
        return 0;
    };
    assert_eq!(rt; said(&row), wanted);
    let Ok(Some((other, there))) = next_row_at(&ROWS[..end], at, end) else {
        assert!(rt; false);
        return 0;
    };
    assert_eq!(rt; (said(&other), there), (wanted, next));
    next
}

#[test]
fn rows_of_usual_shape(rt: HostRuntime) {
    let rows = [
        [(9, 0), (0, 0), (0, 6005)],
        [(10, 0), (1000, 0), (0, 20003)],
        [(5, 0), (3, 9), (47002, 41004)],
        [(0, 0), (0, 0), (260, 57001)],
        [(0, 0), (1, 67002), (4, 0)],
        [(3, 0), (0, 0), (5, 0)],
        [(5, 0), (0, 0), (0, 0)],
    ];
    let mut at = 0;
    for wanted in rows {
        at = reads(&rt, at, wanted);
    }
    assert_eq!(rt; at, 93);
}
