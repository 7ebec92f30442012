use crate::desk::Desk;
use crate::stated::{IriIds, Stated};
use jl_base::{Tail, Term, Text, Three};
use jl_rows::Table;
use sqlite_items::Boxed;
use std::alloc::Global;
use std::process::Abort;
use std::test::Fail;

fn text(alloc: Global, letters: &str) -> Result<Text, Fail> {
    Ok(Text::from_bytes(alloc, letters.as_bytes())?)
}

// Behind a pointer: a function that has a desk in place is slow to prove.
fn desk(alloc: Global, names: u64, prefixes: u64, datatypes: u64) -> Result<Box<Desk>, Fail> {
    let desk = Desk::new(alloc, names, prefixes, datatypes)?;
    Ok(Box::new(alloc, desk)?)
}

fn iri(desk: &mut Desk, out: &mut Vec<u8>, text: &[u8]) -> Result<(u64, u64), Fail> {
    let IriIds { prefix, name } = desk.put_iri(out, text)?;
    Ok((prefix, name))
}

fn name(desk: &mut Desk, out: &mut Vec<u8>, text: &[u8]) -> Option<u64> {
    desk.put_text(out, Table::Name, text).ok()
}

fn next_item(rt: &impl Abort, desk: &mut Desk) {
    assert!(rt; desk.item() < 9);
    desk.for_next();
}

// The entries of two made items.
#[test]
fn made_entries(rt: HostRuntime) -> Result<(), Fail> {
    let wanted = b"\x0A\x1A\x52\x18\x12\x16http://example.org/v0/\x0A\x02\x4A\x00\
        \x0A\x1C\x52\x1A\x12\x18http://example.org/v129/\x0A\x09\x4A\x07\x12\x05n2458\
        \x0A\x19\x52\x17\x12\x15http://example.org/p/\x0A\x06\x4A\x04\x12\x0226";
    let iris: [(&[u8], (u64, u64)); 4] = [
        (b"http://example.org/v0/", (1, 0)),
        (b"http://example.org/v129/n2458", (2, 0)),
        (b"http://example.org/p/26", (3, 0)),
        (b"http://example.org/p/n2458", (0, 2)),
    ];
    let mut desk = desk(rt.alloc(), 4000, 150, 32)?;
    let mut out = Vec::new(rt.alloc());
    for (text, ids) in iris {
        assert_eq!(rt; iri(&mut desk, &mut out, text)?, ids);
    }
    assert_eq!(rt; out.as_slice(), wanted.as_slice());
    Ok(())
}

// Where all slots are used, an item is refused; the next one has them again, from the first.
#[test]
fn slots_in_turn(rt: HostRuntime) -> Result<(), Fail> {
    let names: [(bool, &[u8], Option<u64>); 6] = [
        (false, b"a", Some(1)),
        (false, b"b", Some(2)),
        (false, b"a", Some(1)),
        (false, b"c", None),
        (true, b"c", Some(1)),
        (false, b"a", Some(2)),
    ];
    let wanted = b"\x0A\x05\x4A\x03\x12\x01a\x0A\x05\x4A\x03\x12\x01b\
        \x0A\x07\x4A\x05\x08\x01\x12\x01c\x0A\x05\x4A\x03\x12\x01a";
    let mut desk = desk(rt.alloc(), 2, 0, 0)?;
    let mut out = Vec::new(rt.alloc());
    for (is_next, text, id) in names {
        if is_next {
            next_item(&rt, &mut desk);
        }
        assert_eq!(rt; name(&mut desk, &mut out, text), id);
    }
    assert_eq!(rt; out.as_slice(), wanted.as_slice());
    Ok(())
}

// The empty prefix is too many where the table has no slot, though it has no entry.
#[test]
fn hidden_prefix(rt: HostRuntime) -> Result<(), Fail> {
    let mut desk = desk(rt.alloc(), 2, 0, 0)?;
    let mut out = Vec::new(rt.alloc());
    assert_eq!(rt; iri(&mut desk, &mut out, b"a")?, (0, 0));
    assert!(rt; desk.is_overfull());
    next_item(&rt, &mut desk);
    assert!(rt; !desk.is_overfull());
    Ok(())
}

fn literal(alloc: Global) -> Result<Term, Fail> {
    Ok(Term::Literal {
        lex: text(alloc, "1")?,
        tail: Tail::Typed(text(alloc, "d")?),
    })
}

fn triple(alloc: Global) -> Result<Term, Fail> {
    let three = Three {
        s: Term::Iri(text(alloc, "s")?),
        p: Term::Bnode(text(alloc, "b")?),
        o: literal(alloc)?,
    };
    Ok(Term::Triple(Boxed::new(alloc, three)?))
}

fn is_wanted(stated: &Stated) -> bool {
    let Stated::Triple(stated) = stated else {
        return false;
    };
    let stated = stated.get();
    matches!(stated.s, Stated::Iri(IriIds { prefix: 0, name: 0 }))
        && matches!(stated.p, Stated::Texts)
        && matches!(stated.o, Stated::Typed(1))
}

// Whether the term has the ids that are wanted.
fn put_triple(alloc: Global, desk: &mut Desk, out: &mut Vec<u8>) -> Result<bool, Fail> {
    let term = triple(alloc)?;
    let stated = desk.put_term(out, &term)?;
    Ok(is_wanted(&stated))
}

#[test]
fn triple_term(rt: HostRuntime) -> Result<(), Fail> {
    let wanted = b"\x0A\x05\x4A\x03\x12\x01s\x0A\x05\x5A\x03\x12\x01d";
    let mut desk = desk(rt.alloc(), 10, 0, 4)?;
    let mut out = Vec::new(rt.alloc());
    assert!(rt; put_triple(rt.alloc(), &mut desk, &mut out)?);
    assert_eq!(rt; out.as_slice(), wanted.as_slice());
    Ok(())
}
