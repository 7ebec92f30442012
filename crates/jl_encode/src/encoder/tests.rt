ghost use Rattle.std.specs.Prelude.{IsTrue};
ghost use Rattle.jl_base.specs.Items.{item_of};
ghost use Rattle.jl_encoding.specs.Encoding.{options_of};
ghost use Rattle.jl_encoding.specs.Items.{Fits};

use super::Encoder;
use crate::{Stop, encode};
use jl_base::{Item, Tail, Term, Text, Three};
use jl_encoding::Form;
use jl_io::MemShelf;
use sqlite_items::Boxed;
use std::alloc::Global;
use std::process::Abort;
use std::test::Fail;

// Room for any file here.
const ROOM: usize = 1 << 20;

// What holds much stands behind a pointer here: a function that has it in place is slow to prove.
fn shelf(alloc: Global, fails: &[u64]) -> Result<Box<MemShelf>, Fail> {
    Ok(Box::new(alloc, MemShelf::new(alloc, ROOM, ROOM, 1, fails)?)?)
}

fn encoder(alloc: Global, form: Form, per: u32) -> Result<Box<Encoder>, Fail> {
    let encoder = Encoder::new(alloc, form, per.clamp(1, 65536))?;
    Ok(Box::new(alloc, encoder)?)
}

fn triples(alloc: Global, per: u32) -> Result<Box<Encoder>, Fail> {
    encoder(alloc, Form::Triples, per)
}

fn iri(alloc: Global, text: &str) -> Result<Term, Fail> {
    Ok(Term::Iri(Text::from_bytes(alloc, text.as_bytes())?))
}

fn fits(form: Form, item: &Item) -> bool
    ensures { IsTrue result → Fits (options_of form) (item_of item.now) }
{
    match (form, item) {
        (Form::Triples, Item::Triple(..)) => true,
        (Form::Quads, Item::Quad(..)) => true,
        (_, Item::Namespace { .. }) => true,
        _ => false,
    }
}

// Adds an item that fits the encoder's form.
fn add(
    rt: &impl Abort,
    encoder: &mut Encoder,
    item: Box<Item>,
    shelf: &mut MemShelf,
) -> Result<(), Stop> {
    assert!(rt; fits(encoder.form, &item));
    assert!(rt; encoder.desk.item() <= 1 << 62);
    encoder.add(&item, shelf)
}

fn finish(encoder: &mut Encoder, shelf: &mut MemShelf) -> Result<(), Stop> {
    encoder.finish(shelf)
}

fn boxed(alloc: Global, item: Item) -> Result<Box<Item>, Fail> {
    Ok(Box::new(alloc, item)?)
}

fn made_namespace(alloc: Global) -> Result<Box<Item>, Fail> {
    let item = Item::Namespace {
        name: Text::from_bytes(alloc, b"p0")?,
        iri: Text::from_bytes(alloc, b"http://example.org/v0/")?,
    };
    boxed(alloc, item)
}

fn made_object(alloc: Global) -> Result<Term, Fail> {
    Ok(Term::Literal {
        lex: Text::from_bytes(alloc, b"text 531564")?,
        tail: Tail::Lang(Text::from_bytes(alloc, b"en")?),
    })
}

fn made_triple(alloc: Global) -> Result<Box<Item>, Fail> {
    let subject = iri(alloc, "http://example.org/v129/n2458")?;
    let predicate = iri(alloc, "http://example.org/p/26")?;
    boxed(alloc, Item::Triple(subject, predicate, made_object(alloc)?))
}

#[test]
fn made_pair(rt: HostRuntime) -> Result<(), Fail> {
    let wanted =
        b"\xAB\x01\x0A\x12\x0A\x10\x10\x01\x18\x01\x20\x01\x48\xA0\x1F\x50\x96\x01\x58\x20\x78\x02\
        \x0A\x1A\x52\x18\x12\x16http://example.org/v0/\x0A\x02\x4A\x00\x0A\x0A\x32\x08\x0A\x02p0\x12\x02\x08\x01\
        \x0A\x1C\x52\x1A\x12\x18http://example.org/v129/\x0A\x09\x4A\x07\x12\x05n2458\
        \x0A\x19\x52\x17\x12\x15http://example.org/p/\x0A\x06\x4A\x04\x12\x0226\
        \x0A\x1D\x12\x1B\x0A\x02\x08\x02\x2A\x02\x08\x03\x5A\x11\x0A\x0Btext 531564\x12\x02en";
    let mut shelf = shelf(rt.alloc(), &[])?;
    let mut encoder = triples(rt.alloc(), 256)?;
    add(&rt, &mut encoder, made_namespace(rt.alloc())?, &mut shelf)?;
    add(&rt, &mut encoder, made_triple(rt.alloc())?, &mut shelf)?;
    finish(&mut encoder, &mut shelf)?;
    assert_eq!(rt; shelf.under_way(), wanted.as_slice());
    Ok(())
}

#[test]
fn no_items(rt: HostRuntime) -> Result<(), Fail> {
    let wanted =
        b"\x14\x0A\x12\x0A\x10\x10\x01\x18\x01\x20\x01\x48\xA0\x1F\x50\x96\x01\x58\x20\x78\x02";
    let mut shelf = shelf(rt.alloc(), &[])?;
    let mut encoder = triples(rt.alloc(), 1)?;
    finish(&mut encoder, &mut shelf)?;
    assert_eq!(rt; shelf.under_way(), wanted.as_slice());
    Ok(())
}

fn node(alloc: Global, label: &str) -> Result<Term, Fail> {
    Ok(Term::Bnode(Text::from_bytes(alloc, label.as_bytes())?))
}

fn quad(alloc: Global) -> Result<Box<Item>, Fail> {
    let subject = node(alloc, "b")?;
    let predicate = node(alloc, "b")?;
    boxed(
        alloc,
        Item::Quad(subject, predicate, node(alloc, "b")?, Term::Default),
    )
}

// The second quad repeats all terms of the first.
#[test]
fn quads(rt: HostRuntime) -> Result<(), Fail> {
    let wanted =
        b"\x23\x0A\x12\x0A\x10\x10\x02\x18\x01\x20\x01\x48\xA0\x1F\x50\x96\x01\x58\x20\x78\x02\
        \x0A\x0D\x1A\x0B\x12\x01b\x32\x01b\x52\x01b\x7A\x00\x04\x0A\x02\x1A\x00";
    let mut shelf = shelf(rt.alloc(), &[])?;
    let mut encoder = encoder(rt.alloc(), Form::Quads, 1)?;
    add(&rt, &mut encoder, quad(rt.alloc())?, &mut shelf)?;
    add(&rt, &mut encoder, quad(rt.alloc())?, &mut shelf)?;
    finish(&mut encoder, &mut shelf)?;
    assert_eq!(rt; shelf.under_way(), wanted.as_slice());
    Ok(())
}

// A triple that says one IRI three times.
fn thrice(alloc: Global, k: u64) -> Result<Box<Item>, Fail> {
    let name = format!(in alloc; "n{k}")?;
    let subject = iri(alloc, name.as_str())?;
    let predicate = iri(alloc, name.as_str())?;
    boxed(
        alloc,
        Item::Triple(subject, predicate, iri(alloc, name.as_str())?),
    )
}

fn add_names(
    rt: &impl Abort,
    alloc: Global,
    encoder: &mut Encoder,
    shelf: &mut MemShelf,
) -> Result<(), Fail> {
    for k in 0..4001u64 {
        add(rt, encoder, thrice(alloc, k)?, shelf)?;
    }
    Ok(())
}

// The last item's name takes the first slot again.
#[test]
fn more_names_than_slots(rt: HostRuntime) -> Result<(), Fail> {
    let wanted = b"\x0A\x09\x4A\x07\x12\x05n3999\
        \x0A\x0E\x12\x0C\x0A\x00\x2A\x03\x10\xA0\x1F\x4A\x03\x10\xA0\x1F\
        \x0A\x0B\x4A\x09\x08\x01\x12\x05n4000\
        \x0A\x0E\x12\x0C\x0A\x02\x10\x01\x2A\x02\x10\x01\x4A\x02\x10\x01";
    let mut shelf = shelf(rt.alloc(), &[])?;
    let mut encoder = triples(rt.alloc(), 256)?;
    add_names(&rt, rt.alloc(), &mut encoder, &mut shelf)?;
    finish(&mut encoder, &mut shelf)?;
    assert!(rt; shelf.under_way().ends_with(wanted));
    Ok(())
}

// A literal of its own datatype.
fn typed(alloc: Global, k: u64) -> Result<Term, Fail> {
    let datatype = format!(in alloc; "d{k}")?;
    Ok(Term::Literal {
        lex: Text::new(alloc),
        tail: Tail::Typed(Text::from_bytes(alloc, datatype.as_bytes())?),
    })
}

fn around(alloc: Global, k: u64, object: Term) -> Result<Term, Fail> {
    let three = Three {
        s: typed(alloc, k)?,
        p: iri(alloc, "p")?,
        o: object,
    };
    Ok(Term::Triple(Boxed::new(alloc, three)?))
}

// A triple whose object nests triple terms, so many deep, and which has another datatype at each level.
fn nested(alloc: Global, depth: u64) -> Result<Box<Item>, Fail> {
    let mut object = iri(alloc, "o")?;
    for k in 0..depth {
        object = around(alloc, k, object)?;
    }
    let subject = typed(alloc, depth)?;
    boxed(alloc, Item::Triple(subject, iri(alloc, "p")?, object))
}

#[test]
fn too_wide(rt: HostRuntime) -> Result<(), Fail> {
    let mut shelf = shelf(rt.alloc(), &[])?;
    let mut encoder = triples(rt.alloc(), 1)?;
    let answer = add(&rt, &mut encoder, nested(rt.alloc(), 32)?, &mut shelf);
    assert!(rt; matches!(answer, Err(Stop::TooWide(1))));
    assert!(rt; matches!(finish(&mut encoder, &mut shelf), Err(Stop::Spent)));
    assert!(rt; shelf.under_way().is_empty());
    Ok(())
}

#[test]
fn not_too_wide(rt: HostRuntime) -> Result<(), Fail> {
    let mut shelf = shelf(rt.alloc(), &[])?;
    let mut encoder = triples(rt.alloc(), 1)?;
    add(&rt, &mut encoder, nested(rt.alloc(), 31)?, &mut shelf)?;
    Ok(())
}

#[test]
fn add_behind_finish(rt: HostRuntime) -> Result<(), Fail> {
    let mut shelf = shelf(rt.alloc(), &[])?;
    let mut encoder = triples(rt.alloc(), 1)?;
    finish(&mut encoder, &mut shelf)?;
    let answer = add(&rt, &mut encoder, thrice(rt.alloc(), 0)?, &mut shelf);
    assert!(rt; matches!(answer, Err(Stop::Spent)));
    Ok(())
}

// A frame's length is one write, and its body another.
#[test]
fn failing_sinks(rt: HostRuntime) -> Result<(), Fail> {
    for fails in [1, 2] {
        let mut shelf = shelf(rt.alloc(), &[fails])?;
        let mut encoder = triples(rt.alloc(), 1)?;
        let answer = add(&rt, &mut encoder, thrice(rt.alloc(), 0)?, &mut shelf);
        assert!(rt; matches!(answer, Err(Stop::WriteFault)));
        let answer = add(&rt, &mut encoder, thrice(rt.alloc(), 0)?, &mut shelf);
        assert!(rt; matches!(answer, Err(Stop::Spent)));
    }
    Ok(())
}

#[test]
fn failing_finish(rt: HostRuntime) -> Result<(), Fail> {
    let mut shelf = shelf(rt.alloc(), &[2])?;
    let mut encoder = triples(rt.alloc(), 2)?;
    add(&rt, &mut encoder, thrice(rt.alloc(), 0)?, &mut shelf)?;
    assert!(rt; matches!(finish(&mut encoder, &mut shelf), Err(Stop::WriteFault)));
    assert!(rt; matches!(finish(&mut encoder, &mut shelf), Err(Stop::Spent)));
    assert_eq!(rt; shelf.under_way(), b"\x2A".as_slice());
    Ok(())
}

fn of_nodes(alloc: Global, object: &str) -> Result<Item, Fail> {
    let subject = node(alloc, "a")?;
    let predicate = node(alloc, "b")?;
    Ok(Item::Triple(subject, predicate, node(alloc, object)?))
}

fn encode_three(
    rt: &impl Abort,
    alloc: Global,
    items: &[Item; 3],
    shelf: &mut MemShelf,
) -> Result<(), Stop> {
    let [first, second, third] = items;
    assert!(rt; fits(Form::Triples, first));
    assert!(rt; fits(Form::Triples, second));
    assert!(rt; fits(Form::Triples, third));
    encode(alloc, Form::Triples, 2, items, shelf)
}

// Of three items the last one stands in a second frame.
#[test]
fn two_to_a_frame(rt: HostRuntime) -> Result<(), Fail> {
    let wanted =
        b"\x28\x0A\x12\x0A\x10\x10\x01\x18\x01\x20\x01\x48\xA0\x1F\x50\x96\x01\x58\x20\x78\x02\
        \x0A\x0B\x12\x09\x12\x01a\x32\x01b\x52\x01c\x0A\x05\x12\x03\x52\x01d\
        \x07\x0A\x05\x12\x03\x52\x01c";
    let mut shelf = shelf(rt.alloc(), &[])?;
    let alloc = rt.alloc();
    let items = [
        of_nodes(alloc, "c")?,
        of_nodes(alloc, "d")?,
        of_nodes(alloc, "c")?,
    ];
    encode_three(&rt, alloc, &items, &mut shelf)?;
    assert_eq!(rt; shelf.under_way(), wanted.as_slice());
    Ok(())
}
