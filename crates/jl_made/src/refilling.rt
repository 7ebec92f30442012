//! Items that are made in the memory of earlier ones.
ghost use Rattle.std.specs.Prelude.{◌≡◌, ◌<◌, ◌≤◌, ◌++◌, ◌/◌, ◌^◌, codes, IfOk, OnOk};
ghost use Rattle.jl_base.specs.Items.{item_of, value_of};
ghost use Rattle.jl_base.specs.Terms as said;
ghost use Rattle.jl_made.specs.Items.{IsOfGroup};
ghost use Rattle.jl_made.specs.Items as spec;

use jl_base::{Item, Tail, Term, Text};
use std::alloc::{AllocError, Global};
use std::mem;

// A number that looks like chance.
fn mixed(number: u64, i: u32, j: u32) -> u64
    ensures { result ≡ spec.mixed number i j }
{
    (number % 65_536 * 31 + u64::from(i) * 7919 + u64::from(j) * 104_729) % 1_000_003
}

// Appends a text and a number behind it.
fn push_numbered(out: &mut Text, text: &[u8], n: u64) -> Result<(), AllocError>
    ensures { OnOk result (out.new ≡ out.old ++ spec.numbered text.now n) }
{
    let mut digits = itoa::Buffer::new();
    out.append(text)?;
    out.append(digits.format(n).as_bytes())
}

// A text and a number behind it, in the memory that the text has.
fn numbered(out: &mut Text, text: &[u8], n: u64) -> Result<(), AllocError>
    ensures { OnOk result (out.new ≡ spec.numbered text.now n) }
{
    out.truncate(0);
    push_numbered(out, text, n)
}

// The IRI of a node of a vocabulary.
fn node(out: &mut Text, v: u64, n: u64) -> Result<(), AllocError>
    ensures { OnOk result (out.new ≡ spec.node v n) }
{
    numbered(out, b"http://example.org/v", v)?;
    push_numbered(out, b"/n", n)
}

// The IRI of a vocabulary.
fn vocabulary(out: &mut Text, v: u64) -> Result<(), AllocError>
    ensures { OnOk result (out.new ≡ spec.vocabulary v) }
{
    numbered(out, b"http://example.org/v", v)?;
    out.push(b'/')
}

fn namespace(alloc: Global, number: u64, i: u32) -> Result<Item, AllocError>
    ensures { IfOk result (λ x. item_of x ≡ spec.namespace number i) }
{
    let mut name = Text::new(alloc);
    let mut iri = Text::new(alloc);
    numbered(&mut name, b"p", u64::from(i / 1000))?;
    vocabulary(&mut iri, mixed(number, i, 0) % 150)?;
    Ok(Item::Namespace { name, iri })
}

// A text whose memory can be used again: one of the term's, which goes. A second one of it is kept as the spare one.
fn text_of(alloc: Global, term: Term, spare: &mut Text) -> Text {
    match term {
        Term::Iri(text) | Term::Bnode(text) => text,
        Term::Literal { lex, tail } => {
            if let Tail::Lang(text) | Tail::Typed(text) = tail {
                *spare = text;
            }
            lex
        }
        _ => Text::new(alloc),
    }
}

// Makes a term the IRI of a node.
fn refill_node(
    alloc: Global,
    held: &mut Term,
    spare: &mut Text,
    v: u64,
    n: u64,
) -> Result<(), AllocError>
    ensures { OnOk result (value_of held.new ≡ said.Iri (spec.node v n)) }
{
    if let Term::Iri(text) = held {
        return node(text, v, n);
    }
    let mut text = text_of(alloc, mem::replace(held, Term::Default), spare);
    node(&mut text, v, n)?;
    *held = Term::Iri(text);
    Ok(())
}

// The subject of a group of four items.
fn subject_of(
    alloc: Global,
    held: &mut Term,
    spare: &mut Text,
    number: u64,
    group: u32,
) -> Result<(), AllocError>
    ensures { OnOk result (value_of held.new ≡ spec.subject_of number group) }
{
    let (v, n) = (
        mixed(number, group, 1) % 200,
        mixed(number, group, 2) % 9000,
    );
    refill_node(alloc, held, spare, v, n)
}

// Makes the subject of a group that of an item, which mostly is the same.
fn subject(
    alloc: Global,
    held: &mut Term,
    spare: &mut Text,
    group: &mut u32,
    number: u64,
    i: u32,
) -> Result<(), AllocError>
    requires { value_of held.old ≡ spec.subject_of number group.old }
    ensures subject { OnOk result (value_of held.new ≡ spec.subject number i) }
    ensures group { OnOk result (group.new ≡ i / 4) }
{
    let wanted = i / 4;
    if *group == wanted {
        return Ok(());
    }
    subject_of(alloc, held, spare, number, wanted)?;
    *group = wanted;
    Ok(())
}

fn predicate(alloc: Global, held: &mut Term, number: u64, i: u32) -> Result<(), AllocError>
    ensures { OnOk result (value_of held.new ≡ spec.predicate number i) }
{
    let n = mixed(number, i, 3) % 40;
    if let Term::Iri(text) = held {
        return numbered(text, b"http://example.org/p/", n);
    }
    let mut text = Text::new(alloc);
    numbered(&mut text, b"http://example.org/p/", n)?;
    *held = Term::Iri(text);
    Ok(())
}

fn label(alloc: Global, held: &mut Term, spare: &mut Text, n: u64) -> Result<(), AllocError>
    ensures { OnOk result (value_of held.new ≡ said.Bnode (spec.numbered (codes "b") n)) }
{
    if let Term::Bnode(text) = held {
        return numbered(text, b"b", n);
    }
    let mut text = text_of(alloc, mem::replace(held, Term::Default), spare);
    numbered(&mut text, b"b", n)?;
    *held = Term::Bnode(text);
    Ok(())
}

// Texts whose memory can be used again: those of the term, which goes, and the spare one where it has one alone.
fn texts_of(alloc: Global, term: Term, spare: &mut Text) -> (Text, Text) {
    match term {
        Term::Iri(text) | Term::Bnode(text) => (text, mem::replace(spare, Text::new(alloc))),
        Term::Literal { lex, tail } => match tail {
            Tail::Lang(text) | Tail::Typed(text) => (lex, text),
            Tail::Simple => (lex, Text::new(alloc)),
        },
        _ => (Text::new(alloc), Text::new(alloc)),
    }
}

// A number with a datatype.
fn typed(
    alloc: Global,
    held: &mut Term,
    spare: &mut Text,
    number: u64,
    i: u32,
) -> Result<(), AllocError>
    ensures { OnOk result (value_of held.new ≡ spec.typed number i) }
{
    let (mut lex, mut datatype) = texts_of(alloc, mem::replace(held, Term::Default), spare);
    numbered(&mut lex, b"", mixed(number, i, 5))?;
    numbered(
        &mut datatype,
        b"http://example.org/t/",
        mixed(number, i, 7) % 40,
    )?;
    *held = Term::Literal {
        lex,
        tail: Tail::Typed(datatype),
    };
    Ok(())
}

// A text with a language tag.
fn tagged(
    alloc: Global,
    held: &mut Term,
    spare: &mut Text,
    number: u64,
    i: u32,
) -> Result<(), AllocError>
    ensures { OnOk result (value_of held.new ≡ spec.tagged number i) }
{
    let (mut lex, mut tag) = texts_of(alloc, mem::replace(held, Term::Default), spare);
    numbered(&mut lex, b"text ", mixed(number, i, 5))?;
    tag.truncate(0);
    tag.append(b"en")?;
    *held = Term::Literal {
        lex,
        tail: Tail::Lang(tag),
    };
    Ok(())
}

fn object(
    alloc: Global,
    held: &mut Term,
    spare: &mut Text,
    number: u64,
    i: u32,
) -> Result<(), AllocError>
    ensures { OnOk result (value_of held.new ≡ spec.object number i) }
{
    match mixed(number, i, 4) % 4 {
        0 => refill_node(
            alloc,
            held,
            spare,
            mixed(number, i, 5) % 200,
            mixed(number, i, 6) % 9000,
        ),
        1 => label(alloc, held, spare, mixed(number, i, 6) % 5000),
        2 => typed(alloc, held, spare, number, i),
        _ => tagged(alloc, held, spare, number, i),
    }
}

fn triple(alloc: Global, spare: &mut Text, number: u64, i: u32) -> Result<Item, AllocError>
    ensures { IfOk result (λ x. item_of x ≡ said.Triple (spec.subject number i) (spec.predicate number i) (spec.object number i)) }
{
    let (mut s, mut p, mut o) = (Term::Default, Term::Default, Term::Default);
    subject_of(alloc, &mut s, spare, number, i / 4)?;
    predicate(alloc, &mut p, number, i)?;
    object(alloc, &mut o, spare, number, i)?;
    Ok(Item::Triple(s, p, o))
}

// Makes an item the made item of a place, where it can in the memory that it has.
pub(crate) fn refill_item(
    alloc: Global,
    item: &mut Item,
    spare: &mut Text,
    group: &mut u32,
    number: u64,
    i: u32,
) -> Result<(), AllocError>
    requires { IsOfGroup number group.old (item_of item.old) }
    ensures item { OnOk result (item_of item.new ≡ spec.made_item number i) }
    ensures group { OnOk result (IsOfGroup number group.new (item_of item.new)) }
{
    if i % 1000 == 0 {
        *item = namespace(alloc, number, i)?;
        return Ok(());
    }
    if let Item::Triple(s, p, o) = item {
        subject(alloc, s, spare, group, number, i)?;
        predicate(alloc, p, number, i)?;
        return object(alloc, o, spare, number, i);
    }
    *item = triple(alloc, spare, number, i)?;
    *group = i / 4;
    Ok(())
}
