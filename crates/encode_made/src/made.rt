//! The made items, which are what their number says.
ghost use Rattle.std.specs.Prelude.{◌≡◌, ◌++◌, ◌/◌, codes, IfOk, OnOk};
ghost use Rattle.jl_base.specs.Items.{item_of, value_of};
ghost use Rattle.jl_encoding.specs.Encoding.{options_of};
ghost use Rattle.jl_encoding.specs.Items.{Fits};
ghost use Rattle.jl_encoding.specs.declared.form.Form.TheVariants.{Triples};
ghost use Rattle.jl_base.specs.Terms as said;
ghost use Rattle.encode_made.specs.Made.{IsOfGroup};
ghost use Rattle.encode_made.specs.Made as spec;

use jl_base::{Item, Tail, Term, Text};
use std::alloc::{AllocError, Global};
use std::mem;

// A number that looks like chance.
fn mixed(i: u32, j: u32) -> u64
    ensures { result ≡ spec.mixed i j }
{
    (u64::from(i) * 7919 + u64::from(j) * 104_729) % 1_000_003
}

// Appends a text and a number behind it.
fn push_numbered(out: &mut Text, text: &[u8], n: u64) -> Result<(), AllocError>
    ensures { OnOk result (out.new ≡ out.old ++ spec.numbered text.now n) }
{
    let mut digits = itoa::Buffer::new();
    out.append(text)?;
    out.append(digits.format(n).as_bytes())
}

// A text and a number behind it, in the memory that the text has.
fn numbered(out: &mut Text, text: &[u8], n: u64) -> Result<(), AllocError>
    ensures { OnOk result (out.new ≡ spec.numbered text.now n) }
{
    out.truncate(0);
    push_numbered(out, text, n)
}

// The IRI of a node of a vocabulary.
fn node(out: &mut Text, v: u64, n: u64) -> Result<(), AllocError>
    ensures { OnOk result (out.new ≡ spec.node v n) }
{
    numbered(out, b"http://example.org/v", v)?;
    push_numbered(out, b"/n", n)
}

// The IRI of a vocabulary.
fn vocabulary(out: &mut Text, v: u64) -> Result<(), AllocError>
    ensures { OnOk result (out.new ≡ spec.vocabulary v) }
{
    numbered(out, b"http://example.org/v", v)?;
    out.push(b'/')
}

fn namespace(alloc: Global, i: u32) -> Result<Item, AllocError>
    ensures { IfOk result (λ x. item_of x ≡ spec.namespace i) }
{
    let mut name = Text::new(alloc);
    let mut iri = Text::new(alloc);
    numbered(&mut name, b"p", u64::from(i / 1000))?;
    vocabulary(&mut iri, mixed(i, 0) % 150)?;
    Ok(Item::Namespace { name, iri })
}

// A text whose memory can be used again: one of the term's, which goes. A second one of it is kept as the spare one.
fn text_of(alloc: Global, term: Term, spare: &mut Text) -> Text {
    match term {
        Term::Iri(text) | Term::Bnode(text) => text,
        Term::Literal { lex, tail } => {
            if let Tail::Lang(text) | Tail::Typed(text) = tail {
                *spare = text;
            }
            lex
        }
        _ => Text::new(alloc),
    }
}

// Makes a term the IRI of a node.
fn refill_node(
    alloc: Global,
    held: &mut Term,
    spare: &mut Text,
    v: u64,
    n: u64,
) -> Result<(), AllocError>
    ensures { OnOk result (value_of held.new ≡ said.Iri (spec.node v n)) }
{
    if let Term::Iri(text) = held {
        return node(text, v, n);
    }
    let mut text = text_of(alloc, mem::replace(held, Term::Default), spare);
    node(&mut text, v, n)?;
    *held = Term::Iri(text);
    Ok(())
}

// The subject of a group of four items.
fn subject_of(
    alloc: Global,
    held: &mut Term,
    spare: &mut Text,
    group: u32,
) -> Result<(), AllocError>
    ensures { OnOk result (value_of held.new ≡ spec.subject_of group) }
{
    let (v, n) = (mixed(group, 1) % 200, mixed(group, 2) % 9000);
    refill_node(alloc, held, spare, v, n)
}

// Makes the subject of a group that of an item, which mostly is the same.
fn subject(
    alloc: Global,
    held: &mut Term,
    spare: &mut Text,
    group: &mut u32,
    i: u32,
) -> Result<(), AllocError>
    requires { value_of held.old ≡ spec.subject_of group.old }
    ensures subject { OnOk result (value_of held.new ≡ spec.subject i) }
    ensures group { OnOk result (group.new ≡ i / 4) }
{
    let wanted = i / 4;
    if *group == wanted {
        return Ok(());
    }
    subject_of(alloc, held, spare, wanted)?;
    *group = wanted;
    Ok(())
}

fn predicate(alloc: Global, held: &mut Term, i: u32) -> Result<(), AllocError>
    ensures { OnOk result (value_of held.new ≡ spec.predicate i) }
{
    let n = mixed(i, 3) % 40;
    if let Term::Iri(text) = held {
        return numbered(text, b"http://example.org/p/", n);
    }
    let mut text = Text::new(alloc);
    numbered(&mut text, b"http://example.org/p/", n)?;
    *held = Term::Iri(text);
    Ok(())
}

fn label(alloc: Global, held: &mut Term, spare: &mut Text, n: u64) -> Result<(), AllocError>
    ensures { OnOk result (value_of held.new ≡ said.Bnode (spec.numbered (codes "b") n)) }
{
    if let Term::Bnode(text) = held {
        return numbered(text, b"b", n);
    }
    let mut text = text_of(alloc, mem::replace(held, Term::Default), spare);
    numbered(&mut text, b"b", n)?;
    *held = Term::Bnode(text);
    Ok(())
}

// Texts whose memory can be used again: those of the term, which goes, and the spare one where it has one alone.
fn texts_of(alloc: Global, term: Term, spare: &mut Text) -> (Text, Text) {
    match term {
        Term::Iri(text) | Term::Bnode(text) => (text, mem::replace(spare, Text::new(alloc))),
        Term::Literal { lex, tail } => match tail {
            Tail::Lang(text) | Tail::Typed(text) => (lex, text),
            Tail::Simple => (lex, Text::new(alloc)),
        },
        _ => (Text::new(alloc), Text::new(alloc)),
    }
}

// A number with a datatype.
fn typed(alloc: Global, held: &mut Term, spare: &mut Text, i: u32) -> Result<(), AllocError>
    ensures { OnOk result (value_of held.new ≡ spec.typed i) }
{
    let (mut lex, mut datatype) = texts_of(alloc, mem::replace(held, Term::Default), spare);
    numbered(&mut lex, b"", mixed(i, 5))?;
    numbered(&mut datatype, b"http://example.org/t/", mixed(i, 7) % 40)?;
    *held = Term::Literal {
        lex,
        tail: Tail::Typed(datatype),
    };
    Ok(())
}

// A text with a language tag.
fn tagged(alloc: Global, held: &mut Term, spare: &mut Text, i: u32) -> Result<(), AllocError>
    ensures { OnOk result (value_of held.new ≡ spec.tagged i) }
{
    let (mut lex, mut tag) = texts_of(alloc, mem::replace(held, Term::Default), spare);
    numbered(&mut lex, b"text ", mixed(i, 5))?;
    tag.truncate(0);
    tag.append(b"en")?;
    *held = Term::Literal {
        lex,
        tail: Tail::Lang(tag),
    };
    Ok(())
}

fn object(alloc: Global, held: &mut Term, spare: &mut Text, i: u32) -> Result<(), AllocError>
    ensures { OnOk result (value_of held.new ≡ spec.object i) }
{
    match mixed(i, 4) % 4 {
        0 => refill_node(alloc, held, spare, mixed(i, 5) % 200, mixed(i, 6) % 9000),
        1 => label(alloc, held, spare, mixed(i, 6) % 5000),
        2 => typed(alloc, held, spare, i),
        _ => tagged(alloc, held, spare, i),
    }
}

fn triple(alloc: Global, spare: &mut Text, i: u32) -> Result<Item, AllocError>
    ensures { IfOk result (λ x. item_of x ≡ said.Triple (spec.subject i) (spec.predicate i) (spec.object i)) }
{
    let (mut s, mut p, mut o) = (Term::Default, Term::Default, Term::Default);
    subject_of(alloc, &mut s, spare, i / 4)?;
    predicate(alloc, &mut p, i)?;
    object(alloc, &mut o, spare, i)?;
    Ok(Item::Triple(s, p, o))
}

// Makes an item the made item of a number, where it can in the memory that it has.
fn refill_item(
    alloc: Global,
    item: &mut Item,
    spare: &mut Text,
    group: &mut u32,
    i: u32,
) -> Result<(), AllocError>
    requires { IsOfGroup group.old (item_of item.old) }
    ensures item { OnOk result (item_of item.new ≡ spec.made_item i) }
    ensures group { OnOk result (IsOfGroup group.new (item_of item.new)) }
{
    if i % 1000 == 0 {
        *item = namespace(alloc, i)?;
        return Ok(());
    }
    if let Item::Triple(s, p, o) = item {
        subject(alloc, s, spare, group, i)?;
        predicate(alloc, p, i)?;
        return object(alloc, o, spare, i);
    }
    *item = triple(alloc, spare, i)?;
    *group = i / 4;
    Ok(())
}

/// A made item, whose memory is used again for the next one.
#[derive(Drop)]
pub struct Made {
    pub item: Item,
    // The group that the subject is of.
    pub group: u32,
    // A text that isn't used, for its memory.
    pub spare: Text,
}

impl Made {
    /// Before the first item.
    pub fn new(alloc: Global) -> Made
        ensures { IsOfGroup result.group (item_of result.item) }
    {
        Made {
            item: Item::Namespace {
                name: Text::new(alloc),
                iri: Text::new(alloc),
            },
            group: 0,
            spare: Text::new(alloc),
        }
    }
}

/// Makes an item the made item of a number, where it can in the memory that it has.
pub fn refill(alloc: Global, made: &mut Made, i: u32) -> Result<(), AllocError>
    requires { IsOfGroup made.old.group (item_of made.old.item) }
    ensures item { OnOk result (item_of made.new.item ≡ spec.made_item i) }
    ensures fits { OnOk result (Fits (options_of Triples) (item_of made.new.item)) }
    ensures group { OnOk result (IsOfGroup made.new.group (item_of made.new.item)) }
{
    refill_item(alloc, &mut made.item, &mut made.spare, &mut made.group, i)
}
