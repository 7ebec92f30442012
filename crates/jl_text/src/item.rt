//! The line of an item that stands by itself, as a value.
ghost use Rattle.std.specs.Prelude.{◌≡◌, ◌++◌, ◌↔◌, [], ◌∷◌, IsTrue, OnOk, OnErr};
ghost use Rattle.jl_base.specs.Terms as said;
ghost use Rattle.jl_base.specs.Items.{value_of, tail_of, item_of};
ghost use Rattle.jl_text.specs.Line.{term_text, tail_text, spaced, line};
ghost use Rattle.jl_text.specs.Graphs.{graph_part};

use crate::{
    is_clean_iri, is_xsd_string, push_datatype, push_iri, push_label, push_namespace, push_string,
    push_tag,
};
use jl_base::{Item, Tail, Term, Text, Three};
use std::alloc::{AllocError, Global};

#[tactic(auto, unfolding(crate::specs::Line::tail_text))]
fn push_tail(out: &mut Vec<u8>, tail: &Tail) -> Result<(), AllocError>
    ensures { OnOk result (out.new.items ≡ out.old.items ++ tail_text (tail_of tail.now)) }
{
    match tail {
        Tail::Simple => Ok(()),
        Tail::Lang(tag) => push_tag(out, tag.bytes()),
        Tail::Typed(datatype) => {
            let datatype = datatype.bytes();
            if is_xsd_string(datatype) {
                return Ok(());
            }
            push_datatype(out, datatype, is_clean_iri(datatype))
        }
    }
}

// Appends a term's text; the default graph has none.
#[cycle(push)]
#[tactic(auto, unfolding(crate::specs::Line::term_text), using(crate::proofs::StatementLemmas::nested_value))]
fn push_term(out: &mut Vec<u8>, term: &Term) -> Result<(), AllocError>
    ensures { OnOk result (out.new.items ≡ out.old.items ++ term_text (value_of term.now)) }
{
    match term {
        Term::Iri(iri) => push_iri(out, iri.bytes(), b""),
        Term::Bnode(label) => push_label(out, label.bytes()),
        Term::Literal { lex, tail } => {
            push_string(out, lex.bytes())?;
            push_tail(out, tail)
        }
        Term::Triple(three) => push_three(out, three.get()),
        Term::Default => Ok(()),
    }
}

// Appends the triple term of the three.
#[cycle(push)]
#[tactic(auto, unfolding(crate::specs::Line::term_text))]
fn push_three(out: &mut Vec<u8>, three: &Three) -> Result<(), AllocError>
    ensures { OnOk result (out.new.items ≡ out.old.items ++ term_text (said.Nested (value_of three.now.s) (value_of three.now.p) (value_of three.now.o))) }
{
    out.extend_from_slice(b"<< ")?;
    push_term(out, &three.s)?;
    out.push(b' ')?;
    push_term(out, &three.p)?;
    out.push(b' ')?;
    push_term(out, &three.o)?;
    out.extend_from_slice(b" >>")?;
    Ok(())
}

// Appends three terms with a space between each two.
fn push_spaced(out: &mut Vec<u8>, s: &Term, p: &Term, o: &Term) -> Result<(), AllocError>
    ensures { OnOk result (out.new.items ≡ out.old.items ++ spaced (term_text (value_of s.now) ∷ term_text (value_of p.now) ∷ term_text (value_of o.now) ∷ [])) }
{
    push_term(out, s)?;
    out.push(b' ')?;
    push_term(out, p)?;
    out.push(b' ')?;
    push_term(out, o)
}

fn is_default(term: &Term) -> bool
    ensures { IsTrue result ↔ (value_of term.now ≡ said.Default) }
{
    match term {
        Term::Iri(_) => false,
        Term::Bnode(_) => false,
        Term::Literal { .. } => false,
        Term::Triple(_) => false,
        Term::Default => true,
    }
}

fn push_graph(out: &mut Vec<u8>, graph: &Term) -> Result<(), AllocError>
    ensures { OnOk result (out.new.items ≡ out.old.items ++ graph_part (value_of graph.now)) }
{
    if is_default(graph) {
        return Ok(());
    }
    out.push(b' ')?;
    push_term(out, graph)?;
    Ok(())
}

#[tactic(auto, unfolding(crate::specs::Line::line))]
fn push_triple(out: &mut Vec<u8>, s: &Term, p: &Term, o: &Term) -> Result<(), AllocError>
    ensures { OnOk result (out.new.items ≡ out.old.items ++ line (said.Triple (value_of s.now) (value_of p.now) (value_of o.now))) }
{
    push_spaced(out, s, p, o)?;
    out.extend_from_slice(b" .\n")?;
    Ok(())
}

fn push_quad(out: &mut Vec<u8>, s: &Term, p: &Term, o: &Term, g: &Term) -> Result<(), AllocError>
    ensures { OnOk result (out.new.items ≡ out.old.items ++ line (said.Quad (value_of s.now) (value_of p.now) (value_of o.now) (value_of g.now))) }
{
    push_spaced(out, s, p, o)?;
    push_graph(out, g)?;
    out.extend_from_slice(b" .\n")?;
    Ok(())
}

fn push_line(out: &mut Vec<u8>, item: &Item) -> Result<(), AllocError>
    ensures { OnOk result (out.new.items ≡ out.old.items ++ line (item_of item.now)) }
{
    match item {
        Item::Triple(s, p, o) => push_triple(out, s, p, o),
        Item::Quad(s, p, o, g) => push_quad(out, s, p, o, g),
        Item::Namespace { name, iri } => push_namespace(out, name.bytes(), iri.bytes(), b""),
    }
}

/// Appends the item's line. Takes memory for the line, twice while it is appended.
pub fn line(alloc: Global, item: &Item, out: &mut Text) -> Result<(), AllocError>
    ensures ok { OnOk result (out.new ≡ out.old ++ line (item_of item.now)) }
    ensures err { OnErr result (out.new ≡ out.old) }
{
    let mut text = Vec::new(alloc);
    push_line(&mut text, item)?;
    out.append(&text)
}
