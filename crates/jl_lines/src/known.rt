//! The text of a term, from where its texts lie.
ghost use Rattle.std.specs.Prelude.{◌≡◌, ◌++◌, OnOk, codes};
ghost use Rattle.jl_text.specs.Line.{term_text, tail_text, iri_text};
ghost use Rattle.jl_state.specs.Extents.{text_in, IsSound};
ghost use Rattle.jl_state.specs.KnownTerms.{known_value, tail_value, AreParts, HasKnown, HasTail};

use jl_state::{Extent, Known, KnownTail, KnownThree};
use jl_text::{push_clean_iri, push_datatype, push_iri, push_label, push_string, push_tag};
use std::alloc::AllocError;

/// Appends an IRI by its prefix and its name.
#[inline]
pub fn push_iri_of(
    out: &mut Vec<u8>,
    bytes: &[u8],
    prefix: Extent,
    name: Extent,
) -> Result<(), AllocError>
    requires prefix { IsSound bytes.now prefix }
    requires name { IsSound bytes.now name }
    ensures { OnOk result (out.new.items ≡ out.old.items ++ iri_text (text_in bytes.now prefix ++ text_in bytes.now name)) }
{
    if prefix.is_plain() && name.is_plain() {
        return push_clean_iri(out, prefix.text(bytes), name.text(bytes));
    }
    push_iri(out, prefix.text(bytes), name.text(bytes))
}

// Appends what follows a literal's string.
#[inline]
#[tactic(auto, unfolding(jl_text::specs::Line::tail_text))]
fn push_tail(out: &mut Vec<u8>, bytes: &[u8], tail: KnownTail) -> Result<(), AllocError>
    requires { HasTail bytes.now tail }
    ensures { OnOk result (out.new.items ≡ out.old.items ++ tail_text (tail_value bytes.now tail)) }
{
    match tail {
        KnownTail::Simple => Ok(()),
        KnownTail::Lang(tag) => push_tag(out, tag.text(bytes)),
        KnownTail::Typed(datatype) => {
            if datatype.is_xsd_string() {
                return Ok(());
            }
            push_datatype(out, datatype.text(bytes), datatype.is_clean())
        }
    }
}

/// Appends a term's text; the default graph has none.
#[cycle(push)]
#[tactic(auto, unfolding(jl_text::specs::Line::term_text))]
pub fn push_known(out: &mut Vec<u8>, bytes: &[u8], term: &Known) -> Result<(), AllocError>
    requires { HasKnown bytes.now term.now }
    ensures { OnOk result (out.new.items ≡ out.old.items ++ term_text (known_value bytes.now term.now)) }
{
    match term {
        Known::Iri { prefix, name } => push_iri_of(out, bytes, *prefix, *name),
        Known::Bnode(label) => push_label(out, label.text(bytes)),
        Known::Literal { lex, tail } => {
            push_string(out, lex.text(bytes))?;
            push_tail(out, bytes, *tail)
        }
        Known::Triple(three) => push_three(out, bytes, term, three.get()),
        Known::Default => Ok(()),
    }
}

// Appends a triple term, whose three these are.
#[cycle(push)]
#[tactic(auto, unfolding(jl_text::specs::Line::term_text))]
fn push_three(
    out: &mut Vec<u8>,
    bytes: &[u8],
    whole: &Known,
    three: &KnownThree,
) -> Result<(), AllocError>
    requires has { HasKnown bytes.now whole.now }
    requires parts { AreParts bytes.now whole.now three.now }
    ensures { OnOk result (out.new.items ≡ out.old.items ++ term_text (known_value bytes.now whole.now)) }
{
    out.extend_from_slice(b"<< ")?;
    push_known(out, bytes, &three.s)?;
    out.push(b' ')?;
    push_known(out, bytes, &three.p)?;
    out.push(b' ')?;
    push_known(out, bytes, &three.o)?;
    out.extend_from_slice(b" >>")?;
    Ok(())
}
