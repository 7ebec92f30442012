//! The parts of a line, appended straight from the bytes of a file. An error is want of memory, and then the text may end
//! with some of what was to be appended.
ghost use Rattle.std.specs.Prelude.{◌≡◌, ◌++◌, ◌↔◌, codes, OnOk, IsTrue};
ghost use Rattle.jl_base.specs.Terms.{Namespace};
ghost use Rattle.jl_text.specs.Line.{iri_escaped, iri_text, string_escaped, string_text, label_written, line, xsd_string};

use crate::escape::{Terminal, is_clean, push_escaped};
use crate::lanes::is_clean_string;
use std::alloc::AllocError;

/// Whether an IRI has the text as it is.
#[tactic(auto, using(crate::proofs::CleanLemmas::clean_iri))]
#[inline]
pub fn is_clean_iri(text: &[u8]) -> bool
    ensures { IsTrue result ↔ (iri_escaped text.now ≡ text.now) }
{
    is_clean(Terminal::IriRef, text)
}

#[inline]
fn push_iri_part(out: &mut Vec<u8>, text: &[u8], is_clean: bool) -> Result<(), AllocError>
    requires { IsTrue is_clean → iri_escaped text.now ≡ text.now }
    ensures { OnOk result (out.new.items ≡ out.old.items ++ iri_escaped text.now) }
{
    if is_clean {
        out.extend_from_slice(text)
    } else {
        push_escaped(out, Terminal::IriRef, text)
    }
}

/// Appends the IRI whose text is a prefix and a name that an IRI has as they are. It does no more than four copies.
#[inline]
pub fn push_clean_iri(out: &mut Vec<u8>, prefix: &[u8], name: &[u8]) -> Result<(), AllocError>
    requires prefix { iri_escaped prefix.now ≡ prefix.now }
    requires name { iri_escaped name.now ≡ name.now }
    ensures { OnOk result (out.new.items ≡ out.old.items ++ iri_text (prefix.now ++ name.now)) }
{
    out.push(b'<')?;
    out.extend_from_slice(prefix)?;
    out.extend_from_slice(name)?;
    out.push(b'>')?;
    Ok(())
}

/// Appends the IRI whose text is a prefix and a name.
pub fn push_iri(out: &mut Vec<u8>, prefix: &[u8], name: &[u8]) -> Result<(), AllocError>
    ensures { OnOk result (out.new.items ≡ out.old.items ++ iri_text (prefix.now ++ name.now)) }
{
    out.push(b'<')?;
    push_iri_part(out, prefix, is_clean_iri(prefix))?;
    push_iri_part(out, name, is_clean_iri(name))?;
    out.push(b'>')?;
    Ok(())
}

// The length from which a text is gone through once, stretch by stretch, and not asked first whether it is all raw.
const LONG: usize = 128;

#[tactic(auto, using(crate::proofs::CleanLemmas::clean_string))]
#[inline]
fn push_string_part(out: &mut Vec<u8>, text: &[u8]) -> Result<(), AllocError>
    ensures { OnOk result (out.new.items ≡ out.old.items ++ string_escaped text.now) }
{
    if text.len() < LONG && is_clean_string(text) {
        out.extend_from_slice(text)
    } else {
        push_escaped(out, Terminal::StringLiteral, text)
    }
}

/// Appends a literal's string, in its quotes.
#[inline]
pub fn push_string(out: &mut Vec<u8>, lex: &[u8]) -> Result<(), AllocError>
    ensures { OnOk result (out.new.items ≡ out.old.items ++ string_text lex.now) }
{
    out.push(b'"')?;
    push_string_part(out, lex)?;
    out.push(b'"')?;
    Ok(())
}

/// Appends a literal's language tag.
#[inline]
pub fn push_tag(out: &mut Vec<u8>, tag: &[u8]) -> Result<(), AllocError>
    ensures { OnOk result (out.new.items ≡ out.old.items ++ (codes "@" ++ tag.now)) }
{
    out.push(b'@')?;
    out.extend_from_slice(tag)
}

/// Whether a literal of this datatype is written as a simple one.
#[inline]
pub fn is_xsd_string(datatype: &[u8]) -> bool
    ensures { IsTrue result ↔ (datatype.now ≡ xsd_string) }
{
    datatype == b"http://www.w3.org/2001/XMLSchema#string".as_slice()
}

/// Appends a literal's datatype. It is clean where an IRI has it as it is.
#[inline]
pub fn push_datatype(out: &mut Vec<u8>, datatype: &[u8], is_clean: bool) -> Result<(), AllocError>
    requires { IsTrue is_clean → iri_escaped datatype.now ≡ datatype.now }
    ensures { OnOk result (out.new.items ≡ out.old.items ++ (codes "^^" ++ iri_text datatype.now)) }
{
    out.extend_from_slice(b"^^<")?;
    push_iri_part(out, datatype, is_clean)?;
    out.push(b'>')?;
    Ok(())
}

#[tactic(auto, using(crate::proofs::CleanLemmas::empty_label, crate::proofs::CleanLemmas::escaped_label, crate::proofs::CleanLemmas::clean_label))]
#[inline]
fn push_label_part(out: &mut Vec<u8>, label: &[u8]) -> Result<(), AllocError>
    ensures { OnOk result (out.new.items ≡ out.old.items ++ label_written label.now) }
{
    if label.is_empty() {
        return out.extend_from_slice(b"X");
    }
    if is_clean(Terminal::BlankNodeLabel, label) {
        out.extend_from_slice(label)
    } else {
        push_escaped(out, Terminal::BlankNodeLabel, label)
    }
}

/// Appends a blank node by its label.
#[inline]
pub fn push_label(out: &mut Vec<u8>, label: &[u8]) -> Result<(), AllocError>
    ensures { OnOk result (out.new.items ≡ out.old.items ++ (codes "_:" ++ label_written label.now)) }
{
    out.extend_from_slice(b"_:")?;
    push_label_part(out, label)
}

/// Appends the line that declares a namespace's name for the IRI whose text is a prefix and a name.
#[tactic(auto, unfolding(crate::specs::Line::line))]
pub fn push_namespace(
    out: &mut Vec<u8>,
    label: &[u8],
    prefix: &[u8],
    name: &[u8],
) -> Result<(), AllocError>
    ensures { OnOk result
        (out.new.items ≡ out.old.items ++ line (Namespace label.now (prefix.now ++ name.now))) }
{
    out.extend_from_slice(b"# prefix ")?;
    push_string_part(out, label)?;
    out.push(b' ')?;
    push_iri(out, prefix, name)?;
    out.push(b'\n')?;
    Ok(())
}
