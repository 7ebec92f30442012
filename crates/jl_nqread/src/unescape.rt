//! Texts with their escapes replaced.
ghost use Rattle.std.specs.Prelude.{◌≡◌, ◌+◌, ◌<◌, ◌≤◌, ◌++◌, IfOk, IsTrue, OnOk, drop, false, length, slice_range};
ghost use Rattle.jl_nqread.specs.Taking as taking;
ghost use Rattle.jl_nqread.specs.Meaning as spec;

use crate::escape::{eight_digits, four_digits};
use jl_base::Text;
use std::alloc::{AllocError, Global};

// Whether a byte that begins no escape stands at a place.
fn is_plain_at(bytes: &[u8], at: usize) -> bool
    ensures exact { result ≡ taking.starts spec.is_plain (drop at bytes.now) }
    ensures inside { IsTrue result → at < length bytes.now }
{
    at < bytes.len() && bytes[at] != b'\\'
}

// The next escape from a place on, or the end.
fn plain_end(bytes: &[u8], from: usize) -> usize
    requires { from ≤ length bytes.now }
    ensures inside { (from ≤ result) × (result ≤ length bytes.now) }
    ensures plain { spec.unescaped 0 (drop from bytes.now) ≡ slice_range bytes.now from result ++ spec.unescaped 0 (drop result bytes.now) }
    ensures escape { taking.starts spec.is_plain (drop result bytes.now) ≡ false }
{
    let mut at = from;
    'run: while is_plain_at(bytes, at) {
        at += 1;
    }
    at
}

// Appends a character, where this number is one's.
fn push_scalar(out: &mut Text, number: u32) -> Result<(), AllocError>
    ensures { OnOk result (out.new ≡ out.old ++ spec.scalar number) }
{
    match char::from_u32(number) {
        Some(found) => {
            let mut buffer = [0; 4];
            out.append(found.encode_utf8(&mut buffer).as_bytes())
        }
        None => Ok(()),
    }
}

#[tactic(auto, unfolding(crate::specs::Meaning::character))]
fn push_character(out: &mut Text, number: Option<u32>) -> Result<(), AllocError>
    ensures { OnOk result (out.new ≡ out.old ++ spec.character number) }
{
    match number {
        Some(number) => push_scalar(out, number),
        None => Ok(()),
    }
}

fn short_escape(byte: u8) -> u8
    ensures { result ≡ spec.short_escape byte }
{
    match byte {
        b't' => b'\t',
        b'b' => 8,
        b'n' => b'\n',
        b'r' => b'\r',
        b'f' => 12,
        _ => byte,
    }
}

// Appends the character of an escape whose backslash stands before a place: the place after the escape.
#[tactic(auto, unfolding(crate::specs::Meaning::escaped, crate::specs::Meaning::escape_bytes))]
fn push_escaped(out: &mut Text, bytes: &[u8], at: usize) -> Result<usize, AllocError>
    ensures text { IfOk result (λ _. out.new ≡ out.old ++ spec.escaped (drop at bytes.now)) }
    ensures place { IfOk result (λ end. end ≡ at + spec.escape_bytes (drop at bytes.now)) }
{
    if at >= bytes.len() {
        return Ok(at);
    }
    match bytes[at] {
        b'u' => {
            push_character(out, four_digits(bytes, at + 1, 0))?;
            Ok(at + 5)
        }
        b'U' => {
            push_character(out, eight_digits(bytes, at + 1))?;
            Ok(at + 9)
        }
        letter => {
            out.push(short_escape(letter))?;
            Ok(at + 1)
        }
    }
}

/// A text with its escapes replaced. Takes memory for the text.
pub fn unescaped(alloc: Global, bytes: &[u8]) -> Result<Text, AllocError>
    ensures { IfOk result (λ text. text ≡ spec.unescaped 0 bytes.now) }
{
    let first = plain_end(bytes, 0);
    let mut text = Text::from_bytes(alloc, &bytes[..first])?;
    let mut at = first;
    'escapes: while at < bytes.len() {
        let next = push_escaped(&mut text, bytes, at + 1)?;
        if next >= bytes.len() {
            return Ok(text);
        }
        let end = plain_end(bytes, next);
        text.append(&bytes[next..end])?;
        at = end;
    }
    Ok(text)
}
