//! Fields: a tag, and then a number, or bytes after their length.
ghost use Rattle.std.specs.Prelude.{◌≡◌, ◌<◌, ◌≤◌, ◌+◌, ◌*◌, ◌^◌, ◌++◌, length, OnErr, OnOk};
ghost use Rattle.jl_spell.specs.Fields.{Bytes, Number, field_of, front_of};
ghost use Rattle.jl_spell.specs.Varints.{varint_of};

use crate::number::{push_varint, varint_len};
use std::alloc::AllocError;

// The number that a tag is, by the field's number and its wire type.
#[inline]
fn tag(field: u32, wire: u64) -> u64
    requires { wire < 8 }
    ensures exact { result ≡ field * 8 + wire }
{
    u64::from(field) * 8 + wire
}

// Appends two varints. Where memory isn't found, nothing is appended.
#[inline(always)]
fn push_both(out: &mut Vec<u8>, first: u64, second: u64) -> Result<(), AllocError>
    ensures ok { OnOk result (out.new.items ≡ out.old.items ++ (varint_of first ++ varint_of second)) }
    ensures err { OnErr result (out.new.items ≡ out.old.items) }
{
    if first < 128 && second < 128 {
        out.extend_from_slice(&[first as u8, second as u8])?;
        return Ok(());
    }
    push_long(out, first, second)
}

// The same, one after the other.
fn push_long(out: &mut Vec<u8>, first: u64, second: u64) -> Result<(), AllocError>
    ensures ok { OnOk result (out.new.items ≡ out.old.items ++ (varint_of first ++ varint_of second)) }
    ensures err { OnErr result (out.new.items ≡ out.old.items) }
{
    let before = out.len();
    push_varint(out, first)?;
    if let Err(error) = push_varint(out, second) {
        out.truncate(before);
        return Err(error);
    }
    Ok(())
}

/// Appends a field that holds a number. Where memory isn't found, nothing is appended.
#[tactic(auto, unfolding(crate::specs::Fields::field_of))]
#[inline]
pub fn push_number(out: &mut Vec<u8>, field: u32, number: u64) -> Result<(), AllocError>
    ensures ok { OnOk result (out.new.items ≡ out.old.items ++ field_of field (Number number)) }
    ensures err { OnErr result (out.new.items ≡ out.old.items) }
{
    push_both(out, tag(field, 0), number)
}

/// Appends what stands before the bytes of a field: its tag and their length. A message's fields can then be written
/// behind it. Where memory isn't found, nothing is appended.
#[inline]
pub fn push_front(out: &mut Vec<u8>, field: u32, len: usize) -> Result<(), AllocError>
    ensures ok { OnOk result (out.new.items ≡ out.old.items ++ front_of field len) }
    ensures err { OnErr result (out.new.items ≡ out.old.items) }
{
    push_both(out, tag(field, 2), len as u64)
}

/// Appends a field that holds bytes. Where memory isn't found, nothing is appended.
#[tactic(auto, unfolding(crate::specs::Fields::field_of))]
#[inline]
pub fn push_bytes(out: &mut Vec<u8>, field: u32, bytes: &[u8]) -> Result<(), AllocError>
    ensures ok { OnOk result (out.new.items ≡ out.old.items ++ field_of field (Bytes bytes.now)) }
    ensures err { OnErr result (out.new.items ≡ out.old.items) }
{
    let before = out.len();
    push_front(out, field, bytes.len())?;
    if let Err(error) = out.extend_from_slice(bytes) {
        out.truncate(before);
        return Err(error);
    }
    Ok(())
}

/// How many bytes a field that holds a number takes.
#[tactic(auto, unfolding(crate::specs::Fields::field_of))]
#[inline]
pub fn number_size(field: u32, number: u64) -> usize
    ensures exact { result ≡ length (field_of field (Number number)) }
    ensures within { result ≤ 20 }
{
    varint_len(tag(field, 0)) + varint_len(number)
}

/// How many bytes stand before the bytes of a field, of which there are so many.
#[inline]
pub fn front_size(field: u32, len: usize) -> usize
    ensures exact { result ≡ length (front_of field len) }
    ensures within { result ≤ 20 }
{
    varint_len(tag(field, 2)) + varint_len(len as u64)
}
