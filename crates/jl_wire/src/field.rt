ghost use Rattle.std.specs.Prelude.{◌≡◌, ◌+◌, ◌-◌, ◌<◌, ◌≤◌, ◌^◌, IfOk, IfSome, length, slice_range};
ghost use Rattle.std.specs.Int.{w32, w64};
ghost use Rattle.jl_base.specs.Results.{Gives};
ghost use Rattle.jl_wire.specs.Fields as spec;
ghost use Rattle.jl_wire.specs.Seen.{content_seen, IsNextField, IsWithin, Lies};

use crate::varint;
use jl_base::{Kind, Span};

/// The greatest number of a field.
const MOST_NUMBER: u64 = (1 << 29) - 1;

/// What a field holds.
#[derive(Clone, Copy, Debug, PartialEq, Eq)]
pub enum Value {
    Varint(u64),
    Bytes(Span),
    Fixed64(u64),
    Fixed32(u32),
}

/// A field of a message, and the place after it.
#[derive(Clone, Copy, Debug, PartialEq, Eq)]
pub struct Field {
    pub number: u32,
    pub value: Value,
    pub next: usize,
}

/// The field at a place of a message that ends at `end`, or None at its end. The place after the field is where the
/// next one begins. It is put into its caller, where a field then stays in registers.
#[inline(always)]
pub fn next_field(bytes: &[u8], at: usize, end: usize) -> Result<Option<Field>, Kind>
    requires start { at ≤ end }
    requires inside { end ≤ length bytes.now }
    requires short { end - at < 2 ^ 32 }
    ensures exact { IsNextField bytes.now at end result }
    ensures within { IfOk result (λ found. IfSome found (λ f. IsWithin at end f)) }
{
    if at == end {
        return Ok(None);
    }
    let (tag, start) = varint(bytes, at, end)?;
    if is_bad_tag(tag) {
        return Err(Kind::BadTag);
    }
    let (value, next) = content(bytes, tag % 8, start, end)?;
    Ok(Some(Field {
        number: (tag / 8) as u32,
        value,
        next,
    }))
}

#[inline(always)]
fn is_bad_tag(tag: u64) -> bool
    ensures { result ≡ spec.is_bad_tag tag }
{
    let number = tag / 8;
    let wire = tag % 8;
    number == 0 || number > MOST_NUMBER || wire == 3 || wire == 4 || wire > 5
}

// The content of a wire type at a place, and the place after it.
#[inline(always)]
fn content(bytes: &[u8], wire: u64, at: usize, end: usize) -> Result<(Value, usize), Kind>
    requires start { at ≤ end }
    requires inside { end ≤ length bytes.now }
    requires short { end - at < 2 ^ 32 }
    ensures exact { Gives (λ r. (content_seen bytes.now r.0, r.1 - at)) result (spec.content_of wire (slice_range bytes.now at end)) }
    ensures within { IfOk result (λ r. (at < r.1) × (r.1 ≤ end) × Lies at r.1 r.0) }
{
    match wire {
        0 => {
            let (number, next) = varint(bytes, at, end)?;
            Ok((Value::Varint(number), next))
        }
        1 => {
            let (number, next) = eight_bytes(bytes, at, end)?;
            Ok((Value::Fixed64(number), next))
        }
        2 => counted_bytes(bytes, at, end),
        _ => {
            let (number, next) = four_bytes(bytes, at, end)?;
            Ok((Value::Fixed32(number), next))
        }
    }
}

// A length, and the place of that many bytes.
#[inline(always)]
fn counted_bytes(bytes: &[u8], at: usize, end: usize) -> Result<(Value, usize), Kind>
    requires start { at ≤ end }
    requires inside { end ≤ length bytes.now }
    requires short { end - at < 2 ^ 32 }
    ensures exact { Gives (λ r. (content_seen bytes.now r.0, r.1 - at)) result (spec.counted_bytes (slice_range bytes.now at end)) }
    ensures within { IfOk result (λ r. (at < r.1) × (r.1 ≤ end) × Lies at r.1 r.0) }
{
    let (len, start) = varint(bytes, at, end)?;
    if len > (end - start) as u64 {
        return Err(Kind::Truncated);
    }
    Ok((
        Value::Bytes(Span {
            at: start as u64,
            len: len as u32,
        }),
        start + len as usize,
    ))
}

// Eight bytes as a number, the least first, and the place after them. No field of Jelly has them, so they stay out of
// the way.
#[inline(never)]
fn eight_bytes(bytes: &[u8], at: usize, end: usize) -> Result<(u64, usize), Kind>
    requires start { at ≤ end }
    requires inside { end ≤ length bytes.now }
    ensures exact { Gives (λ r. (spec.Eight r.0, r.1 - at)) result (spec.fixed w64 spec.Eight (slice_range bytes.now at end)) }
    ensures within { IfOk result (λ r. (at < r.1) × (r.1 ≤ end)) }
{
    if end - at < 8 {
        return Err(Kind::Truncated);
    }
    let mut held = [0; 8];
    held.copy_from_slice(&bytes[at..at + 8]);
    Ok((u64::from_le_bytes(held), at + 8))
}

// Four bytes as a number, the least first, and the place after them.
#[inline(never)]
fn four_bytes(bytes: &[u8], at: usize, end: usize) -> Result<(u32, usize), Kind>
    requires start { at ≤ end }
    requires inside { end ≤ length bytes.now }
    ensures exact { Gives (λ r. (spec.Four r.0, r.1 - at)) result (spec.fixed w32 spec.Four (slice_range bytes.now at end)) }
    ensures within { IfOk result (λ r. (at < r.1) × (r.1 ≤ end)) }
{
    if end - at < 4 {
        return Err(Kind::Truncated);
    }
    let mut held = [0; 4];
    held.copy_from_slice(&bytes[at..at + 4]);
    Ok((u32::from_le_bytes(held), at + 4))
}
