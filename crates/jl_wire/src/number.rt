ghost use Rattle.std.specs.Prelude.{◌≡◌, ◌+◌, ◌-◌, ◌<◌, ◌≤◌, IfOk, length, slice_range};
ghost use Rattle.jl_base.specs.Results.{Gives};
ghost use Rattle.jl_wire.specs.Refusals.{RefusesExactly};
ghost use Rattle.jl_wire.specs.Varint as spec;

use jl_base::Kind;

/// The varint at the front of a range of bytes, and the place after it. Spellings longer than they need be are read
/// as well. Nearly all in a file take one byte, and the ids of large tables two: these are read in the caller's place.
#[inline(always)]
pub fn varint(bytes: &[u8], at: usize, end: usize) -> Result<(u64, usize), Kind>
    requires start { at ≤ end }
    requires inside { end ≤ length bytes.now }
    ensures exact { Gives (λ r. (r.0, r.1 - at)) result (spec.varint (slice_range bytes.now at end)) }
    ensures within { IfOk result (λ r. (at < r.1) × (r.1 ≤ end) × (r.1 ≤ at + 10)) }
{
    if at < end {
        let first = bytes[at];
        if first < 128 {
            return Ok((u64::from(first), at + 1));
        }
        if end - at > 1 {
            let second = bytes[at + 1];
            if second < 128 {
                return Ok((u64::from(first - 128) + u64::from(second) * 128, at + 2));
            }
        }
    }
    long_varint(bytes, at, end)
}

// The same, for a varint of any length.
#[inline(never)]
fn long_varint(bytes: &[u8], at: usize, end: usize) -> Result<(u64, usize), Kind>
    requires start { at ≤ end }
    requires inside { end ≤ length bytes.now }
    ensures exact { Gives (λ r. (r.0, r.1 - at)) result (spec.varint (slice_range bytes.now at end)) }
    ensures within { IfOk result (λ r. (at < r.1) × (r.1 ≤ end) × (r.1 ≤ at + 10)) }
{
    let (value, size) = leading(&bytes[at..end])?;
    Ok((value, at + size))
}

// The varint at the front, and how many bytes it takes.
#[inline(always)]
fn leading(bytes: &[u8]) -> Result<(u64, usize), Kind>
    ensures exact { result ≡ spec.varint bytes.now }
    ensures within { IfOk result (λ r. (0 < r.1) × (r.1 ≤ length bytes.now) × (r.1 ≤ 10)) }
{
    let mut value: u64 = 0;
    let mut scale: u64 = 1;
    for i in 0..9 {
        if i >= bytes.len() {
            return Err(Kind::Truncated);
        }
        let byte = bytes[i];
        if byte < 128 {
            return Ok((value + u64::from(byte) * scale, i + 1));
        }
        value += u64::from(byte - 128) * scale;
        scale *= 128;
    }
    if bytes.len() < 10 {
        return Err(Kind::Truncated);
    }
    let tenth = bytes[9];
    if tenth > 1 {
        return Err(Kind::BadVarint);
    }
    Ok((value + u64::from(tenth) * scale, 10))
}

/// A law of the definition, and no work: a varint is refused exactly where fewer than ten bytes are there and all are
/// continued, or where nine are and the tenth is above 1.
pub fn varint_refusals(bytes: &[u8])
    ensures { RefusesExactly bytes.now }
{}
