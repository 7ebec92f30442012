//! Numbers as varints.
ghost use Rattle.std.specs.Prelude.{◌≡◌, ◌≤◌, ◌++◌, length, take, OnErr, OnOk};
ghost use Rattle.jl_spell.specs.Varints.{varint_of};

use std::alloc::AllocError;

/// How many bytes the shortest varint of a number takes, from 1 to 10.
#[inline]
pub fn varint_len(number: u64) -> usize
    ensures exact { result ≡ length (varint_of number) }
    ensures within { result ≤ 10 }
{
    if number < 128 { 1 } else { long_len(number) }
}

// The same, byte by byte.
fn long_len(number: u64) -> usize
    ensures exact { result ≡ length (varint_of number) }
    ensures within { result ≤ 10 }
{
    let mut len = 1;
    let mut rest = number;
    'by_seven: while rest >= 128 {
        rest /= 128;
        len += 1;
    }
    len
}

/// Appends the shortest varint of a number. Where memory isn't found, nothing is appended.
#[inline]
pub fn push_varint(out: &mut Vec<u8>, number: u64) -> Result<(), AllocError>
    ensures ok { OnOk result (out.new.items ≡ out.old.items ++ varint_of number) }
    ensures err { OnErr result (out.new.items ≡ out.old.items) }
{
    if number < 128 {
        out.push(number as u8)?;
        return Ok(());
    }
    let (held, len) = varint(number);
    out.extend_from_slice(&held[..len])?;
    Ok(())
}

/// The shortest varint of a number, as so many first bytes.
pub fn varint(number: u64) -> ([u8; 10], usize)
    ensures exact { take result.1 result.0 ≡ varint_of number }
    ensures within { result.1 ≤ 10 }
{
    let mut held = [0; 10];
    let mut len = 0;
    let mut rest = number;
    'by_byte: while rest >= 128 {
        held[len] = 128 + (rest % 128) as u8;
        rest /= 128;
        len += 1;
    }
    held[len] = rest as u8;
    (held, len + 1)
}
