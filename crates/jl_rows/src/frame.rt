//! The frames of a file, each after its length.
ghost use Rattle.std.specs.Prelude.{◌≡◌, ◌-◌, ◌≤◌, ◌^◌, IfOk, IfSome, length};
ghost use Rattle.jl_rows.specs.Seen.{IsFrameWithin, IsNextBody, IsNextFrame};

use jl_base::Kind;
use jl_wire::varint;

/// How many bytes a frame's body may have.
const MOST_BODY: u64 = 1 << 27;

/// Where the body of the next frame of a file begins and ends, or None at the end of the file.
#[inline]
pub fn next_frame(bytes: &[u8], at: usize, end: usize) -> Result<Option<(usize, usize)>, Kind>
    requires start { at ≤ end }
    requires inside { end ≤ length bytes.now }
    ensures exact { IsNextFrame bytes.now at end result }
    ensures body { IsNextBody bytes.now at end result }
    ensures within { IfOk result (λ found. IfSome found (IsFrameWithin at end)) }
    ensures short { IfOk result (λ found. IfSome found (λ f. f.1 - f.0 ≤ 2 ^ 27)) }
{
    if at == end {
        return Ok(None);
    }
    let (len, start) = varint(bytes, at, end)?;
    if len > MOST_BODY {
        return Err(Kind::FrameTooLong);
    }
    if len > (end - start) as u64 {
        return Err(Kind::Truncated);
    }
    Ok(Some((start, start + len as usize)))
}
