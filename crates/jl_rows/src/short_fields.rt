//! Fields whose tag takes one byte and whose length or number takes few, each read by a look at its bytes. None says
//! nothing of them.
ghost use Rattle.std.specs.Prelude.{◌≡◌, ◌+◌, ◌<◌, ◌≤◌, ◌^◌, IfSome, length};
ghost use Rattle.std.specs.Str.{is_utf8};
ghost use Rattle.jl_base.specs.Spans.{IsInside, text_of};
ghost use Rattle.jl_rows.specs.Usual.{IsCounted, IsNumber, IsShort};

use jl_base::Span;
use jl_wire::utf8;

// A number of one or two bytes in front, and the place after it.
#[inline(always)]
fn short(bytes: &[u8], at: usize) -> Option<(u32, usize)>
    requires { at + 2 ≤ length bytes.now }
    ensures { IfSome result (IsShort bytes.now at) }
{
    let first = bytes[at];
    if first < 128 {
        return Some((u32::from(first), at + 1));
    }
    let second = bytes[at + 1];
    if second < 128 {
        return Some((u32::from(first - 128) + u32::from(second) * 128, at + 2));
    }
    None
}

// The same, for an id of up to three bytes.
#[inline(always)]
fn id(bytes: &[u8], at: usize) -> Option<(u32, usize)>
    requires { at + 3 ≤ length bytes.now }
    ensures { IfSome result (IsShort bytes.now at) }
{
    let first = bytes[at];
    if first < 128 {
        return Some((u32::from(first), at + 1));
    }
    let second = bytes[at + 1];
    if second < 128 {
        return Some((u32::from(first - 128) + u32::from(second) * 128, at + 2));
    }
    let third = bytes[at + 2];
    if third < 128 {
        return Some((
            u32::from(first - 128) + u32::from(second - 128) * 128 + u32::from(third) * 16384,
            at + 3,
        ));
    }
    None
}

// The number in front, where the field of this number stands there, and the place after it.
#[inline(always)]
pub fn number(bytes: &[u8], at: usize, field: u8) -> Option<(Option<u32>, usize)>
    requires inside { at + 4 ≤ length bytes.now }
    requires above { 0 < field }
    requires below { field < 16 }
    ensures { IfSome result (IsNumber bytes.now at field) }
{
    if bytes[at] != field * 8 {
        return Some((None, at));
    }
    let (n, next) = id(bytes, at + 1)?;
    Some((Some(n), next))
}

// Where the bytes of the field in front lie, which has a tag of one byte and a length of one or two.
#[inline(always)]
pub fn counted(bytes: &[u8], at: usize, end: usize) -> Option<Span>
    requires start { at + 3 ≤ length bytes.now }
    requires inside { end ≤ length bytes.now }
    ensures { IfSome result (IsCounted bytes.now at end) }
{
    let (len, start) = short(bytes, at + 1)?;
    if start + len as usize > end {
        return None;
    }
    Some(Span {
        at: start as u64,
        len,
    })
}

// The place behind a span.
#[inline(always)]
pub fn behind(span: Span) -> usize
    requires { span.at + span.len < 2 ^ 64 }
    ensures { result ≡ span.at + span.len }
{
    span.at as usize + span.len as usize
}

// Whether the bytes of a span are UTF-8.
#[inline(always)]
pub fn is_text(bytes: &[u8], span: Span) -> bool
    requires { IsInside bytes.now span }
    ensures { result ≡ is_utf8 (text_of bytes.now span) }
{
    utf8(bytes, span).is_ok()
}
