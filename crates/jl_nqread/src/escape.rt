//! Characters that are written by the number of their scalar value.
ghost use Rattle.std.specs.Prelude.{◌≡◌, ◌+◌, ◌<◌, ◌≤◌, IfSome, IsTrue, length, drop};
ghost use Rattle.std.specs.Char.{is_ascii_hexdigit};
ghost use Rattle.jl_nqread.specs.Grammar as spec;

fn digit_value(byte: u8) -> u8
    requires { IsTrue (is_ascii_hexdigit byte) }
    ensures exact { result ≡ spec.digit_value byte }
    ensures below { result < 16 }
{
    if byte < 58 {
        byte - 48
    } else if byte < 71 {
        byte - 55
    } else {
        byte - 87
    }
}

fn digit(bytes: &[u8], at: usize) -> Option<u32>
    ensures exact { result ≡ spec.digit (drop at bytes.now) }
    ensures inside { IfSome result (λ _. at < length bytes.now) }
    ensures below { IfSome result (λ n. n < 16) }
{
    if at < bytes.len() && bytes[at].is_ascii_hexdigit() {
        return Some(u32::from(digit_value(bytes[at])));
    }
    None
}

// The digit so many bytes after a place.
fn digit_at(bytes: &[u8], at: usize, k: usize) -> Option<u32>
    ensures exact { result ≡ spec.digit_at k (drop at bytes.now) }
    ensures inside { IfSome result (λ _. at + k < length bytes.now) }
    ensures below { IfSome result (λ n. n < 16) }
{
    let left = bytes.len().saturating_sub(at);
    if k < left {
        return digit(bytes, at + k);
    }
    None
}

/// The number of four digits, so many bytes after a place.
#[tactic(auto, unfolding(crate::specs::Grammar::four_digits))]
pub fn four_digits(bytes: &[u8], at: usize, k: usize) -> Option<u32>
    requires { k ≤ 4 }
    ensures exact { result ≡ spec.four_digits k (drop at bytes.now) }
    ensures inside { IfSome result (λ _. at + k + 3 < length bytes.now) }
    ensures below { IfSome result (λ n. n < 65536) }
{
    let a = digit_at(bytes, at, k)?;
    let b = digit_at(bytes, at, k + 1)?;
    let c = digit_at(bytes, at, k + 2)?;
    let d = digit_at(bytes, at, k + 3)?;
    Some(4096 * a + 256 * b + 16 * c + d)
}

/// The number of eight digits at a place.
#[tactic(auto, unfolding(crate::specs::Grammar::eight_digits))]
pub fn eight_digits(bytes: &[u8], at: usize) -> Option<u32>
    ensures exact { result ≡ spec.eight_digits (drop at bytes.now) }
    ensures inside { IfSome result (λ _. at + 7 < length bytes.now) }
{
    let high = four_digits(bytes, at, 0)?;
    let low = four_digits(bytes, at, 4)?;
    Some(65536 * high + low)
}

fn is_scalar(value: u32) -> bool
    ensures { result ≡ spec.is_scalar value }
{
    value < 0xD800 || (0xDFFF < value && value < 0x110000)
}

fn sized(size: usize, value: u32) -> Option<usize>
    ensures exact { result ≡ spec.sized size value }
    ensures same { IfSome result (λ n. n ≡ size) }
{
    if is_scalar(value) { Some(size) } else { None }
}

/// How many bytes the escape of a scalar value takes, whose backslash stands before a place.
#[tactic(auto, unfolding(crate::specs::Grammar::uchar))]
pub fn uchar(bytes: &[u8], at: usize) -> Option<usize>
    ensures exact { result ≡ spec.uchar (drop at bytes.now) }
    ensures within { IfSome result (λ n. (1 < n) × (at + n ≤ length bytes.now + 1)) }
{
    if at >= bytes.len() {
        return None;
    }
    if bytes[at] == b'u' {
        let value = four_digits(bytes, at + 1, 0)?;
        return sized(6, value);
    }
    if bytes[at] == b'U' {
        let value = eight_digits(bytes, at + 1)?;
        return sized(10, value);
    }
    None
}
