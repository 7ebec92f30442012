//! Numbers in words.
ghost use Rattle.std.specs.Prelude.{◌≡◌};
ghost use Rattle.std.specs.List.{list_all};
ghost use Rattle.jl_words.specs.Numbers as spec;

fn is_digit(byte: u8) -> bool
    ensures { result ≡ spec.is_digit byte }
{
    b'0' <= byte && byte <= b'9'
}

fn are_digits(text: &[u8]) -> bool
    ensures { result ≡ list_all spec.is_digit text.now }
{
    text.iter().all(|byte| is_digit(*byte))
}

fn is_numeral(text: &[u8]) -> bool
    ensures { result ≡ spec.is_numeral text.now }
{
    let Some((first, rest)) = text.split_first() else {
        return false;
    };
    are_digits(text) && (*first != b'0' || rest.is_empty())
}

// The number that this byte makes of one, as its next digit. Both are below 2^64.
fn next(number: u64, byte: u8) -> Option<u64>
    ensures { result ≡ spec.next number byte }
{
    if !is_digit(byte) {
        return None;
    }
    number.checked_mul(10)?.checked_add(u64::from(byte - b'0'))
}

// The number that digits write, where it is below 2^64.
fn number(text: &[u8]) -> Option<u64>
    ensures { result ≡ spec.small_after 0 text.now }
{
    let mut number: u64 = 0;
    for byte in text {
        number = next(number, *byte)?;
    }
    Some(number)
}

/// The number that a text writes, where it is one of this range.
pub fn number_within(least: u64, most: u64, text: &[u8]) -> Option<u64>
    ensures { result ≡ spec.number_within least most text.now }
{
    if !is_numeral(text) {
        return None;
    }
    let number = number(text)?;
    if least <= number && number <= most {
        return Some(number);
    }
    None
}
