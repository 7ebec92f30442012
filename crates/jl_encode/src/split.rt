//! Where an IRI is split.
ghost use Rattle.std.specs.Prelude.{◌≡◌, ◌≤◌, length};
ghost use Rattle.jl_encoding.specs.Splits.{is_cut, prefix_len, prefix_of, name_of};

#[inline]
fn ends_prefix(byte: u8) -> bool
    ensures { result ≡ is_cut byte }
{
    byte == b'/' || byte == b'#'
}

// How many bytes the prefix has.
fn size(text: &[u8]) -> usize
    ensures exact { result ≡ prefix_len text.now }
    ensures within { result ≤ length text.now }
{
    let mut len = text.len();
    'bytes: while len > 0 {
        if ends_prefix(text[len - 1]) {
            return len;
        }
        len -= 1;
    }
    0
}

/// The prefix and the name: what stands up to the last slash or number sign, and behind it.
pub(crate) fn halves(text: &[u8]) -> (&[u8], &[u8])
    ensures prefix { result.0.now ≡ prefix_of text.now }
    ensures name { result.1.now ≡ name_of text.now }
{
    text.split_at(size(text))
}
