//! Taking bytes at a place.
ghost use Rattle.std.specs.Prelude.{◌≡◌, ◌+◌, ◌<◌, ◌≤◌, ◌==◌, IfSome, IsTrue, length, drop};
ghost use Rattle.jl_nqread.specs.Taking as taking;
ghost use Rattle.jl_nqread.specs.Grammar as spec;
ghost use Rattle.jl_nqread.specs.Seen.{Leaves};

/// Whether this byte stands at a place.
pub fn stands(bytes: &[u8], at: usize, wanted: u8) -> bool
    ensures exact { result ≡ taking.starts (λ b. b == wanted) (drop at bytes.now) }
    ensures inside { IsTrue result → at < length bytes.now }
{
    at < bytes.len() && bytes[at] == wanted
}

/// The place after this byte.
pub fn byte(bytes: &[u8], at: usize, wanted: u8) -> Option<usize>
    ensures exact { Leaves bytes.now result (taking.byte wanted (drop at bytes.now)) }
    ensures inside { IfSome result (λ end. (end ≡ at + 1) × (end ≤ length bytes.now)) }
{
    if at < bytes.len() && bytes[at] == wanted {
        return Some(at + 1);
    }
    None
}

/// The place after this byte twice.
#[tactic(auto, unfolding(crate::specs::Taking::twice))]
pub fn twice(bytes: &[u8], at: usize, wanted: u8) -> Option<usize>
    ensures exact { Leaves bytes.now result (taking.twice wanted (drop at bytes.now)) }
    ensures inside { IfSome result (λ end. (end ≡ at + 2) × (end ≤ length bytes.now)) }
{
    let second = byte(bytes, at, wanted)?;
    byte(bytes, second, wanted)
}

fn is_blank(byte: u8) -> bool
    ensures { result ≡ spec.is_blank byte }
{
    byte == b' ' || byte == b'\t'
}

fn is_blank_at(bytes: &[u8], at: usize) -> bool
    ensures exact { result ≡ taking.starts spec.is_blank (drop at bytes.now) }
    ensures inside { IsTrue result → at < length bytes.now }
{
    at < bytes.len() && is_blank(bytes[at])
}

/// The place after spaces and tabs.
pub fn blanks(bytes: &[u8], from: usize) -> usize
    ensures { drop result bytes.now ≡ spec.blanks (drop from bytes.now) }
{
    let mut at = from;
    'run: while is_blank_at(bytes, at) {
        at += 1;
    }
    at
}
