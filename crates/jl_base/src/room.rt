//! A page whose first bytes count, with room after them that was filled ahead: so a source is read straight into it,
//! and room that was filled once is read into again.
ghost use Rattle.std.specs.Prelude.{◌≡◌, ◌+◌, ◌<◌, ◌≤◌, ◌++◌, length, take, vec_len, OnOk};
ghost use Rattle.jl_base.specs.Filling.{ReadsAt};

use crate::{Failed, Source};
use std::alloc::AllocError;

// Fills a page up where it has too little room after a place.
pub(crate) fn make_room(page: &mut Vec<u8>, end: usize, room: usize) -> Result<(), AllocError>
    requires { end ≤ vec_len page.old }
    ensures room { OnOk result (end + room ≤ vec_len page.new) }
    ensures front { take end page.new.items ≡ take end page.old.items }
    ensures longer { vec_len page.old ≤ vec_len page.new }
{
    if page.len() - end >= room {
        return Ok(());
    }
    let Some(least) = end.checked_add(room) else {
        return Err(AllocError);
    };
    page.resize(least, 0)
}

// Writes bytes at a place of a page, and answers the place after them.
pub(crate) fn copy_at(page: &mut Vec<u8>, at: usize, text: &[u8]) -> usize
    requires { at + length text.now ≤ vec_len page.old }
    ensures text { take result page.new.items ≡ take at page.old.items ++ text.now }
    ensures size { vec_len page.new ≡ vec_len page.old }
    ensures end { result ≡ at + length text.now }
{
    let end = at + text.len();
    page[at..end].copy_from_slice(text);
    end
}

// Reads some bytes into a page from a place on.
pub(crate) fn read_at<S: Source>(
    page: &mut Vec<u8>,
    at: usize,
    most: usize,
    source: &mut S,
) -> Result<usize, Failed>
    requires some { 0 < most }
    requires room { at + most ≤ vec_len page.old }
    ensures reads { ReadsAt most at (S.told source.old) (S.told source.new) page.old.items page.new.items result }
    ensures size { vec_len page.new ≡ vec_len page.old }
{
    let end = at + most;
    source.read(&mut page[at..end])
}

// Where a page has no room for a piece after its first bytes, makes some for three times what they are, so that a long
// input is seldom moved; but for no more than may still come. Where there is no memory for so much, the piece itself
// may still find its own.
pub(crate) fn reserve_ahead(page: &mut Vec<u8>, piece: usize, most: u64)
    ensures { page.new.items ≡ page.old.items }
{
    if page.capacity().saturating_sub(page.len()) >= piece {
        return;
    }
    let ahead = page.len().saturating_mul(3).saturating_add(piece);
    let _made = page.reserve(ahead.min(most as usize));
}
