//! The rows of a frame, one after another: those of usual shape by a short way, all others by the reader of any row.
ghost use Rattle.std.specs.Prelude.{◌≡◌, ◌+◌, ◌-◌, ◌<◌, ◌≤◌, ◌^◌, IfOk, IfSome, length, slice_range};
ghost use Rattle.jl_rows.specs.Files.{row_end};
ghost use Rattle.jl_rows.specs.Seen.{IsNextRow, IsRowWithin};
ghost use Rattle.jl_rows.specs.Usual.{written_row};

use crate::read_row::any_row_at;
use crate::row::Row;
use crate::usual_rows::usual_row;
use jl_base::Kind;

/// The next row of a frame that ends at `end`, and the place behind it.
#[inline]
pub fn next_row_at(bytes: &[u8], at: usize, end: usize) -> Result<Option<(Row, usize)>, Kind>
    requires start { at ≤ end }
    requires inside { end ≤ length bytes.now }
    requires short { end - at < 2 ^ 32 }
    ensures exact { IsNextRow bytes.now at end result }
    ensures within { IfOk result (λ found. IfSome found (IsRowWithin bytes.now at end)) }
    ensures wide { IfOk result (λ found. IfSome found (λ r. at + 2 ≤ r.1)) }
    ensures place { IfOk result (λ found. IfSome found (λ r. r.1 ≡ at + row_end (slice_range bytes.now at end))) }
{
    let mut row = Row::GraphEnd;
    if let Some(next) = usual_row(bytes, at, end, &mut row) {
        return Ok(Some((row, next)));
    }
    any_row_at(bytes, at, end)
}

// Any row, put where the caller keeps it. It stands apart, so that callers have no room to clear for a row of its own.
#[inline(never)]
fn any_row_into(bytes: &[u8], at: usize, end: usize, row: &mut Row) -> Result<Option<usize>, Kind>
    requires start { at ≤ end }
    requires inside { end ≤ length bytes.now }
    requires short { end - at < 2 ^ 32 }
    ensures exact { IsNextRow bytes.now at end (written_row row.new result) }
    ensures within { IfOk result (λ found. IfSome found (λ next. IsRowWithin bytes.now at end (row.new, next))) }
    ensures wide { IfOk result (λ found. IfSome found (λ next. at + 2 ≤ next)) }
    ensures place { IfOk result (λ found. IfSome found (λ next. next ≡ at + row_end (slice_range bytes.now at end))) }
{
    match any_row_at(bytes, at, end)? {
        Some((found, next)) => {
            *row = found;
            Ok(Some(next))
        }
        None => Ok(None),
    }
}

/// The same, with the row put where the caller keeps it: a row is large to copy. Where no row is answered, nothing is
/// said of what then stands there.
#[inline]
pub fn next_row_into(
    bytes: &[u8],
    at: usize,
    end: usize,
    row: &mut Row,
) -> Result<Option<usize>, Kind>
    requires start { at ≤ end }
    requires inside { end ≤ length bytes.now }
    requires short { end - at < 2 ^ 32 }
    ensures exact { IsNextRow bytes.now at end (written_row row.new result) }
    ensures within { IfOk result (λ found. IfSome found (λ next. IsRowWithin bytes.now at end (row.new, next))) }
    ensures wide { IfOk result (λ found. IfSome found (λ next. at + 2 ≤ next)) }
    ensures place { IfOk result (λ found. IfSome found (λ next. next ≡ at + row_end (slice_range bytes.now at end))) }
{
    if let Some(next) = usual_row(bytes, at, end, row) {
        return Ok(Some(next));
    }
    any_row_into(bytes, at, end, row)
}
