//! The metadata of a frame.
ghost use Rattle.std.specs.Prelude.{◌≡◌, ◌-◌, ◌<◌, ◌≤◌, ◌^◌, length, slice_range};
ghost use Rattle.jl_wire.specs.Fields.{fields};
ghost use Rattle.jl_survey.specs.Surveys.{metadata_among};

use jl_wire::next_field;

/// How many entries of metadata a frame has between two places of it, up to the first field that can't be read. It
/// passes over what stands in the fields.
pub(crate) fn metadata_between(bytes: &[u8], at: usize, end: usize) -> u64
    requires start { at ≤ end }
    requires inside { end ≤ length bytes.now }
    requires short { end - at < 2 ^ 32 }
    ensures exact { result ≡ metadata_among (fields (slice_range bytes.now at end)).items }
    ensures few { result ≤ end - at }
{
    let mut place = at;
    let mut found = 0;
    'by_field: loop {
        let field = match next_field(bytes, place, end) {
            Ok(Some(field)) => field,
            Ok(None) => return found,
            Err(_) => return found,
        };
        if field.number == 15 {
            found += 1;
        }
        place = field.next;
    }
}
