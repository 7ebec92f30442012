//! The texts of the tool: the parts of an N-Quads line, straight from bytes, the line of an item that stands by itself,
//! and the line that a fault has on standard error.
//!
//! A part has a writer that appends it to a text (`push_`) and one that places it on a page which has room (`place_`),
//! where it has the usual shape. It promises that each writes exactly what the definitions of a line say, and that a
//! fault's line takes no memory. It stands on jl_base and itoa.
#![tactic(auto)]

mod escape;
mod item;
mod label;
mod lanes;
mod notice;
mod place;
mod short;
mod term;
mod wide;

pub use item::line;
pub use label::labels_stay_apart;
pub use notice::{Notice, report_fault};
pub use place::{AGAIN, place_again, place_byte, place_pair};
pub use short::Short;
pub use term::{
    is_clean_iri, is_xsd_string, push_clean_iri, push_datatype, push_iri, push_label,
    push_namespace, push_string, push_tag,
};
pub use wide::{
    DATATYPE_ROOM, IRI_ROOM, LABEL_ROOM, STRING_ROOM, TAG_ROOM, place_datatype, place_iri,
    place_label, place_string, place_tag,
};

#[cfg(test)]
mod tests;
