use crate::{Form, encodings_decode, frames_are_handed, items_are_stated, worked_rows};
use std::process::Abort;

fn differ(rt: &impl Abort, one: Form, other: Form) {
    assert!(rt; one == one);
    assert!(rt; one != other);
}

#[test]
fn forms_and_laws(rt: HostRuntime) {
    differ(&rt, Form::Triples, Form::Quads);
    items_are_stated();
    encodings_decode();
    frames_are_handed();
    worked_rows();
}
