use crate::{
    bodies_read_back, fields_read_back, frames_read_back, front_size, iri_size, messages_read_back,
    number_size, push_bytes, push_entry, push_front, push_iri, push_number, push_simple_literal,
    push_tagged_literal, push_typed_literal, push_varint, rows_read_back, varint_len,
    varints_read_back,
};
use jl_rows::Table;
use std::test::Fail;

#[test]
fn numbers(rt: HostRuntime) -> Result<(), Fail> {
    let rows: [(u64, &[u8]); 8] = [
        (0, &[0]),
        (1, &[1]),
        (127, &[127]),
        (128, &[0x80, 1]),
        (171, &[0xAB, 1]),
        (4000, &[0xA0, 0x1F]),
        (1 << 63, &[128, 128, 128, 128, 128, 128, 128, 128, 128, 1]),
        (u64::MAX, &[255, 255, 255, 255, 255, 255, 255, 255, 255, 1]),
    ];
    let mut out = Vec::new(rt.alloc());
    for (number, bytes) in rows {
        out.clear();
        push_varint(&mut out, number)?;
        assert_eq!(rt; out.as_slice(), bytes);
        assert_eq!(rt; varint_len(number), bytes.len());
    }
    Ok(())
}

// Two made items, in one frame: its rows, each in a field 1, come to 171 bytes.
#[test]
fn made_pair(rt: HostRuntime) -> Result<(), Fail> {
    let wanted =
        b"\xAB\x01\x0A\x12\x0A\x10\x10\x01\x18\x01\x20\x01\x48\xA0\x1F\x50\x96\x01\x58\x20\x78\x02\
        \x0A\x1A\x52\x18\x12\x16http://example.org/v0/\x0A\x02\x4A\x00\x0A\x0A\x32\x08\x0A\x02p0\x12\x02\x08\x01\
        \x0A\x1C\x52\x1A\x12\x18http://example.org/v129/\x0A\x09\x4A\x07\x12\x05n2458\
        \x0A\x19\x52\x17\x12\x15http://example.org/p/\x0A\x06\x4A\x04\x12\x0226\
        \x0A\x1D\x12\x1B\x0A\x02\x08\x02\x2A\x02\x08\x03\x5A\x11\x0A\x0Btext 531564\x12\x02en";
    let mut out = Vec::new(rt.alloc());
    push_varint(&mut out, 171)?;
    push_front(&mut out, 1, 18)?;
    push_front(&mut out, 1, 16)?;
    push_number(&mut out, 2, 1)?;
    push_number(&mut out, 3, 1)?;
    push_number(&mut out, 4, 1)?;
    push_number(&mut out, 9, 4000)?;
    push_number(&mut out, 10, 150)?;
    push_number(&mut out, 11, 32)?;
    push_number(&mut out, 15, 2)?;
    push_entry(&mut out, Table::Prefix, 0, b"http://example.org/v0/")?;
    push_entry(&mut out, Table::Name, 0, b"")?;
    push_front(&mut out, 1, 10)?;
    push_front(&mut out, 6, 8)?;
    push_bytes(&mut out, 1, b"p0")?;
    push_iri(&mut out, 2, 1, 0)?;
    push_entry(&mut out, Table::Prefix, 0, b"http://example.org/v129/")?;
    push_entry(&mut out, Table::Name, 0, b"n2458")?;
    push_entry(&mut out, Table::Prefix, 0, b"http://example.org/p/")?;
    push_entry(&mut out, Table::Name, 0, b"26")?;
    push_front(&mut out, 1, 29)?;
    push_front(&mut out, 2, 27)?;
    push_iri(&mut out, 1, 2, 0)?;
    push_iri(&mut out, 5, 3, 0)?;
    push_tagged_literal(&mut out, 11, b"text 531564", b"en")?;
    assert_eq!(rt; out.len(), 173);
    assert_eq!(rt; out.as_slice(), wanted.as_slice());
    Ok(())
}

#[test]
fn zeros_and_sizes(rt: HostRuntime) -> Result<(), Fail> {
    let mut out = Vec::new(rt.alloc());
    push_typed_literal(&mut out, 16, b"a", 0)?;
    push_tagged_literal(&mut out, 4, b"", b"")?;
    push_simple_literal(&mut out, 3, b"")?;
    push_iri(&mut out, 5, 0, 0)?;
    push_entry(&mut out, Table::Datatype, 7, b"u:")?;
    let wanted =
        b"\x82\x01\x05\x0A\x01a\x18\x00\x22\x02\x12\x00\x1A\x00\x2A\x00\x0A\x08\x5A\x06\x08\x07\x12\x02u:";
    assert_eq!(rt; out.as_slice(), wanted.as_slice());
    assert_eq!(rt; number_size(16, 300), 4);
    assert_eq!(rt; front_size(11, 127), 2);
    assert_eq!(rt; iri_size(1, 0), 2);
    Ok(())
}

#[test]
fn laws(_rt: HostRuntime) {
    varints_read_back();
    fields_read_back();
    messages_read_back();
    rows_read_back();
    bodies_read_back();
    frames_read_back();
}
