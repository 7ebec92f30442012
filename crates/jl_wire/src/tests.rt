use crate::{Field, Value, next_field, utf8, varint};
use jl_base::{Kind, Span};
use std::process::Abort;

fn reads_number(rt: &impl Abort, bytes: &[u8], wanted: Result<(u64, usize), Kind>) {
    assert_eq!(rt; varint(bytes, 0, bytes.len()), wanted);
}

fn reads_field(rt: &impl Abort, bytes: &[u8], wanted: Result<Option<Field>, Kind>) {
    assert!(rt; bytes.len() < 100);
    assert_eq!(rt; next_field(bytes, 0, bytes.len()), wanted);
}

fn reads_text(rt: &impl Abort, bytes: &[u8], wanted: Result<(), Kind>) {
    assert!(rt; bytes.len() < 100);
    let span = Span {
        at: 0,
        len: bytes.len() as u32,
    };
    assert_eq!(rt; utf8(bytes, span), wanted);
}

#[test]
fn numbers(rt: HostRuntime) {
    reads_number(&rt, &[5, 7], Ok((5, 1)));
    reads_number(&rt, &[0x96, 0x01], Ok((150, 2)));
    reads_number(&rt, &[0x81, 0x80, 0x00], Ok((1, 3)));
    reads_number(
        &rt,
        &[255, 255, 255, 255, 255, 255, 255, 255, 255, 1],
        Ok((u64::MAX, 10)),
    );
    reads_number(
        &rt,
        &[255, 255, 255, 255, 255, 255, 255, 255, 255, 2],
        Err(Kind::BadVarint),
    );
    reads_number(&rt, &[255; 10], Err(Kind::BadVarint));
    reads_number(&rt, &[255; 9], Err(Kind::Truncated));
    reads_number(&rt, &[], Err(Kind::Truncated));
}

#[test]
fn fields(rt: HostRuntime) {
    let text = Value::Bytes(Span { at: 2, len: 3 });
    reads_field(&rt, &[], Ok(None));
    reads_field(
        &rt,
        &[8, 0x96, 1],
        Ok(Some(Field {
            number: 1,
            value: Value::Varint(150),
            next: 3,
        })),
    );
    reads_field(
        &rt,
        &[0x12, 3, 97, 98, 99, 0],
        Ok(Some(Field {
            number: 2,
            value: text,
            next: 5,
        })),
    );
    reads_field(&rt, &[0x12, 3, 97, 98], Err(Kind::Truncated));
    reads_field(
        &rt,
        &[9, 1, 2, 0, 0, 0, 0, 0, 0],
        Ok(Some(Field {
            number: 1,
            value: Value::Fixed64(513),
            next: 9,
        })),
    );
    reads_field(
        &rt,
        &[13, 1, 2, 0, 0],
        Ok(Some(Field {
            number: 1,
            value: Value::Fixed32(513),
            next: 5,
        })),
    );
    reads_field(
        &rt,
        &[0xF8, 0xFF, 0xFF, 0xFF, 0x0F, 0],
        Ok(Some(Field {
            number: 536_870_911,
            value: Value::Varint(0),
            next: 6,
        })),
    );
    reads_field(&rt, &[0x80, 0x80, 0x80, 0x80, 0x10, 0], Err(Kind::BadTag));
    reads_field(&rt, &[0, 0], Err(Kind::BadTag));
    reads_field(&rt, &[11], Err(Kind::BadTag));
    reads_field(&rt, &[14, 0], Err(Kind::BadTag));
}

#[test]
fn texts(rt: HostRuntime) {
    reads_text(&rt, b"", Ok(()));
    reads_text(&rt, b"name", Ok(()));
    reads_text(&rt, b"http://example.org/of/some/length#name", Ok(()));
    reads_text(&rt, &[0xC3, 0xA9], Ok(()));
    reads_text(&rt, &[97, 0xFF], Err(Kind::BadUtf8));
    reads_text(
        &rt,
        &[
            0xC3, 0xA9, 0xC3, 97, 98, 99, 100, 101, 102, 103, 104, 105, 106, 107, 108, 109, 110,
        ],
        Err(Kind::BadUtf8),
    );
}
