ghost use Rattle.std.specs.Prelude.{IsTrue};
ghost use Rattle.jl_base.specs.Spans.{IsInside};

use crate::{
    Notice, STRING_ROOM, is_clean_iri, is_xsd_string, labels_stay_apart, line, place_again,
    place_byte, place_datatype, place_iri, place_label, place_pair, place_string, place_tag,
    push_clean_iri, push_datatype, push_iri, push_label, push_namespace, push_string, push_tag,
    report_fault,
};
use jl_base::{Boxed, Fault, Item, Kind, Place, Span, Tail, Term, Text, Three};
use std::alloc::Global;
use std::test::Fail;

#[test]
fn lines(rt: HostRuntime) -> Result<(), Fail> {
    let rows: [(&[u8], &[u8], &[u8], &[u8]); 5] = [
        (
            b"a-X",
            b"b",
            b"\"\n\x7F\xC3\xA9",
            b"_:aX2DX58 <a\\u0020b> \"\\\"\\n\\u007F\xC3\xA9\" ",
        ),
        (b"", b"\x7F", b"x", b"_:X <a\\u0020\x7F> \"x\" "),
        (
            b"b42",
            b"{}",
            b"more than sixteen bytes, and then \\ and more",
            b"_:b42 <a\\u0020\\u007B\\u007D> \"more than sixteen bytes, and then \\\\ and more\" ",
        ),
        (
            b"\xC3\xA9",
            b"",
            b"\t\x08\r\x0C\0",
            b"_:XC3XA9 <a\\u0020> \"\\t\\b\\r\\f\\u0000\" ",
        ),
        (
            b"X",
            b"`",
            b"twelve bytes",
            b"_:X58 <a\\u0020\\u0060> \"twelve bytes\" ",
        ),
    ];
    let mut out = Vec::new(rt.alloc());
    for (label, name, lex, line) in rows {
        out.clear();
        labels_stay_apart(label, b"X");
        push_label(&mut out, label)?;
        out.push(b' ')?;
        push_iri(&mut out, b"a ", name)?;
        out.push(b' ')?;
        push_string(&mut out, lex)?;
        out.push(b' ')?;
        assert_eq!(rt; out.as_slice(), line);
    }
    Ok(())
}

#[test]
fn other_parts(rt: HostRuntime) -> Result<(), Fail> {
    let mut out = Vec::new(rt.alloc());
    push_namespace(&mut out, b"p\n0", b"http://example.org/", b"v0/")?;
    push_tag(&mut out, b"en-GB")?;
    push_datatype(&mut out, b"u:<", false)?;
    if is_clean_iri(b"u:") && is_clean_iri(b"a") {
        push_clean_iri(&mut out, b"u:", b"a")?;
    }
    let expected = b"# prefix p\\n0 <http://example.org/v0/>\n@en-GB^^<u:\\u003C><u:a>";
    assert_eq!(rt; out.as_slice(), expected.as_slice());
    let string = b"http://www.w3.org/2001/XMLSchema#string";
    assert!(rt; is_xsd_string(string));
    assert!(rt; !is_xsd_string(b"http://www.w3.org/2001/XMLSchema#strinG"));
    Ok(())
}

fn is_inside(bytes: &[u8], span: Span) -> bool
    ensures { IsTrue result → IsInside bytes.now span }
{
    let len = bytes.len() as u64;
    span.at <= len && u64::from(span.len) <= len - span.at
}

// Where the parts of a span end that are placed one behind another. What isn't placed is passed over.
fn place_parts(page: &mut [u8], at: usize, bytes: &[u8], span: Span) -> usize {
    if page.len() < 256 || at > 100 || !is_inside(bytes, span) {
        return at;
    }
    let string = place_string(page, at, bytes, span, 60).unwrap_or(at);
    if string > 160 {
        return string;
    }
    let label = place_label(page, string, bytes, span).unwrap_or(string);
    if label > 200 {
        return label;
    }
    place_tag(page, label, bytes, span).unwrap_or(label)
}

fn place_all(page: &mut [u8], bytes: &[u8], spans: [Span; 3]) -> usize {
    let mut at = 0;
    for span in spans {
        at = place_parts(page, at, bytes, span);
    }
    at
}

#[test]
fn parts_at_their_places(rt: HostRuntime) -> Result<(), Fail> {
    let bytes =
        b"http://example.org/name-1 text 531564 en b7 and so on, up to the end of this file, and the \
        last of its blocks";
    let prefix = Span { at: 0, len: 19 };
    let name = Span { at: 19, len: 6 };
    let mut page = [0; 256];
    let mut at = 0;
    if is_clean_iri(&bytes[0..19]) && is_clean_iri(&bytes[19..25]) {
        at = place_iri(&mut page, 0, bytes, prefix, name).unwrap_or(0);
    }
    assert_eq!(rt; at, 27);
    assert_eq!(rt; &page[..27], b"<http://example.org/name-1>".as_slice());
    if is_clean_iri(&bytes[0..19]) {
        at = place_datatype(&mut page, 0, bytes, prefix).unwrap_or(0);
    }
    assert_eq!(rt; at, 23);
    assert_eq!(rt; &page[..23], b"^^<http://example.org/>".as_slice());
    assert_eq!(rt; place_byte(&mut page, 0, b' '), 1);
    assert_eq!(rt; place_pair(&mut page, 1, b'.', b'\n'), 3);
    assert_eq!(rt; &page[..4], b" .\nh".as_slice());
    assert_eq!(rt; place_again(&mut page, 30, 3, 20), 50);
    assert_eq!(rt; &page[30..50], b"http://example.org/>".as_slice());
    Ok(())
}

fn front(page: &[u8], len: usize) -> &[u8] {
    if len <= page.len() {
        &page[..len]
    } else {
        page
    }
}

#[test]
fn unusual_parts_are_not_placed(rt: HostRuntime) -> Result<(), Fail> {
    let bytes = b"text 531564 en b7 and so on, up to the end of this file";
    let mut page = [0; 256];
    let end = bytes.len() as u64 - 2;
    let spans = [
        Span { at: 0, len: 11 },
        Span { at: 15, len: 2 },
        Span { at: end, len: 2 },
    ];
    let at = place_all(&mut page, bytes, spans);
    assert_eq!(rt;
        front(&page, at),
        b"\"text 531564\"@text 531564\"b7\"_:b7@b7".as_slice()
    );
    Ok(())
}

#[test]
fn notices(rt: HostRuntime) -> Result<(), Fail> {
    let place = Place {
        frame: 18446744073709551615,
        row: 4294967295,
    };
    let fault = Fault {
        place,
        kind: Kind::TableTooLarge,
    };
    let rows: [(Notice, &[u8]); 7] = [
        (
            Notice::Malformed { file: 16, fault },
            b"jellyp: malformed: file 16, frame 18446744073709551615, row 4294967295: TableTooLarge\n",
        ),
        (
            Notice::Usage,
            b"usage: jellyp COMMAND [--NAME=VALUE]... [FILE]...\n",
        ),
        (
            Notice::ReadFault { file: 1 },
            b"jellyp: read fault: file 1\n",
        ),
        (Notice::WriteFault, b"jellyp: write fault\n"),
        (Notice::NoMemory, b"jellyp: no memory\n"),
        (Notice::TooLong, b"jellyp: too long\n"),
        (Notice::TooWide { item: 0 }, b"jellyp: item 0 too wide\n"),
    ];
    for (notice, line) in rows {
        assert_eq!(rt; report_fault(notice).bytes(), line);
    }
    Ok(())
}

fn text(alloc: Global, bytes: &[u8]) -> Result<Text, Fail> {
    Ok(Text::from_bytes(alloc, bytes)?)
}

fn iri(alloc: Global, bytes: &[u8]) -> Result<Term, Fail> {
    Ok(Term::Iri(text(alloc, bytes)?))
}

fn literal(alloc: Global, lex: &[u8], tail: Tail) -> Result<Term, Fail> {
    let lex = text(alloc, lex)?;
    Ok(Term::Literal { lex, tail })
}

fn line_of_copy(alloc: Global, item: &Item, out: &mut Text) -> Result<bool, Fail> {
    let copied = item.copy(alloc)?;
    line(alloc, &copied, out)?;
    Ok(copied.same(item))
}

#[test]
fn nested_triple_terms(rt: HostRuntime) -> Result<(), Fail> {
    let alloc = rt.alloc();
    let three = Three {
        s: iri(alloc, b"a")?,
        p: iri(alloc, b"a")?,
        o: literal(alloc, b"x", Tail::Lang(text(alloc, b"en")?))?,
    };
    let nested = Term::Triple(Boxed::new(alloc, three)?);
    let item = Item::Triple(nested.copy(alloc)?, iri(alloc, b"a")?, iri(alloc, b"a")?);
    let quad = Item::Quad(
        iri(alloc, b"a")?,
        iri(alloc, b"a")?,
        nested,
        iri(alloc, b"g")?,
    );
    let mut out = Text::new(alloc);
    assert!(rt; line_of_copy(alloc, &item, &mut out)?);
    assert!(rt; line_of_copy(alloc, &quad, &mut out)?);
    assert!(rt; !item.same(&quad));
    let expected = b"<< <a> <a> \"x\"@en >> <a> <a> .\n<a> <a> << <a> <a> \"x\"@en >> <g> .\n";
    assert_eq!(rt; out.bytes(), expected.as_slice());
    Ok(())
}

#[test]
fn escapes_and_labels(rt: HostRuntime) -> Result<(), Fail> {
    let alloc = rt.alloc();
    let string = text(alloc, b"http://www.w3.org/2001/XMLSchema#string")?;
    let items = [
        Item::Triple(
            Term::Bnode(text(alloc, b"a-X")?),
            iri(alloc, b"a b")?,
            literal(alloc, b"\"\n\x7F\xC3\xA9", Tail::Simple)?,
        ),
        Item::Quad(
            Term::Bnode(text(alloc, b"")?),
            iri(alloc, b"a b")?,
            literal(alloc, b"x", Tail::Typed(string))?,
            Term::Default,
        ),
        Item::Namespace {
            name: text(alloc, b"p\n")?,
            iri: text(alloc, b"u:")?,
        },
    ];
    let mut out = text(alloc, b"# ")?;
    for item in items.iter() {
        assert!(rt; line_of_copy(alloc, item, &mut out)?);
    }
    let expected =
        b"# _:aX2DX58 <a\\u0020b> \"\\\"\\n\\u007F\xC3\xA9\" .\n_:X <a\\u0020b> \"x\" .\n# prefix p\\n <u:>\n";
    assert_eq!(rt; out.bytes(), expected.as_slice());
    Ok(())
}

#[test]
fn long_strings(rt: HostRuntime) -> Result<(), Fail> {
    let alloc = rt.alloc();
    let mut out = Vec::new(alloc);
    let mut lex = [b'a'; 150];
    push_string(&mut out, &lex)?;
    assert_eq!(rt; out.len(), 152);
    lex[70] = b'"';
    lex[149] = 0x7f;
    push_string(&mut out, &lex)?;
    assert_eq!(rt; out.len(), 152 + 158);
    assert_eq!(rt; &out[222..226], b"a\\\"a".as_slice());
    Ok(())
}

// Whether a string is placed behind two bytes, with 20 bytes of room behind it, as it is appended. None: it isn't placed.
fn is_as_appended(
    alloc: Global,
    page: &mut [u8],
    bytes: &[u8],
    at: usize,
    len: u32,
) -> Result<Option<bool>, Fail> {
    let inside = at <= bytes.len() && len as usize <= bytes.len() - at;
    if !inside || page.len() < STRING_ROOM + 22 {
        return Ok(Some(false));
    }
    let mut out = Vec::new(alloc);
    out.extend_from_slice(&page[..2])?;
    push_string(&mut out, &bytes[at..at + len as usize])?;
    let lex = Span { at: at as u64, len };
    match place_string(page, 2, bytes, lex, 20) {
        Some(end) => Ok(Some(&page[..end] == out.as_slice())),
        None => Ok(None),
    }
}

fn zeros(alloc: Global, len: usize) -> Result<Vec<u8>, Fail> {
    let mut page = Vec::new(alloc);
    page.resize(len, 0)?;
    Ok(page)
}

// Letters, with one byte at three places.
fn letters(alloc: Global, escaped: u8, places: [usize; 3]) -> Result<Vec<u8>, Fail> {
    let mut bytes = zeros(alloc, 200)?;
    for b in &mut bytes {
        *b = b'a';
    }
    for place in places {
        if place < bytes.len() {
            bytes[place] = escaped;
        }
    }
    Ok(bytes)
}

#[test]
fn long_strings_at_their_places(rt: HostRuntime) -> Result<(), Fail> {
    let alloc = rt.alloc();
    let mut page = zeros(alloc, 1300)?;
    let rows: [[usize; 3]; 8] = [
        [200, 200, 200],
        [0, 1, 2],
        [15, 15, 15],
        [16, 31, 47],
        [17, 32, 33],
        [63, 64, 127],
        [33, 126, 128],
        [14, 34, 149],
    ];
    let escaped: [u8; 9] = *b"\t\x08\n\r\x0C\"\\\0\x7F";
    for places in rows {
        for b in escaped {
            let bytes = letters(alloc, b, places)?;
            for len in [
                15, 16, 17, 31, 32, 33, 34, 48, 64, 65, 127, 128, 129, 150, 184u32,
            ] {
                assert_eq!(rt;
                    is_as_appended(alloc, &mut page, &bytes, 0, len)?,
                    Some(true)
                );
            }
        }
    }
    Ok(())
}

// Where the file has too few bytes for a wide block.
#[test]
fn strings_at_the_end_of_the_file(rt: HostRuntime) -> Result<(), Fail> {
    let alloc = rt.alloc();
    let mut page = zeros(alloc, 1300)?;
    let rows: [[usize; 3]; 5] = [
        [200, 200, 200],
        [137, 138, 152],
        [153, 168, 183],
        [154, 169, 170],
        [151, 152, 200],
    ];
    let escaped: [u8; 3] = *b"\n\"\x01";
    for places in rows {
        for b in escaped {
            let bytes = letters(alloc, b, places)?;
            for len in [1, 15, 16, 17, 18, 31, 32, 33, 34, 46, 47u32] {
                assert_eq!(rt;
                    is_as_appended(alloc, &mut page, &bytes, 137, len)?,
                    Some(true)
                );
            }
        }
    }
    Ok(())
}

#[test]
fn strings_with_too_little_room(rt: HostRuntime) -> Result<(), Fail> {
    let alloc = rt.alloc();
    let mut page = zeros(alloc, 1300)?;
    let bytes = letters(alloc, b'"', [5, 16, 130])?;
    assert_eq!(rt;
        is_as_appended(alloc, &mut page, &bytes, 50, 134)?,
        Some(true)
    );
    assert_eq!(rt; is_as_appended(alloc, &mut page, &bytes, 50, 135)?, None);
    assert_eq!(rt; is_as_appended(alloc, &mut page, &bytes, 190, 10)?, None);
    // 2 bytes before it, 6 for each byte, 2 quotes, a block, and 20 bytes behind it.
    let least = 2 + 6 * 150 + 2 + 16 + 20;
    page.truncate(least);
    assert_eq!(rt;
        is_as_appended(alloc, &mut page, &bytes, 0, 150)?,
        Some(true)
    );
    page.truncate(least - 1);
    assert_eq!(rt; is_as_appended(alloc, &mut page, &bytes, 0, 150)?, None);
    Ok(())
}
