use super::*;
use std::alloc::Global;
use std::test::Fail;

fn text(alloc: Global, letters: &str) -> Result<Text, Fail> {
    Ok(Text::from_bytes(alloc, letters.as_bytes())?)
}

#[test]
fn lists_grow(rt: HostRuntime) -> Result<(), Fail> {
    let alloc = rt.alloc();
    let mut name = Text::new(alloc);
    name.push(b'a')?;
    name.append(b"bcd")?;
    name.truncate(3);
    let copied = name.copy()?;
    assert_eq!(rt; copied.bytes(), b"abc".as_slice());
    let mut names = Seq::new(alloc);
    names.push(copied)?;
    names.push(name)?;
    assert_eq!(rt; names.len(), 2);
    assert_eq!(rt; names.at(1).at(2), &b'c');
    assert_eq!(rt; names.as_slice().len(), 2);
    names.clear();
    assert_eq!(rt; names.len(), 0);
    Ok(())
}

#[test]
fn items_are_copied(rt: HostRuntime) -> Result<(), Fail> {
    let alloc = rt.alloc();
    let label = Term::Bnode(text(alloc, "b")?);
    let three = Three {
        s: label.copy(alloc)?,
        p: Term::Iri(text(alloc, "p")?),
        o: label,
    };
    let nested = Term::Triple(Boxed::new(alloc, three)?);
    let literal = Term::Literal {
        lex: text(alloc, "x")?,
        tail: Tail::Lang(text(alloc, "en")?),
    };
    let item = Item::Quad(nested, Term::Iri(text(alloc, "p")?), literal, Term::Default);
    let copied = item.copy(alloc)?;
    let print = format!(in alloc; "{item:?}")?;
    assert_eq!(rt; format!(in alloc; "{copied:?}")?, print);
    assert!(rt; copied.same(&item));
    let name = Item::Namespace {
        name: text(alloc, "p")?,
        iri: text(alloc, "u:")?,
    };
    assert!(rt; name.same(&name.copy(alloc)?));
    assert!(rt; !name.same(&item));
    Ok(())
}

#[test]
fn a_space_has_its_bytes(rt: HostRuntime) -> Result<(), Fail> {
    let space = Space::from_bytes(rt.alloc(), b"hello")?;
    assert_eq!(rt; space.bytes(), b"hello".as_slice());
    assert_eq!(rt; space.text(Span { at: 1, len: 3 }), b"ell".as_slice());
    Ok(())
}

#[test]
fn a_space_is_cut_and_goes_on(rt: HostRuntime) -> Result<(), Fail> {
    let mut space = Space::from_bytes(rt.alloc(), b"hello")?;
    space.cut(2);
    space.append(b"y, you")?;
    assert_eq!(rt; space.len(), 8);
    assert_eq!(rt; space.bytes(), b"hey, you".as_slice());
    Ok(())
}
