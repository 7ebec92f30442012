use super::*;
use jl_base::Text;
use std::alloc::{AllocError, Global};
use std::test::Fail;

fn texts(alloc: Global, words: &[&str]) -> Result<Vec<Text>, AllocError> {
    let mut texts = Vec::new(alloc);
    for word in words {
        texts.push(Text::from_bytes(alloc, word.as_bytes())?)?;
    }
    Ok(texts)
}

// The job of what stands in no word.
fn plain(command: Command, strict: bool, first: usize) -> Option<Job> {
    Some(Job {
        command,
        workers: 4,
        run: 16,
        items: 0,
        per: 256,
        number: 0,
        strict,
        out: None,
        first,
    })
}

#[test]
fn faulty_command_lines(rt: HostRuntime) -> Result<(), Fail> {
    let alloc = rt.alloc();
    let rows: [&[&str]; 30] = [
        &[],
        &["", "f"],
        &["wave", "f"],
        &["NQUADS", "f"],
        &["split", "--items=2", "f"],
        &["nquads"],
        &["nquads", ""],
        &["nquads", "a", "b"],
        &["nquads", "f", "--strict=1"],
        &["nquads", "--strict=1"],
        &["nquads", "--strict=2", "f"],
        &["nquads", "--strict=01", "f"],
        &["nquads", "--strict=+1", "f"],
        &["nquads", "--strict=18446744073709551617", "f"],
        &["nquads", "--strict=", "f"],
        &["nquads", "--strict", "f"],
        &["nquads", "--strict=1", "--strict=1", "f"],
        &["nquads", "--workers=0", "f"],
        &["nquads", "--workers=65", "f"],
        &["nquads", "--run=65537", "f"],
        &["nquads", "--out=", "f"],
        &["validate", "--out=x", "f"],
        &["nquads", "--run=07", "f"],
        &["nquads", "--run=1", "--run=1", "f"],
        &["nquads", "--"],
        &["nquads", "--", ""],
        &["nquads", "--", "--", "f"],
        &["nquads", "--strict=1", "", "f"],
        &["inspect", "--strict=0", "f"],
        &["inspect", "--run=1", "f"],
    ];
    for row in rows {
        let words = texts(alloc, row)?;
        assert_eq!(rt; job(&words), None);
        assert_eq!(rt; files(&words).len(), 0);
    }
    Ok(())
}

#[test]
fn jobs_of_words(rt: HostRuntime) -> Result<(), Fail> {
    let alloc = rt.alloc();
    let rows: [(&[&str], Command, bool, usize); 9] = [
        (&["nquads", "f"], Command::Nquads, false, 1),
        (&["validate", "-f"], Command::Validate, false, 1),
        (&["inspect", "f=g"], Command::Inspect, false, 1),
        (&["nquads", "--strict=1", "f"], Command::Nquads, true, 2),
        (&["nquads", "--strict=0", "f"], Command::Nquads, false, 2),
        (&["validate", "--strict=1", "f"], Command::Validate, true, 2),
        (&["nquads", "--", "--f"], Command::Nquads, false, 2),
        (&["inspect", "--", "--"], Command::Inspect, false, 2),
        (
            &["nquads", "--strict=1", "--", "--strict=1"],
            Command::Nquads,
            true,
            3,
        ),
    ];
    for (row, command, strict, first) in rows {
        let words = texts(alloc, row)?;
        assert_eq!(rt; job(&words), plain(command, strict, first));
        assert_eq!(rt; files(&words).len(), 1);
    }
    Ok(())
}

#[test]
fn workers_runs_and_an_output(rt: HostRuntime) -> Result<(), Fail> {
    let alloc = rt.alloc();
    let words = texts(
        alloc,
        &["nquads", "--run=1", "--out=a=b", "--workers=64", "f"],
    )?;
    let several = Job {
        command: Command::Nquads,
        workers: 64,
        run: 1,
        items: 0,
        per: 256,
        number: 0,
        strict: false,
        out: Some(2),
        first: 4,
    };
    assert_eq!(rt; job(&words), Some(several));
    assert_eq!(rt; output(&words), Some(b"a=b".as_slice()));
    assert_eq!(rt; output(&texts(alloc, &["nquads", "f"])?), None);
    Ok(())
}
