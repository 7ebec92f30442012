use super::*;
use jl_base::Space;
use std::test::Fail;

fn good(statements: u64, quads: bool) -> LineScan {
    LineScan {
        statements,
        quads,
        bad: None,
    }
}

fn bad(statements: u64, quads: bool, number: u64) -> LineScan {
    LineScan {
        statements,
        quads,
        bad: Some(number),
    }
}

#[test]
fn texts_with_one_worker_and_several(rt: HostRuntime) -> Result<(), Fail> {
    let rows: [(&[u8], LineScan); 13] = [
        (b"", good(0, false)),
        (b"\n\r\n", good(0, false)),
        (b"<a> <b> <c> .", good(1, false)),
        (b"<a> <b> <c> .\n", good(1, false)),
        (b"<a> <b> <c> .\n# c\n\n<a> <b> <c> <g> .", good(2, true)),
        (b"<a> <b> <c> .\r<a> <b> <d> .\r\n", good(2, false)),
        (b"<a> <b> .", bad(0, false, 1)),
        (
            b"<a> <b> <c> .\n<a> <b> .\n<a> <b> <c> <g> .",
            bad(1, false, 2),
        ),
        (b"\n\n<a> <b> <c> <g> .\n<a> <b> <c> .\nx", bad(2, true, 5)),
        (b"\xef\xbb\xbf<a> <b> <c> .\n", bad(0, false, 1)),
        (b"<a> <b> <c> .\r<a>\n", bad(1, false, 1)),
        (b"<a> <b> \"c\nd\" .\n", bad(0, false, 1)),
        (b"<a> <b> <c> . # \xff\n", bad(0, false, 1)),
    ];
    for (text, wanted) in rows {
        let space = Space::from_bytes(rt.alloc(), text)?;
        for workers in [1, 2, 3, 8, 64] {
            assert_eq!(rt; scan_lines(&rt, &space, workers)?, wanted);
        }
    }
    Ok(())
}
