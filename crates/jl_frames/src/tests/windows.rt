//! Files that are read in windows of 16 bytes.
use super::pieces::Pieces;
use crate::{Feed, Window};
use jl_base::{FillFault, Space};
use std::alloc::{AllocError, Global};
use std::process::Abort;
use std::test::Fail;

// Frames of 46, 10 and 10 bytes.
const FILE: &[u8] = b"\x2d.............................................\x09.........\x09.........";

// A length that no frame has, and one that is none.
const LONG: &[u8] = b"\x81\x80\x80\x40";

const NONE: &[u8] = b"\x01a\xff\xff\xff\xff\xff\xff\xff\xff\xff\xff\xff.......................";

fn source(bytes: &[u8], fails: u64) -> Pieces {
    Pieces {
        rest: bytes,
        piece: 64,
        fails,
        calls: 0,
        given: 0,
        faults: 0,
    }
}

fn next(
    rt: &impl Abort,
    feed: &mut Feed,
    source: &mut Pieces,
    left: &mut u64,
    space: &mut Space,
) -> Result<Window, FillFault> {
    assert!(rt; !feed.is_ended());
    assert!(rt; feed.given() <= 1 << 62);
    feed.window(source, left, space)
}

// What the windows are: of each the number of its first frame, how many frames and bytes it has, and its fault.
fn windows(
    rt: &impl Abort,
    alloc: Global,
    bytes: &[u8],
    limit: u64,
    fails: u64,
) -> Result<String, Fail> {
    let mut source = source(bytes, fails);
    let mut feed = Feed::new(alloc, 16);
    let mut space = Space::new(alloc);
    let mut left = limit;
    let mut said = String::new(alloc);
    for _ in 0..5 {
        match next(rt, &mut feed, &mut source, &mut left, &mut space) {
            Ok(Window { frames, last }) => {
                let tail = frames.tail();
                let (first, count, bytes) = (frames.first(), frames.count(), frames.bytes());
                said = format!(in alloc; "{said}{first}: {count} of {bytes}, {tail:?}; ")?;
                if last {
                    break;
                }
            }
            Err(fault) => {
                said = format!(in alloc; "{said}{fault:?}; ")?;
                break;
            }
        }
    }
    Ok(format!(in alloc; "{said}{left} left")?)
}

#[test]
fn files_in_windows(rt: HostRuntime) -> Result<(), Fail> {
    let rows: [(&[u8], u64, u64, &str); 6] = [
        (
            FILE,
            66,
            0,
            "1: 1 of 46, None; 2: 1 of 10, None; 3: 1 of 10, None; 0 left",
        ),
        (FILE, 50, 0, "1: 1 of 46, None; TooLong; 0 left"),
        (FILE, 66, 3, "1: 1 of 46, None; ReadFault; 20 left"),
        (
            LONG,
            9,
            0,
            "1: 0 of 0, Some(Fault { place: Place { frame: 1, row: 0 }, kind: FrameTooLong }); 5 left",
        ),
        (
            NONE,
            99,
            0,
            "1: 1 of 2, Some(Fault { place: Place { frame: 2, row: 0 }, kind: BadVarint }); 83 left",
        ),
        (b"", 0, 0, "1: 0 of 0, None; 0 left"),
    ];
    for (bytes, limit, fails, want) in rows {
        let said = windows(&rt, rt.alloc(), bytes, limit, fails)?;
        assert_eq!(rt; said.as_str(), want);
    }
    Ok(())
}
