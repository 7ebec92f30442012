//! The line that a fault has on standard error.
ghost use Rattle.std.specs.Prelude.{◌≡◌, ◌+◌, ◌≤◌, ◌++◌, codes, length};
ghost use Rattle.std.specs.Fmt.{decimal};
ghost use Rattle.jl_base.specs.Kinds.{name_of};
ghost use Rattle.jl_text.specs.Notices.{notice_line};

use crate::short::{ROOM, Short};
use jl_base::{Fault, kind_name};

/// How a command ended, where it didn't end well. Files and items are counted from 1.
#[derive(Clone, Copy, Debug)]
pub enum Notice {
    Malformed { file: u32, fault: Fault },
    Usage,
    ReadFault { file: u32 },
    WriteFault,
    NoMemory,
    TooLong,
    TooWide { item: u64 },
}

fn plain(text: &[u8]) -> Short
    requires { length text.now ≤ ROOM }
    ensures { result ≡ text.now }
{
    let mut line = Short::new();
    line.push(text);
    line
}

fn with_number(before: &[u8], n: u64, after: &[u8]) -> Short
    requires { length before.now + 20 + length after.now ≤ ROOM }
    ensures { result ≡ before.now ++ decimal n ++ after.now }
{
    let mut line = Short::new();
    line.push(before);
    line.push_number(n);
    line.push(after);
    line
}

fn malformed(file: u32, fault: Fault) -> Short
    ensures { result ≡ notice_line (Notice.Malformed file fault) }
{
    let mut line = Short::new();
    line.push(b"jellyp: malformed: file ");
    line.push_number(u64::from(file));
    line.push(b", frame ");
    line.push_number(fault.place.frame);
    line.push(b", row ");
    line.push_number(u64::from(fault.place.row));
    line.push(b": ");
    line.push(kind_name(fault.kind).as_bytes());
    line.push(b"\n");
    line
}

/// The line for standard error.
pub fn report_fault(notice: Notice) -> Short
    ensures { result ≡ notice_line notice }
{
    match notice {
        Notice::Malformed { file, fault } => malformed(file, fault),
        Notice::Usage => plain(b"usage: jellyp COMMAND [--NAME=VALUE]... [FILE]...\n"),
        Notice::ReadFault { file } => {
            with_number(b"jellyp: read fault: file ", u64::from(file), b"\n")
        }
        Notice::WriteFault => plain(b"jellyp: write fault\n"),
        Notice::NoMemory => plain(b"jellyp: no memory\n"),
        Notice::TooLong => plain(b"jellyp: too long\n"),
        Notice::TooWide { item } => with_number(b"jellyp: item ", item, b" too wide\n"),
    }
}
