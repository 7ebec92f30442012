//! Tries summaries on files: `try_summaries check FILE..` tells by its status whether they lead to the very state, or fault,
//! to which the rows lead one by one; `try_summaries time STAGE PER PASSES FILE` goes over a file by a stage of a run, of
//! which each has PER frames, so that the stage's speed is the CPU time of one more pass.
//!
//! It ends with 0 where all went well, also of a file without options, with 1 where a file can't be read or memory wasn't
//! found, with 2 where the words ask for nothing, and with 3 where summaries lead elsewhere. Its data/ are the worked files
//! of jl_top's tests, and files made at random by interop/making.py, every third one damaged by damage.py.
#![tactic(auto)]

mod check;
mod runs;
mod stages;
mod words;

ghost use Rattle.try_summaries.specs.Given.{IsFile};

use check::agree;
use jl_base::{Space, Text};
use jl_frames::index;
use jl_io::FileSource;
use jl_rows::{Head, head};
use runs::{Given, Room};
use stages::pass;
use std::alloc::Global;
use std::env;
use std::process::ExitCode;
use std::rt::{Files, Runtime};
use words::{Stage, Task, read_words};

// More than this isn't read.
const MOST: u64 = 1 << 30;

// What is done with a file's bytes.
#[derive(Clone, Copy)]
enum Way {
    Check,
    Time(Stage, u64),
}

// Some passes over the runs.
fn time(
    alloc: Global,
    given: &Given<'_>,
    stage: Stage,
    passes: u64,
    room: &mut Room,
) -> Option<bool>
    requires { IsFile given.now }
{
    for _ in 0..passes {
        pass(alloc, given, stage, room).ok()?;
    }
    Some(true)
}

// The file's bytes, its frames and its options, and what is done with them.
fn go_over(alloc: Global, space: &Space, per: u64, way: Way) -> Option<bool> {
    if space.bytes().len() as u64 > MOST {
        return None;
    }
    let frames = index(alloc, space).ok()?;
    let Head::First(options, _) = head(space) else {
        return Some(true);
    };
    let given = Given {
        bytes: space.bytes(),
        frames: &frames,
        options: &options,
        per,
    };
    let mut room = Room::new(alloc);
    match way {
        Way::Check => agree(alloc, &given, &mut room).ok(),
        Way::Time(stage, passes) => time(alloc, &given, stage, passes, &mut room),
    }
}

// One file.
fn file<R: Files>(rt: &R, alloc: Global, name: Text, per: u64, way: Way) -> Option<bool> {
    let mut space = Space::new(alloc);
    let mut source = FileSource::new(rt, name);
    space.fill(&mut source, MOST).ok()?;
    go_over(alloc, &space, per, way)
}

// All files, up to the first on which summaries lead elsewhere.
fn check_all<R: Files>(rt: &R, alloc: Global, names: Vec<Text>) -> Option<bool> {
    for name in names {
        if !file(rt, alloc, name, 1, Way::Check)? {
            return Some(false);
        }
    }
    Some(true)
}

fn run<R: Files>(rt: &R, alloc: Global, task: Task) -> Option<bool> {
    match task {
        Task::Check(names) => check_all(rt, alloc, names),
        Task::Time(wanted) => {
            let way = Way::Time(wanted.stage, wanted.passes);
            file(rt, alloc, wanted.file, wanted.per, way)
        }
    }
}

// The status of all that the words ask for.
fn status<R: Runtime + AllocGlobal>(rt: &R) -> u8 {
    let alloc = rt.alloc();
    let Ok(words) = env::args(rt) else {
        return 2;
    };
    let Ok(words) = words.skip(1).collect::<Vec<String>>(alloc) else {
        return 1;
    };
    let Some(task) = read_words(alloc, &words) else {
        return 2;
    };
    match run(rt, alloc, task) {
        Some(true) => 0,
        Some(false) => 3,
        None => 1,
    }
}

fn main(rt: HostRuntime) -> ExitCode {
    ExitCode::from(status(&rt))
}
