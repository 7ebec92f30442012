//! A job from its words to its output.
ghost use Rattle.std.specs.Prelude.{◌≡◌, ◌<◌, ◌≤◌, ◌^◌, length};
ghost use Rattle.jl_base.specs.SourceLists.{total};
ghost use Rattle.jl_rows.specs.Decoder.{decode};
ghost use Rattle.jl_words.specs.Jobs.{job_of, files_of};
ghost use Rattle.jl_words.specs.Table.{line_of};
ghost use Rattle.jl_top.specs.Goals as goals;
ghost use Rattle.jl_top.specs.Goals.{goal, inspected, lines_of, reported, validated};
ghost use Rattle.jl_base.specs.Limits.{most_bytes};
ghost use Rattle.jl_survey.specs.Surveys as spec;
ghost use Rattle.jl_top.specs.Running.{Meets, Runs};

use crate::gather::gather;
use crate::{Command, Gate, Job, job};
use jl_base::{Seq, Shelf, Source, Space, Text, write_all};
use jl_decode::{Ended, count_items, write_lines};
use jl_frames::index;
use jl_lines::Refused;
use jl_survey::{report_inspect, report_valid, survey};
use jl_text::Notice;
use std::alloc::Global;
use std::thread::Threads;

/// How many bytes the inputs of a job may have together.
const MOST_BYTES: u64 = 1 << 30;

// The lines of a file.
fn write_nquads<R: Threads + Sync, K: Shelf, G: Gate>(
    rt: &R,
    alloc: Global,
    file: &Space,
    job: &Job,
    out: &mut K,
    gate: &G,
) -> Result<(), Notice>
    requires short { length file.now ≤ most_bytes }
    requires some { 0 < job.now.run }
    ensures { Meets (lines_of (decode job.now.strict file.now)) (K.held out.old) (K.held out.new) (K.faults out.old) (K.faults out.new) result }
{
    match write_lines(rt, alloc, file, job.run, job.workers, job.strict, out, gate) {
        Ended::Whole => Ok(()),
        Ended::Malformed(fault) => Err(Notice::Malformed { file: 1, fault }),
        Ended::WriteFault => Err(Notice::WriteFault),
        Ended::NoMemory => Err(Notice::NoMemory),
    }
}

// A report.
fn write_report<K: Shelf>(report: &Text, out: &mut K) -> Result<(), Notice>
    ensures { Meets (reported report.now) (K.held out.old) (K.held out.new) (K.faults out.old) (K.faults out.new) result }
{
    match write_all(out, report.bytes()) {
        Ok(()) => Ok(()),
        Err(_) => Err(Notice::WriteFault),
    }
}

// The report of a file that is decoded whole.
fn write_valid<R: Threads + Sync, K: Shelf, G: Gate>(
    rt: &R,
    alloc: Global,
    file: &Space,
    job: &Job,
    out: &mut K,
    gate: &G,
) -> Result<(), Notice>
    requires short { length file.now ≤ most_bytes }
    requires some { 0 < job.now.run }
    ensures { Meets (validated file.now (decode job.now.strict file.now)) (K.held out.old) (K.held out.new) (K.faults out.old) (K.faults out.new) result }
{
    let tally = match count_items(rt, alloc, file, job.run, job.workers, job.strict, gate) {
        Ok(tally) => tally,
        Err(Refused::Malformed(fault)) => return Err(Notice::Malformed { file: 1, fault }),
        Err(Refused::NoMemory) => return Err(Notice::NoMemory),
    };
    match report_valid(alloc, tally.frames, tally.statements, tally.namespaces) {
        Ok(report) => write_report(&report, out),
        Err(_) => Err(Notice::NoMemory),
    }
}

// The report of a file whose rows are read.
fn write_survey<K: Shelf>(alloc: Global, file: &Space, out: &mut K) -> Result<(), Notice>
    requires { length file.now ≤ most_bytes }
    ensures { Meets (inspected (spec.survey file.now)) (K.held out.old) (K.held out.new) (K.faults out.old) (K.faults out.new) result }
{
    let Ok(frames) = index(alloc, file) else {
        return Err(Notice::NoMemory);
    };
    let survey = match survey(file, &frames) {
        Ok(survey) => survey,
        Err(fault) => return Err(Notice::Malformed { file: 1, fault }),
    };
    match report_inspect(alloc, &survey, file) {
        Ok(report) => write_report(&report, out),
        Err(_) => Err(Notice::NoMemory),
    }
}

fn first(files: &Seq<Space>) -> &Space
    requires { 0 < length files.now }
    ensures is { result.now ≡ goals.first files.now }
    ensures within { length result.now ≤ total files.now }
{
    files.at(0)
}

// What the job's goal has for these files.
fn write_goal<R: Threads + Sync, K: Shelf, G: Gate>(
    rt: &R,
    alloc: Global,
    job: &Job,
    files: &Seq<Space>,
    out: &mut K,
    gate: &G,
) -> Result<(), Notice>
    requires many { (line_of job.now.command).least ≤ length files.now }
    requires within { total files.now ≤ most_bytes }
    requires run { 0 < job.now.run }
    ensures { Meets (goal job.now files.now) (K.held out.old) (K.held out.new) (K.faults out.old) (K.faults out.new) result }
{
    match job.command {
        Command::Nquads => write_nquads(rt, alloc, first(files), job, out, gate),
        Command::Validate => write_valid(rt, alloc, first(files), job, out, gate),
        Command::Inspect => write_survey(alloc, first(files), out),
    }
}

/// Does what the words ask for: reads all inputs, and then writes the output.
pub(crate) fn run<R: Threads + Sync, S: Source, K: Shelf, G: Gate>(
    rt: &R,
    alloc: Global,
    words: &[Text],
    sources: &mut Vec<S>,
    out: &mut K,
    gate: &G,
) -> Result<(), Notice>
    requires { length sources.old.items ≡ length (files_of words.now (job_of words.now)) }
    ensures { Runs S.told (job_of words.now) sources.old.items sources.new.items K.held K.faults out.old out.new result }
{
    let Some(job) = job(words) else {
        return Err(Notice::Usage);
    };
    let files = gather(alloc, sources, MOST_BYTES)?;
    write_goal(rt, alloc, &job, &files, out, gate)
}
