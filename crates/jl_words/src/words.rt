//! The words of a command line.
ghost use Rattle.std.specs.Prelude.{◌≡◌, ◌<◌, ◌≤◌, ◌==◌, not, length, IfSome, IsTrue};
ghost use Rattle.std.specs.List.{list_all, position};
ghost use Rattle.std.specs.Option.{option_map};
ghost use Rattle.jl_words.specs.Jobs as spec;
ghost use Rattle.jl_words.specs.Table.{line_of, seen};

use crate::options::{are_options, number_of, place_of, value_in};
use crate::table::{COMMANDS, Line, Setting, line_of};
use crate::{Command, Job};
use jl_base::Text;

fn command_of(word: &[u8]) -> Option<Command>
    ensures { result ≡ spec.command_of word.now }
{
    COMMANDS
        .into_iter()
        .find(|command| word == line_of(*command).name)
}

fn is_option(word: &[u8]) -> bool
    ensures { result ≡ spec.is_option word.now }
{
    word.starts_with(b"--") && word != b"--".as_slice()
}

// The place of the first word that is no option's.
fn first_other(words: &[Text]) -> Option<usize>
    ensures exact { result ≡ position (λ word. not (spec.is_option word)) words.now }
    ensures within { IfSome result (λ place. place < length words.now) }
{
    words.iter().position(|word| !is_option(word.bytes()))
}

fn option_count(words: &[Text]) -> usize
    ensures exact { result ≡ spec.option_count words.now }
    ensures within { result ≤ length words.now }
{
    match first_other(words) {
        Some(place) => place,
        None => words.len(),
    }
}

fn is_ended(words: &[Text]) -> bool
    ensures { result ≡ spec.is_ended words.now }
{
    match words.first() {
        Some(word) => word.bytes() == b"--".as_slice(),
        None => false,
    }
}

fn before_files(words: &[Text]) -> usize
    ensures exact { result ≡ spec.before_files words.now }
    ensures within { result ≤ length words.now }
{
    let count = option_count(words);
    if is_ended(&words[count..]) {
        return count + 1;
    }
    count
}

fn are_named(words: &[Text]) -> bool
    ensures { result ≡ list_all (λ word. not (length word == 0)) words.now }
{
    words.iter().all(|word| !word.bytes().is_empty())
}

fn are_files(line: &Line, words: &[Text]) -> bool
    ensures exact { result ≡ spec.are_files (seen line.now) words.now }
    ensures number { IsTrue result → (line.now.least ≤ length words.now) × (length words.now ≤ line.now.most) }
{
    are_named(words) && line.least <= words.len() && words.len() <= line.most
}

fn job_with(command: Command, options: &[Text], first: usize) -> Job
    ensures exact { result ≡ spec.job_with command options.now first }
    ensures run { 0 < result.run }
    ensures workers { (0 < result.workers) × (result.workers ≤ 64) }
{
    Job {
        command,
        workers: number_of(Setting::Workers, options) as u32,
        run: number_of(Setting::Run, options) as u32,
        items: number_of(Setting::Items, options),
        per: number_of(Setting::Per, options) as u32,
        number: number_of(Setting::Number, options),
        strict: number_of(Setting::Strict, options) == 1,
        out: place_of(Setting::Out, options).map(|before| before + 1),
        first,
    }
}

/// The job that the words ask for, where they ask for one. The words don't include the program's name. Takes no memory.
pub fn job(words: &[Text]) -> Option<Job>
    ensures job { result ≡ spec.job_of words.now }
    ensures files { IfSome result (λ job. job.first ≤ length words.now) }
    ensures number { IfSome result (λ job. spec.IsAsMany (line_of job.command) (spec.files_of words.now (Some job))) }
    ensures run { IfSome result (λ job. 0 < job.run) }
    ensures workers { IfSome result (λ job. (0 < job.workers) × (job.workers ≤ 64)) }
{
    let (command, words) = words.split_first()?;
    let command = command_of(command.bytes())?;
    let line = line_of(command);
    let options = &words[..option_count(words)];
    let before = before_files(words);
    if !are_options(&line, options) || !are_files(&line, &words[before..]) {
        return None;
    }
    Some(job_with(command, options, before + 1))
}

/// The name of the job's output, where a word gives one: else it is standard output. Takes no memory.
pub fn output(words: &[Text]) -> Option<&[u8]>
    ensures { option_map (λ name. name.now) result ≡ spec.output_of words.now (spec.job_of words.now) }
{
    let word = words.get(job(words)?.out?)?;
    Some(value_in(Setting::Out, word.bytes()))
}

/// The words that name the files of the job, in order, and none where there is no job. Takes no memory.
pub fn files(words: &[Text]) -> &[Text]
    ensures { result.now ≡ spec.files_of words.now (spec.job_of words.now) }
{
    match job(words) {
        Some(job) => &words[job.first..],
        None => &[],
    }
}
