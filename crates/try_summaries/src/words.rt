//! What the words ask for.
use jl_base::Text;
use std::alloc::Global;

/// What is done with each run.
#[derive(Clone, Copy)]
pub enum Stage {
    /// Its rows are read onto a tape.
    Tape,
    /// And summarised.
    Sums,
    /// And the summary acts on a state.
    Apply,
    /// Its rows are read onto a tape, and their lines are written from there.
    Lines,
}

/// A stage, over runs of so many frames, so many times, of a file.
#[derive(Drop)]
pub struct Timed {
    pub stage: Stage,
    pub per: u64,
    pub passes: u64,
    pub file: Text,
}

#[derive(Drop)]
pub enum Task {
    Check(Vec<Text>),
    Time(Timed),
}

fn stage_named(word: &String) -> Option<Stage> {
    match word.as_str() {
        "tape" => Some(Stage::Tape),
        "sums" => Some(Stage::Sums),
        "apply" => Some(Stage::Apply),

        "lines" => Some(Stage::Lines),
        _ => None,
    }
}

fn number(word: &String) -> Option<u64> {
    word.parse::<u64>().ok()
}

fn read_names(alloc: Global, words: &[String]) -> Option<Vec<Text>> {
    let mut names = Vec::new(alloc);
    for word in words {
        names
            .push(Text::from_bytes(alloc, word.as_bytes()).ok()?)
            .ok()?;
    }
    Some(names)
}

fn read_timed(alloc: Global, words: &[String]) -> Option<Timed> {
    let stage = stage_named(words.first()?)?;
    let per = number(words.get(1)?)?;
    let passes = number(words.get(2)?)?;
    let file = Text::from_bytes(alloc, words.get(3)?.as_bytes()).ok()?;
    Some(Timed {
        stage,
        per,
        passes,
        file,
    })
}

/// What the words ask for: files to be checked, or a stage, two numbers and a file.
pub fn read_words(alloc: Global, words: &[String]) -> Option<Task> {
    let (word, rest) = words.split_first()?;
    match word.as_str() {
        "check" => Some(Task::Check(read_names(alloc, rest)?)),
        "time" => Some(Task::Time(read_timed(alloc, rest)?)),
        _ => None,
    }
}
