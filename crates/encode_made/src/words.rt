//! What the words ask for.
ghost use Rattle.std.specs.Prelude.{◌<◌, ◌≤◌};

// How many items a frame has where no word says it.
const PER: u32 = 256;

/// How many items are asked for, and how many of them in a frame.
#[derive(Clone, Copy)]
pub struct Wanted {
    pub items: u32,
    pub per: u32,
    ghost some: { 0 < per },
    ghost many: { per ≤ 65536 },
}

fn number(word: &String) -> Option<u32> {
    word.parse::<u32>().ok()
}

// How many items a frame has.
fn frame(words: &[String]) -> Option<u32> {
    match words.get(1) {
        Some(word) => number(word),
        None => Some(PER),
    }
}

/// What the words ask for: a number of items, and for frames a number from 1 to 65536.
pub fn read_words(words: &[String]) -> Option<Wanted> {
    let items = number(words.first()?)?;
    let per = frame(words)?;
    if words.len() > 2 || per == 0 || per > 65536 {
        return None;
    }
    Some(Wanted { items, per })
}
