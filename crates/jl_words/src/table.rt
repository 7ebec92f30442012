//! The table of the commands and their options.
ghost use Rattle.std.specs.Prelude.{◌≡◌};
ghost use Rattle.jl_words.specs.Table as spec;

use crate::Command;

/// What an option sets.
#[derive(Clone, Copy, Debug, PartialEq, Eq)]
pub enum Setting {
    Workers,
    Run,
    Items,
    Per,
    Number,
    Strict,
    Out,
}

/// What the value of an option may be.
#[derive(Clone, Copy, Debug, PartialEq, Eq)]
pub enum Values {
    /// A number of this range. Where no word gives one, it is the default.
    Range { least: u64, most: u64, default: u64 },
    /// Any text but the empty one.
    Text,
}

/// What a command takes.
#[derive(Clone, Copy, Debug)]
pub struct Line {
    pub name: &'static [u8],
    pub options: &'static [Setting],
    /// Those of its options that have to be given.
    pub required: &'static [Setting],
    /// How many files it has, at the least and at the most.
    pub least: usize,
    pub most: usize,
}

/// The commands.
pub const COMMANDS: [Command; 3] = [Command::Nquads, Command::Validate, Command::Inspect];

/// What a command takes.
pub fn line_of(command: Command) -> Line
    ensures { spec.seen result ≡ spec.line_of command }
{
    match command {
        Command::Nquads => taken(
            b"nquads",
            &[
                Setting::Workers,
                Setting::Run,
                Setting::Strict,
                Setting::Out,
            ],
            &[],
            1,
            1,
        ),
        Command::Validate => taken(
            b"validate",
            &[Setting::Workers, Setting::Run, Setting::Strict],
            &[],
            1,
            1,
        ),
        Command::Inspect => taken(b"inspect", &[], &[], 1, 1),
    }
}

/// What the word of an option begins with; its value is the rest.
pub fn beginning(setting: Setting) -> &'static [u8]
    ensures { result.now ≡ spec.beginning setting }
{
    match setting {
        Setting::Workers => b"--workers=",
        Setting::Run => b"--run=",
        Setting::Items => b"--items=",
        Setting::Per => b"--per=",
        Setting::Number => b"--number=",
        Setting::Strict => b"--strict=",
        Setting::Out => b"--out=",
    }
}

/// What the value of an option may be.
pub fn values_of(setting: Setting) -> Values
    ensures { result ≡ spec.values_of setting }
{
    match setting {
        Setting::Workers => range(1, 64, 4),
        Setting::Run => range(1, 65536, 16),
        Setting::Items => range(0, 1_000_000, 0),
        Setting::Per => range(1, 65536, 256),
        Setting::Number => range(0, u64::MAX, 0),
        Setting::Strict => range(0, 1, 0),
        Setting::Out => Values::Text,
    }
}

fn range(least: u64, most: u64, default: u64) -> Values
    ensures { result ≡ Values.Range least most default }
{
    Values::Range {
        least,
        most,
        default,
    }
}

fn taken(
    name: &'static [u8],
    options: &'static [Setting],
    required: &'static [Setting],
    least: usize,
    most: usize,
) -> Line
    ensures { spec.seen result ≡ spec.taken name.now options.now required.now least most }
{
    Line {
        name,
        options,
        required,
        least,
        most,
    }
}
