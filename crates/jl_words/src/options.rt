//! The words of options.
ghost use Rattle.std.specs.Prelude.{◌≡◌, ◌<◌, nat_le, length, IfSome};
ghost use Rattle.std.specs.List.{find, list_all, list_any, position};
ghost use Rattle.std.specs.Option.{option_map};
ghost use Rattle.jl_words.specs.Jobs as spec;
ghost use Rattle.jl_words.specs.Table.{seen, values_of};
ghost use Rattle.jl_words.specs.Ranges.{IsIn};

use crate::number::number_within;
use crate::table::{Line, Setting, Values, beginning, values_of};
use jl_base::Text;

fn gives(setting: Setting, word: &[u8]) -> bool
    ensures { result ≡ spec.gives setting word.now }
{
    word.starts_with(beginning(setting))
}

/// The value in a word of this option.
pub fn value_in(setting: Setting, word: &[u8]) -> &[u8]
    ensures { result.now ≡ spec.value_in setting word.now }
{
    match word.get(beginning(setting).len()..) {
        Some(value) => value,
        None => &[],
    }
}

fn may_be(values: Values, value: &[u8]) -> bool
    ensures { result ≡ spec.may_be values value.now }
{
    match values {
        Values::Range { least, most, .. } => number_within(least, most, value).is_some(),
        Values::Text => !value.is_empty(),
    }
}

fn gives_well(word: &[u8], setting: Setting) -> bool
    ensures { result ≡ spec.gives_well word.now setting }
{
    gives(setting, word) && may_be(values_of(setting), value_in(setting, word))
}

fn times(setting: Setting, words: &[Text]) -> usize
    ensures { result ≡ spec.times setting words.now }
{
    words
        .iter()
        .filter(|word| gives(setting, word.bytes()))
        .count()
}

fn is_of(options: &[Setting], word: &[u8]) -> bool
    ensures { result ≡ list_any (spec.gives_well word.now) options.now }
{
    options.iter().any(|setting| gives_well(word, *setting))
}

fn are_of(options: &[Setting], words: &[Text]) -> bool
    ensures { result ≡ list_all (λ word. list_any (spec.gives_well word) options.now) words.now }
{
    words.iter().all(|word| is_of(options, word.bytes()))
}

fn are_once(options: &[Setting], words: &[Text]) -> bool
    ensures { result ≡ list_all (λ setting. nat_le (spec.times setting words.now) 1) options.now }
{
    options.iter().all(|setting| times(*setting, words) <= 1)
}

fn are_given(options: &[Setting], words: &[Text]) -> bool
    ensures { result ≡ list_all (λ setting. nat_le 1 (spec.times setting words.now)) options.now }
{
    options.iter().all(|setting| 1 <= times(*setting, words))
}

/// Whether the words are options that the command takes.
pub fn are_options(line: &Line, words: &[Text]) -> bool
    ensures { result ≡ spec.are_options (seen line.now) words.now }
{
    are_of(line.options, words) && are_once(line.options, words) && are_given(line.required, words)
}

fn first_of(setting: Setting, words: &[Text]) -> Option<&Text>
    ensures { option_map (λ word. word.now) result ≡ find (spec.gives setting) words.now }
{
    words.iter().find(|word| gives(setting, word.bytes()))
}

fn value_of(setting: Setting, words: &[Text]) -> Option<&[u8]>
    ensures { option_map (λ value. value.now) result ≡ spec.value_of setting words.now }
{
    let word = first_of(setting, words)?;
    Some(value_in(setting, word.bytes()))
}

/// The number that the words give this option, or its default.
pub fn number_of(setting: Setting, words: &[Text]) -> u64
    ensures exact { result ≡ spec.number_of setting words.now }
    ensures within { IsIn (values_of setting) result }
{
    let Values::Range {
        least,
        most,
        default,
    } = values_of(setting)
    else {
        return 0;
    };
    let Some(value) = value_of(setting, words) else {
        return default;
    };
    match number_within(least, most, value) {
        Some(number) => number,
        None => default,
    }
}

/// The place of the first word of this option.
pub fn place_of(setting: Setting, words: &[Text]) -> Option<usize>
    ensures exact { result ≡ position (spec.gives setting) words.now }
    ensures within { IfSome result (λ place. place < length words.now) }
{
    words.iter().position(|word| gives(setting, word.bytes()))
}
