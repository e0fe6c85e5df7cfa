ghost use Rattle.std.specs.Prelude.{◌≡◌, None, map, string_bytes, option_map};
ghost use Rattle.words_parse.specs.Shown.{options_of, shown};
ghost use Rattle.words_spec.specs.Reading as reading;

use crate::command::{Command, LinkValues};
use crate::spelling::{Spelling, spelling_of};
use crate::values::{are_values, is_value};
use words_spec::LinkOption;

/// What the words after `link` and these options ask for.
pub(crate) fn link_from<'a>(values: LinkValues<'a>, words: &'a [String]) -> Option<Command<'a>>
    ensures { option_map shown result
        ≡ reading.link_reading (map string_bytes words.now) None (options_of values.entry) }
{
    let Some((word, rest)) = words.split_first() else {
        return Some(Command::Link(values, words));
    };
    match spelling_of(word.as_str()) {
        Spelling::NoOption => entries_from(values, words),
        Spelling::Joined(option, value) => {
            let values = one_more(values, option, value)?;
            link_from(values, rest)
        }
        Spelling::Alone(option) => {
            let (value, rest) = rest.split_first()?;
            let values = one_more(values, option, value.as_str())?;
            link_from(values, rest)
        }
    }
}

fn entries_from<'a>(values: LinkValues<'a>, words: &'a [String]) -> Option<Command<'a>>
    ensures { option_map shown result ≡ reading.entries_reading (options_of values.entry) (map string_bytes words.now) }
{
    if are_values(words) {
        Some(Command::Link(values, words))
    } else {
        None
    }
}

// None where the text can't be a value, and where the option is there already.
fn one_more<'a>(
    values: LinkValues<'a>,
    option: LinkOption,
    value: &'a str,
) -> Option<LinkValues<'a>>
    ensures { option_map options_of result ≡ reading.one_more (options_of values.entry) option value.now }
{
    if !is_value(value) {
        return None;
    }
    match option {
        LinkOption::Base => match values.base {
            Some(_) => None,
            None => Some(LinkValues {
                base: Some(value),
                ..values
            }),
        },
        LinkOption::Page => match values.page {
            Some(_) => None,
            None => Some(LinkValues {
                page: Some(value),
                ..values
            }),
        },
        LinkOption::Conditions => match values.conditions {
            Some(_) => None,
            None => Some(LinkValues {
                conditions: Some(value),
                ..values
            }),
        },
    }
}
