ghost use Rattle.std.specs.Prelude.{◌≡◌, MatchOption, map, string_bytes, option_map};
ghost use Rattle.words_parse.specs.Shown.{AsksNothing, options_of, shown};
ghost use Rattle.words_spec.specs.PlainWords.{Asks, explaining, no_options, vendoring};
ghost use Rattle.words_spec.specs.Reading as reading;

use crate::command::{Command, LinkValues};
use crate::link::link_from;
use crate::number::number_in;
use crate::values::{are_values, is_value};

/// What the words ask for; None exactly where they aren't plain.
pub fn read(words: &[String]) -> Option<Command<'_>>
    ensures { MatchOption result (AsksNothing (map string_bytes words.now))
        (λ command. Asks (map string_bytes words.now) (shown command)) }
{
    reading_of(words)
}

fn reading_of(words: &[String]) -> Option<Command<'_>>
    ensures { option_map shown result ≡ reading.reading_of (map string_bytes words.now) }
{
    let (command, rest) = words.split_first()?;
    let command = command.as_str();
    if command == "link" {
        return link_from(no_values(), rest);
    }
    if command == "unlink" {
        return unlink_of(rest);
    }
    if command == "measure" {
        return measure_of(rest);
    }
    if command == "why" {
        return why_of(rest);
    }
    if command == "vendor" {
        return vendor_of(rest);
    }
    if command == "check" {
        return check_of(rest);
    }
    if !rest.is_empty() {
        return None;
    }
    plain_command(command)
}

fn no_values<'a>() -> LinkValues<'a>
    ensures { options_of result ≡ no_options }
{
    LinkValues {
        base: None,
        page: None,
        conditions: None,
    }
}

fn unlink_of(words: &[String]) -> Option<Command<'_>>
    ensures { option_map shown result ≡ reading.unlink_reading (map string_bytes words.now) }
{
    if words.is_empty() || !are_values(words) {
        return None;
    }
    Some(Command::Unlink(words))
}

fn measure_of(words: &[String]) -> Option<Command<'_>>
    ensures { option_map shown result ≡ reading.measure_reading (map string_bytes words.now) }
{
    let (text, rest) = words.split_first()?;
    if !rest.is_empty() {
        return None;
    }
    let number = number_in(text.as_str())?;
    Some(Command::Measure(number))
}

fn why_of(words: &[String]) -> Option<Command<'_>>
    ensures { option_map shown result ≡ reading.path_reading explaining (map string_bytes words.now) }
{
    let (path, rest) = words.split_first()?;
    if !rest.is_empty() || !is_value(path.as_str()) {
        return None;
    }
    Some(Command::Why(path.as_str()))
}

fn vendor_of(words: &[String]) -> Option<Command<'_>>
    ensures { option_map shown result ≡ reading.path_reading vendoring (map string_bytes words.now) }
{
    let (path, rest) = words.split_first()?;
    if !rest.is_empty() || !is_value(path.as_str()) {
        return None;
    }
    Some(Command::Vendor(path.as_str()))
}

fn check_of(words: &[String]) -> Option<Command<'_>>
    ensures { option_map shown result ≡ reading.check_reading (map string_bytes words.now) }
{
    match words.split_first() {
        None => Some(Command::Check),
        Some((word, rest)) => {
            if rest.is_empty() && word.as_str() == "--strict" {
                Some(Command::CheckStrictly)
            } else {
                None
            }
        }
    }
}

fn plain_command(command: &str) -> Option<Command<'_>>
    ensures { option_map shown result ≡ reading.plain_command command.now }
{
    if command == "refresh" {
        Some(Command::Refresh)
    } else if command == "list" {
        Some(Command::List)
    } else if command == "inject" {
        Some(Command::Inject)
    } else if command == "session" {
        Some(Command::Session)
    } else {
        None
    }
}
