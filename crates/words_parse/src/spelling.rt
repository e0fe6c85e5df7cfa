ghost use Rattle.std.specs.Prelude.{◌≡◌, option_map};
ghost use Rattle.words_parse.specs.Shown.{spelling_shown};
ghost use Rattle.words_spec.specs.Reading as reading;

use words_spec::LinkOption;

/// What a word after `link` spells.
pub(crate) enum Spelling<'a> {
    /// No option.
    NoOption,
    /// An option whose value is the next word.
    Alone(LinkOption),
    /// An option with its value behind `=`.
    Joined(LinkOption, &'a str),
}

/// What a word after `link` spells.
pub(crate) fn spelling_of(word: &str) -> Spelling<'_>
    ensures { spelling_shown result ≡ reading.spelling_of word.now }
{
    match spelling_as(LinkOption::Base, "--base", word) {
        Spelling::NoOption => match spelling_as(LinkOption::Page, "--page", word) {
            Spelling::NoOption => spelling_as(LinkOption::Conditions, "--conditions", word),
            found => found,
        },
        found => found,
    }
}

fn spelling_as<'a>(option: LinkOption, name: &str, word: &'a str) -> Spelling<'a>
    ensures { spelling_shown result ≡ reading.spelling_by option (reading.behind name.now word.now) }
{
    let Some(rest) = behind(name, word) else {
        return Spelling::NoOption;
    };
    if rest.is_empty() {
        return Spelling::Alone(option);
    }
    match behind("=", rest) {
        Some(value) => Spelling::Joined(option, value),
        None => Spelling::NoOption,
    }
}

fn behind<'a>(front: &str, text: &'a str) -> Option<&'a str>
    ensures { option_map (λ rest. rest.now) result ≡ reading.behind front.now text.now }
{
    text.strip_prefix(front)
}
