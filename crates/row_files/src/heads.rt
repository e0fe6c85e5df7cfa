//! What a line is, by what it begins with.

use row_texts::is_nothing;

/// A line, without what it begins with.
#[derive(Clone, Copy)]
pub(crate) enum Head<'a> {
    Nothing,
    /// A name, and a text where it stands on the line.
    Text(&'a str),
    Tree(&'a str),
    Row(&'a str),
    With(&'a str),
    Entry(&'a str),
    /// So many entries: the count, and the entry.
    Entries(&'a str, &'a str),
    Ask(&'a str),
    /// A short row.
    Short(&'a str),
    Run(&'a str),
    Then(&'a str),
    Input(&'a str),
    Fails(&'a str),
    /// How many bytes of the input come at a time.
    Pieces(&'a str),
    Cut(&'a str),
    Wanted(&'a str),
    Change(&'a str),
    Looks,
    /// Nothing, or `never`.
    Shown(&'a str),
    Each(&'a str),
    /// None of these.
    Unknown,
}

/// Reads what a line begins with.
pub(crate) fn head_of(line: &str) -> Head<'_> {
    if is_nothing(line) {
        Head::Nothing
    } else if line.starts_with('/') {
        Head::Entry(line)
    } else if let Some((mark, rest)) = mark_of(line) {
        marked(mark, rest)
    } else {
        Head::Unknown
    }
}

// What stands before the first space, and behind it.
fn mark_of(line: &str) -> Option<(&str, &str)> {
    match line.split_once(' ') {
        None => Some((line, "")),
        Some(parts) => Some(parts),
    }
}

fn marked<'a>(mark: &'a str, rest: &'a str) -> Head<'a> {
    match mark {
        "text" => Head::Text(rest),
        "tree" => Head::Tree(rest),
        "row" => Head::Row(rest),
        "with" => Head::With(rest),
        "ask" => Head::Ask(rest),
        "?" => Head::Short(rest),
        "$" => Head::Run(rest),
        "then" => then(rest),
        "<" => Head::Input(rest),
        "fails" => Head::Fails(rest),
        "pieces" => Head::Pieces(rest),
        "cut" => Head::Cut(rest),
        "=>" => Head::Wanted(rest),
        "+" => Head::Change(rest),
        "looks" => looks(rest),
        "shown" => shown(rest),
        "each" => Head::Each(rest),
        _ => entries(mark, rest),
    }
}

fn then(rest: &str) -> Head<'_> {
    if rest == "$" {
        return Head::Then("");
    }
    match rest.strip_prefix("$ ") {
        None => Head::Unknown,
        Some(words) => Head::Then(words),
    }
}

fn looks(rest: &str) -> Head<'_> {
    if rest.is_empty() {
        Head::Looks
    } else {
        Head::Unknown
    }
}

fn shown(rest: &str) -> Head<'_> {
    if rest.is_empty() || rest == "never" {
        Head::Shown(rest)
    } else {
        Head::Unknown
    }
}

// `COUNT x ENTRY`
fn entries<'a>(count: &'a str, rest: &'a str) -> Head<'a> {
    match rest.strip_prefix("x ") {
        None => Head::Unknown,
        Some(entry) => Head::Entries(count, entry),
    }
}
