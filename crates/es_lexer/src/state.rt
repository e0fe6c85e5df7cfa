ghost use Rattle.std.specs.Prelude.{◌≡◌, ◌≢◌, ◌<◌, ◌≤◌, ◌⊎◌, None, vec_len, vec_capacity, if◌then◌else◌};
ghost use Rattle.module_spec.specs.Sorts.{opens, closes};
ghost use Rattle.module_spec.specs.Tokens.{name_word};
ghost use Rattle.module_spec.specs.declared.token.Word.TheVariants.{Other};
ghost use Rattle.es_lexer.specs.Open.{bracket_of, top_of, opened, changed, is_control, is_block};
ghost use Rattle.es_lexer.specs.Open.{is_for_head, slash_behind_word, slash_behind_mark, slash_behind};
ghost use Rattle.es_lexer.specs.Open.{names_property, brace_is_value, slash_is_regex};
ghost use Rattle.es_lexer.specs.Open.{word_around, mark_around, sort_around};
ghost use Rattle.es_lexer.specs.State.{Follows, no_last};

use crate::sorts::{
    closes, is_await, is_condition, is_dot, is_for, is_no_bracket, opens, sort_before_value, word,
};
use module_spec::{Bracket, Mark, Sort, Word};

/// What is kept of the last tokens. What few tokens ask of them is found when one asks.
#[derive(Clone, Copy)]
pub struct Last {
    /// The last token, or where none stands before, a `;`, behind which all may stand that may begin a text.
    pub sort: Sort,
    /// The last token as a word.
    pub word: Word,
    /// `for` or `for await` stands last.
    pub for_head: bool,
    /// What the innermost bracket that was open before the last token says of a `/` behind it.
    pub around: bool,
}

/// An open bracket, and what stands before it.
#[derive(Clone, Copy)]
pub enum Open {
    /// `(`: whether it belongs to a statement such as `if` or `for`, and whether to a `for`.
    Round(bool, bool),
    Square,
    /// `{`: whether it belongs to an expression.
    Curly(bool),
    Template,
}

impl Last {
    /// What is kept where no token stands before.
    pub fn none() -> Last
        ensures { result ≡ no_last }
    {
        Last {
            sort: Sort::Punctuator(Mark::Stop),
            word: Word::Other,
            for_head: false,
            around: false,
        }
    }

    /// Whether a name that comes next is the name of a property.
    pub fn names_property(self) -> bool
        ensures { result ≡ names_property self }
    {
        is_dot(self.sort)
    }

    /// Whether a `{` that comes next belongs to an expression.
    pub fn brace_is_value(self) -> bool
        ensures { result ≡ brace_is_value self }
    {
        sort_before_value(self.sort, self.word)
    }

    /// Whether a `/` that comes next begins a regular expression.
    pub fn slash_is_regex(self) -> bool
        ensures { result ≡ slash_is_regex self }
    {
        slash_behind(self.sort, self.word, self.around)
    }

    // What a token says as a word: a property's name says nothing.
    fn word_of(self, sort: Sort, text: &[u8]) -> Word
        ensures { result ≡ (if names_property self then Other else name_word sort text.now) }
    {
        match sort {
            Sort::Name => {
                if self.names_property() {
                    Word::Other
                } else {
                    word(text)
                }
            }
            Sort::Private => Word::Other,
            Sort::Number => Word::Other,
            Sort::Text => Word::Other,
            Sort::TemplateWhole => Word::Other,
            Sort::TemplateHead => Word::Other,
            Sort::TemplateMiddle => Word::Other,
            Sort::TemplateTail => Word::Other,
            Sort::Regex => Word::Other,
            Sort::Punctuator(_) => Word::Other,
        }
    }

    /// The same behind one more token. `top` is the innermost bracket that is open before it.
    pub fn follow(self, top: Option<Open>, sort: Sort, text: &[u8]) -> Last
        ensures { Follows self result top sort text.now }
    {
        let word = self.word_of(sort, text);
        Last {
            sort,
            word,
            for_head: is_for(word) || is_await(word) && is_for(self.word),
            around: sort_around(sort, word, top),
        }
    }
}

impl Open {
    // What a new bracket keeps of what stands before it.
    fn behind(last: Last, bracket: Bracket) -> Open
        ensures { result ≡ opened bracket last }
    {
        match bracket {
            Bracket::Round => Open::Round(is_condition(last.word) || last.for_head, last.for_head),
            Bracket::Square => Open::Square,
            Bracket::Curly => Open::Curly(last.brace_is_value()),
            Bracket::Template => Open::Template,
        }
    }

    pub fn bracket(self) -> Bracket
        ensures { result ≡ bracket_of self }
    {
        match self {
            Open::Round(_, _) => Bracket::Round,
            Open::Square => Bracket::Square,
            Open::Curly(_) => Bracket::Curly,
            Open::Template => Bracket::Template,
        }
    }
}

/// The innermost open bracket.
pub fn top_of(stack: &[Open]) -> Option<Open>
    ensures { result ≡ top_of stack.now }
{
    stack.last().copied()
}

fn is_control(top: Option<Open>) -> bool
    ensures { result ≡ is_control top }
{
    match top {
        None => false,
        Some(Open::Round(control, _)) => control,
        Some(Open::Square) => false,
        Some(Open::Curly(_)) => false,
        Some(Open::Template) => false,
    }
}

fn is_block(top: Option<Open>) -> bool
    ensures { result ≡ is_block top }
{
    match top {
        None => false,
        Some(Open::Round(_, _)) => false,
        Some(Open::Square) => false,
        Some(Open::Curly(before_value)) => !before_value,
        Some(Open::Template) => false,
    }
}

fn is_for_head(top: Option<Open>) -> bool
    ensures { result ≡ is_for_head top }
{
    match top {
        None => false,
        Some(Open::Round(_, for_head)) => for_head,
        Some(Open::Square) => false,
        Some(Open::Curly(_)) => false,
        Some(Open::Template) => false,
    }
}

// What the innermost bracket says of a `/` behind a word, which asks it behind `of` alone.
fn word_around(word: Word, top: Option<Open>) -> bool
    ensures { result ≡ word_around word top }
{
    match word {
        Word::Condition => false,
        Word::For => false,
        Word::Await => false,
        Word::Of => is_for_head(top),
        Word::Value => false,
        Word::Statement => false,
        Word::Other => false,
    }
}

// The same of a bracket that a mark closes.
fn mark_around(mark: Mark, top: Option<Open>) -> bool
    ensures { result ≡ mark_around mark top }
{
    match mark {
        Mark::OpenRound => false,
        Mark::OpenSquare => false,
        Mark::OpenCurly => false,
        Mark::CloseRound => is_control(top),
        Mark::CloseSquare => false,
        Mark::CloseCurly => is_block(top),
        Mark::Dot => false,
        Mark::Step => false,
        Mark::Stop => false,
        Mark::Operator => false,
    }
}

fn sort_around(sort: Sort, word: Word, top: Option<Open>) -> bool
    ensures { result ≡ sort_around sort word top }
{
    match sort {
        Sort::Name => word_around(word, top),
        Sort::Private => false,
        Sort::Number => false,
        Sort::Text => false,
        Sort::TemplateWhole => false,
        Sort::TemplateHead => false,
        Sort::TemplateMiddle => false,
        Sort::TemplateTail => false,
        Sort::Regex => false,
        Sort::Punctuator(mark) => mark_around(mark, top),
    }
}

fn slash_behind_word(word: Word, around: bool) -> bool
    ensures { result ≡ slash_behind_word word around }
{
    match word {
        Word::Condition => false,
        Word::For => false,
        Word::Await => true,
        Word::Of => around,
        Word::Value => true,
        Word::Statement => true,
        Word::Other => false,
    }
}

fn slash_behind_mark(mark: Mark, around: bool) -> bool
    ensures { result ≡ slash_behind_mark mark around }
{
    match mark {
        Mark::OpenRound => true,
        Mark::OpenSquare => true,
        Mark::OpenCurly => true,
        Mark::CloseRound => around,
        Mark::CloseSquare => false,
        Mark::CloseCurly => around,
        Mark::Dot => true,
        Mark::Step => false,
        Mark::Stop => true,
        Mark::Operator => true,
    }
}

fn slash_behind(sort: Sort, word: Word, around: bool) -> bool
    ensures { result ≡ slash_behind sort word around }
{
    match sort {
        Sort::Name => slash_behind_word(word, around),
        Sort::Private => false,
        Sort::Number => false,
        Sort::Text => false,
        Sort::TemplateWhole => false,
        Sort::TemplateHead => true,
        Sort::TemplateMiddle => true,
        Sort::TemplateTail => false,
        Sort::Regex => false,
        Sort::Punctuator(mark) => slash_behind_mark(mark, around),
    }
}

/// Opens and closes the brackets that a token does.
pub(crate) fn change(stack: &mut Vec<Open>, last: Last, sort: Sort)
    requires { vec_len stack.old < vec_capacity stack.old ⊎ ((opens sort ≡ None) ⊎ (closes sort ≢ None)) }
    ensures items { stack.new.items ≡ changed (opens sort) (closes sort) last stack.old.items }
    ensures capacity { vec_capacity stack.old ≤ vec_capacity stack.new }
{
    if is_no_bracket(sort) {
        return;
    }
    match (opens(sort), closes(sort)) {
        (Some(_), Some(_)) => {}
        (Some(bracket), None) => {
            stack.push_reserved(Open::behind(last, bracket));
        }
        (None, Some(_)) => {
            let _ = stack.pop();
        }
        (None, None) => {}
    }
}
