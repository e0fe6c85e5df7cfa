ghost use Rattle.std.specs.Prelude.{◌≡◌};
ghost use Rattle.std.specs.Bool.{OnTrue};
ghost use Rattle.module_spec.specs.Sorts.{kind_of, opens, closes, same_bracket, is_condition_word};
ghost use Rattle.module_spec.specs.Sorts.{is_value_word, is_statement_word, word, is_dot, sort_before_value};
ghost use Rattle.module_spec.specs.Sorts.{word_before_value, mark_before_value, mark_opens, mark_closes};
ghost use Rattle.module_spec.specs.Sorts.{is_dot_mark, is_condition, is_for, is_await};
ghost use Rattle.es_lexer.specs.Open.{NoBracket};

use module_spec::{Bracket, Kind, Mark, Sort, Word};

pub fn kind_of(sort: Sort) -> Kind
    ensures { result ≡ kind_of sort }
{
    match sort {
        Sort::Name => Kind::Name,
        Sort::Private => Kind::Private,
        Sort::Number => Kind::Number,
        Sort::Text => Kind::Text,
        Sort::TemplateWhole => Kind::TemplateWhole,
        Sort::TemplateHead => Kind::TemplateHead,
        Sort::TemplateMiddle => Kind::TemplateMiddle,
        Sort::TemplateTail => Kind::TemplateTail,
        Sort::Regex => Kind::Regex,
        Sort::Punctuator(_) => Kind::Punctuator,
    }
}

/// The bracket that a token opens.
pub fn opens(sort: Sort) -> Option<Bracket>
    ensures { result ≡ opens sort }
{
    match sort {
        Sort::Name => None,
        Sort::Private => None,
        Sort::Number => None,
        Sort::Text => None,
        Sort::TemplateWhole => None,
        Sort::TemplateHead => Some(Bracket::Template),
        Sort::TemplateMiddle => Some(Bracket::Template),
        Sort::TemplateTail => None,
        Sort::Regex => None,
        Sort::Punctuator(mark) => mark_opens(mark),
    }
}

fn mark_opens(mark: Mark) -> Option<Bracket>
    ensures { result ≡ mark_opens mark }
{
    match mark {
        Mark::OpenRound => Some(Bracket::Round),
        Mark::OpenSquare => Some(Bracket::Square),
        Mark::OpenCurly => Some(Bracket::Curly),
        Mark::CloseRound => None,
        Mark::CloseSquare => None,
        Mark::CloseCurly => None,
        Mark::Dot => None,
        Mark::Step => None,
        Mark::Stop => None,
        Mark::Operator => None,
    }
}

/// The bracket that a token closes.
pub fn closes(sort: Sort) -> Option<Bracket>
    ensures { result ≡ closes sort }
{
    match sort {
        Sort::Name => None,
        Sort::Private => None,
        Sort::Number => None,
        Sort::Text => None,
        Sort::TemplateWhole => None,
        Sort::TemplateHead => None,
        Sort::TemplateMiddle => Some(Bracket::Template),
        Sort::TemplateTail => Some(Bracket::Template),
        Sort::Regex => None,
        Sort::Punctuator(mark) => mark_closes(mark),
    }
}

fn mark_closes(mark: Mark) -> Option<Bracket>
    ensures { result ≡ mark_closes mark }
{
    match mark {
        Mark::OpenRound => None,
        Mark::OpenSquare => None,
        Mark::OpenCurly => None,
        Mark::CloseRound => Some(Bracket::Round),
        Mark::CloseSquare => Some(Bracket::Square),
        Mark::CloseCurly => Some(Bracket::Curly),
        Mark::Dot => None,
        Mark::Step => None,
        Mark::Stop => None,
        Mark::Operator => None,
    }
}

/// Whether a token opens and closes nothing, as most do.
pub fn is_no_bracket(sort: Sort) -> bool
    ensures { OnTrue result (NoBracket sort) }
{
    match sort {
        Sort::Name => true,
        Sort::Private => true,
        Sort::Number => true,
        Sort::Text => true,
        Sort::TemplateWhole => true,
        Sort::TemplateHead => false,
        Sort::TemplateMiddle => false,
        Sort::TemplateTail => false,
        Sort::Regex => true,
        Sort::Punctuator(mark) => is_no_bracket_mark(mark),
    }
}

fn is_no_bracket_mark(mark: Mark) -> bool
    ensures { OnTrue result (NoBracket (Sort.Punctuator mark)) }
{
    match mark {
        Mark::OpenRound => false,
        Mark::OpenSquare => false,
        Mark::OpenCurly => false,
        Mark::CloseRound => false,
        Mark::CloseSquare => false,
        Mark::CloseCurly => false,
        Mark::Dot => true,
        Mark::Step => true,
        Mark::Stop => true,
        Mark::Operator => true,
    }
}

pub fn same_bracket(one: Bracket, other: Bracket) -> bool
    ensures { result ≡ same_bracket one other }
{
    match (one, other) {
        (Bracket::Round, Bracket::Round) => true,
        (Bracket::Square, Bracket::Square) => true,
        (Bracket::Curly, Bracket::Curly) => true,
        (Bracket::Template, Bracket::Template) => true,
        _ => false,
    }
}

fn is_condition_word(text: &[u8]) -> bool
    ensures { result ≡ is_condition_word text.now }
{
    text == b"if".as_slice() || text == b"while".as_slice() || text == b"with".as_slice()
}

fn is_value_word(text: &[u8]) -> bool
    ensures { result ≡ is_value_word text.now }
{
    text == b"case".as_slice()
        || text == b"default".as_slice()
        || text == b"delete".as_slice()
        || text == b"extends".as_slice()
        || text == b"in".as_slice()
        || text == b"instanceof".as_slice()
        || text == b"new".as_slice()
        || text == b"return".as_slice()
        || text == b"throw".as_slice()
        || text == b"typeof".as_slice()
        || text == b"void".as_slice()
        || text == b"yield".as_slice()
}

fn is_statement_word(text: &[u8]) -> bool
    ensures { result ≡ is_statement_word text.now }
{
    text == b"break".as_slice()
        || text == b"continue".as_slice()
        || text == b"debugger".as_slice()
        || text == b"do".as_slice()
        || text == b"else".as_slice()
}

/// What a name says of what stands behind it.
#[tactic(auto, unfolding(module_spec::specs::Sorts::word))]
pub fn word(text: &[u8]) -> Word
    ensures { result ≡ word text.now }
{
    if is_condition_word(text) {
        Word::Condition
    } else if text == b"for".as_slice() {
        Word::For
    } else if text == b"await".as_slice() {
        Word::Await
    } else if text == b"of".as_slice() {
        Word::Of
    } else if is_value_word(text) {
        Word::Value
    } else if is_statement_word(text) {
        Word::Statement
    } else {
        Word::Other
    }
}

/// Whether a name behind the token is that of a property.
pub fn is_dot(sort: Sort) -> bool
    ensures { result ≡ is_dot sort }
{
    match sort {
        Sort::Name => false,
        Sort::Private => false,
        Sort::Number => false,
        Sort::Text => false,
        Sort::TemplateWhole => false,
        Sort::TemplateHead => false,
        Sort::TemplateMiddle => false,
        Sort::TemplateTail => false,
        Sort::Regex => false,
        Sort::Punctuator(mark) => is_dot_mark(mark),
    }
}

fn is_dot_mark(mark: Mark) -> bool
    ensures { result ≡ is_dot_mark mark }
{
    match mark {
        Mark::OpenRound => false,
        Mark::OpenSquare => false,
        Mark::OpenCurly => false,
        Mark::CloseRound => false,
        Mark::CloseSquare => false,
        Mark::CloseCurly => false,
        Mark::Dot => true,
        Mark::Step => false,
        Mark::Stop => false,
        Mark::Operator => false,
    }
}

fn mark_before_value(mark: Mark) -> bool
    ensures { result ≡ mark_before_value mark }
{
    match mark {
        Mark::OpenRound => true,
        Mark::OpenSquare => true,
        Mark::OpenCurly => false,
        Mark::CloseRound => false,
        Mark::CloseSquare => false,
        Mark::CloseCurly => false,
        Mark::Dot => true,
        Mark::Step => false,
        Mark::Stop => false,
        Mark::Operator => true,
    }
}

fn word_before_value(word: Word) -> bool
    ensures { result ≡ word_before_value word }
{
    match word {
        Word::Condition => false,
        Word::For => false,
        Word::Await => true,
        Word::Of => false,
        Word::Value => true,
        Word::Statement => false,
        Word::Other => false,
    }
}

/// Whether a `{` behind the token belongs to an expression.
pub fn sort_before_value(sort: Sort, word: Word) -> bool
    ensures { result ≡ sort_before_value sort word }
{
    match sort {
        Sort::Name => word_before_value(word),
        Sort::Private => false,
        Sort::Number => false,
        Sort::Text => false,
        Sort::TemplateWhole => false,
        Sort::TemplateHead => true,
        Sort::TemplateMiddle => true,
        Sort::TemplateTail => false,
        Sort::Regex => false,
        Sort::Punctuator(mark) => mark_before_value(mark),
    }
}

pub fn is_condition(word: Word) -> bool
    ensures { result ≡ is_condition word }
{
    match word {
        Word::Condition => true,
        Word::For => false,
        Word::Await => false,
        Word::Of => false,
        Word::Value => false,
        Word::Statement => false,
        Word::Other => false,
    }
}

pub fn is_for(word: Word) -> bool
    ensures { result ≡ is_for word }
{
    match word {
        Word::Condition => false,
        Word::For => true,
        Word::Await => false,
        Word::Of => false,
        Word::Value => false,
        Word::Statement => false,
        Word::Other => false,
    }
}

pub fn is_await(word: Word) -> bool
    ensures { result ≡ is_await word }
{
    match word {
        Word::Condition => false,
        Word::For => false,
        Word::Await => true,
        Word::Of => false,
        Word::Value => false,
        Word::Statement => false,
        Word::Other => false,
    }
}
