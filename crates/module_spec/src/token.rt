/// What kind of token a span is. ECMA-262, 12.
#[derive(Clone, Copy, Debug, PartialEq, Eq)]
pub enum Kind {
    /// An identifier name, words such as `import` among them.
    Name,
    /// A private name: `#` and a name.
    Private,
    /// A numeric literal.
    Number,
    /// A string literal with its quotes.
    Text,
    /// A template without substitutions.
    TemplateWhole,
    /// A template's part from the backquote to the first `${`.
    TemplateHead,
    /// A template's part from a `}` to the next `${`.
    TemplateMiddle,
    /// A template's part from a `}` to the backquote.
    TemplateTail,
    /// A regular expression literal with its flags.
    Regex,
    /// A punctuator.
    Punctuator,
}

/// A token: its kind, and the places in bytes where it begins and where the text behind it begins.
#[derive(Clone, Copy, Debug, PartialEq, Eq)]
pub struct Token {
    pub kind: Kind,
    pub from: usize,
    pub to: usize,
}

/// Why a text has no list of tokens.
#[derive(Clone, Copy, Debug, PartialEq, Eq)]
pub enum LexKind {
    /// No token can be read here, or a bracket is closed wrongly or not at all.
    Unreadable,
    /// One bracket more than the limit would be open.
    TooDeep,
}

/// The first fault of a text, and its place in bytes.
#[derive(Clone, Copy, Debug, PartialEq, Eq)]
pub struct LexFault {
    pub at: usize,
    pub kind: LexKind,
}

/// What a punctuator does to brackets and to the reading of a `/` behind it.
#[derive(Clone, Copy, Debug, PartialEq, Eq)]
pub enum Mark {
    /// `(`
    OpenRound,
    /// `[`
    OpenSquare,
    /// `{`
    OpenCurly,
    /// `)`
    CloseRound,
    /// `]`
    CloseSquare,
    /// `}` of a block, a body or an object literal
    CloseCurly,
    /// `.` and `?.`
    Dot,
    /// `++` and `--`
    Step,
    /// `;`, `:` and `=>`, behind which a `{` opens a block
    Stop,
    /// Any other punctuator.
    Operator,
}

/// A kind of token, with the mark of a punctuator.
#[derive(Clone, Copy, Debug, PartialEq, Eq)]
pub enum Sort {
    Name,
    Private,
    Number,
    Text,
    TemplateWhole,
    TemplateHead,
    TemplateMiddle,
    TemplateTail,
    Regex,
    Punctuator(Mark),
}

/// What opens a bracket: `(`, `[`, `{` or `${`.
#[derive(Clone, Copy, Debug, PartialEq, Eq)]
pub enum Bracket {
    Round,
    Square,
    Curly,
    Template,
}

/// What a name says of a `/`, a `{` or a `(` behind it.
#[derive(Clone, Copy, Debug, PartialEq, Eq)]
pub enum Word {
    /// `if`, `while` and `with`: a condition stands behind it in round brackets.
    Condition,
    /// `for`
    For,
    /// `await`
    Await,
    /// `of`
    Of,
    /// A word such as `return`, behind which a value stands.
    Value,
    /// A word such as `else`, behind which a statement stands.
    Statement,
    /// Any other name.
    Other,
}
