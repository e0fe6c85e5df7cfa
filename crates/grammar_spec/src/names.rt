/// The rules of the grammar.
#[derive(Clone, Copy, Debug, PartialEq, Eq)]
pub enum Rule {
    Module,
    Item,
    Import,
    Clause,
    Star,
    Named,
    Word,
    With,
    Export,
    Vars,
    Var,
    Init,
    Binding,
    Elem,
    BindProp,
    Short,
    Key,
    Function,
    Params,
    Class,
    Member,
    Modifier,
    Block,
    Statement,
    Condition,
    Rest,
    Head,
    Next,
    Case,
    End,
    Expr,
    Assign,
    Arrow,
    Cond,
    Bin,
    Unary,
    Left,
    Tail,
    Args,
    Spread,
    Primary,
    Prop,
    Template,
}

/// What a token must be to be taken.
#[derive(Clone, Copy, Debug, PartialEq, Eq)]
pub enum Test {
    /// A name that isn't reserved.
    Ident,
    Name,
    Private,
    Number,
    Text,
    Regex,
    TemplateWhole,
    TemplateHead,
    TemplateMiddle,
    TemplateTail,
    /// `=`, or an operator that ends in it.
    AssignOp,
    /// An operator between two operands.
    BinOp,
    /// A `,` before no closing bracket.
    Comma,
}

/// What must come, where none of it is taken.
#[derive(Clone, Copy, Debug, PartialEq, Eq)]
pub enum Guard {
    /// No line end stands before the next token.
    SameLine,
    /// A line end stands before the next token.
    NewLine,
    /// No token is left.
    EndOfText,
    /// `}`
    BeforeCurly,
    /// `,` or `]`
    BeforeCommaOrSquare,
    /// `import` before neither `(` nor `.`
    ImportDeclaration,
    /// `async`, then `function` on its line
    AsyncFunction,
    /// `static` before `{`
    StaticBlock,
    /// The next token but one is none of `(`, `,`, `;`, `:`, `=` and `}`, and stands on the line of an `async`.
    Modifies,
    /// An identifier before `:`
    Label,
    /// An identifier, or a `(` with all up to its partner, before `=>` on the same line
    Arrow,
    /// `async`, then such an arrow on its line
    AsyncArrow,
    /// A private name before `in`
    PrivateIn,
    /// `new` before no `.`
    NewOperator,
    /// A name before `,`, `=` or `}`
    Shorthand,
}

/// Where a form is read: inside of how many that count as open, and the number of brackets outside which `in` is no
/// operator, where there is one.
#[derive(Clone, Copy, Debug, PartialEq, Eq)]
pub struct Context {
    pub opened: usize,
    pub head: Option<usize>,
}
