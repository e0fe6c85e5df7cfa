use module_spec::Kind;

/// A token: where it stands, and what the grammar asks of it. A text may have a token a byte, so a spot is small:
/// places of four bytes, and depths of two.
#[derive(Clone, Copy)]
pub struct Spot {
    pub from: u32,
    pub to: u32,
    /// How many brackets are open before it.
    pub depth: u16,
    /// How many brackets are open behind it.
    pub behind: u16,
    pub kind: Kind,
    /// A line end stands before it.
    pub line: bool,
    /// It is a name that isn't reserved.
    pub ident: bool,
    /// It is `=`, or an operator that ends in it.
    pub assigns: bool,
    /// It is an operator between two operands, other than `in`.
    pub operates: bool,
    /// It is `)`, `]` or `}`.
    pub closes: bool,
    /// It is one of `(`, `,`, `;`, `:`, `=` and `}`.
    pub ends_key: bool,
    /// It is one of `,`, `=` and `}`.
    pub ends_short: bool,
}
