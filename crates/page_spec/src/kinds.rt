/// What a piece of a page is, in the words of HTML's tokens where it has one.
#[derive(Clone, Copy, Debug, PartialEq, Eq)]
pub enum PieceKind {
    /// Characters that no tag, comment or raw text holds.
    Text,
    /// A comment, a bogus comment, a processing instruction or a doctype.
    Comment,
    /// A start tag.
    Start,
    /// An end tag.
    End,
    /// The raw text between the start and end tags of a [`RawElement`].
    Raw,
    /// What the page's end cuts off, or makes the rest of the page its text.
    Broken,
}

/// An element whose text holds no tags. HTML Standard, 13.2.6, "generic raw text element parsing" and its like.
#[derive(Clone, Copy, Debug, PartialEq, Eq)]
pub enum RawElement {
    Script,
    Style,
    Title,
    Textarea,
    Iframe,
    Noembed,
    Noframes,
    Noscript,
    Xmp,
}

/// The tokenizer's states in markup, behind its `<`. HTML Standard, 13.2.5, "Tokenization".
#[derive(Clone, Copy, Debug, PartialEq, Eq)]
pub enum State {
    TagOpen,
    EndTagOpen,
    MarkupDeclarationOpen,
    /// Behind the first of the two dashes that begin a comment.
    MarkupDeclarationDash,
    BogusComment,
    CommentStart,
    CommentStartDash,
    Comment,
    CommentEndDash,
    CommentEnd,
    CommentEndBang,
    TagName,
    BeforeAttributeName,
    AttributeName,
    AfterAttributeName,
    BeforeAttributeValue,
    AttributeValueDoubleQuoted,
    AttributeValueSingleQuoted,
    AttributeValueUnquoted,
}

/// A piece of a page: its kind, and the offsets in bytes where it begins and where what is behind it begins.
#[derive(Clone, Copy, Debug, PartialEq, Eq)]
pub struct Piece {
    pub kind: PieceKind,
    pub from: usize,
    pub to: usize,
}

/// Why a map can't be put into a page. A place is an offset in the page, in bytes.
#[derive(Clone, Copy, Debug, PartialEq, Eq)]
pub enum InjectFault {
    /// What the page means at the place can't be told from the page alone.
    PageUnclear { at: usize },
    /// A second import map element begins at the place.
    TwoMaps { at: usize },
    /// The page has no import map element, and no place for one.
    NoPlace,
    /// Want of memory.
    Memory,
}
