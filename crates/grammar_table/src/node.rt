use grammar_spec::{Guard, Rule, Test};

/// A form of the grammar; a contract reads it as that form.
#[derive(Clone, Copy)]
pub enum Node<'a> {
    /// A name or a punctuator that is spelled so.
    Quoted(&'a [u8]),
    /// A token that the test takes.
    One(Test),
    /// What comes is so.
    Ahead(Guard),
    /// One form and then the other.
    Then(&'a Node<'a>, &'a Node<'a>),
    /// The first of the two that isn't a miss.
    Or(&'a Node<'a>, &'a Node<'a>),
    /// The form or nothing.
    Maybe(&'a Node<'a>),
    /// The form as often as it comes.
    Many(&'a Node<'a>),
    /// What the rule says.
    Call(Rule),
    /// The form; where it is one string literal, this is a request.
    Asks(&'a Node<'a>),
    /// The form, which counts as open while it is read.
    Nested(&'a Node<'a>),
    /// The form, in which `in` is no operator outside brackets.
    Headed(&'a Node<'a>),
}
