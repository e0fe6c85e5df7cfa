use shared_types::Text;

/// What a module asks for: the place of a module specifier with its quotes, in bytes, and the text that it stands for.
/// ECMA-262, 16.2.2 and 12.9.4.2.
#[derive(Debug, Drop, PartialEq, Eq)]
pub struct Request {
    pub from: usize,
    pub to: usize,
    pub text: Text,
}

/// Why a text has no outline.
#[derive(Clone, Copy, Debug, Drop, PartialEq, Eq)]
pub enum ModuleFault {
    /// What stands at the place, in bytes, can't be read: no token, a bracket that is closed wrongly or not at all, an
    /// `import` or `export` without one of their forms, or a module specifier without a value.
    Unreadable { at: usize },
    /// One bracket more than the limit would be open.
    TooDeep,
    /// It asks for one module more than the limit.
    TooManyRequests,
}
