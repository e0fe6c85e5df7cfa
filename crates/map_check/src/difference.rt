use shared_types::{Listed, Text};

/// What a need comes to that doesn't come to its target.
#[derive(Debug, Drop)]
pub enum Got {
    /// Another URL.
    Url(Text),
    /// The address of the key that answers is null.
    Blocked,
    /// It is no URL, and no key applies to it.
    Bare,
    /// The URL leads out of the address of the key.
    Backtrack,
    /// What follows the key is no URL against the address of the key.
    BadRest,
}

/// A need that isn't served, by its number, counted from 0.
#[derive(Debug, Drop)]
pub struct Difference {
    pub need: usize,
    pub got: Got,
}

/// The needs that aren't served, in order.
pub type Differences = Listed<Difference>;
