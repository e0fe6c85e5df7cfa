//! The reader of row files: plain texts whose rows say what a run is given and what must come of it. docs/architecture.md
//! describes the form.
#![tactic(auto)]

mod differences;
mod entry;
mod heads;
mod item;
mod names;
mod reader;
mod row;
mod tree;
mod words;

pub use differences::Differences;
pub use reader::Reader;
pub use row::{Call, Change, Cut, Fails, Row, Run, Turns, Wanted};
pub use row_texts::{Report, RowFault};
pub use tree::Tree;
