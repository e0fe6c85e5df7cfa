//! What row files of all kinds have in common: escapes, numbers, lines that put something into a tree, and what came of
//! the rows; and files of cases, which ask layers questions. docs/architecture.md describes the forms.
#![tactic(auto)]

mod case_files;
mod case_line;
mod cases;
mod escapes;
mod fault;
mod layers;
mod numbers;
mod report;
mod said;
mod written;

pub use case_files::try_file;
pub use escapes::{unescaped, unescaped_text};
pub use fault::{RowFault, malformed};
pub use layers::{Layers, Question};
pub use numbers::{number_of, range_of};
pub use report::Report;
pub use said::Said;
pub use written::{Written, is_nothing, written_of};
