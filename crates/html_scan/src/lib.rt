//! The pieces of a page one by one, each with its place: [`Scanner::next`] gives them in their order, [`attribute`]
//! tells where a start tag has the value of an attribute, and [`pieces`] lists the pieces of a page that has no
//! broken one.
//!
//! Each byte is read a bounded number of times, and none but [`pieces`] takes memory.
#![tactic(auto)]

mod front;
mod markup;
mod names;
mod runs;
mod scanner;
mod tags;
mod values;
mod whole;

pub use names::skip_whitespace;
pub use page_spec::{Piece, PieceKind};
pub use scanner::Scanner;
pub use tags::{is_end_of, is_start_of, text_of};
pub use values::{attribute, attribute_text};
pub use whole::{Pieces, ScanFault, pieces};
