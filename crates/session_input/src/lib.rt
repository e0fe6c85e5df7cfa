//! The lines of a session, read from a source while its bytes come: `next` gives the order at the first unread line, or
//! why there is none, and takes from the source only where no whole line is at hand.
#![tactic(auto)]

mod cuts;
mod line;
mod reader;
mod reading;
mod takes;

pub use reader::SessionInput;
pub use reading::{InputFault, Order, Reading};
