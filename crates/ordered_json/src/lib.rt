//! JSON texts as values whose objects keep the order of their members: `read` gives a text's value, or its first fault
//! with its place, and `print_text` the printed form of a string.
//!
//! The lists that are open in a value are gone through in one loop; each object, and each list that is a member's value,
//! is read by a call of its own. The bound of brackets keeps these calls shallow.
#![tactic(auto)]

mod escapes;
mod fault;
mod index_keys;
mod numbers;
mod property_order;
mod quoting;
mod reader;
mod scan;
mod settling;
mod strings;
mod value;

pub use fault::JsonFault;
pub use index_keys::array_index;
pub use property_order::in_property_order;
pub use quoting::print_text;
pub use reader::read;
pub use shared_types::Text;
pub use value::{Items, Members, Value};
