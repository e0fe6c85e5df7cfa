//! The statement grammar's rules as static trees, for the reader that goes by them: [`body`] gives a rule's tree, and it
//! is the rule's form.
#![tactic(auto)]

mod node;
mod table;

pub use node::Node;
pub use table::body;
