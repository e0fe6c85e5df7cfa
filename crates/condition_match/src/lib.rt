//! Conditions, and what a target in `exports` or `imports` of a package comes to under them. `choose` comes to the
//! outcome of the definition, and asks for the bare texts that it names, in its order.
#![tactic(auto)]

mod bare_target;
mod choice;
mod conditions;
mod cuts;
mod index_keys;
mod laws;
mod reducing;
mod segments;
mod strings;

pub use bare_target::BareTarget;
pub use choice::choose;
pub use conditions::{Conditions, ConditionsFault};
pub use laws::calls_keep;
pub use node_spec::{BareAnswer, Outcome};
pub use reducing::reduced_target;
