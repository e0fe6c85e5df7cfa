//! The answers of a walk that are kept for a later one, each with the looks that decided it. The paths of these looks
//! are looked at again, in their order, each counted, up to the first that sees otherwise. Where none does, the kept
//! answer is given, without a step; else the question is asked anew. Each answer that is given is kept for the next
//! walk.
#![tactic(auto)]

mod key;
mod looks;
mod modules;
mod requests;
mod resolving;
mod sources;

pub use key::RequestKey;
pub use looks::{LookedAt, Looks};
pub use modules::{KeptModule, KeptModules};
pub use requests::{KeptRequest, KeptRequests};
pub use resolving::Requested;
