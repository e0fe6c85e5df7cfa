//! A session: a map that is kept current over edits of a tree and of a config's entries. Edits lie over the folder as
//! an editor's buffers do; the folder is only looked at, and at no path whose look is kept. Its modules are shown as a
//! graph that lasts. Each call does what `session_spec` says of it.
#![tactic(auto)]

mod changes;
mod entries;
mod files;
mod looks;
mod made;
mod mapping;
mod session;
mod showing;
mod standing;
mod steps;
mod stop;
mod trying;

pub use graph_repair::{ModuleView, Slot, View};
pub use session::{Counts, Edit, Session};
pub use session_spec::{Change, EditFault};
pub use stop::EditStop;
