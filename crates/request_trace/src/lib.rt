//! The trace of a folder and a config: what the page reaches by requests, in order, or its first refusal. The questions
//! of the walk are answered by looks at the folder and by what is known of it.
//!
//! `trace_of` alone makes a trace of a walk's tables, whoever answered its questions, so what a trace keeps (its
//! referrers are URLs, its needs don't clash) has one proof.
#![tactic(auto)]

mod folder_answers;
mod folder_trace;
mod traces;
mod vertices;

pub use folder_answers::{node_answer, source_answer};
pub use folder_trace::{trace, trace_of};
pub use trace_config::Config;
pub use trace_graph::{ModuleView, Slot, View};
pub use trace_spec::TraceFault;
pub use traces::Trace;
