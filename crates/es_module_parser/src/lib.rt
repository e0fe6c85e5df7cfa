//! What a module text asks for: [`outline`] goes over its tokens once and gives the module specifiers of its import and
//! export declarations, in their order, or the text's first fault. It keeps no list of tokens and goes to no depth.
#![tactic(auto)]

ghost use Rattle.es_module_parser.specs.Laws.{BracesArePartners, CurlyOpens, SomeOutline};

mod declaring;
mod expect;
mod fault;
mod literals;
mod progress;
mod reading;
mod requests;
mod terminals;

pub use fault::OutlineFault;
pub use literals::string_value;
pub use module_spec::Request;
pub use reading::outline;
pub use requests::{Outline, Requests};

/// Each text has an outline or a first fault.
pub fn some_outline()
    ensures { SomeOutline }
{}

/// A token that is spelled `{` opens a curly bracket.
pub fn curly_opens()
    ensures { CurlyOpens }
{}

/// The braces of an import or export declaration end at the partner of their `{`.
pub fn braces_are_partners()
    ensures { BracesArePartners }
{}
