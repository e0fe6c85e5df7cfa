//! What a specifier resolves to through an import map, as HTML has it: `resolve_in`.
#![tactic(auto)]

mod fronts;
mod html_fault;
mod imports;
mod resolve;
mod scopes;

pub use html_fault::HtmlFault;
pub use resolve::{resolve_in, resolve_normalized};
