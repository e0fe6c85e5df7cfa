//! A map put into a page: in the place of the raw text of the page's import map element, or with an element of its
//! own before the first script, the first link or the head's end.
//!
//! One pass over the page's pieces finds the place and the first fault; then the new page is written once.
#![tactic(auto)]

mod comments;
mod import_maps;
mod injection;
mod search;
mod written;

pub use injection::{PageSite, inject, inject_at, site_of};
pub use page_spec::InjectFault;
