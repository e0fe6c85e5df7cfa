//! Web URLs and file URLs of paths: names for files on the web, the paths that are served there, and
//! the joins and places of file URLs. Each call gives what the definitions of `url_spec` say.
#![tactic(auto)]

mod base;
mod escapes;
mod file;
mod joins;
mod names;
mod paths;
mod specifier;
mod suffix;
mod url_text;
mod web_url;

pub use base::{Base, BaseFault};
pub use file::{FileFault, FileUrl, Place, file_join, file_of, file_url, place_of};
pub use names::{WebFault, served, web_of};
pub use specifier::{
    AskFault, Asked, Scheme, as_url, ask, ends_in_slash, is_relative, normalized, scheme_of,
};
pub use suffix::Suffix;
pub use web_url::WebUrl;
