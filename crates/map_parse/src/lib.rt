//! Import maps as they are read: `parse_map` gives the map of a text as HTML has it, or its first fault.
#![tactic(auto)]

mod addresses;
mod fault;
mod integrity;
mod parse;
mod parsed_map;
mod parts;
mod scopes;
mod text_map;
mod url_text;

pub use addresses::Addresses;
pub use fault::MapFault;
pub use import_map_spec::MapPart;
pub use parse::parse_map;
pub use parsed_map::ParsedMap;
pub use text_map::TextMap;
pub use url_text::UrlText;
