//! The lines that a command says and its exit statuses: the one place with a printed text or a status.
#![tactic(auto)]

mod lines;
mod statuses;

pub use lines::{
    differences_line, differs_line, done_line, from_page_line, line_of, measure_line, memory_line,
    not_plain_line, not_reached_line, push_asks_line, push_module_line, read_fault_line,
    served_line, strict_requests_line, strict_syntax_line, vendored_line, write_fault_line,
};
pub use statuses::{
    BAD_WORDS, DIFFERENCES, DONE, MEMORY, NOT_REACHED, READ_FAULT, WRITE_FAULT, status_of,
};
