//! Answers as the rows spell them.

use node_resolve::{Found, NodeFault};
use node_spec::Cause;
use package_lookup::{Format, LookupFault, Reason};
use row_texts::Said;
use tree_model::{Path, Paths};

fn cause_name(cause: Cause) -> &'static str {
    match cause {
        Cause::Builtin => "Builtin",
        Cause::ExternalUrl => "ExternalUrl",
        Cause::InvalidSpecifier => "InvalidSpecifier",
        Cause::InvalidConfig => "InvalidConfig",
        Cause::InvalidTarget => "InvalidTarget",
        Cause::NotExported => "NotExported",
        Cause::ImportNotDefined => "ImportNotDefined",
        Cause::NotFound => "NotFound",
        Cause::DirectoryImport => "DirectoryImport",
    }
}

fn format_name(format: Format) -> &'static str {
    match format {
        Format::Module => "Module",
        Format::Detect => "Detect",
        Format::Not(Reason::CommonJs) => "CommonJs",
        Format::Not(Reason::Json) => "Json",
        Format::Not(Reason::Addon) => "Addon",
        Format::Not(Reason::Other) => "Other",
        Format::Not(Reason::Config) => "Config",
        Format::Not(Reason::Unreadable { .. }) => "Unreadable",
    }
}

fn push_fault(fault: &NodeFault, said: &mut Said) {
    match fault {
        NodeFault::Refused(cause) => said.push_all(&["refused ", cause_name(*cause)]),
        NodeFault::Limit { which } => said.push_all(&["limit ", which.name()]),
        NodeFault::ReadFault => said.push("a look failed"),
        NodeFault::Memory => said.push("memory"),
    }
}

/// A module, or the paths that were looked at for it; a refusal or a limit.
pub fn push_found(answer: &Result<Found, NodeFault>, with_looks: bool, said: &mut Said) {
    match answer {
        Ok(found) if with_looks => push_looks(found.footprint(), said),
        Ok(found) => push_module(found, said),
        Err(fault) => push_fault(fault, said),
    }
}

fn push_module(found: &Found, said: &mut Said) {
    said.push("found ");
    said.push(found.path().as_str());
    said.push(found.suffix().as_str());
}

fn push_looks(paths: &Paths, said: &mut Said) {
    said.push("looks");
    for path in paths.as_slice() {
        said.push(" ");
        said.push(path.as_str());
    }
}

/// Why there is no answer to a look.
pub fn push_lookup_fault(fault: &LookupFault, said: &mut Said) {
    match fault {
        LookupFault::Limit { which } => said.push_all(&["limit ", which.name()]),
        LookupFault::ReadFault => said.push("a look failed"),
        LookupFault::InvalidConfig => said.push("InvalidConfig"),
        LookupFault::Memory => said.push("memory"),
    }
}

/// A format, or why there is none.
pub fn push_format(answer: &Result<Format, LookupFault>, said: &mut Said) {
    said.push("format ");
    match answer {
        Ok(format) => said.push(format_name(*format)),
        Err(fault) => push_lookup_fault(fault, said),
    }
}

/// A package scope, or that there is none.
pub fn push_scope(answer: &Result<Option<Path>, LookupFault>, said: &mut Said) {
    said.push("scope ");
    match answer {
        Ok(Some(scope)) => said.push(scope.as_str()),
        Ok(None) => said.push("none"),
        Err(fault) => push_lookup_fault(fault, said),
    }
}
