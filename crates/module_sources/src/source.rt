use es_module_parser::Requests;
use node_spec::Reason;
use shared_types::Bytes;
use std::rc::Rc;
use tree_spec::LimitName;

/// The bytes of a module, shared with what is kept of its folder, and its requests in text order.
#[derive(Drop)]
pub struct Source {
    pub bytes: Rc<Bytes>,
    pub requests: Rc<Requests>,
}

/// Why a file has no source.
#[derive(Clone, Copy, Debug, PartialEq, Eq)]
pub enum NoSource {
    /// It is no module.
    NotModule { reason: Reason },
    /// A limit is passed as it is read.
    Above { which: LimitName },
}
