ghost use Rattle.std.specs.Prelude.{◌≡◌};
ghost use Rattle.node_resolve.specs.Responses.{node_fault};

use node_spec::Cause;
use package_lookup::LookupFault;
use std::alloc::AllocError;
use tree_spec::LimitName;

/// Why a specifier gives no module.
#[derive(Clone, Copy, Debug, PartialEq, Eq)]
pub enum NodeFault {
    /// It is refused.
    Refused(Cause),
    /// A look at the folder failed, and the folder counted it.
    ReadFault,
    /// A look passes a limit, or a package.json has more open brackets than are read.
    Limit { which: LimitName },
    /// Want of memory.
    Memory,
}

impl From<AllocError> for NodeFault {
    ghost use Rattle.std.specs.Prelude.{◌≡◌};
    ghost use Rattle.node_resolve.specs.declared.fault.NodeFault.TheVariants.{Memory};

    ghost from_gives = { λ _ fault. fault ≡ Memory };

    fn from(_: AllocError) -> Self {
        NodeFault::Memory
    }
}

/// The fault of a question behind it, as a fault of the resolution.
pub(crate) fn behind(fault: LookupFault) -> NodeFault
    ensures { result ≡ node_fault fault }
{
    match fault {
        LookupFault::ReadFault => NodeFault::ReadFault,
        LookupFault::Limit { which } => NodeFault::Limit { which },
        LookupFault::InvalidConfig => NodeFault::Refused(Cause::InvalidConfig),
        LookupFault::Memory => NodeFault::Memory,
    }
}
