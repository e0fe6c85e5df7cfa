ghost use Rattle.std.specs.Prelude.{◌≡◌};
ghost use Rattle.tree_spec.specs.declared.LimitName.TheVariants.{Choices, Map};
ghost use Rattle.generation.specs.Generating.{StopsAs};

use generator_spec::Refusal;
use trace_spec::TraceFault;
use tree_spec::LimitName;

/// Why a command ends before its write.
#[derive(Debug, Drop)]
pub enum Stop {
    /// It is refused.
    Refused { why: Refusal },
    /// A look failed.
    ReadFault,
    /// Want of memory.
    Memory,
}

/// How a command ends that has no trace.
pub fn stop_of(fault: TraceFault) -> Stop
    ensures { StopsAs fault result }
{
    match fault {
        TraceFault::ReadFault => Stop::ReadFault,
        TraceFault::Memory => Stop::Memory,
        refused => Stop::Refused {
            why: Refusal::Trace { fault: refused },
        },
    }
}

/// How a command ends whose needs have too many choices.
pub(crate) fn too_many_choices() -> Stop
    ensures { result ≡ Stop.Refused (Refusal.Limit Choices) }
{
    Stop::Refused {
        why: Refusal::Limit {
            which: LimitName::Choices,
        },
    }
}

/// How a command ends whose map is too large.
pub(crate) fn too_large() -> Stop
    ensures { result ≡ Stop.Refused (Refusal.Limit Map) }
{
    Stop::Refused {
        why: Refusal::Limit {
            which: LimitName::Map,
        },
    }
}
