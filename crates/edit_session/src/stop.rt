ghost use Rattle.std.specs.Prelude.{◌≡◌};
ghost use Rattle.edit_session.specs.Stopping.{stop_by, stop_for, stop_of};

use generation::Stop;
use generator_spec::Refusal;
use session_spec::EditFault;
use shared_types::Memory;
use tree_spec::LookFault;

/// Why an edit isn't prepared.
#[derive(Debug, Drop)]
pub enum EditStop {
    /// A change of it can't be made.
    Change { fault: EditFault },
    /// No map is generated for what it leaves.
    Generation { why: Refusal },
    /// A look failed.
    ReadFault,
    /// Want of memory.
    Memory,
}

/// Why a change isn't made.
#[derive(Debug, Drop)]
pub(crate) enum ChangeStop {
    Refused { fault: EditFault },
    ReadFault,
    Memory,
}

impl From<Memory> for ChangeStop {
    ghost use Rattle.std.specs.Prelude.{◌≡◌};
    ghost use Rattle.edit_session.specs.declared.stop.ChangeStop.TheVariants.{Memory};

    ghost from_gives = { λ _ stop. stop ≡ Memory };

    fn from(_: Memory) -> Self {
        ChangeStop::Memory
    }
}

impl ChangeStop {
    /// How a change isn't made at whose path nothing can be looked at.
    pub(crate) fn of_look(fault: LookFault) -> ChangeStop
        ensures { result ≡ stop_of fault }
    {
        match fault {
            LookFault::Failed => ChangeStop::ReadFault,
            LookFault::Memory => ChangeStop::Memory,
        }
    }
}

impl EditStop {
    /// How an edit isn't prepared of which a change isn't made.
    pub(crate) fn of_change(stop: ChangeStop) -> EditStop
        ensures { result ≡ stop_by stop }
    {
        match stop {
            ChangeStop::Refused { fault } => EditStop::Change { fault },
            ChangeStop::ReadFault => EditStop::ReadFault,
            ChangeStop::Memory => EditStop::Memory,
        }
    }

    /// How an edit isn't prepared for which there is no map.
    pub(crate) fn of_map(stop: Stop) -> EditStop
        ensures { result ≡ stop_for stop }
    {
        match stop {
            Stop::Refused { why } => EditStop::Generation { why },
            Stop::ReadFault => EditStop::ReadFault,
            Stop::Memory => EditStop::Memory,
        }
    }
}
