use module_spec::ModuleFault;
use std::alloc::AllocError;

/// Why a text has no outline.
#[derive(Clone, Copy, Debug, PartialEq, Eq)]
pub enum OutlineFault {
    /// What stands at the place, in bytes, can't be read: no token, a bracket that is closed wrongly or not at all, an
    /// `import` or `export` without one of their forms, or a module specifier without a value.
    Unreadable { at: usize },
    /// One bracket more than the limit would be open.
    TooDeep,
    /// It asks for one module more than the limit.
    TooManyRequests,
    /// Want of memory.
    Memory,
}

impl From<AllocError> for OutlineFault {
    ghost use Rattle.std.specs.Prelude.{◌≡◌};
    ghost use Rattle.es_module_parser.specs.declared.fault.OutlineFault.TheVariants.{Memory};

    ghost from_gives = { λ _ fault. fault ≡ Memory };

    fn from(_memory: AllocError) -> OutlineFault {
        OutlineFault::Memory
    }
}

impl From<ModuleFault> for OutlineFault {
    ghost use Rattle.std.specs.Prelude.{◌≡◌};
    ghost use Rattle.es_module_parser.specs.Faults.{fault_of};

    ghost from_gives = { λ found fault. fault ≡ fault_of found };

    fn from(fault: ModuleFault) -> OutlineFault {
        match fault {
            ModuleFault::Unreadable { at } => OutlineFault::Unreadable { at },
            ModuleFault::TooDeep => OutlineFault::TooDeep,
            ModuleFault::TooManyRequests => OutlineFault::TooManyRequests,
        }
    }
}
