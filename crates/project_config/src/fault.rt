use config_spec::ConfigFault;
use shared_types::Memory;

/// Why there is no config.
#[derive(Debug, Drop)]
pub enum NoConfig {
    /// It is refused.
    Refused { fault: ConfigFault },
    /// Want of memory.
    Memory,
}

impl From<Memory> for NoConfig {
    ghost use Rattle.std.specs.Prelude.{◌≡◌};
    ghost use Rattle.project_config.specs.declared.fault.NoConfig.TheVariants.{Memory};

    ghost from_gives = { λ _ fault. fault ≡ Memory };

    fn from(_: Memory) -> Self {
        NoConfig::Memory
    }
}
