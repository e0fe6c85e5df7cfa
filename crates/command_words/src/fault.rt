use config_spec::ConfigFault;
use shared_types::Memory;

/// Why words give no order.
#[derive(Debug, Drop)]
pub enum WordsFault {
    /// They aren't plain, and this is to be said of them.
    Told(String),
    /// They aren't plain, and no more is to be said of them.
    NotPlain,
    /// A text of their options is refused.
    Refused { fault: ConfigFault },
    /// Want of memory.
    Memory,
}

impl From<Memory> for WordsFault {
    ghost use Rattle.std.specs.Prelude.{◌≡◌};
    ghost use Rattle.command_words.specs.declared.fault.WordsFault.TheVariants.{Memory};

    ghost from_gives = { λ _ fault. fault ≡ Memory };

    fn from(_: Memory) -> Self {
        WordsFault::Memory
    }
}
