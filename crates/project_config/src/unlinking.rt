ghost use Rattle.std.specs.Prelude.{IfOk, ◌≡◌, map, string_bytes};
ghost use Rattle.config_spec.specs.declared.ConfigFault.TheVariants.{NotLinked};
ghost use Rattle.config_spec.specs.Projects as spec;
ghost use Rattle.project_config.specs.Outcomes.{Comes};

use crate::entries::{holds, without};
use crate::fault::NoConfig;
use config_spec::ConfigFault;
use shared_types::{Memory, Text};
use std::alloc::Global;
use trace_config::Config;

/// The config of `unlink`: this one, with the entries of the words taken out one after another.
pub(crate) fn unlinked(alloc: Global, words: &[String], config: Config) -> Result<Config, NoConfig>
    ensures { Comes (spec.unlinked (map string_bytes words.now) config) result }
{
    let (base, page, conditions, entries) = config.into_parts();
    let mut left = entries;
    for word in words {
        if !holds(&left, word.as_str()) {
            return Err(not_linked(alloc, word.as_str())?);
        }
        left = without(word.as_str(), left);
    }
    Ok(Config::new(base, page, conditions, left))
}

fn not_linked(alloc: Global, entry: &str) -> Result<NoConfig, Memory>
    ensures { IfOk result (λ fault. fault ≡ NoConfig.Refused (NotLinked entry.now)) }
{
    Ok(NoConfig::Refused {
        fault: ConfigFault::NotLinked {
            entry: Text::of(alloc, entry)?,
        },
    })
}
