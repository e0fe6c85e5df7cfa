ghost use Rattle.std.specs.Prelude.{map, string_bytes, Ok};
ghost use Rattle.command_words.specs.Orders.{IsOrderOf, settings_ordered};
ghost use Rattle.config_spec.specs.Projects as spec;
ghost use Rattle.words_spec.specs.PlainWords.{Asked};
ghost use Rattle.project_config.specs.Outcomes.{Comes};

use crate::fault::NoConfig;
use crate::linking::linked;
use crate::unlinking::unlinked;
use command_words::Order;
use config_spec::{ConfigFault, ProjectFault};
use std::alloc::Global;
use trace_config::Config;

/// The config of an order over the project that was found, if one was.
pub fn config_of(alloc: Global, order: Order<'_>, found: Option<Config>) -> Result<Config, NoConfig>
    ensures { (asked : Asked) → IsOrderOf order.entry asked
        → Comes (spec.config_in asked (settings_ordered order.entry) found) result }
{
    match order {
        Order::Link { settings, entries } => linked(alloc, settings, entries, found),
        Order::Unlink { entries } => unlinked_there(alloc, entries, found),
        Order::Refresh => there(found),
        Order::Check => there(found),
        Order::CheckStrictly => there(found),
        Order::List => there(found),
        Order::Inject => there(found),
    }
}

fn unlinked_there(
    alloc: Global,
    words: &[String],
    found: Option<Config>,
) -> Result<Config, NoConfig>
    ensures { Comes (spec.if_there found (spec.unlinked (map string_bytes words.now))) result }
{
    match there(found) {
        Ok(config) => unlinked(alloc, words, config),
        Err(fault) => Err(fault),
    }
}

fn there(found: Option<Config>) -> Result<Config, NoConfig>
    ensures { Comes (spec.if_there found Ok) result }
{
    match found {
        Some(config) => Ok(config),
        None => Err(NoConfig::Refused {
            fault: ConfigFault::Project {
                fault: ProjectFault::Absent,
            },
        }),
    }
}
