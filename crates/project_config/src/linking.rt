ghost use Rattle.std.specs.Prelude.{◌≢◌, Some, bytes_eq, codes, map, string_bytes};
ghost use Rattle.std.specs.List.{IsDistinct};
ghost use Rattle.config_spec.specs.Projects as spec;
ghost use Rattle.project_config.specs.Outcomes.{Comes, config_with};

use crate::defaults::{conditions_or_first, page_or_first};
use crate::entries::once_onto;
use crate::fault::NoConfig;
use command_words::Settings;
use condition_match::Conditions;
use config_spec::ConfigFault;
use shared_types::{Listed, Text};
use std::alloc::Global;
use trace_config::Config;
use tree_model::Path;
use tree_spec::MOST_ENTRIES;
use web_url::Base;

/// The config of `link`, with this project or a new one.
pub(crate) fn linked(
    alloc: Global,
    settings: Settings,
    words: &[String],
    found: Option<Config>,
) -> Result<Config, NoConfig>
    ensures { Comes (spec.linked settings (map string_bytes words.now) found) result }
{
    match found {
        None => new_project(alloc, settings, words),
        Some(old) => onto_project(alloc, settings, words, old),
    }
}

fn new_project(alloc: Global, settings: Settings, words: &[String]) -> Result<Config, NoConfig>
    ensures { Comes (spec.new_project settings settings.base (map string_bytes words.now)) result }
{
    let (base, page, conditions) = settings.into_parts();
    let Some(base) = base else {
        return Err(NoConfig::Refused {
            fault: ConfigFault::NoBase,
        });
    };
    let page = page_or_first(alloc, page)?;
    let conditions = conditions_or_first(alloc, conditions)?;
    let entries = once_onto(alloc, Listed::new(alloc), words)?;
    with_few(base, page, conditions, entries)
}

fn onto_project(
    alloc: Global,
    settings: Settings,
    words: &[String],
    old: Config,
) -> Result<Config, NoConfig>
    ensures { Comes (spec.linked settings (map string_bytes words.now) (Some old)) result }
{
    let (base, page, conditions) = settings.into_parts();
    let (old_base, old_page, old_conditions, old_entries) = old.into_parts();
    let base = base.unwrap_or(old_base);
    let page = page.unwrap_or(old_page);
    let conditions = conditions.unwrap_or(old_conditions);
    let entries = once_onto(alloc, old_entries, words)?;
    with_few(base, page, conditions, entries)
}

fn with_few(
    base: Base,
    page: Path,
    conditions: Conditions,
    entries: Listed<Text>,
) -> Result<Config, NoConfig>
    requires is_file { page ≢ codes "/" }
    requires distinct { IsDistinct bytes_eq entries }
    ensures { Comes (spec.with_few (config_with base page conditions entries)) result }
{
    if entries.len() > MOST_ENTRIES {
        return Err(NoConfig::Refused {
            fault: ConfigFault::TooManyEntries,
        });
    }
    Ok(Config::new(base, page, conditions, entries))
}
