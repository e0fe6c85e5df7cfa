ghost use Rattle.std.specs.Prelude.{◌≡◌, MatchResult, option_map};
ghost use Rattle.config_spec.specs.Words.{RefusesOptions, Sets, SetsBase, SetsConditions, SetsPage, no_settings};
ghost use Rattle.words_parse.specs.Shown.{options_of};
ghost use Rattle.command_words.specs.Faults.{RefusesAs, IsBadBase, IsBadConditions, IsBadPath};
ghost use Rattle.command_words.specs.Settings.{IsFilePage};

use crate::fault::WordsFault;
use condition_match::{Conditions, ConditionsFault};
use config_spec::ConfigFault;
use shared_types::Text;
use std::alloc::Global;
use std::marker::Model;
use tree_model::{Path, PathFault};
use web_url::{Base, BaseFault};
use words_parse::LinkValues;

/// A base, the path of a page, which isn't the root, and conditions, each where an option gives it.
#[derive(Drop)]
pub struct Settings {
    base: Option<Base>,
    page: Option<Path>,
    conditions: Option<Conditions>,
}

impl Model for Settings {
    ghost use Rattle.config_spec.specs.Words as spec;
    ghost use Rattle.command_words.specs.Settings.{IsFilePage};

    ghost Value = { spec.Settings };

    ghost view = { λ s. record { base = s.base; page = s.page; conditions = s.conditions } };

    ghost invariant = { λ s. IsFilePage s.page };
}

impl Settings {
    /// No option is given.
    pub fn none() -> Settings
        ensures { result ≡ no_settings }
    {
        Settings {
            base: None,
            page: None,
            conditions: None,
        }
    }

    /// The base, the page and the conditions, moved out.
    pub fn into_parts(self) -> (Option<Base>, Option<Path>, Option<Conditions>)
        ensures parts { result ≡ (self.base, self.page, self.conditions) }
        ensures is_file { IsFilePage self.page }
    {
        let Settings {
            base,
            page,
            conditions,
        } = self;
        (base, page, conditions)
    }
}

/// What the options of `link` set. The base is judged before the page, and the page before the conditions.
pub(crate) fn settings_of(alloc: Global, values: LinkValues<'_>) -> Result<Settings, WordsFault>
    ensures { MatchResult result (Sets (options_of values.entry))
        (RefusesAs (RefusesOptions (options_of values.entry))) }
{
    let base = base_set(alloc, values.base)?;
    let page = page_set(alloc, values.page)?;
    let conditions = conditions_set(alloc, values.conditions)?;
    Ok(Settings {
        base,
        page,
        conditions,
    })
}

fn base_set(alloc: Global, text: Option<&str>) -> Result<Option<Base>, WordsFault>
    ensures { MatchResult result (SetsBase (option_map (λ t. t.now) text.entry))
        (RefusesAs (IsBadBase (option_map (λ t. t.now) text.entry))) }
{
    let Some(text) = text else {
        return Ok(None);
    };
    match Base::parse(alloc, text) {
        Ok(base) => Ok(Some(base)),
        Err(BaseFault::Memory) => Err(WordsFault::Memory),
        Err(BaseFault::BadBase) => Err(WordsFault::Refused {
            fault: ConfigFault::BadBase {
                text: Text::of(alloc, text)?,
            },
        }),
    }
}

fn page_set(alloc: Global, text: Option<&str>) -> Result<Option<Path>, WordsFault>
    ensures { MatchResult result (SetsPage (option_map (λ t. t.now) text.entry))
        (RefusesAs (IsBadPath (option_map (λ t. t.now) text.entry))) }
{
    let Some(text) = text else {
        return Ok(None);
    };
    if text == "/" {
        return Err(bad_path(alloc, text));
    }
    match Path::parse(alloc, text) {
        Ok(page) => Ok(Some(page)),
        Err(PathFault::Memory) => Err(WordsFault::Memory),
        Err(PathFault::BadPath) => Err(bad_path(alloc, text)),
    }
}

// The refusal of a text that isn't the path that it has to be.
pub(crate) fn bad_path(alloc: Global, text: &str) -> WordsFault
    ensures { RefusesAs (λ fault. fault ≡ ConfigFault.BadPath text.now) result }
{
    match Text::of(alloc, text) {
        Ok(text) => WordsFault::Refused {
            fault: ConfigFault::BadPath { text },
        },
        Err(_) => WordsFault::Memory,
    }
}

fn conditions_set(alloc: Global, text: Option<&str>) -> Result<Option<Conditions>, WordsFault>
    ensures { MatchResult result (SetsConditions (option_map (λ t. t.now) text.entry))
        (RefusesAs (IsBadConditions (option_map (λ t. t.now) text.entry))) }
{
    let Some(text) = text else {
        return Ok(None);
    };
    match Conditions::parse(alloc, text) {
        Ok(conditions) => Ok(Some(conditions)),
        Err(ConditionsFault::Memory) => Err(WordsFault::Memory),
        Err(ConditionsFault::BadConditions) => Err(WordsFault::Refused {
            fault: ConfigFault::BadConditions {
                text: Text::of(alloc, text)?,
            },
        }),
    }
}
