ghost use Rattle.std.specs.Prelude.{◌≡◌, ◌≢◌, ◌≤◌, ◌<◌, length, codes, bytes_eq, MatchOption};
ghost use Rattle.std.specs.List.{IsDistinct};
ghost use Rattle.tree_spec.specs.declared.LimitName.TheVariants.{Entries};
ghost use Rattle.tree_spec.specs.Limits.{limit_number};

use condition_match::Conditions;
use shared_types::{Listed, Text};
use std::marker::Model;
use trace_config::Config;
use tree_model::Path;
use tree_spec::MOST_ENTRIES;
use web_url::Base;

/// What a file describes: all that a config has, and of entries, which are distinct, however many there are.
#[derive(Drop)]
pub(crate) struct Project {
    base: Base,
    page: Path,
    conditions: Conditions,
    entries: Listed<Text>,
}

impl Model for Project {
    ghost use Rattle.trace_spec.specs.Modules as spec;
    ghost use Rattle.project_file.specs.Parts.{CanBeProject};

    ghost Value = { spec.Config };

    ghost view = { λ p. record { base = p.base; page = p.page; conditions = p.conditions; entries = p.entries } };

    ghost invariant = { λ p. CanBeProject p.page p.entries };
}

impl Project {
    pub(crate) fn new(
        base: Base,
        page: Path,
        conditions: Conditions,
        entries: Listed<Text>,
    ) -> Project
        requires is_file { page ≢ codes "/" }
        requires distinct { IsDistinct bytes_eq entries }
        ensures { result ≡ record { base = base; page = page; conditions = conditions; entries = entries } }
    {
        Project {
            base,
            page,
            conditions,
            entries,
        }
    }

    /// The config, unless there are too many entries.
    pub(crate) fn into_config(self) -> Option<Config>
        ensures { MatchOption result (limit_number Entries < length self.entries)
            (λ config. (config ≡ self) × (length self.entries ≤ limit_number Entries)) }
    {
        let Project {
            base,
            page,
            conditions,
            entries,
        } = self;
        if entries.len() > MOST_ENTRIES {
            return None;
        }
        Some(Config::new(base, page, conditions, entries))
    }
}
