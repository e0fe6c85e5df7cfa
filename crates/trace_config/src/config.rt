ghost use Rattle.std.specs.Prelude.{◌≡◌, ◌≢◌, ◌≤◌, length, bytes_eq, codes};
ghost use Rattle.std.specs.List.{IsDistinct};
ghost use Rattle.tree_spec.specs.declared.LimitName.TheVariants.{Entries};
ghost use Rattle.tree_spec.specs.Limits.{limit_number};

use condition_match::Conditions;
use shared_types::{Listed, Text};
use std::marker::Model;
use std::mem;
use tree_model::Path;
use web_url::Base;

/// What to generate for: the base, the page, which isn't the root, the conditions, and the entries, which are distinct
/// and at most 1,024.
#[derive(Drop)]
pub struct Config {
    base: Base,
    page: Path,
    conditions: Conditions,
    entries: Listed<Text>,
}

impl Model for Config {
    ghost use Rattle.trace_spec.specs.Modules as spec;
    ghost use Rattle.trace_config.specs.Configs.{IsConfigured};

    ghost Value = { spec.Config };

    ghost view = { λ c. record { base = c.base; page = c.page; conditions = c.conditions; entries = c.entries } };

    ghost invariant = { λ c. IsConfigured c.page c.entries };
}

impl Config {
    ghost use Rattle.trace_config.specs.Configs.{ArePartsOf, IsConfigured, with_entries};

    /// The config of these, where the page isn't the root and the entries are distinct and not too many.
    pub fn new(base: Base, page: Path, conditions: Conditions, entries: Listed<Text>) -> Config
        requires is_file { page ≢ codes "/" }
        requires distinct { IsDistinct bytes_eq entries }
        requires few { length entries ≤ limit_number Entries }
        ensures { result ≡ record { base = base; page = page; conditions = conditions; entries = entries } }
    {
        Config {
            base,
            page,
            conditions,
            entries,
        }
    }

    /// Exchanges the entries with others, which are distinct and not too many.
    pub fn exchange_entries(&mut self, entries: &mut Listed<Text>)
        requires distinct { IsDistinct bytes_eq entries.old }
        requires few { length entries.old ≤ limit_number Entries }
        ensures config { self.new ≡ with_entries self.old entries.old }
        ensures entries { entries.new ≡ self.old.entries }
        ensures configured { IsConfigured self.old.page self.old.entries }
    {
        mem::swap(&mut self.entries, entries);
    }

    /// The base, the page, the conditions and the entries, moved out.
    pub fn into_parts(self) -> (Base, Path, Conditions, Listed<Text>)
        ensures parts { ArePartsOf self result.0 result.1 result.2 result.3 }
        ensures configured { IsConfigured self.page self.entries }
    {
        let Config {
            base,
            page,
            conditions,
            entries,
        } = self;
        (base, page, conditions, entries)
    }

    /// The URL of the root folder.
    pub fn base(&self) -> &Base
        ensures { result.now ≡ self.now.base }
    {
        &self.base
    }

    /// The path of the page.
    pub fn page(&self) -> &Path
        ensures page { result.now ≡ self.now.page }
        ensures is_file { self.now.page ≢ codes "/" }
    {
        &self.page
    }

    /// The conditions that hold beside `default`.
    pub fn conditions(&self) -> &Conditions
        ensures { result.now ≡ self.now.conditions }
    {
        &self.conditions
    }

    /// The specifiers that the page asks for.
    pub fn entries(&self) -> &[Text]
        ensures entries { result.now ≡ self.now.entries }
        ensures configured { IsConfigured self.now.page self.now.entries }
    {
        self.entries.as_slice()
    }
}
