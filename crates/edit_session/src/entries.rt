ghost use Rattle.std.specs.Prelude.{◌≡◌, ◌<◌, ◌++◌, ◌∷◌, [], false, length, bytes_eq, IfOk, OnOk};
ghost use Rattle.std.specs.List.{list_any};
ghost use Rattle.tree_spec.specs.Limits.{limit_number};
ghost use Rattle.tree_spec.specs.Trees.{Tree};
ghost use Rattle.tree_spec.specs.declared.LimitName.TheVariants.{Entries as EntryLimit};
ghost use Rattle.trace_config.specs.Configs.{with_entries};
ghost use Rattle.config_spec.specs.Projects.{without};
ghost use Rattle.session_spec.specs.Edits.{linked, unlinked};
ghost use Rattle.session_spec.specs.declared.EditFault.TheVariants.{NotLinked};
ghost use Rattle.edit_session.specs.declared.stop.ChangeStop.TheVariants.{Refused};
ghost use Rattle.edit_session.specs.Making.{as_draft, IsListOfEntries, IsMadeOf};

use crate::stop::ChangeStop;
use request_trace::Config;
use session_spec::EditFault;
use shared_types::{Listed, Memory, Text};
use std::alloc::Global;
use std::marker::Model;
use std::mem;
use tree_spec::MOST_ENTRIES;

/// The entries of a config, as an edit changes them: they are distinct and at most 1,024.
#[derive(Drop)]
pub(crate) struct Entries {
    list: Listed<Text>,
}

impl Model for Entries {
    ghost use Rattle.std.specs.Prelude.{List, ℕ};
    ghost use Rattle.edit_session.specs.Making.{IsListOfEntries};

    ghost Value = { List (List ℕ) };

    ghost view = { λ e. e.list };

    ghost invariant = { λ e. IsListOfEntries e.list };
}

impl Entries {
    /// Those of a config.
    pub(crate) fn of(alloc: Global, config: &Config) -> Result<Entries, Memory>
        ensures { IfOk result (λ entries. entries ≡ config.now.entries) }
    {
        let list = copy_of(alloc, config.entries())?;
        Ok(Entries { list })
    }

    /// Exchanges them with those of a config.
    pub(crate) fn exchange(&mut self, config: &mut Config)
        ensures config { config.new ≡ with_entries config.old self.old }
        ensures entries { self.new ≡ config.old.entries }
    {
        config.exchange_entries(&mut self.list);
    }

    /// One entry more, unless it is there.
    pub(crate) fn link(&mut self, alloc: Global, entry: &Text) -> Result<(), ChangeStop>
        ensures { (tree : Tree) → IsMadeOf (linked (as_draft tree self.old) entry.now) result (as_draft tree self.new) }
    {
        if holds(&self.list, entry) {
            return Ok(());
        }
        if self.list.len() >= MOST_ENTRIES {
            return Err(ChangeStop::Refused {
                fault: EditFault::TooManyEntries,
            });
        }
        let entry = entry.copy(alloc)?;
        push(&mut self.list, entry)?;
        Ok(())
    }

    /// One entry less, which must be there.
    pub(crate) fn unlink(&mut self, alloc: Global, entry: &Text) -> Result<(), ChangeStop>
        ensures { (tree : Tree)
            → IsMadeOf (unlinked (as_draft tree self.old) entry.now) result (as_draft tree self.new) }
    {
        if !holds(&self.list, entry) {
            return Err(not_linked(alloc, entry)?);
        }
        let list = mem::replace(&mut self.list, Listed::new(alloc));
        self.list = without(entry, list);
        Ok(())
    }
}

fn not_linked(alloc: Global, entry: &Text) -> Result<ChangeStop, Memory>
    ensures { IfOk result (λ stop. stop ≡ Refused (NotLinked entry.now)) }
{
    Ok(ChangeStop::Refused {
        fault: EditFault::NotLinked {
            entry: entry.copy(alloc)?,
        },
    })
}

fn holds(entries: &Listed<Text>, entry: &Text) -> bool
    ensures { result ≡ list_any (bytes_eq entry.now) entries.now }
{
    entries
        .as_slice()
        .iter()
        .any(|own| entry.as_str() == own.as_str())
}

fn push(entries: &mut Listed<Text>, entry: Text) -> Result<(), Memory>
    requires new { list_any (bytes_eq entry) entries.old ≡ false }
    requires room { length entries.old < limit_number EntryLimit }
    ensures pushed { OnOk result (entries.new ≡ entries.old ++ entry ∷ []) }
    ensures entries { IsListOfEntries entries.old → IsListOfEntries entries.new }
{
    entries.push(entry)
}

// The entries that aren't this one.
fn without(entry: &Text, entries: Listed<Text>) -> Listed<Text>
    ensures is { result ≡ without entry.now entries }
    ensures entries { IsListOfEntries entries → IsListOfEntries result }
{
    let mut left = entries.into_vec();
    left.retain(|other| entry.as_str() != other.as_str());
    Listed::from_vec(left)
}

fn copy_of(alloc: Global, entries: &[Text]) -> Result<Listed<Text>, Memory>
    ensures { IfOk result (λ copy. copy ≡ entries.now) }
{
    let mut copy = Listed::new(alloc);
    for entry in entries {
        copy.push(entry.copy(alloc)?)?;
    }
    Ok(copy)
}
