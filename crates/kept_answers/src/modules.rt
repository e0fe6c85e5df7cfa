ghost use Rattle.std.specs.Prelude.{◌≡◌, List, ℕ, None, Some, Ok, IfOk, IfSome, OnOk, OnErr, bytes_eq, option_copied};
ghost use Rattle.std.specs.Prelude.{if◌then◌else◌};
ghost use Rattle.std.specs.HashMap as map;
ghost use Rattle.module_sources.specs.Shown.{IsSource};
ghost use Rattle.kept_answers.specs.Entries.{module_seen};
ghost use Rattle.kept_answers.specs.Freshness.{module_looks, put_looks};
ghost use Rattle.kept_answers.specs.Tables.{modules_at, IsModuleOf, AreModules};

use crate::looks::Looks;
use module_sources::Source;
use shared_types::Memory;
use std::alloc::Global;
use std::collections::HashMap;
use std::marker::Model;
use std::rc::Rc;
use tree_model::Path;

/// The source of a module, and the looks that decided it.
#[derive(Drop)]
pub struct KeptModule {
    source: Source,
    looks: Rc<Looks>,
}

impl Model for KeptModule {
    ghost use Rattle.std.specs.Prelude.{Ok};
    ghost use Rattle.module_sources.specs.Shown.{IsSource};
    ghost use Rattle.kept_answers.specs.Entries.{ModuleSeen, module_seen};

    ghost Value = { ModuleSeen };

    ghost view = { λ kept. module_seen kept.source kept.looks.value };

    ghost invariant = { λ kept. IsSource (Ok kept.source) };
}

impl KeptModule {
    /// A source, with the looks that decided it.
    pub fn of(source: Source, looks: Rc<Looks>) -> KeptModule
        requires { IsSource (Ok source) }
        ensures { result ≡ module_seen source looks.value }
    {
        KeptModule { source, looks }
    }

    /// The source, with all of it shared.
    pub fn source(&self) -> Result<Source, Memory>
        ensures bytes { IfOk result (λ source. source.bytes.value ≡ self.now.bytes) }
        ensures requests { IfOk result (λ source. source.requests.value ≡ self.now.requests) }
        ensures is { IfOk result (λ source. IsSource (Ok source)) }
    {
        source_copy(&self.source)
    }

    /// The looks.
    pub fn looks(&self) -> &Looks
        ensures { result.now ≡ self.now.looks }
    {
        &self.looks
    }

    /// An equal one, with all of it shared.
    pub fn copy(&self) -> Result<KeptModule, Memory>
        ensures { IfOk result (λ copy. copy ≡ self.now) }
    {
        Ok(KeptModule {
            source: source_copy(&self.source)?,
            looks: Rc::clone(&self.looks)?,
        })
    }
}

/// The same source, with all of it shared.
pub(crate) fn source_copy(source: &Source) -> Result<Source, Memory>
    ensures bytes { IfOk result (λ copy. copy.bytes.value ≡ source.now.bytes.value) }
    ensures requests { IfOk result (λ copy. copy.requests.value ≡ source.now.requests.value) }
{
    Ok(Source {
        bytes: Rc::clone(&source.bytes)?,
        requests: Rc::clone(&source.requests)?,
    })
}

/// The sources that are kept, each under the path of its module.
#[derive(Drop)]
pub struct KeptModules {
    entries: HashMap<Path, KeptModule>,
}

impl KeptModules {
    /// Nothing is kept.
    pub fn new(alloc: Global) -> KeptModules
        ensures { (path : List ℕ) → modules_at result path ≡ None }
    {
        KeptModules {
            entries: HashMap::new(alloc),
        }
    }

    /// Nothing is kept any more.
    pub fn clear(&mut self)
        ensures { (path : List ℕ) → modules_at self.new path ≡ None }
    {
        self.entries.clear();
    }

    /// What is kept of a module.
    pub fn get(&self, path: &Path) -> Option<&KeptModule>
        ensures get { option_copied result ≡ modules_at self.now path.now }
        ensures right { AreModules self.now → IfSome (option_copied result) (λ kept. IsModuleOf path.now kept) }
    {
        self.entries.get(path)
    }

    /// Keeps the source of a module.
    pub fn put(&mut self, alloc: Global, path: &Path, kept: KeptModule) -> Result<(), Memory>
        ensures set { OnOk result ((other : List ℕ) → module_looks self.new other
            ≡ put_looks bytes_eq path.now kept.looks (module_looks self.old) other) }
        ensures same { OnErr result ((other : List ℕ) → module_looks self.new other ≡ module_looks self.old other) }
        ensures right { IsModuleOf path.now kept → AreModules self.old → AreModules self.new }
    {
        let path = path.copy(alloc)?;
        insert(&mut self.entries, path, kept)
    }
}

fn insert(
    entries: &mut HashMap<Path, KeptModule>,
    path: Path,
    kept: KeptModule,
) -> Result<(), Memory>
    ensures set { OnOk result ((other : List ℕ) → map.get bytes_eq entries.new other
        ≡ (if bytes_eq path other then Some kept else map.get bytes_eq entries.old other)) }
    ensures same { OnErr result ((other : List ℕ)
        → map.get bytes_eq entries.new other ≡ map.get bytes_eq entries.old other) }
{
    entries.insert(path, kept)?;
    Ok(())
}
