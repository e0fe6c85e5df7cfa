ghost use Rattle.std.specs.Prelude.{◌≡◌, ◌≢◌, ◌≤◌, ◌<◌, ◌++◌, ◌∷◌, [], ℕ, List, Option, Some, None, Ok, Err};
ghost use Rattle.std.specs.Prelude.{true, false, length, slice_get, IfOk, IfErr, IfSome, OnOk, MatchResult};
ghost use Rattle.std.specs.List.{list_any};
ghost use Rattle.indexmap.specs.IndexMap.{keys};
ghost use Rattle.tree_spec.specs.declared.LimitName.TheVariants.{Modules, Requests, Specifier};
ghost use Rattle.tree_spec.specs.Limits.{limit_number};
ghost use Rattle.trace_spec.specs.Modules as spec;
ghost use Rattle.trace_spec.specs.Modules.{file_name};
ghost use Rattle.trace_spec.specs.Walking.{Referrer as Referring};
ghost use Rattle.trace_spec.specs.Checks.{needed, led};
ghost use Rattle.trace_walk.specs.Kinds.{IsOfWalk};
ghost use Rattle.trace_walk.specs.Refusing.{IsMisnamed};
ghost use Rattle.trace_walk.specs.Putting.{IsKnown, PutsNeed, Puts};
ghost use Rattle.trace_walk.specs.Walking.{IsReferrer, AllNamed, AreBeside, AreEmpty, IsNamed, IsGiven};
ghost use Rattle.trace_walk.specs.Shown.{before_of, done};

use crate::module::Module;
use crate::namer::Namer;
use crate::names::is_folder_url;
use crate::referrer::Referrer;
use crate::refusals::{clash, refusal};
use crate::spelling::Spelling;
use indexmap::IndexMap;
use module_sources::Source;
use need_table::{Added, Need, NeedFault, Needs};
use shared_types::{Memory, Text};
use std::alloc::Global;
use trace_config::Config;
use trace_spec::{AskCause, TraceFault};
use tree_spec::{LimitName, MOST_MODULES};
use web_url::WebUrl;

/// A module's web name, and its text, which needs share.
#[derive(Drop)]
pub struct Name {
    pub url: WebUrl,
    pub text: Text,
}

impl Name {
    /// An equal name. Its text shares the memory of this one's.
    pub(crate) fn copy(&self, alloc: Global) -> Result<Name, Memory>
        ensures { IfOk result (λ copy. copy ≡ self.now) }
    {
        Ok(Name {
            url: self.url.copy(alloc)?,
            text: self.text.copy(alloc)?,
        })
    }
}

/// The tables of a walk: the modules in trace order with their names, the sources of those that had their visits, the
/// needs, how each of them is first spelled, and to each request, in their order, the place of the module that it leads
/// to.
#[derive(Drop)]
pub struct Tables {
    pub modules: IndexMap<Module, Name>,
    pub sources: Vec<Source>,
    pub needs: Needs,
    pub spellings: Vec<Spelling>,
    pub targets: Vec<usize>,
}

impl Tables {
    /// Nothing yet.
    pub(crate) fn new(alloc: Global) -> Tables
        ensures { AreEmpty result }
    {
        Tables {
            modules: IndexMap::new(alloc),
            sources: Vec::new(alloc),
            needs: Needs::new(alloc),
            spellings: Vec::new(alloc),
            targets: Vec::new(alloc),
        }
    }

    /// Puts a request that leads to this module into the tables, where the module is served at its web name, which is
    /// no folder's: its need, unless it clashes with one before it, and its module, unless there are too many.
    pub(crate) fn put<N: Namer>(
        &mut self,
        alloc: Global,
        namer: &mut N,
        config: &Config,
        referrer: &Referrer,
        specifier: &Text,
        asked: Text,
        target: Module,
    ) -> Result<(), TraceFault>
        requires beside { AreBeside self.old }
        requires room { length self.old.targets.items < limit_number Requests }
        requires short { length specifier.now ≤ limit_number Specifier }
        ensures put { (r : Referring spec.Module) → IsReferrer config.now r referrer.now
            → AllNamed config.now self.old.modules.entries
            → IsGiven (led config.now (before_of self.old) r specifier.now
            (record { referrer = referrer.now.name; asked = asked }) (Ok target)) (done result self.new) }
        ensures puts { Puts config.now referrer.now.text self.old self.new result }
    {
        match known_name(&self.modules, alloc, &target)? {
            Some(known) => self.put_known(
                alloc, config, referrer, specifier, asked, &target, known,
            ),
            None => {
                let name = name_of(alloc, namer, config, referrer, specifier, &target)?;
                self.put_new(alloc, config, referrer, specifier, asked, target, name)
            }
        }
    }

    // The same where the module is known, by its place and the text of its name.
    fn put_known(
        &mut self,
        alloc: Global,
        config: &Config,
        referrer: &Referrer,
        specifier: &Text,
        asked: Text,
        target: &Module,
        known: Known,
    ) -> Result<(), TraceFault>
        requires beside { AreBeside self.old }
        requires room { length self.old.targets.items < limit_number Requests }
        requires short { length specifier.now ≤ limit_number Specifier }
        requires known { IsKnown (keys self.old.modules) target.now known.place }
        ensures put { (r : Referring spec.Module) → IsReferrer config.now r referrer.now
            → IsGiven (needed config.now (before_of self.old) r
            (record { referrer = referrer.now.text; asked = asked; target = known.text })
            (record { referrer = referrer.now.shown; specifier = specifier.now; target = target.now }))
            (done result self.new) }
        ensures puts { Puts config.now referrer.now.text self.old self.new result }
    {
        put_spelled(
            alloc,
            &mut self.needs,
            &mut self.spellings,
            referrer,
            specifier,
            asked,
            target,
            known.text,
        )?;
        push_target(&mut self.targets, known.place)?;
        Ok(())
    }

    // The same where the module is new, with its name.
    fn put_new(
        &mut self,
        alloc: Global,
        config: &Config,
        referrer: &Referrer,
        specifier: &Text,
        asked: Text,
        target: Module,
        name: Name,
    ) -> Result<(), TraceFault>
        requires beside { AreBeside self.old }
        requires room { length self.old.targets.items < limit_number Requests }
        requires short { length specifier.now ≤ limit_number Specifier }
        requires new { list_any (spec.is_module target) (keys self.old.modules) ≡ false }
        requires named { IsNamed config.now target name }
        ensures put { (r : Referring spec.Module) → IsReferrer config.now r referrer.now
            → IsGiven (needed config.now (before_of self.old) r
            (record { referrer = referrer.now.text; asked = asked; target = name.text })
            (record { referrer = referrer.now.shown; specifier = specifier.now; target = target }))
            (done result self.new) }
        ensures puts { Puts config.now referrer.now.text self.old self.new result }
    {
        let text = name.text.copy(alloc)?;
        put_spelled(
            alloc,
            &mut self.needs,
            &mut self.spellings,
            referrer,
            specifier,
            asked,
            &target,
            text,
        )?;
        let place = self.modules.len();
        put_module(&mut self.modules, target, name)?;
        push_target(&mut self.targets, place)?;
        Ok(())
    }
}

// Puts the need of a request among the others, as the request spells it.
fn put_spelled(
    alloc: Global,
    needs: &mut Needs,
    spellings: &mut Vec<Spelling>,
    referrer: &Referrer,
    specifier: &Text,
    asked: Text,
    target: &Module,
    text: Text,
) -> Result<(), TraceFault>
    requires beside { length spellings.old.items ≡ length needs.old }
    requires short { length specifier.now ≤ limit_number Specifier }
    ensures { PutsNeed referrer.now needs.old spellings.old.items
        (record { referrer = referrer.now.text; asked = asked; target = text })
        (record { referrer = referrer.now.shown; specifier = specifier.now; target = target.now })
        needs.new spellings.new.items result }
{
    let spelling = spelling_of(alloc, referrer, specifier, target)?;
    let need = need_of(alloc, referrer, asked, text)?;
    put_need(alloc, needs, spellings, referrer, need, spelling)
}

// How a request spells its need.
fn spelling_of(
    alloc: Global,
    referrer: &Referrer,
    specifier: &Text,
    target: &Module,
) -> Result<Spelling, Memory>
    requires short { length specifier.now ≤ limit_number Specifier }
    ensures { IfOk result (λ spelling. spelling
        ≡ record { referrer = referrer.now.shown; specifier = specifier.now; target = target.now }) }
{
    Ok(Spelling::new(
        referrer.shown.copy(alloc)?,
        specifier.copy(alloc)?,
        target.copy(alloc)?,
    ))
}

// The web name of what a request leads to; its refusal where it isn't served there, or the name is a folder's.
fn name_of<N: Namer>(
    alloc: Global,
    namer: &mut N,
    config: &Config,
    referrer: &Referrer,
    specifier: &Text,
    target: &Module,
) -> Result<Name, TraceFault>
    requires short { length specifier.now ≤ limit_number Specifier }
    ensures named { MatchResult result (IsNamed config.now target.now) (IsOfWalk config.now) }
    ensures misnamed { IfErr result (λ fault. fault ≢ TraceFault.Memory
        → IsMisnamed config.now referrer.now specifier.now target.now fault) }
{
    let name = namer.name(alloc, config, target)?;
    if is_folder_url(&name.url) {
        drop(name);
        return Err(refusal(alloc, referrer, specifier, AskCause::TrailingSlash)?);
    }
    Ok(name)
}

// A module that is known: its place, and the text of its name.
#[derive(Drop)]
struct Known {
    place: usize,
    text: Text,
}

// The place and the name of a module that is known.
fn known_name(
    modules: &IndexMap<Module, Name>,
    alloc: Global,
    target: &Module,
) -> Result<Option<Known>, Memory>
    ensures unknown { IfOk result (λ found. found ≡ None
        → list_any (spec.is_module target.now) (keys modules.now) ≡ false) }
    ensures known { IfOk result (λ found. IfSome found (λ known. IsKnown (keys modules.now) target.now known.place
        × ((config : spec.Config) → AllNamed config modules.now.entries
        → file_name config target.now ≡ Some known.text))) }
{
    match modules.get_full(target) {
        None => Ok(None),
        Some((place, _, name)) => Ok(Some(Known {
            place,
            text: name.text.copy(alloc)?,
        })),
    }
}

fn push_target(targets: &mut Vec<usize>, place: usize) -> Result<(), Memory>
    ensures { OnOk result (targets.new.items ≡ targets.old.items ++ place ∷ []) }
{
    targets.push(place)?;
    Ok(())
}

// The need of a request; where what is asked for is its target, they share their text.
fn need_of(alloc: Global, referrer: &Referrer, asked: Text, target: Text) -> Result<Need, Memory>
    ensures { IfOk result (λ need. need ≡ record { referrer = referrer.now.text; asked = asked; target = target }) }
{
    let asked = shared_text(alloc, asked, &target)?;
    Ok(Need {
        referrer: referrer.text.copy(alloc)?,
        asked,
        target,
    })
}

fn shared_text(alloc: Global, text: Text, other: &Text) -> Result<Text, Memory>
    ensures { IfOk result (λ shared. shared ≡ text) }
{
    if text == *other {
        return Ok(other.copy(alloc)?);
    }
    Ok(text)
}

// Puts a need with its spelling among the others, unless it is there, or clashes with one of them.
fn put_need(
    alloc: Global,
    needs: &mut Needs,
    spellings: &mut Vec<Spelling>,
    referrer: &Referrer,
    need: Need,
    spelling: Spelling,
) -> Result<(), TraceFault>
    requires beside { length spellings.old.items ≡ length needs.old }
    ensures { PutsNeed referrer.now needs.old spellings.old.items need spelling needs.new spellings.new.items
        result }
{
    match needs.add(need) {
        Ok(Added::New) => {
            push_spelling(spellings, spelling)?;
            Ok(())
        }
        Ok(Added::Known) => Ok(()),
        Err(NeedFault::Clash { first }) => {
            let earlier = spelling_at(spellings, first);
            Err(clash(alloc, referrer, earlier, &spelling)?)
        }
        Err(NeedFault::Memory) => Err(TraceFault::Memory),
    }
}

fn spelling_at(spellings: &Vec<Spelling>, place: usize) -> &Spelling
    requires { place < length spellings.now.items }
    ensures { slice_get spellings.now.items place ≡ Some result.now }
{
    &spellings[place]
}

fn push_spelling(spellings: &mut Vec<Spelling>, spelling: Spelling) -> Result<(), Memory>
    ensures { OnOk result (spellings.new.items ≡ spellings.old.items ++ spelling ∷ []) }
{
    spellings.push(spelling)?;
    Ok(())
}

// Puts a new module at the end, unless there are too many.
fn put_module(
    modules: &mut IndexMap<Module, Name>,
    target: Module,
    name: Name,
) -> Result<(), TraceFault>
    requires { list_any (spec.is_module target) (keys modules.old) ≡ false }
    ensures put { OnOk result ((length modules.old.entries < limit_number Modules)
        × (modules.new.entries ≡ modules.old.entries ++ (target, name) ∷ [])) }
    ensures full { IfErr result (λ fault. fault ≢ TraceFault.Memory → (fault ≡ TraceFault.Limit Modules)
        × (limit_number Modules ≤ length modules.old.entries)) }
{
    if modules.len() >= MOST_MODULES {
        return Err(TraceFault::Limit {
            which: LimitName::Modules,
        });
    }
    insert(modules, target, name)?;
    Ok(())
}

fn insert(modules: &mut IndexMap<Module, Name>, target: Module, name: Name) -> Result<(), Memory>
    requires { list_any (spec.is_module target) (keys modules.old) ≡ false }
    ensures { OnOk result (modules.new.entries ≡ modules.old.entries ++ (target, name) ∷ []) }
{
    modules.insert(target, name)?;
    Ok(())
}
