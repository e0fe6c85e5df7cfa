ghost use Rattle.std.specs.Prelude.{◌≡◌, ◌≢◌, ◌≤◌, ◌<◌, ◌++◌, ◌∷◌, [], length, Some, slice_get, suc, IfOk, IfErr};
ghost use Rattle.std.specs.Prelude.{⊤, OnOk};
ghost use Rattle.indexmap.specs.IndexMap.{keys};
ghost use Rattle.tree_spec.specs.declared.LimitName.TheVariants.{Modules};
ghost use Rattle.tree_spec.specs.Limits.{limit_number};
ghost use Rattle.url_spec.specs.Parsing.{IsUrl};
ghost use Rattle.trace_spec.specs.Modules as spec;
ghost use Rattle.trace_spec.specs.Walking.{Referrer as Referring, the_page, a_module, followed, visited, walked};
ghost use Rattle.trace_spec.specs.Checks.{rules};
ghost use Rattle.trace_spec.specs.Traces.{trace};
ghost use Rattle.trace_spec.specs.Modules.{served_at};
ghost use Rattle.trace_walk.specs.Meeting.{Met};
ghost use Rattle.trace_walk.specs.Walking.{IsReferrer, IsReferrerAt, AllNamed, AreBeside, IsUnserved, Counts, Walks};
ghost use Rattle.trace_walk.specs.Walked.{IsWalked};
ghost use Rattle.trace_walk.specs.Shown.{before_of, done, traced_of, specifiers_of};

use crate::answerer::Answerer;
use crate::following::follow;
use crate::module::Module;
use crate::namer::Namer;
use crate::referrer::Referrer;
use crate::refusals::{no_source, shown_target};
use crate::specifiers::Specifiers;
use crate::tables::{Name, Tables};
use module_sources::Source;
use shared_types::{Memory, Text};
use std::alloc::Global;
use std::rc::Rc;
use trace_config::Config;
use trace_spec::TraceFault;
use web_url::Suffix;

/// Walks from the page: follows its requests, and then those of each module, in the order in which they were asked for.
pub fn walk<A: Answerer, N: Namer>(
    alloc: Global,
    answerer: &mut A,
    namer: &mut N,
    config: &Config,
) -> Result<Tables, TraceFault>
    requires ready { A.ready answerer.old }
    ensures met { Met (A.state answerer.old) (trace config.now) (traced_of result) (A.state answerer.new) }
    ensures walked { IsWalked config.now result (A.state answerer.old).steps (A.state answerer.new).steps }
    ensures ready { OnOk result (A.ready answerer.new) }
{
    let mut tables = Tables::new(alloc);
    visit_page(alloc, answerer, namer, config, &mut tables)?;
    visit_modules(alloc, answerer, namer, config, &mut tables)?;
    Ok(tables)
}

// The page's visit, before anything is in the tables.
fn visit_page<A: Answerer, N: Namer>(
    alloc: Global,
    answerer: &mut A,
    namer: &mut N,
    config: &Config,
    tables: &mut Tables,
) -> Result<(), TraceFault>
    requires ready { A.ready answerer.old }
    requires beside { AreBeside tables.old }
    ensures met { AllNamed config.now tables.old.modules.entries
        → Met (A.state answerer.old) (visited (rules config.now) (before_of tables.old) the_page)
        (done result tables.new) (A.state answerer.new) }
    ensures walks { Walks config.now 0 0 ⊤ tables.old tables.new
        (A.state answerer.old).steps (A.state answerer.new).steps (A.ready answerer.new) result }
    ensures counts { OnOk result (Counts (length config.now.entries) tables.old tables.new) }
{
    let referrer = page_referrer(alloc, namer, config)?;
    let entries = Specifiers::Entries(config.entries());
    follow_all(alloc, answerer, namer, config, tables, &referrer, entries)
}

// The page as it makes requests, where it can be served.
fn page_referrer<N: Namer>(
    alloc: Global,
    namer: &mut N,
    config: &Config,
) -> Result<Referrer, TraceFault>
    ensures served { IfOk result (λ referrer. IsReferrer config.now the_page referrer
        × (served_at config.now the_page ≡ Some referrer.name)) }
    ensures unserved { IfErr result (λ fault. fault ≢ TraceFault.Memory
        → IsUnserved config.now config.now.page [] fault) }
{
    let page = Module::new(config.page().copy(alloc)?, Suffix::none(alloc));
    let name = namer.name(alloc, config, &page)?;
    let referrer = referrer_of(alloc, &page, &name);
    drop(name);
    drop(page);
    Ok(referrer?)
}

// Follows the requests of a referrer in order.
fn follow_all<A: Answerer, N: Namer>(
    alloc: Global,
    answerer: &mut A,
    namer: &mut N,
    config: &Config,
    tables: &mut Tables,
    referrer: &Referrer,
    specifiers: Specifiers<'_>,
) -> Result<(), TraceFault>
    requires ready { A.ready answerer.old }
    requires beside { AreBeside tables.old }
    ensures met { (r : Referring spec.Module) → IsReferrer config.now r referrer.now
        → AllNamed config.now tables.old.modules.entries
        → Met (A.state answerer.old)
        (followed (rules config.now) (before_of tables.old) r (specifiers_of specifiers.entry))
        (done result tables.new) (A.state answerer.new) }
    ensures walks { Walks config.now 0 0 (IsUrl referrer.now.text) tables.old tables.new
        (A.state answerer.old).steps (A.state answerer.new).steps (A.ready answerer.new) result }
    ensures counts { OnOk result (Counts (length (specifiers_of specifiers.entry)) tables.old tables.new) }
{
    let mut next = 0;
    while next < specifiers.len() {
        let specifier = specifiers.at(next).unwrap();
        follow(alloc, answerer, namer, config, tables, referrer, specifier)?;
        next += 1;
    }
    Ok(())
}

// The visits of the modules, until the last one in the table had its visit.
fn visit_modules<A: Answerer, N: Namer>(
    alloc: Global,
    answerer: &mut A,
    namer: &mut N,
    config: &Config,
    tables: &mut Tables,
) -> Result<(), TraceFault>
    requires ready { A.ready answerer.old }
    requires few { length tables.old.modules.entries ≤ limit_number Modules }
    requires beside { AreBeside tables.old }
    ensures met { AllNamed config.now tables.old.modules.entries
        → Met (A.state answerer.old) (walked (rules config.now) (suc (limit_number Modules))
        (before_of tables.old) 0) (done result tables.new) (A.state answerer.new) }
    ensures walks { Walks config.now (length tables.new.modules.entries) (limit_number Modules)
        (AllNamed config.now tables.old.modules.entries) tables.old tables.new
        (A.state answerer.old).steps (A.state answerer.new).steps (A.ready answerer.new) result }
    ensures counts { OnOk result (Counts 0 tables.old tables.new) }
{
    let mut place = 0;
    while place < tables.modules.len() {
        visit(alloc, answerer, namer, config, tables, place)?;
        place += 1;
    }
    Ok(())
}

// The visit of the module at a place of the table.
fn visit<A: Answerer, N: Namer>(
    alloc: Global,
    answerer: &mut A,
    namer: &mut N,
    config: &Config,
    tables: &mut Tables,
    place: usize,
) -> Result<(), TraceFault>
    requires ready { A.ready answerer.old }
    requires within { place < length tables.old.modules.entries }
    requires beside { AreBeside tables.old }
    ensures met { (m : spec.Module) → slice_get (keys tables.old.modules) place ≡ Some m
        → AllNamed config.now tables.old.modules.entries
        → Met (A.state answerer.old) (visited (rules config.now) (before_of tables.old) (a_module m))
        (done result tables.new) (A.state answerer.new) }
    ensures walks { Walks config.now 1 1 (AllNamed config.now tables.old.modules.entries) tables.old tables.new
        (A.state answerer.old).steps (A.state answerer.new).steps (A.ready answerer.new) result }
    ensures counts { OnOk result (Counts 0 tables.old tables.new) }
{
    let (module, name) = tables.modules.get_index(place).unwrap();
    let referrer = referrer_of(alloc, module, name)?;
    visit_module(alloc, answerer, namer, config, tables, &referrer)
}

// The visit of a module.
fn visit_module<A: Answerer, N: Namer>(
    alloc: Global,
    answerer: &mut A,
    namer: &mut N,
    config: &Config,
    tables: &mut Tables,
    referrer: &Referrer,
) -> Result<(), TraceFault>
    requires ready { A.ready answerer.old }
    requires beside { AreBeside tables.old }
    ensures met { (m : spec.Module) → IsReferrer config.now (a_module m) referrer.now
        → AllNamed config.now tables.old.modules.entries
        → Met (A.state answerer.old) (visited (rules config.now) (before_of tables.old) (a_module m))
        (done result tables.new) (A.state answerer.new) }
    ensures walks { Walks config.now 1 1 (IsUrl referrer.now.text) tables.old tables.new
        (A.state answerer.old).steps (A.state answerer.new).steps (A.ready answerer.new) result }
    ensures counts { OnOk result (Counts 0 tables.old tables.new) }
{
    match answerer.module(alloc, &referrer.path)? {
        Ok(source) => {
            let requests = Rc::clone(&source.requests)?;
            push_source(&mut tables.sources, source)?;
            let specifiers = Specifiers::Requests(&requests);
            follow_all(alloc, answerer, namer, config, tables, referrer, specifiers)
        }
        Err(why) => Err(no_source(alloc, referrer, why)?),
    }
}

fn push_source(sources: &mut Vec<Source>, source: Source) -> Result<(), Memory>
    ensures { OnOk result (sources.new.items ≡ sources.old.items ++ source ∷ []) }
{
    sources.push(source)?;
    Ok(())
}

// A module as it makes requests.
fn referrer_of(alloc: Global, target: &Module, name: &Name) -> Result<Referrer, Memory>
    ensures { IfOk result (IsReferrerAt target.now name.now) }
{
    Ok(Referrer {
        name: name.url.copy(alloc)?,
        text: name.text.copy(alloc)?,
        path: target.path().copy(alloc)?,
        shown: shown_target(alloc, target)?,
    })
}
