ghost use Rattle.std.specs.Prelude.{◌≡◌, IfOk};
ghost use Rattle.trace_graph.specs.Links.{IsLive};
ghost use Rattle.session_watch.specs.Seen.{shown_at, showing_of, vertex_shown};
ghost use Rattle.std.specs.Prelude.{All, Some};

use module_graph::{ModuleView, Slot, Targets, View};
use shared_types::{Listed, Memory};
use std::alloc::Global;
use std::marker::Model;
use tree_model::Path;
use web_url::Suffix;

/// What was shown of a module, with the slot under which it was.
#[derive(Drop)]
pub(crate) struct ShownModule {
    pub(crate) slot: Slot,
    pub(crate) path: Path,
    pub(crate) suffix: Suffix,
    pub(crate) targets: Targets,
}

impl Model for ShownModule {
    ghost use Rattle.session_spec.specs.Showings.{Shown};

    ghost Value = { Shown };

    ghost view = { λ v. record { slot = v.slot; path = v.path; suffix = v.suffix; targets = v.targets } };
}

/// What a graph shows under these slots.
pub(crate) fn showing(
    alloc: Global,
    slots: &[Slot],
    view: &View<'_>,
) -> Result<Listed<ShownModule>, Memory>
    requires { All (IsLive view.now) slots.now }
    ensures { IfOk result (λ showing. showing ≡ showing_of view.now slots.now) }
{
    let mut modules = Listed::new(alloc);
    let mut rest = slots;
    while let Some((slot, more)) = rest.split_first() {
        modules.push(shown_under(alloc, *slot, view)?)?;
        rest = more;
    }
    Ok(modules)
}

fn shown_under(alloc: Global, slot: Slot, view: &View<'_>) -> Result<ShownModule, Memory>
    requires { IsLive view.now slot }
    ensures { IfOk result (λ module_shown. module_shown ≡ shown_at view.now slot) }
{
    match view.module(slot) {
        Some(module) => copied(alloc, slot, &module),
        None => unreachable!(),
    }
}

fn copied(alloc: Global, slot: Slot, module: &ModuleView<'_>) -> Result<ShownModule, Memory>
    ensures { IfOk result (λ module_shown. module_shown ≡ vertex_shown slot (Some module.now)) }
{
    Ok(ShownModule {
        slot,
        path: module.path().copy(alloc)?,
        suffix: module.as_suffix().copy(alloc)?,
        targets: targets_of(alloc, module)?,
    })
}

fn targets_of(alloc: Global, module: &ModuleView<'_>) -> Result<Targets, Memory>
    ensures { IfOk result (λ targets. targets ≡ module.now.targets) }
{
    let mut targets = Listed::new(alloc);
    for request in 0..module.requests() {
        targets.push(module.target(request))?;
    }
    Ok(targets)
}
