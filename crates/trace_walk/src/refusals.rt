//! The refusals of a walk, with what is shown of them.
ghost use Rattle.std.specs.Prelude.{◌≡◌, ◌++◌, IfOk};
ghost use Rattle.trace_spec.specs.Modules.{Config};
ghost use Rattle.trace_walk.specs.Kinds.{IsOfWalk};
ghost use Rattle.trace_walk.specs.Refusing.{no_source_fault};

use crate::module::Module;
use crate::referrer::Referrer;
use crate::spelling::Spelling;
use module_sources::NoSource;
use shared_types::{Memory, Text};
use std::alloc::Global;
use trace_spec::{AskCause, TraceFault};
use tree_model::Path;
use web_url::{Suffix, WebUrl};

/// A path and a suffix as they are shown to a user. A path without one shares its text.
pub fn shown(alloc: Global, path: &Path, suffix: &Suffix) -> Result<Text, Memory>
    ensures { IfOk result (λ text. text ≡ path.now ++ suffix.now) }
{
    if suffix.as_str().is_empty() {
        return path.to_text(alloc);
    }
    let mut shown = String::from_str(alloc, path.as_str())?;
    shown.push_str(suffix.as_str())?;
    Ok(Text::from_string(alloc, shown)?)
}

/// A module as it is shown to a user.
pub fn shown_target(alloc: Global, target: &Module) -> Result<Text, Memory>
    ensures { IfOk result (λ text. text ≡ target.now.path ++ target.now.suffix) }
{
    shown(alloc, target.path(), target.suffix())
}

/// The refusal of a request for this cause.
pub fn refusal(
    alloc: Global,
    referrer: &Referrer,
    specifier: &Text,
    cause: AskCause,
) -> Result<TraceFault, Memory>
    ensures { IfOk result (λ fault. fault
        ≡ TraceFault.Refused referrer.now.shown specifier.now cause) }
{
    Ok(TraceFault::Refused {
        referrer: referrer.shown.copy(alloc)?,
        specifier: specifier.copy(alloc)?,
        cause,
    })
}

/// The refusal of what isn't served at this name.
pub fn unservable(
    alloc: Global,
    path: &Path,
    suffix: &Suffix,
    url: Option<WebUrl>,
) -> Result<TraceFault, Memory>
    ensures { IfOk result (λ fault. fault ≡ TraceFault.Unservable (path.now ++ suffix.now) url) }
{
    Ok(TraceFault::Unservable {
        path: shown(alloc, path, suffix)?,
        url: text_of(alloc, url)?,
    })
}

fn text_of(alloc: Global, url: Option<WebUrl>) -> Result<Option<Text>, Memory>
    ensures { IfOk result (λ text. text ≡ url) }
{
    match url {
        None => Ok(None),
        Some(url) => Ok(Some(url.into_text(alloc)?)),
    }
}

/// The refusal of a request whose need clashes with an earlier one, by how both are spelled.
pub fn clash(
    alloc: Global,
    referrer: &Referrer,
    first: &Spelling,
    second: &Spelling,
) -> Result<TraceFault, Memory>
    ensures clash { IfOk result (λ fault. fault ≡ TraceFault.Clash referrer.now.shown
        first.now.specifier (first.now.target.path ++ first.now.target.suffix)
        second.now.specifier (second.now.target.path ++ second.now.target.suffix)) }
    ensures kind { IfOk result (λ fault. (config : Config) → IsOfWalk config fault) }
{
    Ok(TraceFault::Clash {
        referrer: referrer.shown.copy(alloc)?,
        first: first.specifier().copy(alloc)?,
        first_to: shown_target(alloc, first.target())?,
        second: second.specifier().copy(alloc)?,
        second_to: shown_target(alloc, second.target())?,
    })
}

/// The refusal of a module that has no source.
pub fn no_source(alloc: Global, referrer: &Referrer, why: NoSource) -> Result<TraceFault, Memory>
    ensures { IfOk result (λ fault. fault ≡ no_source_fault referrer.now.shown why) }
{
    match why {
        NoSource::NotModule { reason } => Ok(TraceFault::NotModule {
            path: referrer.shown.copy(alloc)?,
            reason,
        }),
        NoSource::Above { which } => Ok(TraceFault::Limit { which }),
    }
}
