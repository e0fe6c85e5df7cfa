ghost use Rattle.std.specs.Prelude.{◌≡◌, ◌≢◌, IfOk, codes, unwrap_or};
ghost use Rattle.command_words.specs.Settings.{IsFilePage};
ghost use Rattle.config_spec.specs.Projects as spec;

use condition_match::{Conditions, ConditionsFault};
use shared_types::Memory;
use std::alloc::{AllocError, Global};
use tree_model::{Path, PathFault};

/// The page of a new project.
const PAGE: &str = "/index.html";

/// The conditions of a new project, as one text.
const CONDITIONS: &str = "browser,import";

/// This page; that of a new project, where there is none.
pub(crate) fn page_or_first(alloc: Global, page: Option<Path>) -> Result<Path, Memory>
    requires { IsFilePage page }
    ensures page { IfOk result (λ found. found ≡ unwrap_or page spec.page_path) }
    ensures is_file { IfOk result (λ found. found ≢ codes "/") }
{
    match page {
        Some(page) => Ok(page),
        None => first_page(alloc),
    }
}

pub(crate) fn first_page(alloc: Global) -> Result<Path, Memory>
    ensures { IfOk result (λ page. page ≡ spec.page_path) }
{
    match Path::parse(alloc, PAGE) {
        Ok(page) => Ok(page),
        Err(PathFault::Memory) => Err(AllocError),
        Err(PathFault::BadPath) => unreachable!(),
    }
}

/// These conditions; those of a new project, where there are none.
pub(crate) fn conditions_or_first(
    alloc: Global,
    conditions: Option<Conditions>,
) -> Result<Conditions, Memory>
    ensures { IfOk result (λ found. found ≡ unwrap_or conditions spec.link_conditions) }
{
    match conditions {
        Some(conditions) => Ok(conditions),
        None => first_conditions(alloc),
    }
}

pub(crate) fn first_conditions(alloc: Global) -> Result<Conditions, Memory>
    ensures { IfOk result (λ conditions. conditions ≡ spec.link_conditions) }
{
    match Conditions::parse(alloc, CONDITIONS) {
        Ok(conditions) => Ok(conditions),
        Err(ConditionsFault::Memory) => Err(AllocError),
        Err(ConditionsFault::BadConditions) => unreachable!(),
    }
}
