ghost use Rattle.std.specs.Prelude.{◌≡◌, IfOk, IfErr, Some, MatchOption, ⊤, [], option_map};
ghost use Rattle.url_spec.specs.ServedPaths.{IsServed};
ghost use Rattle.url_spec.specs.WebNames.{web};
ghost use Rattle.generator_spec.specs.Generation.{PageIsFile};
ghost use Rattle.trace_spec.specs.Modules.{web_name};
ghost use Rattle.trace_spec.specs.Walking.{the_page};
ghost use Rattle.generation.specs.Paging.{IsUnserved, IsUnservedAt};

use crate::stop::Stop;
use generator_spec::Refusal;
use request_trace::Config;
use shared_types::{Memory, Text};
use std::alloc::Global;
use trace_spec::TraceFault;
use web_url::{Suffix, WebFault, WebUrl, web_of};

/// The page's URL, against which a map is parsed: the page is served there, and it is no folder's; or why nothing is
/// traced from there.
pub(crate) fn page_url(alloc: Global, config: &Config) -> Result<WebUrl, Stop>
    ensures page { IfOk result (λ url. web_name config.now the_page ≡ Some url) }
    ensures file { IfOk result (λ url. PageIsFile config.now) }
    ensures stopped { IfErr result (IsUnserved config.now) }
{
    let suffix = Suffix::none(alloc);
    match web_of(alloc, config.base(), config.page(), &suffix) {
        Ok(url) => Ok(url),
        Err(WebFault::Unservable { url }) => Err(unserved(alloc, config, url)),
        Err(WebFault::Memory) => Err(Stop::Memory),
    }
}

fn unserved(alloc: Global, config: &Config, url: Option<WebUrl>) -> Stop
    ensures { IsUnservedAt config.now url result }
{
    match fault_of(alloc, config, url) {
        Ok(fault) => Stop::Refused {
            why: Refusal::Trace { fault },
        },
        Err(_) => Stop::Memory,
    }
}

fn fault_of(alloc: Global, config: &Config, url: Option<WebUrl>) -> Result<TraceFault, Memory>
    ensures { IfOk result (λ fault. fault ≡ TraceFault.Unservable config.now.page url) }
{
    let path = Text::of(alloc, config.page().as_str())?;
    let url = match url {
        None => None,
        Some(url) => Some(Text::of(alloc, url.as_str())?),
    };
    Ok(TraceFault::Unservable { path, url })
}
