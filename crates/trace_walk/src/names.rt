//! Web names of what a walk meets.
ghost use Rattle.std.specs.Prelude.{◌≡◌, ◌≢◌, Some, IfOk, IfErr};
ghost use Rattle.url_spec.specs.Specifiers.{ends_in_slash};
ghost use Rattle.url_spec.specs.WebNames.{web};
ghost use Rattle.trace_spec.specs.Modules.{served_name};
ghost use Rattle.trace_walk.specs.Naming.{IsServedAs};
ghost use Rattle.trace_walk.specs.Walking.{IsUnserved};

use crate::module::Module;
use crate::refusals::unservable;
use crate::tables::Name;
use shared_types::Text;
use std::alloc::Global;
use trace_config::Config;
use trace_spec::TraceFault;
use tree_model::Path;
use web_url::{Suffix, WebFault, WebUrl, ends_in_slash, web_of};

/// The web name of what lies at a path, which is served there.
pub fn served_url(
    alloc: Global,
    config: &Config,
    path: &Path,
    suffix: &Suffix,
) -> Result<WebUrl, TraceFault>
    ensures served { IfOk result (λ url. (web config.now.base path.now suffix.now ≡ Some url)
        × (served_name config.now.base path.now (web config.now.base path.now suffix.now) ≡ Some url)) }
    ensures unserved { IfErr result (λ fault. fault ≢ TraceFault.Memory
        → IsUnserved config.now path.now suffix.now fault) }
{
    match web_of(alloc, config.base(), path, suffix) {
        Ok(url) => Ok(url),
        Err(WebFault::Unservable { url }) => Err(unservable(alloc, path, suffix, url)?),
        Err(WebFault::Memory) => Err(TraceFault::Memory),
    }
}

/// The web name of a module, which is served there, with its text.
pub fn name_at(alloc: Global, config: &Config, target: &Module) -> Result<Name, TraceFault>
    ensures served { IfOk result (IsServedAs config.now.base target.now) }
    ensures unserved { IfErr result (λ fault. fault ≢ TraceFault.Memory
        → IsUnserved config.now target.now.path target.now.suffix fault) }
{
    let url = served_url(alloc, config, target.path(), target.suffix())?;
    let text = Text::of(alloc, url.as_str())?;
    Ok(Name { url, text })
}

/// Whether a URL is a folder's.
pub fn is_folder_url(url: &WebUrl) -> bool
    ensures { result ≡ ends_in_slash url.now }
{
    ends_in_slash(url.as_str())
}
