ghost use Rattle.std.specs.Prelude.{◌≡◌, IfErr, IfOk, IsTrue, Some};
ghost use Rattle.generator_spec.specs.Generation.{PageIsFile};
ghost use Rattle.trace_spec.specs.Modules.{web_name};
ghost use Rattle.trace_spec.specs.Walking.{the_page};
ghost use Rattle.generation.specs.Paging.{IsOfPage, IsUnserved};

use crate::page::page_url;
use crate::stop::Stop;
use request_trace::Config;
use shared_types::Memory;
use std::alloc::Global;
use std::marker::Model;
use tree_model::Path;
use web_url::{Base, WebUrl};

/// The URL of a page at a base.
#[derive(Drop)]
pub(crate) struct KeptPage {
    base: Base,
    page: Path,
    url: WebUrl,
}

impl Model for KeptPage {
    ghost use Rattle.generation.specs.Paging.{PageAt, IsPageAt};

    ghost Value = { PageAt };

    ghost view = { λ k. record { base = k.base; page = k.page; url = k.url } };

    ghost invariant = { λ k. IsPageAt (record { base = k.base; page = k.page; url = k.url }) };
}

impl KeptPage {
    /// The page's URL, which is no folder's; the kept one, where it is this page's at this base.
    pub(crate) fn again(
        alloc: Global,
        kept: Option<KeptPage>,
        config: &Config,
    ) -> Result<KeptPage, Stop>
        ensures page { IfOk result (λ now. web_name config.now the_page ≡ Some now.url) }
        ensures file { IfOk result (λ now. PageIsFile config.now) }
        ensures stopped { IfErr result (IsUnserved config.now) }
    {
        match kept {
            None => KeptPage::of(alloc, config),
            Some(page) => {
                if page.is_of(config) {
                    Ok(page)
                } else {
                    KeptPage::of(alloc, config)
                }
            }
        }
    }

    // The page's URL.
    fn of(alloc: Global, config: &Config) -> Result<KeptPage, Stop>
        ensures page { IfOk result (λ now. web_name config.now the_page ≡ Some now.url) }
        ensures file { IfOk result (λ now. PageIsFile config.now) }
        ensures stopped { IfErr result (IsUnserved config.now) }
    {
        match page_url(alloc, config) {
            Err(stop) => Err(stop),
            Ok(url) => match with_url(alloc, config, url) {
                Err(_) => Err(Stop::Memory),
                Ok(page) => Ok(page),
            },
        }
    }

    // Whether it is of this page at this base.
    fn is_of(&self, config: &Config) -> bool
        ensures { IsTrue result → IsOfPage config.now self.now }
    {
        self.base.as_str() == config.base().as_str() && self.page == *config.page()
    }

    /// The URL.
    pub(crate) fn url(&self) -> &WebUrl
        ensures { result.now ≡ self.now.url }
    {
        &self.url
    }
}

fn with_url(alloc: Global, config: &Config, url: WebUrl) -> Result<KeptPage, Memory>
    requires page { web_name config.now the_page ≡ Some url }
    requires file { PageIsFile config.now }
    ensures url { IfOk result (λ page. page.url ≡ url) }
{
    let base = config.base().copy(alloc)?;
    let page = config.page().copy(alloc)?;
    Ok(KeptPage { base, page, url })
}
