ghost use Rattle.std.specs.Prelude.{◌≢◌, Ok, Err, IfOk, IfErr, MatchResult};
ghost use Rattle.page_spec.specs.declared.kinds.InjectFault.TheVariants.{Memory};
ghost use Rattle.page_spec.specs.Injection.{Injection, KeepsMapsOut};
ghost use Rattle.html_inject.specs.Search.{IsSiteOf, TakesMapsAs, TakesMapsAt};

use crate::search::{Site, site_in};
use crate::written::{inserted, replaced};
use page_spec::InjectFault;
use std::alloc::{AllocError, Global};
use std::marker::Model;

/// A page that takes maps, and where a map goes in it. Only [`site_of`] makes one.
#[derive(Drop)]
pub struct PageSite<'a> {
    page: &'a [u8],
    site: Site,
}

impl<'a> Model for PageSite<'a> {
    ghost use Rattle.std.specs.Prelude.{List, ℕ};
    ghost use Rattle.html_inject.specs.Search.{IsSiteOf};

    ghost Value = { List ℕ };

    ghost view = { λ s. s.page.now };

    ghost invariant = { λ s. IsSiteOf s.page.now s.site };
}

/// The page, with where a map goes in it, or why none can be put into it. It takes no memory.
///
/// The first fault in order of place decides: [`InjectFault::PageUnclear`] at the first byte that isn't UTF-8, before
/// all others; then what page_spec's faults say; [`InjectFault::NoPlace`] where there is no fault and nowhere to put
/// a map.
pub fn site_of(page: &[u8]) -> Result<PageSite<'_>, InjectFault>
    ensures { MatchResult result (TakesMapsAs page.now) (KeepsMapsOut page.now) }
{
    match place_in(page) {
        Err(fault) => Err(fault),
        Ok(site) => Ok(PageSite { page, site }),
    }
}

fn place_in(page: &[u8]) -> Result<Site, InjectFault>
    ensures { MatchResult result (TakesMapsAt page.now) (KeepsMapsOut page.now) }
{
    match std::str::from_utf8(page) {
        Err(fault) => Err(InjectFault::PageUnclear {
            at: fault.valid_up_to(),
        }),
        Ok(text) => site_in(text),
    }
}

/// The page with the map at its site. No tag of the page is read in a map that is UTF-8 and holds no `<`.
pub fn inject_at(alloc: Global, site: &PageSite<'_>, map: &[u8]) -> Result<Vec<u8>, AllocError>
    ensures { IfOk result (λ new. Injection map.now site.now (Ok new.items)) }
{
    put_at(alloc, site.page, site.site, map)
}

fn put_at(alloc: Global, page: &[u8], site: Site, map: &[u8]) -> Result<Vec<u8>, AllocError>
    requires { IsSiteOf page.now site }
    ensures { IfOk result (λ new. Injection map.now page.now (Ok new.items)) }
{
    match site {
        Site::Map { from, to } => replaced(alloc, page, from, to, map),
        Site::Place { at } => inserted(alloc, page, at, map),
    }
}

/// The page with the map put into it, by [`site_of`] and [`inject_at`].
pub fn inject(alloc: Global, page: &[u8], map: &[u8]) -> Result<Vec<u8>, InjectFault>
    ensures page { IfOk result (λ new. Injection map.now page.now (Ok new.items)) }
    ensures fault { IfErr result (λ fault. fault ≢ Memory → Injection map.now page.now (Err fault)) }
{
    match site_of(page) {
        Err(fault) => Err(fault),
        Ok(site) => match inject_at(alloc, &site, map) {
            Ok(new) => Ok(new),
            Err(_) => Err(InjectFault::Memory),
        },
    }
}
