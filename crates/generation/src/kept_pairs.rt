ghost use Rattle.std.specs.Prelude.{◌≡◌, ◌<◌, IfOk, IsTrue, OnOk, Some, length};
ghost use Rattle.std.specs.FinMap.{entries};
ghost use Rattle.generator_spec.specs.Digests as definition;
ghost use Rattle.generation.specs.Pairing.{HasUrlAt, HasUrls, IsNamed, digests_of, named};
ghost use Rattle.generation.specs.Pairing.{turned, with_bytes, with_named};

use crate::digester::Digester;
use crate::digests::{digests, module_at};
use crate::kept_digests::KeptDigests;
use request_trace::{Config, ModuleView, Trace};
use scope_builder::Mappings;
use shared_types::{Bytes, Memory, Text};
use std::alloc::Global;
use std::marker::Model;
use std::rc::Rc;

/// A module's URL and its bytes, which are shared with a trace.
#[derive(Drop)]
struct Named {
    url: Text,
    bytes: Rc<Bytes>,
}

impl Model for Named {
    ghost use Rattle.generation.specs.Pairing.{UrlBytes};

    ghost Value = { UrlBytes };

    ghost view = { λ n. record { url = n.url; bytes = n.bytes.value } };
}

/// The digests of a trace's modules under their URLs, with the URLs and bytes of which they are, in trace order. Only
/// what changed is put anew.
#[derive(Drop)]
pub(crate) struct KeptPairs {
    modules: Vec<Named>,
    pairs: Mappings,
}

impl Model for KeptPairs {
    ghost use Rattle.std.specs.Prelude.{◌≡◌};
    ghost use Rattle.std.specs.FinMap.{entries};
    ghost use Rattle.generation.specs.Pairing.{Paired, digests_of};

    ghost Value = { Paired };

    ghost view = { λ k. record { modules = k.modules.items; pairs = k.pairs } };

    ghost invariant = { λ k. k.pairs ≡ entries (digests_of k.modules.items) };
}

impl KeptPairs {
    /// The digests of a trace's modules. Where each module has the URL that it had, those of bytes that stayed are the
    /// kept ones.
    pub(crate) fn again(
        alloc: Global,
        kept: Option<KeptPairs>,
        config: &Config,
        trace: &Trace,
        digests: &mut KeptDigests,
    ) -> Result<KeptPairs, Memory>
        ensures { IfOk result (λ now. digests_of now.modules
            ≡ definition.digests config.now trace.now.gathered.modules trace.now.gathered.sources) }
    {
        match kept {
            None => KeptPairs::of(alloc, config, trace, digests),
            Some(mut pairs) => {
                if pairs.turn_to(alloc, config, trace, digests)? {
                    Ok(pairs)
                } else {
                    KeptPairs::of(alloc, config, trace, digests)
                }
            }
        }
    }

    // The same, of which nothing was kept.
    fn of(
        alloc: Global,
        config: &Config,
        trace: &Trace,
        kept: &mut KeptDigests,
    ) -> Result<KeptPairs, Memory>
        ensures { IfOk result (λ now. digests_of now.modules
            ≡ definition.digests config.now trace.now.gathered.modules trace.now.gathered.sources) }
    {
        let pairs = digests(alloc, config, trace, kept)?;
        let modules = named_modules(alloc, config, trace)?;
        Ok(KeptPairs { modules, pairs })
    }

    /// The digests.
    pub(crate) fn pairs(&self) -> &Mappings
        ensures { result.now ≡ entries (digests_of self.now.modules) }
    {
        &self.pairs
    }

    // Turns to the digests of a trace's modules, where these have the same URLs, each its own.
    fn turn_to(
        &mut self,
        alloc: Global,
        config: &Config,
        trace: &Trace,
        digests: &mut KeptDigests,
    ) -> Result<bool, Memory>
        ensures { IfOk result (λ done. IsTrue done → digests_of self.new.modules
            ≡ definition.digests config.now trace.now.gathered.modules trace.now.gathered.sources) }
    {
        if self.count() != trace.len() || !self.has_each_once() {
            return Ok(false);
        }
        if !self.has_urls(alloc, config, trace)? {
            return Ok(false);
        }
        self.follow(alloc, trace, digests)
    }

    // How many modules there are.
    fn count(&self) -> usize
        ensures { result ≡ length self.now.modules }
    {
        self.modules.len()
    }

    // Whether no two URLs are equal.
    fn has_each_once(&self) -> bool
        ensures { IsTrue result → length self.now.pairs ≡ length self.now.modules }
    {
        self.pairs.len() == self.modules.len()
    }

    // Whether these are the URLs of a trace's modules.
    fn has_urls(&self, alloc: Global, config: &Config, trace: &Trace) -> Result<bool, Memory>
        requires { length trace.now.gathered.modules ≡ length self.now.modules }
        ensures { IfOk result (λ same. IsTrue same → HasUrls config.now trace.now.gathered.modules self.now.modules) }
    {
        for place in 0..self.count() {
            if !self.has_url(alloc, config, trace, place)? {
                return Ok(false);
            }
        }
        Ok(true)
    }

    // Whether that is the URL of the module at a place.
    fn has_url(
        &self,
        alloc: Global,
        config: &Config,
        trace: &Trace,
        place: usize,
    ) -> Result<bool, Memory>
        requires { place < length self.now.modules }
        ensures { IfOk result (λ same. IsTrue same
            → HasUrlAt config.now trace.now.gathered.modules self.now.modules place) }
    {
        match trace.url(alloc, config.base(), place)? {
            None => Ok(false),
            Some(url) => Ok(url == self.modules[place].url),
        }
    }

    // Puts the digests of bytes that are others than before. It is done, where each module has its source.
    fn follow(
        &mut self,
        alloc: Global,
        trace: &Trace,
        digests: &mut KeptDigests,
    ) -> Result<bool, Memory>
        requires once { length self.old.pairs ≡ length self.old.modules }
        requires sources { length trace.now.gathered.sources ≡ length self.old.modules }
        ensures { IfOk result (λ done. IsTrue done → self.new.modules
            ≡ turned self.old.modules trace.now.gathered.sources) }
    {
        for place in 0..self.count() {
            let Some(module) = module_at(trace, place) else {
                return Ok(false);
            };
            self.follow_at(alloc, &module, digests, place)?;
        }
        Ok(true)
    }

    // The module at a place has these bytes.
    fn follow_at(
        &mut self,
        alloc: Global,
        module: &ModuleView<'_>,
        digests: &mut KeptDigests,
        place: usize,
    ) -> Result<(), Memory>
        requires once { length self.old.pairs ≡ length self.old.modules }
        requires place { place < length self.old.modules }
        ensures once { OnOk result (length self.new.pairs ≡ length self.new.modules) }
        ensures bytes { OnOk result (self.new.modules
            ≡ with_bytes self.old.modules place module.now.source.value) }
    {
        if self.has_bytes(module.source(), place) {
            return Ok(());
        }
        self.set(alloc, module, digests, place)
    }

    // Whether the module at a place has these bytes.
    fn has_bytes(&self, bytes: &[u8], place: usize) -> bool
        requires { place < length self.now.modules }
        ensures { IsTrue result → self.now.modules ≡ with_bytes self.now.modules place bytes.now }
    {
        self.modules[place].bytes.as_bytes() == bytes
    }

    // Gives the module at a place other bytes.
    fn set(
        &mut self,
        alloc: Global,
        module: &ModuleView<'_>,
        digests: &mut KeptDigests,
        place: usize,
    ) -> Result<(), Memory>
        requires once { length self.old.pairs ≡ length self.old.modules }
        requires place { place < length self.old.modules }
        ensures once { OnOk result (length self.new.pairs ≡ length self.new.modules) }
        ensures bytes { OnOk result (self.new.modules
            ≡ with_bytes self.old.modules place module.now.source.value) }
    {
        let text = digests.digest(alloc, module)?;
        let bytes = bytes_of(alloc, module)?;
        let url = self.modules[place].url.copy(alloc)?;
        self.pairs.set(&url, text);
        self.modules[place] = Named { url, bytes };
        Ok(())
    }
}

// The bytes of a module, which are shared with it.
fn bytes_of(alloc: Global, module: &ModuleView<'_>) -> Result<Rc<Bytes>, Memory>
    ensures { IfOk result (λ bytes. bytes.value ≡ module.now.source.value) }
{
    let own = module.untied(alloc)?;
    Ok(Rc::clone(&own.source)?)
}

// The URLs and bytes of a trace's modules that have URLs.
fn named_modules(alloc: Global, config: &Config, trace: &Trace) -> Result<Vec<Named>, Memory>
    ensures { IfOk result (λ all. all.items
        ≡ named config.now trace.now.gathered.modules trace.now.gathered.sources) }
{
    let mut all = Vec::with_capacity(alloc, trace.len())?;
    for place in 0..trace.len() {
        add(alloc, &mut all, config, trace, place)?;
    }
    Ok(all)
}

// Adds the module at a place.
fn add(
    alloc: Global,
    all: &mut Vec<Named>,
    config: &Config,
    trace: &Trace,
    place: usize,
) -> Result<(), Memory>
    ensures { OnOk result (IsNamed config.now trace.now.gathered place all.old.items all.new.items) }
{
    let url = trace.url(alloc, config.base(), place)?;
    let (Some(url), Some(module)) = (url, module_at(trace, place)) else {
        return Ok(());
    };
    add_named(alloc, all, url, &module)
}

// Adds a module that has this URL.
fn add_named(
    alloc: Global,
    all: &mut Vec<Named>,
    url: Text,
    module: &ModuleView<'_>,
) -> Result<(), Memory>
    ensures { OnOk result (all.new.items ≡ with_named (Some url) module.now.source.value all.old.items) }
{
    let bytes = bytes_of(alloc, module)?;
    all.push(Named { url, bytes })?;
    Ok(())
}
