ghost use Rattle.std.specs.Prelude.{◌≡◌, ◌≢◌, ℕ, List, Some, Ok, IfOk, IfErr, IfSome};
ghost use Rattle.trace_spec.specs.Checks.{wanted_by};
ghost use Rattle.trace_walk.specs.Naming.{IsServedAs};
ghost use Rattle.trace_walk.specs.Refusing.{IsUnwanted};
ghost use Rattle.trace_walk.specs.Walking.{IsUnserved};

use crate::following::asked_text;
use crate::module::Module;
use crate::namer::Namer;
use crate::names::name_at;
use crate::referrer::Referrer;
use crate::tables::Name;
use shared_types::{Memory, Text};
use std::alloc::Global;
use std::collections::HashMap;
use std::marker::Model;
use std::mem;
use trace_config::Config;
use trace_spec::TraceFault;
use web_url::Base;

/// The name of a module at a base.
struct KeptName {
    base: Base,
    target: Module,
    name: Name,
}

impl Drop for KeptName {
    fn drop(self) {
        let KeptName {
            base: _,
            target: _,
            name: _,
        } = self;
    }
}

impl Model for KeptName {
    ghost use Rattle.trace_walk.specs.Naming.{NamedAt, IsServedAs};

    ghost Value = { NamedAt };

    ghost view = { λ k. record { base = k.base; target = k.target; url = k.name.url } };

    ghost invariant = { λ k. IsServedAs k.base k.target k.name };
}

impl KeptName {
    // The name of a module, anew.
    fn of(alloc: Global, config: &Config, target: &Module) -> Result<KeptName, TraceFault>
        ensures base { IfOk result (λ kept. kept.base ≡ config.now.base) }
        ensures target { IfOk result (λ kept. kept.target ≡ target.now) }
        ensures unserved { IfErr result (λ fault. fault ≢ TraceFault.Memory
            → IsUnserved config.now target.now.path target.now.suffix fault) }
    {
        let own = target.copy(alloc)?;
        let base = config.base().copy(alloc)?;
        let name = name_at(alloc, config, target)?;
        Ok(KeptName {
            base,
            target: own,
            name,
        })
    }

    // A copy of the name.
    fn name(&self, alloc: Global) -> Result<Name, Memory>
        ensures { IfOk result (IsServedAs self.now.base self.now.target) }
    {
        self.name.copy(alloc)
    }

    // The name, where it is this module's at this base.
    fn name_of(&self, alloc: Global, base: &Base, target: &Module) -> Result<Option<Name>, Memory>
        ensures { IfOk result (λ found. IfSome found (IsServedAs base.now target.now)) }
    {
        if self.base.as_str() == base.as_str() && self.target == *target {
            Ok(Some(self.name.copy(alloc)?))
        } else {
            Ok(None)
        }
    }
}

/// What a specifier asks for in a referrer of this name.
struct KeptAsk {
    referrer: Text,
    specifier: Text,
    asked: Text,
}

impl Drop for KeptAsk {
    fn drop(self) {
        let KeptAsk {
            referrer: _,
            specifier: _,
            asked: _,
        } = self;
    }
}

impl Model for KeptAsk {
    ghost use Rattle.std.specs.Prelude.{◌≡◌, Some, Ok};
    ghost use Rattle.trace_spec.specs.Checks.{wanted_by};
    ghost use Rattle.trace_walk.specs.Naming.{AskedBy};

    ghost Value = { AskedBy };

    ghost view = { λ k. record { referrer = k.referrer; specifier = k.specifier; asked = k.asked } };

    ghost invariant = { λ k. wanted_by k.specifier (Some k.referrer)
        ≡ Ok (record { referrer = k.referrer; asked = k.asked }) };
}

impl KeptAsk {
    // What is asked for, where this referrer and this specifier ask.
    fn asked_by(
        &self,
        alloc: Global,
        referrer: &Referrer,
        specifier: &Text,
    ) -> Result<Option<Text>, Memory>
        ensures { IfOk result (λ found. IfSome found (λ asked. wanted_by specifier.now (Some referrer.now.name)
            ≡ Ok (record { referrer = referrer.now.name; asked = asked }))) }
    {
        if self.specifier == *specifier && self.referrer.as_str() == referrer.name.as_str() {
            Ok(Some(self.asked.copy(alloc)?))
        } else {
            Ok(None)
        }
    }
}

/// The names of modules and what requests ask for, which are kept from one walk to the next. Each is given only where
/// all that it depends on is the same, so nobody has to tell what has changed.
#[derive(Drop)]
pub struct KeptNames {
    names: HashMap<Module, KeptName>,
    // By the URL of a referrer, what it asks for, in the order of its requests. That of the present one isn't among
    // them.
    asks: HashMap<Text, Vec<KeptAsk>>,
    present: Text,
    present_asks: Vec<KeptAsk>,
    // The number of the present referrer's requests that were asked for in this walk.
    place: usize,
}

impl KeptNames {
    /// Nothing is kept.
    pub fn new(alloc: Global) -> KeptNames {
        KeptNames {
            names: HashMap::new(alloc),
            asks: HashMap::new(alloc),
            present: Text::new(alloc),
            present_asks: Vec::new(alloc),
            place: 0,
        }
    }

    /// Begins a walk, wherever the one before ended. The names are forgotten where they are far more than those of so
    /// many modules, and what requests ask for where their referrers are far more than these modules and the page.
    pub fn begin(&mut self, modules: usize) {
        self.forget_rest();
        if self.names.len() / 2 > modules {
            self.names.clear();
        }
        if self.asks.len() / 2 > modules.saturating_add(1) {
            self.asks.clear();
        }
    }

    // Forgets what the present referrer no longer asks for, and goes back to its first request.
    fn forget_rest(&mut self) {
        if self.place > 0 {
            self.present_asks.truncate(self.place);
        }
        self.place = 0;
    }

    // The kept name of a module.
    fn kept(&self, alloc: Global, config: &Config, target: &Module) -> Result<Option<Name>, Memory>
        ensures { IfOk result (λ found. IfSome found (IsServedAs config.now.base target.now)) }
    {
        match self.names.get(target) {
            None => Ok(None),
            Some(kept) => kept.name_of(alloc, config.base(), target),
        }
    }

    // The name of a module, which is kept from now on.
    fn keep(&mut self, alloc: Global, config: &Config, target: &Module) -> Result<Name, TraceFault>
        ensures served { IfOk result (IsServedAs config.now.base target.now) }
        ensures unserved { IfErr result (λ fault. fault ≢ TraceFault.Memory
            → IsUnserved config.now target.now.path target.now.suffix fault) }
    {
        let anew = KeptName::of(alloc, config, target)?;
        let name = anew.name(alloc)?;
        self.put_name(alloc, target, anew)?;
        Ok(name)
    }

    fn put_name(&mut self, alloc: Global, target: &Module, anew: KeptName) -> Result<(), Memory> {
        let own = target.copy(alloc)?;
        self.names.insert(own, anew)?;
        Ok(())
    }

    // Turns to what is kept of a referrer's requests, at the first of these, unless it is the present one.
    fn turn_to(&mut self, alloc: Global, referrer: &Referrer) -> Result<(), Memory> {
        if self.present == referrer.text {
            return Ok(());
        }
        self.forget_rest();
        let url = mem::replace(&mut self.present, referrer.text.copy(alloc)?);
        let asks = match self.asks.remove(&referrer.text) {
            None => Vec::new(alloc),
            Some(asks) => asks,
        };
        let before = mem::replace(&mut self.present_asks, asks);
        if !before.is_empty() {
            self.asks.insert(url, before)?;
        }
        Ok(())
    }

    // What is kept at the present place, where these ask.
    fn kept_ask(
        &self,
        alloc: Global,
        referrer: &Referrer,
        specifier: &Text,
    ) -> Result<Option<Text>, Memory>
        ensures { IfOk result (λ found. IfSome found (λ asked. wanted_by specifier.now (Some referrer.now.name)
            ≡ Ok (record { referrer = referrer.now.name; asked = asked }))) }
    {
        match self.present_asks.get(self.place) {
            None => Ok(None),
            Some(kept) => kept.asked_by(alloc, referrer, specifier),
        }
    }

    // What a request asks for, which is kept from now on at the present place.
    fn keep_ask(
        &mut self,
        alloc: Global,
        referrer: &Referrer,
        specifier: &Text,
    ) -> Result<Text, TraceFault>
        ensures wanted { IfOk result (λ asked. wanted_by specifier.now (Some referrer.now.name)
            ≡ Ok (record { referrer = referrer.now.name; asked = asked })) }
        ensures unwanted { IfErr result (λ fault. fault ≢ TraceFault.Memory
            → IsUnwanted referrer.now specifier.now fault) }
    {
        let asked = asked_text(alloc, referrer, specifier)?;
        let anew = KeptAsk {
            referrer: name_text(alloc, referrer)?,
            specifier: specifier.copy(alloc)?,
            asked: asked.copy(alloc)?,
        };
        self.put_ask(anew)?;
        Ok(asked)
    }

    fn put_ask(&mut self, anew: KeptAsk) -> Result<(), Memory> {
        match self.present_asks.get_mut(self.place) {
            None => self.present_asks.push(anew)?,
            Some(kept) => *kept = anew,
        }
        Ok(())
    }
}

// The text of a referrer's name, which shares the memory of what its needs share where that is the same.
fn name_text(alloc: Global, referrer: &Referrer) -> Result<Text, Memory>
    ensures { IfOk result (λ text. text ≡ referrer.now.name) }
{
    if referrer.text.as_str() == referrer.name.as_str() {
        return referrer.text.copy(alloc);
    }
    Text::of(alloc, referrer.name.as_str())
}

impl Namer for KeptNames {
    fn name(
        &mut self,
        alloc: Global,
        config: &Config,
        target: &Module,
    ) -> Result<Name, TraceFault> {
        match self.kept(alloc, config, target)? {
            Some(name) => Ok(name),
            None => self.keep(alloc, config, target),
        }
    }

    fn asked(
        &mut self,
        alloc: Global,
        referrer: &Referrer,
        specifier: &Text,
    ) -> Result<Text, TraceFault> {
        self.turn_to(alloc, referrer)?;
        let asked = match self.kept_ask(alloc, referrer, specifier)? {
            Some(asked) => asked,
            None => self.keep_ask(alloc, referrer, specifier)?,
        };
        self.place = self.place.saturating_add(1);
        Ok(asked)
    }
}
