ghost use Rattle.std.specs.Prelude.{◌≡◌, ◌≢◌, Some, Ok, IfOk, IfErr};
ghost use Rattle.trace_spec.specs.Checks.{wanted_by};
ghost use Rattle.trace_walk.specs.Naming.{IsServedAs};
ghost use Rattle.trace_walk.specs.Refusing.{IsUnwanted};
ghost use Rattle.trace_walk.specs.Walking.{IsUnserved};

use crate::following::asked_text;
use crate::module::Module;
use crate::names::name_at;
use crate::referrer::Referrer;
use crate::tables::Name;
use shared_types::Text;
use std::alloc::Global;
use trace_config::Config;
use trace_spec::TraceFault;

/// What gives the web names of modules, and what their requests ask for.
pub trait Namer {
    /// The web name of a module, which is served there, with its text.
    fn name(&mut self, alloc: Global, config: &Config, target: &Module) -> Result<Name, TraceFault>
        ensures served { IfOk result (IsServedAs config.now.base target.now) }
        ensures unserved { IfErr result (λ fault. fault ≢ TraceFault.Memory
            → IsUnserved config.now target.now.path target.now.suffix fault) };

    /// The normalized specifier of a referrer, by which it is asked for.
    fn asked(
        &mut self,
        alloc: Global,
        referrer: &Referrer,
        specifier: &Text,
    ) -> Result<Text, TraceFault>
        ensures wanted { IfOk result (λ asked. wanted_by specifier.now (Some referrer.now.name)
            ≡ Ok (record { referrer = referrer.now.name; asked = asked })) }
        ensures unwanted { IfErr result (λ fault. fault ≢ TraceFault.Memory
            → IsUnwanted referrer.now specifier.now fault) };
}

/// Names that are computed as they are asked for.
#[derive(Drop)]
pub struct ComputedNames {}

impl Namer for ComputedNames {
    fn name(
        &mut self,
        alloc: Global,
        config: &Config,
        target: &Module,
    ) -> Result<Name, TraceFault> {
        name_at(alloc, config, target)
    }

    fn asked(
        &mut self,
        alloc: Global,
        referrer: &Referrer,
        specifier: &Text,
    ) -> Result<Text, TraceFault> {
        asked_text(alloc, referrer, specifier)
    }
}
