ghost use Rattle.std.specs.Prelude.{◌≡◌, IfOk};
ghost use Rattle.integrity_spec.specs.DigestTexts.{digest_text};

use integrity_digest::kept_digest;
use request_trace::ModuleView;
use shared_types::{Memory, Text};
use std::alloc::Global;

/// What gives the digests of modules.
pub(crate) trait Digester {
    /// The text of the digest of a module's bytes.
    fn digest(&mut self, alloc: Global, module: &ModuleView<'_>) -> Result<Text, Memory>
        ensures { IfOk result (λ text. text ≡ digest_text module.now.source.value) };
}

/// Digests that are computed as they are asked for.
#[derive(Drop)]
pub(crate) struct ComputedDigests {}

impl Digester for ComputedDigests {
    fn digest(&mut self, alloc: Global, module: &ModuleView<'_>) -> Result<Text, Memory> {
        kept_digest(alloc, module.source())
    }
}
