ghost use Rattle.std.specs.Prelude.{◌≡◌, ℕ, List, None, IfOk, IfSome, bytes_eq};
ghost use Rattle.std.specs.HashMap as map;
ghost use Rattle.integrity_spec.specs.DigestTexts.{digest_text};

use crate::digester::Digester;
use integrity_digest::kept_digest;
use request_trace::ModuleView;
use shared_types::{Bytes, Memory, Text};
use std::alloc::Global;
use std::collections::HashMap;
use std::marker::Model;
use std::rc::Rc;
use tree_model::Path;

/// Bytes, and the text of their digest. The bytes are shared with the trace from which they come.
#[derive(Drop)]
struct KeptDigest {
    bytes: Rc<Bytes>,
    text: Text,
}

impl Model for KeptDigest {
    ghost use Rattle.std.specs.Prelude.{◌≡◌};
    ghost use Rattle.integrity_spec.specs.DigestTexts.{digest_text};
    ghost use Rattle.generation.specs.Keeping.{Digested};

    ghost Value = { Digested };

    ghost view = { λ k. record { bytes = k.bytes.value; text = k.text } };

    ghost invariant = { λ k. k.text ≡ digest_text k.bytes.value };
}

impl KeptDigest {
    // The digest of a module's bytes.
    fn of(alloc: Global, module: &ModuleView<'_>) -> Result<KeptDigest, Memory>
        ensures { IfOk result (λ kept. kept.bytes ≡ module.now.source.value) }
    {
        let text = kept_digest(alloc, module.source())?;
        let own = module.untied(alloc)?;
        let bytes = Rc::clone(&own.source)?;
        Ok(KeptDigest { bytes, text })
    }

    // The digest's text, where it is of these bytes.
    fn text_of(&self, alloc: Global, bytes: &[u8]) -> Result<Option<Text>, Memory>
        ensures { IfOk result (λ found. IfSome found (λ text. text ≡ digest_text bytes.now)) }
    {
        if self.bytes.as_bytes() == bytes {
            Ok(Some(self.text.copy(alloc)?))
        } else {
            Ok(None)
        }
    }

    // The digest's text.
    fn text(&self, alloc: Global) -> Result<Text, Memory>
        ensures { IfOk result (λ text. text ≡ digest_text self.now.bytes) }
    {
        self.text.copy(alloc)
    }
}

/// The digests that are kept, each under the path of a module that had these bytes.
#[derive(Drop)]
pub(crate) struct KeptDigests {
    entries: HashMap<Path, KeptDigest>,
}

impl KeptDigests {
    /// Nothing is kept.
    pub(crate) fn new(alloc: Global) -> KeptDigests
        ensures { (path : List ℕ) → map.get bytes_eq result.entries path ≡ None }
    {
        KeptDigests {
            entries: HashMap::new(alloc),
        }
    }

    /// Forgets everything, where that is far more than the digests of so many modules.
    pub(crate) fn make_room(&mut self, modules: usize) {
        if self.entries.len() / 2 > modules {
            self.entries.clear();
        }
    }

    // The kept text of the digest of a module's bytes.
    fn kept(&self, alloc: Global, module: &ModuleView<'_>) -> Result<Option<Text>, Memory>
        ensures { IfOk result (λ found. IfSome found (λ text. text ≡ digest_text module.now.source.value)) }
    {
        match self.entries.get(module.path()) {
            None => Ok(None),
            Some(kept) => kept.text_of(alloc, module.source()),
        }
    }

    // The text of the digest of a module's bytes, which is kept from now on.
    fn keep(&mut self, alloc: Global, module: &ModuleView<'_>) -> Result<Text, Memory>
        ensures { IfOk result (λ text. text ≡ digest_text module.now.source.value) }
    {
        let anew = KeptDigest::of(alloc, module)?;
        let text = anew.text(alloc)?;
        let path = module.path().copy(alloc)?;
        self.entries.insert(path, anew)?;
        Ok(text)
    }
}

impl Digester for KeptDigests {
    fn digest(&mut self, alloc: Global, module: &ModuleView<'_>) -> Result<Text, Memory> {
        match self.kept(alloc, module)? {
            Some(text) => Ok(text),
            None => self.keep(alloc, module),
        }
    }
}
