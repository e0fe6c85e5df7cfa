ghost use Rattle.std.specs.Prelude.{◌≡◌, None};

use crate::kept_digests::KeptDigests;
use crate::kept_layout::KeptLayout;
use crate::kept_page::KeptPage;
use crate::kept_pairs::KeptPairs;
use std::alloc::Global;

/// What is kept of maps for later ones: the page's URL, the digests of modules' bytes, those of the last map under their
/// URLs, and the last layout. Each is taken only for the same page, bytes, URLs and needs, so it needn't be told what
/// changes.
#[derive(Drop)]
pub struct KeptMap {
    pub(crate) page: Option<KeptPage>,
    pub(crate) digests: KeptDigests,
    pub(crate) pairs: Option<KeptPairs>,
    pub(crate) layout: Option<KeptLayout>,
}

impl KeptMap {
    /// Nothing is kept.
    pub fn new(alloc: Global) -> KeptMap
        ensures { result.layout ≡ None }
    {
        KeptMap {
            page: None,
            digests: KeptDigests::new(alloc),
            pairs: None,
            layout: None,
        }
    }
}
