use std::marker::Model;
use tree_model::Path;
use web_url::Suffix;

/// The module that a specifier gives, without the paths at which the resolution looked. Only a `Found` gives one.
#[derive(Drop)]
pub struct ResolvedModule {
    pub(crate) path: Path,
    pub(crate) suffix: Suffix,
}

impl Model for ResolvedModule {
    ghost use Rattle.node_spec.specs.NodeAnswers as spec;

    ghost Value = { spec.Module };

    ghost view = { λ m. record { path = m.path; suffix = m.suffix } };
}

impl ResolvedModule {
    ghost use Rattle.std.specs.Prelude.{◌≡◌};

    /// The path, and the query and fragment.
    pub fn into_parts(self) -> (Path, Suffix)
        ensures path { result.0 ≡ self.path }
        ensures suffix { result.1 ≡ self.suffix }
    {
        let ResolvedModule { path, suffix } = self;
        (path, suffix)
    }
}
