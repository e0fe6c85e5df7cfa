ghost use Rattle.std.specs.Prelude.{◌≡◌, ◌≤◌, length};
ghost use Rattle.tree_spec.specs.declared.LimitName.TheVariants as limit;
ghost use Rattle.tree_spec.specs.Limits.{limit_number};

use crate::module::Module;
use shared_types::Text;
use std::marker::Model;

/// How a need is first spelled: who asks, as shown to a user, the specifier, which isn't too long, and the module that
/// it leads to.
pub struct Spelling {
    referrer: Text,
    specifier: Text,
    target: Module,
}

// Written out, as a function that drops a spelling at several exits is then proved sooner.
impl Drop for Spelling {
    fn drop(self) {
        let Spelling {
            referrer: _,
            specifier: _,
            target: _,
        } = self;
    }
}

impl Model for Spelling {
    ghost use Rattle.std.specs.Prelude.{◌≤◌, length};
    ghost use Rattle.tree_spec.specs.declared.LimitName.TheVariants as limit;
    ghost use Rattle.tree_spec.specs.Limits.{limit_number};
    ghost use Rattle.trace_spec.specs.Checks as spec;

    ghost Value = { spec.Spelling };

    ghost view = { λ s. record { referrer = s.referrer; specifier = s.specifier; target = s.target } };

    ghost invariant = { λ s. length s.specifier ≤ limit_number limit.Specifier };
}

impl Spelling {
    pub(crate) fn new(referrer: Text, specifier: Text, target: Module) -> Spelling
        requires short { length specifier ≤ limit_number limit.Specifier }
        ensures { result ≡ record { referrer = referrer; specifier = specifier; target = target } }
    {
        Spelling {
            referrer,
            specifier,
            target,
        }
    }

    pub fn referrer(&self) -> &Text
        ensures { result.now ≡ self.now.referrer }
    {
        &self.referrer
    }

    pub fn specifier(&self) -> &Text
        ensures specifier { result.now ≡ self.now.specifier }
        ensures short { length result.now ≤ limit_number limit.Specifier }
    {
        &self.specifier
    }

    pub fn target(&self) -> &Module
        ensures { result.now ≡ self.now.target }
    {
        &self.target
    }
}
