ghost use Rattle.condition_match.specs.CallLaws.{CallsKeep};

use crate::bare_target::BareTarget;

/// What every call of an object keeps, the calls for a whole target keep.
pub fn calls_keep<B: BareTarget>()
    ensures { CallsKeep B.gives }
{}
