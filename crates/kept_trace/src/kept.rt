ghost use Rattle.std.specs.Prelude.{◌≡◌, IfOk};
ghost use Rattle.kept_trace.specs.Ready.{AreUnderOne, IsEmptyUnder};

use condition_match::Conditions;
use kept_answers::{KeptModules, KeptRequests};
use shared_types::Memory;
use std::alloc::Global;
use std::mem;
use trace_walk::KeptNames;

/// What is kept of a walk's answers: the sources of modules, and where requests lead under some conditions.
#[derive(Drop)]
pub struct Kept {
    pub(crate) modules: KeptModules,
    pub(crate) requests: KeptRequests,
}

impl Kept {
    /// Nothing is kept.
    pub fn new(alloc: Global, conditions: &Conditions) -> Result<Kept, Memory>
        ensures { IfOk result (IsEmptyUnder conditions.now) }
    {
        Ok(Kept {
            modules: KeptModules::new(alloc),
            requests: KeptRequests::new(alloc, conditions)?,
        })
    }

    /// Nothing is kept any more.
    pub(crate) fn clear(&mut self)
        ensures { IsEmptyUnder self.old.requests.names self.new }
    {
        self.modules.clear();
        self.requests.clear();
    }
}

/// What is kept of the answers of a walk, and what is kept for the next one, under the same conditions. Names are kept
/// beside both: whatever they are, each walk may take them.
#[derive(Drop)]
pub struct TraceAnswers {
    pub(crate) kept: Kept,
    pub(crate) next: Kept,
    pub(crate) names: KeptNames,
    // The number of modules of the last trace.
    pub(crate) modules: usize,
    ghost under: { AreUnderOne kept next },
}

impl TraceAnswers {
    /// Nothing is kept.
    pub fn new(alloc: Global, conditions: &Conditions) -> Result<TraceAnswers, Memory>
        ensures kept { IfOk result (λ answers. IsEmptyUnder conditions.now answers.kept) }
        ensures next { IfOk result (λ answers. IsEmptyUnder conditions.now answers.next) }
    {
        Ok(TraceAnswers {
            kept: Kept::new(alloc, conditions)?,
            next: Kept::new(alloc, conditions)?,
            names: KeptNames::new(alloc),
            modules: 0,
        })
    }

    /// What was kept for the next walk is what is kept, and the other way round. The names stay.
    pub fn exchange(&mut self)
        ensures kept { self.new.kept ≡ self.old.next }
        ensures next { self.new.next ≡ self.old.kept }
    {
        mem::swap(&mut self.kept, &mut self.next);
    }
}
