ghost use Rattle.asking_spec.specs.Askings.{ask, answered};
ghost use Rattle.trace_spec.specs.Questions.{of_module, of_request};
ghost use Rattle.trace_walk.specs.Answering.{IsAnswered, IsSourceAnswered};
ghost use Rattle.trace_walk.specs.Meeting.{AnswererState, Met, fine};
ghost use Rattle.trace_walk.specs.Shown.{sources, resolutions};

use condition_match::Conditions;
use module_sources::{NoSource, Source};
use node_resolve::ResolvedModule;
use node_spec::Cause;
use std::alloc::Global;
use trace_spec::TraceFault;
use tree_model::Path;

/// What Node's resolver answers for a request. Only the resolver makes the module of an answer.
#[derive(Drop)]
pub enum NodeAnswer {
    /// A module.
    Resolved(ResolvedModule),
    /// None, for this cause.
    Refused { cause: Cause },
    /// None: a package.json on the way has more open brackets than are read.
    TooDeep,
}

/// What answers the questions of a walk.
pub trait Answerer {
    /// The answers and what they see, where they are told; how many looks failed; how many steps were taken; and what
    /// stays as it is.
    ghost state: { Self → AnswererState };

    /// What it knows of earlier answers is right.
    ghost ready: { Self → Type 0 };

    /// The source of the file at a path, or why it has none.
    fn module(&mut self, alloc: Global, path: &Path) -> Result<Result<Source, NoSource>, TraceFault>
        requires ready { ready self.old }
        ensures met { Met (state self.old) (fine (ask (of_module path.now) answered)) (sources result)
            (state self.new) }
        ensures answered { IsSourceAnswered result (state self.old).steps (state self.new).steps (ready self.new) };

    /// Where a specifier in the file at a path leads.
    fn request(
        &mut self,
        alloc: Global,
        conditions: &Conditions,
        parent: &Path,
        specifier: &str,
    ) -> Result<NodeAnswer, TraceFault>
        requires ready { ready self.old }
        ensures met { Met (state self.old)
            (fine (ask (of_request conditions.now parent.now specifier.now) answered)) (resolutions result)
            (state self.new) }
        ensures answered { IsAnswered result (state self.old).steps (state self.new).steps (ready self.new) };
}
