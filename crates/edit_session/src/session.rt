ghost use Rattle.std.specs.Prelude.{◌≡◌, None, Some, true, is_some, All, IfSome};
ghost use Rattle.request_trace.specs.Tracing.{TakesSteps};
ghost use Rattle.kept_trace.specs.Ready.{IsEmptyUnder};
ghost use Rattle.trace_graph.specs.Links.{IsLinked, IsLive};
ghost use Rattle.edit_session.specs.Agreement.{AgreeBut, next_over, is_changed};

use crate::entries::Entries;
use crate::looks::Looks;
use crate::made::Made;
use crate::mapping::map_again;
use crate::showing::Showing;
use crate::steps::{next, step};
use crate::stop::EditStop;
use generation::{Generated, Stop};
use graph_repair::{Slot, View};
use kept_trace::TraceAnswers;
use package_lookup::{Known, Over};
use request_trace::Config;
use session_spec::Change;
use shared_types::{Listed, Steps};
use std::alloc::Global;
use std::mem;
use std::sync::ledger::Ledger;
use tree_model::{Folder, Path};

/// Changes that are made together, one after another.
pub type Edit = Listed<Change>;

/// The modules of a map's trace without the page, its requests, and the mappings of its layout.
#[derive(Clone, Copy, Debug, PartialEq, Eq)]
pub struct Counts {
    pub modules: usize,
    pub requests: usize,
    pub mappings: usize,
}

/// A map that is kept current: the config, what was seen of the folder, what edits laid over it, the map that is
/// generated for these, the answers of its trace, by which the next one is made, and the trace's modules; and beside
/// them what an edit that is prepared would make of them.
#[derive(Drop)]
pub struct Session {
    known: Known,
    config: Config,
    generated: Generated,
    // Those of the map's trace; and those of the trace behind what is pending, if a map is.
    answers: TraceAnswers,
    // The modules of the map's trace; and the plan to show those of the trace behind what is pending, if a map is.
    shown: Showing,
    pending: Option<Prepared>,
    // Looks for the next edit, unless what is pending has them; and the paths at which they may be others than those
    // that are laid.
    spare: Over,
    changed: Vec<Path>,
    ghost agree: { AgreeBut changed.items known.laid (next_over spare pending) },
    ghost planned: { is_changed pending ≡ true → is_some shown.plan ≡ true },
}

/// What an edit that is prepared makes of a session.
#[derive(Drop)]
pub(crate) enum Prepared {
    /// Nothing else: it has no changes, so nothing is generated for it.
    Same,
    /// Another state.
    Changed { pending: Pending },
}

/// What an edit makes of a session: other looks that are laid, other entries, and the map for them.
#[derive(Drop)]
pub(crate) struct Pending {
    pub(crate) over: Over,
    pub(crate) entries: Entries,
    pub(crate) generated: Generated,
}

impl Session {
    ghost use Rattle.generation.specs.Generating.{StepsToEnd};
    ghost use Rattle.session_spec.specs.SessionStates.{SessionState};
    ghost use Rattle.session_spec.specs.Frugality.{IsFrugal};
    ghost use Rattle.edit_session.specs.SessionTrees.{IsSessionOf, shown_in, shown_map, shown_counts, counts_told};
    ghost use Rattle.edit_session.specs.SessionTrees.{steps_of, pending_steps};
    ghost use Rattle.edit_session.specs.SessionParts.{pending_over};
    ghost use Rattle.edit_session.specs.declared.session.Prepared.TheVariants.{Same, Changed};
    ghost use Rattle.edit_session.specs.Sessions.{OpensSession, Prepares, Commits};

    /// Opens a session on what stands in the folder.
    pub fn open<F: Folder, L: Ledger>(
        alloc: Global,
        config: Config,
        folder: &mut F,
        steps: &mut Steps<L>,
    ) -> Result<Session, Stop>
        ensures opens { OpensSession config (F.state folder.old) result (F.state folder.new) }
        ensures steps { TakesSteps result (λ session. steps_of session.generated) steps.old steps.new }
        ensures by_trace { StepsToEnd config (F.state folder.old).holds steps.old steps.new }
    {
        match TraceAnswers::new(alloc, config.conditions()) {
            Err(_) => Err(Stop::Memory),
            Ok(answers) => Session::open_by(alloc, answers, config, folder, steps),
        }
    }

    // The same, by answers of which none is kept yet.
    fn open_by<F: Folder, L: Ledger>(
        alloc: Global,
        answers: TraceAnswers,
        config: Config,
        folder: &mut F,
        steps: &mut Steps<L>,
    ) -> Result<Session, Stop>
        requires { IsEmptyUnder config.conditions answers.kept }
        ensures opens { OpensSession config (F.state folder.old) result (F.state folder.new) }
        ensures steps { TakesSteps result (λ session. steps_of session.generated) steps.old steps.new }
        ensures by_trace { StepsToEnd config (F.state folder.old).holds steps.old steps.new }
    {
        let mut answers = answers;
        let mut known = Known::new(alloc);
        let mut shown = Showing::new(alloc);
        match map_again(
            alloc,
            &mut answers,
            &mut shown,
            folder,
            &mut known,
            &config,
            steps,
        ) {
            Err(stop) => {
                drop(answers);
                drop(known);
                drop(shown);
                drop(config);
                Err(stop)
            }
            Ok(generated) => {
                answers.exchange();
                shown.commit();
                let spare = Over::new(alloc);
                let changed = Vec::new(alloc);
                Ok(Session {
                    known,
                    config,
                    generated,
                    answers,
                    shown,
                    pending: None,
                    spare,
                    changed,
                })
            }
        }
    }

    /// Tries the changes of an edit one after another, and generates for what they leave, unless there are none. What
    /// comes of it is pending then; it takes the place of what was. What is refused leaves the session as it was, with
    /// nothing pending. A step is taken at most for each question of the trace that wasn't asked for the session's own,
    /// or at whose footprint something changed.
    pub fn prepare<F: Folder, L: Ledger>(
        &mut self,
        alloc: Global,
        edit: &Edit,
        folder: &mut F,
        steps: &mut Steps<L>,
    ) -> Result<(), EditStop>
        ensures prepares { Prepares (F.state folder.old) self.old edit.now result (F.state folder.new) self.new }
        ensures steps { TakesSteps result (λ done. pending_steps self.new) steps.old steps.new }
        ensures fresh { IfSome (F.state folder.old).holds
            (λ tree. (state : SessionState) → IsSessionOf tree self.old state
            → IsFrugal state edit.now steps.old steps.new) }
    {
        let mut looks = self.take_looks(alloc);
        if edit.is_empty() {
            self.put_same(looks);
            return Ok(());
        }
        match next(
            alloc,
            &mut self.answers,
            &mut self.shown,
            &mut looks,
            &mut self.config,
            edit,
            folder,
            steps,
        ) {
            Err(stop) => {
                self.put_back(looks);
                Err(stop)
            }
            Ok(made) => {
                self.put_pending(looks, made);
                Ok(())
            }
        }
    }

    // The looks, to be changed by an edit; nothing is pending then.
    fn take_looks(&mut self, alloc: Global) -> Looks
        ensures known { result.known ≡ self.old.known }
        ensures config { self.new.config ≡ self.old.config }
        ensures generated { self.new.generated ≡ self.old.generated }
        ensures answers { self.new.answers ≡ self.old.answers }
        ensures shown { self.new.shown ≡ self.old.shown }
        ensures pending { self.new.pending ≡ None }
    {
        let spare = mem::replace(&mut self.spare, Over::new(alloc));
        let known = mem::replace(&mut self.known, Known::new(alloc));
        let changed = mem::replace(&mut self.changed, Vec::new(alloc));
        match self.pending.take() {
            None => Looks {
                known,
                over: spare,
                changed,
            },
            Some(Prepared::Same) => Looks {
                known,
                over: spare,
                changed,
            },
            Some(Prepared::Changed { pending }) => {
                let Pending {
                    over,
                    entries,
                    generated,
                } = pending;
                drop(entries);
                drop(generated);
                Looks {
                    known,
                    over,
                    changed,
                }
            }
        }
    }

    fn put_back(&mut self, looks: Looks)
        requires { self.old.pending ≡ None }
        ensures known { self.new.known ≡ looks.known }
        ensures config { self.new.config ≡ self.old.config }
        ensures generated { self.new.generated ≡ self.old.generated }
        ensures answers { self.new.answers ≡ self.old.answers }
        ensures shown { self.new.shown ≡ self.old.shown }
        ensures pending { self.new.pending ≡ None }
    {
        let Looks {
            known,
            over,
            changed,
        } = looks;
        drop(mem::replace(&mut self.known, known));
        drop(mem::replace(&mut self.spare, over));
        drop(mem::replace(&mut self.changed, changed));
    }

    fn put_same(&mut self, looks: Looks)
        requires { self.old.pending ≡ None }
        ensures known { self.new.known ≡ looks.known }
        ensures config { self.new.config ≡ self.old.config }
        ensures generated { self.new.generated ≡ self.old.generated }
        ensures answers { self.new.answers ≡ self.old.answers }
        ensures shown { self.new.shown ≡ self.old.shown }
        ensures pending { self.new.pending ≡ Some Same }
    {
        self.put_back(looks);
        drop(self.pending.replace(Prepared::Same));
    }

    fn put_pending(&mut self, looks: Looks, made: Made)
        requires { is_some self.old.shown.plan ≡ true }
        ensures known { self.new.known ≡ looks.known }
        ensures config { self.new.config ≡ self.old.config }
        ensures generated { self.new.generated ≡ self.old.generated }
        ensures answers { self.new.answers ≡ self.old.answers }
        ensures shown { self.new.shown ≡ self.old.shown }
        ensures pending { self.new.pending ≡ Some (Changed (pending_over looks.over made)) }
    {
        let Looks {
            known,
            over,
            changed,
        } = looks;
        let Made { entries, generated } = made;
        drop(mem::replace(&mut self.known, known));
        drop(mem::replace(&mut self.changed, changed));
        let pending = Pending {
            over,
            entries,
            generated,
        };
        drop(self.pending.replace(Prepared::Changed { pending }));
    }

    /// Makes what is pending the state of the session.
    pub fn commit(&mut self)
        requires { is_some self.old.pending ≡ true }
        ensures { Commits self.old self.new }
    {
        match self.pending.take() {
            None => {}
            Some(Prepared::Same) => {}
            Some(Prepared::Changed { pending }) => step(
                &mut self.known,
                &mut self.config,
                &mut self.generated,
                &mut self.answers,
                &mut self.shown,
                &mut self.spare,
                pending,
            ),
        }
    }

    /// Whether an edit is prepared.
    pub fn pending(&self) -> bool
        ensures { result ≡ is_some self.now.pending }
    {
        self.pending.is_some()
    }

    /// The bytes of the map.
    pub fn map(&self) -> &[u8]
        ensures { result.now ≡ shown_map self.now }
    {
        self.generated.map.as_slice()
    }

    /// The modules of the map's trace, as a graph: each has one slot, and each of their requests has the slot of the
    /// module to which it leads. An edit that is prepared isn't seen in it.
    pub fn view(&self) -> View<'_>
        ensures graph { result ≡ (shown_in self.now).graph }
        ensures linked { IsLinked (shown_in self.now) }
    {
        self.shown.view()
    }

    /// The slots of these modules, in trace order.
    pub fn slots(&self) -> &[Slot]
        ensures slots { result.now ≡ (shown_in self.now).slots }
        ensures live { All (IsLive (shown_in self.now).graph) (shown_in self.now).slots }
    {
        self.shown.slots()
    }

    /// What is told of the map.
    pub fn counts(&self) -> Counts
        ensures { counts_told result ≡ shown_counts self.now }
    {
        Counts {
            modules: self.generated.modules,
            requests: self.generated.requests,
            mappings: self.generated.mappings,
        }
    }
}
