//! The module to which a request leads, as it is kept or anew.
ghost use Rattle.std.specs.Prelude.{◌≡◌, ◌≤◌, ◌+◌, List, Some, Ok, IfOk, IfSome, OnOk, OnErr};
ghost use Rattle.tree_spec.specs.LookAskings.{look_at_each};
ghost use Rattle.node_spec.specs.EsmResolve as spec;
ghost use Rattle.node_resolve.specs.Places.{module_of};
ghost use Rattle.node_resolve.specs.Responses.{node_fault, responded};
ghost use Rattle.package_lookup.specs.Answered.{Answered};
ghost use Rattle.package_lookup.specs.Lookups.{begun_of, state_of, IsSameLookup};
ghost use Rattle.package_lookup.specs.Responses.{looked};
ghost use Rattle.kept_spec.specs.Certificates.{LookSeen, paths_of};
ghost use Rattle.kept_answers.specs.Entries.{Request, is_request};
ghost use Rattle.kept_answers.specs.Footprints.{HasFootprint};
ghost use Rattle.kept_answers.specs.Freshness.{put_looks, request_looks, IsSeenNow, StaysSeen, TakesStepIfFresh};
ghost use Rattle.kept_answers.specs.KnownLooks.{done, AreLooksAt, IsKept};
ghost use Rattle.kept_answers.specs.Puts.{PutsLooks};
ghost use Rattle.kept_answers.specs.RightAnswers.{AnsweredIf};
ghost use Rattle.kept_answers.specs.Tables.{IsRequestOf, AreRequests};

use crate::key::RequestKey;
use crate::looks::{Looks, look_again, looks_of};
use crate::requests::{KeptRequest, KeptRequests};
use condition_match::Conditions;
use node_resolve::{Cause, Found, NodeFault, resolve};
use package_lookup::{Lookup, LookupFault, some_sights};
use shared_types::{Memory, Steps, Text};
use std::alloc::Global;
use std::rc::Rc;
use std::sync::ledger::Ledger;
use tree_model::{Folder, Path};

/// A request: the path of who asks, the specifier, and the conditions.
#[derive(Drop)]
pub struct Requested<'a> {
    pub parent: &'a Path,
    pub specifier: &'a str,
    pub conditions: &'a Conditions,
}

impl KeptRequests {
    /// The module to which a request leads: what `resolve` gives, without a step where it is kept here and what decided
    /// it stands there still. It is kept in the next table. Both tables are those of the request's conditions.
    pub fn answer<F: Folder, L: Ledger>(
        &self,
        lookup: &mut Lookup<'_, F>,
        request: &Requested<'_>,
        steps: &mut Steps<L>,
        next: &mut KeptRequests,
    ) -> Result<Rc<Found>, NodeFault>
        requires names { self.now.names ≡ request.now.conditions.now }
        requires next { next.old.names ≡ request.now.conditions.now }
        ensures answered { AnsweredIf (AreRequests self.now) (begun_of F.state lookup.old)
            (spec.node request.now.conditions.now request.now.parent.now request.now.specifier.now)
            (responded (λ found. module_of found.value) result) (state_of F.state lookup.new) }
        ensures footprint { AreRequests self.now → HasFootprint (F.state lookup.old.folder.now) lookup.old.known.now
            (spec.node request.now.conditions.now request.now.parent.now request.now.specifier.now) result }
        ensures cost { steps.new ≤ steps.old + 1 }
        ensures fresh { TakesStepIfFresh (F.state lookup.old.folder.now) lookup.old.known.now (request_looks self.now
            (record { parent = request.now.parent.now; specifier = request.now.specifier.now })) steps.old steps.new }
        ensures kept { IfOk result (λ found. IsSeenNow (state_of F.state lookup.old) (request_looks next.new
            (record { parent = request.now.parent.now; specifier = request.now.specifier.now }))) }
        ensures still { (other : Request) → StaysSeen (state_of F.state lookup.old)
            (request_looks next.old other) (request_looks next.new other) }
        ensures names { next.new.names ≡ next.old.names }
        ensures right { IfSome (F.state lookup.old.folder.now).holds
            (λ tree. AreRequests self.now → AreRequests next.old → AreRequests next.new) }
        ensures same { IsSameLookup lookup.old lookup.new }
    {
        match key_of(lookup.alloc, request.parent, request.specifier) {
            Err(_) => {
                lookup.trail.begin();
                Err(NodeFault::Memory)
            }
            Ok(key) => match self.get(&key) {
                None => request_anew(lookup, request, steps, next, key),
                Some(found) => request_again(lookup, request, steps, next, key, found),
            },
        }
    }
}

fn key_of(alloc: Global, parent: &Path, specifier: &str) -> Result<RequestKey, Memory>
    ensures { IfOk result (λ key. key ≡ record { parent = parent.now; specifier = specifier.now }) }
{
    let parent = parent.copy(alloc)?;
    let specifier = Text::of(alloc, specifier)?;
    Ok(RequestKey::new(parent, specifier))
}

// The kept module, where the looks that decided it see the same; else the module anew.
fn request_again<F: Folder, L: Ledger>(
    lookup: &mut Lookup<'_, F>,
    request: &Requested<'_>,
    steps: &mut Steps<L>,
    next: &mut KeptRequests,
    key: RequestKey,
    found: &KeptRequest,
) -> Result<Rc<Found>, NodeFault>
    requires key { key ≡ record { parent = request.now.parent.now; specifier = request.now.specifier.now } }
    requires next { next.old.names ≡ request.now.conditions.now }
    ensures answered { AnsweredIf (IsRequestOf request.now.conditions.now key found.now) (begun_of F.state lookup.old)
        (spec.node request.now.conditions.now request.now.parent.now request.now.specifier.now)
        (responded (λ found. module_of found.value) result) (state_of F.state lookup.new) }
    ensures footprint { IsRequestOf request.now.conditions.now key found.now
        → HasFootprint (F.state lookup.old.folder.now) lookup.old.known.now
        (spec.node request.now.conditions.now request.now.parent.now request.now.specifier.now) result }
    ensures cost { steps.new ≤ steps.old + 1 }
    ensures fresh { TakesStepIfFresh (F.state lookup.old.folder.now) lookup.old.known.now
        (Some found.now.looks.value) steps.old steps.new }
    ensures kept { IfOk result (λ found. IsSeenNow (state_of F.state lookup.old) (request_looks next.new key)) }
    ensures still { (other : Request) → StaysSeen (state_of F.state lookup.old)
        (request_looks next.old other) (request_looks next.new other) }
    ensures names { next.new.names ≡ next.old.names }
    ensures right { IfSome (F.state lookup.old.folder.now).holds (λ tree.
        IsRequestOf request.now.conditions.now key found.now → AreRequests next.old → AreRequests next.new) }
    ensures same { IsSameLookup lookup.old lookup.new }
{
    match look_again(lookup, &found.looks) {
        Err(fault) => Err(fault_of(fault)),
        Ok(false) => request_anew(lookup, request, steps, next, key),
        Ok(true) => match keep_again(next, key, found) {
            Err(_) => Err(NodeFault::Memory),
            Ok(own) => Ok(own),
        },
    }
}

// A fault of looks alone.
fn fault_of(fault: LookupFault) -> NodeFault
    ensures { result ≡ node_fault fault }
{
    match fault {
        LookupFault::ReadFault => NodeFault::ReadFault,
        LookupFault::Limit { which } => NodeFault::Limit { which },
        LookupFault::InvalidConfig => NodeFault::Refused(Cause::InvalidConfig),
        LookupFault::Memory => NodeFault::Memory,
    }
}

fn keep_again(
    next: &mut KeptRequests,
    request: RequestKey,
    found: &KeptRequest,
) -> Result<Rc<Found>, Memory>
    ensures found { IfOk result (λ own. own.value ≡ found.now.found.value) }
    ensures set { OnOk result ((other : Request) → request_looks next.new other
        ≡ put_looks is_request request found.now.looks.value (request_looks next.old) other) }
    ensures unset { OnErr result ((other : Request) → request_looks next.new other ≡ request_looks next.old other) }
    ensures names { next.new.names ≡ next.old.names }
    ensures right { IsRequestOf next.old.names request found.now → AreRequests next.old → AreRequests next.new }
{
    let own = Rc::clone(&found.found)?;
    next.put(request, found.copy()?)?;
    Ok(own)
}

// The module, by new looks, which are kept with it.
fn request_anew<F: Folder, L: Ledger>(
    lookup: &mut Lookup<'_, F>,
    request: &Requested<'_>,
    steps: &mut Steps<L>,
    next: &mut KeptRequests,
    key: RequestKey,
) -> Result<Rc<Found>, NodeFault>
    requires key { key ≡ record { parent = request.now.parent.now; specifier = request.now.specifier.now } }
    requires next { next.old.names ≡ request.now.conditions.now }
    ensures answered { Answered (begun_of F.state lookup.old)
        (spec.node request.now.conditions.now request.now.parent.now request.now.specifier.now)
        (responded (λ found. module_of found.value) result) (state_of F.state lookup.new) }
    ensures footprint { HasFootprint (F.state lookup.old.folder.now) lookup.old.known.now
        (spec.node request.now.conditions.now request.now.parent.now request.now.specifier.now) result }
    ensures cost { steps.new ≤ steps.old + 1 }
    ensures kept { IfOk result (λ found. IsSeenNow (state_of F.state lookup.old) (request_looks next.new key)) }
    ensures still { (other : Request) → StaysSeen (state_of F.state lookup.old)
        (request_looks next.old other) (request_looks next.new other) }
    ensures names { next.new.names ≡ next.old.names }
    ensures right { IfSome (F.state lookup.old.folder.now).holds (λ tree. AreRequests next.old → AreRequests next.new) }
    ensures same { IsSameLookup lookup.old lookup.new }
{
    some_sights();
    match resolve(
        lookup,
        request.parent,
        request.specifier,
        request.conditions,
        steps,
    ) {
        Err(fault) => Err(fault),
        Ok(found) => match keep_request(lookup, next, key, found) {
            Err(fault) => Err(fault_of(fault)),
            Ok(own) => Ok(own),
        },
    }
}

// Keeps a module with the looks of the present question.
fn keep_request<F: Folder>(
    lookup: &mut Lookup<'_, F>,
    next: &mut KeptRequests,
    request: RequestKey,
    found: Found,
) -> Result<Rc<Found>, LookupFault>
    ensures answered { Answered (state_of F.state lookup.old) (look_at_each lookup.old.trail.now.question)
        (looked done result) (state_of F.state lookup.new) }
    ensures found { IfOk result (λ own. own.value ≡ found) }
    ensures set { IfOk result (λ own. PutsLooks is_request request (request_looks next.old) (request_looks next.new)
        lookup.new.known.now lookup.old.trail.now.question) }
    ensures unset { OnErr result ((other : Request) → request_looks next.new other ≡ request_looks next.old other) }
    ensures names { next.new.names ≡ next.old.names }
    ensures right { ((looks : List LookSeen) → AreLooksAt lookup.new.known.now lookup.old.trail.now.question looks
        → IsKept (spec.node next.old.names request.parent request.specifier) (Ok (module_of found)) looks)
        → found.footprint ≡ lookup.old.trail.now.question → AreRequests next.old → AreRequests next.new }
    ensures same { IsSameLookup lookup.old lookup.new }
{
    let looks = looks_of(lookup)?;
    let own = put_request(lookup.alloc, next, request, found, looks)?;
    Ok(own)
}

fn put_request(
    alloc: Global,
    next: &mut KeptRequests,
    request: RequestKey,
    found: Found,
    looks: Looks,
) -> Result<Rc<Found>, Memory>
    ensures found { IfOk result (λ own. own.value ≡ found) }
    ensures set { OnOk result ((other : Request) → request_looks next.new other
        ≡ put_looks is_request request looks (request_looks next.old) other) }
    ensures unset { OnErr result ((other : Request) → request_looks next.new other ≡ request_looks next.old other) }
    ensures names { next.new.names ≡ next.old.names }
    ensures right { IsKept (spec.node next.old.names request.parent request.specifier) (Ok (module_of found)) looks
        → found.footprint ≡ paths_of looks → AreRequests next.old → AreRequests next.new }
{
    let found = Rc::new(alloc, found)?;
    let looks = Rc::new(alloc, looks)?;
    let own = Rc::clone(&found)?;
    next.put(request, KeptRequest { found, looks })?;
    Ok(own)
}
