ghost use Rattle.std.specs.Prelude.{◌≡◌, None, Some, IfOk, IfSome, OnOk, OnErr, option_copied, bytes_eq, slice_get};
ghost use Rattle.std.specs.Prelude.{if◌then◌else◌};
ghost use Rattle.std.specs.Bool.{Decides};
ghost use Rattle.std.specs.Cmp.Lexicographic.{pointwise};
ghost use Rattle.std.specs.HashMap as map;
ghost use Rattle.kept_answers.specs.Entries.{Request, is_request};
ghost use Rattle.kept_answers.specs.Freshness.{put_looks, request_looks};
ghost use Rattle.kept_answers.specs.Tables.{requests_at, IsRequestOf, AreRequests};

use crate::key::RequestKey;
use crate::looks::Looks;
use condition_match::Conditions;
use node_resolve::Found;
use shared_types::{Listed, Memory, Text};
use std::alloc::Global;
use std::collections::HashMap;
use std::rc::Rc;

/// The module to which a request leads, and the looks that decided it.
#[derive(Drop)]
pub struct KeptRequest {
    pub(crate) found: Rc<Found>,
    pub(crate) looks: Rc<Looks>,
}

impl KeptRequest {
    /// The same, with all of it shared.
    pub fn copy(&self) -> Result<KeptRequest, Memory>
        ensures found { IfOk result (λ copy. copy.found.value ≡ self.now.found.value) }
        ensures looks { IfOk result (λ copy. copy.looks.value ≡ self.now.looks.value) }
    {
        Ok(KeptRequest {
            found: Rc::clone(&self.found)?,
            looks: Rc::clone(&self.looks)?,
        })
    }
}

/// Node's answers that are kept under conditions of these names, each under its request.
#[derive(Drop)]
pub struct KeptRequests {
    pub(crate) names: Listed<Text>,
    pub(crate) entries: HashMap<RequestKey, KeptRequest>,
}

impl KeptRequests {
    /// Nothing is kept.
    pub fn new(alloc: Global, conditions: &Conditions) -> Result<KeptRequests, Memory>
        ensures none { IfOk result (λ table. (request : Request) → requests_at table request ≡ None) }
        ensures names { IfOk result (λ table. table.names ≡ conditions.now) }
    {
        Ok(KeptRequests {
            names: names_of(alloc, conditions)?,
            entries: HashMap::new(alloc),
        })
    }

    /// Nothing is kept any more.
    pub fn clear(&mut self)
        ensures none { (request : Request) → requests_at self.new request ≡ None }
        ensures names { self.new.names ≡ self.old.names }
    {
        self.entries.clear();
    }

    /// Whether these are the conditions.
    pub fn is_under(&self, conditions: &Conditions) -> bool
        ensures same { result ≡ pointwise bytes_eq self.now.names conditions.now }
        ensures is { Decides result (self.now.names ≡ conditions.now) }
    {
        are_same(&self.names, conditions)
    }

    /// What is kept of a request.
    pub fn get(&self, request: &RequestKey) -> Option<&KeptRequest>
        ensures get { option_copied result ≡ requests_at self.now request.now }
        ensures right { AreRequests self.now
            → IfSome (option_copied result) (λ kept. IsRequestOf self.now.names request.now kept) }
    {
        self.entries.get(request)
    }

    /// Keeps the answer to a request.
    pub fn put(&mut self, request: RequestKey, kept: KeptRequest) -> Result<(), Memory>
        ensures set { OnOk result ((other : Request) → request_looks self.new other
            ≡ put_looks is_request request kept.looks.value (request_looks self.old) other) }
        ensures same { OnErr result ((other : Request) → request_looks self.new other ≡ request_looks self.old other) }
        ensures names { self.new.names ≡ self.old.names }
        ensures right { IsRequestOf self.old.names request kept → AreRequests self.old → AreRequests self.new }
    {
        insert(&mut self.entries, request, kept)
    }
}

fn names_of(alloc: Global, conditions: &Conditions) -> Result<Listed<Text>, Memory>
    ensures { IfOk result (λ names. names ≡ conditions.now) }
{
    let mut names = Listed::new(alloc);
    for index in 0..conditions.len() {
        let Some(name) = conditions.at(index) else {
            unreachable!();
        };
        names.push(name.copy(alloc)?)?;
    }
    Ok(names)
}

fn are_same(names: &Listed<Text>, conditions: &Conditions) -> bool
    ensures { Decides result (names.now ≡ conditions.now) }
{
    if names.len() != conditions.len() {
        return false;
    }
    for index in 0..names.len() {
        if !is_same(names, conditions, index) {
            return false;
        }
    }
    true
}

fn is_same(names: &Listed<Text>, conditions: &Conditions, index: usize) -> bool
    ensures { Decides result (slice_get names.now index ≡ slice_get conditions.now index) }
{
    match names.at(index) {
        None => match conditions.at(index) {
            None => true,
            Some(_) => false,
        },
        Some(own) => match conditions.at(index) {
            None => false,
            Some(other) => own == other,
        },
    }
}

fn insert(
    entries: &mut HashMap<RequestKey, KeptRequest>,
    request: RequestKey,
    kept: KeptRequest,
) -> Result<(), Memory>
    ensures set { OnOk result ((other : Request) → map.get is_request entries.new other
        ≡ (if is_request request other then Some kept else map.get is_request entries.old other)) }
    ensures same { OnErr result ((other : Request)
        → map.get is_request entries.new other ≡ map.get is_request entries.old other) }
{
    entries.insert(request, kept)?;
    Ok(())
}
