ghost use Rattle.std.specs.Prelude.{◌≡◌, ◌==◌, List, [], length, slice_get, option_copied, option_map, is_ok, IfOk};
ghost use Rattle.ordered_json.specs.Lists.{pushed, values_of, pairs_of};

use shared_types::{Memory, Text};
use std::alloc::Global;

/// A JSON value, with the members of each object in their order.
#[cycle(value)]
#[derive(Drop)]
pub enum Value {
    Null,
    Bool(bool),
    /// A number as it was written.
    Number(Text),
    Text(Text),
    List(Items),
    Object(Members),
}

/// The values of a list.
#[cycle(value)]
#[derive(Drop)]
pub struct Items {
    values: Vec<Value>,
}

/// The members of an object: pairs of a key and a value.
#[cycle(value)]
#[derive(Drop)]
pub struct Members {
    pairs: Vec<(Text, Value)>,
}

impl Value {
    ghost use Rattle.std.specs.Prelude.{◌≡◌, ◌↔◌, IsTrue, MatchOption};
    ghost use Rattle.json_spec.specs.Value.{a_null, a_list, an_object};
    ghost use Rattle.ordered_json.specs.Lists.{values_of, pairs_of};
    ghost use Rattle.ordered_json.specs.Shown.{json_of, items_of, members_of, IsNoList, IsNoObject};

    /// Whether it is `null`.
    pub fn is_null(&self) -> bool
        ensures { IsTrue result ↔ (json_of self.now ≡ a_null) }
    {
        match self {
            Value::Null => true,
            Value::Bool(_) => false,
            Value::Number(_) => false,
            Value::Text(_) => false,
            Value::List(_) => false,
            Value::Object(_) => false,
        }
    }

    /// The list that it is.
    pub fn as_list(&self) -> Option<&Items>
        ensures { MatchOption result (IsNoList (json_of self.now))
            (λ list. json_of self.now ≡ a_list (items_of (values_of list.now))) }
    {
        match self {
            Value::List(items) => Some(items),
            Value::Null => None,
            Value::Bool(_) => None,
            Value::Number(_) => None,
            Value::Text(_) => None,
            Value::Object(_) => None,
        }
    }

    /// The members of the object that it is.
    pub fn as_object(&self) -> Option<&Members>
        ensures { MatchOption result (IsNoObject (json_of self.now))
            (λ object. json_of self.now ≡ an_object (members_of (pairs_of object.now))) }
    {
        match self {
            Value::Object(members) => Some(members),
            Value::Null => None,
            Value::Bool(_) => None,
            Value::Number(_) => None,
            Value::Text(_) => None,
            Value::List(_) => None,
        }
    }
}

impl Items {
    /// The values of a `Vec`, which is moved.
    pub(crate) fn from_vec(values: Vec<Value>) -> Items
        ensures { values_of result ≡ values.items }
    {
        Items { values }
    }

    /// The empty list.
    pub fn new(alloc: Global) -> Items
        ensures { values_of result ≡ [] }
    {
        Items {
            values: Vec::new(alloc),
        }
    }

    /// Puts a value at the end. Without memory the list stays as it was.
    pub fn push(&mut self, item: Value) -> Result<(), Memory>
        ensures { values_of self.new ≡ pushed (is_ok result) (values_of self.old) item }
    {
        self.values.push(item)?;
        Ok(())
    }

    /// The number of values.
    pub fn len(&self) -> usize
        ensures { result ≡ length (values_of self.now) }
    {
        self.values.as_slice().len()
    }

    /// Whether there is no value.
    pub fn is_empty(&self) -> bool
        ensures { result ≡ (length (values_of self.now) == 0) }
    {
        self.values.as_slice().is_empty()
    }

    /// The value with this number, counted from 0.
    pub fn at(&self, index: usize) -> Option<&Value>
        ensures { option_copied result ≡ slice_get (values_of self.now) index }
    {
        self.values.as_slice().get(index)
    }
}

impl Members {
    /// The members of a `Vec`, which is moved.
    pub(crate) fn from_vec(pairs: Vec<(Text, Value)>) -> Members
        ensures { pairs_of result ≡ pairs.items }
    {
        Members { pairs }
    }

    /// The pairs of these members, which are moved out.
    pub fn into_pairs(self) -> Result<Vec<(Text, Value)>, Memory>
        ensures { IfOk result (λ pairs. pairs.items ≡ pairs_of self) }
    {
        let Members { pairs } = self;
        Ok(pairs)
    }

    /// The empty list.
    pub fn new(alloc: Global) -> Members
        ensures { pairs_of result ≡ [] }
    {
        Members {
            pairs: Vec::new(alloc),
        }
    }

    /// Puts a member at the end, whatever keys are there. Without memory the list stays as it was.
    pub fn push(&mut self, key: Text, value: Value) -> Result<(), Memory>
        ensures { pairs_of self.new ≡ pushed (is_ok result) (pairs_of self.old) (key, value) }
    {
        self.pairs.push((key, value))?;
        Ok(())
    }

    /// The number of members.
    pub fn len(&self) -> usize
        ensures { result ≡ length (pairs_of self.now) }
    {
        self.pairs.as_slice().len()
    }

    /// Whether there is no member.
    pub fn is_empty(&self) -> bool
        ensures { result ≡ (length (pairs_of self.now) == 0) }
    {
        self.pairs.as_slice().is_empty()
    }

    /// The member with this number, counted from 0: its key and its value.
    pub fn at(&self, index: usize) -> Option<(&Text, &Value)>
        ensures { option_map (λ p. (p.0.now, p.1.now)) result ≡ slice_get (pairs_of self.now) index }
    {
        match self.pairs.as_slice().get(index) {
            None => None,
            Some(pair) => Some((&pair.0, &pair.1)),
        }
    }

    /// Lends the pairs.
    pub fn as_slice(&self) -> &[(Text, Value)]
        ensures { result.now ≡ pairs_of self.now }
    {
        self.pairs.as_slice()
    }
}
