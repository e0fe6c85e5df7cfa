ghost use Rattle.std.specs.Prelude.{◌≡◌, ◌↔◌, ◌==◌, ◌∷◌, true, All, IfOk, IsTrue, MatchResult, bytes_eq, length};
ghost use Rattle.std.specs.Prelude.{slice_get, option_copied, option_map};
ghost use Rattle.std.specs.List.{list_any, slice_split};
ghost use Rattle.node_spec.specs.Conditions.{names_in, is_name_byte, IsCondition, AreConditions};
ghost use Rattle.condition_match.specs.Names.{names_left};

use crate::cuts::cut_once;
use shared_types::{Listed, Memory, Text};
use std::alloc::{AllocError, Global};
use std::marker::Model;

/// The names of the conditions that hold beside `default`, in the order in which they were given.
#[derive(Drop)]
pub struct Conditions {
    names: Listed<Text>,
}

/// Why a text gives no conditions.
#[derive(Clone, Copy, Debug, PartialEq, Eq)]
pub enum ConditionsFault {
    /// There are more than 32 names, one stands twice, or one can't be a condition.
    BadConditions,
    /// Want of memory.
    Memory,
}

impl From<AllocError> for ConditionsFault {
    ghost use Rattle.std.specs.Prelude.{◌≡◌};
    ghost use Rattle.condition_match.specs.declared.conditions.ConditionsFault.TheVariants.{Memory};

    ghost from_gives = { λ _ fault. fault ≡ Memory };

    fn from(_: AllocError) -> ConditionsFault {
        ConditionsFault::Memory
    }
}

impl Model for Conditions {
    ghost use Rattle.std.specs.Prelude.{List, ℕ};
    ghost use Rattle.node_spec.specs.Conditions.{AreConditions};

    ghost Value = { List (List ℕ) };

    ghost view = { λ c. c.names };

    ghost invariant = { λ c. AreConditions c.names };
}

impl Conditions {
    /// The conditions that a text names, between commas; the empty text names none.
    pub fn parse(alloc: Global, text: &str) -> Result<Conditions, ConditionsFault>
        ensures names { MatchResult result (λ conditions. conditions ≡ names_in text.now)
            (λ fault. fault ≡ ConditionsFault.BadConditions → AreConditions (names_in text.now) → ⊥) }
        ensures allowed { IfOk result AreConditions }
    {
        let mut names = Listed::new(alloc);
        if text.is_empty() {
            return Ok(Conditions { names });
        }
        let mut rest = Some(text);
        while let Some(left) = rest {
            let (name, more) = cut_name(left);
            if names.len() == 32 {
                return Err(ConditionsFault::BadConditions);
            }
            if !is_condition(name) {
                return Err(ConditionsFault::BadConditions);
            }
            if holds(&names, name) {
                return Err(ConditionsFault::BadConditions);
            }
            names.push(Text::of(alloc, name)?)?;
            rest = more;
        }
        Ok(Conditions { names })
    }

    /// The number of names.
    pub fn len(&self) -> usize
        ensures length { result ≡ length self.now }
        ensures conditions { AreConditions self.now }
    {
        self.names.len()
    }

    /// The name with this number, counted from 0.
    pub fn at(&self, index: usize) -> Option<&Text>
        ensures { option_copied result ≡ slice_get self.now index }
    {
        self.names.at(index)
    }

    /// An equal one.
    pub fn copy(&self, alloc: Global) -> Result<Conditions, Memory>
        ensures { IfOk result (λ copy. copy ≡ self.now) }
    {
        let names = copy_of(alloc, self.names.as_slice())?;
        Ok(Conditions { names })
    }

    /// Whether they are these, in the same order.
    pub fn is_same(&self, other: &Conditions) -> bool
        ensures { IsTrue result → self.now ≡ other.now }
    {
        are_same(&self.names, &other.names)
    }

    /// Whether this name is among them.
    pub(crate) fn holds(&self, name: &str) -> bool
        ensures { result ≡ list_any (bytes_eq name.now) self.now }
    {
        holds(&self.names, name)
    }
}

fn copy_of(alloc: Global, names: &[Text]) -> Result<Listed<Text>, Memory>
    ensures { IfOk result (λ copy. copy ≡ names.now) }
{
    let mut copy = Listed::new(alloc);
    for name in names {
        copy.push(name.copy(alloc)?)?;
    }
    Ok(copy)
}

fn are_same(names: &Listed<Text>, other: &Listed<Text>) -> bool
    ensures { IsTrue result → names.now ≡ other.now }
{
    names.as_slice() == other.as_slice()
}

fn holds(names: &Listed<Text>, name: &str) -> bool
    ensures { result ≡ list_any (bytes_eq name.now) names.now }
{
    names.as_slice().iter().any(|own| name == own.as_str())
}

// The name before the first comma, and what stands behind that.
fn cut_name(text: &str) -> (&str, Option<&str>)
    ensures { slice_split (λ b. b == 44) text.now ≡ result.0.now ∷ names_left (option_map (λ rest. rest.now) result.1) }
{
    match cut_once(text, ',') {
        Some((name, rest)) => (name, Some(rest)),
        None => (text, None),
    }
}

fn is_condition(name: &str) -> bool
    ensures { IsTrue result ↔ IsCondition name.now }
{
    if name.is_empty() || name.len() > 64 || name == "default" {
        return false;
    }
    is_plain(name.as_bytes())
}

fn is_plain(name: &[u8]) -> bool
    ensures { IsTrue result ↔ All (λ b. is_name_byte b ≡ true) name.now }
{
    name.iter().all(|byte| is_name_byte(*byte))
}

fn is_name_byte(byte: u8) -> bool
    ensures { result ≡ is_name_byte byte }
{
    byte.is_ascii_alphanumeric() || byte == b'-' || byte == b'_'
}
