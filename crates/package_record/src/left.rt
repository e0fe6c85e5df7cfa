//! What is left of the targets in `exports` or `imports` under some conditions.
ghost use Rattle.std.specs.Prelude.{IfOk};
ghost use Rattle.package_record.specs.Targets.{AreLeft, AreLeftOf, IsLeftOf};

use condition_match::{Conditions, reduced_target};
use ordered_json::{Text, Value};
use shared_types::Memory;
use std::alloc::Global;

/// What is left of a value under some conditions, as a target and by its members.
#[derive(Drop)]
pub struct LeftTargets {
    /// The conditions.
    pub(crate) conditions: Conditions,
    /// What is left of the value itself.
    pub(crate) whole: Value,
    /// What is left of the value of each member, where it is an object.
    pub(crate) targets: Vec<Value>,
}

/// What is left of a value under these conditions.
pub(crate) fn left_of(
    alloc: Global,
    value: &Value,
    conditions: &Conditions,
    imports: bool,
) -> Result<LeftTargets, Memory>
    ensures { IfOk result (IsLeftOf imports value.now) }
{
    let whole = reduced_target(alloc, value, conditions, imports)?;
    let targets = targets_of(alloc, value, conditions, imports)?;
    let conditions = conditions.copy(alloc)?;
    Ok(LeftTargets {
        conditions,
        whole,
        targets,
    })
}

fn targets_of(
    alloc: Global,
    value: &Value,
    conditions: &Conditions,
    imports: bool,
) -> Result<Vec<Value>, Memory>
    ensures { IfOk result (λ made. AreLeftOf conditions.now imports value.now made.items) }
{
    match value {
        Value::Object(members) => each_left(alloc, members.as_slice(), conditions, imports),
        Value::Null => Ok(Vec::new(alloc)),
        Value::Bool(_) => Ok(Vec::new(alloc)),
        Value::Number(_) => Ok(Vec::new(alloc)),
        Value::Text(_) => Ok(Vec::new(alloc)),
        Value::List(_) => Ok(Vec::new(alloc)),
    }
}

fn each_left(
    alloc: Global,
    pairs: &[(Text, Value)],
    conditions: &Conditions,
    imports: bool,
) -> Result<Vec<Value>, Memory>
    ensures { IfOk result (λ made. AreLeft conditions.now imports pairs.now made.items) }
{
    let mut made = Vec::with_capacity(alloc, pairs.len())?;
    for pair in pairs {
        let target = reduced_target(alloc, &pair.1, conditions, imports)?;
        made.push(target)?;
    }
    Ok(made)
}
