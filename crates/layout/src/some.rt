ghost use Rattle.std.specs.Prelude.{◌≡◌, IfOk, IfErr, OnOk, Contains};
ghost use Rattle.fewest_spec.specs.Making.{put_text};
ghost use Rattle.fewest_spec.specs.Wishes.{HasManyChoices};
ghost use Rattle.layout.specs.declared.fault.LayoutFault.TheVariants.{TooManyChoices};
ghost use Rattle.layout.specs.Groups.{IsAsking, IsGroupLaid, IsNodesLaid};
ghost use Rattle.layout.specs.Laid.{laid_map};

use crate::choose::choose;
use crate::fault::LayoutFault;
use crate::group::targets_of;
use crate::laid::Laid;
use crate::settle::settled;
use place_nodes::{Node, Row, nodes_of, number_of};
use shared_types::{Memory, Text};
use std::alloc::Global;
use std::collections::BTreeSet;

/// Lays what is chosen for a specifier.
pub(crate) fn lay_some(
    alloc: Global,
    laid: &mut Laid,
    asked: &Text,
    group: &[Row],
) -> Result<(), LayoutFault>
    requires { IsAsking asked.now group.now }
    ensures laid { OnOk result (IsGroupLaid asked.now group.now (laid_map laid.old) (laid_map laid.new)) }
    ensures many { IfErr result (λ fault. fault ≡ TooManyChoices → HasManyChoices group.now asked.now) }
{
    let targets = targets_of(alloc, group)?;
    let width = targets.len();
    let texts = with_asked(alloc, targets, asked)?;
    match nodes_of(alloc, group, texts.as_slice(), width)? {
        None => Err(LayoutFault::TooManyChoices),
        Some(nodes) => {
            lay_nodes(alloc, laid, asked, texts.as_slice(), nodes.as_slice())?;
            Ok(())
        }
    }
}

// The specifier stands among the targets, since it is what a referrer gets where no place holds any.
fn with_asked(alloc: Global, mut targets: BTreeSet<Text>, asked: &Text) -> Result<Vec<Text>, Memory>
    ensures { IfOk result (λ texts. texts.items ≡ put_text asked.now targets.keys) }
{
    targets.insert(asked.copy(alloc)?)?;
    Ok(targets.into_iter().collect(alloc)?)
}

fn lay_nodes(
    alloc: Global,
    laid: &mut Laid,
    asked: &Text,
    targets: &[Text],
    nodes: &[Node],
) -> Result<(), Memory>
    requires { Contains targets.now asked.now }
    ensures { OnOk result (IsNodesLaid asked.now targets.now nodes.now (laid_map laid.old) (laid_map laid.new)) }
{
    let Some(own) = number_of(targets, asked) else {
        return Ok(());
    };
    let rows = settled(alloc, nodes, targets.len())?;
    choose(alloc, laid, asked, targets, own, nodes, rows)
}
