//! The walk over two values.
ghost use Rattle.std.specs.Prelude.{◌≡◌, ◌∷◌, IfOk};
ghost use Rattle.smithy_compare.specs.FirstPath.{first_in};
ghost use Rattle.smithy_compare.specs.View.{step_of, path_of, found_path};
ghost use Rattle.smithy_compare.specs.Private.Nodes.{node_tree, step_at, parts_of};
ghost use Rattle.smithy_compare.specs.Private.Pairs.{IsNextPair};
ghost use Rattle.smithy_compare.specs.Private.Standing.{NodeStands, PartsStand, PairStands};

use crate::node::Node;
use crate::parts::{Label, Parts};
use crate::path::PathPart;
use std::alloc::{AllocError, Global};
use std::cmp::Ordering;

/// What comes next in two containers.
#[derive(Clone, Copy)]
pub enum Pair<'v> {
    /// Nothing in either.
    End,
    /// A part that one alone has.
    Alone(Label<'v>),
    /// A part that both have.
    Both(Label<'v>, Node<'v>, Node<'v>),
}

// What comes next in two containers of which all that was given before is in both.
fn next_pair<'v>(left: &mut Parts<'v>, right: &mut Parts<'v>) -> Pair<'v>
    requires left { PartsStand left.old }
    requires right { PartsStand right.old }
    ensures next { IsNextPair (parts_of left.old) (parts_of right.old) result (parts_of left.new) (parts_of right.new) }
    ensures stands { PairStands result left.new right.new }
{
    let Some((label, node)) = left.next_part() else {
        return match right.next_part() {
            None => Pair::End,
            Some((other, _)) => Pair::Alone(other),
        };
    };
    let Some((other, other_node)) = right.next_part() else {
        return Pair::Alone(label);
    };
    match label.order(&other) {
        Ordering::Less => Pair::Alone(label),
        Ordering::Equal => Pair::Both(label, node, other_node),
        Ordering::Greater => Pair::Alone(other),
    }
}

// The step as a part of a path.
fn part_of(alloc: Global, label: &Label<'_>) -> Result<PathPart, AllocError>
    ensures { IfOk result (λ p. step_of p ≡ step_at label.now) }
{
    match label {
        Label::Member(position) => Ok(PathPart::Member(*position)),
        Label::Element(index) => Ok(PathPart::Element(*index as u64)),
        Label::Key(key) => Ok(PathPart::Key(String::from_str(alloc, *key)?)),
    }
}

// The path with one step more in front.
fn behind(
    alloc: Global,
    label: &Label<'_>,
    path: Vec<PathPart>,
) -> Result<Vec<PathPart>, AllocError>
    ensures { IfOk result (λ p. path_of p ≡ step_at label.now ∷ path_of path) }
{
    let mut longer = path;
    longer.insert(0, part_of(alloc, label)?)?;
    Ok(longer)
}

// The first path at which two values differ.
#[cycle(walk)]
pub(crate) fn first_difference(
    alloc: Global,
    left: &Node<'_>,
    right: &Node<'_>,
) -> Result<Option<Vec<PathPart>>, AllocError>
    requires left { NodeStands left.now }
    requires right { NodeStands right.now }
    ensures { IfOk result (λ found. found_path found ≡ first_in (node_tree left.now) (node_tree right.now)) }
{
    let (top, mut parts) = left.split();
    let (other_top, mut other_parts) = right.split();
    if !top.is(&other_top) {
        return Ok(Some(Vec::new(alloc)));
    }
    loop {
        match &next_pair(&mut parts, &mut other_parts) {
            Pair::End => return Ok(None),
            Pair::Alone(label) => return Ok(Some(behind(alloc, label, Vec::new(alloc))?)),
            Pair::Both(label, inner, other) => {
                if let Some(path) = first_difference(alloc, inner, other)? {
                    return Ok(Some(behind(alloc, label, path)?));
                }
            }
        }
    }
}
