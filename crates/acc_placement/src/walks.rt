//! Walks down a tree of holes.
ghost use Rattle.std.specs.Prelude.{◌≡◌, ◌+◌, ◌^◌, ◌<◌, ◌≤◌, [], length, IfSome, IfNone};
ghost use Rattle.acc_base.specs.Holes.{IsRising};
ghost use Rattle.acc_placement.specs.Listing.{first_from, last_before, first_large, first_large_from};
ghost use Rattle.acc_placement.specs.Nodes.{holes_in, height_of, high};

use crate::nodes::{Link, Node};
use acc_base::Steps;

/// Comes to the node at the top of a tree, if there is one, which is one step. A counted search comes to nodes by this
/// alone.
#[inline]
fn visit<'a>(tree: &'a Link, steps: &mut Steps) -> Option<&'a Node>
    requires limit { steps.old < 2 ^ 33 }
    ensures node { IfSome result (λ node. (holes_in tree.now ≡ node.now.holes) × (height_of tree.now ≡ high node.now)) }
    ensures step { IfSome result (λ node. steps.new ≡ steps.old + 1) }
    ensures none { IfNone result (holes_in tree.now ≡ []) }
    ensures no_step { IfNone result (steps.new ≡ steps.old) }
{
    match tree {
        None => None,
        Some(node) => {
            steps.tick();
            Some(node)
        }
    }
}

/// The first hole that is at least so large. Each node on the way is a step.
#[inline(always)]
pub fn find_large(tree: &Link, size: u64, steps: &mut Steps) -> Option<(u64, u64)>
    requires some { 0 < size }
    requires limit { steps.old + height_of tree.now < 2 ^ 33 }
    ensures found { result ≡ first_large size (holes_in tree.now) }
    ensures not_fewer { steps.old ≤ steps.new }
    ensures least { 0 < length (holes_in tree.now) → steps.old < steps.new }
    ensures steps { steps.new ≤ steps.old + height_of tree.now }
{
    let mut rest = tree;
    'down: while let Some(node) = visit(rest, steps) {
        if node.greatest_left >= size {
            rest = &node.left;
        } else if node.size >= size {
            return Some((node.place, node.size));
        } else {
            rest = &node.right;
        }
    }
    None
}

/// The first hole from a place on that is at least so large. Trees without one so large are not entered. So the walk
/// visits at most two other nodes at each height: one towards the place, and one towards the hole.
pub fn find_large_from(tree: &Link, place: u64, size: u64) -> Option<(u64, u64)>
    requires some { 0 < size }
    requires rising { IsRising 0 (holes_in tree.now) (2 ^ 41) }
    ensures { result ≡ first_large_from place size (holes_in tree.now) }
{
    match tree {
        None => None,
        Some(node) => {
            let node: &Node = node;
            if place <= node.place {
                if size <= node.greatest_left {
                    let found = find_large_from(&node.left, place, size);
                    if found.is_some() {
                        return found;
                    }
                }
                if node.size >= size {
                    return Some((node.place, node.size));
                }
            }
            if size <= node.greatest_right {
                find_large_from(&node.right, place, size)
            } else {
                None
            }
        }
    }
}

/// The last hole before a place and the first from it on.
pub fn find_around(tree: &Link, place: u64) -> (Option<(u64, u64)>, Option<(u64, u64)>)
    requires rising { IsRising 0 (holes_in tree.now) (2 ^ 41) }
    ensures before { result.0 ≡ last_before place (holes_in tree.now) }
    ensures from { result.1 ≡ first_from place (holes_in tree.now) }
{
    let mut before = None;
    let mut from = None;
    let mut rest = tree;
    'down: while let Some(node) = rest {
        let node: &Node = node;
        if node.place < place {
            before = Some((node.place, node.size));
            rest = &node.right;
        } else {
            from = Some((node.place, node.size));
            rest = &node.left;
        }
    }
    (before, from)
}
