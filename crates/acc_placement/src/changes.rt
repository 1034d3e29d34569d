//! Holes put into a tree, changed in it and taken out of it.
ghost use Rattle.std.specs.Prelude.{◌≡◌, ◌+◌, ◌^◌, ◌<◌, ◌≤◌, length, Some, IsSome, IfSome};
ghost use Rattle.acc_base.specs.Holes.{IsRising, greatest as greatest_of};
ghost use Rattle.acc_placement.specs.Listing.{at_place, first_large, with_hole, with_hole_moved, without_place, without_front};
ghost use Rattle.acc_placement.specs.Nodes.{holes_in, height_of, IsTree, IsLeaf, IsLowered};

use crate::balances::{balance, merge};
use crate::nodes::{Link, Node, greatest, height, split, write};

/// Puts a hole into a tree, in a node that waits. Nodes on the way change in place, but for those that turn.
pub fn insert(tree: &mut Link, node: Box<Node>, hole: (u64, u64))
    requires leaf { IsLeaf node.value }
    requires is_tree { IsTree tree.old }
    requires limit { height_of tree.old < 2 ^ 29 }
    requires rising { IsRising 0 (holes_in tree.old) (2 ^ 41) }
    ensures holes { holes_in tree.new ≡ with_hole hole (holes_in tree.old) }
    ensures is_tree { IsTree tree.new }
    ensures not_lower { height_of tree.old ≤ height_of tree.new }
    ensures not_higher { height_of tree.new ≤ height_of tree.old + 1 }
{
    let Some(mut top) = tree.take() else {
        *tree = Some(write(node, hole));
        return;
    };
    let n = &mut *top;
    if hole.0 < n.place {
        insert(&mut n.left, node, hole);
        n.greatest_left = greatest(&n.left);
        n.height_left = height(&n.left);
    } else {
        insert(&mut n.right, node, hole);
        n.greatest_right = greatest(&n.right);
        n.height_right = height(&n.right);
    }
    *tree = Some(balance(top));
}

/// Takes the node of a place out of a tree. Nodes on the way change in place, but for those that turn.
pub fn remove(tree: &mut Link, place: u64) -> Box<Node>
    requires is_tree { IsTree tree.old }
    requires limit { height_of tree.old < 2 ^ 29 }
    requires rising { IsRising 0 (holes_in tree.old) (2 ^ 41) }
    requires there { IsSome (at_place place (holes_in tree.old)) }
    ensures leaf { IsLeaf result.value }
    ensures holes { holes_in tree.new ≡ without_place place (holes_in tree.old) }
    ensures length { length (holes_in tree.new) + 1 ≡ length (holes_in tree.old) }
    ensures is_tree { IsTree tree.new }
    ensures height { IsLowered (height_of tree.old) (height_of tree.new) }
{
    let Some(mut top) = tree.take() else {
        unreachable!()
    };
    let n = &mut *top;
    let here = n.place;
    if place == here {
        let (left, node, right) = split(top);
        *tree = merge(left, right);
        return node;
    }
    let freed = if place < here {
        let freed = remove(&mut n.left, place);
        n.greatest_left = greatest(&n.left);
        n.height_left = height(&n.left);
        freed
    } else {
        let freed = remove(&mut n.right, place);
        n.greatest_right = greatest(&n.right);
        n.height_right = height(&n.right);
        freed
    };
    *tree = Some(balance(top));
    freed
}

/// Writes another place and a size that is no less at a place that is there. The greatest sizes are raised on the way
/// down, so nothing is left to do on a way up.
pub fn grow(tree: &mut Link, place: u64, to: u64, size: u64)
    requires is_tree { IsTree tree.old }
    requires rising { IsRising 0 (holes_in tree.old) (2 ^ 41) }
    requires there { IsSome (at_place place (holes_in tree.old)) }
    requires not_less { IfSome (at_place place (holes_in tree.old)) (λ h. h.1 ≤ size) }
    ensures holes { holes_in tree.new ≡ with_hole_moved place to size (holes_in tree.old) }
    ensures is_tree { IsTree tree.new }
    ensures height { height_of tree.new ≡ height_of tree.old }
{
    let Some(node) = tree else { unreachable!() };
    let node: &mut Node = node;
    if place < node.place {
        node.greatest_left = node.greatest_left.max(size);
        grow(&mut node.left, place, to, size);
    } else if node.place < place {
        node.greatest_right = node.greatest_right.max(size);
        grow(&mut node.right, place, to, size);
    } else {
        node.place = to;
        node.size = size;
    }
}

/// Takes the first `size` bytes of the first hole that is so large, where it is larger, and returns how it was. A hole
/// that is just so large stays, and its node is to be taken out. No node moves here.
pub fn cut_front(tree: &mut Link, size: u64) -> (u64, u64)
    requires is_tree { IsTree tree.old }
    requires rising { IsRising 0 (holes_in tree.old) (2 ^ 41) }
    requires some { 0 < size }
    requires fits { size ≤ greatest_of (holes_in tree.old) }
    ensures hole { first_large size (holes_in tree.old) ≡ Some result }
    ensures cut { size < result.1 → holes_in tree.new ≡ without_front size (holes_in tree.old) }
    ensures whole { result.1 ≡ size → holes_in tree.new ≡ holes_in tree.old }
    ensures length { length (holes_in tree.new) ≡ length (holes_in tree.old) }
    ensures is_tree { IsTree tree.new }
    ensures height { height_of tree.new ≡ height_of tree.old }
{
    let Some(node) = tree else { unreachable!() };
    let node: &mut Node = node;
    if node.greatest_left >= size {
        let hole = cut_front(&mut node.left, size);
        node.greatest_left = greatest(&node.left);
        hole
    } else if node.size < size {
        let hole = cut_front(&mut node.right, size);
        node.greatest_right = greatest(&node.right);
        hole
    } else {
        let hole = (node.place, node.size);
        if node.size > size {
            node.place += size;
            node.size -= size;
        }
        hole
    }
}
