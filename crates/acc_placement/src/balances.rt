//! Turning a tree whose sides differ too much in height, so that it is balanced.
ghost use Rattle.std.specs.Prelude.{◌≡◌, ◌+◌, ◌^◌, ◌<◌, ◌≤◌, ◌++◌, max, IsSome, Some};
ghost use Rattle.acc_placement.specs.Nodes.{holes_in, height_of, high, IsTree, IsEven, IsLeaf, IsLowered};

use crate::nodes::{Link, Node, greatest, height, join, split};

/// Turns a tree whose sides differ in height by two, and leaves each other as it is.
#[inline]
pub fn balance(top: Box<Node>) -> Box<Node>
    requires alone { top.value.behind ≡ 0 }
    requires limit { high top.value < 2 ^ 30 }
    ensures holes { result.value.holes ≡ top.value.holes }
    ensures is_tree { IsTree (Some result) }
    ensures height { IsLowered (high top.value) (high result.value) }
    ensures even { IsEven top.value → high result.value ≡ high top.value }
{
    let (left, right) = (top.height_left, top.height_right);
    if left > right + 1 {
        turn_from_left(top)
    } else if right > left + 1 {
        turn_from_right(top)
    } else {
        top
    }
}

/// Turns a tree of which the left side is higher by two.
fn turn_from_left(top: Box<Node>) -> Box<Node>
    requires alone { top.value.behind ≡ 0 }
    requires two_higher { top.value.left ≡ top.value.right + 2 }
    requires limit { top.value.left < 2 ^ 30 }
    ensures holes { result.value.holes ≡ top.value.holes }
    ensures is_tree { IsTree (Some result) }
    ensures not_lower { top.value.left ≤ high result.value }
    ensures not_higher { high result.value ≤ top.value.left + 1 }
{
    let (left, top, right) = split(top);
    let Some(left) = left else { unreachable!() };
    let (outer, middle, inner) = split(left);
    if height(&outer) >= height(&inner) {
        let low = join(inner, top, right);
        return join(outer, middle, Some(low));
    }
    let Some(inner) = inner else { unreachable!() };
    let (before, turned, after) = split(inner);
    let low = join(outer, middle, before);
    let high = join(after, top, right);
    join(Some(low), turned, Some(high))
}

/// Turns a tree of which the right side is higher by two.
fn turn_from_right(top: Box<Node>) -> Box<Node>
    requires alone { top.value.behind ≡ 0 }
    requires two_higher { top.value.right ≡ top.value.left + 2 }
    requires limit { top.value.right < 2 ^ 30 }
    ensures holes { result.value.holes ≡ top.value.holes }
    ensures is_tree { IsTree (Some result) }
    ensures not_lower { top.value.right ≤ high result.value }
    ensures not_higher { high result.value ≤ top.value.right + 1 }
{
    let (left, top, right) = split(top);
    let Some(right) = right else { unreachable!() };
    let (inner, middle, outer) = split(right);
    if height(&outer) >= height(&inner) {
        let low = join(left, top, inner);
        return join(Some(low), middle, outer);
    }
    let Some(inner) = inner else { unreachable!() };
    let (before, turned, after) = split(inner);
    let low = join(left, top, before);
    let high = join(after, middle, outer);
    join(Some(low), turned, Some(high))
}

/// Takes the first node out of a tree, which has one. Nodes on the way change in place, but for those that turn.
fn take_first(tree: &mut Link) -> Box<Node>
    requires is_tree { IsTree tree.old }
    requires some { IsSome tree.old }
    requires limit { height_of tree.old < 2 ^ 30 }
    ensures leaf { IsLeaf result.value }
    ensures holes { holes_in tree.old ≡ result.value.holes ++ holes_in tree.new }
    ensures is_tree { IsTree tree.new }
    ensures height { IsLowered (height_of tree.old) (height_of tree.new) }
{
    let Some(mut top) = tree.take() else {
        unreachable!()
    };
    let n = &mut *top;
    if n.left.is_none() {
        *tree = n.right.take();
        n.greatest_right = 0;
        n.height_right = 0;
        return top;
    }
    let first = take_first(&mut n.left);
    n.greatest_left = greatest(&n.left);
    n.height_left = height(&n.left);
    *tree = Some(balance(top));
    first
}

/// Joins two trees without a node between them.
pub fn merge(left: Link, mut right: Link) -> Link
    requires trees { IsTree left × IsTree right }
    requires not_left { height_of left ≤ height_of right + 1 }
    requires not_right { height_of right ≤ height_of left + 1 }
    requires limit { max (height_of left) (height_of right) < 2 ^ 29 }
    ensures holes { holes_in result ≡ holes_in left ++ holes_in right }
    ensures is_tree { IsTree result }
    ensures height { IsLowered (max (height_of left) (height_of right) + 1) (height_of result) }
{
    if right.is_none() {
        return left;
    }
    let first = take_first(&mut right);
    Some(balance(join(left, first, right)))
}
