//! Nodes of a tree of holes, what each keeps of the trees on its sides, and the steps that hang these on it and take
//! them off.
ghost use Rattle.std.specs.Prelude.{◌≡◌, ◌+◌, ◌^◌, ◌<◌, ◌≤◌, [], ◌∷◌, ◌++◌, max, length, Some, IfSome, IfOk};
ghost use Rattle.acc_base.specs.Holes.{greatest as greatest_of};
ghost use Rattle.acc_placement.specs.Nodes.{holes_in, height_of, length_of, IsTall, IsTree, IsLeaf, IsChain};

use std::alloc::{AllocError, Global};
use std::marker::Model;

/// A tree or a chain, which may be empty.
pub type Link = Option<Box<Node>>;

/// A node of a tree, with those that hang from it, or of a chain, with those behind it.
///
/// It keeps the greatest size and the height of the tree on each side. So a walk reads only the nodes on its way, and
/// none that hangs beside it. The heights differ by at most two, and by at most one where the node is in its tree.
#[derive(Drop)]
pub struct Node {
    pub(crate) left: Option<Box<Node>>,
    pub(crate) right: Option<Box<Node>>,
    // The greatest size in the tree on each side.
    pub(crate) greatest_left: u64,
    pub(crate) greatest_right: u64,
    pub(crate) place: u64,
    pub(crate) size: u64,
    pub(crate) height_left: u32,
    pub(crate) height_right: u32,
    // The next node of the chain that this one waits in.
    next: Option<Box<Node>>,
}

impl Model for Node {
    ghost use Rattle.acc_placement.specs.Shape.{Shape};

    ghost Value = { Shape };

    ghost use Rattle.acc_placement.specs.Nodes.{shape_of, IsNodeSound};
    ghost use Rattle.std.specs.Prelude.{◌+◌, length};

    ghost view = { shape_of };

    ghost invariant = { IsNodeSound };

    ghost size = { λ s. length s.holes + s.behind };

    ghost use Rattle.acc_placement.specs.NodeFalls.{child_le};

    ghost size_decreases = { child_le };
}

/// The height of a tree, and what it implies for the number of nodes.
pub fn height(tree: &Link) -> u32
    ensures value { result ≡ height_of tree.now }
    ensures tall { IsTree tree.now → IsTall result (length (holes_in tree.now)) }
{
    match tree {
        None => 0,
        Some(node) => {
            let node: &Node = node;
            node.height_left.max(node.height_right) + 1
        }
    }
}

/// What the height of a tree implies for the number of nodes. Nothing is done.
pub fn height_law(tree: &Link)
    requires { IsTree tree.now }
    ensures { IsTall (height_of tree.now) (length (holes_in tree.now)) }
{
    let _ = height(tree);
}

/// The greatest size in a tree.
pub fn greatest(tree: &Link) -> u64
    ensures { result ≡ greatest_of (holes_in tree.now) }
{
    match tree {
        None => 0,
        Some(node) => {
            let node: &Node = node;
            let beside = node.greatest_left.max(node.greatest_right);
            beside.max(node.size)
        }
    }
}

/// Takes the subtrees off a node.
pub fn split(mut node: Box<Node>) -> (Link, Box<Node>, Link)
    requires alone { node.value.behind ≡ 0 }
    ensures holes { node.value.holes ≡ holes_in result.0 ++ result.1.value.holes ++ holes_in result.2 }
    ensures leaf { IsLeaf result.1.value }
    ensures place { result.1.value.place ≡ node.value.place }
    ensures left { node.value.left ≡ height_of result.0 }
    ensures right { node.value.right ≡ height_of result.2 }
    ensures trees { IsTree result.0 × IsTree result.2 }
{
    let n = &mut *node;
    let left = n.left.take();
    let right = n.right.take();
    n.greatest_left = 0;
    n.greatest_right = 0;
    n.height_left = 0;
    n.height_right = 0;
    (left, node, right)
}

/// Puts two subtrees on a node.
pub fn join(left: Link, mut node: Box<Node>, right: Link) -> Box<Node>
    requires leaf { IsLeaf node.value }
    requires trees { IsTree left × IsTree right }
    requires not_left { height_of left ≤ height_of right + 2 }
    requires not_right { height_of right ≤ height_of left + 2 }
    requires limit { max (height_of left) (height_of right) < 2 ^ 31 }
    ensures holes { result.value.holes ≡ holes_in left ++ node.value.holes ++ holes_in right }
    ensures left { result.value.left ≡ height_of left }
    ensures right { result.value.right ≡ height_of right }
    ensures alone { result.value.behind ≡ 0 }
{
    let n = &mut *node;
    n.greatest_left = greatest(&left);
    n.greatest_right = greatest(&right);
    n.height_left = height(&left);
    n.height_right = height(&right);
    n.left = left;
    n.right = right;
    node
}

/// Writes a hole into a node without subtrees.
pub fn write(mut node: Box<Node>, hole: (u64, u64)) -> Box<Node>
    requires leaf { IsLeaf node.value }
    ensures holes { result.value.holes ≡ hole ∷ [] }
    ensures leaf { IsLeaf result.value }
{
    let n = &mut *node;
    n.place = hole.0;
    n.size = hole.1;
    node
}

/// A node of its own, or `None` where there is no memory.
pub fn new_node(alloc: Global) -> Option<Box<Node>>
    ensures leaf { IfSome result (λ node. IsLeaf node.value) }
{
    let node = Node {
        left: None,
        right: None,
        next: None,
        greatest_left: 0,
        greatest_right: 0,
        place: 0,
        size: 0,
        height_left: 0,
        height_right: 0,
    };
    match Box::new(alloc, node) {
        Ok(node) => Some(node),
        Err(_) => None,
    }
}

/// Copies a tree into nodes of its own.
///
/// # Errors
///
/// [`AllocError`] where there is no memory for them.
pub fn copy(tree: &Link, alloc: Global) -> Result<Link, AllocError>
    requires is_tree { IsTree tree.now }
    ensures holes { IfOk result (λ copy. holes_in copy ≡ holes_in tree.now) }
    ensures height { IfOk result (λ copy. height_of copy ≡ height_of tree.now) }
    ensures is_tree { IfOk result IsTree }
{
    let Some(top) = tree else { return Ok(None) };
    let top: &Node = top;
    let node = Node {
        left: copy(&top.left, alloc)?,
        right: copy(&top.right, alloc)?,
        next: None,
        ..*top
    };
    Ok(Some(Box::new(alloc, node)?))
}

/// Puts a node without subtrees before a chain.
pub fn push(chain: Link, mut node: Box<Node>) -> Link
    requires leaf { IsLeaf node.value }
    requires chain { IsChain chain }
    ensures length { length_of result ≡ length_of chain + 1 }
    ensures chain { IsChain result }
{
    let n = &mut *node;
    n.next = chain;
    Some(node)
}

/// The first node of a chain, and the others.
pub fn pop(mut chain: Box<Node>) -> (Box<Node>, Link)
    requires chain { IsChain (Some chain) }
    ensures leaf { IsLeaf result.0.value }
    ensures chain { IsChain result.1 }
    ensures length { chain.value.behind ≡ length_of result.1 }
{
    let n = &mut *chain;
    let next = n.next.take();
    (chain, next)
}
