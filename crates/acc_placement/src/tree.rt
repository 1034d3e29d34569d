//! A balanced tree of holes, each found by its place in a walk from the top.
ghost use Rattle.std.specs.Prelude.{◌≡◌, ℕ, ◌+◌, ◌*◌, ◌^◌, ◌<◌, ◌≤◌, [], length, Some, IsSome, IfErr, OnOk, OnErr, MatchBool};
ghost use Rattle.acc_base.specs.Holes.{IsRising, greatest as greatest_of};
ghost use Rattle.acc_placement.specs.Listing.{at_place, first_from, last_before, first_large, first_large_from, with_hole, with_hole_moved, without_place, without_front};
ghost use Rattle.acc_placement.specs.Changes.{MayGrow};
ghost use Rattle.acc_placement.specs.Nodes.{length_of, IsChain};

use crate::nodes::{Link, copy, height_law, new_node, pop, push};
use crate::{changes, nodes, walks};
use acc_base::{Fault, Steps};
use std::alloc::{AllocError, Global};
use std::marker::Model;

/// Holes by rising place, each its place and its size in bytes, and nodes that wait for more of them. No two holes
/// touch, and all end at 2^41 at most.
///
/// Memory is asked for by [`Tree::reserve`] and `clone` alone: a hole goes into a node that waits, and its node waits
/// again once it is removed. Contracts see a tree as the list of its holes, and how many more there is room for.
///
/// A walk visits at most two nodes for each binary digit of the number of holes. Two calls go down twice, so they visit
/// at most four: [`Tree::first_fit_from`], and [`Tree::take_front`] where nothing of the hole is left.
pub struct Tree {
    alloc: Global,
    root: Link,
    spare: Link,
    len: u64,
    // How many there are in the tree and in the chain.
    nodes: u64,
}

impl Model for Tree {
    ghost use Rattle.acc_placement.specs.Listing.{Listing};

    ghost Value = { Listing };

    ghost use Rattle.acc_placement.specs.Trees.{listing_of, IsTreeSound};

    ghost view = { listing_of };

    ghost invariant = { IsTreeSound };
}

impl Drop for Tree {
    fn drop(mut self) {
        drop_chain(self.spare.take());
        let Tree {
            alloc: _,
            root: _,
            spare: _,
            len: _,
            nodes: _,
        } = self;
    }
}

impl Clone for Tree {
    ghost is_clone = { λ tree copy. copy.holes ≡ tree.holes };

    /// A tree of the same holes, without room.
    ///
    /// # Errors
    ///
    /// [`AllocError`] where there is no memory for its nodes.
    fn clone(&self) -> Result<Tree, AllocError> {
        Ok(Tree {
            root: copy(&self.root, self.alloc)?,
            spare: None,
            nodes: self.len,
            ..*self
        })
    }
}

impl Tree {
    /// A tree without holes and without room. It needs no memory.
    pub fn new(alloc: Global) -> Tree
        ensures holes { result.holes ≡ [] }
        ensures room { result.room ≡ 0 }
    {
        Tree {
            alloc,
            root: None,
            spare: None,
            len: 0,
            nodes: 0,
        }
    }

    /// How many holes there are.
    pub fn len(&self) -> u64
        ensures { result ≡ length self.now.holes }
    {
        self.len
    }

    /// The greatest size of all holes; 0 where there is none. The top of the tree knows it, so no walk is made.
    pub fn greatest(&self) -> u64
        ensures { result ≡ greatest_of self.now.holes }
    {
        nodes::greatest(&self.root)
    }

    /// Makes room for `count` more holes.
    ///
    /// # Errors
    ///
    /// [`Fault::Memory`] alone, where the room was missing. The holes are as before, and the room never shrinks here:
    /// a call that is refused keeps the nodes that it got.
    pub fn reserve(&mut self, count: u64) -> Result<(), Fault>
        ensures ok { OnOk result (count ≤ self.new.room) }
        ensures holes { self.new.holes ≡ self.old.holes }
        ensures room { self.old.room ≤ self.new.room }
        ensures only { IfErr result (λ fault. fault ≡ Fault.Memory) }
        ensures memory { OnErr result (self.old.room < count) }
    {
        if make_nodes(
            self.alloc,
            &mut self.spare,
            &mut self.nodes,
            self.len,
            count,
        ) {
            Ok(())
        } else {
            Err(Fault::Memory)
        }
    }

    /// The hole of greatest place before `place`, and the one of least place from it on.
    pub fn around(&self, place: u64) -> (Option<(u64, u64)>, Option<(u64, u64)>)
        ensures before { result.0 ≡ last_before place self.now.holes }
        ensures from { result.1 ≡ first_from place self.now.holes }
    {
        walks::find_around(&self.root, place)
    }

    /// The hole of least place whose size is at least `size`, which is not 0. It makes at most two steps for each binary
    /// digit of the number of holes, and one at least where there are holes. At most 2^32 were counted before.
    pub fn first_fit_counted(&self, size: u64, steps: &mut Steps) -> Option<(u64, u64)>
        requires some { 0 < size }
        requires limit { steps.old ≤ 2 ^ 32 }
        ensures found { result ≡ first_large size self.now.holes }
        ensures not_fewer { steps.old ≤ steps.new }
        ensures least { 0 < length self.now.holes → steps.old < steps.new }
        ensures steps { (d : ℕ) → length self.now.holes < 2 ^ d → steps.new ≤ steps.old + 2 * d }
    {
        height_law(&self.root);
        walks::find_large(&self.root, size, steps)
    }

    /// The hole of least place from `place` on whose size is at least `size`, which is not 0.
    pub fn first_fit_from(&self, place: u64, size: u64) -> Option<(u64, u64)>
        requires some { 0 < size }
        ensures { result ≡ first_large_from place size self.now.holes }
    {
        // No place is below the least one, so none has to be compared.
        if place == 0 {
            return self.first_fit_counted(size, &mut Steps::new());
        }
        walks::find_large_from(&self.root, place, size)
    }

    /// Puts a hole in its place. It touches no other, and needs no memory.
    pub fn insert(&mut self, hole: (u64, u64))
        requires room { 1 ≤ self.old.room }
        requires rising { IsRising 0 (with_hole hole self.old.holes) (2 ^ 41) }
        ensures holes { self.new.holes ≡ with_hole hole self.old.holes }
        ensures room { self.new.room + 1 ≡ self.old.room }
    {
        height_law(&self.root);
        let Some(chain) = self.spare.take() else {
            unreachable!()
        };
        let (node, spare) = pop(chain);
        self.spare = spare;
        changes::insert(&mut self.root, node, hole);
        self.len += 1;
    }

    /// Takes out the hole of a place that is there.
    pub fn remove(&mut self, place: u64)
        requires there { IsSome (at_place place self.old.holes) }
        ensures holes { self.new.holes ≡ without_place place self.old.holes }
        ensures room { self.new.room ≡ self.old.room + 1 }
    {
        height_law(&self.root);
        let node = changes::remove(&mut self.root, place);
        self.spare = push(self.spare.take(), node);
        self.len -= 1;
    }

    /// Moves the hole of a place that is there to the place `to`, and makes it as large as `size`, which is no less than
    /// it has. It touches no other then, so each hole stays where it is in the tree. It needs no memory.
    pub fn grow(&mut self, place: u64, to: u64, size: u64)
        requires { MayGrow place to size self.old.holes }
        ensures holes { self.new.holes ≡ with_hole_moved place to size self.old.holes }
        ensures room { self.new.room ≡ self.old.room }
    {
        changes::grow(&mut self.root, place, to, size);
    }

    /// Takes the first `size` bytes of the hole of least place that is so large, and returns the hole as it was. Its
    /// place rises by `size` and its size falls by it, or the hole goes where nothing of it is left. The size is not 0.
    /// It needs no memory.
    pub fn take_front(&mut self, size: u64) -> (u64, u64)
        requires some { 0 < size }
        requires fits { IsSome (first_large size self.old.holes) }
        ensures hole { first_large size self.old.holes ≡ Some result }
        ensures holes { self.new.holes ≡ without_front size self.old.holes }
        ensures nodes { length self.new.holes + self.new.room ≡ length self.old.holes + self.old.room }
    {
        let hole = changes::cut_front(&mut self.root, size);
        if hole.1 == size {
            self.remove(hole.0);
        }
        hole
    }
}

/// Adds nodes that wait until `count` do. It returns whether there was memory for all of them.
fn make_nodes(alloc: Global, spare: &mut Link, nodes: &mut u64, len: u64, count: u64) -> bool
    requires chain { IsChain spare.old }
    requires nodes { nodes.old ≡ len + length_of spare.old }
    requires limit { nodes.old < 2 ^ 64 }
    ensures chain { IsChain spare.new }
    ensures nodes { nodes.new ≡ len + length_of spare.new }
    ensures limit { nodes.new < 2 ^ 64 }
    ensures room { length_of spare.old ≤ length_of spare.new }
    ensures made { MatchBool result (count ≤ length_of spare.new) (length_of spare.old < count) }
{
    while *nodes - len < count {
        let Some(more) = nodes.checked_add(1) else {
            return false
        };
        let Some(node) = new_node(alloc) else {
            return false
        };
        *spare = push(spare.take(), node);
        *nodes = more;
    }
    true
}

/// Drops a chain node by node, since a drop of the whole goes as deep as the chain is long.
fn drop_chain(chain: Link)
    requires { IsChain chain }
{
    let mut rest = chain;
    while let Some(node) = rest {
        let (_, others) = pop(node);
        rest = others;
    }
}
